ghost use Rattle.std.specs.Prelude.{◌≡◌, map};
ghost use Rattle.std.specs.String.{string_bytes};
ghost use Rattle.plain_text.specs.Bytes.{number_of};
ghost use Rattle.script_shell.specs.Output.{bench_form, form_of, numbers_form, word_form};

use crate::bench::is_within;
use script_text::number_of;

/// What the words of the command line ask for.
#[derive(Clone, Copy, Debug, PartialEq, Eq)]
pub enum Form {
    /// The transcript of the input.
    Run,
    /// The report on the certificates in the input.
    Replay,
    /// The run that the three numbers make.
    Bench { d: u64, n: u64, seed: u64 },
    /// The words are of no form.
    NoForm,
}

/// The form of the words after the program's name. The forms are own.
#[tactic(auto, using(crate::proofs::FormLaws::no_form))]
pub fn form_of(words: &[String]) -> Form
    ensures { result ≡ form_of (map string_bytes words.now) }
{
    match words {
        [word] => word_form(word.as_bytes()),
        [word, d, n, seed] => {
            numbers_form(word.as_bytes(), d.as_bytes(), n.as_bytes(), seed.as_bytes())
        }
        _ => Form::NoForm,
    }
}

// The form of one word.
fn word_form(word: &[u8]) -> Form
    ensures { result ≡ word_form word.now }
{
    if word == b"run".as_slice() {
        Form::Run
    } else if word == b"replay".as_slice() {
        Form::Replay
    } else {
        Form::NoForm
    }
}

// The form of a word and three more.
fn numbers_form(word: &[u8], d: &[u8], n: &[u8], seed: &[u8]) -> Form
    ensures { result ≡ numbers_form word.now d.now n.now seed.now }
{
    if word == b"bench".as_slice() {
        bench_form(d, n, seed)
    } else {
        Form::NoForm
    }
}

// The form of `bench` with these words.
fn bench_form(d: &[u8], n: &[u8], seed: &[u8]) -> Form
    ensures { result ≡ bench_form (number_of d.now) (number_of n.now) (number_of seed.now) }
{
    match (number_of(d), number_of(n), number_of(seed)) {
        (Some(d), Some(n), Some(seed)) if is_within(d, n) => Form::Bench { d, n, seed },
        _ => Form::NoForm,
    }
}
