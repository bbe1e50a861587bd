ghost use Rattle.std.specs.Prelude.{◌≡◌, ◌≤◌, ◌<◌, ◌+◌, ◌++◌, ◌↔◌, ◌⊎◌, Some, ℕ, List, [], ◌∷◌, false, true, length, map, IfOk, OnOk, IfSome};
ghost use Rattle.std.specs.String.{string_bytes};
ghost use Rattle.run_ends.specs.Counts.{Rose};
ghost use Rattle.run_ends.specs.Ends.{AtEnd, Grows};
ghost use Rattle.script_shell.specs.Exits.{IsOneOf};
ghost use Rattle.replay_report.specs.Report.{replay_text, refuses_part};
ghost use Rattle.script_shell.specs.Bench.{bench_script, bench_text};
ghost use Rattle.script_shell.specs.InVain.{FormInVain, OutputInVain, ScriptInVain};
ghost use Rattle.script_shell.specs.Output.{form_output, form_refuses, has_form, is_form, is_run, is_run_form, reads_input, output, refusing, usage_text};
ghost use Rattle.script_shell.specs.Replays.{FormReplays, OutputReplays, Replays};
ghost use Rattle.script_shell.specs.Streams.{GrowsByFront, GrowsPast, Gave, before_last, input_limit};
ghost use Rattle.script_shell.specs.Transcript.{answered};

use crate::bench::bench;
use crate::conversation::converse;
use crate::exit::Exit;
use crate::stream::{ReadEnd, read_all, send};
use crate::transcript::Answers;
use crate::words::{Form, form_of};
use replay_report::replay_all;
use run_ends::{Sink, SinkFault, Source, SureSink, SureSource};
use simplex::Memory;
use std::alloc::Global;

/// Does all that the program does, by the words after its name. `run` writes the transcript of the
/// input, each reply before it reads on, and `replay` the report on the certificates in it; the input has at most
/// 16,777,216 bytes.
/// `bench D N SEED` reads no input, and writes how a run of its own goes. For words of no form the
/// usage line is written. The words and the limits are own.
pub fn run_program<S: Source, K: Sink>(
    alloc: Global,
    words: &[String],
    source: &mut S,
    sink: &mut K,
) -> Exit
    requires unfinished { K.finished sink.old ≡ false }

    // At Done and Refused the output of all that was left in the source was written, and the source is at its end where the words
    // have it read.
    ensures done { result ≡ Exit.Done → IfSome (S.left source.old) (λ bytes.
        Grows (K.written sink.old) (K.written sink.new) (output (map string_bytes words.now) bytes)) }
    ensures done_refuses_nothing { result ≡ Exit.Done → IfSome (S.left source.old) (λ bytes.
        refusing (map string_bytes words.now) bytes ≡ false) }
    ensures refused { result ≡ Exit.Refused → IfSome (S.left source.old) (λ bytes.
        Grows (K.written sink.old) (K.written sink.new) (output (map string_bytes words.now) bytes)) }
    ensures refused_refuses { result ≡ Exit.Refused → IfSome (S.left source.old) (λ bytes.
        refusing (map string_bytes words.now) bytes ≡ true) }
    ensures replays { IsOneOf result (Exit.Done ∷ Exit.Refused ∷ []) → IfSome (S.left source.old) (λ bytes.
        OutputReplays (map string_bytes words.now) bytes) }
    ensures in_vain { IsOneOf result (Exit.Done ∷ Exit.Refused ∷ []) → IfSome (S.left source.old) (λ bytes.
        OutputInVain (map string_bytes words.now) bytes) }
    ensures at_end { reads_input (map string_bytes words.now) ≡ true
        → IsOneOf result (Exit.Done ∷ Exit.Refused ∷ []) → AtEnd (S.left source.new) }

    // Words of a form that reads no input have one output, whatever the source tells, and in it nothing is refused.
    ensures bench { has_form (map string_bytes words.now) ≡ true → reads_input (map string_bytes words.now) ≡ false
        → IsOneOf result (Exit.Done ∷ Exit.Memory ∷ Exit.WriteFault ∷ []) }
    ensures bench_done { reads_input (map string_bytes words.now) ≡ false → result ≡ Exit.Done
        → Grows (K.written sink.old) (K.written sink.new) (output (map string_bytes words.now) []) }
    ensures bench_replays { reads_input (map string_bytes words.now) ≡ false → result ≡ Exit.Done
        → OutputReplays (map string_bytes words.now) [] }
    ensures bench_in_vain { reads_input (map string_bytes words.now) ≡ false → result ≡ Exit.Done
        → OutputInVain (map string_bytes words.now) [] }

    // The sink is finished at Done, Refused and Usage, and at no other end.
    ensures finished { IsOneOf result (Exit.Done ∷ Exit.Refused ∷ Exit.Usage ∷ [])
        → K.finished sink.new ≡ true }
    ensures unfinished { IsOneOf result (Exit.Memory ∷ Exit.ReadFault ∷ Exit.WriteFault ∷ Exit.TooLong ∷ [])
        → K.finished sink.new ≡ false }

    // Usage comes for words of no form alone, and for them no other end but Memory and WriteFault.
    ensures usage { result ≡ Exit.Usage → Grows (K.written sink.old) (K.written sink.new) usage_text }
    ensures no_form { result ≡ Exit.Usage → has_form (map string_bytes words.now) ≡ false }
    ensures usage_ends { has_form (map string_bytes words.now) ≡ false
        → IsOneOf result (Exit.Usage ∷ Exit.Memory ∷ Exit.WriteFault ∷ []) }
    ensures usage_front { has_form (map string_bytes words.now) ≡ false
        → GrowsByFront (K.written sink.old) (K.written sink.new) usage_text }

    // Words that have no input read leave the source as it was.
    ensures left { reads_input (map string_bytes words.now) ≡ false → S.left source.new ≡ S.left source.old }
    ensures taken { reads_input (map string_bytes words.now) ≡ false → S.taken source.new ≡ S.taken source.old }
    ensures faults { reads_input (map string_bytes words.now) ≡ false → S.faults source.new ≡ S.faults source.old }

    // What the source gave, and the causes of the other ends.
    ensures gave { (bytes : List ℕ)
        × Gave (S.left source.old) (S.left source.new) (S.taken source.old) (S.taken source.new) bytes }
    ensures read_fault { result ≡ Exit.ReadFault → Rose (S.faults source.old) (S.faults source.new) }
    ensures write_fault { result ≡ Exit.WriteFault → Rose (K.faults sink.old) (K.faults sink.new) }
    ensures read_told { S.faults source.old < S.faults source.new → result ≡ Exit.ReadFault }
    ensures write_told { K.faults sink.old < K.faults sink.new → result ≡ Exit.WriteFault }
    ensures too_long { (result ≡ Exit.TooLong) ↔ (S.taken source.old + input_limit < S.taken source.new) }
    ensures one_more { S.taken source.new ≤ S.taken source.old + input_limit + 1 }

    // What is written before an early end is a front of the output of the bytes that the source gave.
    ensures early { has_form (map string_bytes words.now) ≡ true
        → IsOneOf result (Exit.Memory ∷ Exit.ReadFault ∷ Exit.WriteFault ∷ Exit.TooLong ∷ [])
        → (bytes : List ℕ)
        × Gave (S.left source.old) (S.left source.new) (S.taken source.old) (S.taken source.new) bytes
        × GrowsByFront (K.written sink.old) (K.written sink.new) (output (map string_bytes words.now) bytes) }

    // `run` answers command by command. At a failed read just the answers to the whole commands that the source gave are written,
    ensures answered { is_run (map string_bytes words.now) ≡ true → result ≡ Exit.ReadFault
        → (bytes : List ℕ)
        × Gave (S.left source.old) (S.left source.new) (S.taken source.old) (S.taken source.new) bytes
        × Grows (K.written sink.old) (K.written sink.new) (answered bytes) }
    // and at each other early end at least those to what it gave before its last 65,536 bytes.
    ensures answered_before { is_run (map string_bytes words.now) ≡ true
        → IsOneOf result (Exit.Memory ∷ Exit.WriteFault ∷ Exit.TooLong ∷ [])
        → (bytes : List ℕ)
        × Gave (S.left source.old) (S.left source.new) (S.taken source.old) (S.taken source.new) bytes
        × GrowsPast (K.written sink.old) (K.written sink.new) (answered (before_last bytes)) }
    // What no `;` ends is answered at the end of the source alone.
    ensures whole_commands { is_run (map string_bytes words.now) ≡ true
        → IsOneOf result (Exit.Memory ∷ Exit.ReadFault ∷ Exit.WriteFault ∷ Exit.TooLong ∷ [])
        → (bytes : List ℕ)
        × Gave (S.left source.old) (S.left source.new) (S.taken source.old) (S.taken source.new) bytes
        × (GrowsByFront (K.written sink.old) (K.written sink.new) (answered bytes)
        ⊎ (AtEnd (S.left source.new)
        × GrowsByFront (K.written sink.old) (K.written sink.new) (output (map string_bytes words.now) bytes))) }

    // Where no count of faults rises and no more comes than the limit, the output is written, or memory is wanting.
    ensures complete { has_form (map string_bytes words.now) ≡ true
        → S.taken source.new ≤ S.taken source.old + input_limit
        → ¬ Rose (S.faults source.old) (S.faults source.new) → ¬ Rose (K.faults sink.old) (K.faults sink.new)
        → IsOneOf result (Exit.Done ∷ Exit.Refused ∷ Exit.Memory ∷ []) }
    ensures usage_complete { has_form (map string_bytes words.now) ≡ false
        → ¬ Rose (K.faults sink.old) (K.faults sink.new) → IsOneOf result (Exit.Usage ∷ Exit.Memory ∷ []) }
{
    let form = form_of(words);
    match form {
        Form::Run => converse(alloc, source, sink),
        Form::Replay => match read_all(alloc, source) {
            Ok(bytes) => write_output(alloc, form, &bytes, sink),
            Err(ReadEnd::Failed) => Exit::ReadFault,
            Err(ReadEnd::TooLong) => Exit::TooLong,
            Err(ReadEnd::Memory) => Exit::Memory,
        },
        Form::Bench { .. } => write_output(alloc, form, &[], sink),
        Form::NoForm => write_usage(sink),
    }
}

/// The same over ends that never fail: an input within the limit is answered, unless memory is wanting.
pub fn run_surely(
    alloc: Global,
    words: &[String],
    source: &mut SureSource,
    sink: &mut SureSink,
) -> Exit
    requires unfinished { sink.old.finished ≡ false }
    ensures complete { has_form (map string_bytes words.now) ≡ true
        → length source.old.left ≤ input_limit → IsOneOf result (Exit.Done ∷ Exit.Refused ∷ Exit.Memory ∷ []) }
    ensures output { IsOneOf result (Exit.Done ∷ Exit.Refused ∷ [])
        → sink.new.written ≡ sink.old.written ++ output (map string_bytes words.now) source.old.left }
    ensures done { result ≡ Exit.Done → refusing (map string_bytes words.now) source.old.left ≡ false }
    ensures refused { result ≡ Exit.Refused → refusing (map string_bytes words.now) source.old.left ≡ true }
    ensures replays { IsOneOf result (Exit.Done ∷ Exit.Refused ∷ [])
        → OutputReplays (map string_bytes words.now) source.old.left }
    ensures in_vain { IsOneOf result (Exit.Done ∷ Exit.Refused ∷ [])
        → OutputInVain (map string_bytes words.now) source.old.left }
    ensures at_end { reads_input (map string_bytes words.now) ≡ true
        → IsOneOf result (Exit.Done ∷ Exit.Refused ∷ []) → source.new.left ≡ [] }
    ensures finished { IsOneOf result (Exit.Done ∷ Exit.Refused ∷ Exit.Usage ∷ []) → sink.new.finished ≡ true }

    // Usage comes for words of no form alone, TooLong for an input above the limit alone, and no fault comes.
    ensures usage { result ≡ Exit.Usage → sink.new.written ≡ sink.old.written ++ usage_text }
    ensures no_form { result ≡ Exit.Usage → has_form (map string_bytes words.now) ≡ false }
    ensures usage_complete { has_form (map string_bytes words.now) ≡ false
        → IsOneOf result (Exit.Usage ∷ Exit.Memory ∷ []) }
    ensures too_long { result ≡ Exit.TooLong → input_limit < length source.old.left }
    ensures answered_before { is_run (map string_bytes words.now) ≡ true → IsOneOf result (Exit.Memory ∷ Exit.TooLong ∷ [])
        → (bytes : List ℕ)
        × (source.old.left ≡ bytes ++ source.new.left)
        × GrowsPast (Some sink.old.written) (Some sink.new.written) (answered (before_last bytes)) }
    ensures ends { IsOneOf result (Exit.Done ∷ Exit.Refused ∷ Exit.Usage ∷ Exit.Memory ∷ Exit.TooLong ∷ []) }
{
    run_program(alloc, words, source, sink)
}

// Writes the output of words of a form but `run`.
fn write_output<K: Sink>(alloc: Global, form: Form, bytes: &[u8], sink: &mut K) -> Exit
    requires unfinished { K.finished sink.old ≡ false }
    requires form { is_form form ≡ true }
    requires other { is_run_form form ≡ false }
    ensures kind { IsOneOf result (Exit.Done ∷ Exit.Refused ∷ Exit.Memory ∷ Exit.WriteFault ∷ []) }
    ensures written { IsOneOf result (Exit.Done ∷ Exit.Refused ∷ []) → Grows (K.written sink.old) (K.written sink.new) (form_output form bytes.now) }
    ensures done { result ≡ Exit.Done → form_refuses form bytes.now ≡ false }
    ensures refused { result ≡ Exit.Refused → form_refuses form bytes.now ≡ true }
    ensures replays { IsOneOf result (Exit.Done ∷ Exit.Refused ∷ []) → FormReplays form bytes.now }
    ensures in_vain { IsOneOf result (Exit.Done ∷ Exit.Refused ∷ []) → FormInVain form bytes.now }
    ensures finished { IsOneOf result (Exit.Done ∷ Exit.Refused ∷ Exit.Usage ∷ [])
        → K.finished sink.new ≡ true }
    ensures unfinished { IsOneOf result (Exit.Memory ∷ Exit.ReadFault ∷ Exit.WriteFault ∷ Exit.TooLong ∷ [])
        → K.finished sink.new ≡ false }
    ensures front { GrowsByFront (K.written sink.old) (K.written sink.new) (form_output form bytes.now) }
    ensures write_fault { result ≡ Exit.WriteFault → Rose (K.faults sink.old) (K.faults sink.new) }
    ensures write_told { K.faults sink.old < K.faults sink.new → result ≡ Exit.WriteFault }
    ensures complete { ¬ Rose (K.faults sink.old) (K.faults sink.new) → IsOneOf result (Exit.Done ∷ Exit.Refused ∷ Exit.Memory ∷ []) }
{
    let Ok(answers) = answers_to(alloc, form, bytes) else {
        return Exit::Memory;
    };
    match send(sink, answers.text.as_slice()) {
        Ok(()) if answers.refusing => Exit::Refused,
        Ok(()) => Exit::Done,
        Err(SinkFault::Failed) => Exit::WriteFault,
        Err(SinkFault::Memory) => Exit::Memory,
    }
}

// The output of words of a form but `run`.
fn answers_to(alloc: Global, form: Form, bytes: &[u8]) -> Result<Answers, Memory>
    requires form { is_form form ≡ true }
    requires other { is_run_form form ≡ false }
    ensures text { IfOk result (λ a. a.text ≡ form_output form bytes.now) }
    ensures refusing { IfOk result (λ a. a.refusing ≡ form_refuses form bytes.now) }
    ensures replays { OnOk result (FormReplays form bytes.now) }
    ensures in_vain { OnOk result (FormInVain form bytes.now) }
{
    match form {
        Form::Replay => replayed(alloc, bytes),
        Form::Bench { d, n, seed } => benched(alloc, d, n, seed),
        Form::Run | Form::NoForm => unreachable!(),
    }
}

// The report on the certificates in the bytes, and whether one of them is refused.
fn replayed(alloc: Global, bytes: &[u8]) -> Result<Answers, Memory>
    ensures text { IfOk result (λ a. a.text ≡ replay_text bytes.now) }
    ensures refusing { IfOk result (λ a. a.refusing ≡ refuses_part bytes.now) }
{
    let report = replay_all(alloc, bytes)?;
    Ok(Answers {
        refusing: report.accepted < report.parts,
        text: report.text,
    })
}

// What a bench writes, in which nothing is refused.
fn benched(alloc: Global, d: u64, n: u64, seed: u64) -> Result<Answers, Memory>
    ensures text { IfOk result (λ a. a.text ≡ bench_text d n seed) }
    ensures refusing { IfOk result (λ a. a.refusing ≡ false) }
    ensures replays { OnOk result (Replays (bench_script d n seed)) }
    ensures in_vain { OnOk result (ScriptInVain (bench_script d n seed)) }
{
    Ok(Answers {
        text: bench(alloc, d, n, seed)?,
        refusing: false,
    })
}

const USAGE: &[u8] = b"usage: simp run | simp replay | simp bench D N SEED\n";

// Writes the usage line.
#[tactic(auto, unfolding(crate::specs::Output::usage_text))]
fn write_usage<K: Sink>(sink: &mut K) -> Exit
    ensures kind { IsOneOf result (Exit.Usage ∷ Exit.Memory ∷ Exit.WriteFault ∷ []) }
    ensures written { result ≡ Exit.Usage → Grows (K.written sink.old) (K.written sink.new) usage_text }
    ensures finished { IsOneOf result (Exit.Done ∷ Exit.Refused ∷ Exit.Usage ∷ [])
        → K.finished sink.new ≡ true }
    ensures unfinished { IsOneOf result (Exit.Memory ∷ Exit.ReadFault ∷ Exit.WriteFault ∷ Exit.TooLong ∷ [])
        → K.finished sink.new ≡ false }
    ensures front { GrowsByFront (K.written sink.old) (K.written sink.new) usage_text }
    ensures write_fault { result ≡ Exit.WriteFault → Rose (K.faults sink.old) (K.faults sink.new) }
    ensures write_told { K.faults sink.old < K.faults sink.new → result ≡ Exit.WriteFault }
    ensures complete { ¬ Rose (K.faults sink.old) (K.faults sink.new) → IsOneOf result (Exit.Usage ∷ Exit.Memory ∷ []) }
{
    match send(sink, USAGE) {
        Ok(()) => Exit::Usage,
        Err(SinkFault::Failed) => Exit::WriteFault,
        Err(SinkFault::Memory) => Exit::Memory,
    }
}
