ghost use Rattle.std.specs.Prelude.{◌≡◌, Some, None, if◌then◌else◌};
ghost use Rattle.std.specs.Option.{option_to_list};
ghost use Rattle.plain_text.specs.Bytes.{is_text};
ghost use Rattle.script_text.specs.Forms.{command_by, command_from, maker_by, no_lists};
ghost use Rattle.script_text.specs.declared.command.Command.{Command};
ghost use Rattle.script_text.specs.declared.form.Form.TheVariants.{Alone, One, Two, Three, Four};
ghost use Rattle.script_text.specs.declared.form.Part.TheVariants as part;

use crate::form::{Form, Part};
use crate::{Command, Edit, Maker, Question};
use plain_text::Name;
use simplex::{Lists, Numbers};
use std::alloc::Global;

/// The command with this form, behind a target or without. None exactly where there is none.
pub fn command_from(alloc: Global, target: Option<Name>, form: Form) -> Option<Command>
    ensures { result ≡ command_from target form }
{
    match target {
        Some(name) => maker(alloc, form).map(|maker| Command::Make { name, maker }),
        None => command(alloc, form),
    }
}

// ---- assignments

fn maker(alloc: Global, form: Form) -> Option<Maker>
    ensures { result ≡ maker_by form }
{
    match form {
        Form::Alone(a) => facets(alloc, a),
        Form::One(word, a) => maker_of_one(word, a),
        Form::Two(word, a, b) => maker_of_two(alloc, word, a, b),
        Form::Three(word, a, b, c) => maker_of_three(word, a, b, c),
        Form::Four(word, a, b, c, d) => maker_of_four(word, a, b, c, d),
    }
}

fn facets(alloc: Global, a: Part) -> Option<Maker>
    ensures { result ≡ maker_by (Alone a) }
{
    match a {
        Part::Lists(lists) => Some(Maker::Facets { lists }),
        Part::List(list) => no_lists(alloc, &list).map(|lists| Maker::Facets { lists }),
        Part::Name(_) | Part::Number(_) => None,
    }
}

fn maker_of_one(word: Name, a: Part) -> Option<Maker>
    ensures { result ≡ maker_by (One word a) }
{
    match a {
        Part::Name(of) => match word {
            _ if is(word, b"copy") => Some(Maker::Copy { of }),
            _ if is(word, b"boundary") => Some(Maker::Boundary { of }),
            _ if is(word, b"cone") => Some(Maker::Cone { of }),
            _ if is(word, b"suspension") => Some(Maker::Suspension { of }),
            _ => None,
        },
        Part::Number(d) => match word {
            _ if is(word, b"bdsimplex") => Some(Maker::BdSimplex { d }),
            _ if is(word, b"bdcross") => Some(Maker::BdCross { d }),
            _ => None,
        },
        Part::List(_) | Part::Lists(_) => None,
    }
}

fn maker_of_two(alloc: Global, word: Name, a: Part, b: Part) -> Option<Maker>
    ensures { result ≡ maker_by (Two word a b) }
{
    match a {
        Part::Name(of) => maker_of_name(alloc, word, of, b),
        Part::Number(k) => match b {
            Part::Number(n) => only(word, b"cyclic", Maker::Cyclic { k, n }),
            Part::Name(_) | Part::List(_) | Part::Lists(_) => None,
        },
        Part::List(_) | Part::Lists(_) => None,
    }
}

fn maker_of_name(alloc: Global, word: Name, of: Name, b: Part) -> Option<Maker>
    ensures { result ≡ maker_by (Two word (part.Name of) b) }
{
    match b {
        Part::Name(right) => only(word, b"join", Maker::Join { left: of, right }),
        Part::Number(k) => only(word, b"skeleton", Maker::Skeleton { of, k }),
        Part::List(face) => maker_of_face(alloc, word, of, face),
        Part::Lists(pairs) => relabel(word, of, pairs),
    }
}

fn maker_of_face(alloc: Global, word: Name, of: Name, face: Numbers) -> Option<Maker>
    ensures { result ≡ maker_by (Two word (part.Name of) (part.List face)) }
{
    match word {
        _ if is(word, b"link") => Some(Maker::Link { of, face }),
        _ if is(word, b"star") => Some(Maker::Star { of, face }),
        _ if is(word, b"deletion") => Some(Maker::Deletion { of, face }),
        _ => relabel(word, of, no_lists(alloc, &face)?),
    }
}

fn relabel(word: Name, of: Name, pairs: Lists) -> Option<Maker>
    ensures { result ≡ maker_by (Two word (part.Name of) (part.Lists pairs)) }
{
    only(word, b"relabel", Maker::Relabel { of, pairs })
}

fn maker_of_three(word: Name, a: Part, b: Part, c: Part) -> Option<Maker>
    ensures { result ≡ maker_by (Three word a b c) }
{
    match a {
        Part::Name(of) => match b {
            Part::List(first) => handle(word, of, first, c),
            Part::Name(_) | Part::Number(_) | Part::Lists(_) => None,
        },
        Part::Number(d) => match b {
            Part::Number(n) => stacked(word, d, n, c),
            Part::Name(_) | Part::List(_) | Part::Lists(_) => None,
        },
        Part::List(_) | Part::Lists(_) => None,
    }
}

fn handle(word: Name, of: Name, first: Numbers, c: Part) -> Option<Maker>
    ensures { result ≡ maker_by (Three word (part.Name of) (part.List first) c) }
{
    match c {
        Part::List(second) => only(word, b"handle", Maker::Handle { of, first, second }),
        Part::Name(_) | Part::Number(_) | Part::Lists(_) => None,
    }
}

fn stacked(word: Name, d: u64, n: u64, c: Part) -> Option<Maker>
    ensures { result ≡ maker_by (Three word (part.Number d) (part.Number n) c) }
{
    match c {
        Part::Number(seed) => only(word, b"stacked", Maker::Stacked { d, n, seed }),
        Part::Name(_) | Part::List(_) | Part::Lists(_) => None,
    }
}

fn maker_of_four(word: Name, a: Part, b: Part, c: Part, d: Part) -> Option<Maker>
    ensures { result ≡ maker_by (Four word a b c d) }
{
    match a {
        Part::Name(left) => match b {
            Part::List(left_facet) => sum(word, left, left_facet, c, d),
            Part::Name(_) | Part::Number(_) | Part::Lists(_) => None,
        },
        Part::Number(_) | Part::List(_) | Part::Lists(_) => None,
    }
}

fn sum(word: Name, left: Name, left_facet: Numbers, c: Part, d: Part) -> Option<Maker>
    ensures { result ≡ maker_by (Four word (part.Name left) (part.List left_facet) c d) }
{
    match c {
        Part::Name(right) => match d {
            Part::List(right_facet) => only(
                word,
                b"sum",
                Maker::Sum {
                    left,
                    left_facet,
                    right,
                    right_facet,
                },
            ),
            Part::Name(_) | Part::Number(_) | Part::Lists(_) => None,
        },
        Part::Number(_) | Part::List(_) | Part::Lists(_) => None,
    }
}

// ---- the other commands

fn command(alloc: Global, form: Form) -> Option<Command>
    ensures { result ≡ command_by form }
{
    match form {
        Form::Alone(_) => None,
        Form::One(word, a) => command_of_one(alloc, word, a),
        Form::Two(word, a, b) => command_of_two(word, a, b),
        Form::Three(word, a, b, c) => command_of_three(word, a, b, c),
        Form::Four(word, a, b, c, d) => command_of_four(word, a, b, c, d),
    }
}

fn command_of_one(alloc: Global, word: Name, a: Part) -> Option<Command>
    ensures { result ≡ command_by (One word a) }
{
    match a {
        Part::Name(x) => command_of_name(word, x),
        Part::List(list) => show(word, no_lists(alloc, &list)?),
        Part::Lists(lists) => show(word, lists),
        Part::Number(_) => None,
    }
}

fn show(word: Name, lists: Lists) -> Option<Command>
    ensures { result ≡ command_by (One word (part.Lists lists)) }
{
    only(word, b"show", Command::Show { lists })
}

fn command_of_name(word: Name, x: Name) -> Option<Command>
    ensures { result ≡ command_by (One word (part.Name x)) }
{
    match word {
        _ if is(word, b"print") => Some(ask(x, Question::Print)),
        _ if is(word, b"fvec") => Some(ask(x, Question::Fvec)),
        _ if is(word, b"hvec") => Some(ask(x, Question::Hvec)),
        _ if is(word, b"gvec") => Some(ask(x, Question::Gvec)),
        _ if is(word, b"euler") => Some(ask(x, Question::Euler)),
        _ if is(word, b"options") => Some(ask(x, Question::Options)),
        _ if is(word, b"betti") => Some(ask(x, Question::Betti)),
        _ if is(word, b"components") => Some(ask(x, Question::Components)),
        _ if is(word, b"closed") => Some(ask(x, Question::Closed)),
        _ if is(word, b"strong") => Some(ask(x, Question::Strong)),
        _ if is(word, b"undo") => Some(change(x, Edit::Undo)),
        _ if is(word, b"redo") => Some(change(x, Edit::Redo)),
        _ => None,
    }
}

fn command_of_two(word: Name, a: Part, b: Part) -> Option<Command>
    ensures { result ≡ command_by (Two word a b) }
{
    match a {
        Part::Name(x) => match b {
            Part::Number(k) => command_of_number(word, x, k),
            Part::List(face) => command_of_face(word, x, face),
            Part::Name(_) | Part::Lists(_) => None,
        },
        Part::Number(_) | Part::List(_) | Part::Lists(_) => None,
    }
}

fn command_of_number(word: Name, x: Name, k: u64) -> Option<Command>
    ensures { result ≡ command_by (Two word (part.Name x) (part.Number k)) }
{
    match word {
        _ if is(word, b"faces") => Some(ask(x, Question::Faces { k })),
        _ if is(word, b"options") => Some(ask(x, Question::OptionsOf { class: k })),
        _ => None,
    }
}

fn command_of_face(word: Name, x: Name, face: Numbers) -> Option<Command>
    ensures { result ≡ command_by (Two word (part.Name x) (part.List face)) }
{
    match word {
        _ if is(word, b"degree") => Some(ask(x, Question::Degree { face })),
        _ if is(word, b"add") => Some(change(x, Edit::Add { face })),
        _ if is(word, b"drop") => Some(change(x, Edit::Drop { face })),
        _ if is(word, b"collapse") => Some(change(x, Edit::Collapse { face })),
        _ => None,
    }
}

fn command_of_three(word: Name, a: Part, b: Part, c: Part) -> Option<Command>
    ensures { result ≡ command_by (Three word a b c) }
{
    match a {
        Part::Name(x) => match b {
            Part::Number(budget) => walk(word, x, budget, c),
            Part::List(out) => flip(word, x, out, c),
            Part::Name(_) | Part::Lists(_) => None,
        },
        Part::Number(_) | Part::List(_) | Part::Lists(_) => None,
    }
}

fn walk(word: Name, name: Name, budget: u64, c: Part) -> Option<Command>
    ensures { result ≡ command_by (Three word (part.Name name) (part.Number budget) c) }
{
    match c {
        Part::Number(seed) => match word {
            _ if is(word, b"reduce") => Some(change(name, Edit::Reduce { budget, seed })),
            _ if is(word, b"sphere") => Some(Command::Sphere { name, budget, seed }),
            _ if is(word, b"manifold") => Some(Command::Manifold { name, budget, seed }),
            _ => None,
        },
        Part::Name(_) | Part::List(_) | Part::Lists(_) => None,
    }
}

fn flip(word: Name, x: Name, a: Numbers, c: Part) -> Option<Command>
    ensures { result ≡ command_by (Three word (part.Name x) (part.List a) c) }
{
    match c {
        Part::List(b) => only(word, b"flip", change(x, Edit::Flip { a, b })),
        Part::Name(_) | Part::Number(_) | Part::Lists(_) => None,
    }
}

fn command_of_four(word: Name, a: Part, b: Part, c: Part, d: Part) -> Option<Command>
    ensures { result ≡ command_by (Four word a b c d) }
{
    match a {
        Part::Name(left) => match b {
            Part::Name(right) => walks(word, left, right, c, d),
            Part::Number(_) | Part::List(_) | Part::Lists(_) => None,
        },
        Part::Number(_) | Part::List(_) | Part::Lists(_) => None,
    }
}

fn walks(word: Name, left: Name, right: Name, c: Part, d: Part) -> Option<Command>
    ensures { result ≡ command_by (Four word (part.Name left) (part.Name right) c d) }
{
    match c {
        Part::Number(budget) => match d {
            Part::Number(seed) => only(
                word,
                b"equivalent",
                Command::Equivalent {
                    left,
                    right,
                    budget,
                    seed,
                },
            ),
            Part::Name(_) | Part::List(_) | Part::Lists(_) => None,
        },
        Part::Name(_) | Part::List(_) | Part::Lists(_) => None,
    }
}

// ---- what both need

// Whether the word is this one.
fn is(word: Name, text: &[u8]) -> bool
    ensures { result ≡ is_text word text.now }
{
    word.as_bytes() == text
}

// The value, where the word is the one that it has.
fn only<T: Drop>(word: Name, text: &[u8], value: T) -> Option<T>
    ensures { result ≡ (if is_text word text.now then Some value else None) }
{
    if is(word, text) { Some(value) } else { None }
}

// The list of no lists, where the list of numbers is empty: the tokens of both are one.
fn no_lists(alloc: Global, list: &Numbers) -> Option<Lists>
    ensures { option_to_list result ≡ no_lists list.now }
{
    if list.len() == 0 {
        Some(Lists::new(alloc))
    } else {
        None
    }
}

fn ask(name: Name, question: Question) -> Command
    ensures { result ≡ Command.Ask name question }
{
    Command::Ask { name, question }
}

fn change(name: Name, edit: Edit) -> Command
    ensures { result ≡ Command.Change name edit }
{
    Command::Change { name, edit }
}
