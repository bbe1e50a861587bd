ghost use Rattle.std.specs.Prelude.{◌≡◌, ◌≤◌, None, is_some, IfOk, IfSome, OnOk, IfErr};
ghost use Rattle.simplex.specs.FirstFailing.{first_failing};
ghost use Rattle.facet_set.specs.Numbers.{weight, weight_limit};
ghost use Rattle.script_text.specs.declared.command.Question.{Question};
ghost use Rattle.shell_names.specs.State.{holds, present};
ghost use Rattle.script_shell.specs.Commands.{asking, asking_tests, answering};
ghost use Rattle.script_shell.specs.Stops.{StopsAt};

use crate::counting;
use crate::counting::counts;
use crate::lists::simplex_first;
use crate::parts::not_void;
use crate::purity::pure;
use crate::stop::Stop;
use face_vectors::{euler, f, g, h};
use facet_set::{Facets, WEIGHT_LIMIT};
use flip_rules::options;
use local_parts::{components, is_closed, is_strong};
use reply_texts::{
    faces_reply, facets_reply, flips_reply, number_reply, numbers_reply, row_reply, yes_or_no,
};
use script_text::{Condition, Name, Question};
use shell_names::Names;
use simplex::{Memory, Numbers, Text};
use std::alloc::Global;

/// A question: its answer where no condition refuses it.
pub fn ask(alloc: Global, names: &Names, name: &Name, question: &Question) -> Result<Text, Stop>
    ensures passed { OnOk result (first_failing (answering names.now name.now (asking (present names.now name.now) question.now)).tests ≡ None) }
    ensures text { IfOk result (λ text. text ≡ (asking (present names.now name.now) question.now).reply) }
    ensures refused { IfErr result (λ stop. StopsAt stop (first_failing (answering names.now name.now (asking (present names.now name.now) question.now)).tests)) }
{
    let Some(complex) = held(names, name) else {
        return Err(Stop::Refused(Condition::NoName));
    };
    answer(alloc, complex, question)
}

// The present complex of the name, which is no heavier than a shell's complexes are together.
fn held<'a>(names: &'a Names, name: &Name) -> Option<&'a Facets>
    ensures held { is_some result ≡ holds names.now name.now }
    ensures value { IfSome result (λ c. c.now ≡ present names.now name.now) }
    ensures weight { IfSome result (λ c. weight c.now ≤ weight_limit) }
{
    prove!(names.weight() <= WEIGHT_LIMIT);
    names.present(name)
}

// The answer of a complex, where no condition of the question refuses it.
fn answer(alloc: Global, complex: &Facets, question: &Question) -> Result<Text, Stop>
    requires { weight complex.now ≤ weight_limit }
    ensures passed { OnOk result (first_failing (asking_tests (asking complex.now question.now)) ≡ None) }
    ensures text { IfOk result (λ text. text ≡ (asking complex.now question.now).reply) }
    ensures refused { IfErr result (λ stop. StopsAt stop (first_failing (asking_tests (asking complex.now question.now)))) }
{
    match question {
        Question::Print => Ok(facets_reply(alloc, complex)?),
        Question::Fvec => Ok(fvec(alloc, complex)?),
        Question::Hvec => {
            not_void(complex)?;
            Ok(hvec(alloc, complex)?)
        }
        Question::Gvec => {
            not_void(complex)?;
            Ok(gvec(alloc, complex)?)
        }
        Question::Euler => Ok(characteristic(alloc, complex)?),
        Question::Faces { k } => Ok(faces(alloc, complex, *k)?),
        Question::Degree { face } => degree(alloc, complex, face),
        Question::Betti => betti(alloc, complex),
        Question::Components => Ok(component_count(alloc, complex)?),
        Question::Closed => closed(alloc, complex),
        Question::Strong => strong(alloc, complex),
        Question::Options => option_counts(alloc, complex),
        Question::OptionsOf { class } => options_of(alloc, complex, *class),
    }
}

fn fvec(alloc: Global, complex: &Facets) -> Result<Text, Memory>
    requires { weight complex.now ≤ weight_limit }
    ensures { IfOk result (λ text. text ≡ (asking complex.now Question.Fvec).reply) }
{
    let counts = counts(alloc, complex)?;
    row_reply(alloc, b"fvec ", f(&counts).as_slice())
}

fn hvec(alloc: Global, complex: &Facets) -> Result<Text, Memory>
    requires { weight complex.now ≤ weight_limit }
    ensures { IfOk result (λ text. text ≡ (asking complex.now Question.Hvec).reply) }
{
    let counts = counts(alloc, complex)?;
    row_reply(alloc, b"hvec ", h(&counts).as_slice())
}

fn gvec(alloc: Global, complex: &Facets) -> Result<Text, Memory>
    requires { weight complex.now ≤ weight_limit }
    ensures { IfOk result (λ text. text ≡ (asking complex.now Question.Gvec).reply) }
{
    let counts = counts(alloc, complex)?;
    row_reply(alloc, b"gvec ", g(&counts).as_slice())
}

// The Euler characteristic.
fn characteristic(alloc: Global, complex: &Facets) -> Result<Text, Memory>
    requires { weight complex.now ≤ weight_limit }
    ensures { IfOk result (λ text. text ≡ (asking complex.now Question.Euler).reply) }
{
    let counts = counts(alloc, complex)?;
    number_reply(alloc, b"euler ", euler(&counts) as i128)
}

fn faces(alloc: Global, complex: &Facets, k: u64) -> Result<Text, Memory>
    ensures { IfOk result (λ text. text ≡ (asking complex.now (Question.Faces k)).reply) }
{
    let faces = counting::faces(alloc, complex, k)?;
    faces_reply(alloc, faces.as_slice())
}

fn degree(alloc: Global, complex: &Facets, face: &Numbers) -> Result<Text, Stop>
    ensures passed { OnOk result (first_failing (asking_tests (asking complex.now (Question.Degree face.now))) ≡ None) }
    ensures text { IfOk result (λ text. text ≡ (asking complex.now (Question.Degree face.now)).reply) }
    ensures refused { IfErr result (λ stop. StopsAt stop (first_failing (asking_tests (asking complex.now (Question.Degree face.now))))) }
{
    let s = simplex_first(alloc, face)?;
    if !complex.has_face(&s) {
        return Err(Stop::Refused(Condition::NotFace));
    }
    let count = counting::degree(complex, &s);
    Ok(number_reply(alloc, b"degree ", count as i128)?)
}

// The Betti numbers over the field of two elements.
fn betti(alloc: Global, complex: &Facets) -> Result<Text, Stop>
    ensures passed { OnOk result (first_failing (asking_tests (asking complex.now Question.Betti)) ≡ None) }
    ensures text { IfOk result (λ text. text ≡ (asking complex.now Question.Betti).reply) }
    ensures refused { IfErr result (λ stop. StopsAt stop (first_failing (asking_tests (asking complex.now Question.Betti)))) }
{
    let numbers = counting::betti(alloc, complex)?;
    Ok(numbers_reply(alloc, b"betti ", numbers.as_slice())?)
}

// The number of connected components.
fn component_count(alloc: Global, complex: &Facets) -> Result<Text, Memory>
    ensures { IfOk result (λ text. text ≡ (asking complex.now Question.Components).reply) }
{
    let count = components(alloc, complex)?;
    number_reply(alloc, b"components ", count as i128)
}

fn closed(alloc: Global, complex: &Facets) -> Result<Text, Stop>
    ensures passed { OnOk result (first_failing (asking_tests (asking complex.now Question.Closed)) ≡ None) }
    ensures text { IfOk result (λ text. text ≡ (asking complex.now Question.Closed).reply) }
    ensures refused { IfErr result (λ stop. StopsAt stop (first_failing (asking_tests (asking complex.now Question.Closed)))) }
{
    not_void(complex)?;
    let closed = is_closed(alloc, complex)?;
    Ok(yes_or_no(alloc, b"closed ", closed)?)
}

fn strong(alloc: Global, complex: &Facets) -> Result<Text, Stop>
    ensures passed { OnOk result (first_failing (asking_tests (asking complex.now Question.Strong)) ≡ None) }
    ensures text { IfOk result (λ text. text ≡ (asking complex.now Question.Strong).reply) }
    ensures refused { IfErr result (λ stop. StopsAt stop (first_failing (asking_tests (asking complex.now Question.Strong)))) }
{
    not_void(complex)?;
    let strong = is_strong(alloc, complex)?;
    Ok(yes_or_no(alloc, b"strong ", strong)?)
}

// How many flips of each class it allows.
fn option_counts(alloc: Global, complex: &Facets) -> Result<Text, Stop>
    ensures passed { OnOk result (first_failing (asking_tests (asking complex.now Question.Options)) ≡ None) }
    ensures text { IfOk result (λ text. text ≡ (asking complex.now Question.Options).reply) }
    ensures refused { IfErr result (λ stop. StopsAt stop (first_failing (asking_tests (asking complex.now Question.Options)))) }
{
    pure(complex)?;
    let counts = counting::option_counts(alloc, complex)?;
    Ok(numbers_reply(alloc, b"options ", counts.as_slice())?)
}

// The flips of the class that it allows.
fn options_of(alloc: Global, complex: &Facets, class: u64) -> Result<Text, Stop>
    ensures passed { OnOk result (first_failing (asking_tests (asking complex.now (Question.OptionsOf class))) ≡ None) }
    ensures text { IfOk result (λ text. text ≡ (asking complex.now (Question.OptionsOf class)).reply) }
    ensures refused { IfErr result (λ stop. StopsAt stop (first_failing (asking_tests (asking complex.now (Question.OptionsOf class))))) }
{
    pure(complex)?;
    if class >= complex.size() as u64 {
        return Err(Stop::Refused(Condition::Range));
    }
    let flips = options(alloc, complex, class as usize)?;
    Ok(flips_reply(alloc, flips.as_slice())?)
}
