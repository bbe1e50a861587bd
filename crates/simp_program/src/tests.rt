//! Runs of the shell over ends in memory, and commands to it. They stand here so that the shell's own crate is proved once.
ghost use Rattle.std.specs.Prelude.{◌≤◌};
ghost use Rattle.script_shell.specs.Limits.{IsWithinStandard};

use run_ends::{MemSink, MemSource, Source, SureSink, SureSource};
use script_shell::{Exit, Limits, Reply, Shell, run_program, run_surely};
use script_text::{Command, Condition, Name, read_command};
use simplex::{Lists, Memory, Numbers};
use std::alloc::{AllocError, Global};
use std::process::Abort;
use std::test::Fail;

fn words_of(alloc: Global, text: &str) -> Result<Vec<String>, AllocError> {
    let mut words = Vec::new(alloc);
    for word in text.split_whitespace() {
        words.push(String::from_str(alloc, word)?)?;
    }
    Ok(words)
}

// The exit of a run over ends that cannot fail, and whether it wrote just this text.
fn ran(
    alloc: Global,
    words: &str,
    input: &[u8],
    piece: usize,
    text: &[u8],
) -> Result<(Exit, bool), Fail>
    requires { 1 ≤ piece }
{
    let words = words_of(alloc, words)?;
    let mut source = SureSource::new(alloc, input, piece)?;
    let mut sink = SureSink::new(alloc, 7);
    let ended = run_surely(alloc, words.as_slice(), &mut source, &mut sink);
    Ok((ended, sink.written() == text))
}

#[test]
fn scripts_have_their_transcripts(rt: HostRuntime) -> Result<(), Fail> {
    for (script, lines, exit) in [
        ("", "", Exit::Done),
        ("# only ; a comment", "", Exit::Done),
        (
            "show [[1,2,3],[2,1]];",
            "[1] facets [[1,2,3]]\n",
            Exit::Done,
        ),
        (
            "show []; show [[]]; show [[],[3]];;",
            "[1] facets []\n[2] facets [[]]\n[3] facets [[3]]\n",
            Exit::Done,
        ),
        (
            "; # no ; here\n;show [[7]] # nor ; here\n;",
            "[1] facets [[7]]\n",
            Exit::Done,
        ),
        ("show [[1,2]]", "[1] refused unended\n", Exit::Refused),
        (
            "show [[1,2]; show [[1]];",
            "[1] refused syntax\n[2] facets [[1]]\n",
            Exit::Refused,
        ),
        (
            "show [[1000001]]; show [[0]]; show [[1,1]]; show [[2],[1,1,0]];",
            "[1] refused label_range\n[2] refused label_range\n[3] refused label_twice\n[4] refused label_twice\n",
            Exit::Refused,
        ),
        (
            "show [[1,2,3,4,5,6,7,8,9,10,11,12,13]]; show [[4294967297]];",
            "[1] refused dim_limit\n[2] refused label_range\n",
            Exit::Refused,
        ),
    ] {
        let ended = ran(rt.alloc(), "run", script.as_bytes(), 7, lines.as_bytes())?;
        assert_eq!(rt; ended, (exit, true), "at {script}");
    }
    Ok(())
}

#[test]
fn words_of_no_form_write_the_usage(rt: HostRuntime) -> Result<(), Fail> {
    let usage = b"usage: simp run | simp replay | simp bench D N SEED\n";
    for words in [
        "",
        "go",
        "run x",
        "replay x",
        "bench 12 1 1",
        "bench 3 1",
        "bench 3 01 1",
    ] {
        let ended = ran(rt.alloc(), words, b"show [];", 7, usage.as_slice())?;
        assert_eq!(rt; ended, (Exit::Usage, true), "at {words}");
    }
    assert_eq!(rt; Exit::Usage.code(), 2);
    Ok(())
}

#[test]
fn replay_of_empty_input_checks_nothing(rt: HostRuntime) -> Result<(), Fail> {
    let ended = ran(rt.alloc(), "replay", b"", 7, b"checked 0 accepted 0\n")?;
    assert_eq!(rt; ended, (Exit::Done, true));
    Ok(())
}

const TWO_SHOWS: &[u8] = b"show [[1]];show [[2]];";

// The exit of a run over a source that fails at this call, and whether just this text was written.
fn ran_failing(alloc: Global, piece: usize, fail: u64, text: &[u8]) -> Result<(Exit, bool), Fail>
    requires { 1 ≤ piece }
{
    let words = words_of(alloc, "run")?;
    let mut source = MemSource::new(alloc, TWO_SHOWS, piece, &[fail])?;
    let mut sink = SureSink::new(alloc, 7);
    let ended = run_program(alloc, words.as_slice(), &mut source, &mut sink);
    Ok((ended, sink.written() == text))
}

#[test]
fn a_failed_read_leaves_the_answers_to_whole_commands(rt: HostRuntime) -> Result<(), Fail> {
    let ended = ran_failing(rt.alloc(), 11, 1, b"[1] facets [[1]]\n")?;
    assert_eq!(rt; ended, (Exit::ReadFault, true));
    let ended = ran_failing(rt.alloc(), 5, 1, b"")?;
    assert_eq!(rt; ended, (Exit::ReadFault, true));
    let ended = ran_failing(rt.alloc(), 5, 4, b"[1] facets [[1]]\n")?;
    assert_eq!(rt; ended, (Exit::ReadFault, true));
    let ended = ran_failing(rt.alloc(), 11, 3, b"[1] facets [[1]]\n[2] facets [[2]]\n")?;
    assert_eq!(rt; ended, (Exit::Done, true));
    Ok(())
}

#[test]
fn a_failing_sink_has_its_exit(rt: HostRuntime) -> Result<(), Fail> {
    let words = words_of(rt.alloc(), "run")?;
    let mut source = SureSource::new(rt.alloc(), TWO_SHOWS, 11)?;
    let mut sink = MemSink::new(rt.alloc(), 7, &[0])?;
    let ended = run_program(rt.alloc(), words.as_slice(), &mut source, &mut sink);
    assert_eq!(rt; ended, Exit::WriteFault);
    assert_eq!(rt; sink.written(), b"".as_slice());
    Ok(())
}

#[test]
fn a_failing_sink_stops_the_reading(rt: HostRuntime) -> Result<(), Fail> {
    let alloc = rt.alloc();
    let mut input = Vec::new(alloc);
    for _ in 0..20_000 {
        input.extend_from_slice(b"show [];")?;
    }
    let words = words_of(alloc, "run")?;
    let mut source = MemSource::new(alloc, &input, 65_536, &[])?;
    let mut sink = MemSink::new(alloc, 1, &[0])?;
    let ended = run_program(alloc, words.as_slice(), &mut source, &mut sink);
    assert_eq!(rt; ended, Exit::WriteFault);
    assert_eq!(rt; sink.written(), b"".as_slice());
    // all but the 65,536 bytes of one read are left
    let mut left = spaces(alloc, 160_000)?;
    assert_eq!(rt; source.read(&mut left), Ok(65_536));
    assert_eq!(rt; source.read(&mut left), Ok(28_928));
    assert_eq!(rt; source.read(&mut left), Ok(0));
    Ok(())
}

#[test]
fn the_limit_of_the_input_is_exact(rt: HostRuntime) -> Result<(), Fail> {
    for (count, exit) in [(16_777_216, Exit::Done), (16_777_217, Exit::TooLong)] {
        let spaces = spaces(rt.alloc(), count)?;
        let ended = ran(rt.alloc(), "run", &spaces, 1_000_000, b"")?;
        assert_eq!(rt; ended, (exit, true));
    }
    Ok(())
}

fn spaces(alloc: Global, count: usize) -> Result<Vec<u8>, AllocError> {
    vec![in alloc; b' '; count]
}

fn lists_of(alloc: Global, numbers: &[u64]) -> Result<Lists, Memory> {
    let mut lists = Lists::new(alloc);
    lists.push(Numbers::from_vec(Vec::from_slice(alloc, numbers)?))?;
    Ok(lists)
}

#[test]
fn a_shell_answers_and_refuses(rt: HostRuntime) -> Result<(), Fail> {
    let alloc = rt.alloc();
    let mut shell = Shell::new(alloc, Limits::STANDARD);
    for (numbers, text, refusal) in [
        ([3, 1, 2].as_slice(), "facets [[1,2,3]]\n", None),
        (
            [5, 5].as_slice(),
            "refused label_twice\n",
            Some(Condition::LabelTwice),
        ),
        (
            [0].as_slice(),
            "refused label_range\n",
            Some(Condition::LabelRange),
        ),
        (
            [1; 13].as_slice(),
            "refused dim_limit\n",
            Some(Condition::DimLimit),
        ),
    ] {
        let lists = lists_of(alloc, numbers)?;
        let reply = shell.perform(&Command::Show { lists })?;
        assert_eq!(rt; reply.text(), text.as_bytes());
        assert_eq!(rt; reply.refusal(), refusal);
    }
    Ok(())
}

fn answer(alloc: Global, shell: &mut Shell, command: &str) -> Result<Reply, Fail> {
    let command = read_command(alloc, command.as_bytes())?;
    Ok(shell.perform(&command)?)
}

// Gives the commands to the shell, one after another, and asks for these replies.
fn go_on(
    rt: &impl Abort,
    alloc: Global,
    shell: &mut Shell,
    dialogue: &[(&str, &str)],
) -> Result<(), Fail> {
    for (command, reply) in dialogue {
        let answered = answer(alloc, shell, command)?;
        assert_eq!(rt; answered.text(), reply.as_bytes(), "at {command}");
    }
    Ok(())
}

// The same with a shell of its own.
fn answers(
    rt: &impl Abort,
    alloc: Global,
    limits: Limits,
    dialogue: &[(&str, &str)],
) -> Result<(), Fail>
    requires { IsWithinStandard limits }
{
    go_on(rt, alloc, &mut Shell::new(alloc, limits), dialogue)
}

fn name(text: &str) -> Result<Name, Fail> {
    Ok(Name::of(text.as_bytes()).ok_or("no name")?)
}

const SMALL: Limits = Limits {
    names: 2,
    weight: 16,
    journal: 4096,
};

#[test]
fn one_name_is_the_limit(rt: HostRuntime) -> Result<(), Fail> {
    let limits = Limits { names: 1, ..SMALL };
    let dialogue = [
        ("X := bdsimplex 2", "ok 3\n"),
        ("Y := [[1,2]]", "refused names_full\n"),
        ("print Y", "refused no_name\n"),
    ];
    answers(&rt, rt.alloc(), limits, dialogue.as_slice())
}

#[test]
fn names_and_weights_have_limits(rt: HostRuntime) -> Result<(), Fail> {
    let dialogue = [
        ("X := [[1,2],[1,3],[2,3]]", "ok 3\n"),
        ("Y := [[1,2]]", "ok 1\n"),
        ("Z := []", "refused names_full\n"),
        ("Y := [[1,2],[3]]", "refused size_limit\n"),
        ("print Y", "facets [[1,2]]\n"),
        ("X := [[1,2],[1,3]]", "ok 2\n"),
        ("Y := [[1,2],[3]]", "ok 2\n"),
    ];
    answers(&rt, rt.alloc(), SMALL, dialogue.as_slice())
}

#[test]
fn an_undo_has_the_limit_of_weights(rt: HostRuntime) -> Result<(), Fail> {
    let mut shell = Shell::new(rt.alloc(), SMALL);
    let dialogue = [
        ("X := bdsimplex 2", "ok 3\n"),
        ("drop X [1,2]", "ok 2\n"),
        ("Y := [[1,2],[3]]", "ok 2\n"),
        ("undo X", "refused size_limit\n"),
    ];
    go_on(&rt, rt.alloc(), &mut shell, dialogue.as_slice())?;
    let (x, z) = (name("X")?, name("Z")?);
    let lens = (shell.past_len(&x), shell.future_len(&x), shell.past_len(&z));
    assert_eq!(rt; lens, (Some(1), Some(0), None));
    assert_eq!(rt; facet_count(&shell, &x)?, Some(2));
    Ok(())
}

fn facet_count(shell: &Shell, name: &Name) -> Result<Option<usize>, Memory> {
    Ok(shell.present(name)?.map(|c| c.as_slice().len()))
}

#[test]
fn the_future_that_an_edit_empties_does_not_count(rt: HostRuntime) -> Result<(), Fail> {
    let limits = Limits {
        weight: 4096,
        journal: 4,
        ..SMALL
    };
    let dialogue = [
        ("S := bdsimplex 3", "ok 4\n"),
        ("flip S [1,2,3] [9]", "ok 6\n"),
        ("flip S [1,2,9] [10]", "refused journal_full\n"),
        ("undo S", "ok 4\n"),
        ("flip S [1,2,3] [10]", "ok 6\n"),
    ];
    answers(&rt, rt.alloc(), limits, dialogue.as_slice())
}

#[test]
fn a_copy_asks_for_its_source_and_then_for_room(rt: HostRuntime) -> Result<(), Fail> {
    let dialogue = [
        ("X := copy X", "refused no_name\n"),
        ("X := [[1,2],[1,3]]", "ok 2\n"),
        ("Y := copy X", "ok 2\n"),
        ("Z := copy Q", "refused no_name\n"),
        ("Z := copy X", "refused names_full\n"),
        ("X := [[1,2]]", "ok 1\n"),
        ("print Y", "facets [[1,2],[1,3]]\n"),
        ("Y := copy Y", "ok 2\n"),
        ("undo Y", "refused no_past\n"),
    ];
    answers(&rt, rt.alloc(), SMALL, dialogue.as_slice())
}

#[test]
fn the_numbers_of_the_torus(rt: HostRuntime) -> Result<(), Fail> {
    let dialogue = [
        (
            "T := [[1,2,4],[1,2,6],[1,3,4],[1,3,7],[1,5,6],[1,5,7],[2,3,5],[2,3,7],[2,4,5],[2,6,7],[3,4,6],[3,5,6],[4,5,7],[4,6,7]]",
            "ok 14\n",
        ),
        ("fvec T", "fvec [7,21,14]\n"),
        ("hvec T", "hvec [1,4,10,-1]\n"),
        ("gvec T", "gvec [1,3]\n"),
        ("euler T", "euler 0\n"),
        ("faces T 0", "faces [[1],[2],[3],[4],[5],[6],[7]]\n"),
        ("degree T [7,4]", "degree 2\n"),
        ("degree T [1,2,3]", "refused not_face\n"),
    ];
    answers(&rt, rt.alloc(), Limits::STANDARD, dialogue.as_slice())
}

#[test]
fn betti_numbers_and_what_comes_before_a_construction(rt: HostRuntime) -> Result<(), Fail> {
    let dialogue = [
        ("C := [[1,2],[1,3],[2,3]]", "ok 3\n"),
        ("betti C", "betti [1,1]\n"),
        ("V := []", "ok 0\n"),
        ("betti V", "betti []\n"),
        ("S := join C Q", "refused no_name\n"),
        ("S := sum C [1,1] V [0]", "refused label_twice\n"),
        ("S := sum C [1,2] V [1,2]", "refused void\n"),
        ("S := handle V [1] [0]", "refused label_range\n"),
        ("S := relabel C [[1,0],[2,9],[3]]", "refused not_map\n"),
        (
            "S := relabel C [[3,4294967296],[1,4294967297],[2,7]]",
            "refused label_range\n",
        ),
        (
            "S := relabel C [[3,4294967296],[1,4294967296],[2,7]]",
            "refused not_map\n",
        ),
        (
            "S := relabel C [[4294967297,8],[2,0],[3,7]]",
            "refused not_map\n",
        ),
    ];
    answers(&rt, rt.alloc(), Limits::STANDARD, dialogue.as_slice())
}

#[test]
fn options_and_walks_of_a_disk(rt: HostRuntime) -> Result<(), Fail> {
    let dialogue = [
        ("D := [[1,2,4],[1,3,4],[2,3,4]]", "ok 3\n"),
        ("options D", "options [3,0,1]\n"),
        ("options D 2", "options [[[4],[1,2,3]]]\n"),
        ("options D 3", "refused range\n"),
        ("reduce D 1 1", "reduced 1 1\n"),
        ("reduce D 0 1", "reduced 0 1\n"),
        ("undo D", "ok 1\n"),
        ("undo D", "ok 3\n"),
        ("reduce D 524287 1", "refused budget\n"),
    ];
    answers(&rt, rt.alloc(), Limits::STANDARD, dialogue.as_slice())
}

#[test]
fn a_verdict_asks_for_its_names(rt: HostRuntime) -> Result<(), Fail> {
    let dialogue = [
        ("C := bdsimplex 2", "ok 3\n"),
        ("sphere Q 5 1", "refused no_name\n"),
        ("manifold Q 5 1", "refused no_name\n"),
        ("equivalent Q C 5 1", "refused no_name\n"),
        ("equivalent C Q 5 1", "refused no_name\n"),
        ("print C", "facets [[1,2],[1,3],[2,3]]\n"),
    ];
    answers(&rt, rt.alloc(), Limits::STANDARD, dialogue.as_slice())
}
