use script_text::{
    Command, CommandFault, Condition, Edit, Maker, Name, Printed, Question, is_blank, put_facets,
    put_number, put_simplex, read_command,
};
use simplex::{Lists, Memory, Numbers, Simplex, Text};
use std::alloc::Global;
use std::collections::HashMap;
use std::test::Fail;

// Whether the bytes are a command, and this is what `put_command` makes of it.
fn is_read_as(alloc: Global, bytes: &[u8], spelling: &[u8]) -> Result<bool, Memory> {
    match read_command(alloc, bytes) {
        Ok(command) => is_spelled(alloc, &command, spelling),
        Err(CommandFault::Syntax) => Ok(false),
        Err(CommandFault::Memory) => Err(Memory),
    }
}

fn is_spelled(alloc: Global, command: &Command, spelling: &[u8]) -> Result<bool, Memory> {
    let mut text = Text::new(alloc);
    put_command(&mut text, command)?;
    Ok(text.as_slice() == spelling)
}

fn is_no_command(alloc: Global, bytes: &[u8]) -> Result<bool, Memory> {
    match read_command(alloc, bytes) {
        Ok(_) => Ok(false),
        Err(CommandFault::Syntax) => Ok(true),
        Err(CommandFault::Memory) => Err(Memory),
    }
}

// Appends the parts of the command in order, each with a blank in front.
fn put_command(text: &mut Text, command: &Command) -> Result<(), Memory> {
    match command {
        Command::Show { lists } => put_lists(text, b"Show ", lists),
        Command::Make { name, maker } => {
            put_words(text, b"Make ", name)?;
            put_maker(text, maker)
        }
        Command::Ask { name, question } => {
            put_words(text, b"Ask ", name)?;
            put_question(text, question)
        }
        Command::Change { name, edit } => {
            put_words(text, b"Change ", name)?;
            put_edit(text, edit)
        }
        Command::Sphere { name, budget, seed } => {
            put_counted(text, b"Sphere ", name, &[*budget, *seed])
        }
        Command::Equivalent {
            left,
            right,
            budget,
            seed,
        } => {
            put_words(text, b"Equivalent ", left)?;
            put_counted(text, b" ", right, &[*budget, *seed])
        }
        Command::Manifold { name, budget, seed } => {
            put_counted(text, b"Manifold ", name, &[*budget, *seed])
        }
    }
}

fn put_question(text: &mut Text, question: &Question) -> Result<(), Memory> {
    match question {
        Question::Print => text.extend(b" Print"),
        Question::Fvec => text.extend(b" Fvec"),
        Question::Hvec => text.extend(b" Hvec"),
        Question::Gvec => text.extend(b" Gvec"),
        Question::Euler => text.extend(b" Euler"),
        Question::Faces { k } => put_counts(text, b" Faces", &[*k]),
        Question::Degree { face } => put_part(text, b" Degree ", face),
        Question::Options => text.extend(b" Options"),
        Question::OptionsOf { class } => put_counts(text, b" OptionsOf", &[*class]),
        Question::Betti => text.extend(b" Betti"),
        Question::Components => text.extend(b" Components"),
        Question::Closed => text.extend(b" Closed"),
        Question::Strong => text.extend(b" Strong"),
    }
}

fn put_maker(text: &mut Text, maker: &Maker) -> Result<(), Memory> {
    match maker {
        Maker::Facets { lists } => put_lists(text, b" Facets ", lists),
        Maker::Copy { of } => put_words(text, b" Copy ", of),
        Maker::Link { of, face } => put_around(text, b" Link ", of, face),
        Maker::Star { of, face } => put_around(text, b" Star ", of, face),
        Maker::Deletion { of, face } => put_around(text, b" Deletion ", of, face),
        Maker::Boundary { of } => put_words(text, b" Boundary ", of),
        Maker::Skeleton { of, k } => put_counted(text, b" Skeleton ", of, &[*k]),
        Maker::BdSimplex { d } => put_counts(text, b" BdSimplex", &[*d]),
        Maker::BdCross { d } => put_counts(text, b" BdCross", &[*d]),
        Maker::Cyclic { k, n } => put_counts(text, b" Cyclic", &[*k, *n]),
        Maker::Stacked { d, n, seed } => put_counts(text, b" Stacked", &[*d, *n, *seed]),
        Maker::Join { left, right } => {
            put_words(text, b" Join ", left)?;
            put_words(text, b" ", right)
        }
        Maker::Cone { of } => put_words(text, b" Cone ", of),
        Maker::Suspension { of } => put_words(text, b" Suspension ", of),
        Maker::Sum {
            left,
            left_facet,
            right,
            right_facet,
        } => {
            put_around(text, b" Sum ", left, left_facet)?;
            put_around(text, b" ", right, right_facet)
        }
        Maker::Handle { of, first, second } => {
            put_around(text, b" Handle ", of, first)?;
            put_part(text, b" ", second)
        }
        Maker::Relabel { of, pairs } => {
            put_words(text, b" Relabel ", of)?;
            put_lists(text, b" ", pairs)
        }
    }
}

fn put_edit(text: &mut Text, edit: &Edit) -> Result<(), Memory> {
    match edit {
        Edit::Flip { a, b } => {
            put_part(text, b" Flip ", a)?;
            put_part(text, b" ", b)
        }
        Edit::Add { face } => put_part(text, b" Add ", face),
        Edit::Drop { face } => put_part(text, b" Drop ", face),
        Edit::Collapse { face } => put_part(text, b" Collapse ", face),
        Edit::Reduce { budget, seed } => put_counts(text, b" Reduce", &[*budget, *seed]),
        Edit::Undo => text.extend(b" Undo"),
        Edit::Redo => text.extend(b" Redo"),
    }
}

fn put_words(text: &mut Text, kind: &[u8], name: &Name) -> Result<(), Memory> {
    text.extend(kind)?;
    text.extend(name.as_bytes())
}

fn put_part(text: &mut Text, kind: &[u8], part: &Numbers) -> Result<(), Memory> {
    text.extend(kind)?;
    part.put(text)
}

fn put_lists(text: &mut Text, kind: &[u8], lists: &Lists) -> Result<(), Memory> {
    text.extend(kind)?;
    lists.put(text)
}

fn put_counts(text: &mut Text, kind: &[u8], counts: &[u64]) -> Result<(), Memory> {
    text.extend(kind)?;
    for n in counts {
        text.extend(b" ")?;
        n.put(text)?;
    }
    Ok(())
}

fn put_around(text: &mut Text, kind: &[u8], name: &Name, part: &Numbers) -> Result<(), Memory> {
    put_words(text, kind, name)?;
    put_part(text, b" ", part)
}

fn put_counted(text: &mut Text, kind: &[u8], name: &Name, counts: &[u64]) -> Result<(), Memory> {
    put_words(text, kind, name)?;
    put_counts(text, b"", counts)
}

// The bytes of a command, and its parts.
type Spelled = (&'static [u8], &'static [u8]);

const LISTS: &[Spelled] = &[
    (b"show []", b"Show []"),
    (b"show[[2,1],[2,2],[]]", b"Show [[2,1],[2,2],[]]"),
    (b"\r\n show\t[ [ 3 ,\n3 ] ] ", b"Show [[3,3]]"),
    (
        b"# a;b ]\xff\x00 show\nshow#[\n[#;\n[7]]# no end",
        b"Show [[7]]",
    ),
    (
        b"show [[0,999999999999999999]]",
        b"Show [[0,999999999999999999]]",
    ),
    (b"flip X [2,1,2] [3]", b"Change X Flip [2,1,2] [3]"),
    (b"flip X[][0,0]", b"Change X Flip [] [0,0]"),
];

#[test]
fn lists_keep_order_and_repeats(rt: HostRuntime) -> Result<(), Memory> {
    for (bytes, command) in LISTS {
        assert!(rt; is_read_as(rt.alloc(), bytes, command)?);
    }
    Ok(())
}

const ASSIGNMENTS: &[Spelled] = &[
    (b"X := [[1,2]]", b"Make X Facets [[1,2]]"),
    (b"show := [[1]]", b"Make show Facets [[1]]"),
    (b"print:=[]", b"Make print Facets []"),
    (b"undo # X\n:=[[]]", b"Make undo Facets [[]]"),
    (b"X := copy Y", b"Make X Copy Y"),
    (b"copy := copy copy", b"Make copy Copy copy"),
];

#[test]
fn the_second_token_makes_an_assignment(rt: HostRuntime) -> Result<(), Memory> {
    for (bytes, command) in ASSIGNMENTS {
        assert!(rt; is_read_as(rt.alloc(), bytes, command)?);
    }
    Ok(())
}

const MAKERS: &[Spelled] = &[
    (b"X := link link [2,1]", b"Make X Link link [2,1]"),
    (b"X := star Y []", b"Make X Star Y []"),
    (b"X := deletion Y [1]", b"Make X Deletion Y [1]"),
    (b"X := boundary Y", b"Make X Boundary Y"),
    (b"X := skeleton Y 3", b"Make X Skeleton Y 3"),
    (b"X := bdsimplex 4", b"Make X BdSimplex 4"),
    (b"X := bdcross 5", b"Make X BdCross 5"),
    (b"X := cyclic 4 6", b"Make X Cyclic 4 6"),
    (b"X := stacked 3 50 7", b"Make X Stacked 3 50 7"),
    (b"X := join Y Z", b"Make X Join Y Z"),
    (b"X := cone Y", b"Make X Cone Y"),
    (b"X := suspension Y", b"Make X Suspension Y"),
    (b"X := sum Y [1,2]sum[3,4]", b"Make X Sum Y [1,2] sum [3,4]"),
    (b"X := handle Y [2,1] [3]", b"Make X Handle Y [2,1] [3]"),
    (
        b"X := relabel Y [[1,9],[2]]",
        b"Make X Relabel Y [[1,9],[2]]",
    ),
];

#[test]
fn makers_take_names_numbers_and_lists(rt: HostRuntime) -> Result<(), Memory> {
    for (bytes, command) in MAKERS {
        assert!(rt; is_read_as(rt.alloc(), bytes, command)?);
    }
    Ok(())
}

const FIRST_WORDS: &[Spelled] = &[
    (b"print X", b"Ask X Print"),
    (b"print print", b"Ask print Print"),
    (b"fvec X", b"Ask X Fvec"),
    (b"hvec gvec", b"Ask gvec Hvec"),
    (b"gvec X", b"Ask X Gvec"),
    (b"euler X", b"Ask X Euler"),
    (
        b"faces X 999999999999999999",
        b"Ask X Faces 999999999999999999",
    ),
    (b"degree degree [2,2]", b"Ask degree Degree [2,2]"),
    (b"options X", b"Ask X Options"),
    (b"options options 2", b"Ask options OptionsOf 2"),
    (b"betti X", b"Ask X Betti"),
    (b"components X", b"Ask X Components"),
    (b"closed X", b"Ask X Closed"),
    (b"strong strong", b"Ask strong Strong"),
    (b"flip flip [1] [2]", b"Change flip Flip [1] [2]"),
    (b"add X [3,1]", b"Change X Add [3,1]"),
    (b"drop drop [1]", b"Change drop Drop [1]"),
    (b"collapse X [2,2]", b"Change X Collapse [2,2]"),
    (b"reduce X 100 7", b"Change X Reduce 100 7"),
    (b"undo X", b"Change X Undo"),
    (b"redo#\nundo", b"Change undo Redo"),
    (b"sphere X 100 7", b"Sphere X 100 7"),
    (
        b"equivalent equivalent Y 0 999999999999999999",
        b"Equivalent equivalent Y 0 999999999999999999",
    ),
    (b"manifold X 1 2", b"Manifold X 1 2"),
];

#[test]
fn the_first_word_makes_any_other_command(rt: HostRuntime) -> Result<(), Memory> {
    for (bytes, command) in FIRST_WORDS {
        assert!(rt; is_read_as(rt.alloc(), bytes, command)?);
    }
    Ok(())
}

const WORDS: &[&[u8]] = &[
    b"link",
    b"star",
    b"deletion",
    b"boundary",
    b"skeleton",
    b"bdsimplex",
    b"bdcross",
    b"cyclic",
    b"stacked",
    b"join",
    b"cone",
    b"suspension",
    b"sum",
    b"handle",
    b"relabel",
    b"options",
    b"betti",
    b"components",
    b"closed",
    b"strong",
    b"add",
    b"drop",
    b"collapse",
    b"reduce",
    b"sphere",
    b"equivalent",
    b"manifold",
];

fn joined(alloc: Global, parts: &[&[u8]]) -> Result<Text, Memory> {
    let mut text = Text::new(alloc);
    for part in parts {
        text.extend(part)?;
    }
    Ok(text)
}

fn is_assigned(alloc: Global, word: &[u8]) -> Result<bool, Memory> {
    let bytes = joined(alloc, &[word, b" := [[1]]"])?;
    let command = joined(alloc, &[b"Make ", word, b" Facets [[1]]"])?;
    is_read_as(alloc, bytes.as_slice(), command.as_slice())
}

#[test]
fn each_first_word_is_a_name_too(rt: HostRuntime) -> Result<(), Memory> {
    for word in WORDS {
        assert!(rt; is_assigned(rt.alloc(), word)?);
    }
    Ok(())
}

const OTHER_BYTES: &[&[u8]] = &[
    b"",
    b"show",
    b"[]",
    b"Show []",
    b"shows []",
    b"X := copy",
    b"X := copy Y Z",
    b"X := copies Y",
    b"fvec []",
    b"faces X",
    b"faces X [1]",
    b"faces X 1 1",
    b"degree X 1",
    b"degree X [1] [2]",
    b"sh#\now []",
    b"show [] []",
    b"show [];",
    b"show [1]",
    b"show [[1,]]",
    b"show [[,1]]",
    b"show [[1 2]]",
    b"show [[1],]",
    b"show [[1]",
    b"show [[1]]]",
    b"show [[1a]]",
    b"show [[-1]]",
    b"show [[01]]",
    b"show [[00]]",
    b"show [[1000000000000000000]]",
    b"show : = []",
    b"X",
    b"X :=",
    b"X := []]",
    b"X := [1]",
    b"X := Y := []",
    b"1 := []",
    b":= []",
    b"print",
    b"print [[1]]",
    b"print X Y",
    b"printX",
    b"undo X Y",
    b"redo 1",
    b"flip X [1]",
    b"flip X [1] [2] [3]",
    b"flip X [[1],[2]]",
    b"flip [1] [2]",
    b"flip X [1], [2]",
    b"facets X",
    b"show [[1]] \xc3\xa9",
    b"show [[1]] $ # show []",
];

#[test]
fn other_bytes_are_no_command(rt: HostRuntime) -> Result<(), Memory> {
    for bytes in OTHER_BYTES {
        assert!(rt; is_no_command(rt.alloc(), bytes)?);
    }
    Ok(())
}

const OTHER_PARTS: &[&[u8]] = &[
    b"link X [1]",
    b"X := betti Y",
    b"X := link Y",
    b"X := star Y 1",
    b"X := deletion Y [1] [2]",
    b"X := boundary Y 1",
    b"X := skeleton Y",
    b"X := bdsimplex",
    b"X := bdcross 1 2",
    b"X := cyclic 4",
    b"X := cyclic 4 6 1",
    b"X := stacked 3 50",
    b"X := stacked 3 50 7 1",
    b"X := join Y",
    b"X := join Y Z Z",
    b"X := cone 1",
    b"X := suspension [[1]]",
    b"X := sum Y [1] Z",
    b"X := sum Y Z [1] [2]",
    b"X := handle Y [1]",
    b"X := relabel Y [1,2]",
    b"X := relabel Y [[1,2]] []",
    b"options 1",
    b"options X 1 1",
    b"betti X 1",
    b"closed",
    b"add X",
    b"drop X [1] [2]",
    b"collapse [1] X",
    b"reduce X 1",
    b"reduce X 1 2 3",
    b"sphere X 1",
    b"sphere X Y 1 2",
    b"equivalent X 1 2",
    b"equivalent X Y 1",
    b"equivalent X Y Z 1 2",
    b"manifold 1 2",
    b"manifold X 1 2 3",
    b"X := sphere Y 1 2",
];

#[test]
fn parts_that_lack_or_are_too_many_make_no_command(rt: HostRuntime) -> Result<(), Memory> {
    for bytes in OTHER_PARTS {
        assert!(rt; is_no_command(rt.alloc(), bytes)?);
    }
    Ok(())
}

#[test]
fn white_space_and_comments_are_blank(rt: HostRuntime) -> Result<(), Fail> {
    for (bytes, blank) in [
        (b"".as_slice(), true),
        (b" \t\r\n", true),
        (b"# show [];\n#", true),
        (b"#\n;", false),
        (b" x #", false),
        (b"\x0b", false),
    ] {
        assert_eq!(rt; is_blank(bytes), blank);
    }
    Ok(())
}

#[test]
fn names_are_words(rt: HostRuntime) -> Result<(), Fail> {
    let longest = b"Abcdefghijklmnopqrstuvwxyz_12345";
    for (bytes, is_name) in [
        (longest.as_slice(), true),
        (b"a", true),
        (b"show", true),
        (b"Z_9", true),
        (b"", false),
        (b"9a", false),
        (b"_a", false),
        (b"a-b", false),
        (b"a ", false),
        (b"Abcdefghijklmnopqrstuvwxyz_123456", false),
    ] {
        assert_eq!(rt;
            Name::of(bytes).map(|name| name.as_bytes() == bytes),
            if is_name { Some(true) } else { None }
        );
    }
    Ok(())
}

// What two names as keys give back.
fn found(alloc: Global, short: Name, long: Name) -> Result<(Option<i32>, Option<i32>), Fail> {
    let mut sizes = HashMap::new(alloc);
    sizes.insert(short, 1)?;
    sizes.insert(long, 2)?;
    Ok((sizes.get(&short).copied(), sizes.get(&long).copied()))
}

#[test]
fn a_name_is_a_key(rt: HostRuntime) -> Result<(), Fail> {
    let short = Name::of(b"a").ok_or("no name")?;
    let long = Name::of(b"aa").ok_or("no name")?;
    assert_eq!(rt; found(rt.alloc(), short, long)?, (Some(1), Some(2)));
    assert!(rt; short != long);
    Ok(())
}

fn is_printed(alloc: Global, n: i128, want: &[u8]) -> Result<bool, Memory> {
    let mut text = Text::new(alloc);
    put_number(&mut text, n)?;
    Ok(text.as_slice() == want)
}

#[test]
fn numbers_are_printed_in_decimal(rt: HostRuntime) -> Result<(), Memory> {
    for (n, text) in [
        (0, b"0".as_slice()),
        (-1, b"-1"),
        (1_000_000, b"1000000"),
        (i128::MAX, b"170141183460469231731687303715884105727"),
        (i128::MIN, b"-170141183460469231731687303715884105728"),
    ] {
        assert!(rt; is_printed(rt.alloc(), n, text)?);
    }
    Ok(())
}

fn put_kinds(text: &mut Text) -> Result<(), Memory> {
    7u32.put(text)?;
    8u64.put(text)?;
    (-9i64).put(text)?;
    (-10i128).put(text)
}

#[test]
fn each_kind_of_number_is_printed_alone(rt: HostRuntime) -> Result<(), Memory> {
    let mut text = Text::new(rt.alloc());
    put_kinds(&mut text)?;
    assert_eq!(rt; text.as_slice(), b"78-9-10".as_slice());
    Ok(())
}

fn put_simplices(text: &mut Text) -> Result<(), Fail> {
    put_simplex(text, &Simplex::of(&[20, 3, 1])?)?;
    Ok(put_simplex(text, &Simplex::EMPTY)?)
}

fn put_complexes(text: &mut Text) -> Result<(), Fail> {
    put_facets(text, &[])?;
    let facets = [Simplex::of(&[1, 2])?, Simplex::of(&[3])?];
    Ok(put_facets(text, &facets)?)
}

#[test]
fn simplices_and_facets_are_printed_without_spaces(rt: HostRuntime) -> Result<(), Fail> {
    let mut text = Text::new(rt.alloc());
    put_simplices(&mut text)?;
    assert_eq!(rt; text.as_slice(), b"[1,3,20][]".as_slice());
    let mut facets = Text::new(rt.alloc());
    put_complexes(&mut facets)?;
    assert_eq!(rt; facets.as_slice(), b"[][[1,2],[3]]".as_slice());
    Ok(())
}

const CONDITIONS: &[(Condition, &str)] = &[
    (Condition::LabelRange, "label_range"),
    (Condition::Void, "void"),
    (Condition::NotFace, "not_face"),
    (Condition::DimRange, "dim_range"),
    (Condition::DimDiffers, "dim_differs"),
    (Condition::NotFacet, "not_facet"),
    (Condition::NotMap, "not_map"),
    (Condition::Near, "near"),
    (Condition::FlipPresent, "flip_present"),
    (Condition::NotFree, "not_free"),
    (Condition::IsFace, "is_face"),
    (Condition::Range, "range"),
    (Condition::RankLimit, "rank_limit"),
    (Condition::Budget, "budget"),
    (Condition::NoFuture, "no_future"),
];

#[test]
fn conditions_have_their_names(rt: HostRuntime) {
    for (condition, name) in CONDITIONS {
        assert_eq!(rt; condition.name(), *name);
    }
}
