ghost use Rattle.std.specs.Prelude.{◌≡◌, ◌++◌, ◌∷◌, ◌&&◌, [], ℕ, List, map, codes, IfOk, OnOk, IsTrue};
ghost use Rattle.std.specs.List.{flat_map, join_with_byte, list_all};
ghost use Rattle.plain_text.specs.Printing.{simplex_text};
ghost use Rattle.flip_certificate.specs.declared.block.Block.{Block};
ghost use Rattle.flip_certificate.specs.declared.line.Line.{Line};
ghost use Rattle.flip_certificate.specs.Lines.{block_lines, end_lines, way_lines, is_flip, is_held, is_shaped, is_start, line_text, lines_of, pair_list, text_of, Spells};

use crate::line::{Kind, Line, Word};
use crate::{Block, Certificate};
use facet_set::Facets;
use plain_text::{put_facets, put_list, put_number};
use simplex::{Flip, Memory, Text};
use std::alloc::Global;

/// The one text of the certificate, line by line, each with its line feed. The spelling is own.
pub fn write(alloc: Global, c: &Certificate) -> Result<Text, Memory>
    requires { IsTrue (is_shaped c.now) }
    ensures text { IfOk result (λ t. t ≡ text_of (lines_of c.now)) }
    ensures spelled { IfOk result (λ t. Spells c.now t) }
{
    let mut out = Text::new(alloc);
    put_certificate(&mut out, c)?;
    Ok(out)
}

fn put_certificate(out: &mut Text, c: &Certificate) -> Result<(), Memory>
    ensures text { OnOk result (out.new ≡ out.old ++ text_of (lines_of c.now)) }
    ensures held { OnOk result (IsTrue (is_held c.now)) }
{
    match c {
        Certificate::Sphere { start, flips } => put_sphere(out, start, flips.as_slice()),
        Certificate::Equivalent {
            start,
            target,
            first,
            map,
            second,
        } => {
            put_ends(out, start, target)?;
            put_way(out, first.as_slice(), map.as_slice(), second.as_slice())
        }
        Certificate::Manifold { start, blocks } => put_manifold(out, start, blocks.as_slice()),
    }
}

// A certificate of a sphere.
fn put_sphere(out: &mut Text, start: &Facets, flips: &[Flip]) -> Result<(), Memory>
    ensures text { OnOk result (out.new ≡ out.old ++ text_of (lines_of (Certificate.Sphere start.now flips.now))) }
    ensures held { OnOk result (IsTrue (is_held (Certificate.Sphere start.now flips.now))) }
{
    put_heading(out, Kind::Sphere)?;
    put_complex(out, Word::Facets, start)?;
    put_flips(out, flips)?;
    put_end(out)
}

// A certificate of a manifold.
fn put_manifold(out: &mut Text, start: &Facets, blocks: &[Block]) -> Result<(), Memory>
    ensures text { OnOk result (out.new ≡ out.old ++ text_of (lines_of (Certificate.Manifold start.now blocks.now))) }
    ensures held { OnOk result (IsTrue (is_held (Certificate.Manifold start.now blocks.now))) }
{
    put_heading(out, Kind::Manifold)?;
    put_complex(out, Word::Facets, start)?;
    put_blocks(out, blocks)?;
    put_end(out)
}

// The first three lines of a certificate of an equivalence.
fn put_ends(out: &mut Text, start: &Facets, target: &Facets) -> Result<(), Memory>
    ensures text { OnOk result (out.new ≡ out.old ++ text_of (end_lines start.now target.now)) }
    ensures held { OnOk result (IsTrue (is_start start.now && is_start target.now)) }
{
    put_heading(out, Kind::Equivalent)?;
    put_complex(out, Word::From, start)?;
    put_complex(out, Word::To, target)
}

// Its other lines.
fn put_way(
    out: &mut Text,
    first: &[Flip],
    map: &[(u32, u32)],
    second: &[Flip],
) -> Result<(), Memory>
    ensures text { OnOk result (out.new ≡ out.old ++ text_of (way_lines first.now map.now second.now)) }
    ensures held { OnOk result (IsTrue (list_all is_flip first.now && list_all is_flip second.now)) }
{
    put_flips(out, first)?;
    put_map(out, map)?;
    put_flips(out, second)?;
    put_end(out)
}

fn put_text(out: &mut Text, text: &[u8]) -> Result<(), Memory>
    ensures { OnOk result (out.new ≡ out.old ++ text.now) }
{
    out.extend(text)
}

fn put_heading(out: &mut Text, kind: Kind) -> Result<(), Memory>
    ensures { OnOk result (out.new ≡ out.old ++ text_of (Line.Heading kind ∷ [])) }
{
    put_text(out, b"certificate 1 ")?;
    put_text(out, kind.text())?;
    put_text(out, b"\n")
}

fn put_end(out: &mut Text) -> Result<(), Memory>
    ensures { OnOk result (out.new ≡ out.old ++ text_of (Line.End ∷ [])) }
{
    put_text(out, b"end\n")
}

fn put_complex(out: &mut Text, word: Word, complex: &Facets) -> Result<(), Memory>
    ensures text { OnOk result (out.new ≡ out.old ++ text_of (Line.Complex word complex.now ∷ [])) }
    ensures held { OnOk result (IsTrue (is_start complex.now)) }
{
    put_text(out, word.text())?;
    put_text(out, b" ")?;
    put_facets(out, complex.as_slice())?;
    put_text(out, b"\n")
}

fn put_flip(out: &mut Text, flip: &Flip) -> Result<(), Memory>
    ensures text { OnOk result (out.new ≡ out.old ++ text_of (Line.Move flip.now ∷ [])) }
    ensures held { OnOk result (IsTrue (is_flip flip.now)) }
{
    put_text(out, b"flip ")?;
    put_list(out, flip.a.labels())?;
    put_text(out, b" ")?;
    put_list(out, flip.b.labels())?;
    put_text(out, b"\n")
}

fn put_flips(out: &mut Text, flips: &[Flip]) -> Result<(), Memory>
    ensures text { OnOk result (out.new ≡ out.old ++ text_of (map Line.Move flips.now)) }
    ensures held { OnOk result (IsTrue (list_all is_flip flips.now)) }
{
    for flip in flips {
        put_flip(out, flip)?;
    }
    Ok(())
}

fn put_link(out: &mut Text, vertex: u32) -> Result<(), Memory>
    ensures { OnOk result (out.new ≡ out.old ++ text_of (Line.Link vertex ∷ [])) }
{
    put_text(out, b"link ")?;
    put_number(out, vertex as i128)?;
    put_text(out, b"\n")
}

fn put_block(out: &mut Text, block: &Block) -> Result<(), Memory>
    ensures text { OnOk result (out.new ≡ out.old ++ text_of (block_lines block.now)) }
    ensures held { OnOk result (IsTrue (list_all is_flip block.now.flips)) }
{
    put_link(out, block.vertex)?;
    put_flips(out, block.flips.as_slice())
}

fn put_blocks(out: &mut Text, blocks: &[Block]) -> Result<(), Memory>
    ensures text { OnOk result (out.new ≡ out.old ++ text_of (flat_map block_lines blocks.now)) }
    ensures held { OnOk result (IsTrue (list_all (λ (b : Block). list_all is_flip b.flips) blocks.now)) }
{
    for block in blocks {
        put_block(out, block)?;
    }
    Ok(())
}

fn put_map(out: &mut Text, pairs: &[(u32, u32)]) -> Result<(), Memory>
    ensures { OnOk result (out.new ≡ out.old ++ text_of (Line.Map pairs.now ∷ [])) }
{
    put_text(out, b"map [")?;
    put_pairs(out, pairs)?;
    put_text(out, b"]\n")
}

fn put_pair(out: &mut Text, pair: (u32, u32)) -> Result<(), Memory>
    ensures { OnOk result (out.new ≡ out.old ++ simplex_text (pair_list pair)) }
{
    put_list(out, &[pair.0, pair.1])
}

fn put_pairs(out: &mut Text, pairs: &[(u32, u32)]) -> Result<(), Memory>
    ensures { OnOk result (out.new ≡ out.old ++ join_with_byte 44 (map (λ p. simplex_text (pair_list p)) pairs.now)) }
{
    let Some((first, rest)) = pairs.split_first() else {
        return Ok(());
    };
    put_pair(out, *first)?;
    for pair in rest {
        put_text(out, b",")?;
        put_pair(out, *pair)?;
    }
    Ok(())
}

/// Appends the line with its line feed.
pub fn put_line(out: &mut Text, line: &Line) -> Result<(), Memory>
    ensures { OnOk result (out.new ≡ out.old ++ text_of (line.now ∷ [])) }
{
    match line {
        Line::Heading(kind) => put_heading(out, *kind),
        Line::Complex(word, complex) => put_complex(out, *word, complex),
        Line::Move(flip) => put_flip(out, flip),
        Line::Map(pairs) => put_map(out, pairs.as_slice()),
        Line::Link(vertex) => put_link(out, *vertex),
        Line::End => put_end(out),
    }
}
