// What a line may be, by its words and the digits in them.
ghost use Rattle.std.specs.Prelude.{◌≡◌, map, IfOk, OnOk, IsTrue, SomeIff};
ghost use Rattle.std.specs.List.{list_all};
ghost use Rattle.plain_text.specs.Bytes.{is_digit};
ghost use Rattle.simplex.specs.Simplex.{is_label, is_simplex};
ghost use Rattle.flip_certificate.specs.declared.line.Line.{Line};
ghost use Rattle.flip_certificate.specs.Lines.{is_pair, is_start};
ghost use Rattle.flip_certificate.specs.Reading.{checked, flip_of, guess_line, guess_three, guess_two, kind_of, list_pieces, lists_in, number_of, numbers_in, pair_of, pairs_in, word_of, words};

use crate::cutting::cut;
use crate::line::{Kind, Line, Word};
use facet_set::Facets;
use simplex::{Flip, LABEL_LIMIT, Memory, Pairs, Simplex, Simplices};
use std::alloc::Global;

fn is_digit(byte: u8) -> bool
    ensures { result ≡ is_digit byte }
{
    b'0' <= byte && byte <= b'9'
}

fn is_label(label: u32) -> bool
    ensures { result ≡ is_label label }
{
    1 <= label && label <= LABEL_LIMIT
}

// The number that digits stand for, or the last u32 where that is less.
fn number_of(digits: &[u8]) -> u32
    ensures { result ≡ number_of digits.now }
{
    let mut n: u32 = 0;
    for digit in digits {
        n = n
            .saturating_mul(10)
            .saturating_add(digit.saturating_sub(48) as u32);
    }
    n
}

// The numbers whose digits stand in the bytes, in place of those that were there.
fn numbers_in(numbers: &mut Vec<u32>, bytes: &[u8]) -> Result<(), Memory>
    ensures { OnOk result (numbers.new.items ≡ numbers_in bytes.now) }
{
    numbers.clear();
    let runs = bytes.split(|byte| !is_digit(*byte));
    numbers.extend(
        runs.filter(|digits| !digits.is_empty())
            .map(|digits| number_of(digits)),
    )?;
    Ok(())
}

// The simplex with just these labels, if they are one in increasing order.
fn exact_simplex(labels: &[u32]) -> Option<Simplex>
    ensures { SomeIff result (IsTrue (is_simplex labels.now)) labels.now }
{
    match Simplex::of(labels) {
        Ok(simplex) if simplex.labels() == labels => Some(simplex),
        _ => None,
    }
}

fn simplex_in(numbers: &mut Vec<u32>, bytes: &[u8]) -> Result<Option<Simplex>, Memory>
    ensures { IfOk result (λ r. SomeIff r (IsTrue (is_simplex (numbers_in bytes.now))) (numbers_in bytes.now)) }
{
    numbers_in(numbers, bytes)?;
    Ok(exact_simplex(numbers))
}

// What stands before each closing bracket but the last.
fn list_pieces(alloc: Global, bytes: &[u8]) -> Result<Vec<&[u8]>, Memory>
    ensures { IfOk result (λ v. map (λ p. p.now) v.items ≡ list_pieces bytes.now) }
{
    let mut pieces: Vec<&[u8]> = bytes.split(|byte| *byte == b']').collect(alloc)?;
    pieces.truncate(pieces.len().saturating_sub(2));
    Ok(pieces)
}

fn pair_of(numbers: &[u32]) -> (u32, u32)
    ensures { result ≡ pair_of numbers.now }
{
    match numbers {
        [a, b] => (*a, *b),
        _ => (0, 0),
    }
}

fn kind_of(word: &[u8]) -> Kind
    ensures { result ≡ kind_of word.now }
{
    if word == Kind::Sphere.text() {
        Kind::Sphere
    } else if word == Kind::Manifold.text() {
        Kind::Manifold
    } else {
        Kind::Equivalent
    }
}

fn word_of(word: &[u8]) -> Word
    ensures { result ≡ word_of word.now }
{
    if word == Word::Facets.text() {
        Word::Facets
    } else if word == Word::From.text() {
        Word::From
    } else {
        Word::To
    }
}

// The simplices whose labels stand in the pieces, if each has one.
fn simplices_in(
    alloc: Global,
    numbers: &mut Vec<u32>,
    pieces: &[&[u8]],
) -> Result<Option<Simplices>, Memory>
    ensures { IfOk result (λ r. let c = map numbers_in (map (λ p. p.now) pieces.now) in SomeIff r (IsTrue (list_all is_simplex c)) c) }
{
    let mut simplices = Simplices::new(alloc);
    for piece in pieces {
        let Some(simplex) = simplex_in(numbers, piece)? else {
            return Ok(None);
        };
        simplices.push(simplex)?;
    }
    Ok(Some(simplices))
}

fn facets_in(alloc: Global, numbers: &mut Vec<u32>, bytes: &[u8]) -> Result<Option<Facets>, Memory>
    ensures { IfOk result (λ r. SomeIff r (IsTrue (is_start (lists_in bytes.now))) (lists_in bytes.now)) }
{
    let pieces = list_pieces(alloc, bytes)?;
    let Some(simplices) = simplices_in(alloc, numbers, &pieces)? else {
        return Ok(None);
    };
    Facets::exact(alloc, simplices.as_slice())
}

// The pair of labels that stands in the bytes, if they are two labels.
fn pair_in(numbers: &mut Vec<u32>, bytes: &[u8]) -> Result<Option<(u32, u32)>, Memory>
    ensures { IfOk result (λ r. let p = pair_of (numbers_in bytes.now) in SomeIff r (IsTrue (is_pair p)) p) }
{
    numbers_in(numbers, bytes)?;
    let pair = pair_of(numbers);
    if is_label(pair.0) && is_label(pair.1) {
        Ok(Some(pair))
    } else {
        Ok(None)
    }
}

fn pairs_in(alloc: Global, numbers: &mut Vec<u32>, bytes: &[u8]) -> Result<Option<Pairs>, Memory>
    ensures { IfOk result (λ r. SomeIff r (IsTrue (list_all is_pair (pairs_in bytes.now))) (pairs_in bytes.now)) }
{
    let pieces = list_pieces(alloc, bytes)?;
    let mut pairs = Pairs::new(alloc);
    for piece in &pieces {
        let Some(pair) = pair_in(numbers, piece)? else {
            return Ok(None);
        };
        pairs.push(pair)?;
    }
    Ok(Some(pairs))
}

fn link_in(bytes: &[u8]) -> Option<Line>
    ensures { result ≡ checked (Line.Link (number_of bytes.now)) }
{
    let label = number_of(bytes);
    if is_label(label) {
        Some(Line::Link(label))
    } else {
        None
    }
}

fn map_in(alloc: Global, numbers: &mut Vec<u32>, bytes: &[u8]) -> Result<Option<Line>, Memory>
    ensures { IfOk result (λ r. r ≡ checked (Line.Map (pairs_in bytes.now))) }
{
    match pairs_in(alloc, numbers, bytes)? {
        Some(pairs) => Ok(Some(Line::Map(pairs))),
        None => Ok(None),
    }
}

fn complex_in(
    alloc: Global,
    numbers: &mut Vec<u32>,
    word: Word,
    bytes: &[u8],
) -> Result<Option<Line>, Memory>
    ensures { IfOk result (λ r. r ≡ checked (Line.Complex word (lists_in bytes.now))) }
{
    match facets_in(alloc, numbers, bytes)? {
        Some(facets) => Ok(Some(Line::Complex(word, facets))),
        None => Ok(None),
    }
}

fn move_in(numbers: &mut Vec<u32>, a: &[u8], b: &[u8]) -> Result<Option<Line>, Memory>
    ensures { IfOk result (λ r. r ≡ checked (Line.Move (flip_of (numbers_in a.now) (numbers_in b.now)))) }
{
    let Some(a) = simplex_in(numbers, a)? else {
        return Ok(None);
    };
    let Some(b) = simplex_in(numbers, b)? else {
        return Ok(None);
    };
    Ok(Some(Line::Move(Flip { a, b })))
}

// The line that two words may be.
fn guess_two(
    alloc: Global,
    numbers: &mut Vec<u32>,
    word: &[u8],
    bytes: &[u8],
) -> Result<Option<Line>, Memory>
    ensures { IfOk result (λ r. r ≡ checked (guess_two word.now bytes.now)) }
{
    if word == b"map".as_slice() {
        return map_in(alloc, numbers, bytes);
    }
    if word == b"link".as_slice() {
        return Ok(link_in(bytes));
    }
    complex_in(alloc, numbers, word_of(word), bytes)
}

// The line that three words may be.
fn guess_three(
    numbers: &mut Vec<u32>,
    word: &[u8],
    a: &[u8],
    b: &[u8],
) -> Result<Option<Line>, Memory>
    ensures { IfOk result (λ r. r ≡ checked (guess_three word.now a.now b.now)) }
{
    if word == b"flip".as_slice() {
        return move_in(numbers, a, b);
    }
    Ok(Some(Line::Heading(kind_of(b))))
}

/// What a line may be. None where that has labels or lists that are none. The numbers are a buffer.
pub fn guess_line(
    alloc: Global,
    numbers: &mut Vec<u32>,
    line: &[u8],
) -> Result<Option<Line>, Memory>
    ensures { IfOk result (λ r. r ≡ checked (guess_line (words line.now))) }
{
    let (word, rest) = cut(line, b' ');
    let Some(rest) = rest else {
        return Ok(Some(Line::End));
    };
    let (second, rest) = cut(rest, b' ');
    let Some(rest) = rest else {
        return guess_two(alloc, numbers, word, second);
    };
    let (third, rest) = cut(rest, b' ');
    if rest.is_some() {
        return Ok(Some(Line::End));
    }
    guess_three(numbers, word, second, third)
}
