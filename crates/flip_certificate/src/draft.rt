ghost use Rattle.std.specs.Prelude.{◌≡◌, ℕ, List, IfOk};
ghost use Rattle.flip_certificate.specs.Drafts.{next, after_heading, after_complex, headed, after_move, after_map, after_link, after_end};

use crate::line::{Kind, Line, Word};
use crate::{Block, Blocks, Certificate};
use facet_set::Facets;
use simplex::{Flip, Flips, Memory, Pairs};
use std::alloc::Global;

/// The first lines of a certificate, as what they say.
#[derive(Debug, Drop)]
pub enum Draft {
    /// No line.
    Begun,
    /// The heading.
    Headed(Kind),
    /// Of a sphere, with its start and its flips.
    Sphere(Facets, Flips),
    /// Of an equivalence, with its start.
    From(Facets),
    /// With its target and its first flips.
    Equivalent(Facets, Facets, Flips),
    /// With its map and the flips behind it.
    Mapped(Facets, Facets, Flips, Pairs, Flips),
    /// Of a manifold, with its start.
    Manifold(Facets),
    /// With blocks, and the vertex and the flips of one more.
    Linked(Facets, Blocks, u32, Flips),
    /// All of a certificate.
    Done(Certificate),
}

impl Draft {
    /// The draft with one line more. None exactly where no certificate goes on so.
    pub fn next(self, alloc: Global, line: Line) -> Result<Option<Draft>, Memory>
        ensures { IfOk result (λ r. r ≡ next self line) }
    {
        match line {
            Line::Heading(kind) => Ok(self.after_heading(kind)),
            Line::Complex(word, facets) => Ok(self.after_complex(alloc, word, facets)),
            Line::Move(flip) => self.after_move(flip),
            Line::Map(pairs) => Ok(self.after_map(alloc, pairs)),
            Line::Link(vertex) => self.after_link(alloc, vertex),
            Line::End => self.after_end(alloc),
        }
    }

    fn after_heading(self, kind: Kind) -> Option<Draft>
        ensures { result ≡ after_heading self kind }
    {
        match self {
            Draft::Begun => Some(Draft::Headed(kind)),
            _ => None,
        }
    }

    fn after_complex(self, alloc: Global, word: Word, facets: Facets) -> Option<Draft>
        ensures { result ≡ after_complex self word facets }
    {
        match self {
            Draft::Headed(kind) => headed(alloc, kind, word, facets),
            Draft::From(start) => match word {
                Word::To => Some(Draft::Equivalent(start, facets, Flips::new(alloc))),
                _ => None,
            },
            _ => None,
        }
    }

    fn after_move(self, flip: Flip) -> Result<Option<Draft>, Memory>
        ensures { IfOk result (λ r. r ≡ after_move self flip) }
    {
        match self {
            Draft::Sphere(start, mut flips) => {
                flips.push(flip)?;
                Ok(Some(Draft::Sphere(start, flips)))
            }
            Draft::Equivalent(start, target, mut first) => {
                first.push(flip)?;
                Ok(Some(Draft::Equivalent(start, target, first)))
            }
            Draft::Mapped(start, target, first, map, mut second) => {
                second.push(flip)?;
                Ok(Some(Draft::Mapped(start, target, first, map, second)))
            }
            Draft::Linked(start, blocks, vertex, mut flips) => {
                flips.push(flip)?;
                Ok(Some(Draft::Linked(start, blocks, vertex, flips)))
            }
            _ => Ok(None),
        }
    }

    fn after_map(self, alloc: Global, map: Pairs) -> Option<Draft>
        ensures { result ≡ after_map self map }
    {
        match self {
            Draft::Equivalent(start, target, first) => {
                Some(Draft::Mapped(start, target, first, map, Flips::new(alloc)))
            }
            _ => None,
        }
    }

    fn after_link(self, alloc: Global, next: u32) -> Result<Option<Draft>, Memory>
        ensures { IfOk result (λ r. r ≡ after_link self next) }
    {
        match self {
            Draft::Manifold(start) => Ok(Some(Draft::Linked(
                start,
                Blocks::new(alloc),
                next,
                Flips::new(alloc),
            ))),
            Draft::Linked(start, mut blocks, vertex, flips) => {
                blocks.push(Block { vertex, flips })?;
                Ok(Some(Draft::Linked(start, blocks, next, Flips::new(alloc))))
            }
            _ => Ok(None),
        }
    }

    fn after_end(self, alloc: Global) -> Result<Option<Draft>, Memory>
        ensures { IfOk result (λ r. r ≡ after_end self) }
    {
        match self {
            Draft::Sphere(start, flips) => {
                Ok(Some(Draft::Done(Certificate::Sphere { start, flips })))
            }
            Draft::Mapped(start, target, first, map, second) => {
                Ok(Some(Draft::Done(Certificate::Equivalent {
                    start,
                    target,
                    first,
                    map,
                    second,
                })))
            }
            Draft::Manifold(start) => {
                let blocks = Blocks::new(alloc);
                Ok(Some(Draft::Done(Certificate::Manifold { start, blocks })))
            }
            Draft::Linked(start, mut blocks, vertex, flips) => {
                blocks.push(Block { vertex, flips })?;
                Ok(Some(Draft::Done(Certificate::Manifold { start, blocks })))
            }
            _ => Ok(None),
        }
    }
}

// The draft of a heading and a list of facets.
fn headed(alloc: Global, kind: Kind, word: Word, start: Facets) -> Option<Draft>
    ensures { result ≡ headed kind word start }
{
    match kind {
        Kind::Sphere => match word {
            Word::Facets => Some(Draft::Sphere(start, Flips::new(alloc))),
            _ => None,
        },
        Kind::Equivalent => match word {
            Word::From => Some(Draft::From(start)),
            _ => None,
        },
        Kind::Manifold => match word {
            Word::Facets => Some(Draft::Manifold(start)),
            _ => None,
        },
    }
}
