ghost use Rattle.std.specs.Prelude.{◌≡◌};
ghost use Rattle.flip_certificate.specs.Lines.{kind_text, word_text};

use facet_set::Facets;
use simplex::{Flip, Pairs};

/// What a certificate is of.
#[derive(Clone, Copy, Debug, PartialEq, Eq)]
pub enum Kind {
    Sphere,
    Equivalent,
    Manifold,
}

impl Kind {
    /// Its word in a heading.
    pub fn text(self) -> &'static [u8]
        ensures { result.now ≡ kind_text self }
    {
        match self {
            Kind::Sphere => b"sphere",
            Kind::Equivalent => b"equivalent",
            Kind::Manifold => b"manifold",
        }
    }
}

/// The word in front of a list of facets.
#[derive(Clone, Copy, Debug, PartialEq, Eq)]
pub enum Word {
    Facets,
    From,
    To,
}

impl Word {
    /// Its bytes.
    pub fn text(self) -> &'static [u8]
        ensures { result.now ≡ word_text self }
    {
        match self {
            Word::Facets => b"facets",
            Word::From => b"from",
            Word::To => b"to",
        }
    }
}

/// A line of a certificate.
#[derive(Debug, Drop)]
pub enum Line {
    Heading(Kind),
    Complex(Word, Facets),
    Move(Flip),
    Map(Pairs),
    Link(u32),
    End,
}
