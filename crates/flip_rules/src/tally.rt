ghost use Rattle.std.specs.Prelude.{◌≡◌};
ghost use Rattle.simplex.specs.Simplex.{minus};
ghost use Rattle.flip_rules.specs.Tallies.{blank, counted, joined, with_facet};

use simplex::Simplex;

/// What the facets that contain a face say of it: how many there are, or the last usize where that is less, and the labels that
/// they have beside its own. None where these are more than 12.
#[derive(Clone, Copy)]
pub struct Tally {
    pub degree: usize,
    pub up: Option<Simplex>,
}

impl Tally {
    /// The tally of no face.
    pub fn blank() -> Tally
        ensures { result ≡ blank }
    {
        Tally {
            degree: 0,
            up: Some(Simplex::EMPTY),
        }
    }

    /// One facet more at the face s.
    pub fn with_facet(&self, s: &Simplex, facet: &Simplex) -> Tally
        ensures { result ≡ with_facet facet.now s.now self.now }
    {
        Tally {
            degree: self.degree.saturating_add(1),
            up: joined(self.up, &facet.minus(s)),
        }
    }

    /// The link vertices. None where they or the facets are not so many.
    pub fn link(&self, count: usize) -> Option<Simplex>
        ensures { result ≡ counted count self.now.degree self.now.up }
    {
        let up = self.up?;
        if self.degree == count && up.len() == count {
            Some(up)
        } else {
            None
        }
    }
}

// The labels of both, where these are at most 12.
fn joined(up: Option<Simplex>, more: &Simplex) -> Option<Simplex>
    ensures { result ≡ joined up more.now }
{
    match up {
        Some(up) => up.union(more),
        None => None,
    }
}
