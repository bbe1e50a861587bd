use crate::following::next_lists;
use crate::kept::next_point;
use facet_set::Facets;
use flip_rules::{Candidates, apply};
use simplex::{Flip, Memory, Simplex};
use std::alloc::Global;

// A staged flip, with what a session holds after it.
#[derive(Debug, Drop)]
pub struct Next {
    pub flip: Flip,
    pub present: Facets,
    pub candidates: Vec<Candidates>,
    pub point: Option<Simplex>,
}

impl Next {
    ghost use Rattle.std.specs.Prelude.{◌≡◌, None, IsTrue, IfOk};
    ghost use Rattle.simplex.specs.FirstFailing.{first_failing};
    ghost use Rattle.facet_set.specs.Flips.{allowed};
    ghost use Rattle.flip_rules.specs.Tests.{flip_tests};
    ghost use Rattle.flip_table.specs.Kept.{IsNext, candidate_lists, new_point};

    // What the flip leads to.
    pub fn of(
        alloc: Global,
        c: &Facets,
        candidates: &[Candidates],
        point: Option<Simplex>,
        flip: &Flip,
    ) -> Result<Next, Memory>
        requires passes { first_failing (flip_tests c.now flip.now) ≡ None }
        requires allowed { IsTrue (allowed c.now flip.now.a flip.now.b) }
        requires candidates { candidates.now ≡ candidate_lists c.now }
        requires point { point ≡ new_point c.now }
        ensures flip { IfOk result (λ n. n.flip ≡ flip.now) }
        ensures next { IfOk result (λ n. IsNext c.now flip.now n.present n.candidates.items n.point) }
    {
        let _facets = c.as_slice();
        let _back = flip.inverse();
        let present = apply(alloc, c, flip)?;
        let candidates = next_lists(alloc, candidates, flip, &present)?;
        let point = next_point(flip, point, &present)?;
        Ok(Next {
            flip: *flip,
            present,
            candidates,
            point,
        })
    }
}
