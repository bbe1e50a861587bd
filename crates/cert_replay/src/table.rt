ghost use Rattle.std.specs.Prelude.{◌≡◌, ◌<◌, IfOk, IsTrue, length};
ghost use Rattle.facet_set.specs.Complex.{is_face};
ghost use Rattle.facet_set.specs.Star.{is_counted_star};
ghost use Rattle.cert_replay.specs.Corners.{facets_of, AreCorners};

use crate::allowing::{has_flip_size, is_counted_star, lies_in_one};
use crate::balls::push_ball;
use crate::corners::{add_all, all_facets, facets_at, rare_label, remove_all};
use facet_set::Facets;
use simplex::{Flip, Memory, Simplex};
use std::alloc::Global;
use std::collections::BTreeSet;
use std::marker::Model;

/// A pure complex on which flips are made (Pachner; Bjorner and Lutz). A flip asks for the facets at one label of A and at one
/// of B, and changes the corners of its own facets alone.
#[derive(Drop)]
pub struct Table {
    corners: BTreeSet<(u32, Simplex)>,
    size: usize,
}

impl Model for Table {
    ghost use Rattle.std.specs.Prelude.{List, ℕ};
    ghost use Rattle.cert_replay.specs.Corners.{facets_of, IsTable};

    ghost Value = { List (List ℕ) };

    ghost view = { λ t. facets_of t.corners.keys };

    ghost invariant = { λ t. IsTable (facets_of t.corners.keys) t.size t.corners.keys };
}

impl Table {
    ghost use Rattle.std.specs.Prelude.{◌≡◌, IfOk, IsTrue};
    ghost use Rattle.facet_set.specs.Flips.{allowed, flip as flipped};
    ghost use Rattle.flip_certificate.specs.Valid.{is_pure_from};

    /// The table of the complex.
    pub fn of(alloc: Global, c: &Facets) -> Result<Table, Memory>
        requires { IsTrue (is_pure_from 1 c.now) }
        ensures { IfOk result (λ t. t ≡ c.now) }
    {
        let mut corners = BTreeSet::new(alloc);
        add_all(&mut corners, c.as_slice())?;
        Ok(Table {
            corners,
            size: c.size(),
        })
    }

    /// Whether the flip is allowed.
    pub fn allows(&self, alloc: Global, flip: &Flip) -> Result<bool, Memory>
        ensures { IfOk result (λ b. b ≡ allowed self.now flip.now.a flip.now.b) }
    {
        if !has_flip_size(self.size, flip) {
            return Ok(false);
        }
        if !flip.a.disjoint(&flip.b) {
            return Ok(false);
        }
        let _back = flip.inverse();
        let star = is_star(alloc, &self.corners, flip)?;
        let face = has_face(alloc, &self.corners, &flip.b)?;
        Ok(star && !face)
    }

    /// The complex after the flip: the facets that contain A go, and B with A minus one label comes, for each label of A.
    pub fn flipped(self, alloc: Global, flip: &Flip) -> Result<Table, Memory>
        requires { IsTrue (allowed self flip.now.a flip.now.b) }
        ensures { IfOk result (λ t. t ≡ flipped self flip.now.a flip.now.b) }
    {
        let back = flip.inverse();
        let Table { mut corners, size } = self;
        let mut gone = Vec::new(alloc);
        push_ball(&mut gone, &back)?;
        let mut come = Vec::new(alloc);
        push_ball(&mut come, flip)?;
        remove_all(&mut corners, &gone);
        add_all(&mut corners, &come)?;
        Ok(Table { corners, size })
    }

    /// The facets.
    pub fn facets(&self, alloc: Global) -> Result<Facets, Memory>
        ensures { IfOk result (λ d. d ≡ self.now) }
    {
        let facets = all_facets(alloc, &self.corners)?;
        Facets::generated(alloc, &facets)
    }
}

// Whether the facets that contain A are as many as the labels of B, and each has labels of A and B alone.
fn is_star(alloc: Global, corners: &BTreeSet<(u32, Simplex)>, flip: &Flip) -> Result<bool, Memory>
    requires some { 0 < length flip.now.a }
    requires corners { AreCorners (facets_of corners.now.keys) corners.now.keys }
    ensures { IfOk result (λ b. b ≡ is_counted_star (facets_of corners.now.keys) flip.now.a flip.now.b) }
{
    let label = rare_label(corners, &flip.a);
    let around = facets_at(alloc, corners, label)?;
    Ok(is_counted_star(&around, flip))
}

// Whether the simplex is a face.
fn has_face(alloc: Global, corners: &BTreeSet<(u32, Simplex)>, s: &Simplex) -> Result<bool, Memory>
    requires some { 0 < length s.now }
    requires corners { AreCorners (facets_of corners.now.keys) corners.now.keys }
    ensures { IfOk result (λ b. b ≡ is_face (facets_of corners.now.keys) s.now) }
{
    let label = rare_label(corners, s);
    let around = facets_at(alloc, corners, label)?;
    Ok(lies_in_one(&around, s))
}
