// The bijection with given images of one facet, by a walk from facet to facet.
ghost use Rattle.std.specs.Prelude.{◌≡◌, ◌&&◌, ◌∷◌, ℕ, List, true, false, map, length, nat_eq, IfOk, IfSome, IfNone, OnOk, IsSome, IsTrue};
ghost use Rattle.std.specs.List.{list_all};
ghost use Rattle.std.specs.HashMap.{get};
ghost use Rattle.std.specs.Map.{lookup};
ghost use Rattle.std.specs.Cmp.Lexicographic.{pointwise};
ghost use Rattle.simplex.specs.Members.{In};
ghost use Rattle.simplex.specs.Simplex.{is_label, without};
ghost use Rattle.simplex.specs.SimplexFault.{set};
ghost use Rattle.facet_set.specs.Complex.{stands_in, verts};
ghost use Rattle.facet_set.specs.Connection.{is_closed, is_strong, share_ridge};
ghost use Rattle.facet_set.specs.Flips.{same_facets};
ghost use Rattle.facet_set.specs.Maps.{image, becomes};
ghost use Rattle.relabelling.specs.Bijections.{extension};
ghost use Rattle.relabelling.specs.Ridges.{AreEnds, other_end};
ghost use Rattle.relabelling.specs.Walks.{AreLabels, AreWays, Extends, GoesOn, IsKnown, NoneAgrees, is_that, is_unseen, map_of};

use crate::ridges::{ends, other_end};
use crate::search::pairs;
use facet_set::{Facets, image, image_of, with_images, with_label};
use simplex::{LABEL_LIMIT, Memory, Pairs, Simplex};
use std::alloc::Global;
use std::collections::{HashMap, HashSet};

/// The one bijection of vertices that carries c to d and gives the labels of the facet `start` these images, in order. None
/// exactly where there is none. The time is in proportion to the number of facets.
pub fn extend_map(
    alloc: Global,
    c: &Facets,
    d: &Facets,
    start: &Simplex,
    images: &[u32],
) -> Result<Option<Pairs>, Memory>
    requires closed { IsTrue (is_closed c.now) }
    requires strong { IsTrue (is_strong c.now) }
    requires start { IsTrue (stands_in c.now start.now) }
    requires images { length images.now ≡ length start.now }
    ensures { IfOk result (λ o. o ≡ extension c.now d.now start.now images.now) }
{
    let ways = Ways::new(alloc, c, d)?;
    let vertices = c.vertices()?;
    let target_vertices = d.vertices()?;
    let count = vertices.len();
    let target_count = target_vertices.len();
    if count != target_count {
        return Ok(None);
    }
    if !are_labels(images) {
        return Ok(None);
    }
    extended(alloc, &ways, vertices.as_slice(), start, images)
}

/// The same by ways that are at hand, where the given images are labels and the two complexes have as many vertices.
pub fn extended(
    alloc: Global,
    ways: &Ways,
    vertices: &[u32],
    start: &Simplex,
    images: &[u32],
) -> Result<Option<Pairs>, Memory>
    requires ways { AreWays ways.now.c.now ways.now.d.now ways.now.c_ends ways.now.d_ends }
    requires strong { IsTrue (is_strong ways.now.c.now) }
    requires vertices { vertices.now ≡ verts ways.now.c.now }
    requires vertex_labels { IsTrue (list_all is_label vertices.now) }
    requires as_many { length (verts ways.now.c.now) ≡ length (verts ways.now.d.now) }
    requires start { In start.now ways.now.c.now }
    requires images { length images.now ≡ length start.now }
    requires labels { IsTrue (list_all is_label images.now) }
    ensures { IfOk result (λ o. o ≡ extension ways.now.c.now ways.now.d.now start.now images.now) }
{
    let leading = pairs(alloc, start.labels(), images)?;
    let given = table_of(alloc, &leading)?;
    match images_from(alloc, ways, start, given)? {
        Some(table) => map_of(alloc, ways, vertices, &table),
        None => Ok(None),
    }
}

// The vertices with their images, where these carry the one complex to the other.
fn map_of(
    alloc: Global,
    ways: &Ways,
    vertices: &[u32],
    images: &HashMap<u32, u32>,
) -> Result<Option<Pairs>, Memory>
    requires labels { IsTrue (list_all is_label vertices.now) }
    requires images { AreLabels images.now }
    ensures { IfOk result (λ o. o ≡ map_of ways.now.c.now ways.now.d.now vertices.now images.now) }
{
    let list = with_their_images(alloc, vertices, images)?;
    if carries(alloc, ways.c, ways.d, &list)? {
        return Ok(Some(Pairs::from_vec(list)));
    }
    Ok(None)
}

/// Two complexes, and for the ridges of each what lies across.
#[derive(Drop)]
pub struct Ways<'a> {
    pub c: &'a Facets,
    pub d: &'a Facets,
    c_ends: HashMap<Simplex, (u32, u32)>,
    d_ends: HashMap<Simplex, (u32, u32)>,
}

impl<'a> Ways<'a> {
    /// The ways of a closed complex and another one.
    pub fn new(alloc: Global, c: &'a Facets, d: &'a Facets) -> Result<Ways<'a>, Memory>
        requires { IsTrue (is_closed c.now) }
        ensures ways { IfOk result (λ w. AreWays w.c.now w.d.now w.c_ends w.d_ends) }
        ensures c { IfOk result (λ w. w.c.now ≡ c.now) }
        ensures d { IfOk result (λ w. w.d.now ≡ d.now) }
    {
        let facets = c.as_slice();
        let targets = d.as_slice();
        let c_ends = ends(alloc, facets)?;
        let d_ends = ends(alloc, targets)?;
        Ok(Ways {
            c,
            d,
            c_ends,
            d_ends,
        })
    }
}

// How far a walk from facet to facet has come.
#[derive(Drop)]
struct Walk {
    // The images of labels of the facets that it reached.
    images: HashMap<u32, u32>,
    // The facets that it reached.
    seen: HashSet<Simplex>,
    // Reached facets that it goes on from.
    waiting: Vec<Simplex>,
    // Whether no reached facet was found to have an image that is no facet.
    fits: bool,
}

fn are_labels(list: &[u32]) -> bool
    ensures { result ≡ list_all is_label list.now }
{
    list.iter().all(|a| 1 <= *a && *a <= LABEL_LIMIT)
}

// What each label becomes, by the first pair that it leads.
fn table_of(alloc: Global, pairs: &[(u32, u32)]) -> Result<HashMap<u32, u32>, Memory>
    ensures { IfOk result (λ t. (a : ℕ) → get nat_eq t a ≡ lookup (nat_eq a) pairs.now) }
{
    let mut table = HashMap::new(alloc);
    let mut rest = pairs.len();
    while rest > 0 {
        rest -= 1;
        table.insert(pairs[rest].0, pairs[rest].1)?;
    }
    Ok(table)
}

// The images of all vertices of c, as a walk from the facet on leads to them. Each bijection that carries c to d and has the
// given images has these. None only where there is no such bijection.
fn images_from(
    alloc: Global,
    ways: &Ways,
    start: &Simplex,
    given: HashMap<u32, u32>,
) -> Result<Option<HashMap<u32, u32>>, Memory>
    requires ways { AreWays ways.now.c.now ways.now.d.now ways.now.c_ends ways.now.d_ends }
    requires strong { IsTrue (is_strong ways.now.c.now) }
    requires start { In start.now ways.now.c.now }
    requires known { IsKnown given start.now }
    requires labels { AreLabels given }
    ensures extends { IfOk result (λ o. IfSome o (λ t. Extends ways.now.c.now ways.now.d.now given t)) }
    ensures known { IfOk result (λ o. IfSome o (λ t. IsKnown t (verts ways.now.c.now))) }
    ensures apart { IfOk result (λ o. IfNone o (NoneAgrees ways.now.c.now ways.now.d.now given)) }
{
    let mut seen = HashSet::new(alloc);
    seen.insert(*start)?;
    let mut waiting = Vec::new(alloc);
    waiting.push(*start)?;
    let mut walk = Walk {
        images: given,
        seen,
        waiting,
        fits: true,
    };
    while let Some(facet) = walk.waiting.pop() {
        walk.spread(ways, &facet)?;
        if !walk.fits {
            return Ok(None);
        }
    }
    Ok(Some(walk.images))
}

impl Walk {
    // Reaches all facets that share a ridge with this one.
    fn spread(&mut self, ways: &Ways, facet: &Simplex) -> Result<(), Memory>
        requires ways { AreWays ways.now.c.now ways.now.d.now ways.now.c_ends ways.now.d_ends }
        requires facet { In facet.now ways.now.c.now }
        requires seen { is_unseen self.old facet.now ≡ false }
        requires known { IsKnown self.old.images facet.now }
        requires labels { AreLabels self.old.images }
        ensures goes_on { OnOk result (GoesOn ways.now.c.now ways.now.d.now self.old self.new) }
        ensures reaches { OnOk result ((u : List ℕ) → In u ways.now.c.now → IsTrue (share_ridge ways.now.c.now facet.now u) → is_unseen self.new u ≡ false) }
    {
        for label in facet.labels() {
            self.cross(ways, facet, *label)?;
        }
        Ok(())
    }

    // Reaches the facet that has the labels of this one but the given label.
    fn cross(&mut self, ways: &Ways, facet: &Simplex, label: u32) -> Result<(), Memory>
        requires ways { AreWays ways.now.c.now ways.now.d.now ways.now.c_ends ways.now.d_ends }
        requires facet { In facet.now ways.now.c.now }
        requires seen { is_unseen self.old facet.now ≡ false }
        requires label { In label facet.now }
        requires known { IsKnown self.old.images facet.now }
        requires labels { AreLabels self.old.images }
        ensures goes_on { OnOk result (GoesOn ways.now.c.now ways.now.d.now self.old self.new) }
        ensures reaches { OnOk result ((u : List ℕ) (x : ℕ) → In u ways.now.c.now → In x u → without u x ≡ without facet.now label → is_unseen self.new u ≡ false) }
    {
        let ridge = facet.without(label);
        match other_end(&ways.c_ends, &ridge, label) {
            Some(next) => {
                self.reach(ways, &ridge, label, next)?;
                Ok(())
            }
            None => Ok(()),
        }
    }

    // Reaches the facet of the ridge and the label `next`, which lies across from `label`.
    fn reach(&mut self, ways: &Ways, ridge: &Simplex, label: u32, next: u32) -> Result<(), Memory>
        requires ways { AreWays ways.now.c.now ways.now.d.now ways.now.c_ends ways.now.d_ends }
        requires ends { AreEnds ways.now.c.now ridge.now label next }
        requires known { IsKnown self.old.images (label ∷ ridge.now) }
        requires labels { AreLabels self.old.images }
        ensures goes_on { OnOk result (GoesOn ways.now.c.now ways.now.d.now self.old self.new) }
        ensures reaches { OnOk result ((u : List ℕ) → In next u → without u next ≡ ridge.now → In u ways.now.c.now → is_unseen self.new u ≡ false) }
    {
        let facet = with_label(ridge, next);
        if !self.seen.insert(facet)? {
            return Ok(());
        }
        let fits = give_image(&mut self.images, ways, ridge, label, next)?;
        self.fits = both(self.fits, fits);
        self.waiting.push(facet)?;
        Ok(())
    }
}

fn both(first: bool, second: bool) -> bool
    ensures { result ≡ (first && second) }
{
    first && second
}

// Gives the label `next` an image, where it has none. False only where no bijection that carries c to d has these images.
fn give_image(
    images: &mut HashMap<u32, u32>,
    ways: &Ways,
    ridge: &Simplex,
    label: u32,
    next: u32,
) -> Result<bool, Memory>
    requires ways { AreWays ways.now.c.now ways.now.d.now ways.now.c_ends ways.now.d_ends }
    requires ends { AreEnds ways.now.c.now ridge.now label next }
    requires known { IsKnown images.old (label ∷ ridge.now) }
    requires labels { AreLabels images.old }
    ensures extends { OnOk result (Extends ways.now.c.now ways.now.d.now images.old images.new) }
    ensures known { OnOk result (IsSome (get nat_eq images.new next)) }
    ensures apart { IfOk result (λ b. b ≡ false → NoneAgrees ways.now.c.now ways.now.d.now images.old) }
{
    let image = image_across(images, &ways.d_ends, ridge, label);
    match images.get(&next).copied() {
        Some(known) => Ok(is_that(image, known)),
        None => {
            images.insert(next, image.unwrap_or(next))?;
            Ok(image.is_some())
        }
    }
}

fn is_that(image: Option<u32>, label: u32) -> bool
    ensures { result ≡ is_that image label }
{
    match image {
        Some(image) => image == label,
        None => false,
    }
}

// The label across from the image of the ridge, where the other one is the image of the label.
fn image_across(
    images: &HashMap<u32, u32>,
    d_ends: &HashMap<Simplex, (u32, u32)>,
    ridge: &Simplex,
    label: u32,
) -> Option<u32>
    requires { (a : ℕ) → IsTrue (is_label a) → IsTrue (is_label (becomes images.now a)) }
    ensures { result ≡ other_end (get (pointwise nat_eq) d_ends.now (set (map (becomes images.now) ridge.now))) (becomes images.now label) }
{
    other_end(d_ends, &with_images(ridge, images), image_of(images, label))
}

// The labels with their images.
fn with_their_images(
    alloc: Global,
    labels: &[u32],
    images: &HashMap<u32, u32>,
) -> Result<Vec<(u32, u32)>, Memory>
    ensures { IfOk result (λ v. v.items ≡ map (λ a. (a, becomes images.now a)) labels.now) }
{
    let mut list = Vec::new(alloc);
    for label in labels {
        list.push((*label, image_of(images, *label)))?;
    }
    Ok(list)
}

// Whether the complex with each label replaced is the other one.
fn carries(alloc: Global, c: &Facets, d: &Facets, pairs: &[(u32, u32)]) -> Result<bool, Memory>
    requires { IsTrue (list_all (λ p. is_label p.1) pairs.now) }
    ensures { IfOk result (λ b. b ≡ same_facets (image pairs.now c.now) d.now) }
{
    let carried = image(alloc, c.as_slice(), pairs)?;
    Ok(carried.as_slice() == d.as_slice())
}
