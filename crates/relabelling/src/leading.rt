// The least bijection that carries a closed and strong complex to another, by the images of one facet.
ghost use Rattle.std.specs.Prelude.{◌≡◌, ◌++◌, ◌<◌, ℕ, List, None, Some, true, map, length, slice_index_or, IfOk, IfSome, OnOk, IsTrue};
ghost use Rattle.std.specs.List.{flat_map, list_all};
ghost use Rattle.simplex.specs.Members.{In};
ghost use Rattle.simplex.specs.Simplex.{is_label};
ghost use Rattle.facet_set.specs.Connection.{is_closed, is_strong};
ghost use Rattle.facet_set.specs.Maps.{image_of, relabelled};
ghost use Rattle.relabelling.specs.Bijections.{first_map, comes_before};
ghost use Rattle.relabelling.specs.Colours.{colour};
ghost use Rattle.relabelling.specs.Flags.{AreOrders};
ghost use Rattle.relabelling.specs.Least.{Improves, IsBeaten, IsReady, lesser, with_each};
ghost use Rattle.relabelling.specs.Walks.{AreWays};

use crate::colours::{Colours, refine};
use crate::extending::{Ways, extended};
use crate::flags::Flag;
use facet_set::Facets;
use simplex::{Labels, Memory, Pairs, Simplex};
use std::alloc::{AllocError, Global};

// The number of rounds in which colours are made finer.
const ROUNDS: usize = 4;

/// The least bijection that carries c to d, if there is one. None where there is too much to be tried.
pub fn led(alloc: Global, c: &Facets, d: &Facets) -> Result<Option<Option<Pairs>>, Memory>
    requires closed { IsTrue (is_closed c.now) }
    requires strong { IsTrue (is_strong c.now) }
    ensures { IfOk result (λ o. IfSome o (λ m. m ≡ first_map c.now d.now)) }
{
    let ways = Ways::new(alloc, c, d)?;
    led_by(alloc, &ways)
}

fn led_by(alloc: Global, ways: &Ways) -> Result<Option<Option<Pairs>>, Memory>
    requires ways { AreWays ways.now.c.now ways.now.d.now ways.now.c_ends ways.now.d_ends }
    requires strong { IsTrue (is_strong ways.now.c.now) }
    ensures { IfOk result (λ o. IfSome o (λ m. m ≡ first_map ways.now.c.now ways.now.d.now)) }
{
    let vertices = ways.c.vertices()?;
    let targets = ways.d.vertices()?;
    let count = vertices.len();
    let target_count = targets.len();
    if count != target_count {
        return Ok(Some(None));
    }
    let mut colours = Colours::new(alloc);
    let fits = refine(alloc, ways.c, ways.d, &mut colours, ROUNDS)?;
    if !fits {
        return Ok(Some(None));
    }
    let facets = ways.c.as_slice();
    if facets.is_empty() {
        return Ok(None);
    }
    let start = facets[0];
    let begins = begins(&start, vertices.as_slice());
    if !begins {
        return Ok(None);
    }
    let lead = Lead {
        ways,
        vertices: vertices.as_slice(),
        start: &start,
        colours: &colours,
    };
    lead.least(alloc)
}

// Whether the simplex has a label, and it is the first of the list.
fn begins(s: &Simplex, labels: &[u32]) -> bool
    ensures some { result ≡ true → 0 < length s.now }
    ensures first { result ≡ true → slice_index_or s.now 0 0 ≡ slice_index_or labels.now 0 0 }
    ensures labels { result ≡ true → 0 < length labels.now }
{
    !s.is_empty() && !labels.is_empty() && s.labels()[0] == labels[0]
}

// What the search for the least bijection goes by: the facet whose images are tried, and colours that are kept.
#[derive(Clone, Copy)]
struct Lead<'a> {
    ways: &'a Ways<'a>,
    vertices: &'a [u32],
    start: &'a Simplex,
    colours: &'a Colours,
}

impl Lead<'_> {
    // The least of all bijections. None where there is too much to be tried.
    fn least(&self, alloc: Global) -> Result<Option<Option<Pairs>>, Memory>
        requires ways { AreWays self.now.ways.now.c.now self.now.ways.now.d.now self.now.ways.now.c_ends self.now.ways.now.d_ends }
        requires ready { IsReady self.now.ways.now.c.now self.now.ways.now.d.now self.now.vertices.now self.now.start.now (colour self.now.colours.now.of_c) (colour self.now.colours.now.of_d) }
        ensures { IfOk result (λ o. IfSome o (λ m. m ≡ first_map self.now.ways.now.c.now self.now.ways.now.d.now)) }
    {
        let places = places(alloc, self.ways.d.as_slice())?;
        let mut best = None;
        for place in &places {
            match self.least_at(alloc, place.0, &place.1, best)? {
                Some(map) => best = map,
                None => return Ok(None),
            }
        }
        Ok(Some(best))
    }

    // The least of this one and those that carry the facet to this one and its first label to this one. None where there is
    // too much to be tried.
    fn least_at(
        &self,
        alloc: Global,
        label: u32,
        facet: &Simplex,
        best: Option<Pairs>,
    ) -> Result<Option<Option<Pairs>>, Memory>
        requires ways { AreWays self.now.ways.now.c.now self.now.ways.now.d.now self.now.ways.now.c_ends self.now.ways.now.d_ends }
        requires ready { IsReady self.now.ways.now.c.now self.now.ways.now.d.now self.now.vertices.now self.now.start.now (colour self.now.colours.now.of_c) (colour self.now.colours.now.of_d) }
        requires label { IsTrue (is_label label) }
        requires facet { IsTrue (list_all is_label facet.now) }
        ensures { IfOk result (λ o. IfSome o (λ n. Improves self.now.ways.now.c.now self.now.ways.now.d.now best n (λ m. (image_of m (slice_index_or self.now.start.now 0 0) ≡ label) × (relabelled m self.now.start.now ≡ facet.now)))) }
    {
        if is_beaten(&best, label) {
            return Ok(Some(best));
        }
        let flag = Flag {
            start: self.start,
            facet,
            colours: self.colours,
        };
        match flag.orders(alloc, label)? {
            Some(orders) => {
                let least = self.least_of(alloc, &orders, best)?;
                Ok(Some(least))
            }
            None => Ok(None),
        }
    }

    // The least of this one and those that give the labels of the facet these orders of images.
    fn least_of(
        &self,
        alloc: Global,
        orders: &[Labels],
        best: Option<Pairs>,
    ) -> Result<Option<Pairs>, Memory>
        requires ways { AreWays self.now.ways.now.c.now self.now.ways.now.d.now self.now.ways.now.c_ends self.now.ways.now.d_ends }
        requires ready { IsReady self.now.ways.now.c.now self.now.ways.now.d.now self.now.vertices.now self.now.start.now (colour self.now.colours.now.of_c) (colour self.now.colours.now.of_d) }
        requires orders { AreOrders (length self.now.start.now) orders.now }
        ensures { IfOk result (λ n. Improves self.now.ways.now.c.now self.now.ways.now.d.now best n (λ m. In (map (image_of m) self.now.start.now) orders.now)) }
    {
        let mut least = best;
        for order in orders {
            let map = extended(
                alloc,
                self.ways,
                self.vertices,
                self.start,
                order.as_slice(),
            )?;
            least = lesser(alloc, least, map)?;
        }
        Ok(least)
    }
}

// The one of the two with the lesser list of images, of those that there are.
fn lesser(
    alloc: Global,
    first: Option<Pairs>,
    second: Option<Pairs>,
) -> Result<Option<Pairs>, AllocError>
    ensures { IfOk result (λ o. o ≡ lesser first second) }
{
    match first {
        Some(first) => lesser_than(alloc, first, second),
        None => Ok(second),
    }
}

fn lesser_than(
    alloc: Global,
    first: Pairs,
    second: Option<Pairs>,
) -> Result<Option<Pairs>, AllocError>
    ensures { IfOk result (λ o. o ≡ lesser (Some first) second) }
{
    match second {
        Some(second) => lesser_of_two(alloc, first, second),
        None => Ok(Some(first)),
    }
}

fn lesser_of_two(alloc: Global, first: Pairs, second: Pairs) -> Result<Option<Pairs>, AllocError>
    ensures { IfOk result (λ o. o ≡ lesser (Some first) (Some second)) }
{
    if comes_before(alloc, &second, &first)? {
        return Ok(Some(second));
    }
    Ok(Some(first))
}

fn comes_before(alloc: Global, first: &Pairs, second: &Pairs) -> Result<bool, AllocError>
    ensures { IfOk result (λ b. b ≡ comes_before first.now second.now) }
{
    let first = images(alloc, first.as_slice())?;
    let second = images(alloc, second.as_slice())?;
    Ok(first.as_slice().cmp(second.as_slice()).is_lt())
}

fn images(alloc: Global, pairs: &[(u32, u32)]) -> Result<Vec<u32>, AllocError>
    ensures { IfOk result (λ v. v.items ≡ map (λ p. p.1) pairs.now) }
{
    pairs.iter().map(|pair| pair.1).collect(alloc)
}

// Whether there is a bijection, and its first image is below the label.
fn is_beaten(best: &Option<Pairs>, label: u32) -> bool
    ensures { result ≡ true → IsBeaten best.now label }
{
    match best {
        Some(map) => match map.at(0) {
            Some(pair) => pair.1 < label,
            None => false,
        },
        None => false,
    }
}

// Each label of each simplex, with the simplex, in increasing order.
fn places(alloc: Global, simplices: &[Simplex]) -> Result<Vec<(u32, Simplex)>, Memory>
    ensures all { IfOk result (λ v. (a : ℕ) (s : List ℕ) → In s simplices.now → In a s → In (a, s) v.items) }
    ensures only { IfOk result (λ v. (a : ℕ) (s : List ℕ) → In (a, s) v.items → In s simplices.now × In a s) }
{
    let mut places = all_places(alloc, simplices)?;
    places.sort_unstable();
    Ok(places)
}

fn all_places(alloc: Global, simplices: &[Simplex]) -> Result<Vec<(u32, Simplex)>, Memory>
    ensures { IfOk result (λ v. v.items ≡ flat_map with_each simplices.now) }
{
    let mut places = Vec::new(alloc);
    for s in simplices {
        add_places(&mut places, s)?;
    }
    Ok(places)
}

fn add_places(places: &mut Vec<(u32, Simplex)>, s: &Simplex) -> Result<(), Memory>
    ensures { OnOk result (places.new.items ≡ places.old.items ++ with_each s.now) }
{
    for label in s.labels() {
        places.push((*label, *s))?;
    }
    Ok(())
}
