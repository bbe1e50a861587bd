// Relabelling by lists of numbers of a script. What the lists say is decided over the numbers themselves.
ghost use Rattle.std.specs.Prelude.{◌≡◌, ◌&&◌, true, map, slice_index_or, None, IfOk, OnOk, IfErr, IsTrue};
ghost use Rattle.std.specs.List.{list_all};
ghost use Rattle.simplex.specs.FirstFailing.{first_failing};
ghost use Rattle.simplex.specs.Simplex.{is_label, is_same};
ghost use Rattle.simplex.specs.SimplexFault.{set};
ghost use Rattle.facet_set.specs.Complex.{verts};
ghost use Rattle.facet_set.specs.Maps.{image, is_distinct};
ghost use Rattle.constructions.specs.Relabelling.{is_renaming};
ghost use Rattle.script_shell.specs.Commands.{is_pair, pair_of};
ghost use Rattle.script_shell.specs.Relabelling.{map_tests};
ghost use Rattle.script_shell.specs.Saturated.{saturated};
ghost use Rattle.script_shell.specs.Stops.{StopsAt};

use crate::constructing::constructed;
use crate::lists::saturated;
use crate::stop::Stop;
use facet_set::Facets;
use script_text::Condition;
use simplex::{LABEL_LIMIT, Lists, Memory, Numbers, Pairs};
use std::alloc::Global;

/// The complex with other labels, by lists of an old label and the new one.
pub fn relabel(alloc: Global, complex: &Facets, lists: &Lists) -> Result<Facets, Stop>
    ensures passed { OnOk result (first_failing (map_tests complex.now lists.now) ≡ None) }
    ensures complex { IfOk result (λ c. c ≡ image (map pair_of lists.now) complex.now) }
    ensures refused { IfErr result (λ stop. StopsAt stop (first_failing (map_tests complex.now lists.now))) }
{
    let pairs = renaming(alloc, complex, lists.as_slice())?;
    constructed(constructions::relabel(alloc, complex, &pairs))
}

// The pairs of the lists, where these are a map of the vertices to labels.
fn renaming(alloc: Global, complex: &Facets, lists: &[Numbers]) -> Result<Pairs, Stop>
    ensures pairs { IfOk result (λ m. m ≡ map pair_of lists.now) }
    ensures all { OnOk result (list_all is_pair lists.now ≡ true) }
    ensures passed { OnOk result (first_failing (map_tests complex.now lists.now) ≡ None) }
    ensures refused { IfErr result (λ stop. StopsAt stop (first_failing (map_tests complex.now lists.now))) }
{
    if !is_map(alloc, complex, lists)? {
        return Err(Stop::Refused(Condition::NotMap));
    }
    if !gives_labels(lists) {
        return Err(Stop::Refused(Condition::LabelRange));
    }
    Ok(pairs_of(alloc, lists)?)
}

// Whether each list is a vertex and what it becomes, each vertex stands once, and no two become the same.
fn is_map(alloc: Global, complex: &Facets, lists: &[Numbers]) -> Result<bool, Memory>
    ensures value { IfOk result (λ b. b ≡ (list_all is_pair lists.now && is_renaming (map pair_of lists.now) complex.now)) }
    ensures labels { IfOk result (λ b. b ≡ true → list_all is_label (map (λ l. slice_index_or l 0 0) lists.now) ≡ true) }
{
    let old = numbers_at(alloc, lists, 0)?;
    let new = numbers_at(alloc, lists, 1)?;
    let pairs = are_pairs(lists);
    let whole = are_vertices(alloc, &old, complex)?;
    let apart = is_distinct(alloc, &new)?;
    Ok(pairs && (whole && apart))
}

fn are_pairs(lists: &[Numbers]) -> bool
    ensures { result ≡ list_all is_pair lists.now }
{
    lists.iter().all(|list| list.len() == 2)
}

// The number at the place, or 0 where the list is shorter.
fn number_at(list: &Numbers, at: usize) -> u64
    ensures { result ≡ slice_index_or list.now at 0 }
{
    list.at(at).copied().unwrap_or(0)
}

// The numbers at the place of each list.
fn numbers_at(alloc: Global, lists: &[Numbers], at: usize) -> Result<Vec<u64>, Memory>
    ensures { IfOk result (λ v. v.items ≡ map (λ l. slice_index_or l at 0) lists.now) }
{
    let mut numbers = Vec::new(alloc);
    for list in lists {
        numbers.push(number_at(list, at))?;
    }
    Ok(numbers)
}

// Whether the numbers are the vertices, each once.
fn are_vertices(alloc: Global, numbers: &[u64], complex: &Facets) -> Result<bool, Memory>
    ensures value { IfOk result (λ b. b ≡ (is_distinct numbers.now && is_same (set numbers.now) (verts complex.now))) }
    ensures labels { IfOk result (λ b. b ≡ true → list_all is_label numbers.now ≡ true) }
{
    let set = set_of(alloc, numbers)?;
    let vertices = vertices(alloc, complex)?;
    let once = is_once(&set, numbers);
    let whole = is_same(&set, &vertices);
    Ok(once && whole)
}

fn is_distinct(alloc: Global, numbers: &[u64]) -> Result<bool, Memory>
    ensures { IfOk result (λ b. b ≡ is_distinct numbers.now) }
{
    let set = set_of(alloc, numbers)?;
    Ok(is_once(&set, numbers))
}

// Whether no number stands twice, by the set of the numbers.
fn is_once(members: &[u64], numbers: &[u64]) -> bool
    requires { members.now ≡ set numbers.now }
    ensures { result ≡ is_distinct numbers.now }
{
    members.len() == numbers.len()
}

// The numbers, each once, in increasing order.
fn set_of(alloc: Global, numbers: &[u64]) -> Result<Vec<u64>, Memory>
    ensures { IfOk result (λ v. v.items ≡ set numbers.now) }
{
    let mut members = Vec::from_slice(alloc, numbers)?;
    members.sort_unstable();
    members.dedup();
    Ok(members)
}

// The vertices in increasing order, as numbers of a script.
fn vertices(alloc: Global, complex: &Facets) -> Result<Vec<u64>, Memory>
    ensures value { IfOk result (λ v. v.items ≡ verts complex.now) }
    ensures labels { IfOk result (λ v. IsTrue (list_all is_label v.items)) }
{
    let labels = complex.vertices()?;
    widened(alloc, labels.as_slice())
}

fn widened(alloc: Global, labels: &[u32]) -> Result<Vec<u64>, Memory>
    ensures { IfOk result (λ v. v.items ≡ labels.now) }
{
    let mut numbers = Vec::new(alloc);
    for label in labels {
        numbers.push(u64::from(*label))?;
    }
    Ok(numbers)
}

fn is_same(s: &[u64], t: &[u64]) -> bool
    ensures { result ≡ is_same s.now t.now }
{
    s == t
}

fn gives_labels(lists: &[Numbers]) -> bool
    ensures { result ≡ list_all (λ p. is_label p.1) (map pair_of lists.now) }
{
    lists.iter().all(|list| is_label(number_at(list, 1)))
}

fn is_label(number: u64) -> bool
    ensures { result ≡ is_label number }
{
    1 <= number && number <= u64::from(LABEL_LIMIT)
}

// The two numbers of each list, as labels.
fn pairs_of(alloc: Global, lists: &[Numbers]) -> Result<Pairs, Memory>
    ensures { IfOk result (λ m. m ≡ map (λ l. (saturated (pair_of l).0, saturated (pair_of l).1)) lists.now) }
{
    let mut pairs = Pairs::new(alloc);
    for list in lists {
        pairs.push((saturated(number_at(list, 0)), saturated(number_at(list, 1))))?;
    }
    Ok(pairs)
}
