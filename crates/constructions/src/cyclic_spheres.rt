// Boundaries of cyclic polytopes.
ghost use Rattle.std.specs.Prelude.{◌≡◌, ◌≤◌, ◌<◌, ◌+◌, ◌^◌, ◌⊎◌, false, true, List, ◌++◌, Some, None, map, length, nat_lt, IsTrue, IfOk, OnOk, IfErr};
ghost use Rattle.std.specs.List.{list_all};
ghost use Rattle.simplex.specs.FirstFailing.{first_failing};
ghost use Rattle.simplex.specs.Simplex.{is_simplex, label_limit, len_limit};
ghost use Rattle.constructions.specs.Cyclic.{cyclic, cyclic_tests};
ghost use Rattle.simplex.specs.Binomials.{choose};
ghost use Rattle.constructions.specs.Runs.{runs, starts};
ghost use Rattle.constructions.specs.declared.make_fault.MakeFault.TheVariants as fault;

use crate::MakeFault;
use crate::fronts::with_last;
use facet_set::Facets;
use simplex::{LABEL_LIMIT, LEN_LIMIT, Memory, Simplex};
use std::alloc::Global;

/// The boundary of the cyclic polytope with n vertices whose facets have k labels, by Gale's evenness condition. The result weighs at
/// most `room`.
pub fn cyclic(alloc: Global, k: u64, n: u64, room: u64) -> Result<Facets, MakeFault>
    ensures value { IfOk result (λ c. c ≡ cyclic k n) }
    ensures passed { OnOk result (first_failing (cyclic_tests k n room) ≡ None) }
    ensures faults { IfErr result (λ e. (e ≡ fault.Memory) ⊎ (first_failing (cyclic_tests k n room) ≡ Some e)) }
{
    if let Some(fault) = cyclic_fault(k, n, room) {
        return Err(fault);
    }
    Ok(build(alloc, k as u32, n as u32)?)
}

// The first test that fails.
fn cyclic_fault(k: u64, n: u64, room: u64) -> Option<MakeFault>
    ensures exact { result ≡ first_failing (cyclic_tests k n room) }
    ensures range { result ≡ None → k < n }
    ensures short { result ≡ None → k ≤ len_limit }
    ensures limit { result ≡ None → n ≤ label_limit }
{
    if k == 0 || n <= k {
        return Some(MakeFault::Range);
    }
    if k > LEN_LIMIT as u64 {
        return Some(MakeFault::DimLimit);
    }
    if n > LABEL_LIMIT as u64 {
        return Some(MakeFault::LabelRange);
    }
    if facet_count(k, n) > (room >> k) as u128 {
        return Some(MakeFault::Size);
    }
    None
}

// The number of facets.
fn facet_count(k: u64, n: u64) -> u128
    requires some { 1 ≤ k }
    requires short { k ≤ 12 }
    requires more { k < n }
    requires limit { n ≤ label_limit }
    ensures { result ≡ length (cyclic k n) }
{
    let m = k / 2;
    if k % 2 == 0 {
        choose(n - m, m) + choose(n - m - 1, m - 1)
    } else {
        2 * choose(n - m - 1, m)
    }
}

// The number of subsets of k of n numbers.
fn choose(n: u64, k: u64) -> u128
    requires few { k ≤ 6 }
    requires within { k ≤ n }
    requires limit { n ≤ label_limit }
    ensures value { result ≡ choose n k }
    ensures bound { result ≤ 10 ^ 36 }
{
    let mut count: u128 = 1;
    for i in 0..k {
        count = count * (n - i) as u128 / (i + 1) as u128;
    }
    count
}

fn build(alloc: Global, k: u32, n: u32) -> Result<Facets, Memory>
    requires short { k ≤ 12 }
    requires more { k < n }
    requires limit { n ≤ label_limit }
    ensures { IfOk result (λ c. c ≡ cyclic k n) }
{
    let mut list = Vec::new(alloc);
    add_starts(&mut list, &Simplex::EMPTY, 1, n, k)?;
    Facets::generated(alloc, &list)
}

// Adds the simplex continued by k of the numbers from the first on, of which there are so many, where the first run may be of any length.
fn add_starts(
    list: &mut Vec<Simplex>,
    front: &Simplex,
    first: u32,
    count: u32,
    k: u32,
) -> Result<(), Memory>
    requires more { k < count }
    requires short { length front.now + k ≤ len_limit }
    requires simplex { IsTrue (is_simplex front.now) }
    requires below { list_all (λ x. nat_lt x first) front.now ≡ true }
    requires label { 1 ≤ first }
    requires limit { first + count ≤ label_limit + 1 }
    ensures { OnOk result (list.new.items ≡ list.old.items ++ map (λ s. front.now ++ s) (starts first count k)) }
{
    if k == 0 {
        list.push(*front)?;
        return Ok(());
    }
    add_starts(list, &with_last(front, first), first + 1, count - 1, k - 1)?;
    add_runs(list, front, first + 1, count - 1, k)
}

// Adds the simplex continued by k of the numbers from the first on, of which there are so many, where each run but the last is of even length.
fn add_runs(
    list: &mut Vec<Simplex>,
    front: &Simplex,
    first: u32,
    count: u32,
    k: u32,
) -> Result<(), Memory>
    requires more { k ≤ count }
    requires short { length front.now + k ≤ len_limit }
    requires simplex { IsTrue (is_simplex front.now) }
    requires below { list_all (λ x. nat_lt x first) front.now ≡ true }
    requires label { 1 ≤ first }
    requires limit { first + count ≤ label_limit + 1 }
    ensures { OnOk result (list.new.items ≡ list.old.items ++ map (λ s. front.now ++ s) (runs false first count k)) }
{
    if k == 0 {
        list.push(*front)?;
        return Ok(());
    }
    if k == 1 {
        list.push(with_last(front, first + count - 1))?;
        return Ok(());
    }
    for i in 0..count - k + 1 {
        let pair = with_last(&with_last(front, first + i), first + i + 1);
        add_runs(list, &pair, first + i + 2, count - i - 2, k - 2)?;
    }
    Ok(())
}
