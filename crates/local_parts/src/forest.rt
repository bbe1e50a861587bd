// Classes of numbers, by a forest in which each number stands under a lesser one or is a root.
ghost use Rattle.std.specs.Prelude.{◌≡◌, ◌≤◌, ◌<◌, ℕ, Bool, ◌==◌, min, max, slice_index_or, length, if◌then◌else◌, IfOk};
ghost use Rattle.std.specs.List.{range_with_len, filter};
ghost use Rattle.simplex.specs.Members.{In};
ghost use Rattle.facet_set.specs.Connection.{classes};
ghost use Rattle.local_parts.specs.Forest.{Falls, IsForest, root, moved, HasChains};

use simplex::Memory;
use std::alloc::Global;

/// The number of classes of the numbers below `count` under chains of the pairs.
pub fn class_count(alloc: Global, count: usize, pairs: &[(usize, usize)]) -> Result<usize, Memory>
    requires { (q : ℕ × ℕ) → In q pairs.now → (q.0 < count) × (q.1 < count) }
    ensures { IfOk result (λ n. (joined : ℕ → ℕ → Bool) → HasChains joined pairs.now count
        → n ≡ length (classes joined (range_with_len 0 count))) }
{
    let mut parents = roots_alone(alloc, count)?;
    unite_all(&mut parents, pairs);
    Ok(root_count(&parents))
}

// Each number below `count` under itself.
fn roots_alone(alloc: Global, count: usize) -> Result<Vec<usize>, Memory>
    ensures { IfOk result (λ v. v.items ≡ range_with_len 0 count) }
{
    let mut parents = Vec::new(alloc);
    for i in 0..count {
        parents.push(i)?;
    }
    Ok(parents)
}

fn root_count(parents: &[usize]) -> usize
    ensures { result ≡ length (filter (λ i. slice_index_or parents.now i 0 == i) (range_with_len 0 (length parents.now))) }
{
    let mut count = 0;
    for i in 0..parents.len() {
        count += one_if_root(parents, i);
    }
    count
}

fn one_if_root(parents: &[usize], i: usize) -> usize
    requires { i < length parents.now }
    ensures value { result ≡ (if slice_index_or parents.now i 0 == i then 1 else 0) }
    ensures bound { result ≤ 1 }
{
    (parents[i] == i) as usize
}

fn unite_all(parents: &mut [usize], pairs: &[(usize, usize)])
    requires alone { parents.old ≡ range_with_len 0 (length parents.old) }
    requires below { (q : ℕ × ℕ) → In q pairs.now → (q.0 < length parents.old) × (q.1 < length parents.old) }
    ensures { IsForest (length parents.old) pairs.now pairs.now parents.new }
{
    for pair in pairs {
        unite(parents, pair.0, pair.1);
    }
}

// Hangs the tree of the greater root under the lesser one.
fn unite(parents: &mut [usize], i: usize, j: usize)
    requires falls { Falls parents.old }
    requires first { i < length parents.old }
    requires second { j < length parents.old }
    ensures falls { Falls parents.new }
    ensures roots { (x : ℕ) → x < length parents.old
        → root parents.new x ≡ moved (min (root parents.old i) (root parents.old j)) (max (root parents.old i) (root parents.old j)) (root parents.old x) }
{
    let a = root_of(parents, i);
    let b = root_of(parents, j);
    parents[a.max(b)] = a.min(b);
}

fn root_of(parents: &[usize], i: usize) -> usize
    requires falls { Falls parents.now }
    requires within { i < length parents.now }
    ensures value { result ≡ root parents.now i }
    ensures within { result < length parents.now }
    ensures root { slice_index_or parents.now result 0 ≡ result }
{
    let mut at = i;
    while parents[at] != at {
        at = parents[at];
    }
    at
}
