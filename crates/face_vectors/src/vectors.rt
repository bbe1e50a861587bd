ghost use Rattle.std.specs.Prelude.{◌≡◌, ◌≤◌, ◌^◌, map, pos};
ghost use Rattle.face_vectors.specs.Vectors.{signed, alternating, count_of_size, h_term, h_of, g_of, h_vector_of, g_vector_of};
ghost use Rattle.face_vectors.specs.Counts.{numbers, IsWithinLimits};
ghost use Rattle.face_vectors.specs.Row.{entries};
ghost use Rattle.face_vectors.specs.Magnitude.{IsWithin};

use crate::choose::choose;
use crate::{Counts, Row};

/// The f-vector f_0, .., f_d: the numbers of faces themselves.
pub fn f(c: &Counts) -> Row
    requires { IsWithinLimits c.now }
    ensures { entries result ≡ map pos (numbers c.now) }
{
    let mut row = Row::new();
    for count in &c.at[..c.size] {
        row.push(*count as i64);
    }
    row
}

/// The h-vector h_0, .., h_(d+1), by its formula with binomial coefficients. From: textbooks.
pub fn h(c: &Counts) -> Row
    requires { IsWithinLimits c.now }
    ensures { entries result ≡ h_vector_of (numbers c.now) }
{
    let mut row = Row::new();
    for k in 0..c.size + 1 {
        row.push(h_at(c, k));
    }
    row
}

/// The g-vector: g_0 = h_0 and g_k = h_k - h_(k-1), up to half of d + 1. From: textbooks.
pub fn g(c: &Counts) -> Row
    requires { IsWithinLimits c.now }
    ensures { entries result ≡ g_vector_of (numbers c.now) }
{
    let mut row = Row::new();
    for k in 0..c.size / 2 + 1 {
        row.push(g_at(c, k));
    }
    row
}

/// The Euler characteristic f_0 - f_1 + f_2 - .. .
pub fn euler(c: &Counts) -> i64
    requires { IsWithinLimits c.now }
    ensures { result ≡ alternating (numbers c.now) }
{
    let mut sum = 0;
    for k in (0..c.size).rev() {
        sum = c.at[k] as i64 - sum;
    }
    sum
}

// The number of faces with `size` labels, the empty face among them.
fn count_of_size(c: &Counts, size: usize) -> u64
    requires limits { IsWithinLimits c.now }
    requires size { size ≤ c.now.size }
    ensures value { result ≡ count_of_size (numbers c.now) size }
    ensures small { result ≤ 2 ^ 31 }
{
    if size == 0 { 1 } else { c.at[size - 1] }
}

// (-1)^k * n.
#[tactic(auto, using(crate::proofs::SignLaws::signed_by_parity))]
fn signed(k: usize, n: i64) -> i64
    requires { IsWithin (2 ^ 43) n }
    ensures value { result ≡ signed k n }
    ensures small { IsWithin (2 ^ 43) result }
{
    if k % 2 == 0 { n } else { -n }
}

// The term of h_k that counts the faces with i labels.
fn h_term(c: &Counts, k: usize, i: usize) -> i64
    requires limits { IsWithinLimits c.now }
    requires place { k ≤ c.now.size }
    requires term { i ≤ k }
    ensures value { result ≡ h_term (numbers c.now) k i }
    ensures small { IsWithin (2 ^ 43) result }
{
    let count = choose(c.size - i, k - i) * count_of_size(c, i);
    signed(k - i, count as i64)
}

// h_k.
fn h_at(c: &Counts, k: usize) -> i64
    requires limits { IsWithinLimits c.now }
    requires place { k ≤ c.now.size }
    ensures value { result ≡ h_of (numbers c.now) k }
    ensures small { IsWithin (2 ^ 47) result }
{
    let mut sum = 0;
    for i in 0..k + 1 {
        sum += h_term(c, k, i);
    }
    sum
}

// g_k.
fn g_at(c: &Counts, k: usize) -> i64
    requires limits { IsWithinLimits c.now }
    requires place { k ≤ c.now.size }
    ensures { result ≡ g_of (numbers c.now) k }
{
    if k == 0 {
        h_at(c, 0)
    } else {
        h_at(c, k) - h_at(c, k - 1)
    }
}
