ghost use Rattle.std.specs.Prelude.{◌≡◌, ◌≤◌, ◌<◌, ◌+◌, ◌-◌, ◌^◌, ℕ, length, slice_index, if◌then◌else◌};
ghost use Rattle.betti_tables.specs.Filled.{IsFilled};
ghost use Rattle.morse_lists.specs.Morse.{critical_count, is_critical_of};

use crate::MorseStep;

/// The numbers of critical steps: c_0, c_1, .. are the first `len` of `at`, and `len` is the dimension and one, or 0 where there
/// is no face. The places after them hold 0, so that equal lists are equal values.
#[derive(Clone, Copy, Debug, PartialEq, Eq)]
pub struct Tally {
    pub len: usize,
    pub at: [u64; 12],
    pub ghost filled: { IsFilled at len },
}

impl Tally {
    ghost use Rattle.std.specs.Prelude.{◌≡◌, ◌≤◌, ◌<◌, ◌+◌, [], ◌∷◌, ◌++◌, map};
    ghost use Rattle.std.specs.List.{range_with_len};
    ghost use Rattle.morse_lists.specs.Morse.{critical_count};
    ghost use Rattle.morse_lists.specs.Tally.{numbers};

    /// The numbers c_0, c_1, .. in order.
    pub fn as_slice(&self) -> &[u64]
        ensures { result.now ≡ numbers self.now }
    {
        &self.at[..self.len]
    }

    // The numbers of critical steps of the first dimensions.
    pub(crate) fn of(steps: &[MorseStep], len: usize) -> Tally
        requires { len ≤ 12 }
        ensures { numbers result ≡ map (critical_count steps.now) (range_with_len 0 len) }
    {
        let counts = counts_of(steps);
        let mut tally = Tally {
            len: 0,
            at: [0; 12],
        };
        for k in 0..len {
            tally.push(counts[k]);
        }
        tally
    }

    // Adds a number at the end.
    fn push(&mut self, number: u64)
        requires { self.old.len < 12 }
        ensures value { numbers self.new ≡ numbers self.old ++ number ∷ [] }
        ensures len { self.new.len ≡ self.old.len + 1 }
    {
        self.at[self.len] = number;
        self.len += 1;
    }
}

// The numbers of critical steps, by their dimensions.
fn counts_of(steps: &[MorseStep]) -> [u64; 12]
    ensures len { length result ≡ 12 }
    ensures value { (k : ℕ) → k < 12 → slice_index result k ≡ critical_count steps.now k }
{
    let mut counts = [0; 12];
    for step in steps {
        count(&mut counts, step);
    }
    counts
}

// Counts a critical step.
fn count(counts: &mut [u64; 12], step: &MorseStep)
    requires { (k : ℕ) → k < 12 → slice_index counts.old k < 2 ^ 64 - 1 }
    ensures { (k : ℕ) → k < 12 → slice_index counts.new k ≡ slice_index counts.old k + (if is_critical_of k step.now then 1 else 0) }
{
    let len = step.low.len();
    if step.is_critical() && len > 0 {
        counts[len - 1] += 1;
    }
}
