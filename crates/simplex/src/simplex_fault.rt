ghost use Rattle.std.specs.Prelude.{◌≡◌, []};
ghost use Rattle.simplex.specs.FirstFailing.{first_failing};
ghost use Rattle.simplex.specs.Simplex.{has, is_label};
ghost use Rattle.simplex.specs.SimplexFault.{place_tests};

use crate::LABEL_LIMIT;

/// Why a list of numbers is no list of the labels of a simplex. Places count from 0. The limits are own.
#[derive(Clone, Copy, Debug, PartialEq, Eq)]
pub enum SimplexFault {
    /// There are more than 12.
    Long { len: usize },
    /// The number at the place is not in 1..1,000,000.
    Label { at: usize },
    /// The label stands at an earlier place too.
    Twice { label: u32 },
}

fn is_label(label: u32) -> bool
    ensures { result ≡ is_label label }
{
    1 <= label && label <= LABEL_LIMIT
}

fn is_among(labels: &[u32], label: u32) -> bool
    ensures { result ≡ has labels.now label }
{
    labels.contains(&label)
}

/// The fault at the least place that has one.
pub fn first_place_fault(labels: &[u32]) -> Option<SimplexFault>
    ensures { result ≡ first_failing (place_tests 0 [] labels.now) }
{
    for (at, label) in labels.iter().enumerate() {
        if !is_label(*label) {
            return Some(SimplexFault::Label { at });
        }
        if is_among(&labels[..at], *label) {
            return Some(SimplexFault::Twice { label: *label });
        }
    }
    None
}
