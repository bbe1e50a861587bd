// What each verdict asks of a complex before a walk.
ghost use Rattle.std.specs.Prelude.{◌≡◌, ◌==◌, [], ◌∷◌, length, IsTrue, IfOk};
ghost use Rattle.simplex.specs.FirstFailing.{first_failing};
ghost use Rattle.flip_certificate.specs.Lines.{is_start};
ghost use Rattle.verdicts.specs.Tests.{ready_tests, budget_tests};

use crate::VerdictFault;
use annealer::is_in_budget;
use facet_set::Facets;
use simplex::Memory;

// The first fault of a complex that is to have so many labels a facet at least.
pub fn ready_fault(c: &Facets, size: usize) -> Option<VerdictFault>
    ensures { result ≡ first_failing (ready_tests size (c.now ∷ [])) }
{
    if is_void(c) {
        return Some(VerdictFault::Void);
    }
    if !c.is_pure() {
        return Some(VerdictFault::NotPure);
    }
    if c.size() < size {
        return Some(VerdictFault::DimRange);
    }
    None
}

// The fault of a walk of so many flips that may pass the limits.
pub fn budget_fault(c: &Facets, budget: u64) -> Result<Option<VerdictFault>, Memory>
    ensures { IfOk result (λ o. o ≡ first_failing (budget_tests (c.now ∷ []) budget)) }
{
    if is_in_budget(c, budget)? {
        Ok(None)
    } else {
        Ok(Some(VerdictFault::Budget))
    }
}

pub fn is_void(c: &Facets) -> bool
    ensures { result ≡ (length c.now == 0) }
{
    c.as_slice().is_empty()
}

// What the type says of a complex.
pub fn are_facets(c: &Facets)
    ensures { IsTrue (is_start c.now) }
{
    let _facets = c.as_slice();
}
