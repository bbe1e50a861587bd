// Whether a complex is pure, which no condition refuses then.
ghost use Rattle.std.specs.Prelude.{◌≡◌, [], ◌∷◌, None, OnOk, IfErr, IsTrue};
ghost use Rattle.simplex.specs.FirstFailing.{first_failing};
ghost use Rattle.facet_set.specs.Numbers.{is_pure};
ghost use Rattle.script_shell.specs.Commands.{pure_tests};
ghost use Rattle.script_shell.specs.Stops.{StopsAt};

use crate::parts::not_void;
use crate::stop::Stop;
use facet_set::Facets;
use script_text::Condition;

/// Whether there is a facet, and all facets have the same number of labels.
pub fn pure(complex: &Facets) -> Result<(), Stop>
    ensures passed { OnOk result (first_failing (pure_tests (complex.now ∷ [])) ≡ None) }
    ensures pure { OnOk result (IsTrue (is_pure complex.now)) }
    ensures refused { IfErr result (λ stop. StopsAt stop (first_failing (pure_tests (complex.now ∷ [])))) }
{
    not_void(complex)?;
    if !complex.is_pure() {
        return Err(Stop::Refused(Condition::NotPure));
    }
    Ok(())
}
