// Parts of a complex, where no condition refuses them.
ghost use Rattle.std.specs.Prelude.{◌≡◌, [], ◌∷◌, ◌++◌, None, IfOk, OnOk, IfErr};
ghost use Rattle.std.specs.List.{flat_map};
ghost use Rattle.simplex.specs.FirstFailing.{first_failing};
ghost use Rattle.simplex.specs.SimplexFault.{set};
ghost use Rattle.facet_set.specs.Parts.{boundary, deletion, link, star};
ghost use Rattle.script_shell.specs.Commands.{face_test, list_tests, pure_tests, void_test};
ghost use Rattle.script_shell.specs.Stops.{StopsAt};

use crate::lists::simplex_first;
use crate::stop::Stop;
use facet_set::Facets;
use script_text::Condition;
use simplex::Numbers;
use std::alloc::Global;

/// The link of the face that the list stands for.
pub fn link(alloc: Global, complex: &Facets, face: &Numbers) -> Result<Facets, Stop>
    ensures passed { OnOk result (first_failing (flat_map list_tests (face.now ∷ []) ++ face_test complex.now face.now ∷ []) ≡ None) }
    ensures complex { IfOk result (λ c. c ≡ link complex.now (set face.now)) }
    ensures refused { IfErr result (λ stop. StopsAt stop (first_failing (flat_map list_tests (face.now ∷ []) ++ face_test complex.now face.now ∷ []))) }
{
    let s = simplex_first(alloc, face)?;
    Ok(local_parts::link(alloc, complex, &s)?)
}

/// The star of the face that the list stands for.
pub fn star(alloc: Global, complex: &Facets, face: &Numbers) -> Result<Facets, Stop>
    ensures passed { OnOk result (first_failing (flat_map list_tests (face.now ∷ []) ++ face_test complex.now face.now ∷ []) ≡ None) }
    ensures complex { IfOk result (λ c. c ≡ star complex.now (set face.now)) }
    ensures refused { IfErr result (λ stop. StopsAt stop (first_failing (flat_map list_tests (face.now ∷ []) ++ face_test complex.now face.now ∷ []))) }
{
    let s = simplex_first(alloc, face)?;
    Ok(local_parts::star(alloc, complex, &s)?)
}

/// The complex without the face that the list stands for, and without the faces that contain it.
pub fn deletion(alloc: Global, complex: &Facets, face: &Numbers) -> Result<Facets, Stop>
    ensures passed { OnOk result (first_failing (flat_map list_tests (face.now ∷ []) ++ face_test complex.now face.now ∷ []) ≡ None) }
    ensures complex { IfOk result (λ c. c ≡ deletion complex.now (set face.now)) }
    ensures refused { IfErr result (λ stop. StopsAt stop (first_failing (flat_map list_tests (face.now ∷ []) ++ face_test complex.now face.now ∷ []))) }
{
    let s = simplex_first(alloc, face)?;
    Ok(local_parts::deletion(alloc, complex, &s)?)
}

/// The boundary of a pure complex that has a facet.
pub fn boundary(alloc: Global, complex: &Facets) -> Result<Facets, Stop>
    ensures passed { OnOk result (first_failing (pure_tests (complex.now ∷ [])) ≡ None) }
    ensures complex { IfOk result (λ c. c ≡ boundary complex.now) }
    ensures refused { IfErr result (λ stop. StopsAt stop (first_failing (pure_tests (complex.now ∷ [])))) }
{
    not_void(complex)?;
    Ok(local_parts::boundary(alloc, complex)?)
}

/// Whether there is a facet.
pub fn not_void(complex: &Facets) -> Result<(), Stop>
    ensures passed { OnOk result (first_failing (void_test complex.now ∷ []) ≡ None) }
    ensures refused { IfErr result (λ stop. StopsAt stop (first_failing (void_test complex.now ∷ []))) }
{
    if complex.as_slice().is_empty() {
        return Err(Stop::Refused(Condition::Void));
    }
    Ok(())
}
