// What the constructions make, where no condition refuses it.
ghost use Rattle.std.specs.Prelude.{◌≡◌, ◌⊎◌, Bool, List, [], ◌∷◌, ◌++◌, map, None, Some, IfOk, OnOk, IfErr};
ghost use Rattle.std.specs.List.{flat_map};
ghost use Rattle.simplex.specs.FirstFailing.{first_failing};
ghost use Rattle.simplex.specs.SimplexFault.{simplex_fault};
ghost use Rattle.constructions.specs.Gluing.{handle, handle_tests, sum_of, sum_tests};
ghost use Rattle.constructions.specs.declared.make_fault.MakeFault.{MakeFault};
ghost use Rattle.constructions.specs.declared.make_fault.MakeFault.TheVariants as fault;
ghost use Rattle.shell_names.specs.State.{Complex};
ghost use Rattle.script_shell.specs.Commands.{list_tests, make_tests, void_test};
ghost use Rattle.script_shell.specs.Stops.{StopsAt};

use crate::lists::labels_first;
use crate::parts::not_void;
use crate::stop::Stop;
use constructions::MakeFault;
use facet_set::Facets;
use simplex::Numbers;
use std::alloc::Global;

/// What a construction made, or the condition that its fault stands for.
pub fn constructed(made: Result<Facets, MakeFault>) -> Result<Facets, Stop>
    ensures passed { (ts : List (Bool × MakeFault)) → OnOk made (first_failing ts ≡ None) → OnOk result (first_failing (make_tests ts) ≡ None) }
    ensures complex { (c : Complex) → IfOk made (λ m. m ≡ c) → IfOk result (λ m. m ≡ c) }
    ensures refused { (ts : List (Bool × MakeFault)) → IfErr made (λ e. (e ≡ fault.Memory) ⊎ (first_failing ts ≡ Some e)) → IfErr result (λ stop. StopsAt stop (first_failing (make_tests ts))) }
{
    Ok(made?)
}

/// The sum of two complexes along the facets that the lists stand for.
pub fn sum(alloc: Global, x: &Facets, f: &Numbers, y: &Facets, g: &Numbers) -> Result<Facets, Stop>
    ensures passed { OnOk result (first_failing (flat_map list_tests (f.now ∷ g.now ∷ []) ++ (map void_test (x.now ∷ y.now ∷ []) ++ make_tests (sum_tests x.now f.now y.now g.now))) ≡ None) }
    ensures complex { IfOk result (λ c. c ≡ sum_of x.now f.now y.now g.now) }
    ensures refused { IfErr result (λ stop. StopsAt stop (first_failing (flat_map list_tests (f.now ∷ g.now ∷ []) ++ (map void_test (x.now ∷ y.now ∷ []) ++ make_tests (sum_tests x.now f.now y.now g.now))))) }
{
    let pair = labels_first(alloc, f, g)?;
    sum_along(alloc, x, pair.0.as_slice(), y, pair.1.as_slice())
}

// The same along lists of labels that are simplices, in any order.
fn sum_along(alloc: Global, x: &Facets, f: &[u32], y: &Facets, g: &[u32]) -> Result<Facets, Stop>
    requires f { simplex_fault f.now ≡ None }
    requires g { simplex_fault g.now ≡ None }
    ensures passed { OnOk result (first_failing (map void_test (x.now ∷ y.now ∷ []) ++ make_tests (sum_tests x.now f.now y.now g.now)) ≡ None) }
    ensures complex { IfOk result (λ c. c ≡ sum_of x.now f.now y.now g.now) }
    ensures refused { IfErr result (λ stop. StopsAt stop (first_failing (map void_test (x.now ∷ y.now ∷ []) ++ make_tests (sum_tests x.now f.now y.now g.now)))) }
{
    not_void(x)?;
    not_void(y)?;
    constructed(constructions::sum(alloc, x, f, y, g))
}

/// The complex with a handle between the facets that the lists stand for.
pub fn handle(alloc: Global, x: &Facets, f: &Numbers, g: &Numbers) -> Result<Facets, Stop>
    ensures passed { OnOk result (first_failing (flat_map list_tests (f.now ∷ g.now ∷ []) ++ void_test x.now ∷ make_tests (handle_tests x.now f.now g.now)) ≡ None) }
    ensures complex { IfOk result (λ c. c ≡ handle x.now f.now g.now) }
    ensures refused { IfErr result (λ stop. StopsAt stop (first_failing (flat_map list_tests (f.now ∷ g.now ∷ []) ++ void_test x.now ∷ make_tests (handle_tests x.now f.now g.now)))) }
{
    let pair = labels_first(alloc, f, g)?;
    handle_along(alloc, x, pair.0.as_slice(), pair.1.as_slice())
}

// The same between lists of labels that are simplices, in any order.
fn handle_along(alloc: Global, x: &Facets, f: &[u32], g: &[u32]) -> Result<Facets, Stop>
    requires f { simplex_fault f.now ≡ None }
    requires g { simplex_fault g.now ≡ None }
    ensures passed { OnOk result (first_failing (void_test x.now ∷ make_tests (handle_tests x.now f.now g.now)) ≡ None) }
    ensures complex { IfOk result (λ c. c ≡ handle x.now f.now g.now) }
    ensures refused { IfErr result (λ stop. StopsAt stop (first_failing (void_test x.now ∷ make_tests (handle_tests x.now f.now g.now)))) }
{
    not_void(x)?;
    constructed(constructions::handle(alloc, x, f, g))
}
