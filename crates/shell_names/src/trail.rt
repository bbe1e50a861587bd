ghost use Rattle.std.specs.Prelude.{◌≡◌};

use facet_set::Facets;
use simplex::Memory;
use std::alloc::Global;
use std::marker::Model;
use std::mem;

// A complex, and the size of the change that leads to it from its neighbour on the side of the present.
#[derive(Debug, Drop)]
pub struct Step {
    pub complex: Facets,
    pub size: u64,
}

// The past or the future of a name. Contracts see its steps from the present on; the last of `steps` is the one nearest to the present.
#[derive(Debug, Drop)]
pub struct Trail {
    steps: Vec<Step>,
    total: u64,
}

impl Model for Trail {
    ghost use Rattle.std.specs.Prelude.{◌≡◌, List, reverse};
    ghost use Rattle.shell_names.specs.declared.trail.Step.{Step};
    ghost use Rattle.shell_names.specs.Steps.{sizes};

    ghost Value = { List Step };

    ghost view = { λ t. reverse t.steps.items };

    ghost invariant = { λ t. t.total ≡ sizes (reverse t.steps.items) };
}

impl Trail {
    ghost use Rattle.std.specs.Prelude.{◌≡◌, ◌+◌, ◌<◌, ◌^◌, ℕ, [], ◌∷◌, length, OnOk, OnErr};
    ghost use Rattle.std.specs.Option.{option_copied};
    ghost use Rattle.shell_names.specs.Steps.{sizes, nearest, Moved};

    pub fn new(alloc: Global) -> Trail
        ensures { result ≡ [] }
    {
        Trail {
            steps: Vec::new(alloc),
            total: 0,
        }
    }

    pub fn len(&self) -> usize
        ensures { result ≡ length self.now }
    {
        self.steps.len()
    }

    // The sum of the sizes.
    pub fn total(&self) -> u64
        ensures { result ≡ sizes self.now }
    {
        self.total
    }

    // The complex nearest to the present.
    pub fn nearest(&self) -> Option<&Facets>
        ensures { option_copied result ≡ nearest self.now }
    {
        match self.steps.last() {
            Some(step) => Some(&step.complex),
            None => None,
        }
    }

    pub fn clear(&mut self)
        ensures { self.new ≡ [] }
    {
        self.steps.clear();
        self.total = 0;
    }

    // Puts `next` in place of the present complex, which becomes the nearest step. An `Err` changes nothing.
    pub fn advance(&mut self, present: &mut Facets, next: Facets, size: u64) -> Result<(), Memory>
        requires { sizes self.old + size < 2 ^ 64 }
        ensures steps { OnOk result (self.new ≡ record { complex = present.old; size = size } ∷ self.old) }
        ensures present { OnOk result (present.new ≡ next) }
        ensures err_steps { OnErr result (self.new ≡ self.old) }
        ensures err_present { OnErr result (present.new ≡ present.old) }
    {
        self.steps.reserve(1)?;
        let complex = mem::replace(present, next);
        self.total += size;
        // There is room for it.
        let _ = self.steps.push(Step { complex, size });
        Ok(())
    }

    // Puts the nearest complex in place of the present one, which becomes the nearest step on the other side. An `Err` changes nothing.
    pub fn retreat(&mut self, present: &mut Facets, other: &mut Trail) -> Result<(), Memory>
        requires some { 0 < length self.old }
        requires fits { sizes self.old + sizes other.old < 2 ^ 64 }
        ensures ok { OnOk result (Moved self.old present.old other.old self.new present.new other.new) }
        ensures err_steps { OnErr result (self.new ≡ self.old) }
        ensures err_present { OnErr result (present.new ≡ present.old) }
        ensures err_other { OnErr result (other.new ≡ other.old) }
    {
        other.steps.reserve(1)?;
        if let Some(Step { complex, size }) = self.steps.pop() {
            let complex = mem::replace(present, complex);
            self.total -= size;
            other.total += size;
            // There is room for it.
            let _ = other.steps.push(Step { complex, size });
        }
        Ok(())
    }
}
