use simplex::Memory;

/// Why a list of steps is no Morse list of a complex.
#[derive(Clone, Copy, Debug, PartialEq, Eq)]
pub enum MorseFault {
    /// The step of this number, counted from 1, is the first that is not possible where it stands.
    Step { at: usize },
    /// All steps are possible, and a nonempty face is left.
    Rest,
    /// Want of memory.
    Memory,
}

impl From<Memory> for MorseFault {
    ghost use Rattle.std.specs.Prelude.{◌≡◌};
    ghost use Rattle.morse_lists.specs.declared.morse_fault.MorseFault.TheVariants as fault;

    ghost from_gives = { λ _ e. e ≡ fault.Memory };

    fn from(_: Memory) -> MorseFault {
        MorseFault::Memory
    }
}
