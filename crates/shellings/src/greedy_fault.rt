use simplex::Memory;

/// Why there is no greedy order.
#[derive(Clone, Copy, Debug, PartialEq, Eq)]
pub enum GreedyFault {
    /// The facets have different numbers of labels, or there is none.
    NotPure,
    /// Want of memory.
    Memory,
}

impl From<Memory> for GreedyFault {
    ghost use Rattle.std.specs.Prelude.{◌≡◌};
    ghost use Rattle.shellings.specs.declared.greedy_fault.GreedyFault.TheVariants as fault;

    ghost from_gives = { λ _ e. e ≡ fault.Memory };

    fn from(_: Memory) -> GreedyFault {
        GreedyFault::Memory
    }
}
