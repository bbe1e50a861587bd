use simplex::Memory;

/// Why Betti numbers are not answered.
#[derive(Clone, Copy, Debug, PartialEq, Eq)]
pub enum BettiFault {
    /// There are more than 16,384 faces of dimension k, the least such. The limit is own.
    RankLimit { k: usize },
    /// Want of memory.
    Memory,
}

impl From<Memory> for BettiFault {
    ghost use Rattle.std.specs.Prelude.{◌≡◌};
    ghost use Rattle.betti_tables.specs.declared.betti_fault.BettiFault.TheVariants as fault;

    ghost from_gives = { λ _ e. e ≡ fault.Memory };

    fn from(_: Memory) -> BettiFault {
        BettiFault::Memory
    }
}
