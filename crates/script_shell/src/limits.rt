use facet_set::WEIGHT_LIMIT;
use shell_names::JOURNAL_LIMIT;

/// The limits of a shell. They are own.
#[derive(Clone, Copy, Debug, PartialEq, Eq)]
pub struct Limits {
    /// How many names are held.
    pub names: u64,
    /// The sum of the weights of the present complexes.
    pub weight: u64,
    /// The sum of the sizes of all changes in past and future.
    pub journal: u64,
}

impl Limits {
    /// The limits of the program, above which none may be.
    pub const STANDARD: Limits = Limits {
        names: 256,
        weight: WEIGHT_LIMIT,
        journal: JOURNAL_LIMIT,
    };
}
