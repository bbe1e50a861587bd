/// Why a list of simplices is no shelling of a complex, in the order of refusal.
#[derive(Clone, Copy, Debug, PartialEq, Eq)]
pub enum ShellFault {
    /// The facets have different numbers of labels, or there is none.
    NotPure,
    /// The place, from 1, is the first that is not good; after the last place it is the first that is missing.
    Bad { at: usize },
}
