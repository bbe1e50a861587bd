/// The greatest sum of the sizes of all changes between neighbours in past, present and future. The limit is own.
pub const JOURNAL_LIMIT: u64 = 4_194_304;
