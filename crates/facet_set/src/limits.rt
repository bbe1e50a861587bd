/// The greatest weight of what is held: of all complexes with names together, and of a complex on a walk. The weight of a
/// complex is the number of its facets times 2^(dim+1). The limit is own.
pub const WEIGHT_LIMIT: u64 = 8_388_608;
