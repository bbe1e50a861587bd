use flip_certificate::Certificate;

/// What is found of a complex, or of two.
#[derive(Debug, Drop)]
pub enum Verdict {
    /// Yes, by this certificate.
    Yes(Certificate),
    /// At least one walk made its whole budget and met no simplex boundary, and each other walk met one. `spent` is the sum of the
    /// budgets of those that met none.
    Undecided { spent: u64 },
    /// The walk on the link of this vertex made its whole budget, which is `spent`, and met no simplex boundary.
    UndecidedAt { vertex: u32, spent: u64 },
}
