use simplex::Memory;

/// Why bytes are read as no certificate.
#[derive(Clone, Copy, Debug, PartialEq, Eq)]
pub enum CertFault {
    /// No certificate spells the bytes. The line, from 1, is the first that follows the longest front of complete lines with which
    /// some certificate's text begins.
    Form { line: u64 },
    /// Want of memory.
    Memory,
}

impl From<Memory> for CertFault {
    ghost use Rattle.std.specs.Prelude.{◌≡◌};
    ghost use Rattle.flip_certificate.specs.declared.cert_fault.CertFault.TheVariants as fault;

    ghost from_gives = { λ _ e. e ≡ fault.Memory };

    fn from(_: Memory) -> CertFault {
        CertFault::Memory
    }
}
