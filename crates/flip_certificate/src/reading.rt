ghost use Rattle.std.specs.Prelude.{◌≡◌, ◌⊎◌, ℕ, Ok, Err, IfOk, IfErr};
ghost use Rattle.flip_certificate.specs.Lines.{Spells, IsFormLine};
ghost use Rattle.flip_certificate.specs.Reading.{finished, reading, stepped};
ghost use Rattle.flip_certificate.specs.declared.certificate.Certificate.{Certificate};
ghost use Rattle.flip_certificate.specs.declared.cert_fault.CertFault.TheVariants as fault;

use crate::cutting::cut;
use crate::draft::Draft;
use crate::line_reading::Buffers;
use crate::{CertFault, Certificate};
use simplex::Memory;
use std::alloc::Global;

/// The certificate whose text the bytes are, or the line at which they are none. The time is linear in the bytes, but for the sorting of
/// facets, and beside the certificate it holds its text once more. The spelling is own.
pub fn read(alloc: Global, bytes: &[u8]) -> Result<Certificate, CertFault>
    ensures value { IfOk result (λ c. reading bytes.now ≡ Ok c) }
    ensures spelled { IfOk result (λ c. Spells c bytes.now) }
    ensures faults { IfErr result (λ e. (e ≡ fault.Memory) ⊎ ((line : ℕ) × (e ≡ fault.Form line) × (reading bytes.now ≡ Err line))) }
    ensures form { IfErr result (λ e. (line : ℕ) → e ≡ fault.Form line → IsFormLine bytes.now line) }
    ensures no_certificate { IfErr result (λ e. (e ≡ fault.Memory) ⊎ ((c : Certificate) → Spells c bytes.now → ⊥)) }
{
    read_lines(alloc, bytes)
}

// Line by line, up to the first that does not fit.
fn read_lines(alloc: Global, bytes: &[u8]) -> Result<Certificate, CertFault>
    ensures value { IfOk result (λ c. reading bytes.now ≡ Ok c) }
    ensures faults { IfErr result (λ e. (e ≡ fault.Memory) ⊎ ((line : ℕ) × (e ≡ fault.Form line) × (reading bytes.now ≡ Err line))) }
{
    let mut buffers = Buffers::new(alloc);
    let mut draft = Draft::Begun;
    let mut rest = bytes;
    let mut number: u64 = 1;
    'lines: loop {
        let (line, behind) = cut(rest, b'\n');
        let Some(behind) = behind else {
            return finished(number, draft, line);
        };
        draft = match stepped(alloc, &mut buffers, draft, line)? {
            Some(draft) => draft,
            None => return Err(CertFault::Form { line: number }),
        };
        rest = behind;
        number += 1;
    }
}

// The draft with the line that the bytes are. None exactly where no certificate goes on so.
fn stepped(
    alloc: Global,
    buffers: &mut Buffers,
    draft: Draft,
    bytes: &[u8],
) -> Result<Option<Draft>, Memory>
    ensures { IfOk result (λ r. r ≡ stepped draft bytes.now) }
{
    match buffers.line_of(alloc, bytes)? {
        Some(line) => draft.next(alloc, line),
        None => Ok(None),
    }
}

// The certificate, where the lines are at its end and there is nothing behind the last line feed.
fn finished(number: u64, draft: Draft, bytes: &[u8]) -> Result<Certificate, CertFault>
    ensures value { IfOk result (λ c. finished number draft bytes.now ≡ Ok c) }
    ensures fault { IfErr result (λ e. (e ≡ fault.Form number) × (finished number draft bytes.now ≡ Err number)) }
{
    match draft {
        Draft::Done(certificate) if bytes.is_empty() => Ok(certificate),
        _ => Err(CertFault::Form { line: number }),
    }
}
