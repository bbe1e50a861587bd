ghost use Rattle.std.specs.Prelude.{◌≡◌, ◌≢◌, ◌++◌, decimal, OnOk, IfOk, IsTrue};
ghost use Rattle.flip_certificate.specs.Lines.{is_shaped};
ghost use Rattle.flip_certificate.specs.Reading.{reading};
ghost use Rattle.flip_certificate.specs.Valid.{is_valid, first_fault};
ghost use Rattle.cert_replay.specs.Faults.{replay_faults};
ghost use Rattle.replay_report.specs.Report.{accepted_text, fault_text, judged, part_text, read_text, refused_text, is_accepted};

use cert_replay::{ReplayFault, replay};
use flip_certificate::{CertFault, Certificate, Kind, read};
use plain_text::put_number;
use simplex::{Memory, Text};
use std::alloc::Global;

/// Appends the line on a part, and says whether the part spells a valid certificate.
pub fn put_part(alloc: Global, out: &mut Text, part: &[u8]) -> Result<bool, Memory>
    ensures text { OnOk result (out.new ≡ out.old ++ part_text part.now) }
    ensures accepted { IfOk result (λ accepted. accepted ≡ is_accepted part.now) }
{
    let accepted = put_words(alloc, out, part)?;
    out.push(b'\n')?;
    Ok(accepted)
}

// Appends the line without its line feed.
fn put_words(alloc: Global, out: &mut Text, part: &[u8]) -> Result<bool, Memory>
    ensures text { OnOk result (out.new ≡ out.old ++ read_text (reading part.now)) }
    ensures accepted { IfOk result (λ accepted. accepted ≡ is_accepted part.now) }
{
    match read(alloc, part) {
        Ok(c) => put_judged(alloc, out, &c),
        Err(CertFault::Form { line }) => {
            put_counted(out, b"refused form ", line)?;
            Ok(false)
        }
        Err(CertFault::Memory) => Err(Memory),
    }
}

// Appends the words on a certificate, and says whether it is valid.
fn put_judged(alloc: Global, out: &mut Text, c: &Certificate) -> Result<bool, Memory>
    requires { IsTrue (is_shaped c.now) }
    ensures text { OnOk result (out.new ≡ out.old ++ judged c.now (first_fault replay_faults c.now)) }
    ensures valid { IfOk result (λ valid. valid ≡ is_valid c.now) }
{
    match replay(alloc, c) {
        Ok(count) => {
            put_accepted(out, c.kind(), count)?;
            Ok(true)
        }
        Err(fault) => {
            put_refused(out, fault)?;
            Ok(false)
        }
    }
}

fn put_accepted(out: &mut Text, kind: Kind, count: u64) -> Result<(), Memory>
    ensures { OnOk result (out.new ≡ out.old ++ accepted_text kind count) }
{
    out.extend(b"accepted ")?;
    out.extend(kind.text())?;
    put_counted(out, b" ", count)
}

// Want of memory is passed on.
fn put_refused(out: &mut Text, fault: ReplayFault) -> Result<(), Memory>
    ensures text { OnOk result (out.new ≡ out.old ++ refused_text fault) }
    ensures cause { OnOk result (fault ≢ ReplayFault.Memory) }
{
    out.extend(b"refused ")?;
    put_fault(out, fault)
}

// Appends the words on a fault. Want of memory is passed on.
fn put_fault(out: &mut Text, fault: ReplayFault) -> Result<(), Memory>
    ensures cause { OnOk result (fault ≢ ReplayFault.Memory) }
    ensures text { OnOk result (out.new ≡ out.old ++ fault_text fault) }
{
    match fault {
        ReplayFault::Start => out.extend(b"start"),
        ReplayFault::Flip { k } => put_counted(out, b"flip ", k),
        ReplayFault::Map => out.extend(b"map"),
        ReplayFault::Links { at } => put_counted(out, b"links ", at),
        ReplayFault::End { vertex: 0 } => out.extend(b"end"),
        ReplayFault::End { vertex } => put_counted(out, b"end ", vertex as u64),
        ReplayFault::Memory => Err(Memory),
    }
}

/// Appends the words and the number behind them.
pub fn put_counted(out: &mut Text, words: &[u8], count: u64) -> Result<(), Memory>
    ensures { OnOk result (out.new ≡ out.old ++ words.now ++ decimal count) }
{
    out.extend(words)?;
    put_number(out, count as i128)
}
