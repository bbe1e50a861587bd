ghost use Rattle.std.specs.Prelude.{◌≡◌, ◌<◌, ◌≤◌, ◌+◌, ◌^◌, ◌-◌, ◌++◌, cond, length, nat_lt, OnOk, IfOk};
ghost use Rattle.replay_report.specs.Report.{parts, part_text, is_accepted, checked_text, replay_text, accepted_count, refuses_part};

use crate::Report;
use crate::cutting::{part_len, part_start};
use crate::judging::{put_counted, put_part};
use simplex::{Memory, Text};
use std::alloc::Global;

/// The report on the bytes: each part of them is a certificate or is refused. The text is own.
#[tactic(auto, unfolding(crate::specs::Report::replay_text))]
pub fn replay_all(alloc: Global, bytes: &[u8]) -> Result<Report, Memory>
    ensures text { IfOk result (λ r. r.text ≡ replay_text bytes.now) }
    ensures parts { IfOk result (λ r. r.parts ≡ length (parts bytes.now)) }
    ensures accepted { IfOk result (λ r. r.accepted ≡ accepted_count bytes.now) }
    ensures refuses { IfOk result (λ r. nat_lt r.accepted r.parts ≡ refuses_part bytes.now) }
{
    let mut report = Report {
        text: Text::new(alloc),
        parts: 0,
        accepted: 0,
    };
    let mut rest = bytes;
    while let Some(start) = part_start(rest) {
        let from = &rest[start..];
        let len = part_len(from);
        add_part(alloc, &mut report, &from[..len])?;
        rest = &from[len..];
    }
    put_checked(&mut report.text, report.parts, report.accepted)?;
    Ok(report)
}

// Adds the line on a part, and counts the part.
fn add_part(alloc: Global, report: &mut Report, part: &[u8]) -> Result<(), Memory>
    requires room { report.old.parts < 2 ^ 64 - 1 }
    requires fewer { report.old.accepted ≤ report.old.parts }
    ensures text { OnOk result (report.new.text ≡ report.old.text ++ part_text part.now) }
    ensures parts { OnOk result (report.new.parts ≡ report.old.parts + 1) }
    ensures accepted { OnOk result (report.new.accepted ≡ report.old.accepted + cond (is_accepted part.now) 1 0) }
{
    let accepted = put_part(alloc, &mut report.text, part)?;
    report.parts += 1;
    if accepted {
        report.accepted += 1;
    }
    Ok(())
}

// Appends the last line.
fn put_checked(out: &mut Text, parts: u64, accepted: u64) -> Result<(), Memory>
    ensures { OnOk result (out.new ≡ out.old ++ checked_text parts accepted) }
{
    put_counted(out, b"checked ", parts)?;
    put_counted(out, b" accepted ", accepted)?;
    out.push(b'\n')
}
