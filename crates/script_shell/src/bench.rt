//! The run that three numbers make: a stacked sphere is built and carried back to the boundary of a simplex.
ghost use Rattle.std.specs.Prelude.{◌≡◌, ◌<◌, ◌≤◌, ◌+◌, ◌*◌, ◌^◌, ◌++◌, [], if◌then◌else◌, IfOk, OnOk};
ghost use Rattle.replay_report.specs.Report.{first_line};
ghost use Rattle.script_shell.specs.Bench.{bench_line, bench_script, bench_text, is_reply_line, is_within, most_facets, reply_lines, three_numbers, two_numbers};
ghost use Rattle.script_shell.specs.InVain.{ScriptInVain};
ghost use Rattle.script_shell.specs.Replays.{Replays};

use crate::transcript::transcript;
use facet_set::WEIGHT_LIMIT;
use replay_report::{line_len, replay_all};
use script_text::put_number;
use simplex::{LEN_LIMIT, Memory, Text};
use std::alloc::Global;

const BENCH_LIMIT: u64 = 100_000;

/// Whether the run keeps within the limits of the shell: a stacked sphere of dimension d after n flips has n*d + d + 2 facets, and
/// a walk of n flips from it adds at most n*d. The limits are own.
pub fn is_within(d: u64, n: u64) -> bool
    ensures { result ≡ is_within d n }
{
    1 <= d && d < LEN_LIMIT as u64 && n <= BENCH_LIMIT && weight(d, n) <= WEIGHT_LIMIT
}

// The greatest weight of a complex in the run.
fn weight(d: u64, n: u64) -> u64
    requires dim { d < 12 }
    requires flips { n ≤ 100000 }
    ensures { result ≡ most_facets d n * 2 ^ (d + 1) }
{
    most_facets(d, n) << (d + 1)
}

fn most_facets(d: u64, n: u64) -> u64
    requires dim { d < 12 }
    requires flips { n ≤ 100000 }
    ensures value { result ≡ most_facets d n }
    ensures bound { result < 2 ^ 22 }
{
    d + 2 + 2 * d * n
}

/// What the run writes: its numbers, the replies and the verdict on the certificate. The text is own.
#[tactic(auto, unfolding(crate::specs::Bench::bench_text))]
pub fn bench(alloc: Global, d: u64, n: u64, seed: u64) -> Result<Text, Memory>
    ensures text { IfOk result (λ text. text ≡ bench_text d n seed) }
    ensures replays { OnOk result (Replays (bench_script d n seed)) }
    ensures in_vain { OnOk result (ScriptInVain (bench_script d n seed)) }
{
    let script = bench_script(alloc, d, n, seed)?;
    let answers = transcript(alloc, script.as_slice())?;
    let report = replay_all(alloc, answers.text.as_slice())?;
    let mut out = Text::new(alloc);
    put_line(&mut out, d, n, seed)?;
    put_reply_lines(&mut out, answers.text.as_slice())?;
    out.extend(first_line(report.text.as_slice()))?;
    Ok(out)
}

fn bench_script(alloc: Global, d: u64, n: u64, seed: u64) -> Result<Text, Memory>
    ensures { IfOk result (λ script. script ≡ bench_script d n seed) }
{
    let mut script = Text::new(alloc);
    script.extend(b"X := stacked ")?;
    put_three(&mut script, d, n, seed)?;
    script.extend(b"; fvec X; sphere X ")?;
    put_two(&mut script, n, seed)?;
    script.extend(b";")?;
    Ok(script)
}

// Appends the first line.
fn put_line(out: &mut Text, d: u64, n: u64, seed: u64) -> Result<(), Memory>
    ensures { OnOk result (out.new ≡ out.old ++ bench_line d n seed) }
{
    out.extend(b"bench ")?;
    put_three(out, d, n, seed)?;
    out.push(b'\n')
}

fn put_three(out: &mut Text, d: u64, n: u64, seed: u64) -> Result<(), Memory>
    ensures { OnOk result (out.new ≡ out.old ++ three_numbers d n seed) }
{
    put_number(out, d as i128)?;
    out.push(b' ')?;
    put_two(out, n, seed)
}

fn put_two(out: &mut Text, n: u64, seed: u64) -> Result<(), Memory>
    ensures { OnOk result (out.new ≡ out.old ++ two_numbers n seed) }
{
    put_number(out, n as i128)?;
    out.push(b' ')?;
    put_number(out, seed as i128)
}

// Appends the lines that begin with `[`.
fn put_reply_lines(out: &mut Text, text: &[u8]) -> Result<(), Memory>
    ensures { OnOk result (out.new ≡ out.old ++ reply_lines text.now) }
{
    let mut rest = text;
    while !rest.is_empty() {
        let (line, behind) = rest.split_at(line_len(rest));
        put_reply_line(out, line)?;
        rest = behind;
    }
    Ok(())
}

fn put_reply_line(out: &mut Text, line: &[u8]) -> Result<(), Memory>
    ensures { OnOk result (out.new ≡ out.old ++ (if is_reply_line line.now then line.now else [])) }
{
    if !line.starts_with(b"[") {
        return Ok(());
    }
    out.extend(line)
}

fn first_line(bytes: &[u8]) -> &[u8]
    ensures { result.now ≡ first_line bytes.now }
{
    if bytes.is_empty() {
        return bytes;
    }
    &bytes[..line_len(bytes)]
}
