ghost use Rattle.std.specs.Prelude.{◌≡◌, ◌<◌, ◌≤◌, ◌+◌, ◌∷◌, [], length, take, drop, position, true, IfSome, IfNone, ◌==◌};
ghost use Rattle.replay_report.specs.Report.{lines_of, begins_part, ends_part, split_parts, parts, first_line};

/// Where the first part of the bytes begins.
pub fn part_start(bytes: &[u8]) -> Option<usize>
    ensures within { IfSome result (λ at. at < length bytes.now) }
    ensures begins { IfSome result (λ at. begins_part (first_line (drop at bytes.now)) ≡ true) }
    ensures parts { IfSome result (λ at. parts bytes.now ≡ parts (drop at bytes.now)) }
    ensures none { IfNone result (parts bytes.now ≡ []) }
{
    let mut at = 0;
    while at < bytes.len() {
        let rest = &bytes[at..];
        let len = line_len(rest);
        if begins_part(&rest[..len]) {
            return Some(at);
        }
        at += len;
    }
    None
}

/// The length of the part with which the bytes begin.
pub fn part_len(bytes: &[u8]) -> usize
    requires some { 0 < length bytes.now }
    requires begins { begins_part (first_line bytes.now) ≡ true }
    ensures some { 0 < result }
    ensures within { result ≤ length bytes.now }
    ensures parts { parts bytes.now ≡ take result bytes.now ∷ parts (drop result bytes.now) }
{
    let first = line_len(bytes);
    first + tail_len(&bytes[first..])
}

// The length of what belongs to a part that began before the bytes.
fn tail_len(bytes: &[u8]) -> usize
    ensures within { result ≤ length bytes.now }
    ensures split { split_parts (lines_of bytes.now) ≡ (take result bytes.now, parts (drop result bytes.now)) }
{
    let mut at = 0;
    while at < bytes.len() {
        let rest = &bytes[at..];
        let len = line_len(rest);
        let line = &rest[..len];
        if begins_part(line) {
            return at;
        }
        at += len;
        if ends_part(line) {
            return at;
        }
    }
    at
}

/// The length of the first line, with its line feed. There is one, since there are bytes.
pub fn line_len(bytes: &[u8]) -> usize
    requires { 0 < length bytes.now }
    ensures some { 0 < result }
    ensures within { result ≤ length bytes.now }
    ensures line { lines_of bytes.now ≡ take result bytes.now ∷ lines_of (drop result bytes.now) }
{
    match feed_at(bytes) {
        Some(at) => at + 1,
        None => bytes.len(),
    }
}

// The place of the first line feed.
fn feed_at(bytes: &[u8]) -> Option<usize>
    ensures { result ≡ position (λ c. c == 10) bytes.now }
{
    bytes.iter().position(|byte| *byte == b'\n')
}

fn begins_part(line: &[u8]) -> bool
    ensures { result ≡ begins_part line.now }
{
    line.starts_with(b"certificate ")
}

fn ends_part(line: &[u8]) -> bool
    ensures { result ≡ ends_part line.now }
{
    matches!(line, b"end\n" | b"end")
}
