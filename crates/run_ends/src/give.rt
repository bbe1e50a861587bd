ghost use Rattle.std.specs.Prelude.{◌≡◌, ◌≤◌, ◌<◌, ◌+◌, ◌-◌, ◌++◌, [], length, take, drop, min};

/// Copies the next bytes, at most a piece, to the front of the buffer, and says how many.
pub fn give(bytes: &[u8], at: usize, piece: usize, buf: &mut [u8]) -> usize
    requires within { at ≤ length bytes.now }
    requires some { 1 ≤ piece }
    ensures count { result ≡ min (min (length buf.new) piece) (length bytes.now - at) }
    ensures within { at + result ≤ length bytes.now }
    ensures given { drop at bytes.now ≡ take result buf.new ++ drop (at + result) bytes.now }
    ensures end { result ≡ 0 → 0 < length buf.new → drop (at + result) bytes.now ≡ [] }
{
    let count = buf.len().min(piece).min(bytes.len() - at);
    buf[..count].copy_from_slice(&bytes[at..at + count]);
    count
}
