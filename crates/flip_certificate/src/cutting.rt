// Bytes in two parts, at a byte between them.
ghost use Rattle.std.specs.Prelude.{◌≡◌, ◌∷◌, ◌<◌, ◌==◌, [], length, IfSome, MatchOption};
ghost use Rattle.std.specs.List.{position, slice_split};

/// What stands before the first such byte, and what stands behind it. There is nothing behind exactly where there is no such byte.
pub fn cut(bytes: &[u8], at: u8) -> (&[u8], Option<&[u8]>)
    ensures parts { MatchOption result.1 (slice_split (λ c. c == at) bytes.now ≡ result.0.now ∷ []) (λ rest. slice_split (λ c. c == at) bytes.now ≡ result.0.now ∷ slice_split (λ c. c == at) rest.now) }
    ensures shorter { IfSome result.1 (λ rest. length rest.now < length bytes.now) }
{
    match first_place(bytes, at) {
        Some(i) => (&bytes[..i], Some(&bytes[i + 1..])),
        None => (bytes, None),
    }
}

// The place of the first such byte.
fn first_place(bytes: &[u8], at: u8) -> Option<usize>
    ensures value { result ≡ position (λ c. c == at) bytes.now }
    ensures within { IfSome result (λ i. i < length bytes.now) }
{
    bytes.iter().position(|byte| *byte == at)
}
