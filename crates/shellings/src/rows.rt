// Rows of counts.
ghost use Rattle.std.specs.Prelude.{◌≡◌, ◌<◌, ◌≤◌, ◌-◌, ◌^◌, pos, ◌+ℤ◌, ◌<ℤ◌, ◌≤ℤ◌, slice_set, slice_index_or, replicate};
ghost use Rattle.face_vectors.specs.Row.{entries};

use face_vectors::Row;

/// The row of so many zeros.
pub fn zeros(len: usize) -> Row
    requires { len ≤ 13 }
    ensures value { entries result ≡ replicate len (pos 0) }
    ensures len { result.len ≡ len }
{
    Row { len, at: [0; 13] }
}

/// Adds one at the place.
pub fn raise(row: &mut Row, k: usize)
    requires place { k < row.old.len }
    requires sign { pos 0 ≤ℤ slice_index_or (entries row.old) k (pos 0) }
    requires room { slice_index_or (entries row.old) k (pos 0) <ℤ pos (2 ^ 63 - 1) }
    ensures value { entries row.new ≡ slice_set (entries row.old) k (slice_index_or (entries row.old) k (pos 0) +ℤ pos 1) }
    ensures len { row.new.len ≡ row.old.len }
{
    row.at[k] += 1;
}
