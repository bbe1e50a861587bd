ghost use Rattle.face_vectors.specs.Laws.{EulerIsSignedSum, EulerByH, HSumsToTop};

/// The Euler characteristic is the sum of the numbers (-1)^k f_k.
pub fn euler_is_signed_sum()
    ensures { EulerIsSignedSum }
{}

/// The Euler characteristic is 1 - (-1)^(d+1) h_(d+1).
pub fn euler_by_h()
    ensures { EulerByH }
{}

/// The numbers h_0, .., h_(d+1) add up to f_d.
pub fn h_sums_to_top()
    ensures { HSumsToTop }
{}
