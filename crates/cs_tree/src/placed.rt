//! What has a key and a single point.
ghost use Rattle.std.specs.Prelude.{◌≡◌, refl};
ghost use Rattle.cs_near.specs.Sums.{one_point};

use cs_base::{HasPoint, Member};
use cs_near::HasSum;

/// A key with a point, whose sum is that of this point alone.
pub(crate) trait Placed: HasSum + HasPoint {
    ghost is_single: { Self.sum_of ≡ (λ t. one_point (Self.point_of t)) };
}

impl Placed for Member {
    ghost is_single = { refl };
}
