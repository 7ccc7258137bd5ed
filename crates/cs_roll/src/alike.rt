//! What stands beside regions is compared, region by region.

ghost use Rattle.std.specs.Prelude.{◌≡◌, ◌↔◌, IsTrue};
ghost use Rattle.std.specs.Cmp.Lexicographic.{pointwise};
ghost use Rattle.cs_roll.specs.Same.{are_same_members, is_same_summary};
ghost use Rattle.cs_roll.specs.SameByRegion.{is_alike_pair};

use crate::{Roll, Summary};
use cs_base::RegionId;

/// What can be compared with another of its kind.
pub trait Alike {
    ghost use Rattle.std.specs.Prelude.{Bool};

    ghost is_alike: { Self → Self → Bool };

    /// Whether both are the same.
    fn is_alike(&self, other: &Self) -> bool
        ensures same { IsTrue result ↔ (self.now ≡ other.now) }
        ensures test { result ≡ is_alike self.now other.now };
}

impl Alike for Summary {
    ghost is_alike = { is_same_summary };

    fn is_alike(&self, other: &Self) -> bool {
        self.is_same(other)
    }
}

impl Alike for Roll {
    ghost is_alike = { are_same_members };

    fn is_alike(&self, other: &Self) -> bool {
        self.is_same(other)
    }
}

/// Whether the same stands beside the same regions.
pub fn are_alike<T: Alike>(pairs: &[(RegionId, T)], others: &[(RegionId, T)]) -> bool
    ensures same { IsTrue result ↔ (pairs.now ≡ others.now) }
    ensures test { result ≡ pointwise (is_alike_pair T.is_alike) pairs.now others.now }
{
    if pairs.len() != others.len() {
        return false;
    }
    for i in 0..pairs.len() {
        if !is_alike_pair(&pairs[i], &others[i]) {
            return false;
        }
    }
    true
}

// Whether the regions and what stands beside them are the same.
fn is_alike_pair<T: Alike>(pair: &(RegionId, T), other: &(RegionId, T)) -> bool
    ensures same { IsTrue result ↔ (pair.now ≡ other.now) }
    ensures test { result ≡ is_alike_pair T.is_alike pair.now other.now }
{
    pair.0 == other.0 && pair.1.is_alike(&other.1)
}
