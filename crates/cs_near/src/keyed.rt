//! What has a key and a sum of points.
ghost use Rattle.std.specs.Prelude.{◌≡◌};
ghost use Rattle.cs_base.specs.Ranges.{IsRegion};
ghost use Rattle.cs_base.specs.Total.{Total, IsTotal};
ghost use Rattle.cs_near.specs.Sums.{one_point};

use crate::one_point;
use cs_base::{Keyed, Member, RegionId, Sum};

/// A key with some points, of which it has the sum.
pub trait HasSum: Keyed {
    ghost sum_of: { Self → Total };

    fn sum(&self) -> Sum
        ensures { result ≡ sum_of self.now };
}

/// A region with the sum of its members' points.
#[derive(Clone, Copy, Debug, PartialEq, Eq)]
pub struct RegionSum {
    pub region: RegionId,
    pub sum: Sum,
}

impl Keyed for RegionSum {
    ghost key_of = { λ r. r.region };

    ghost IsAllowed = { λ r. IsRegion r.region × IsTotal r.sum };

    fn key(&self) -> u32 {
        let _sums = self.sum.sums();
        self.region.get()
    }
}

impl HasSum for RegionSum {
    ghost sum_of = { λ r. r.sum };

    fn sum(&self) -> Sum {
        self.sum
    }
}

impl HasSum for Member {
    ghost sum_of = { λ m. one_point m.at };

    fn sum(&self) -> Sum {
        one_point(self.at)
    }
}
