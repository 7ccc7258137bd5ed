ghost use Rattle.cs_near.specs.Sums.{one_point};

use crate::placed::Placed;
use cs_base::{HasPoint, Keyed, Point, RegionId, Sum};
use cs_near::{HasSum, one_point};

/// A region, at the point of the member that stands for it.
#[derive(Clone, Copy, Debug, PartialEq, Eq)]
pub(crate) struct RegionPoint {
    pub region: RegionId,
    pub at: Point,
}

impl Keyed for RegionPoint {
    ghost use Rattle.cs_base.specs.Ranges.{IsRegion};

    ghost key_of = { λ r. r.region };

    ghost IsAllowed = { λ r. IsRegion r.region };

    fn key(&self) -> u32 {
        self.region.get()
    }
}

impl HasPoint for RegionPoint {
    ghost point_of = { λ r. r.at };

    fn point(&self) -> Point {
        self.at
    }
}

impl HasSum for RegionPoint {
    ghost sum_of = { λ r. one_point r.at };

    fn sum(&self) -> Sum {
        one_point(self.at)
    }
}

impl Placed for RegionPoint {
    ghost use Rattle.std.specs.Prelude.{refl};

    ghost is_single = { refl };
}
