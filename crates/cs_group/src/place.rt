//! Where a point has its place: the region with the nearest centroid.
ghost use Rattle.std.specs.Prelude.{◌≡◌};
ghost use Rattle.cs_group.specs.Place.{nearest_region, place_of};

use cs_base::{Point, RegionId, Sum};
use cs_near::{RegionSum, nearest, one_point};

// The nearest of some regions, and of several the least, where there is one.
pub(crate) fn nearest_region(from: &Sum, sums: &[RegionSum]) -> Option<RegionId>
    ensures { result ≡ nearest_region from.now sums.now }
{
    nearest(from, sums).map(|near| near.region)
}

// The region where the point has its place.
pub(crate) fn place_of(sums: &[RegionSum], at: Point) -> RegionId
    ensures { result ≡ place_of sums.now at }
{
    let first = RegionId::new(0).unwrap();
    nearest_region(&one_point(at), sums).unwrap_or(first)
}
