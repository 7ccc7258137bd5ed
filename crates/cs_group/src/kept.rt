//! The kept sums: each region's sum, which goes up and down with its members.
ghost use Rattle.std.specs.Prelude.{◌≡◌, ◌*◌, ◌<◌, ◌+ℤ◌, ◌-ℤ◌, map, IfOk, IfSome};
ghost use Rattle.cs_base.specs.Ascending.{at_key};
ghost use Rattle.cs_base.specs.Axes.{on_axis, IsNear};
ghost use Rattle.cs_base.specs.Limits.{farthest, most_summed};
ghost use Rattle.cs_base.specs.Total.{IsTotal};
ghost use Rattle.cs_group.specs.Table.{region_kept, with_point, without_point, total_with, sums_with, sums_less};

use cs_base::{Axis, Point, RegionId, Sum};
use cs_near::{RegionSum, one_point};
use cs_shared::{Ranked, Shared};
use std::alloc::AllocError;

/// A region's sum, as it is kept.
#[derive(Clone, Copy, Debug, PartialEq, Eq)]
pub struct KeptSum {
    pub total: RegionSum,
}

/// Kept sums are ranked by region.
impl Ranked for KeptSum {
    ghost rank_of = { λ kept. kept.total.region };

    fn rank(&self) -> u64 {
        u64::from(self.total.region.get())
    }
}

// The sum on an axis, which fits far into its type.
fn sum_on(sum: Sum, axis: Axis) -> i64
    ensures value { result ≡ on_axis axis sum.sums }
    ensures near { IsNear (farthest * most_summed) result }
{
    let [x, y, z] = sum.sums();
    match axis {
        Axis::X => x,
        Axis::Y => y,
        Axis::Z => z,
    }
}

// The sum on an axis with one more point.
fn added(sum: Sum, at: Point, axis: Axis) -> i64
    ensures { result ≡ on_axis axis sum.sums +ℤ on_axis axis at }
{
    sum_on(sum, axis) + i64::from(at.axis(axis))
}

// The sum on an axis with one point less.
fn taken(sum: Sum, at: Point, axis: Axis) -> i64
    ensures { result ≡ on_axis axis sum.sums -ℤ on_axis axis at }
{
    sum_on(sum, axis) - i64::from(at.axis(axis))
}

// The sum with one more point.
fn plus(sum: Sum, at: Point) -> Sum
    requires { IsTotal (with_point sum at) }
    ensures { result ≡ with_point sum at }
{
    let x = added(sum, at, Axis::X);
    let y = added(sum, at, Axis::Y);
    let z = added(sum, at, Axis::Z);
    Sum::new(sum.count() + 1, [x, y, z]).unwrap()
}

// The sum with one point less.
fn minus(sum: Sum, at: Point) -> Sum
    requires { IsTotal (without_point sum at) }
    ensures { result ≡ without_point sum at }
{
    let x = taken(sum, at, Axis::X);
    let y = taken(sum, at, Axis::Y);
    let z = taken(sum, at, Axis::Z);
    Sum::new(sum.count() - 1, [x, y, z]).unwrap()
}

// The sum of a region with one more point.
fn sum_with(sums: &Shared<KeptSum>, region: RegionId, at: Point) -> Sum
    requires { IfSome (at_key region_kept region sums.now) (λ kept. IsTotal (with_point kept.total.sum at)) }
    ensures { result ≡ total_with at (at_key region_kept region sums.now) }
{
    match sums.get(u64::from(region.get())) {
        None => one_point(at),
        Some(kept) => plus(kept.total.sum, at),
    }
}

// The sums after a point came to a region.
pub(crate) fn sums_with(
    sums: &Shared<KeptSum>,
    region: RegionId,
    at: Point,
) -> Result<Shared<KeptSum>, AllocError>
    requires { IfSome (at_key region_kept region sums.now) (λ kept. IsTotal (with_point kept.total.sum at)) }
    ensures { IfOk result (λ after. after ≡ sums_with region at sums.now) }
{
    let sum = sum_with(sums, region, at);
    sums.with(KeptSum {
        total: RegionSum { region, sum },
    })
}

// The sums after a point went from a region, which has no sum where it was the last.
pub(crate) fn sums_less(
    sums: &Shared<KeptSum>,
    region: RegionId,
    at: Point,
) -> Result<Shared<KeptSum>, AllocError>
    requires { IfSome (at_key region_kept region sums.now)
        (λ kept. 1 < kept.total.sum.count → IsTotal (without_point kept.total.sum at)) }
    ensures { IfOk result (λ after. after ≡ sums_less region at sums.now) }
{
    let rank = u64::from(region.get());
    let Some(kept) = sums.get(rank) else {
        return sums.copy();
    };
    if kept.total.sum.count() == 1 {
        return sums.without(rank);
    }
    let sum = minus(kept.total.sum, at);
    sums.with(KeptSum {
        total: RegionSum { region, sum },
    })
}

// The sums themselves, in order of region.
pub(crate) fn totals_of(sums: &Shared<KeptSum>) -> Result<Vec<RegionSum>, AllocError>
    ensures { IfOk result (λ totals. totals.items ≡ map (λ kept. kept.total) sums.now) }
{
    let kept = sums.to_vec()?;
    kept.iter().map(|kept| kept.total).collect(sums.allocator())
}
