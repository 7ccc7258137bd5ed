//! The sum and the bounds of the coordinates of some points.
ghost use Rattle.std.specs.Prelude.{◌≡◌, ◌*◌, ◌<◌, ◌≤◌, length};
ghost use Rattle.std.specs.List.{AllByRecursion};
ghost use Rattle.cs_base.specs.Axes.{Axes, on_axis, IsNear};
ghost use Rattle.cs_base.specs.Bounds.{lowest, highest};
ghost use Rattle.cs_base.specs.Limits.{farthest, most_summed};
ghost use Rattle.cs_base.specs.Points.{coordinates, total};

use crate::{Axis, Member, Point};

/// What has a point.
pub trait HasPoint {
    ghost point_of: { Self → Axes };

    fn point(&self) -> Point
        ensures { result ≡ point_of self.now };
}

impl HasPoint for Member {
    ghost point_of = { λ m. m.at };

    fn point(&self) -> Point {
        self.at
    }
}

// The coordinate on an axis.
fn coordinate<T: HasPoint>(t: &T, axis: Axis) -> i32
    ensures value { result ≡ on_axis axis (T.point_of t.now) }
    ensures near { IsNear farthest result }
{
    t.point().axis(axis)
}

/// The sum of the coordinates on an axis.
pub fn total_on<T: HasPoint>(ts: &[T], axis: Axis) -> i64
    requires { length ts.now ≤ most_summed }
    ensures value { result ≡ total (coordinates T.point_of axis ts.now) }
    ensures within { IsNear (farthest * length ts.now) result }
    ensures near { AllByRecursion (λ t. IsNear farthest (on_axis axis (T.point_of t))) ts.now }
{
    let mut sum = 0;
    for t in ts {
        sum += i64::from(coordinate(t, axis));
    }
    sum
}

/// The lowest coordinate on an axis.
pub fn lowest_on<T: HasPoint>(ts: &[T], axis: Axis) -> i32
    requires { 0 < length ts.now }
    ensures value { result ≡ lowest (coordinates T.point_of axis ts.now) }
    ensures near { IsNear farthest result }
{
    let mut low = coordinate(&ts[0], axis);
    for t in &ts[1..] {
        low = low.min(coordinate(t, axis));
    }
    low
}

/// The highest coordinate on an axis.
pub fn highest_on<T: HasPoint>(ts: &[T], axis: Axis) -> i32
    requires { 0 < length ts.now }
    ensures value { result ≡ highest (coordinates T.point_of axis ts.now) }
    ensures near { IsNear farthest result }
{
    let mut high = coordinate(&ts[0], axis);
    for t in &ts[1..] {
        high = high.max(coordinate(t, axis));
    }
    high
}
