ghost use Rattle.std.specs.Prelude.{◌≡◌, ◌<◌, ◌≤◌, length};
ghost use Rattle.cs_base.specs.Limits.{most_summed};
ghost use Rattle.cs_near.specs.Sums.{one_point, sum_of_points};

use cs_base::{Axis, HasPoint, Point, Sum, total_on};

/// A point as the sum of one.
pub fn one_point(p: Point) -> Sum
    ensures { result ≡ one_point p }
{
    let x = i64::from(p.axis(Axis::X));
    let y = i64::from(p.axis(Axis::Y));
    let z = i64::from(p.axis(Axis::Z));
    Sum::new(1, [x, y, z]).unwrap()
}

/// How many points there are, from 1 to 10,000, and their sum.
pub fn sum_of_points<P: HasPoint>(points: &[P]) -> Sum
    requires some { 0 < length points.now }
    requires few { length points.now ≤ most_summed }
    ensures { result ≡ sum_of_points P.point_of points.now }
{
    let x = total_on(points, Axis::X);
    let y = total_on(points, Axis::Y);
    let z = total_on(points, Axis::Z);
    Sum::new(points.len() as u32, [x, y, z]).unwrap()
}
