ghost use Rattle.std.specs.Prelude.{◌≡◌};
ghost use Rattle.cs_near.specs.Widest.{spread, widest_axis};

use cs_base::{Axis, HasPoint, Member, highest_on, lowest_on};

// The difference of the highest and the lowest coordinate on an axis, and 0 where there is no point.
fn spread<P: HasPoint>(points: &[P], axis: Axis) -> i32
    ensures { result ≡ spread P.point_of axis points.now }
{
    if points.is_empty() {
        0
    } else {
        highest_on(points, axis) - lowest_on(points, axis)
    }
}

/// The first axis with the greatest difference of the highest and the lowest coordinate, and X where there is no
/// point.
pub fn widest_of<P: HasPoint>(points: &[P]) -> Axis
    ensures { result ≡ widest_axis P.point_of points.now }
{
    let x = spread(points, Axis::X);
    let y = spread(points, Axis::Y);
    let z = spread(points, Axis::Z);
    if y <= x && z <= x {
        Axis::X
    } else if z <= y {
        Axis::Y
    } else {
        Axis::Z
    }
}

/// The widest axis of the members' points.
pub fn widest(members: &[Member]) -> Axis
    ensures { result ≡ widest_axis (λ m. m.at) members.now }
{
    widest_of(members)
}
