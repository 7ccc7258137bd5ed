ghost use Rattle.std.specs.Prelude.{◌≡◌, ◌<◌, ◌≤◌, Some, length, vec_len, IfOk, Any};
ghost use Rattle.std.specs.Int.{div_ceil};
ghost use Rattle.cs_base.specs.Ascending.{IsDistinctBy};
ghost use Rattle.cs_base.specs.Split.{lower_part, upper_part};
ghost use Rattle.cs_near.specs.Middle.{IsInOrder, middle_on, split_at, middle_split};
ghost use Rattle.cs_near.specs.Widest.{widest_axis};

use crate::widest;
use cs_base::{Axis, HasPoint, Keyed, Member, Split};
use std::alloc::{AllocError, Global};

/// Puts elements in order: of two the one with the lower coordinate comes first, and of equal coordinates the one with
/// the lower key.
pub fn put_in_order<P: Keyed + HasPoint>(points: &mut [P], axis: Axis)
    ensures order { IsInOrder P.key_of P.point_of axis points.old points.new }
    ensures len { length points.new ≡ length points.old }
{
    points.sort_unstable_by_key(|p| (p.point().axis(axis), p.key()));
}

/// The same elements in this order.
pub fn in_order<P: Keyed + HasPoint + Copy>(
    alloc: Global,
    points: &[P],
    axis: Axis,
) -> Result<Vec<P>, AllocError>
    ensures order { IfOk result (λ ordered. IsInOrder P.key_of P.point_of axis points.now ordered.items) }
    ensures len { IfOk result (λ ordered. vec_len ordered ≡ length points.now) }
{
    let mut ordered = Vec::from_slice(alloc, points)?;
    put_in_order(&mut ordered, axis);
    Ok(ordered)
}

/// The one in the middle of this order: half of them, rounded up, are below it.
pub fn middle_on<P: Keyed + HasPoint + Copy>(
    alloc: Global,
    points: &[P],
    axis: Axis,
) -> Result<P, AllocError>
    requires two { 2 ≤ length points.now }
    requires distinct { IsDistinctBy P.key_of points.now }
    ensures { IfOk result (λ middle. middle_on P.key_of P.point_of axis points.now ≡ Some middle) }
{
    let ordered = in_order(alloc, points, axis)?;
    Ok(ordered[points.len().div_ceil(2)])
}

/// Where the members are cut in two: on the widest axis, at the member that has half of them, rounded up, below it.
/// Of two members the one with the lower coordinate is below, and of equal coordinates the one with the lower id.
pub fn choose_split(alloc: Global, members: &[Member]) -> Result<Split, AllocError>
    requires two { 2 ≤ length members.now }
    requires distinct { IsDistinctBy (λ m. m.id) members.now }
    ensures middle { IfOk result (λ s. middle_split members.now ≡ Some s) }

    // What follows from it. So both parts have members.
    ensures widest { IfOk result (λ s. s.axis ≡ widest_axis (λ m. m.at) members.now) }
    ensures at_a_member { IfOk result (λ s. Any (λ m. split_at s.axis m ≡ s) members.now) }
    ensures half_lower { IfOk result (λ s. length (lower_part s members.now) ≡ div_ceil (length members.now) 2) }
    ensures some_lower { IfOk result (λ s. 0 < length (lower_part s members.now)) }
    ensures some_upper { IfOk result (λ s. 0 < length (upper_part s members.now)) }
{
    let axis = widest(members);
    let middle = middle_on(alloc, members, axis)?;
    Ok(Split {
        axis,
        at: middle.at.axis(axis),
        id: middle.id,
    })
}
