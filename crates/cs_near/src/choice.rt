ghost use Rattle.std.specs.Prelude.{◌≡◌, ◌*◌, ◌^◌, ◌<◌, ◌≤◌, length, is_some, IsSome, IfSome};
ghost use Rattle.std.specs.Ordering.{is_lt};
ghost use Rattle.cs_near.specs.Distance.{squared_distance};
ghost use Rattle.cs_near.specs.Nearest.{nearest, nearness_cmp};

use crate::HasSum;
use crate::distance::{compare_gaps, squared_distance};
use cs_base::Sum;

// The squared distance of one that is nearer than another, or as near with a lower key. That of the other is given.
fn nearer_gap<T: HasSum>(from: &Sum, one: &T, other: &T, other_gap: u128) -> Option<u128>
    requires value { other_gap ≡ squared_distance from.now (T.sum_of other.now) }
    requires bound { other_gap ≤ 12 * 10 ^ 28 }
    ensures some { is_some result ≡ is_lt (nearness_cmp T.key_of T.sum_of from.now one.now other.now) }
    ensures value { IfSome result (λ gap. gap ≡ squared_distance from.now (T.sum_of one.now)) }
    ensures bound { IfSome result (λ gap. gap ≤ 12 * 10 ^ 28) }
    ensures count { 0 < (T.sum_of one.now).count }
{
    let (sum, other_sum) = (one.sum(), other.sum());
    let gap = squared_distance(from, &sum);
    let order = compare_gaps(gap, &sum, other_gap, &other_sum).then(one.key().cmp(&other.key()));
    if order.is_lt() { Some(gap) } else { None }
}

/// The one whose centroid is nearest to that of `from`, and of several the one with the least key.
pub fn nearest<T: HasSum + Copy>(from: &Sum, others: &[T]) -> Option<T>
    ensures value { result ≡ nearest T.key_of T.sum_of from.now others.now }
    ensures some { 0 < length others.now → IsSome result }
{
    if others.is_empty() {
        return None;
    }
    let mut best = 0;
    let mut gap = squared_distance(from, &others[0].sum());
    for i in 1..others.len() {
        if let Some(nearer) = nearer_gap(from, &others[i], &others[best], gap) {
            best = i;
            gap = nearer;
        }
    }
    Some(others[best])
}
