ghost use Rattle.std.specs.Prelude.{◌≡◌, ◌*◌, ◌^◌, ◌<◌, ◌≤◌};
ghost use Rattle.std.specs.Ordering.{nat_cmp};
ghost use Rattle.cs_base.specs.Axes.{IsNear};
ghost use Rattle.cs_base.specs.Limits.{farthest, most_summed};
ghost use Rattle.cs_near.specs.Sums.{one_point};
ghost use Rattle.cs_near.specs.Distance.{squared_gap, squared_distance, distance_cmp};

use crate::one_point;
use cs_base::{Point, Sum};
use std::cmp::Ordering;

// On one axis: the square of the difference of the centroids a / m and b / n, times the squares of both counts.
fn squared_gap(m: u32, a: i64, n: u32, b: i64) -> u128
    requires first_few { m ≤ most_summed }
    requires first_near { IsNear (farthest * m) a }
    requires second_few { n ≤ most_summed }
    requires second_near { IsNear (farthest * n) b }
    ensures value { result ≡ squared_gap m a n b }
    ensures bound { result ≤ 4 * 10 ^ 28 }
{
    let first = i64::from(n) * a;
    let second = i64::from(m) * b;
    let gap = u128::from(first.abs_diff(second));
    gap * gap
}

/// The square of the distance of two centroids, times the squares of both counts.
pub(crate) fn squared_distance(a: &Sum, b: &Sum) -> u128
    ensures value { result ≡ squared_distance a.now b.now }
    ensures bound { result ≤ 12 * 10 ^ 28 }
    ensures some { 0 < b.now.count }
{
    let (m, n) = (a.count(), b.count());
    let [ax, ay, az] = a.sums();
    let [bx, by, bz] = b.sums();
    squared_gap(m, ax, n, bx) + squared_gap(m, ay, n, by) + squared_gap(m, az, n, bz)
}

// The square of a count.
fn square(count: u32) -> u128
    requires { count ≤ most_summed }
    ensures value { result ≡ count ^ 2 }
    ensures bound { result ≤ 10 ^ 8 }
{
    let count = u128::from(count);
    count * count
}

// A squared distance, times the square of a count.
fn weighted(gap: u128, other: &Sum) -> u128
    requires { gap ≤ 12 * 10 ^ 28 }
    ensures value { result ≡ gap * other.now.count ^ 2 }
    ensures bound { result < 2 ^ 127 }
{
    gap * square(other.count())
}

/// Compares the distances from one centroid to those of `a` and of `b`, whose squared distances from it are given:
/// `Less` says that `a` is nearer.
pub(crate) fn compare_gaps(gap_a: u128, a: &Sum, gap_b: u128, b: &Sum) -> Ordering
    requires first { gap_a ≤ 12 * 10 ^ 28 }
    requires second { gap_b ≤ 12 * 10 ^ 28 }
    ensures { result ≡ nat_cmp (gap_a * b.now.count ^ 2) (gap_b * a.now.count ^ 2) }
{
    weighted(gap_a, b).cmp(&weighted(gap_b, a))
}

/// Compares the distance from the centroid of `from` to that of `a` with the distance from it to that of `b`:
/// `Less` says that `a` is nearer.
pub fn sums_nearer(from: &Sum, a: &Sum, b: &Sum) -> Ordering
    ensures { result ≡ distance_cmp from.now a.now b.now }
{
    compare_gaps(squared_distance(from, a), a, squared_distance(from, b), b)
}

/// Compares the distance from a point to the centroid of `a` with that to the centroid of `b`: `Less` says that
/// `a` is nearer.
pub fn nearer(p: Point, a: &Sum, b: &Sum) -> Ordering
    ensures { result ≡ distance_cmp (one_point p) a.now b.now }
{
    sums_nearer(&one_point(p), a, b)
}
