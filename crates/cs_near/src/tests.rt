ghost use Rattle.std.specs.Prelude.{IsTrue};
ghost use Rattle.cs_base.specs.Ascending.{IsDistinctBy};

use crate::{
    RegionSum, choose_split, distances_are_ordered, in_order, middle_on, nearer, nearest,
    one_is_nearest, sum_of_points, sums_nearer, widest,
};
use cs_base::{Addr, Axis, Member, NodeId, Point, RegionId, Split, Sum};
use std::alloc::Global;
use std::cmp::Ordering;
use std::process::Abort;
use std::test::Fail;

const CORNERS: [[i64; 3]; 8] = [
    [-1, -1, -1],
    [-1, -1, 1],
    [-1, 1, -1],
    [-1, 1, 1],
    [1, -1, -1],
    [1, -1, 1],
    [1, 1, -1],
    [1, 1, 1],
];

// So many members, all at a corner of the range.
fn at_corner(count: u32, corner: [i64; 3]) -> Option<Sum> {
    let far = i64::from(count).wrapping_mul(1_000_000);
    Sum::new(count, corner.map(|side| side.wrapping_mul(far)))
}

#[test]
fn the_greatest_products_fit(rt: HostRuntime) -> Result<(), Fail> {
    for corner in CORNERS {
        let here = at_corner(10_000, corner).ok_or("sum")?;
        let there = at_corner(10_000, corner.map(i64::wrapping_neg)).ok_or("sum")?;
        let few_there = at_corner(1, corner.map(i64::wrapping_neg)).ok_or("sum")?;
        assert_eq!(rt; sums_nearer(&here, &here, &there), Ordering::Less);
        assert_eq!(rt; sums_nearer(&here, &there, &here), Ordering::Greater);
        assert_eq!(rt; sums_nearer(&here, &there, &few_there), Ordering::Equal);
    }
    Ok(())
}

#[test]
fn centroids_are_compared(rt: HostRuntime) -> Result<(), Fail> {
    let p = Point::new(10, 0, 0).ok_or("point")?;
    for (a, b, want) in [
        // at 9 and at 12
        ((2, [18, 0, 0]), (1, [12, 0, 0]), Ordering::Less),
        ((1, [12, 0, 0]), (2, [18, 0, 0]), Ordering::Greater),
        // 20 away on both sides
        ((3, [90, 0, 0]), (5, [-50, 0, 0]), Ordering::Equal),
        // 5 away on one axis, and by 3 and 4 on the two others
        ((2, [30, 0, 0]), (4, [40, 12, -16]), Ordering::Equal),
        // at 31 / 3 and at 10
        ((3, [31, 0, 0]), (1, [10, 0, 0]), Ordering::Greater),
    ] {
        let a = Sum::new(a.0, a.1).ok_or("sum")?;
        let b = Sum::new(b.0, b.1).ok_or("sum")?;
        let one = Sum::new(1, [10, 0, 0]).ok_or("sum")?;
        let seven = Sum::new(7, [70, 0, 0]).ok_or("sum")?;
        assert_eq!(rt; nearer(p, &a, &b), want, "to {a:?} and {b:?}");
        assert_eq!(rt; sums_nearer(&one, &a, &b), want, "to {a:?} and {b:?}");
        assert_eq!(rt; sums_nearer(&seven, &a, &b), want, "to {a:?} and {b:?}");
    }
    distances_are_ordered();
    one_is_nearest();
    Ok(())
}

// A member with this id at this point.
fn member_at(id: u32, x: i32, y: i32, z: i32) -> Result<Member, Fail> {
    Ok(Member {
        id: NodeId::new(id).ok_or("id")?,
        addr: Addr::new([127, 0, 0, 1], 9000).ok_or("address")?,
        at: Point::new(x, y, z).ok_or("point")?,
    })
}

#[test]
fn the_first_of_the_widest_axes_counts(rt: HostRuntime) -> Result<(), Fail> {
    for (low, high, want) in [
        ([0, 0, 0], [0, 0, 0], Axis::X),
        ([0, 0, 0], [5, 5, 5], Axis::X),
        ([0, -1, 0], [5, 5, 5], Axis::Y),
        ([0, -1, -2], [5, 5, 5], Axis::Z),
        ([3, 0, 0], [5, 4, 4], Axis::Y),
        (
            [1_000_000, -1_000_000, 0],
            [-1_000_000, 1_000_000, 0],
            Axis::X,
        ),
    ] {
        let members = [
            member_at(1, low[0], low[1], low[2])?,
            member_at(2, high[0], high[1], high[2])?,
        ];
        assert_eq!(rt; widest(&members), want, "from {low:?} to {high:?}");
    }
    assert_eq!(rt; widest(&[]), Axis::X);
    Ok(())
}

// Whether no id occurs twice.
fn are_distinct(members: &[Member]) -> bool
    ensures { IsTrue result → IsDistinctBy (λ m. m.id) members.now }
{
    for (i, m) in members.iter().enumerate() {
        if members[..i].iter().any(|k| k.id == m.id) {
            return false;
        }
    }
    true
}

// The split of at least two members with distinct ids.
fn split_of(rt: &impl Abort, alloc: Global, members: &[Member]) -> Result<Split, Fail> {
    assert!(rt; members.len() >= 2);
    assert!(rt; are_distinct(members));
    Ok(choose_split(alloc, members)?)
}

// The split with this coordinate and id on the first axis.
fn on_x(at: i32, id: u32) -> Result<Split, Fail> {
    let id = NodeId::new(id).ok_or("id")?;
    Ok(Split {
        axis: Axis::X,
        at,
        id,
    })
}

#[test]
fn a_region_of_49_is_cut_behind_the_25th(rt: HostRuntime) -> Result<(), Fail> {
    let mut members = Vec::new(rt.alloc());
    for x in 0..49u8 {
        members.push(member_at(u32::from(x) + 1, i32::from(x), 0, 0)?)?;
    }
    assert_eq!(rt; split_of(&rt, rt.alloc(), &members)?, on_x(25, 26)?);
    Ok(())
}

#[test]
fn a_region_of_51_is_cut_behind_the_26th(rt: HostRuntime) -> Result<(), Fail> {
    let mut members = Vec::new(rt.alloc());
    for id in 101..106 {
        members.push(member_at(id, 1000, 0, 0)?)?;
    }
    for x in 0..46u8 {
        members.push(member_at(u32::from(x) + 1, i32::from(x), 0, 0)?)?;
    }
    assert_eq!(rt; split_of(&rt, rt.alloc(), &members)?, on_x(26, 27)?);
    Ok(())
}

#[test]
fn of_equal_coordinates_the_id_decides(rt: HostRuntime) -> Result<(), Fail> {
    let two = [member_at(1, 4, 5, 6)?, member_at(2, 4, 5, 6)?];
    assert_eq!(rt; split_of(&rt, rt.alloc(), &two)?, on_x(4, 2)?);

    let four = [
        member_at(9, 0, 0, 0)?,
        member_at(2, 0, 0, 0)?,
        member_at(7, 0, 0, 0)?,
        member_at(5, 0, 0, 0)?,
    ];
    assert_eq!(rt; split_of(&rt, rt.alloc(), &four)?, on_x(0, 7)?);
    Ok(())
}

#[test]
fn the_middle_has_half_below_it(rt: HostRuntime) -> Result<(), Fail> {
    let three = [
        member_at(5, 7, 1, 0)?,
        member_at(4, 7, 2, 0)?,
        member_at(3, 9, 0, 0)?,
    ];
    assert!(rt; are_distinct(&three));
    let ordered = in_order(rt.alloc(), &three, Axis::X)?;
    assert_eq!(rt;
        ordered.as_slice(),
        [three[1], three[0], three[2]].as_slice()
    );
    assert_eq!(rt; middle_on(rt.alloc(), &three, Axis::X)?, three[2]);
    assert_eq!(rt; middle_on(rt.alloc(), &three, Axis::Y)?, three[1]);
    Ok(())
}

// A region with so many members, and the sum of their points.
fn region_of(region: u32, count: u32, sums: [i64; 3]) -> Result<RegionSum, Fail> {
    Ok(RegionSum {
        region: RegionId::new(region).ok_or("region")?,
        sum: Sum::new(count, sums).ok_or("sum")?,
    })
}

#[test]
fn of_the_nearest_the_least_key_counts(rt: HostRuntime) -> Result<(), Fail> {
    // 20, 5, 5, 5 and 6 away
    let regions = [
        region_of(9, 1, [20, 0, 0])?,
        region_of(8, 2, [10, 0, 0])?,
        region_of(7, 1, [0, -5, 0])?,
        region_of(6, 3, [0, 0, 15])?,
        region_of(2, 1, [0, 6, 0])?,
    ];
    let here = Sum::new(4, [0, 0, 0]).ok_or("sum")?;
    assert_eq!(rt; nearest(&here, &regions), Some(regions[3]));
    assert_eq!(rt; nearest(&here, &regions[..2]), Some(regions[1]));
    assert_eq!(rt; nearest::<RegionSum>(&here, &[]), None);
    Ok(())
}

#[test]
fn the_root_is_nearest_to_the_centroid_of_all(rt: HostRuntime) -> Result<(), Fail> {
    let members = [
        member_at(1, 0, 0, 0)?,
        member_at(9, 4, 3, -1)?,
        member_at(5, 8, 3, -1)?,
    ];
    let sum = sum_of_points(&members);
    assert_eq!(rt; Some(sum), Sum::new(3, [12, 6, -2]));
    assert_eq!(rt; nearest(&sum, &members), Some(members[1]));
    Ok(())
}
