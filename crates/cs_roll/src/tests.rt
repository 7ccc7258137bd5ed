ghost use Rattle.std.specs.Prelude.{◌≡◌, ◌∷◌, []};
ghost use Rattle.cs_roll.specs.Summary.{summary_of};

use crate::{Roll, Sight, Summary, are_alike};
use cs_base::{Addr, Axis, Member, NodeId, Point, RegionId, Split};
use std::process::Abort;

fn id_of(rt: &impl Abort, id: u32) -> NodeId {
    NodeId::new(id).expect(rt, "id")
}

// A member with this id at this point.
fn member_at(rt: &impl Abort, id: u32, x: i32, y: i32, z: i32) -> Member {
    Member {
        id: id_of(rt, id),
        addr: Addr::new([127, 0, 0, 1], 9000).expect(rt, "address"),
        at: Point::new(x, y, z).expect(rt, "point"),
    }
}

// A roll of such members.
fn roll_of<R: AllocGlobal + Abort>(rt: &R, members: &[(u32, i32, i32, i32)]) -> Roll {
    let mut roll = Roll::new(rt.alloc());
    for (id, x, y, z) in members {
        let member = member_at(rt, *id, *x, *y, *z);
        roll.insert(member).expect(rt, "memory");
    }
    roll
}

fn copy_of(rt: &impl Abort, roll: &Roll) -> Roll {
    roll.copy().expect(rt, "memory")
}

fn check_members(rt: &impl Abort, roll: &Roll, members: &[Member]) {
    assert_eq!(rt; roll.as_slice(), members);
}

fn check_first(rt: &impl Abort, roll: &Roll, count: usize, members: &[Member]) {
    let first = roll.first(count).expect(rt, "memory");
    assert_eq!(rt; first.as_slice(), members);
}

// Looks for a member that isn't there, and takes it out.
fn check_absent(rt: &impl Abort, roll: &mut Roll, id: u32) {
    let id = id_of(rt, id);
    assert!(rt; roll.find(id).is_none());
    assert!(rt; roll.remove(id).is_none());
}

// Puts the member in the place of one of its id.
fn check_insert(rt: &impl Abort, roll: &mut Roll, member: &Member, before: &Member) {
    let found = roll.insert(*member).expect(rt, "memory");
    assert_eq!(rt; found.expect(rt, "member"), *before);
}

// Takes the member out, once.
fn check_remove(rt: &impl Abort, roll: &mut Roll, member: &Member) {
    let found = roll.remove(member.id);
    assert_eq!(rt; found.expect(rt, "member"), *member);
    assert!(rt; roll.remove(member.id).is_none());
}

fn check_find(rt: &impl Abort, roll: &Roll, member: &Member) {
    let found = roll.find(member.id).expect(rt, "member");
    assert_eq!(rt; *found, *member);
}

#[test]
fn members_stand_in_order(rt: HostRuntime) {
    let mut roll = roll_of(&rt, &[(5, 50, 0, 0), (1, 10, 0, 0), (9, 90, 0, 0)]);
    let first = [
        member_at(&rt, 1, 10, 0, 0),
        member_at(&rt, 5, 50, 0, 0),
        member_at(&rt, 9, 90, 0, 0),
    ];
    check_members(&rt, &roll, &first);

    let moved = [member_at(&rt, 1, 0, -10, 0), first[1], first[2]];
    check_insert(&rt, &mut roll, &moved[0], &first[0]);
    check_members(&rt, &roll, &moved);

    check_find(&rt, &roll, &moved[1]);
    check_absent(&rt, &mut roll, 7);

    let whole = copy_of(&rt, &roll);
    check_remove(&rt, &mut roll, &moved[1]);
    check_members(&rt, &roll, &[moved[0], moved[2]]);
    check_members(&rt, &whole, &moved);
    check_first(&rt, &whole, 2, &moved[..2]);
    check_first(&rt, &whole, 8, &moved);
}

#[test]
fn a_first_member_is_pushed(rt: HostRuntime) {
    let mut roll = Roll::new(rt.alloc());
    assert!(rt; roll.is_empty());
    let five = [member_at(&rt, 5, 0, 0, 0)];
    roll.push(five[0]).expect(&rt, "memory");
    assert_eq!(rt; roll.as_slice(), five.as_slice());
}

// The summary of a roll, which has 1 to 10,000 members.
fn summed(rt: &impl Abort, roll: &Roll) -> Summary
    ensures { result ≡ summary_of roll.now }
{
    assert!(rt; !roll.is_empty());
    assert!(rt; roll.len() <= 10_000);
    roll.summary().expect(rt, "memory")
}

// The size, the sum and the bounds that a summary is to have.
#[derive(Clone, Copy)]
struct Totals(u32, [i64; 3], [i32; 3], [i32; 3]);

// Looks at what a summary says of a roll, and at its first members.
fn check_summary(rt: &impl Abort, roll: &Roll, totals: &Totals, globals: &[Member]) {
    let summary = summed(rt, roll);
    assert_eq!(rt; summary.size, totals.0);
    assert_eq!(rt; summary.sum, totals.1);
    assert_eq!(rt; summary.low, totals.2);
    assert_eq!(rt; summary.high, totals.3);
    assert_eq!(rt; summary.globals.as_slice(), globals);
}

#[test]
fn five_members_are_summed_up(rt: HostRuntime) {
    let members = [
        (1, 0, 0, 0),
        (2, 10, 0, 0),
        (3, 20, 0, 0),
        (4, 30, 0, 0),
        (5, 40, 0, 0),
    ];
    let roll = roll_of(&rt, &members);
    let totals = Totals(5, [100, 0, 0], [0, 0, 0], [40, 0, 0]);
    check_summary(&rt, &roll, &totals, roll.as_slice());
}

// A roll of the ids from 1 to `last`, each at its id on the first axis.
fn row_of<R: AllocGlobal + Abort>(rt: &R, last: u8) -> Roll {
    let mut roll = Roll::new(rt.alloc());
    for id in 0..last {
        let id = u32::from(id) + 1;
        let member = member_at(rt, id, id as i32, 0, 0);
        roll.insert(member).expect(rt, "memory");
    }
    roll
}

#[test]
fn the_first_eight_of_twelve_are_globals(rt: HostRuntime) {
    let roll = row_of(&rt, 12);
    let eight = row_of(&rt, 8);
    let totals = Totals(12, [78, 0, 0], [1, 0, 0], [12, 0, 0]);
    check_summary(&rt, &roll, &totals, eight.as_slice());
}

#[test]
fn negative_coordinates_count(rt: HostRuntime) {
    let roll = roll_of(&rt, &[(1, -5, 3, -1_000_000), (2, 7, -9, 1_000_000)]);
    let totals = Totals(2, [2, -6, 0], [-5, -9, -1_000_000], [7, 3, 1_000_000]);
    check_summary(&rt, &roll, &totals, roll.as_slice());
}

#[test]
fn summaries_are_compared(rt: HostRuntime) {
    let summary = summed(&rt, &roll_of(&rt, &[(1, 0, 0, 0), (2, 2, 0, 0)]));
    let copy = summary.copy().expect(&rt, "memory");
    assert!(rt; summary.is_same(&copy));
    let others = [
        [(1, 1, 0, 0), (2, 1, 0, 0)],
        [(1, 0, 0, 0), (2, 3, 0, 0)],
        [(1, 0, 0, 0), (3, 2, 0, 0)],
    ];
    for other in others {
        let other = summed(&rt, &roll_of(&rt, &other));
        assert!(rt; !summary.is_same(&other));
    }
}

#[test]
fn rolls_beside_regions_are_compared(rt: HostRuntime) {
    let two = [
        (region_of(&rt, 1), row_of(&rt, 2)),
        (region_of(&rt, 4), row_of(&rt, 3)),
    ];
    let same = [
        (region_of(&rt, 1), row_of(&rt, 2)),
        (region_of(&rt, 4), row_of(&rt, 3)),
    ];
    assert!(rt; are_alike(&two, &same));
    assert!(rt; !are_alike(&two, &[(region_of(&rt, 1), row_of(&rt, 2))]));
    let others = [
        [
            (region_of(&rt, 1), row_of(&rt, 2)),
            (region_of(&rt, 5), row_of(&rt, 3)),
        ],
        [
            (region_of(&rt, 1), row_of(&rt, 2)),
            (region_of(&rt, 4), row_of(&rt, 4)),
        ],
    ];
    for other in others {
        assert!(rt; !are_alike(&two, &other));
    }
}

// The two parts of a roll by a split on the first axis.
fn parts_of(rt: &impl Abort, roll: &Roll, at: i32, id: u32) -> (Roll, Roll) {
    let split = Split {
        axis: Axis::X,
        at,
        id: id_of(rt, id),
    };
    roll.part(&split).expect(rt, "memory")
}

// Looks at the two parts of a roll by a split on the first axis.
fn check_parts(
    rt: &impl Abort,
    roll: &Roll,
    split: (i32, u32),
    lower: &[Member],
    upper: &[Member],
) {
    let parts = parts_of(rt, roll, split.0, split.1);
    assert_eq!(rt; parts.0.as_slice(), lower);
    assert_eq!(rt; parts.1.as_slice(), upper);
}

#[test]
fn the_member_of_the_split_is_upper(rt: HostRuntime) {
    let roll = row_of(&rt, 49);
    let (lower, upper) = parts_of(&rt, &roll, 26, 26);
    assert_eq!(rt; lower.as_slice(), row_of(&rt, 25).as_slice());
    assert_eq!(rt; upper.len(), 24);
    assert_eq!(rt; upper.as_slice().first(), roll.as_slice().get(25));
}

#[test]
fn of_members_at_one_point_the_id_decides(rt: HostRuntime) {
    let roll = roll_of(&rt, &[(1, 4, 5, 6), (2, 4, 5, 6)]);
    let lower = [member_at(&rt, 1, 4, 5, 6)];
    let upper = [member_at(&rt, 2, 4, 5, 6)];
    check_parts(&rt, &roll, (4, 2), &lower, &upper);
}

#[test]
fn a_part_can_be_empty(rt: HostRuntime) {
    let roll = row_of(&rt, 3);
    check_parts(&rt, &roll, (1, 1), &[], roll.as_slice());
    check_parts(&rt, &roll, (3, 4), roll.as_slice(), &[]);
}

// A group of one region, which is known.
#[derive(Drop)]
struct OneRegion {
    region: RegionId,
    roll: Roll,
    summary: Summary,
    ghost sums_up: { summary ≡ summary_of roll },
}

impl Sight for OneRegion {
    ghost summaries = { λ s. (s.region, s.summary) ∷ [] };

    ghost rolls = { λ s. (s.region, s.roll) ∷ [] };

    fn count(&self) -> usize {
        let _size = self.summary.size;
        let _members = self.roll.as_slice();
        1
    }

    fn region(&self, _i: usize) -> RegionId {
        self.region
    }

    fn summary(&self, _i: usize) -> &Summary {
        &self.summary
    }

    fn roll(&self, r: RegionId) -> Option<&Roll> {
        if r == self.region {
            Some(&self.roll)
        } else {
            None
        }
    }
}

fn region_of(rt: &impl Abort, region: u32) -> RegionId {
    RegionId::new(region).expect(rt, "region")
}

// How many members the first region has by its summary, and by its roll.
fn first_sizes<S: Sight>(sight: &S) -> Option<(u32, usize)> {
    if sight.count() == 0 {
        return None;
    }
    let roll = sight.roll(sight.region(0))?;
    Some((sight.summary(0).size, roll.len()))
}

#[test]
fn one_region_is_seen(rt: HostRuntime) {
    let roll = roll_of(&rt, &[(1, 0, 0, 0), (2, 2, 0, 0)]);
    let summary = summed(&rt, &roll);
    let sight = OneRegion {
        region: region_of(&rt, 3),
        roll,
        summary,
    };
    assert_eq!(rt; first_sizes(&sight), Some((2, 2)));
    assert!(rt; sight.roll(region_of(&rt, 4)).is_none());
}

// As many members as a group may have.
#[test]
fn a_roll_has_room_for_2000_members(rt: HostRuntime) {
    let mut roll = Roll::new(rt.alloc());
    for id in 1..=2_000 {
        let member = member_at(&rt, id, 1, -1, 0);
        roll.insert(member).expect(&rt, "memory");
    }
    assert_eq!(rt; roll.len(), 2_000);
    assert_eq!(rt; copy_of(&rt, &roll).len(), 2_000);
    let summary = summed(&rt, &roll);
    assert_eq!(rt; summary.size, 2_000);
    assert_eq!(rt; summary.sum, [2_000, -2_000, 0]);
}
