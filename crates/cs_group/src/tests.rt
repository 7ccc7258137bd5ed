ghost use Rattle.std.specs.Prelude.{IsTrue};
ghost use Rattle.cs_base.specs.Ascending.{IsDistinctBy};
ghost use Rattle.cs_base.specs.Changes.{id_of};

use crate::{
    Group, GroupFault, Row, RowList, RowsFault, Turn, Verdict, Verdicts, accepted_again,
    groups_have_no_fault, history_grows, history_is_bounded,
};
use cs_base::{
    Addr, Axis, Change, Cut, Ids, MOST_CHANGES, MOST_MEMBERS, Member, NodeId, Point, RegionId,
    Split,
};
use cs_roll::Roll;
use std::alloc::Global;
use std::ops::Range;
use std::process::Abort;

fn id_of(rt: &impl Abort, id: u32) -> NodeId {
    NodeId::new(id).expect(rt, "id")
}

fn region_of(rt: &impl Abort, region: u32) -> RegionId {
    RegionId::new(region).expect(rt, "region")
}

// A member with this id at this place on the first axis.
fn member_at(rt: &impl Abort, id: u32, x: i32) -> Member {
    Member {
        id: id_of(rt, id),
        addr: Addr::new([127, 0, 0, 1], 9000).expect(rt, "address"),
        at: Point::new(x, 0, 0).expect(rt, "point"),
    }
}

// A row of such a member that hasn't moved.
fn row_at(rt: &impl Abort, region: u32, id: u32, x: i32) -> Row {
    Row {
        region: region_of(rt, region),
        member: member_at(rt, id, x),
        seq: 0,
    }
}

// Rows of a region: its number, the first and the last id, where the first stands, and how far each stands behind the
// one before.
#[derive(Clone, Copy)]
struct Line(u32, u32, u32, i32, i32);

fn push_line(rt: &impl Abort, rows: &mut Vec<Row>, line: &Line) {
    let Line(region, first, last, mut x, step) = *line;
    for id in first..last.saturating_add(1) {
        let row = row_at(rt, region, id, x);
        rows.push(row).expect(rt, "memory");
        x = x.saturating_add(step);
    }
}

fn rows_of<R: AllocGlobal + Abort>(rt: &R, lines: &[Line]) -> Vec<Row> {
    let mut rows = Vec::new(rt.alloc());
    for line in lines {
        push_line(rt, &mut rows, line);
    }
    rows
}

// So many members of region 0, from 0 on, one behind the other.
fn line_of(count: u32) -> Line {
    Line(0, 1, count, 0, 1)
}

// The group of these rows, with leader 1 and nothing retired.
fn group_of<R: AllocGlobal + Abort>(rt: &R, lines: &[Line], next_region: u32) -> Group {
    let rows = rows_of(rt, lines);
    let retired = Ids::new(rt.alloc());
    Group::from_rows(rt.alloc(), id_of(rt, 1), &rows, next_region, &retired).expect(rt, "rows")
}

// Whether no id occurs twice.
fn are_distinct(changes: &[Change]) -> bool
    ensures { IsTrue result → IsDistinctBy id_of changes.now }
{
    for (i, c) in changes.iter().enumerate() {
        if changes[..i].iter().any(|d| d.id() == c.id()) {
            return false;
        }
    }
    true
}

// The next turn, or why there is none.
fn turn_of(rt: &impl Abort, group: &Group, changes: &[Change]) -> Result<Turn, GroupFault> {
    assert!(rt; changes.len() <= MOST_CHANGES);
    assert!(rt; are_distinct(changes));
    group.next(changes)
}

// The next turn, where there is one.
fn next_of(rt: &impl Abort, group: &Group, changes: &[Change]) -> Turn {
    turn_of(rt, group, changes).expect(rt, "turn")
}

fn roll_of(rt: &impl Abort, group: &Group, region: RegionId) -> Roll {
    group.roll(region).expect(rt, "memory").expect(rt, "region")
}

// The sum of the members' places on the first axis.
fn sum_of(roll: &Roll) -> i64 {
    let mut sum = 0i64;
    for member in roll.as_slice() {
        sum = sum.saturating_add(i64::from(member.at.axis(Axis::X)));
    }
    sum
}

// The regions, how many members each has, and the sum of their places on the first axis.
fn sizes_of<R: AllocGlobal + Abort>(rt: &R, group: &Group) -> Vec<(u32, usize, i64)> {
    let mut sizes = Vec::new(rt.alloc());
    for i in 0..group.count() {
        let region = group.region(i);
        let roll = roll_of(rt, group, region);
        let size = (region.get(), roll.len(), sum_of(&roll));
        sizes.push(size).expect(rt, "memory");
    }
    sizes
}

// What is asked for: a join of an id at a place, a leave of an id, a move of an id with a seq to a place.
#[derive(Clone, Copy)]
enum Ask {
    Join(u32, i32),
    Leave(u32),
    Move(u32, u32, i32),
}

fn change_of(rt: &impl Abort, ask: Ask) -> Change {
    match ask {
        Ask::Join(id, x) => Change::Join(member_at(rt, id, x)),
        Ask::Leave(id) => Change::Leave { id: id_of(rt, id) },
        Ask::Move(id, seq, x) => Change::Move {
            id: id_of(rt, id),
            seq,
            at: Point::new(x, 0, 0).expect(rt, "point"),
        },
    }
}

fn changes_of<R: AllocGlobal + Abort>(rt: &R, asks: &[Ask]) -> Vec<Change> {
    let mut changes = Vec::new(rt.alloc());
    for ask in asks {
        changes.push(change_of(rt, *ask)).expect(rt, "memory");
    }
    changes
}

// What a turn is to lead to: which region is merged into which, at which coordinate and id of the first axis region 0
// is cut and into which region, and the sizes of all regions.
#[derive(Clone, Copy)]
struct Case<'a> {
    lines: &'a [Line],
    next_region: u32,
    asks: &'a [Ask],
    merged: Option<(u32, u32)>,
    cut: Option<(i32, u32, u32)>,
    sizes: &'a [(u32, usize, i64)],
}

fn merge_of(rt: &impl Abort, merged: Option<(u32, u32)>) -> Option<(RegionId, RegionId)> {
    let (gone, into) = merged?;
    Some((region_of(rt, gone), region_of(rt, into)))
}

fn cut_of(rt: &impl Abort, cut: Option<(i32, u32, u32)>) -> Option<(RegionId, Cut)> {
    let (at, id, upper) = cut?;
    let split = Split {
        axis: Axis::X,
        at,
        id: id_of(rt, id),
    };
    let upper = region_of(rt, upper);
    Some((region_of(rt, 0), Cut { split, upper }))
}

// Looks at what the next turn leads to.
fn check_turn<R: AllocGlobal + Abort>(rt: &R, case: &Case) {
    let group = group_of(rt, case.lines, case.next_region);
    let changes = changes_of(rt, case.asks);
    let turn = next_of(rt, &group, &changes);
    assert_eq!(rt; turn.merged, merge_of(rt, case.merged));
    assert_eq!(rt; turn.cut, cut_of(rt, case.cut));
    assert_eq!(rt; sizes_of(rt, &turn.group).as_slice(), case.sizes);
}

// These ids, to be retired.
fn ids_of<R: AllocGlobal + Abort>(rt: &R, numbers: Range<u32>) -> Ids {
    let mut ids = Ids::new(rt.alloc());
    for number in numbers {
        ids.insert(number).expect(rt, "memory");
    }
    ids
}

// The group of so many members, led by 1, where these ids are retired, or what is wrong with it.
fn line_group<R: AllocGlobal + Abort>(
    rt: &R,
    count: u32,
    retired: Range<u32>,
) -> Result<Group, RowsFault> {
    let rows = rows_of(rt, &[line_of(count)]);
    let retired = ids_of(rt, retired);
    Group::from_rows(rt.alloc(), id_of(rt, 1), &rows, 1, &retired)
}

// Looks at the verdicts on changes, each alone.
fn check_verdicts(rt: &impl Abort, group: &Group, cases: &[(Ask, Verdict)]) {
    for (ask, verdict) in cases {
        assert_eq!(rt; group.judge(&change_of(rt, *ask)), *verdict);
    }
}

// Region 0 with members 1 to 6 at 0.
const SIX: Line = Line(0, 1, 6, 0, 0);

// Member 11 is alone in region 1.
const ONE_ALONE: [Line; 2] = [SIX, Line(1, 11, 11, 500, 0)];

// Member 16 is far from the others of region 1.
const PULLED_APART: [Line; 3] = [SIX, Line(1, 10, 15, 100, 0), Line(1, 16, 16, 660, 0)];

// Region 2 is as far from region 0 as from region 1.
const THREE_REGIONS: [Line; 3] = [SIX, Line(1, 11, 16, 200, 0), Line(2, 21, 26, 100, 0)];

#[test]
fn a_merge_may_be_followed_by_a_cut(rt: HostRuntime) {
    let far = Line(1, 101, 106, 1000, 0);
    let case = Case {
        lines: &[line_of(46), far],
        next_region: 2,
        asks: &[Ask::Leave(106)],
        merged: Some((1, 0)),
        cut: Some((26, 27, 2)),
        sizes: &[(0, 26, 325), (2, 25, 5710)],
    };
    check_turn(&rt, &case);
}

#[test]
fn the_least_of_two_large_regions_is_cut(rt: HostRuntime) {
    let large = Line(1, 101, 149, 1000, 1);
    let case = Case {
        lines: &[line_of(49), large],
        next_region: 2,
        asks: &[],
        merged: None,
        cut: Some((25, 26, 2)),
        sizes: &[(0, 25, 300), (1, 49, 50_176), (2, 24, 876)],
    };
    check_turn(&rt, &case);
}

#[test]
fn small_regions_are_merged_or_vanish(rt: HostRuntime) {
    let cases = [
        // a region between two goes to the least
        Case {
            lines: &THREE_REGIONS,
            next_region: 3,
            asks: &[Ask::Leave(26)],
            merged: Some((2, 0)),
            cut: None,
            sizes: &[(0, 11, 500), (1, 6, 1200)],
        },
        // of two small regions only the least is merged
        Case {
            lines: &THREE_REGIONS,
            next_region: 3,
            asks: &[Ask::Leave(16), Ask::Leave(26)],
            merged: Some((1, 2)),
            cut: None,
            sizes: &[(0, 6, 0), (2, 10, 1500)],
        },
        // a joiner has its place by the sums before: the centroid of region 1 is at 180, and at 100 once 16 is out
        Case {
            lines: &PULLED_APART,
            next_region: 2,
            asks: &[Ask::Leave(16), Ask::Join(20, 80)],
            merged: None,
            cut: None,
            sizes: &[(0, 7, 80), (1, 6, 600)],
        },
        // a region that all leave vanishes
        Case {
            lines: &ONE_ALONE,
            next_region: 2,
            asks: &[Ask::Leave(11)],
            merged: None,
            cut: None,
            sizes: &[(0, 6, 0)],
        },
        // and so does one whose last member moves away
        Case {
            lines: &ONE_ALONE,
            next_region: 2,
            asks: &[Ask::Move(11, 4, 10)],
            merged: None,
            cut: None,
            sizes: &[(0, 7, 10)],
        },
    ];
    for case in &cases {
        check_turn(&rt, case);
    }
}

// What the region of some members, one behind the other, is to be: its number, its first id, its size, and on the
// first axis the sum, the lowest and the highest.
type Span = (u32, u32, u32, i64, i32, i32);

// Eight members from this one on, one behind the other.
fn eight_from<R: AllocGlobal + Abort>(rt: &R, first: u32, low: i32) -> Vec<Member> {
    let mut members = Vec::new(rt.alloc());
    let mut x = low;
    for id in first..first.saturating_add(8) {
        members.push(member_at(rt, id, x)).expect(rt, "memory");
        x = x.saturating_add(1);
    }
    members
}

// Looks at the summary of a region.
fn check_span<R: AllocGlobal + Abort>(rt: &R, group: &Group, span: Span) {
    let (region, first, size, sum, low, high) = span;
    let roll = roll_of(rt, group, region_of(rt, region));
    assert!(rt; !roll.is_empty());
    assert!(rt; roll.len() <= MOST_MEMBERS);
    let summary = roll.summary().expect(rt, "memory");
    assert_eq!(rt; summary.size, size);
    assert_eq!(rt; summary.sum, [sum, 0, 0]);
    assert_eq!(rt; summary.low, [low, 0, 0]);
    assert_eq!(rt; summary.high, [high, 0, 0]);
    let globals = eight_from(rt, first, low);
    assert_eq!(rt; summary.globals.as_slice(), globals.as_slice());
}

// So many joins, from id 2 at 1 on, one behind the other.
fn joins_of<R: AllocGlobal + Abort>(rt: &R, count: u32) -> Vec<Change> {
    let mut changes = Vec::new(rt.alloc());
    let mut x = 1i32;
    for id in 2..count.saturating_add(2) {
        let join = change_of(rt, Ask::Join(id, x));
        changes.push(join).expect(rt, "memory");
        x = x.saturating_add(1);
    }
    changes
}

// Looks at what so many joins on a leader alone, at 0, lead to.
fn check_joins<R: AllocGlobal + Abort>(
    rt: &R,
    count: u32,
    cut: Option<(i32, u32, u32)>,
    spans: &[Span],
) {
    let alone = Group::first(rt.alloc(), member_at(rt, 1, 0)).expect(rt, "memory");
    let turn = next_of(rt, &alone, &joins_of(rt, count));
    assert_eq!(rt; turn.cut, cut_of(rt, cut));
    assert_eq!(rt; turn.group.count(), spans.len());
    for span in spans {
        check_span(rt, &turn.group, *span);
    }
}

#[test]
fn members_who_join_a_leader_are_cut_above_48(rt: HostRuntime) {
    let whole = [(0, 1, 48, 1128, 0, 47)];
    check_joins(&rt, 47, None, &whole);
    let halves = [(0, 1, 25, 300, 0, 24), (1, 26, 24, 876, 25, 48)];
    check_joins(&rt, 48, Some((25, 26, 1)), &halves);
}

#[test]
fn as_many_as_may_join_at_once_are_cut(rt: HostRuntime) {
    let halves = [(0, 1, 33, 528, 0, 32), (1, 34, 32, 1552, 33, 64)];
    check_joins(&rt, 64, Some((33, 34, 1)), &halves);
}

// So many regions, of which region 0 has 49 members.
fn many_regions<R: AllocGlobal + Abort>(rt: &R, count: u32) -> Group {
    let mut rows = rows_of(rt, &[line_of(49)]);
    for region in 1..count {
        let first = region.saturating_mul(100);
        let line = Line(region, first, first.saturating_add(5), 1000, 0);
        push_line(rt, &mut rows, &line);
    }
    let none = Ids::new(rt.alloc());
    Group::from_rows(rt.alloc(), id_of(rt, 1), &rows, count, &none).expect(rt, "rows")
}

#[test]
fn of_64_regions_none_is_cut(rt: HostRuntime) {
    let turn = next_of(&rt, &many_regions(&rt, 63), &[]);
    assert_eq!(rt; turn.cut, cut_of(&rt, Some((25, 26, 63))));
    let turn = next_of(&rt, &many_regions(&rt, 64), &[]);
    assert_eq!(rt; turn.cut, None);
    assert_eq!(rt; turn.group.count(), 64);
}

#[test]
fn region_numbers_end(rt: HostRuntime) {
    let large = group_of(&rt, &[line_of(49)], u32::MAX);
    assert_eq!(rt; turn_of(&rt, &large, &[]).err(), Some(GroupFault::Spent));
    let small = group_of(&rt, &[line_of(48)], u32::MAX);
    assert!(rt; turn_of(&rt, &small, &[]).is_ok());
    let last = group_of(&rt, &[line_of(49)], u32::MAX - 1);
    let turn = next_of(&rt, &last, &[]);
    assert_eq!(rt; turn.group.next_region(), u32::MAX);
}

#[test]
fn changes_have_the_first_verdict_that_fits(rt: HostRuntime) {
    let group = line_group(&rt, 6, 9..10).expect(&rt, "rows");
    let cases = [
        (Ask::Join(9, 0), Verdict::Retired),
        (Ask::Join(2, 0), Verdict::Present),
        (Ask::Join(7, 0), Verdict::Accepted),
        (Ask::Leave(9), Verdict::Absent),
        (Ask::Leave(1), Verdict::Leader),
        (Ask::Leave(2), Verdict::Accepted),
        (Ask::Move(8, 1, 5), Verdict::Absent),
        (Ask::Move(1, 0, 5), Verdict::Leader),
        (Ask::Move(2, 0, 5), Verdict::Stale),
        (Ask::Move(2, 1, 5), Verdict::Accepted),
    ];
    check_verdicts(&rt, &group, &cases);
}

#[test]
fn retired_ids_leave_no_room(rt: HostRuntime) {
    let group = line_group(&rt, 6, 1001..17_379).expect(&rt, "rows");
    let cases = [
        (Ask::Join(1001, 0), Verdict::Retired),
        (Ask::Join(1, 0), Verdict::Present),
        (Ask::Join(7, 0), Verdict::Full),
    ];
    check_verdicts(&rt, &group, &cases);
}

#[test]
fn changes_are_judged_one_after_the_other(rt: HostRuntime) {
    let group = line_group(&rt, 1999, 0..0).expect(&rt, "rows");
    let asks = [
        Ask::Join(5001, 0),
        Ask::Join(5002, 0),
        Ask::Leave(2),
        Ask::Join(5003, 0),
    ];
    let changes = changes_of(&rt, &asks);
    let turn = next_of(&rt, &group, &changes);
    let verdicts = [
        Verdict::Accepted,
        Verdict::Full,
        Verdict::Accepted,
        Verdict::Accepted,
    ];
    for (i, (change, verdict)) in turn.verdicts.as_slice().iter().enumerate() {
        assert_eq!(rt; Some(change), changes.get(i));
        assert_eq!(rt; Some(verdict), verdicts.get(i));
    }
    assert_eq!(rt; turn.verdicts.len(), 4);
    assert_eq!(rt; turn.item.len(), 3);
}

#[test]
fn a_leaver_is_retired(rt: HostRuntime) {
    let group = group_of(&rt, &THREE_REGIONS, 3);
    let turn = next_of(&rt, &group, &changes_of(&rt, &[Ask::Leave(26)]));
    let gone = id_of(&rt, 26);
    assert!(rt; turn.group.is_retired(gone));
    assert_eq!(rt; turn.group.retired().as_slice(), [26].as_slice());
    assert_eq!(rt; turn.group.region_of(gone), None);
}

#[test]
fn a_mover_has_the_seq_of_its_move(rt: HostRuntime) {
    let group = group_of(&rt, &ONE_ALONE, 2);
    let turn = next_of(&rt, &group, &changes_of(&rt, &[Ask::Move(11, 4, 10)]));
    let rows = turn.group.rows().expect(&rt, "memory");
    let moved = Row {
        seq: 4,
        ..row_at(&rt, 0, 11, 10)
    };
    assert_eq!(rt; rows.as_slice().last(), Some(&moved));
    assert_eq!(rt; turn.group.region_of(moved.member.id), Some(moved.region));
}

// Looks at the fault of these rows, none of which has the leader.
fn check_fault<R: AllocGlobal + Abort>(
    rt: &R,
    rows: &[Row],
    next_region: u32,
    retired: &Ids,
    fault: RowsFault,
) {
    let group = Group::from_rows(rt.alloc(), id_of(rt, 999), rows, next_region, retired);
    assert_eq!(rt; group.err(), Some(fault));
}

#[test]
fn rows_have_the_first_fault_that_fits(rt: HostRuntime) {
    let none = Ids::new(rt.alloc());
    let falling = [row_at(&rt, 1, 2, 0), row_at(&rt, 0, 1, 0)];
    let twice = [row_at(&rt, 0, 1, 0), row_at(&rt, 1, 1, 0)];
    let sound = [row_at(&rt, 0, 1, 0), row_at(&rt, 1, 2, 0)];
    check_fault(&rt, &falling, 0, &none, RowsFault::Order);
    check_fault(&rt, &twice, 0, &none, RowsFault::Repeat(id_of(&rt, 1)));
    let retired = ids_of(&rt, 2..3);
    check_fault(&rt, &sound, 0, &retired, RowsFault::Repeat(id_of(&rt, 2)));
    check_fault(&rt, &sound, 1, &none, RowsFault::Region);
    check_fault(&rt, &one_in_each(&rt, 65), 65, &none, RowsFault::Size);
    check_fault(&rt, &sound, 2, &none, RowsFault::Leader);
}

// So many regions with a member each.
fn one_in_each<R: AllocGlobal + Abort>(rt: &R, count: u32) -> Vec<Row> {
    let mut rows = Vec::new(rt.alloc());
    for region in 0..count {
        let row = row_at(rt, region, region.saturating_add(1), 0);
        rows.push(row).expect(rt, "memory");
    }
    rows
}

#[test]
fn rows_are_refused_above_each_limit(rt: HostRuntime) {
    let none = Ids::new(rt.alloc());
    for (count, fault) in [(64, None), (65, Some(RowsFault::Size))] {
        let rows = one_in_each(&rt, count);
        let group = Group::from_rows(rt.alloc(), id_of(&rt, 1), &rows, count, &none);
        assert_eq!(rt; group.err(), fault);
    }
    let cases = [
        (2000, 5001, None),
        (2001, 5001, Some(RowsFault::Size)),
        (1, 21_384, None),
        (1, 21_385, Some(RowsFault::Size)),
    ];
    for (count, end, fault) in cases {
        assert_eq!(rt; line_group(&rt, count, 5001..end).err(), fault);
    }
}

#[test]
fn a_first_group_has_its_leader(rt: HostRuntime) {
    let group = Group::first(rt.alloc(), member_at(&rt, 1, 7)).expect(&rt, "memory");
    let copy = group.copy().expect(&rt, "memory");
    let rows = copy.rows().expect(&rt, "memory");
    assert_eq!(rt; rows.as_slice(), [row_at(&rt, 0, 1, 7)].as_slice());
    assert_eq!(rt; copy.next_region(), 1);
    let roll = copy.roll(region_of(&rt, 1)).expect(&rt, "memory");
    assert!(rt; roll.is_none());
    accepted_again();
    groups_have_no_fault();
    history_grows();
    history_is_bounded();
}

#[test]
fn lists_have_what_was_pushed(rt: HostRuntime) {
    let row = [row_at(&rt, 0, 1, 7)];
    let mut rows = RowList::new(rt.alloc());
    assert!(rt; rows.is_empty());
    rows.push(row[0]).expect(&rt, "memory");
    let copy = rows.copy().expect(&rt, "memory");
    assert_eq!(rt; copy.as_slice(), row.as_slice());
    let pair = [(change_of(&rt, Ask::Leave(1)), Verdict::Leader)];
    let mut verdicts = Verdicts::new(rt.alloc());
    verdicts.push(pair[0]).expect(&rt, "memory");
    let copy = verdicts.copy().expect(&rt, "memory");
    assert_eq!(rt; copy.as_slice(), pair.as_slice());
}
