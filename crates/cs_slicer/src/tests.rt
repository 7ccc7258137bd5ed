ghost use Rattle.std.specs.Prelude.{◌≡◌, ◌<◌, IsTrue, length};
ghost use Rattle.cs_base.specs.Ascending.{IsDistinctBy};
ghost use Rattle.cs_base.specs.Changes.{id_of};
ghost use Rattle.cs_group.specs.Rows.{regions};
ghost use Rattle.cs_slicer.specs.Slicer.{slices_in};
ghost use Rattle.cs_slicer.specs.Turn.{IsTurnOf};

use crate::{Slicer, joiners, slice};
use cs_base::{
    Addr, Axis, Change, Cut, Epoch, Ids, MOST_CHANGES, Member, NodeId, Point, RegionId, Split,
};
use cs_group::{Group, Row, Turn, accepted_again};
use cs_item::{Head, Part, PartKind, Slice};
use cs_roll::Roll;
use std::process::Abort;

// Rows of a region: its number, the first and the last id, where the first stands, and how far each stands behind the
// one before.
#[derive(Clone, Copy)]
struct Line(u32, u32, u32, i32, i32);

// Region 0 with members 1 to 6 at 0.
const SIX: Line = Line(0, 1, 6, 0, 0);

// What is asked for: a leave of an id, or the first move of an id to a place.
#[derive(Clone, Copy)]
enum Ask {
    Leave(u32),
    Move(u32, i32),
}

// What a part is to tell, by ids.
#[derive(Clone, Copy)]
enum Told<'a> {
    Same,
    Diff(&'a [u32], &'a [u32]),
    Whole(u32, &'a [u32]),
}

// A close, and what its slices are to tell: the lists of the head, the regions for the summaries, and the part of each
// region with the coordinate, the id and the upper region of its cut.
#[derive(Clone, Copy)]
struct Case<'a> {
    lines: &'a [Line],
    next_region: u32,
    asks: &'a [Ask],
    left: &'a [u32],
    dropped: &'a [u32],
    summaries: &'a [u32],
    touched: &'a [u32],
    parts: &'a [(Told<'a>, Option<(i32, u32, u32)>)],
}

fn id(rt: &impl Abort, id: u32) -> NodeId {
    NodeId::new(id).expect(rt, "id")
}

fn region(rt: &impl Abort, region: u32) -> RegionId {
    RegionId::new(region).expect(rt, "region")
}

fn point(rt: &impl Abort, x: i32) -> Point {
    Point::new(x, 0, 0).expect(rt, "point")
}

fn row(rt: &impl Abort, number: u32, member: u32, x: i32) -> Row {
    Row {
        region: region(rt, number),
        member: Member {
            id: id(rt, member),
            addr: Addr::new([127, 0, 0, 1], 9000).expect(rt, "address"),
            at: point(rt, x),
        },
        seq: 0,
    }
}

fn push_line(rt: &impl Abort, rows: &mut Vec<Row>, line: &Line) {
    let Line(number, first, last, mut x, step) = *line;
    for member in first..last.saturating_add(1) {
        rows.push(row(rt, number, member, x)).expect(rt, "memory");
        x = x.saturating_add(step);
    }
}

// The group of these rows, led by 1.
fn group_of<R: AllocGlobal + Abort>(rt: &R, lines: &[Line], next_region: u32) -> Group {
    let mut rows = Vec::new(rt.alloc());
    for line in lines {
        push_line(rt, &mut rows, line);
    }
    let retired = Ids::new(rt.alloc());
    Group::from_rows(rt.alloc(), id(rt, 1), &rows, next_region, &retired).expect(rt, "rows")
}

fn change(rt: &impl Abort, ask: Ask) -> Change {
    match ask {
        Ask::Leave(member) => Change::Leave { id: id(rt, member) },
        Ask::Move(member, x) => Change::Move {
            id: id(rt, member),
            seq: 1,
            at: point(rt, x),
        },
    }
}

fn changes_of<R: AllocGlobal + Abort>(rt: &R, asks: &[Ask]) -> Vec<Change> {
    let mut changes = Vec::new(rt.alloc());
    for ask in asks {
        changes.push(change(rt, *ask)).expect(rt, "memory");
    }
    changes
}

// Whether no id occurs twice.
fn are_distinct(changes: &[Change]) -> bool
    ensures { IsTrue result → IsDistinctBy id_of changes.now }
{
    for (i, c) in changes.iter().enumerate() {
        if changes[..i].iter().any(|d| d.id() == c.id()) {
            return false;
        }
    }
    true
}

// The turn of some changes.
fn turn_of(rt: &impl Abort, group: &Group, changes: &[Change]) -> Turn
    ensures { IsTurnOf group.now result }
{
    assert!(rt; changes.len() <= MOST_CHANGES);
    assert!(rt; are_distinct(changes));
    accepted_again();
    group.next(changes).expect(rt, "turn")
}

// The slice of the region at a place, as one of all.
fn slice_at(
    rt: &impl Abort,
    group: &Group,
    turn: &Turn,
    epoch: Epoch,
    slicer: &Slicer,
    i: usize,
) -> Slice
    requires of { slicer.now ≡ slices_in group.now turn.now epoch }
    requires there { i < length (regions group.now.rows) }
{
    slicer.slice(group.region(i)).expect(rt, "memory")
}

// The slice of the region at a place, alone.
fn slice_alone<R: AllocGlobal + Abort>(
    rt: &R,
    group: &Group,
    turn: &Turn,
    epoch: Epoch,
    i: usize,
) -> Slice
    requires turn { IsTurnOf group.now turn.now }
    requires there { i < length (regions group.now.rows) }
{
    slice(rt.alloc(), group, turn, group.region(i), epoch).expect(rt, "memory")
}

fn ids_of<R: AllocGlobal + Abort>(rt: &R, roll: &Roll) -> Vec<u32> {
    let mut ids = Vec::new(rt.alloc());
    for member in roll.as_slice() {
        ids.push(member.id.get()).expect(rt, "memory");
    }
    ids
}

fn regions_of<R: AllocGlobal + Abort>(rt: &R, head: &Head) -> Vec<u32> {
    let mut regions = Vec::new(rt.alloc());
    for (region, _) in head.summaries.as_slice() {
        regions.push(region.get()).expect(rt, "memory");
    }
    regions
}

fn check_head<R: AllocGlobal + Abort>(rt: &R, head: &Head, case: &Case) {
    assert_eq!(rt; head.epoch.get(), 7);
    assert_eq!(rt; head.left.as_slice(), case.left);
    assert_eq!(rt; head.dropped.as_slice(), case.dropped);
    assert_eq!(rt; regions_of(rt, head).as_slice(), case.summaries);
    assert_eq!(rt; head.touched.as_slice(), case.touched);
}

fn cut_of(rt: &impl Abort, cut: Option<(i32, u32, u32)>) -> Option<Cut> {
    let (at, member, upper) = cut?;
    let split = Split {
        axis: Axis::X,
        at,
        id: id(rt, member),
    };
    let upper = region(rt, upper);
    Some(Cut { split, upper })
}

fn check_kind<R: AllocGlobal + Abort>(rt: &R, kind: &PartKind, told: Told) {
    match (kind, told) {
        (PartKind::Same, Told::Same) => {}
        (PartKind::Diff { gone, here }, Told::Diff(out, new)) => {
            assert_eq!(rt; gone.as_slice(), out);
            assert_eq!(rt; ids_of(rt, here).as_slice(), new);
        }
        (PartKind::Whole { into, roll }, Told::Whole(target, members)) => {
            assert_eq!(rt; into.get(), target);
            assert_eq!(rt; ids_of(rt, roll).as_slice(), members);
        }
        _ => assert!(rt; false),
    }
}

fn check_part<R: AllocGlobal + Abort>(rt: &R, part: &Part, told: &(Told, Option<(i32, u32, u32)>)) {
    check_kind(rt, &part.kind, told.0);
    assert_eq!(rt; part.cut, cut_of(rt, told.1));
}

// Looks at each slice, and at the first one alone.
fn check_slices<R: AllocGlobal + Abort>(rt: &R, case: &Case) {
    let group = group_of(rt, case.lines, case.next_region);
    let turn = turn_of(rt, &group, &changes_of(rt, case.asks));
    let epoch = Epoch::new(7).expect(rt, "epoch");
    let slicer = Slicer::new(rt.alloc(), &group, &turn, epoch).expect(rt, "memory");
    assert_eq!(rt; group.count(), case.parts.len());
    for (i, told) in case.parts.iter().enumerate() {
        let one = slice_at(rt, &group, &turn, epoch, &slicer, i);
        check_head(rt, &one.head, case);
        check_part(rt, &one.part, told);
        let alone = slice_alone(rt, &group, &turn, epoch, i);
        check_part(rt, &alone.part, told);
    }
}

#[test]
fn a_merge_is_told_to_three_regions(rt: HostRuntime) {
    let case = Case {
        lines: &[SIX, Line(1, 11, 16, 200, 0), Line(2, 21, 26, 100, 0)],
        next_region: 3,
        asks: &[Ask::Leave(26)],
        left: &[26],
        dropped: &[2],
        summaries: &[0],
        touched: &[0, 2],
        parts: &[
            (Told::Diff(&[], &[21, 22, 23, 24, 25]), None),
            (Told::Same, None),
            (
                Told::Whole(0, &[1, 2, 3, 4, 5, 6, 21, 22, 23, 24, 25]),
                None,
            ),
        ],
    };
    check_slices(&rt, &case);
}

#[test]
fn a_cut_is_told_to_the_merged_region_too(rt: HostRuntime) {
    let cut = Some((26, 27, 2));
    let all = [
        1, 2, 3, 4, 5, 6, 7, 8, 9, 10, 11, 12, 13, 14, 15, 16, 17, 18, 19, 20, 21, 22, 23, 24, 25,
        26, 27, 28, 29, 30, 31, 32, 33, 34, 35, 36, 37, 38, 39, 40, 41, 42, 43, 44, 45, 46, 101,
        102, 103, 104, 105,
    ];
    let case = Case {
        lines: &[Line(0, 1, 46, 0, 1), Line(1, 101, 106, 1000, 0)],
        next_region: 2,
        asks: &[Ask::Leave(106)],
        left: &[106],
        dropped: &[1],
        summaries: &[0, 2],
        touched: &[0, 1],
        parts: &[
            (Told::Diff(&[], &[101, 102, 103, 104, 105]), cut),
            (Told::Whole(0, &all), cut),
        ],
    };
    check_slices(&rt, &case);
}

#[test]
fn a_mover_is_told(rt: HostRuntime) {
    let to_another = Case {
        lines: &[SIX, Line(1, 11, 17, 200, 0)],
        next_region: 2,
        asks: &[Ask::Move(17, 0)],
        left: &[],
        dropped: &[],
        summaries: &[0, 1],
        touched: &[0, 1],
        parts: &[
            (Told::Diff(&[], &[17]), None),
            (Told::Diff(&[17], &[]), None),
        ],
    };
    check_slices(&rt, &to_another);
    let within = Case {
        lines: &[SIX, Line(1, 11, 17, 200, 0)],
        next_region: 2,
        asks: &[Ask::Move(17, 210)],
        left: &[],
        dropped: &[],
        summaries: &[1],
        touched: &[1],
        parts: &[(Told::Same, None), (Told::Diff(&[], &[17]), None)],
    };
    check_slices(&rt, &within);
}

#[test]
fn a_region_without_members_is_dropped(rt: HostRuntime) {
    let by_a_mover = Case {
        lines: &[SIX, Line(1, 11, 11, 500, 0)],
        next_region: 2,
        asks: &[Ask::Move(11, 0)],
        left: &[],
        dropped: &[1],
        summaries: &[0],
        touched: &[0],
        parts: &[(Told::Diff(&[], &[11]), None), (Told::Same, None)],
    };
    check_slices(&rt, &by_a_mover);
    let by_a_leaver = Case {
        lines: &[SIX, Line(1, 11, 11, 500, 0)],
        next_region: 2,
        asks: &[Ask::Leave(11)],
        left: &[11],
        dropped: &[1],
        summaries: &[],
        touched: &[],
        parts: &[(Told::Same, None), (Told::Same, None)],
    };
    check_slices(&rt, &by_a_leaver);
}

// Joins are about ids in another order than the roll's.
#[test]
fn those_that_join_are_ascending(rt: HostRuntime) {
    let item = [
        Change::Join(row(&rt, 0, 9, 0).member),
        change(&rt, Ask::Leave(8)),
        Change::Join(row(&rt, 0, 7, 0).member),
        change(&rt, Ask::Move(6, 1)),
    ];
    let roll = joiners(rt.alloc(), &item).expect(&rt, "memory");
    assert_eq!(rt; ids_of(&rt, &roll).as_slice(), [7, 9].as_slice());
}
