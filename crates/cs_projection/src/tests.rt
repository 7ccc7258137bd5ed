ghost use Rattle.std.specs.Prelude.{◌≡◌, ◌<◌, length};
ghost use Rattle.cs_group.specs.Rows.{regions};
ghost use Rattle.cs_slicer.specs.Slicer.{slices_in};
ghost use Rattle.cs_slicer.specs.Turn.{IsTurnOf};

use crate::next_is_a_turn;
use cs_base::{
    Addr, Axis, Change, Epoch, Ids, MOST_SUMMED, Member, Mode, NodeId, Point, RegionId, total_on,
};
use cs_group::{Group, Row, Turn};
use cs_item::{Picture, Regions, Rolls, Slice};
use cs_roll::{Roll, Summary};
use cs_slicer::Slicer;
use cs_view::{Next, Parts, View, ViewFault};
use std::process::Abort;

// Rows of a region: its number, the first and the last id, where the first stands, and how far each stands behind the
// one before.
#[derive(Clone, Copy)]
struct Line(u32, u32, u32, i32, i32);

// Region 0 with members 1 to 6 at 0.
const SIX: Line = Line(0, 1, 6, 0, 0);

// What is asked for: a leave of an id, or the first move of an id to a place.
#[derive(Clone, Copy)]
enum Ask {
    Leave(u32),
    Move(u32, i32),
}

// The close of a group.
#[derive(Clone, Copy)]
struct Case<'a> {
    lines: &'a [Line],
    next_region: u32,
    ask: Ask,
}

// A group, and the slices for all its regions that its close leads to.
#[derive(Drop)]
struct Closed {
    group: Group,
    slices: Vec<Slice>,
}

// A node, and the region whose roll it knows, with a further one.
#[derive(Clone, Copy)]
struct Knower(u32, Mode, u32, Option<u32>);

// A known region with its number of members and the sum of their places on the first axis.
type Size = (u32, usize, i64);

// What a node knows after a close, where it doesn't depart.
type After<'a> = (Knower, Option<&'a [Size]>);

fn id_of(rt: &impl Abort, number: u32) -> NodeId {
    NodeId::new(number).expect(rt, "id")
}

fn epoch_of(rt: &impl Abort, number: u32) -> Epoch {
    Epoch::new(number).expect(rt, "epoch")
}

fn region_of(rt: &impl Abort, number: u32) -> RegionId
    ensures { result ≡ number }
{
    RegionId::new(number).expect(rt, "region")
}

fn point_of(rt: &impl Abort, x: i32) -> Point {
    Point::new(x, 0, 0).expect(rt, "point")
}

fn row_of(rt: &impl Abort, number: u32, member: u32, x: i32) -> Row {
    Row {
        region: region_of(rt, number),
        member: Member {
            id: id_of(rt, member),
            addr: Addr::new([127, 0, 0, 1], 9000).expect(rt, "address"),
            at: point_of(rt, x),
        },
        seq: 0,
    }
}

fn push_line(rt: &impl Abort, rows: &mut Vec<Row>, line: &Line) {
    let Line(number, first, last, mut x, step) = *line;
    for member in first..last.saturating_add(1) {
        rows.push(row_of(rt, number, member, x))
            .expect(rt, "memory");
        x = x.saturating_add(step);
    }
}

// The group of these rows, led by 1.
fn group_of<R: AllocGlobal + Abort>(rt: &R, case: &Case) -> Group {
    let mut rows = Vec::new(rt.alloc());
    for line in case.lines {
        push_line(rt, &mut rows, line);
    }
    let retired = Ids::new(rt.alloc());
    Group::from_rows(rt.alloc(), id_of(rt, 1), &rows, case.next_region, &retired).expect(rt, "rows")
}

fn change_of(rt: &impl Abort, ask: Ask) -> Change {
    match ask {
        Ask::Leave(member) => Change::Leave {
            id: id_of(rt, member),
        },
        Ask::Move(member, x) => Change::Move {
            id: id_of(rt, member),
            seq: 1,
            at: point_of(rt, x),
        },
    }
}

fn turn_of(rt: &impl Abort, group: &Group, change: Change) -> Turn
    ensures { IsTurnOf group.now result }
{
    next_is_a_turn();
    group.next(&[change]).expect(rt, "turn")
}

fn slice_at(
    rt: &impl Abort,
    group: &Group,
    turn: &Turn,
    epoch: Epoch,
    slicer: &Slicer,
    i: usize,
) -> Slice
    requires of { slicer.now ≡ slices_in group.now turn.now epoch }
    requires there { i < length (regions group.now.rows) }
{
    slicer.slice(group.region(i)).expect(rt, "memory")
}

// The slices of the turn to epoch 7.
fn slices_of<R: AllocGlobal + Abort>(rt: &R, group: &Group, turn: &Turn) -> Vec<Slice>
    requires { IsTurnOf group.now turn.now }
{
    let epoch = epoch_of(rt, 7);
    let slicer = Slicer::new(rt.alloc(), group, turn, epoch).expect(rt, "memory");
    let mut slices = Vec::new(rt.alloc());
    for i in 0..group.count() {
        let slice = slice_at(rt, group, turn, epoch, &slicer, i);
        slices.push(slice).expect(rt, "memory");
    }
    slices
}

fn close<R: AllocGlobal + Abort>(rt: &R, case: &Case) -> Closed {
    let group = group_of(rt, case);
    let turn = turn_of(rt, &group, change_of(rt, case.ask));
    let slices = slices_of(rt, &group, &turn);
    Closed { group, slices }
}

fn parts_of<R: AllocGlobal + Abort>(rt: &R, slices: &[Slice]) -> Parts {
    let mut parts = Parts::new(rt.alloc());
    for slice in slices {
        let part = slice.part.copy().expect(rt, "memory");
        parts.put(part).expect(rt, "memory");
    }
    parts
}

fn roll_of(rt: &impl Abort, group: &Group, number: u32) -> Roll {
    let roll = group.roll(region_of(rt, number)).expect(rt, "memory");
    roll.expect(rt, "region")
}

fn summary_of(rt: &impl Abort, group: &Group, number: u32) -> Summary {
    let roll = roll_of(rt, group, number);
    assert!(rt; !roll.is_empty());
    assert!(rt; roll.len() <= MOST_SUMMED as usize);
    roll.summary().expect(rt, "memory")
}

// The summaries of the two or three regions of a group.
fn summaries_of<R: AllocGlobal + Abort>(rt: &R, group: &Group) -> Regions {
    let mut summaries = Regions::new(rt.alloc());
    let zero = (region_of(rt, 0), summary_of(rt, group, 0));
    summaries.push(zero).expect(rt, "memory");
    let one = (region_of(rt, 1), summary_of(rt, group, 1));
    summaries.push(one).expect(rt, "memory");
    if group.count() > 2 {
        let two = (region_of(rt, 2), summary_of(rt, group, 2));
        summaries.push(two).expect(rt, "memory");
    }
    summaries
}

fn rolls_of<R: AllocGlobal + Abort>(rt: &R, group: &Group, knower: &Knower) -> Rolls {
    let mut rolls = Rolls::new(rt.alloc());
    let Knower(_, _, number, further) = *knower;
    let known = (region_of(rt, number), roll_of(rt, group, number));
    rolls.push(known).expect(rt, "memory");
    if let Some(further) = further {
        assert!(rt; number < further);
        let known = (region_of(rt, further), roll_of(rt, group, further));
        rolls.push(known).expect(rt, "memory");
    }
    rolls
}

// The view of the group at epoch 6.
fn view_of<R: AllocGlobal + Abort>(rt: &R, group: &Group, knower: &Knower) -> View {
    let picture = Picture {
        epoch: epoch_of(rt, 6),
        summaries: summaries_of(rt, group),
        rolls: rolls_of(rt, group, knower),
    };
    View::take(rt.alloc(), id_of(rt, knower.0), knower.1, &picture).expect(rt, "view")
}

// What a node becomes by these parts.
fn step<R: AllocGlobal + Abort>(
    rt: &R,
    closed: &Closed,
    knower: &Knower,
    parts: &Parts,
) -> Result<Next, ViewFault> {
    let slice = closed.slices.first().expect(rt, "slice");
    let view = view_of(rt, &closed.group, knower);
    view.apply(id_of(rt, knower.0), knower.1, &slice.head, parts)
}

fn check_view(rt: &impl Abort, view: &View, sizes: &[Size]) {
    assert_eq!(rt; view.epoch().get(), 7);
    assert_eq!(rt; view.known().len(), sizes.len());
    for ((region, roll), size) in view.known().iter().zip(sizes) {
        assert!(rt; roll.len() <= MOST_SUMMED as usize);
        let sum = total_on(roll.as_slice(), Axis::X);
        assert_eq!(rt; (region.get(), roll.len(), sum), *size);
    }
}

// Looks at what each of some nodes knows after the close.
fn check_steps<R: AllocGlobal + Abort>(rt: &R, case: &Case, nodes: &[After]) {
    let closed = close(rt, case);
    let parts = parts_of(rt, &closed.slices);
    for (knower, sizes) in nodes {
        let next = step(rt, &closed, knower, &parts).expect(rt, "step");
        match (&next, sizes) {
            (Next::Member(view), Some(sizes)) => check_view(rt, view, sizes),
            (Next::Departed, None) => {}
            _ => assert!(rt; false),
        }
    }
}

// A node that knows regions 0 and 1.
const FULL: Knower = Knower(1, Mode::Full, 0, Some(1));

// Region 2 is merged into region 0.
const MERGE: Case<'static> = Case {
    lines: &[SIX, Line(1, 11, 16, 200, 0), Line(2, 21, 26, 100, 0)],
    next_region: 3,
    ask: Ask::Leave(26),
};

#[test]
fn a_merged_region_goes_by_the_other(rt: HostRuntime) {
    let nodes: &[After] = &[
        (Knower(1, Mode::Partial, 0, None), Some(&[(0, 11, 500)])),
        (Knower(11, Mode::Partial, 1, None), Some(&[(1, 6, 1200)])),
        (Knower(21, Mode::Partial, 2, None), Some(&[(0, 11, 500)])),
        (Knower(26, Mode::Partial, 2, None), None),
    ];
    check_steps(&rt, &MERGE, nodes);
}

#[test]
fn a_known_region_needs_its_part(rt: HostRuntime) {
    let closed = close(&rt, &MERGE);
    let none = Parts::new(rt.alloc());
    let fault = step(&rt, &closed, &Knower(21, Mode::Partial, 2, None), &none).err();
    assert_eq!(rt; fault, Some(ViewFault::Missing(region_of(&rt, 2))));
}

// Region 1 is merged into region 0, which is cut then: the upper members are region 2.
#[test]
fn a_cut_region_goes_by_its_own_half(rt: HostRuntime) {
    let case = Case {
        lines: &[Line(0, 1, 46, 0, 1), Line(1, 101, 106, 1000, 0)],
        next_region: 2,
        ask: Ask::Leave(106),
    };
    let nodes: &[After] = &[
        (Knower(1, Mode::Partial, 0, None), Some(&[(0, 26, 325)])),
        (Knower(40, Mode::Partial, 0, None), Some(&[(2, 25, 5710)])),
        (Knower(101, Mode::Partial, 1, None), Some(&[(2, 25, 5710)])),
        (FULL, Some(&[(0, 26, 325), (2, 25, 5710)])),
    ];
    check_steps(&rt, &case, nodes);
}

// A Partial node that moves to a region that it doesn't know knows none.
#[test]
fn a_mover_goes_to_its_region(rt: HostRuntime) {
    let to_another = Case {
        lines: &[SIX, Line(1, 11, 17, 200, 0)],
        next_region: 2,
        ask: Ask::Move(17, 0),
    };
    let nodes: &[After] = &[
        (Knower(11, Mode::Partial, 1, None), Some(&[(1, 6, 1200)])),
        (Knower(17, Mode::Partial, 1, None), Some(&[])),
        (FULL, Some(&[(0, 7, 0), (1, 6, 1200)])),
    ];
    check_steps(&rt, &to_another, nodes);
    let within = Case {
        ask: Ask::Move(17, 210),
        ..to_another
    };
    let nodes: &[After] = &[(Knower(17, Mode::Partial, 1, None), Some(&[(1, 7, 1410)]))];
    check_steps(&rt, &within, nodes);
}

#[test]
fn a_region_without_members_is_dropped(rt: HostRuntime) {
    let by_a_mover = Case {
        lines: &[SIX, Line(1, 11, 11, 500, 0)],
        next_region: 2,
        ask: Ask::Move(11, 0),
    };
    let nodes: &[After] = &[
        (Knower(11, Mode::Partial, 1, None), Some(&[])),
        (FULL, Some(&[(0, 7, 0)])),
    ];
    check_steps(&rt, &by_a_mover, nodes);
    let by_a_leaver = Case {
        ask: Ask::Leave(11),
        ..by_a_mover
    };
    let nodes: &[After] = &[
        (Knower(11, Mode::Partial, 1, None), None),
        (FULL, Some(&[(0, 6, 0)])),
    ];
    check_steps(&rt, &by_a_leaver, nodes);
}
