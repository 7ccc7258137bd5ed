use crate::pairs::place;
use crate::{Next, Parts, View, ViewFault, next_summaries};
use cs_base::{
    Addr, Axis, Cut, Epoch, Ids, MOST_SUMMED, Member, Mode, NodeId, Point, RegionId, Split,
};
use cs_item::{Head, Part, PartKind, Picture, Regions, Rolls};
use cs_roll::{Roll, Sight, Summary};
use std::process::Abort;

// Members with the ids from the first to the last, all at this place on the first axis.
#[derive(Clone, Copy)]
struct Run(u32, u32, i32);

// A region with its members.
#[derive(Clone, Copy)]
struct Region<'a>(u32, &'a [Run]);

// What a part tells: who went out and who is here, or which region has whom.
#[derive(Clone, Copy)]
enum Told<'a> {
    Diff(&'a [u32], &'a [Run]),
    Whole(u32, &'a [Run]),
}

// The part of a region, with the coordinate, the id and the upper region of its cut.
#[derive(Clone, Copy)]
struct ToldPart<'a>(u32, Told<'a>, Option<(i32, u32, u32)>);

// The faults, in numbers.
#[derive(Clone, Copy)]
enum Fault {
    Epoch(u32, u32),
    Region(u32),
    Missing(u32),
    Part(u32),
    Roll(u32),
    Size,
    Absent,
}

// What a node becomes: one who knows these rolls, or departed, or there is a fault.
#[derive(Clone, Copy)]
enum Becomes<'a> {
    Member(&'a [Region<'a>]),
    Departed,
    Fault(Fault),
}

// The view of a Full node at epoch 3: the regions of its summaries, and the known rolls.
#[derive(Clone, Copy)]
struct Shown<'a>(&'a [Region<'a>], &'a [Region<'a>]);

// The lists of a head, its epoch first.
#[derive(Clone, Copy)]
struct HeadLists<'a> {
    epoch: u32,
    left: &'a [u32],
    dropped: &'a [u32],
    summaries: &'a [Region<'a>],
    touched: &'a [u32],
}

fn id_of(rt: &impl Abort, number: u32) -> NodeId {
    NodeId::new(number).expect(rt, "id")
}

fn epoch_of(rt: &impl Abort, number: u32) -> Epoch {
    Epoch::new(number).expect(rt, "epoch")
}

fn region_of(rt: &impl Abort, number: u32) -> RegionId {
    RegionId::new(number).expect(rt, "region")
}

fn member_of(rt: &impl Abort, number: u32, x: i32) -> Member {
    Member {
        id: id_of(rt, number),
        addr: Addr::new([127, 0, 0, 1], 9000).expect(rt, "address"),
        at: Point::new(x, 0, 0).expect(rt, "point"),
    }
}

fn insert_run(rt: &impl Abort, roll: &mut Roll, run: &Run) {
    let Run(first, last, x) = *run;
    for number in first..last.saturating_add(1) {
        roll.insert(member_of(rt, number, x)).expect(rt, "memory");
    }
}

fn roll_of<R: AllocGlobal + Abort>(rt: &R, runs: &[Run]) -> Roll {
    let mut roll = Roll::new(rt.alloc());
    for run in runs {
        insert_run(rt, &mut roll, run);
    }
    roll
}

fn summary_of(rt: &impl Abort, roll: &Roll) -> Summary {
    assert!(rt; !roll.is_empty());
    assert!(rt; roll.len() <= MOST_SUMMED as usize);
    roll.summary().expect(rt, "memory")
}

fn summaries_of<R: AllocGlobal + Abort>(rt: &R, regions: &[Region]) -> Regions {
    let mut summaries = Vec::new(rt.alloc());
    for Region(number, runs) in regions {
        let summary = summary_of(rt, &roll_of(rt, runs));
        place(&mut summaries, (region_of(rt, *number), summary)).expect(rt, "memory");
    }
    Regions::from_vec(summaries)
}

fn rolls_of<R: AllocGlobal + Abort>(rt: &R, regions: &[Region]) -> Rolls {
    let mut rolls = Vec::new(rt.alloc());
    for Region(number, runs) in regions {
        let roll = roll_of(rt, runs);
        place(&mut rolls, (region_of(rt, *number), roll)).expect(rt, "memory");
    }
    Rolls::from_vec(rolls)
}

fn picture_of<R: AllocGlobal + Abort>(rt: &R, shown: &Shown) -> Picture {
    Picture {
        epoch: epoch_of(rt, 3),
        summaries: summaries_of(rt, shown.0),
        rolls: rolls_of(rt, shown.1),
    }
}

fn ids_of<R: AllocGlobal + Abort>(rt: &R, numbers: &[u32]) -> Ids {
    let mut ids = Ids::new(rt.alloc());
    for number in numbers {
        ids.insert(*number).expect(rt, "memory");
    }
    ids
}

fn head_of<R: AllocGlobal + Abort>(rt: &R, lists: &HeadLists) -> Head {
    Head {
        epoch: epoch_of(rt, lists.epoch),
        left: ids_of(rt, lists.left),
        dropped: ids_of(rt, lists.dropped),
        summaries: summaries_of(rt, lists.summaries),
        touched: ids_of(rt, lists.touched),
    }
}

fn kind_of<R: AllocGlobal + Abort>(rt: &R, told: Told) -> PartKind {
    match told {
        Told::Diff(gone, here) => PartKind::Diff {
            gone: ids_of(rt, gone),
            here: roll_of(rt, here),
        },
        Told::Whole(into, runs) => PartKind::Whole {
            into: region_of(rt, into),
            roll: roll_of(rt, runs),
        },
    }
}

fn cut_of(rt: &impl Abort, cut: Option<(i32, u32, u32)>) -> Option<Cut> {
    let (at, number, upper) = cut?;
    let split = Split {
        axis: Axis::X,
        at,
        id: id_of(rt, number),
    };
    let upper = region_of(rt, upper);
    Some(Cut { split, upper })
}

fn parts_of<R: AllocGlobal + Abort>(rt: &R, told: &[ToldPart]) -> Parts {
    let mut parts = Parts::new(rt.alloc());
    for ToldPart(number, told, cut) in told {
        let part = Part {
            region: region_of(rt, *number),
            kind: kind_of(rt, *told),
            cut: cut_of(rt, *cut),
        };
        parts.put(part).expect(rt, "memory");
    }
    parts
}

fn fault_of(rt: &impl Abort, fault: Fault) -> ViewFault {
    match fault {
        Fault::Epoch(have, given) => ViewFault::Epoch {
            have: epoch_of(rt, have),
            given: epoch_of(rt, given),
        },
        Fault::Region(number) => ViewFault::Region(number),
        Fault::Missing(number) => ViewFault::Missing(region_of(rt, number)),
        Fault::Part(number) => ViewFault::Part(region_of(rt, number)),
        Fault::Roll(number) => ViewFault::Roll(region_of(rt, number)),
        Fault::Size => ViewFault::Size,
        Fault::Absent => ViewFault::Absent,
    }
}

// Looks at the known rolls of a view.
fn check_known<R: AllocGlobal + Abort>(rt: &R, view: &View, wanted: &[Region]) {
    let wanted = rolls_of(rt, wanted);
    assert_eq!(rt; view.known().len(), wanted.len());
    for (known, wanted) in view.known().iter().zip(wanted.as_slice()) {
        assert_eq!(rt; known.0, wanted.0);
        assert!(rt; known.1.is_same(&wanted.1));
    }
}

fn check_next<R: AllocGlobal + Abort>(rt: &R, next: &Result<Next, ViewFault>, wanted: &Becomes) {
    match (next, wanted) {
        (Ok(Next::Member(view)), Becomes::Member(known)) => check_known(rt, view, known),
        (Ok(Next::Departed), Becomes::Departed) => {}
        (Err(fault), Becomes::Fault(wanted)) => assert_eq!(rt; *fault, fault_of(rt, *wanted)),
        _ => assert!(rt; false),
    }
}

// Looks at what some nodes with this view become by these parts.
fn check_steps<R: AllocGlobal + Abort>(
    rt: &R,
    shown: &Shown,
    lists: &HeadLists,
    told: &[ToldPart],
    nodes: &[(u32, Mode, Becomes)],
) {
    let picture = picture_of(rt, shown);
    let head = head_of(rt, lists);
    let parts = parts_of(rt, told);
    for (number, mode, becomes) in nodes {
        let me = id_of(rt, *number);
        let view = View::take(rt.alloc(), me, Mode::Full, &picture).expect(rt, "view");
        let next = view.apply(me, *mode, &head, &parts);
        check_next(rt, &next, becomes);
        let summaries = next_summaries(rt.alloc(), view.regions(), &head).expect(rt, "memory");
        let next = view.apply_with(me, *mode, &head, &parts, summaries);
        check_next(rt, &next, becomes);
    }
}

// The members of regions 0, 1 and 2.
const AT_0: Run = Run(1, 6, 0);

const AT_200: Run = Run(11, 16, 200);

const AT_100: Run = Run(21, 26, 100);

const THREE_REGIONS: [Region<'static>; 3] = [
    Region(0, &[AT_0]),
    Region(1, &[AT_200]),
    Region(2, &[AT_100]),
];

const KNOWN_IS_2: Shown<'static> = Shown(&THREE_REGIONS, &[Region(2, &[AT_100])]);

// Node 26 left, and the five others of region 2 are in region 0.
const MERGED: [Run; 2] = [AT_0, Run(21, 25, 100)];

const MERGE: HeadLists<'static> = HeadLists {
    epoch: 4,
    left: &[26],
    dropped: &[2],
    summaries: &[Region(0, &MERGED)],
    touched: &[0, 2],
};

const WHOLE_OF_2: ToldPart<'static> = ToldPart(2, Told::Whole(0, &MERGED), None);

#[test]
fn a_merged_region_goes_by_the_other(rt: HostRuntime) {
    let nodes = [
        (21, Mode::Partial, Becomes::Member(&[Region(0, &MERGED)])),
        (26, Mode::Partial, Becomes::Departed),
    ];
    check_steps(&rt, &KNOWN_IS_2, &MERGE, &[WHOLE_OF_2], &nodes);
}

#[test]
fn a_cut_parts_the_roll(rt: HostRuntime) {
    let lower = Region(2, &[Run(21, 23, 100)]);
    let upper = Region(3, &[Run(24, 26, 100)]);
    let cut = HeadLists {
        epoch: 4,
        left: &[],
        dropped: &[],
        summaries: &[lower, upper],
        touched: &[2],
    };
    let parts = [ToldPart(2, Told::Diff(&[], &[]), Some((100, 24, 3)))];
    let nodes = [
        (21, Mode::Partial, Becomes::Member(&[lower])),
        (25, Mode::Partial, Becomes::Member(&[upper])),
        (25, Mode::Full, Becomes::Member(&[lower, upper])),
    ];
    check_steps(&rt, &KNOWN_IS_2, &cut, &parts, &nodes);
}

// Looks at the fault of a step by these parts of node 26, which left.
fn check_fault<R: AllocGlobal + Abort>(rt: &R, lists: &HeadLists, told: &[ToldPart], fault: Fault) {
    let nodes = [(26, Mode::Full, Becomes::Fault(fault))];
    check_steps(rt, &KNOWN_IS_2, lists, told, &nodes);
}

// Where a fault comes, some of the later ones fit too.
#[test]
fn a_step_has_its_first_fault(rt: HostRuntime) {
    let early = HeadLists {
        epoch: 5,
        touched: &[2, 7],
        ..MERGE
    };
    check_fault(&rt, &early, &[], Fault::Epoch(3, 5));
    let unlisted = HeadLists { epoch: 4, ..early };
    check_fault(&rt, &unlisted, &[], Fault::Region(7));
    let none_left = HeadLists {
        dropped: &[0, 1, 2],
        summaries: &[],
        ..MERGE
    };
    check_fault(&rt, &none_left, &[], Fault::Missing(2));
    let out_27 = ToldPart(2, Told::Diff(&[26, 27], &[]), None);
    check_fault(&rt, &none_left, &[out_27], Fault::Size);
    check_fault(&rt, &MERGE, &[out_27], Fault::Part(2));
    let out_26 = ToldPart(2, Told::Diff(&[26], &[]), None);
    check_fault(&rt, &MERGE, &[out_26], Fault::Roll(2));
}

// A Full node would keep 2,001 members, and a Partial one keeps the 6 of its region.
#[test]
fn the_kept_rolls_have_to_be_in_size(rt: HostRuntime) {
    let all = Shown(&THREE_REGIONS, &THREE_REGIONS);
    let large = [AT_200, Run(2_001, 3_983, 50)];
    let growth = HeadLists {
        epoch: 4,
        left: &[],
        dropped: &[],
        summaries: &[Region(1, &large)],
        touched: &[1],
    };
    let grown = [ToldPart(1, Told::Diff(&[], &[large[1]]), None)];
    let nodes = [
        (1, Mode::Full, Becomes::Fault(Fault::Size)),
        (1, Mode::Partial, Becomes::Member(&[Region(0, &[AT_0])])),
    ];
    check_steps(&rt, &all, &growth, &grown, &nodes);
}

// Looks at the fault of the picture that node 9 is to take.
fn check_taking<R: AllocGlobal + Abort>(rt: &R, shown: &Shown, fault: Fault) {
    let view = View::take(rt.alloc(), id_of(rt, 9), Mode::Full, &picture_of(rt, shown));
    assert_eq!(rt; view.err(), Some(fault_of(rt, fault)));
}

// Where a fault comes, the later ones fit too.
#[test]
fn a_picture_has_its_first_fault(rt: HostRuntime) {
    let known = [Region(2, &[AT_100, Run(27, 27, 100)])];
    check_taking(&rt, &Shown(&[], &known), Fault::Size);
    let many = [Region(3, &[Run(1_001, 3_001, 0)])];
    check_taking(&rt, &Shown(&THREE_REGIONS, &many), Fault::Size);
    check_taking(&rt, &Shown(&THREE_REGIONS, &known), Fault::Roll(2));
    check_taking(&rt, &KNOWN_IS_2, Fault::Absent);
}

// The region and the place on the first axis of a member.
fn seen(view: &View, id: NodeId) -> Option<(u32, i32)> {
    let (region, member) = view.place(id)?;
    Some((region.get(), member.at.axis(Axis::X)))
}

// Regions 0 and 1 both have id 2. Known is the roll of region 1.
const ONE_ID_TWICE: Shown<'static> = Shown(
    &[Region(0, &[Run(1, 2, 0)]), Region(1, &[Run(2, 3, 10)])],
    &[Region(1, &[Run(2, 3, 10)])],
);

#[test]
fn a_known_roll_comes_before_a_global(rt: HostRuntime) {
    let picture = picture_of(&rt, &ONE_ID_TWICE);
    let view = View::take(rt.alloc(), id_of(&rt, 3), Mode::Partial, &picture).expect(&rt, "view");
    for (number, place) in [(1, Some((0, 0))), (2, Some((1, 10))), (4, None)] {
        assert_eq!(rt; seen(&view, id_of(&rt, number)), place);
    }
}

#[test]
fn a_view_is_looked_up_by_id_and_region(rt: HostRuntime) {
    let picture = picture_of(&rt, &ONE_ID_TWICE);
    let view = View::take(rt.alloc(), id_of(&rt, 3), Mode::Partial, &picture).expect(&rt, "view");
    let (region, roll) = view.holder(id_of(&rt, 2)).expect(&rt, "holder");
    assert_eq!(rt; (region.get(), roll.len()), (1, 2));
    assert!(rt; view.holder(id_of(&rt, 1)).is_none());
    assert_eq!(rt; view.summaries().len(), 2);
    let listed = view.listed(region_of(&rt, 0)).expect(&rt, "region");
    assert_eq!(rt; listed.size, 2);
    assert!(rt; view.listed(region_of(&rt, 2)).is_none());
}

#[test]
fn a_view_is_shown_to_those_in_known_rolls(rt: HostRuntime) {
    let picture = picture_of(&rt, &ONE_ID_TWICE);
    let view = View::take(rt.alloc(), id_of(&rt, 3), Mode::Partial, &picture).expect(&rt, "view");
    let shown = view
        .shown_to(id_of(&rt, 2), Mode::Full)
        .expect(&rt, "memory");
    assert!(rt; shown.is_some());
    let hidden = view
        .shown_to(id_of(&rt, 1), Mode::Full)
        .expect(&rt, "memory");
    assert!(rt; hidden.is_none());
}

#[test]
fn a_copy_shows_the_same(rt: HostRuntime) {
    let picture = picture_of(&rt, &ONE_ID_TWICE);
    let view = View::take(rt.alloc(), id_of(&rt, 3), Mode::Partial, &picture).expect(&rt, "view");
    let copy = view.copy().expect(&rt, "memory");
    assert_eq!(rt; copy.epoch(), epoch_of(&rt, 3));
    assert!(rt; copy.roll(region_of(&rt, 0)).is_none());
    check_known(&rt, &copy, ONE_ID_TWICE.1);
    let shown = copy.picture(None).expect(&rt, "memory");
    assert_eq!(rt; shown.summaries.len(), 2);
    assert_eq!(rt; shown.rolls.len(), 1);
}
