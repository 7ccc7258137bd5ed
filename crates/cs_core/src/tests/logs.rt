// What the entries of a log make of a node, and which of them don't continue the ones before.
ghost use Rattle.cs_packet.specs.EntryField.{IsEntry};

use super::fields::{Fields, M1, M2, OTHER_0_OF_0_1, R0, R1, REGIONS, ROLL_0, ROLL_1, ROLLS, SAME};
use super::steps::{at_5, joined, node_2};
use crate::{Follower, Resumed};
use cs_base::Mode;
use cs_packet::{Entry, decode_entry};
use std::process::Abort;

// What an entry leads to: a member at this epoch, one that left, or a log that breaks.
#[derive(Clone, Copy, Debug, PartialEq, Eq)]
enum Leads {
    Member(u32),
    Gone,
    Breaks,
}

const BOOT: Fields = &[
    "01 00 00000002 7f000001 232a 0000000a 00000000 00000000 00 00000001 7f000001 2329",
];

const SEQ_1: Fields = &["02 00000001 00000014 00000000 00000000"];

const SEQ_2: Fields = &["02 00000002 00000014 00000000 00000000"];

const SEQ_3: Fields = &["02 00000003 00000014 00000000 00000000"];

const GONE: Fields = &["05 00000005"];

const ITEM: Fields = &["06 00000001 00"];
// To epoch 6, in which nothing changes.
const STEP: Fields = &["04 01 0000000d 00000006", R0, SAME];

const TWO_HEADS: Fields = &[
    "04 02 00000019 00000006",
    R0,
    "01 00000009 00 00 02",
    R0,
    R1,
    "00",
    "00000015 00000006",
    R1,
    "00 00 00 02",
    R0,
    R1,
    "00",
];

const ONE_HEAD: Fields = &[
    "04 02 00000015 00000006",
    R0,
    "00 00 00 02",
    R0,
    R1,
    "00",
    "00000015 00000006",
    R1,
    "00 00 00 02",
    R0,
    R1,
    "00",
];
// To epoch 7; one that leaves no region; one by which node 2 leaves.
const TOO_FAR: Fields = &["04 01 0000000d 00000007", R0, SAME];

const NO_REGION: Fields = &[
    "04 01 00000019 00000006",
    R0,
    "00 03",
    R0,
    R1,
    "00000002",
    "00 00 00",
];

const LEAVES: Fields = &["04 01 00000011 00000006", R0, "01 00000002 00 00 00 00"];

fn view<R: AllocGlobal + Abort>(rt: &R, epoch: &str, rolls: Fields) -> Vec<u8> {
    let mut bytes = joined(rt, &["03", epoch]);
    bytes
        .extend_from_slice(&joined(rt, REGIONS))
        .expect(rt, "memory");
    bytes
        .extend_from_slice(&joined(rt, rolls))
        .expect(rt, "memory");
    bytes
}

fn entry_of<R: AllocGlobal + Abort>(rt: &R, bytes: &[u8]) -> Entry
    ensures { IsEntry result }
{
    decode_entry(rt.alloc(), bytes).expect(rt, "entry")
}

fn resumed<R: AllocGlobal + Abort>(rt: &R, node: &Follower, bytes: &[u8]) -> Resumed {
    let entry = entry_of(rt, bytes);
    match node.resume(&entry) {
        Ok(resumed) => resumed,
        Err(_) => node.resume(&entry).expect(rt, "memory"),
    }
}

fn led_to(rt: &impl Abort, resumed: &Resumed) -> Leads {
    match resumed {
        Resumed::Next(node) => Leads::Member(node.view().expect(rt, "view").epoch().get()),
        Resumed::Gone => Leads::Gone,
        Resumed::Breaks => Leads::Breaks,
    }
}

fn check<R: AllocGlobal + Abort>(rt: &R, node: &Follower, bytes: &[u8], to: Leads) {
    assert_eq!(rt; led_to(rt, &resumed(rt, node, bytes)), to);
}

fn check_each<R: AllocGlobal + Abort>(rt: &R, node: &Follower, rows: &[(Fields, Leads)]) {
    for (fields, to) in rows {
        check(rt, node, &joined(rt, fields), *to);
    }
}

fn after<R: AllocGlobal + Abort>(rt: &R, node: &Follower, fields: Fields) -> Follower {
    match resumed(rt, node, &joined(rt, fields)) {
        Resumed::Next(next) => next,
        _ => panic!(rt; "no node goes on"),
    }
}

#[test]
fn a_joining_node_goes_on_by_a_view_or_leaves(rt: HostRuntime) {
    let node = node_2(&rt, Mode::Partial);
    let rows = [
        (BOOT, Leads::Breaks),
        (SEQ_1, Leads::Breaks),
        (STEP, Leads::Breaks),
        (GONE, Leads::Gone),
        (ITEM, Leads::Breaks),
    ];
    check_each(&rt, &node, &rows);
    check(&rt, &node, &view(&rt, "00000000", ROLL_0), Leads::Member(0));
    check(&rt, &node, &view(&rt, "00000005", ROLL_1), Leads::Breaks);
    // a Partial node would keep one roll of the three, and a Full node keeps all
    check(&rt, &node, &view(&rt, "00000005", ROLLS), Leads::Breaks);
    let full = node_2(&rt, Mode::Full);
    check(&rt, &full, &view(&rt, "00000005", ROLLS), Leads::Member(5));
}

#[test]
fn a_member_goes_on_by_what_continues_its_log(rt: HostRuntime) {
    let node = at_5(&rt, Mode::Full);
    let rows = [
        (BOOT, Leads::Breaks),
        (SEQ_1, Leads::Member(5)),
        (SEQ_2, Leads::Breaks),
        (STEP, Leads::Member(6)),
        (ONE_HEAD, Leads::Member(6)),
        (TWO_HEADS, Leads::Breaks),
        (TOO_FAR, Leads::Breaks),
        (NO_REGION, Leads::Breaks),
        (LEAVES, Leads::Breaks),
        (GONE, Leads::Gone),
        (ITEM, Leads::Breaks),
    ];
    check_each(&rt, &node, &rows);
    check(&rt, &node, &view(&rt, "00000004", ROLLS), Leads::Breaks);
    check(&rt, &node, &view(&rt, "00000005", ROLLS), Leads::Member(5));
    check(&rt, &node, &view(&rt, "00000009", ROLL_0), Leads::Member(9));
}

// The number of the last move stays at a step.
#[test]
fn moves_are_logged_one_after_the_other(rt: HostRuntime) {
    let node = after(&rt, &at_5(&rt, Mode::Partial), SEQ_1);
    let node = after(&rt, &node, STEP);
    let rows = [
        (SEQ_1, Leads::Breaks),
        (SEQ_2, Leads::Member(6)),
        (SEQ_3, Leads::Breaks),
    ];
    check_each(&rt, &node, &rows);
}
