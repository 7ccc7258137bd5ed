// What the entries of a log make of the leader, and which of them don't continue the ones before.
ghost use Rattle.cs_packet.specs.EntryField.{IsEntry};

use super::fields::{Fields, JOIN_2, JOIN_3, LEAVE_2};
use super::steps::{Came, Row, after_all, joined, leader_1};
use crate::{LeadResumed, Leader};
use cs_packet::{Entry, decode_entry};
use std::process::Abort;

const BOOT: Fields = &[
    "01 01 00000001 7f000001 2329 00000000 00000000 00000000 01 00000001 7f000001 2329",
];

const SEQ: Fields = &["02 00000001 00000014 00000000 00000000"];

const VIEW: Fields = &[
    "03 00000001 01 00000000 00000001 0000000000000000 0000000000000000 0000000000000000",
    "00000000 00000000 00000000 00000000 00000000 00000000 01",
    "00000001 7f000001 2329 00000000 00000000 00000000 00",
];

const STEP: Fields = &["04 01 0000000d 00000001 00000000 00 00 00 00 00"];

const GONE: Fields = &["05 00000001"];

// Items of epochs 1, 2 and 3 with no change, and of 1 and 2 with some.
const ITEM_1: Fields = &["06 00000001 00"];

const ITEM_2: Fields = &["06 00000002 00"];

const ITEM_3: Fields = &["06 00000003 00"];

const JOINS_AT_1: Fields = &["06 00000001 02", JOIN_2, JOIN_3];

const JOIN_AT_2: Fields = &["06 00000002 01", JOIN_2];

const LEAVE_AT_1: Fields = &["06 00000001 01", LEAVE_2];

const LEAVE_AT_2: Fields = &["06 00000002 01", LEAVE_2];

// A join that is accepted, and a leave that isn't.
const JOIN_AND_LEAVE: Fields = &["06 00000001 02", JOIN_3, LEAVE_2];

fn entry_of<R: AllocGlobal + Abort>(rt: &R, bytes: &[u8]) -> Entry
    ensures { IsEntry result }
{
    decode_entry(rt.alloc(), bytes).expect(rt, "entry")
}

fn resumed<R: AllocGlobal + Abort>(rt: &R, leader: &Leader, fields: Fields) -> LeadResumed {
    let entry = entry_of(rt, &joined(rt, fields));
    match leader.resume(&entry) {
        Ok(resumed) => resumed,
        Err(_) => leader.resume(&entry).expect(rt, "memory"),
    }
}

// The epoch of the leader after an entry, where it goes on.
fn led_to(resumed: &LeadResumed) -> Option<u32> {
    match resumed {
        LeadResumed::Next(leader) => Some(leader.view().epoch().get()),
        LeadResumed::Breaks => None,
    }
}

/// The epochs of the leaders that entries lead to, where they go on.
pub(crate) fn check_each<R: AllocGlobal + Abort>(
    rt: &R,
    leader: &Leader,
    rows: &[(Fields, Option<u32>)],
) {
    for (fields, to) in rows {
        assert_eq!(rt; led_to(&resumed(rt, leader, fields)), *to);
    }
}

/// The leader after an entry, with which it goes on.
pub(crate) fn after<R: AllocGlobal + Abort>(rt: &R, leader: &Leader, fields: Fields) -> Leader {
    match resumed(rt, leader, fields) {
        LeadResumed::Next(next) => next,
        LeadResumed::Breaks => panic!(rt; "no leader goes on"),
    }
}

#[test]
fn a_leader_goes_on_by_items(rt: HostRuntime) {
    let leader = leader_1(&rt);
    let rows = [
        (BOOT, None),
        (SEQ, None),
        (VIEW, None),
        (STEP, None),
        (GONE, None),
        (ITEM_1, Some(1)),
        (ITEM_2, None),
        (JOINS_AT_1, Some(1)),
        (LEAVE_AT_1, None),
        (JOIN_AND_LEAVE, None),
    ];
    check_each(&rt, &leader, &rows);
    let rows = [
        (ITEM_1, None),
        (ITEM_2, Some(2)),
        (ITEM_3, None),
        (JOIN_AT_2, None),
        (LEAVE_AT_2, Some(2)),
    ];
    check_each(&rt, &after(&rt, &leader, JOINS_AT_1), &rows);
}

// What was pending is lost.
#[test]
fn a_leader_closes_after_a_crash(rt: HostRuntime) {
    const NOTED: &[Row] = &[Row(Came::Packet(1, 2, &["01", JOIN_2]), "noted 1 0 0 0", "")];
    let leader = after_all(&rt, leader_1(&rt), NOTED);
    let leader = after(&rt, &leader, ITEM_1);
    const LOST: &[Row] = &[Row(Came::Close, "closed 2 0", "log item 2 0")];
    after_all(&rt, leader, LOST);
    const PIECES: &[Row] = &[Row(
        Came::Close,
        "closed 2 0",
        "log item 2 0, 1>2@9002 piece 2 0 0, 1>3@9003 piece 2 0 0, 1>2@9002 piece 2 0 1, \
            1>3@9003 piece 2 0 2, 1>2@9002 piece 2 0 3, 1>3@9003 piece 2 0 3",
    )];
    let leader = after(&rt, &leader_1(&rt), JOINS_AT_1);
    after_all(&rt, leader, PIECES);
}
