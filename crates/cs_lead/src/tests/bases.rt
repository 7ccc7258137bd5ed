// Which closes log a base, and what a base makes of the leader.
use super::fields::{Fields, JOIN_2, JOIN_3, LEAVE_2, LEAVE_3, R0};
use super::logs::{after, check_each};
use super::steps::{Came, Row, after_all, leader_1, next_of, plan_on};
use crate::{LeadPlan, Leader};
use cs_packet::Entry;
use std::process::Abort;

// Epoch 17 by a base: of the leader alone, of it and member 2 where 3 had left, and with the join of 2.
const ALONE: Fields = &[
    "07 00000011 00000001 0000 0001",
    "00000000 00000001 7f000001 2329 00000000 00000000 00000000 00000000 00",
];

const TWO: Fields = &[
    "07 00000011 00000001 0001 00000003 0002",
    "00000000 00000001 7f000001 2329 00000000 00000000 00000000 00000000",
    "00000000 00000002 7f000001 232a 0000000a 00000000 00000000 00000000 00",
];

const WITH_JOIN: Fields = &[
    "07 00000011 00000001 0000 0001",
    "00000000 00000001 7f000001 2329 00000000 00000000 00000000 00000000 01",
    JOIN_2,
];

// The same for epoch 5.
const AT_5: Fields = &[
    "07 00000005 00000001 0000 0001",
    "00000000 00000001 7f000001 2329 00000000 00000000 00000000 00000000 00",
];

// A region that was never given, a member that left, nobody but 2, the leader at another point and at another port.
const REGION_1: Fields = &[
    "07 00000011 00000001 0000 0001",
    "00000001 00000001 7f000001 2329 00000000 00000000 00000000 00000000 00",
];

const LEFT: Fields = &[
    "07 00000011 00000001 0001 00000002 0002",
    "00000000 00000001 7f000001 2329 00000000 00000000 00000000 00000000",
    "00000000 00000002 7f000001 232a 0000000a 00000000 00000000 00000000 00",
];

const WITHOUT_LEADER: Fields = &[
    "07 00000011 00000001 0000 0001",
    "00000000 00000002 7f000001 232a 0000000a 00000000 00000000 00000000 00",
];

const ELSEWHERE: Fields = &[
    "07 00000011 00000001 0000 0001",
    "00000000 00000001 7f000001 2329 00000001 00000000 00000000 00000000 00",
];

const OTHER_PORT: Fields = &[
    "07 00000011 00000001 0000 0001",
    "00000000 00000001 7f000001 232b 00000000 00000000 00000000 00000000 00",
];

// A leave of one who isn't a member.
const REFUSED: Fields = &[
    "07 00000011 00000001 0000 0001",
    "00000000 00000001 7f000001 2329 00000000 00000000 00000000 00000000 01",
    LEAVE_2,
];

const ITEM_1: Fields = &["06 00000001 00"];

const ITEM_18: Fields = &["06 00000012 00"];

const NEED_0_AT_17: Fields = &["7f000001 2352 00 00000011", R0];

// The epoch, the next region, how many left, how many rows there are, and how many changes.
fn base_in(plan: &LeadPlan) -> Option<(u32, u32, usize, usize, usize)> {
    match &plan.entry {
        Some(
            Entry::Base {
                epoch,
                next_region,
                retired,
                rows,
                changes,
            },
        ) => Some((
            epoch.get(),
            *next_region,
            retired.len(),
            rows.len(),
            changes.len(),
        )),
        _ => None,
    }
}

// The leader after so many closes, of which those of these epochs log a base.
fn after_closes<R: AllocGlobal + Abort>(rt: &R, leader: Leader, epochs: &[u32]) -> Leader {
    let mut leader = leader;
    for epoch in epochs {
        let plan = plan_on(rt, &leader, Came::Close);
        let base = base_in(&plan).map(|base| base.0);
        let expected = if *epoch % 16 == 1 && *epoch > 1 {
            Some(*epoch)
        } else {
            None
        };
        assert_eq!(rt; base, expected);
        leader = next_of(leader, plan.after);
    }
    leader
}

#[test]
fn each_sixteenth_close_logs_the_group(rt: HostRuntime) {
    let epochs: [u32; 34] = [
        1, 2, 3, 4, 5, 6, 7, 8, 9, 10, 11, 12, 13, 14, 15, 16, 17, 18, 19, 20, 21, 22, 23, 24, 25,
        26, 27, 28, 29, 30, 31, 32, 33, 34,
    ];
    let leader = after_closes(&rt, leader_1(&rt), &epochs);
    assert_eq!(rt; leader.view().epoch().get(), 34);
}

// 3 left at epoch 2, and 2 leaves at epoch 17.
#[test]
fn a_base_has_the_group_before(rt: HostRuntime) {
    const TO_2: &[Row] = &[
        Row(
            Came::Packet(1, 2, &["02", JOIN_2, JOIN_3]),
            "noted 2 0 0 0",
            "",
        ),
        Row(
            Came::Close,
            "closed 1 2",
            "log item 1 2, 1>2@9002 snap 1 0, 1>3@9003 snap 1 0",
        ),
        Row(Came::Packet(1, 3, &["01", LEAVE_3]), "noted 1 0 0 0", ""),
        Row(
            Came::Close,
            "closed 2 1",
            "log item 2 1, 1>2@9002 piece 2 0 0, 1>3@9003 piece 2 0 0, 1>2@9002 piece 2 0 1, \
                1>3@9003 piece 2 0 2, 1>2@9002 piece 2 0 3, 1>3@9003 piece 2 0 3",
        ),
    ];
    let leader = after_all(&rt, leader_1(&rt), TO_2);
    let epochs: [u32; 14] = [3, 4, 5, 6, 7, 8, 9, 10, 11, 12, 13, 14, 15, 16];
    let leader = after_closes(&rt, leader, &epochs);
    const NOTED: &[Row] = &[Row(Came::Packet(1, 2, &["01", LEAVE_2]), "noted 1 0 0 0", "")];
    let leader = after_all(&rt, leader, NOTED);
    let plan = plan_on(&rt, &leader, Came::Close);
    assert_eq!(rt; base_in(&plan), Some((17, 1, 1, 2, 1)));
}

#[test]
fn a_leader_begins_anew_by_a_base(rt: HostRuntime) {
    let leader = leader_1(&rt);
    let rows = [
        (ALONE, Some(17)),
        (TWO, Some(17)),
        (WITH_JOIN, Some(17)),
        (AT_5, Some(5)),
        (REGION_1, None),
        (LEFT, None),
        (WITHOUT_LEADER, None),
        (ELSEWHERE, None),
        (OTHER_PORT, None),
        (REFUSED, None),
    ];
    check_each(&rt, &leader, &rows);
    check_each(&rt, &after(&rt, &leader, ITEM_1), &rows);
    let later = after(&rt, &leader, TWO);
    check_each(
        &rt,
        &later,
        &[(ITEM_18, Some(18)), (ITEM_1, None), (AT_5, Some(5))],
    );
}

// The slices by which members came to the epoch are there again.
#[test]
fn a_base_brings_back_its_slices(rt: HostRuntime) {
    let leader = after(&rt, &leader_1(&rt), TWO);
    const ROWS: &[Row] = &[
        Row(
            Came::Packet(3, 2, NEED_0_AT_17),
            "answered",
            "1>2@9042 slice 17 0",
        ),
        Row(
            Came::Packet(3, 3, NEED_0_AT_17),
            "answered",
            "1>3@9042 bye 17",
        ),
    ];
    after_all(&rt, leader, ROWS);
}
