// What the leader tells members at a close.
use super::fields::{Fields, JOIN_2, JOIN_3, JOIN_4, LEAVE_2, LEAVE_4};
use super::steps::{Came, Row, after_all, leader_1, next_of, plan_on};
use crate::LeadPlan;
use cs_packet::Body;

// Moves of 2: the first to 20, the second to 30 and to 40, the third to 40.
const MOVE_1: Fields = &["01 02 00000002 00000001 00000014 00000000 00000000"];

const MOVE_2: Fields = &["01 02 00000002 00000002 0000001e 00000000 00000000"];

const MOVE_2_ON: Fields = &["01 02 00000002 00000002 00000028 00000000 00000000"];

const MOVE_3: Fields = &["01 02 00000002 00000003 00000028 00000000 00000000"];

// Joiners get snapshots. Pieces go to the members of the epoch before, one that leaves among them.
#[test]
fn members_are_told(rt: HostRuntime) {
    const ROWS: &[Row] = &[
        Row(Came::Close, "closed 1 0", "log item 1 0"),
        Row(Came::Packet(1, 2, &["01", JOIN_2]), "noted 1 0 0 0", ""),
        Row(
            Came::Packet(1, 3, &["02", JOIN_3, JOIN_4]),
            "noted 2 0 0 0",
            "",
        ),
        Row(
            Came::Close,
            "closed 2 3",
            "log item 2 3, 1>2@9002 snap 2 0, 1>3@9003 snap 2 0, 1>4@9004 snap 2 0",
        ),
        Row(
            Came::Close,
            "closed 3 0",
            "log item 3 0, 1>2@9002 piece 3 0 0, 1>3@9003 piece 3 0 0, 1>4@9004 piece 3 0 0, \
                1>2@9002 piece 3 0 1, 1>3@9003 piece 3 0 2, 1>4@9004 piece 3 0 3",
        ),
        Row(Came::Packet(1, 4, &["01", LEAVE_4]), "noted 1 0 0 0", ""),
        Row(
            Came::Close,
            "closed 4 1",
            "log item 4 1, 1>2@9002 piece 4 0 0, 1>3@9003 piece 4 0 0, 1>4@9004 piece 4 0 0, \
                1>2@9002 piece 4 0 1, 1>3@9003 piece 4 0 2, 1>4@9004 piece 4 0 3",
        ),
        Row(
            Came::Close,
            "closed 5 0",
            "log item 5 0, 1>2@9002 piece 5 0 0, 1>3@9003 piece 5 0 0, 1>2@9002 piece 5 0 1, \
                1>3@9003 piece 5 0 2, 1>2@9002 piece 5 0 3, 1>3@9003 piece 5 0 3",
        ),
    ];
    after_all(&rt, leader_1(&rt), ROWS);
}

// To one member all pieces of an epoch.
const PIECES_2: &str = "log item 2 1, 1>2@9002 piece 2 0 0, 1>2@9002 piece 2 0 1, \
    1>2@9002 piece 2 0 2, 1>2@9002 piece 2 0 3";

// The leader is alone again, and 2 never returns.
#[test]
fn all_others_leave(rt: HostRuntime) {
    const ROWS: &[Row] = &[
        Row(Came::Packet(1, 2, &["01", JOIN_2]), "noted 1 0 0 0", ""),
        Row(Came::Close, "closed 1 1", "log item 1 1, 1>2@9002 snap 1 0"),
        Row(Came::Packet(1, 2, &["01", LEAVE_2]), "noted 1 0 0 0", ""),
        Row(Came::Close, "closed 2 1", PIECES_2),
        Row(Came::Close, "closed 3 0", "log item 3 0"),
        Row(Came::Packet(1, 2, &["01", JOIN_2]), "noted 1 0 0 0", ""),
        Row(Came::Close, "closed 4 1, 2 Retired", "log item 4 0"),
    ];
    after_all(&rt, leader_1(&rt), ROWS);
}

#[test]
fn a_member_moves(rt: HostRuntime) {
    const ROWS: &[Row] = &[
        Row(Came::Packet(1, 2, &["01", JOIN_2]), "noted 1 0 0 0", ""),
        Row(Came::Close, "closed 1 1", "log item 1 1, 1>2@9002 snap 1 0"),
        Row(Came::Packet(1, 2, MOVE_2), "noted 1 0 0 0", ""),
        Row(Came::Packet(1, 2, MOVE_1), "noted 0 0 1 0", ""),
        Row(Came::Close, "closed 2 1", PIECES_2),
        Row(Came::Packet(1, 2, MOVE_1), "noted 1 0 0 0", ""),
        Row(
            Came::Close,
            "closed 3 1, 2 Stale",
            "log item 3 0, 1>2@9002 piece 3 0 0, 1>2@9002 piece 3 0 1, 1>2@9002 piece 3 0 2, \
                1>2@9002 piece 3 0 3",
        ),
        Row(Came::Packet(1, 2, MOVE_2_ON), "noted 1 0 0 0", ""),
        Row(Came::Packet(1, 2, MOVE_3), "noted 0 1 0 0", ""),
        Row(
            Came::Close,
            "closed 4 1",
            "log item 4 1, 1>2@9002 piece 4 0 0, 1>2@9002 piece 4 0 1, 1>2@9002 piece 4 0 2, \
                1>2@9002 piece 4 0 3",
        ),
    ];
    after_all(&rt, leader_1(&rt), ROWS);
}

// A close judges 64 changes. The one behind them waits for the next.
#[test]
fn a_close_judges_64_changes(rt: HostRuntime) {
    const ROWS: &[Row] = &[
        Row(Came::Leaves(100), "noted 64 0 0 0", ""),
        Row(Came::Packet(1, 2, &["01", JOIN_2]), "noted 1 0 0 0", ""),
        Row(Came::Close, "closed 1 64, 100 Absent", "log item 1 0"),
        Row(Came::Close, "closed 2 1", "log item 2 1, 1>2@9002 snap 2 0"),
    ];
    after_all(&rt, leader_1(&rt), ROWS);
}

// How many snapshots with the roll of this region alone are sent.
fn snapshots_of(plan: &LeadPlan, region: u32) -> usize {
    let sends = plan.sends.as_slice().iter();
    sends
        .filter(|(_, packet)| is_snapshot_of(&packet.body, region))
        .count()
}

fn is_snapshot_of(body: &Body, region: u32) -> bool {
    match body {
        Body::Snap(picture) => match picture.rolls.as_slice() {
            [(known, _)] => known.get() == region,
            _ => false,
        },
        _ => false,
    }
}

// 50 members are cut into two regions, which the leader's view has from then on.
#[test]
fn joiners_make_two_regions(rt: HostRuntime) {
    const JOINS: &[Row] = &[Row(Came::Joins, "noted 49 0 0 0", "")];
    let leader = after_all(&rt, leader_1(&rt), JOINS);
    let plan = plan_on(&rt, &leader, Came::Close);
    assert_eq!(rt; plan.sends.len(), 49);
    assert_eq!(rt; snapshots_of(&plan, 0), 24);
    assert_eq!(rt; snapshots_of(&plan, 1), 25);
    const CLOSE: &[Row] = &[Row(
        Came::Close,
        "closed 2 0",
        "log item 2 0, 1>2@9002 piece 2 0 0, 1>3@9003 piece 2 0 0, 1>4@9004 piece 2 0 0, \
            1>13@9013 piece 2 0 0, 1>2@9002 piece 2 0 1, 1>3@9003 piece 2 0 2, \
            1>4@9004 piece 2 0 3, 1>26@9026 piece 2 1 0, 1>2@9002 piece 2 1 1, \
            1>3@9003 piece 2 1 2, 1>4@9004 piece 2 1 3",
    )];
    after_all(&rt, next_of(leader, plan.after), CLOSE);
}
