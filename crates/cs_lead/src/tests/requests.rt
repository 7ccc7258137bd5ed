// What the leader answers to requests.
use super::fields::{Fields, JOIN_2, JOIN_3, LEAVE_3, R0, R1, R2};
use super::steps::{Came, Row, after_all, check_each, leader_1, next_of, plan_on};

// An Ask is for mode Partial or Full, from an epoch on, and is answered at port 9042.
const FROM_0: Fields = &["7f000001 2352 00 00000000"];

const FROM_2: Fields = &["7f000001 2352 00 00000002"];

const FROM_3: Fields = &["7f000001 2352 00 00000003"];

const FULL: Fields = &["7f000001 2352 01 00000000"];

// A Need of an epoch and a region, answered there too.
const NEED_0_AT_1: Fields = &["7f000001 2352 00 00000001", R0];

const NEED_0_AT_2: Fields = &["7f000001 2352 00 00000002", R0];

const NEED_1_AT_2: Fields = &["7f000001 2352 00 00000002", R1];

const NEED_0_AT_3: Fields = &["7f000001 2352 00 00000003", R0];

const NEED_2_AT_2: Fields = &["7f000001 2352 01 00000002", R2];

#[test]
fn a_leader_alone_answers_itself(rt: HostRuntime) {
    const ROWS: &[Row] = &[
        Row(Came::Packet(5, 2, FROM_0), "silent", ""),
        Row(Came::Packet(3, 2, NEED_0_AT_1), "silent", ""),
        Row(Came::Packet(5, 1, FULL), "answered", "1>1@9042 snap 0 0"),
    ];
    check_each(&rt, &leader_1(&rt), ROWS);
}

// At epoch 2 the members are 1 and 2. 3 left, and 4 was never one.
#[test]
fn members_are_answered(rt: HostRuntime) {
    const TO_2: &[Row] = &[
        Row(
            Came::Packet(1, 2, &["02", JOIN_2, JOIN_3]),
            "noted 2 0 0 0",
            "",
        ),
        Row(
            Came::Close,
            "closed 1 2",
            "log item 1 2, 1>2@9002 snap 1 0, 1>3@9003 snap 1 0",
        ),
        Row(Came::Packet(1, 3, &["01", LEAVE_3]), "noted 1 0 0 0", ""),
        Row(
            Came::Close,
            "closed 2 1",
            "log item 2 1, 1>2@9002 piece 2 0 0, 1>3@9003 piece 2 0 0, 1>2@9002 piece 2 0 1, \
                1>3@9003 piece 2 0 2, 1>2@9002 piece 2 0 3, 1>3@9003 piece 2 0 3",
        ),
    ];
    let leader = after_all(&rt, leader_1(&rt), TO_2);
    const ROWS: &[Row] = &[
        Row(Came::Packet(5, 2, FROM_0), "answered", "1>2@9042 snap 2 0"),
        Row(Came::Packet(5, 2, FROM_2), "answered", "1>2@9042 snap 2 0"),
        Row(Came::Packet(5, 2, FROM_3), "silent", ""),
        Row(Came::Packet(5, 3, FROM_3), "answered", "1>3@9042 bye 2"),
        Row(Came::Packet(5, 4, FROM_0), "silent", ""),
        Row(
            Came::Packet(3, 2, NEED_0_AT_2),
            "answered",
            "1>2@9042 slice 2 0",
        ),
        Row(
            Came::Packet(3, 2, NEED_0_AT_1),
            "answered",
            "1>2@9042 snap 2 0",
        ),
        Row(
            Came::Packet(3, 2, NEED_1_AT_2),
            "answered",
            "1>2@9042 snap 2 0",
        ),
        Row(Came::Packet(3, 2, NEED_0_AT_3), "silent", ""),
        Row(
            Came::Packet(3, 3, NEED_0_AT_2),
            "answered",
            "1>3@9042 bye 2",
        ),
        Row(Came::Packet(3, 4, NEED_0_AT_2), "silent", ""),
    ];
    check_each(&rt, &leader, ROWS);
}

// Of two regions 0 has node 2, and 1 has node 50.
#[test]
fn a_full_asker_gets_all_rolls(rt: HostRuntime) {
    const JOINS: &[Row] = &[Row(Came::Joins, "noted 49 0 0 0", "")];
    let leader = after_all(&rt, leader_1(&rt), JOINS);
    let plan = plan_on(&rt, &leader, Came::Close);
    let leader = next_of(leader, plan.after);
    const AT_1: &[Row] = &[
        Row(Came::Packet(5, 2, FROM_0), "answered", "1>2@9042 snap 1 0"),
        Row(Came::Packet(5, 2, FULL), "answered", "1>2@9042 snap 1 0 1"),
        Row(
            Came::Packet(5, 50, FROM_0),
            "answered",
            "1>50@9042 snap 1 1",
        ),
    ];
    check_each(&rt, &leader, AT_1);
    let plan = plan_on(&rt, &leader, Came::Close);
    let leader = next_of(leader, plan.after);
    const AT_2: &[Row] = &[
        Row(
            Came::Packet(3, 2, NEED_1_AT_2),
            "answered",
            "1>2@9042 slice 2 1",
        ),
        Row(
            Came::Packet(3, 2, NEED_2_AT_2),
            "answered",
            "1>2@9042 snap 2 0 1",
        ),
        Row(
            Came::Packet(3, 50, NEED_0_AT_1),
            "answered",
            "1>50@9042 snap 2 1",
        ),
    ];
    check_each(&rt, &leader, AT_2);
}
