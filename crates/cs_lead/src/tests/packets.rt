// What the leader answers to bytes that tell it nothing.
use super::fields::{Fields, R0, R1, R2, R9};
use super::steps::{Came, Row, after_all, check_each, leader_1};

// The piece of colour 0 of a slice of one byte.
const PIECE: &str = "00 00000001 00";

// The end of a slice in whose epoch nothing changes.
const SAME: &str = "00 00 00 00 00";

// A picture of the leader alone, at epochs 0 and 3.
const ALONE: &str = "01 00000000 00000001 0000000000000000 0000000000000000 0000000000000000 \
    00000000 00000000 00000000 00000000 00000000 00000000 01 \
    00000001 7f000001 2329 00000000 00000000 00000000 00";

const ALONE_AT_0: Fields = &["00000000", ALONE];

const ALONE_AT_3: Fields = &["00000003", ALONE];

#[test]
fn bytes_are_read_before_anything_else(rt: HostRuntime) {
    const ROWS: &[Row] = &[
        Row(Came::Bytes(b""), "bad Short(0)", ""),
        Row(
            Came::Bytes(b"\x02\x07\0\0\0\x02\0\0\0\x03\0\0\0\x05"),
            "bad Version(2)",
            "",
        ),
        Row(
            Came::Bytes(b"\x01\x07\0\0\0\x02\0\0\0\x01\0\0\0\x05\0"),
            "bad Extra(14)",
            "",
        ),
        Row(
            Came::Bytes(b"\x01\x07\0\0\0\x02\0\0\0\x03\0\0\0\x05"),
            "not mine 3",
            "",
        ),
        Row(Came::Packet(7, 2, &["00000005"]), "idle", ""),
    ];
    check_each(&rt, &leader_1(&rt), ROWS);
}

// No region of them is looked at.
#[test]
fn what_tells_members_tells_the_leader_nothing(rt: HostRuntime) {
    const AT_0: &[Row] = &[
        Row(Came::Packet(2, 2, &[R1, R0, PIECE]), "early 0 1", ""),
        Row(Came::Packet(4, 2, &[R1, R0, SAME]), "early 0 1", ""),
        Row(Came::Packet(6, 2, ALONE_AT_0), "stale 0 0", ""),
        Row(Came::Packet(6, 2, ALONE_AT_3), "early 0 3", ""),
    ];
    let leader = leader_1(&rt);
    check_each(&rt, &leader, AT_0);
    const CLOSES: &[Row] = &[
        Row(Came::Close, "closed 1 0", "log item 1 0"),
        Row(Came::Close, "closed 2 0", "log item 2 0"),
    ];
    let leader = after_all(&rt, leader, CLOSES);
    const AT_2: &[Row] = &[
        Row(Came::Packet(2, 2, &[R1, R0, PIECE]), "stale 2 1", ""),
        Row(Came::Packet(2, 2, &[R2, R9, PIECE]), "stale 2 2", ""),
        Row(Came::Packet(4, 2, &[R2, R9, SAME]), "stale 2 2", ""),
        Row(Came::Packet(6, 2, ALONE_AT_3), "early 2 3", ""),
    ];
    check_each(&rt, &leader, AT_2);
}
