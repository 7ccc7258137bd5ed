// What a node makes of snapshots, and what a joining node makes of all that comes.
use super::fields::{
    JOINED, M2, R0, REGIONS, ROLL_0, ROLL_1, ROLLS, ROLLS_0_1, ROLLS_0_2, ROLLS_0_3, SAME_0, SAME_1,
};
use super::steps::{Came, Note, Reason, Row, after_all, at_5, check_each, check_leaves, node_2};
use cs_base::Mode;
use cs_fields::PacketFault;

#[test]
fn a_joining_node_takes_a_snapshot_or_a_bye(rt: HostRuntime) {
    let node = node_2(&rt, Mode::Partial);
    const ROWS: &[Row] = &[
        Row(Came::Join, Note::Told(None), "2>1@9001 report 1"),
        Row(Came::AskLeader, Note::Told(None), "2>1@9001 ask 0"),
        Row(Came::Packet(1, 1, &["01 03 00000007"]), Note::Idle, ""),
        Row(Came::Piece(1, 0, 0, SAME_0), Note::Idle, ""),
        Row(
            Came::Packet(3, 1, &["7f000001 2352 00 00000001", R0]),
            Note::Idle,
            "",
        ),
        Row(Came::Slice(SAME_0), Note::Idle, ""),
        Row(
            Came::Packet(5, 1, &["7f000001 2352 00 00000000"]),
            Note::Idle,
            "",
        ),
        Row(
            Came::Snap(0, REGIONS, ROLL_1),
            Note::Unfit(Reason::Absent),
            "",
        ),
        Row(
            Came::Snap(0, REGIONS, ROLL_0),
            Note::Jumped(0),
            "log view 0",
        ),
    ];
    check_each(&rt, &node, ROWS);
    const BYE_5: Row = Row(
        Came::Packet(7, 1, &["00000005"]),
        Note::Departed,
        "log gone 5",
    );
    check_leaves(&rt, &node, &BYE_5);
    const BYE_3: Row = Row(
        Came::Packet(7, 1, &["00000003"]),
        Note::Departed,
        "log gone 3",
    );
    check_leaves(&rt, &at_5(&rt, Mode::Partial), &BYE_3);
}

// Bytes that are no packet come first, and then a packet for another node.
#[test]
fn bytes_are_read_before_anything_else(rt: HostRuntime) {
    const ROWS: &[Row] = &[
        Row(Came::Bytes(b""), Note::Bad(PacketFault::Short(0)), ""),
        Row(
            Came::Bytes(b"\x02\x07\0\0\0\x01\0\0\0\x03\0\0\0\x05"),
            Note::Bad(PacketFault::Version(2)),
            "",
        ),
        Row(
            Came::Bytes(b"\x01\x08\0\0\0\x01\0\0\0\x03\0\0\0\x05"),
            Note::Bad(PacketFault::Kind(8)),
            "",
        ),
        Row(
            Came::Bytes(b"\x01\x07\0\0\0\x01\0\0\0\x03\0\0\0\x05\0"),
            Note::Bad(PacketFault::Extra(14)),
            "",
        ),
        Row(
            Came::Bytes(b"\x01\x07\0\0\0\0\0\0\0\x03\0\0\0\x05"),
            Note::Bad(PacketFault::Value(2)),
            "",
        ),
        Row(
            Came::Bytes(b"\x01\x07\0\0\0\x01\0\0\0\x03\0\0\0\x05"),
            Note::NotMine(3),
            "",
        ),
    ];
    check_each(&rt, &node_2(&rt, Mode::Partial), ROWS);
    check_each(&rt, &at_5(&rt, Mode::Full), ROWS);
}

#[test]
fn a_member_answers_a_snapshot(rt: HostRuntime) {
    const ROWS: &[Row] = &[
        Row(Came::Snap(4, REGIONS, ROLL_0), Note::Stale(5, 4), ""),
        Row(Came::Snap(4, REGIONS, ROLL_1), Note::Stale(5, 4), ""),
        Row(
            Came::Snap(5, REGIONS, ROLL_1),
            Note::Unfit(Reason::Absent),
            "",
        ),
        Row(
            Came::Snap(5, REGIONS, ROLLS_0_3),
            Note::Unfit(Reason::Roll(3)),
            "",
        ),
        // of three rolls a Partial node keeps its own
        Row(Came::Snap(5, REGIONS, ROLLS), Note::Stale(5, 5), ""),
        Row(Came::Snap(5, REGIONS, ROLL_0), Note::Stale(5, 5), ""),
        Row(
            Came::Snap(6, REGIONS, ROLL_1),
            Note::Unfit(Reason::Absent),
            "",
        ),
        Row(
            Came::Snap(6, REGIONS, &["01", R0, "0001", M2]),
            Note::Unfit(Reason::Roll(0)),
            "",
        ),
        Row(Came::Snap(9, REGIONS, ROLLS), Note::Jumped(9), "log view 9"),
    ];
    check_each(&rt, &at_5(&rt, Mode::Partial), ROWS);
}

// At the jump the held piece goes, and the slice that was used, and the past.
#[test]
fn a_jump_drops_what_was_held_and_used(rt: HostRuntime) {
    const NEED: &[&str] = &["7f000001 2352 00 00000007", R0];
    const ROWS: &[Row] = &[
        Row(
            Came::Slice(JOINED),
            Note::Advanced(6),
            "log step 0, 2>1@9001 piece 6 0 1, 2>1@9001 piece 6 0 3",
        ),
        Row(Came::Piece(7, 1, 0, SAME_1), Note::Held, ""),
        Row(
            Came::Snap(7, REGIONS, ROLL_0),
            Note::Jumped(7),
            "log view 7",
        ),
        Row(Came::Piece(7, 1, 0, SAME_1), Note::Stale(7, 7), ""),
        Row(Came::Packet(3, 77, NEED), Note::Silent, ""),
        Row(Came::Piece(8, 1, 0, SAME_1), Note::Held, ""),
        Row(Came::Piece(8, 1, 0, SAME_1), Note::Already, ""),
    ];
    after_all(&rt, at_5(&rt, Mode::Partial), ROWS);
}

// A Full node knows what the last snapshot has, and asks for its own epoch as long as that isn't all.
#[test]
fn a_full_node_loses_and_regains_rolls(rt: HostRuntime) {
    const ROWS: &[Row] = &[
        Row(Came::Ask(1), Note::Told(None), "2>1@9001 ask 6"),
        Row(
            Came::Snap(6, REGIONS, ROLLS_0_1),
            Note::Jumped(6),
            "log view 6",
        ),
        Row(Came::Ask(1), Note::Told(None), "2>1@9001 ask 6"),
        Row(Came::Snap(6, REGIONS, ROLL_0), Note::Stale(6, 6), ""),
        Row(
            Came::Snap(6, REGIONS, ROLLS_0_2),
            Note::Jumped(6),
            "log view 6",
        ),
        // 1 isn't known any more
        Row(
            Came::Snap(6, REGIONS, ROLLS_0_1),
            Note::Jumped(6),
            "log view 6",
        ),
        Row(Came::Snap(6, REGIONS, ROLLS), Note::Jumped(6), "log view 6"),
        Row(Came::Ask(1), Note::Told(None), "2>1@9001 ask 7"),
    ];
    after_all(&rt, at_5(&rt, Mode::Full), ROWS);
}
