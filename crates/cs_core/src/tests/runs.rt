// Runs of a small group, as they come to one of its followers.
use super::fields::{LEFT, PAIR, R0, ROLL_0, ROLL_OF_TRIO, SAME, TRIO};
use super::steps::{
    Came, Note, Reason, Row, after_all, check_leaves, joined, joining, node_2, plan_on,
};
use crate::{Follower, Plan};
use cs_base::Mode;
use cs_packet::Body;
use std::process::Abort;

// The slice of an epoch in which nothing changes.
const SAME_AT_2: &[&str] = &["00000002", R0, SAME];
// Piece 3 of the slice by which node 2 leaves.
const PIECE_3: &str =
    "0000006c 00000003 7f000001 22290000 02000100 00000000 00000000 00000001 01000000 02000001";

fn node_3<R: AllocGlobal + Abort>(rt: &R) -> Follower {
    joining(rt, 3, 9003, 20, Mode::Partial)
}

// Piece 1 comes to node 2 when the three others gave it.
#[test]
fn a_piece_comes_late(rt: HostRuntime) {
    const ROWS: &[Row] = &[
        Row(
            Came::Snap(1, TRIO, ROLL_OF_TRIO),
            Note::Jumped(1),
            "log view 1",
        ),
        Row(Came::Piece(2, 0, 0, SAME_AT_2), Note::Held, ""),
        Row(Came::Piece(2, 0, 3, SAME_AT_2), Note::Held, ""),
        Row(
            Came::Piece(2, 0, 2, SAME_AT_2),
            Note::Advanced(2),
            "log step 0, 2>1@9001 piece 2 0 1, 2>3@9003 piece 2 0 1",
        ),
        Row(Came::Piece(2, 0, 1, SAME_AT_2), Note::Already, ""),
    ];
    after_all(&rt, node_2(&rt, Mode::Partial), ROWS);
}

#[test]
fn all_pieces_come_twice(rt: HostRuntime) {
    const PASSED_2: &str = "2>1@9001 piece 2 0 1, 2>3@9003 piece 2 0 1";
    const TO_2: &[Row] = &[
        Row(
            Came::Snap(1, TRIO, ROLL_OF_TRIO),
            Note::Jumped(1),
            "log view 1",
        ),
        Row(Came::Piece(2, 0, 3, SAME_AT_2), Note::Held, ""),
        Row(Came::Piece(2, 0, 3, SAME_AT_2), Note::Already, ""),
        Row(Came::Piece(2, 0, 1, SAME_AT_2), Note::Held, PASSED_2),
        Row(Came::Piece(2, 0, 1, SAME_AT_2), Note::Already, ""),
        Row(
            Came::Piece(2, 0, 0, SAME_AT_2),
            Note::Advanced(2),
            "log step 0",
        ),
        Row(Came::Piece(2, 0, 0, SAME_AT_2), Note::Already, ""),
    ];
    after_all(&rt, node_2(&rt, Mode::Partial), TO_2);
    const PASSED_3: &str = "3>1@9001 piece 2 0 2, 3>2@9002 piece 2 0 2";
    const TO_3: &[Row] = &[
        Row(
            Came::Snap(1, TRIO, ROLL_OF_TRIO),
            Note::Jumped(1),
            "log view 1",
        ),
        Row(Came::Piece(2, 0, 3, SAME_AT_2), Note::Held, ""),
        Row(Came::Piece(2, 0, 3, SAME_AT_2), Note::Already, ""),
        Row(Came::Piece(2, 0, 2, SAME_AT_2), Note::Held, PASSED_3),
        Row(Came::Piece(2, 0, 2, SAME_AT_2), Note::Already, ""),
        Row(
            Came::Piece(2, 0, 0, SAME_AT_2),
            Note::Advanced(2),
            "log step 0",
        ),
        Row(Came::Piece(2, 0, 0, SAME_AT_2), Note::Already, ""),
    ];
    after_all(&rt, node_3(&rt), TO_3);
}

// What node 2 made and came to it, it passes on although it isn't a member any more.
#[test]
fn a_node_leaves_by_pieces(rt: HostRuntime) {
    const ROWS: &[Row] = &[
        Row(Came::Snap(1, PAIR, ROLL_0), Note::Jumped(1), "log view 1"),
        Row(Came::Leave, Note::Told(None), "2>1@9001 report 1"),
        Row(Came::Piece(2, 0, 0, LEFT), Note::Held, ""),
        Row(
            Came::Piece(2, 0, 1, LEFT),
            Note::Held,
            "2>1@9001 piece 2 0 1",
        ),
    ];
    let node = after_all(&rt, node_2(&rt, Mode::Partial), ROWS);
    const LAST: Row = Row(
        Came::Piece(2, 0, 2, LEFT),
        Note::Departed,
        "log gone 2, 2>1@9001 piece 2 0 3",
    );
    check_leaves(&rt, &node, &LAST);
}

// Whether a piece with these bytes is sent.
fn sends_piece(plan: &Plan, bytes: &[u8]) -> bool {
    plan.sends.as_slice().iter().any(|(_, packet)| match &packet.body {
        Body::Piece { bytes: piece, .. } => piece.as_slice() == bytes,
        _ => false,
    })
}

// Piece 3 is the XOR of the others.
#[test]
fn a_made_piece_has_the_bytes_of_its_colour(rt: HostRuntime) {
    const ROWS: &[Row] = &[
        Row(Came::Snap(1, PAIR, ROLL_0), Note::Jumped(1), "log view 1"),
        Row(Came::Piece(2, 0, 0, LEFT), Note::Held, ""),
        Row(
            Came::Piece(2, 0, 1, LEFT),
            Note::Held,
            "2>1@9001 piece 2 0 1",
        ),
    ];
    let node = after_all(&rt, node_2(&rt, Mode::Partial), ROWS);
    let plan = plan_on(&rt, &node, Came::Piece(2, 0, 2, LEFT));
    assert!(rt; sends_piece(&plan, &joined(&rt, &[PIECE_3])));
}

// Three epochs went by. The first of them has a slice that leaves no region.
#[test]
fn a_node_catches_up(rt: HostRuntime) {
    const ROWS: &[Row] = &[
        Row(Came::Snap(1, PAIR, ROLL_0), Note::Jumped(1), "log view 1"),
        Row(
            Came::Slice(&["00000002", R0, "00 01", R0, "00 00 00"]),
            Note::Unfit(Reason::Size),
            "",
        ),
        Row(Came::Piece(3, 0, 0, SAME_AT_2), Note::Early(1, 3), ""),
        Row(Came::Need(1, 0), Note::Told(None), "2>1@9001 need 2 0"),
        Row(Came::Snap(4, PAIR, ROLL_0), Note::Jumped(4), "log view 4"),
        Row(Came::Piece(2, 0, 0, SAME_AT_2), Note::Stale(4, 2), ""),
    ];
    after_all(&rt, node_2(&rt, Mode::Partial), ROWS);
}
