// What a member answers to pieces and slices, a row for each rule; where two rules fit, the earlier one decides.
use super::fields::{
    Fields, JOINED, OTHER_0_OF_0_1, R0, R1, R2, R9, SAME, SAME_0, SAME_0_OF_0_1, SAME_1,
    SAME_1_OF_0, SAME_1_OF_0_1,
};
use super::steps::{Came, Note, Reason, Row, after_all, at_5, check_each};
use cs_base::Mode;
use cs_fields::PacketFault;
use std::process::Abort;

#[test]
fn a_member_without_a_past_answers_a_piece(rt: HostRuntime) {
    let node = at_5(&rt, Mode::Partial);
    const ROWS: &[Row] = &[
        Row(Came::Piece(4, 0, 0, SAME_0), Note::Stale(5, 4), ""),
        Row(Came::Piece(4, 9, 0, SAME_0), Note::Stale(5, 4), ""),
        Row(Came::Piece(5, 0, 0, SAME_0), Note::Stale(5, 5), ""),
        Row(Came::Piece(5, 9, 0, SAME_0), Note::Stale(5, 5), ""),
        Row(Came::Piece(7, 0, 0, SAME_0), Note::Early(5, 7), ""),
        Row(Came::Piece(7, 9, 0, SAME_0), Note::Early(5, 7), ""),
        Row(
            Came::Piece(6, 9, 0, SAME_0),
            Note::Unfit(Reason::Region(9)),
            "",
        ),
        // it becomes held, and goes to those for whom the node stands in the tree of its colour
        Row(Came::Piece(6, 0, 0, SAME_0), Note::Held, ""),
        Row(
            Came::Piece(6, 0, 1, SAME_0),
            Note::Held,
            "2>1@9001 piece 6 0 1",
        ),
        Row(
            Came::Piece(6, 1, 3, SAME_1),
            Note::Held,
            "2>4@9004 piece 6 1 3",
        ),
        Row(
            Came::Piece(6, 2, 1, SAME_0),
            Note::Held,
            "2>5@9005 piece 6 2 1",
        ),
    ];
    check_each(&rt, &node, ROWS);
}

// A join makes one of three in region 0. What is late goes by the view of the two.
#[test]
fn a_member_with_a_past_answers_a_piece(rt: HostRuntime) {
    const ROWS: &[Row] = &[
        Row(
            Came::Piece(6, 1, 1, SAME_1),
            Note::Held,
            "2>4@9004 piece 6 1 1",
        ),
        Row(Came::Piece(6, 1, 1, SAME_1), Note::Already, ""),
        Row(
            Came::Slice(JOINED),
            Note::Advanced(6),
            "log step 0, 2>1@9001 piece 6 0 1, 2>1@9001 piece 6 0 3",
        ),
        Row(Came::Piece(5, 9, 0, SAME_0), Note::Stale(6, 5), ""),
        Row(
            Came::Piece(6, 9, 0, SAME_0),
            Note::Unfit(Reason::Region(9)),
            "",
        ),
        Row(Came::Piece(6, 0, 1, SAME_0), Note::Already, ""),
        Row(Came::Piece(6, 1, 1, SAME_1), Note::Already, ""),
        Row(
            Came::Piece(6, 1, 3, SAME_1),
            Note::Passed,
            "2>4@9004 piece 6 1 3",
        ),
        Row(Came::Piece(6, 1, 3, SAME_1), Note::Already, ""),
        Row(Came::Piece(6, 2, 0, SAME_1), Note::Passed, ""),
        Row(
            Came::Piece(6, 2, 1, SAME_1),
            Note::Passed,
            "2>5@9005 piece 6 2 1",
        ),
        Row(Came::Piece(8, 0, 0, SAME_0), Note::Early(6, 8), ""),
        // nothing is held of the next epoch, and what comes goes by the view of the three
        Row(
            Came::Piece(7, 1, 1, SAME_1),
            Note::Held,
            "2>4@9004 piece 7 1 1",
        ),
        Row(Came::Piece(7, 1, 3, SAME_1), Note::Held, ""),
    ];
    after_all(&rt, at_5(&rt, Mode::Partial), ROWS);
}

// The least whole region says which others are needed. Here it is 1, and then 0.
#[test]
fn a_member_answers_a_slice(rt: HostRuntime) {
    let node = at_5(&rt, Mode::Partial);
    const ROWS: &[Row] = &[
        Row(Came::Slice(&["00000004", R9, SAME]), Note::Stale(5, 4), ""),
        Row(Came::Slice(&["00000005", R9, SAME]), Note::Stale(5, 5), ""),
        Row(Came::Slice(&["00000007", R9, SAME]), Note::Early(5, 7), ""),
        Row(
            Came::Slice(&["00000006", R9, SAME]),
            Note::Unfit(Reason::Region(9)),
            "",
        ),
        Row(
            Came::Piece(6, 1, 3, SAME_1_OF_0),
            Note::Held,
            "2>4@9004 piece 6 1 3",
        ),
        Row(Came::Slice(SAME_1_OF_0), Note::Held, "2>4@9004 piece 6 1 1"),
        Row(Came::Slice(SAME_1_OF_0), Note::Already, ""),
        Row(Came::Piece(6, 1, 0, SAME_1_OF_0), Note::Already, ""),
        Row(
            Came::Piece(6, 0, 3, SAME_0),
            Note::Held,
            "2>1@9001 piece 6 0 3",
        ),
        Row(
            Came::Slice(SAME_0),
            Note::Advanced(6),
            "log step 0, 2>1@9001 piece 6 0 1",
        ),
        Row(Came::Slice(SAME_0), Note::Stale(6, 6), ""),
    ];
    after_all(&rt, node, ROWS);
}

// A region that isn't known is the least whole one.
#[test]
fn one_slice_is_enough_where_nothing_known_is_touched(rt: HostRuntime) {
    const DONE: &str = "log step 1, 2>4@9004 piece 6 1 1, 2>4@9004 piece 6 1 3";
    const ROWS: &[Row] = &[Row(Came::Slice(SAME_1), Note::Advanced(6), DONE)];
    check_each(&rt, &at_5(&rt, Mode::Partial), ROWS);
}

#[test]
fn a_step_that_the_view_cannot_make_takes_nothing(rt: HostRuntime) {
    const ROWS: &[Row] = &[
        // 9 is touched, and dropped
        Row(
            Came::Slice(&["00000006", R0, "00 00 00 02", R0, R9, "00"]),
            Note::Unfit(Reason::Region(9)),
            "",
        ),
        Row(
            Came::Slice(&["00000006", R0, "00 01", R9, "00 00 00"]),
            Note::Unfit(Reason::Region(9)),
            "",
        ),
        // 9 goes out of region 0, and 1 does where the summary stays
        Row(
            Came::Slice(&["00000006", R0, "00 00 00 01", R0, "01 01 00000009 0000 00"]),
            Note::Unfit(Reason::Part(0)),
            "",
        ),
        Row(
            Came::Slice(&["00000006", R0, "00 00 00 01", R0, "01 01 00000001 0000 00"]),
            Note::Unfit(Reason::Roll(0)),
            "",
        ),
        // no region is left
        Row(
            Came::Slice(&["00000006", R0, "00 03", R0, R1, R2, "00 00 00"]),
            Note::Unfit(Reason::Size),
            "",
        ),
        Row(
            Came::Slice(SAME_0),
            Note::Advanced(6),
            "log step 0, 2>1@9001 piece 6 0 1, 2>1@9001 piece 6 0 3",
        ),
    ];
    after_all(&rt, at_5(&rt, Mode::Partial), ROWS);
}

#[test]
fn pieces_that_do_not_fit_are_not_taken(rt: HostRuntime) {
    const ROWS: &[Row] = &[
        Row(Came::Piece(6, 0, 0, SAME_0), Note::Held, ""),
        Row(
            Came::Piece(6, 0, 1, SAME_0),
            Note::Held,
            "2>1@9001 piece 6 0 1",
        ),
        // a slice of 14 bytes, a filling byte of 1, a part of kind 7
        Row(
            Came::Packet(2, 1, &["00000006", R0, "02 0000000e 0000000000"]),
            Note::Unfit(Reason::Length),
            "",
        ),
        Row(
            Came::Packet(2, 1, &["00000006", R0, "02 0000000d 0000000001"]),
            Note::Unfit(Reason::Padding),
            "",
        ),
        Row(
            Came::Packet(2, 1, &["00000006", R0, "02 0000000d 0000070000"]),
            Note::Unfit(Reason::Bytes(PacketFault::Value(12))),
            "",
        ),
        Row(
            Came::Piece(6, 0, 2, SAME_0),
            Note::Advanced(6),
            "log step 0, 2>1@9001 piece 6 0 3",
        ),
    ];
    after_all(&rt, at_5(&rt, Mode::Partial), ROWS);
}

// Looks at the answer to the third piece of region 2 that such a slice is cut into.
fn check_third<R: AllocGlobal + Abort>(rt: &R, slice: Fields, note: Note) {
    let rows = [
        Row(Came::Piece(6, 2, 2, slice), Note::Held, ""),
        Row(
            Came::Piece(6, 2, 1, slice),
            Note::Held,
            "2>5@9005 piece 6 2 1",
        ),
        Row(Came::Piece(6, 2, 0, slice), note, ""),
    ];
    after_all(rt, at_5(rt, Mode::Partial), &rows);
}

// The slices end too early and too late, and are those of another region and another epoch.
#[test]
fn three_pieces_give_the_slice_that_they_name(rt: HostRuntime) {
    let short = Note::Unfit(Reason::Bytes(PacketFault::Short(12)));
    check_third(&rt, &["00000006", R2, "00 00 00 00"], short);
    let extra = Note::Unfit(Reason::Bytes(PacketFault::Extra(13)));
    check_third(&rt, &["00000006", R2, "00 00 00 00 00 00"], extra);
    check_third(&rt, &["00000006", R1, SAME], Note::Unfit(Reason::Name));
    check_third(&rt, &["00000007", R2, SAME], Note::Unfit(Reason::Name));
}

#[test]
fn the_heads_of_used_slices_are_the_same(rt: HostRuntime) {
    const ROWS: &[Row] = &[
        Row(
            Came::Slice(SAME_1_OF_0_1),
            Note::Held,
            "2>4@9004 piece 6 1 1, 2>4@9004 piece 6 1 3",
        ),
        Row(
            Came::Slice(OTHER_0_OF_0_1),
            Note::Unfit(Reason::Heads(1)),
            "",
        ),
        Row(
            Came::Slice(SAME_0_OF_0_1),
            Note::Advanced(6),
            "log step 0 1, 2>1@9001 piece 6 0 1, 2>1@9001 piece 6 0 3",
        ),
    ];
    after_all(&rt, at_5(&rt, Mode::Full), ROWS);
}
