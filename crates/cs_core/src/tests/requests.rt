// What a member asks, answers and reports.
use super::fields::{
    JOINED, MOVED, R0, R1, R2, REGIONS, REGIONS_MOVED, ROLL_0, ROLL_1, ROLL_1_MOVED, SAME, SAME_0,
};
use super::steps::{Came, Note, Row, after_all, at_5, check_each, joining, node_2};
use cs_base::Mode;
use cs_pending::Offer;

// An Ask is for mode Partial or Full, from an epoch on, and is answered at port 9042.
const FROM_0: &[&str] = &["7f000001 2352 00 00000000"];

const FROM_5: &[&str] = &["7f000001 2352 00 00000005"];

const FROM_6: &[&str] = &["7f000001 2352 00 00000006"];

const FULL: &[&str] = &["7f000001 2352 01 00000000"];

// A Need of an epoch and a region, answered there too.
const NEED_0_AT_6: &[&str] = &["7f000001 2352 00 00000006", R0];

const NEED_1_AT_6: &[&str] = &["7f000001 2352 00 00000006", R1];

const NEED_0_AT_5: &[&str] = &["7f000001 2352 01 00000005", R0];

const NEED_0_AT_7: &[&str] = &["7f000001 2352 00 00000007", R0];

// The join of 7, its moves 2 and 1 with the leave of 8, and the leaves of 7, 8 and 9.
const JOIN_7: &[&str] = &["01 01 00000007 7f000001 232f 0000000a 00000000 00000000"];

const MOVE_2: &[&str] = &["01 02 00000007 00000002 00000000 00000000 00000000"];

const MOVE_1: &[&str] = &["02 02 00000007 00000001 00000000 00000000 00000000 03 00000008"];

const LEAVES: &[&str] = &["03 03 00000007 03 00000008 03 00000009"];

#[test]
fn a_snapshot_goes_to_one_in_a_known_roll(rt: HostRuntime) {
    const AT_PARTIAL: &[Row] = &[
        Row(
            Came::Packet(5, 1, FROM_5),
            Note::Answered,
            "2>1@9042 snap 5 0",
        ),
        Row(Came::Packet(5, 1, FROM_6), Note::Silent, ""),
        Row(
            Came::Packet(5, 2, FROM_0),
            Note::Answered,
            "2>2@9042 snap 5 0",
        ),
        // 3 is a global of region 1, whose roll isn't known
        Row(Came::Packet(5, 3, FROM_0), Note::Silent, ""),
        Row(Came::Packet(5, 3, FULL), Note::Silent, ""),
        Row(
            Came::Packet(5, 1, FULL),
            Note::Answered,
            "2>1@9042 snap 5 0",
        ),
        Row(Came::Packet(5, 77, FULL), Note::Silent, ""),
    ];
    check_each(&rt, &at_5(&rt, Mode::Partial), AT_PARTIAL);
    const AT_FULL: &[Row] = &[
        Row(
            Came::Packet(5, 3, FROM_5),
            Note::Answered,
            "2>3@9042 snap 5 1",
        ),
        Row(Came::Packet(5, 3, FROM_6), Note::Silent, ""),
        Row(
            Came::Packet(5, 3, FULL),
            Note::Answered,
            "2>3@9042 snap 5 0 1 2",
        ),
        Row(Came::Packet(5, 77, FULL), Note::Silent, ""),
    ];
    check_each(&rt, &at_5(&rt, Mode::Full), AT_FULL);
}

// The slice of region 0 was used to come to epoch 6.
#[test]
fn a_used_slice_goes_to_one_who_needs_it(rt: HostRuntime) {
    const STEP: &[Row] = &[Row(
        Came::Slice(JOINED),
        Note::Advanced(6),
        "log step 0, 2>1@9001 piece 6 0 1, 2>1@9001 piece 6 0 3",
    )];
    let node = after_all(&rt, at_5(&rt, Mode::Partial), STEP);
    const ROWS: &[Row] = &[
        Row(
            Came::Packet(3, 77, NEED_0_AT_6),
            Note::Answered,
            "2>77@9042 slice 6 0",
        ),
        Row(Came::Packet(3, 77, NEED_1_AT_6), Note::Silent, ""),
        Row(
            Came::Packet(3, 6, NEED_1_AT_6),
            Note::Answered,
            "2>6@9042 snap 6 0",
        ),
        Row(
            Came::Packet(3, 6, NEED_0_AT_5),
            Note::Answered,
            "2>6@9042 snap 6 0",
        ),
        Row(Came::Packet(3, 3, NEED_0_AT_5), Note::Silent, ""),
        Row(Came::Packet(3, 6, NEED_0_AT_7), Note::Silent, ""),
    ];
    check_each(&rt, &node, ROWS);
}

#[test]
fn a_member_asks_those_whom_it_knows(rt: HostRuntime) {
    const AT_5: &[Row] = &[
        Row(Came::Ask(2), Note::Unknown(2), ""),
        Row(Came::Need(2, 1), Note::Unknown(2), ""),
        Row(Came::Ask(9), Note::Unknown(9), ""),
        Row(Came::Need(9, 1), Note::Unknown(9), ""),
        Row(Came::Ask(4), Note::Told(None), "2>4@9004 ask 6"),
        Row(Came::Need(4, 1), Note::Told(None), "2>4@9004 need 6 1"),
    ];
    check_each(&rt, &at_5(&rt, Mode::Partial), AT_5);
    // the last epoch
    const AT_THE_LAST: &[Row] = &[
        Row(
            Came::Snap(4_294_967_294, REGIONS, ROLL_0),
            Note::Jumped(4_294_967_294),
            "log view 4294967294",
        ),
        Row(Came::Need(2, 1), Note::Unknown(2), ""),
        Row(Came::Need(4, 1), Note::Spent, ""),
        Row(Came::Ask(4), Note::Told(None), "2>4@9004 ask 4294967295"),
        Row(Came::Slice(SAME_0), Note::Stale(4_294_967_294, 6), ""),
    ];
    after_all(&rt, node_2(&rt, Mode::Partial), AT_THE_LAST);
}

// Node 2 knows no roll. Then a snapshot says that it is the first of its region, so that it reports to itself.
#[test]
fn a_node_without_a_roll_reports_to_the_leader_and_a_reporter_to_itself(rt: HostRuntime) {
    const WITHOUT: &[Row] = &[
        Row(
            Came::Slice(MOVED),
            Note::Advanced(6),
            "log step 0, 2>1@9001 piece 6 0 1, 2>1@9001 piece 6 0 3",
        ),
        Row(Came::Ask(1), Note::Told(None), "2>1@9001 ask 6"),
        Row(Came::Packet(5, 1, FROM_0), Note::Silent, ""),
        Row(Came::Leave, Note::Told(None), "2>1@9001 report 1"),
        Row(
            Came::Move(7),
            Note::Moved(1, None),
            "log seq 1, 2>1@9001 report 1",
        ),
        Row(Came::Piece(7, 1, 1, SAME_0), Note::Held, ""),
    ];
    let node = after_all(&rt, at_5(&rt, Mode::Partial), WITHOUT);
    // no region that the node knows is needed
    const AWAY: &[Row] = &[Row(
        Came::Slice(&["00000007", R2, "00 00 00 02", R0, R1, "00"]),
        Note::Advanced(7),
        "log step 2",
    )];
    check_each(&rt, &node, AWAY);
    const AS_REPORTER: &[Row] = &[
        Row(
            Came::Snap(6, REGIONS_MOVED, ROLL_1_MOVED),
            Note::Jumped(6),
            "log view 6",
        ),
        Row(Came::Move(7), Note::Moved(2, Some(Offer::New)), "log seq 2"),
        Row(Came::Leave, Note::Told(Some(Offer::Replaced)), ""),
        Row(
            Came::Move(7),
            Note::Moved(3, Some(Offer::Weaker)),
            "log seq 3",
        ),
        Row(Came::Ask(1), Note::Told(None), "2>1@9001 ask 7"),
        Row(Came::Flush, Note::Flushed(1), "2>1@9001 report 1"),
        Row(Came::Flush, Note::Nothing, ""),
    ];
    after_all(&rt, node, AS_REPORTER);
}

// Node 4 is of region 1, whose first global is 3.
#[test]
fn a_member_reports_to_the_first_of_its_region(rt: HostRuntime) {
    const ROWS: &[Row] = &[
        Row(
            Came::Snap(5, REGIONS, ROLL_1),
            Note::Jumped(5),
            "log view 5",
        ),
        Row(Came::Leave, Note::Told(None), "4>3@9003 report 1"),
        Row(
            Came::Move(120),
            Note::Moved(1, None),
            "log seq 1, 4>3@9003 report 1",
        ),
        Row(Came::Flush, Note::Nothing, ""),
    ];
    after_all(&rt, joining(&rt, 4, 9004, 110, Mode::Partial), ROWS);
}

// Each change is weighed against what is pending.
#[test]
fn changes_of_a_report_are_offered_in_order(rt: HostRuntime) {
    const ROWS: &[Row] = &[
        Row(Came::Packet(1, 7, JOIN_7), Note::Noted(1, 0, 0, 0), ""),
        Row(Came::Packet(1, 7, JOIN_7), Note::Noted(0, 0, 1, 0), ""),
        Row(Came::Packet(1, 7, MOVE_2), Note::Noted(0, 1, 0, 0), ""),
        Row(Came::Packet(1, 7, MOVE_1), Note::Noted(1, 0, 1, 0), ""),
        Row(Came::Packet(1, 7, LEAVES), Note::Noted(1, 1, 1, 0), ""),
        Row(Came::Flush, Note::Flushed(3), "2>1@9001 report 3"),
        Row(Came::Flush, Note::Nothing, ""),
    ];
    after_all(&rt, at_5(&rt, Mode::Partial), ROWS);
}

// 256 changes are pending, and no more. A flush takes 64 of them.
#[test]
fn a_flush_takes_64_changes(rt: HostRuntime) {
    const ROWS: &[Row] = &[
        Row(Came::Leaves(100), Note::Noted(64, 0, 0, 0), ""),
        Row(Came::Leaves(164), Note::Noted(64, 0, 0, 0), ""),
        Row(Came::Leaves(228), Note::Noted(64, 0, 0, 0), ""),
        Row(Came::Leaves(292), Note::Noted(64, 0, 0, 0), ""),
        Row(Came::Leaves(300), Note::Noted(0, 0, 56, 8), ""),
        Row(Came::Flush, Note::Flushed(64), "2>1@9001 report 64"),
        Row(Came::Flush, Note::Flushed(64), "2>1@9001 report 64"),
        Row(Came::Flush, Note::Flushed(64), "2>1@9001 report 64"),
        Row(Came::Flush, Note::Flushed(64), "2>1@9001 report 64"),
        Row(Came::Flush, Note::Nothing, ""),
    ];
    after_all(&rt, at_5(&rt, Mode::Partial), ROWS);
}
