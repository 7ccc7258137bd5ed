//! Calls on nodes with their links and logs: what they answer, send and log, and what is left where one of them fails.

ghost use Rattle.std.specs.Prelude.{◌≡◌, ◌≢◌, Some, []};

use crate::recovery_tests::{Seen, looked_at, recovered};
use crate::{After, Following, Leading, Note, State, Why, boot, boot_leader};
use cs_base::{Addr, Member, Mode, NodeId, Point, RegionId};
use cs_link::{MOST_DATAGRAM, MemLink};
use cs_log::{Armed, Arming, Log, MemLog};
use cs_packet::Own;
use cs_tree::Kept;
use std::process::Abort;

// Node 2 wants to join.
const JOIN: &[u8] = b"\x01\x01\0\0\0\x02\0\0\0\x01\x01\x01\0\0\0\x02\x7f\0\0\x01\x23\x2a\0\0\0\x0a\
    \0\0\0\0\0\0\0\0";

// Epoch 1, with the members 1 and 2.
pub(crate) const SNAP: &[u8] =
    b"\x01\x06\0\0\0\x01\0\0\0\x02\0\0\0\x01\x01\0\0\0\0\0\0\0\x02\0\0\0\0\0\0\0\x0a\
    \0\0\0\0\0\0\0\0\0\0\0\0\0\0\0\0\0\0\0\0\0\0\0\0\0\0\0\0\0\0\0\x0a\0\0\0\0\0\0\0\0\
    \x02\0\0\0\x01\x7f\0\0\x01\x23\x29\0\0\0\0\0\0\0\0\0\0\0\0\
    \0\0\0\x02\x7f\0\0\x01\x23\x2a\0\0\0\x0a\0\0\0\0\0\0\0\0\
    \x01\0\0\0\0\0\x02\0\0\0\x01\x7f\0\0\x01\x23\x29\0\0\0\0\0\0\0\0\0\0\0\0\
    \0\0\0\x02\x7f\0\0\x01\x23\x2a\0\0\0\x0a\0\0\0\0\0\0\0\0";

// Pieces of epoch 2, which nothing changed: 0, 1, 2 and 3.
pub(crate) const PIECE_0: &[u8] =
    b"\x01\x02\0\0\0\x01\0\0\0\x02\0\0\0\x02\0\0\0\0\0\0\0\0\x0d\0\0\0\x02\0";

pub(crate) const PIECE_1: &[u8] =
    b"\x01\x02\0\0\0\x01\0\0\0\x02\0\0\0\x02\0\0\0\0\x01\0\0\0\x0d\0\0\0\0\0";

pub(crate) const PIECE_2: &[u8] =
    b"\x01\x02\0\0\0\x01\0\0\0\x02\0\0\0\x02\0\0\0\0\x02\0\0\0\x0d\0\0\0\0\0";

pub(crate) const PIECE_3: &[u8] =
    b"\x01\x02\0\0\0\x01\0\0\0\x02\0\0\0\x02\0\0\0\0\x03\0\0\0\x0d\0\0\0\x02\0";

// The pieces 1 and 3 as node 2 sends them to node 1.
const PIECE_1_ON: &[u8] = b"\x01\x02\0\0\0\x02\0\0\0\x01\0\0\0\x02\0\0\0\0\x01\0\0\0\x0d\0\0\0\0\0";

const PIECE_3_ON: &[u8] =
    b"\x01\x02\0\0\0\x02\0\0\0\x01\0\0\0\x02\0\0\0\0\x03\0\0\0\x0d\0\0\0\x02\0";

// Node 2 moved to (20, 0, 0), and node 2 leaves.
const MOVE: &[u8] =
    b"\x01\x01\0\0\0\x02\0\0\0\x01\x01\x02\0\0\0\x02\0\0\0\x01\0\0\0\x14\0\0\0\0\0\0\0\0";

const LEAVE: &[u8] = b"\x01\x01\0\0\0\x02\0\0\0\x01\x01\x03\0\0\0\x02";

// A bye of epoch 5.
pub(crate) const BYE: &[u8] = b"\x01\x07\0\0\0\x01\0\0\0\x02\0\0\0\x05";

/// One call on a node.
#[derive(Clone, Copy)]
enum Step {
    Join,
    Take(&'static [u8]),
    Move,
    Leave,
    Flush,
    Ask,
    Need,
    Close,
}

/// What a node says, as far as it matters here.
#[derive(Clone, Copy, Debug, PartialEq, Eq)]
pub(crate) enum Said {
    Told,
    Jumped,
    Held,
    Already,
    Advanced,
    Moved,
    Nothing,
    Noted,
    Closed,
    Departed,
    LinkFault(u32),
    LogFault,
    Other,
}

pub(crate) fn answer_of(note: &Note) -> Said {
    match note {
        Note::Told { kept: None } => Said::Told,
        Note::Jumped(_) => Said::Jumped,
        Note::Held => Said::Held,
        Note::Already => Said::Already,
        Note::Advanced(_) => Said::Advanced,
        Note::Moved { seq: 1, kept: None } => Said::Moved,
        Note::Nothing => Said::Nothing,
        Note::Noted(_) => Said::Noted,
        Note::Closed { .. } => Said::Closed,
        Note::Departed => Said::Departed,
        Note::LinkFault { sent } => Said::LinkFault(*sent),
        Note::LogFault => Said::LogFault,
        _ => Said::Other,
    }
}

fn id(rt: &impl Abort, number: u32) -> NodeId
    ensures { result ≡ number }
{
    NodeId::new(number).expect(rt, "id")
}

fn member(rt: &impl Abort, number: u32, port: u16, x: i32) -> Member
    ensures { result.id ≡ number }
{
    Member {
        id: id(rt, number),
        addr: Addr::new([127, 0, 0, 1], port).expect(rt, "address"),
        at: Point::new(x, 0, 0).expect(rt, "point"),
    }
}

// Node 2, under node 1.
fn own(rt: &impl Abort) -> Own
    ensures { result.id ≢ result.leader }
{
    let me = member(rt, 2, 9002, 10);
    let leader = member(rt, 1, 9001, 0);
    Own {
        id: me.id,
        addr: me.addr,
        at: me.at,
        mode: Mode::Partial,
        leader: leader.id,
        leader_addr: leader.addr,
    }
}

// An empty log that fails at one of its calls; at none for 0.
pub(crate) fn log_failing<R: AllocGlobal + Abort>(rt: &R, call: u64) -> MemLog
    ensures { ⟦<MemLog as Log>⟧.bytes result ≡ Some [] }
{
    let mut log = MemLog::new(rt.alloc());
    log.fail(call).expect(rt, "memory");
    log
}

pub(crate) fn link_failing<R: AllocGlobal + Abort>(rt: &R, call: u64) -> MemLink {
    let mut link = MemLink::new(rt.alloc());
    link.fail(call).expect(rt, "memory");
    link
}

// Node 2 as it starts.
pub(crate) fn booted<R: AllocGlobal + Abort>(
    rt: &R,
    link: MemLink,
    log: MemLog,
) -> State<MemLink, MemLog>
    requires { ⟦<MemLog as Log>⟧.bytes log ≡ Some [] }
{
    match boot(rt.alloc(), own(rt), link, log) {
        Ok(node) => State::Joining(node),
        Err(stopped) => State::Stopped(stopped),
    }
}

// Node 1 as it starts.
fn booted_leader<R: AllocGlobal + Abort>(
    rt: &R,
    link: MemLink,
    log: MemLog,
) -> State<MemLink, MemLog>
    requires { ⟦<MemLog as Log>⟧.bytes log ≡ Some [] }
{
    match boot_leader(rt.alloc(), member(rt, 1, 9001, 0), link, log) {
        Ok(node) => State::Leading(node),
        Err(stopped) => State::Stopped(stopped),
    }
}

// What a step makes of a member.
fn stepped_member<G: Log>(
    rt: &impl Abort,
    node: Following<MemLink, G>,
    step: Step,
) -> After<MemLink, G> {
    match step {
        Step::Take(bytes) => node.deliver(bytes),
        Step::Move => node.moved(Point::new(20, 0, 0).expect(rt, "point")),
        Step::Leave => node.leave(),
        Step::Flush => node.flush(),
        Step::Ask => node.ask(id(rt, 1)),
        Step::Need => node.need(id(rt, 1), RegionId::new(0).expect(rt, "region")),
        Step::Join | Step::Close => After {
            node: State::Following(node),
            note: Note::Idle,
        },
    }
}

// What a step makes of a node; one that hasn't the call is as before.
fn stepped<G: Log>(rt: &impl Abort, node: State<MemLink, G>, step: Step) -> After<MemLink, G> {
    match (node, step) {
        (State::Joining(node), Step::Join) => node.join(),
        (State::Joining(node), Step::Ask) => node.ask(),
        (State::Joining(node), Step::Take(bytes)) => node.deliver(bytes),
        (State::Leading(node), Step::Close) => node.close(),
        (State::Leading(node), Step::Take(bytes)) => node.deliver(bytes),
        (State::Following(node), step) => stepped_member(rt, node, step),
        (node, _) => After {
            node,
            note: Note::Idle,
        },
    }
}

// The node after some steps, each of which is answered so.
fn run<G: Log>(
    rt: &impl Abort,
    node: State<MemLink, G>,
    steps: &[(Step, Said)],
) -> State<MemLink, G> {
    let mut node = node;
    for (step, expected) in steps {
        let after = stepped(rt, node, *step);
        assert_eq!(rt; answer_of(&after.note), *expected);
        node = after.node;
    }
    node
}

// The node after the same steps, whatever it answers, and how often it said that its link failed.
fn carried<G: Log>(
    rt: &impl Abort,
    node: State<MemLink, G>,
    steps: &[(Step, Said)],
) -> (State<MemLink, G>, u32) {
    let mut node = node;
    let mut faults = 0;
    for (step, _) in steps {
        let after = stepped(rt, node, *step);
        if answer_of(&after.note) == Said::LinkFault(0) {
            faults = 1;
        }
        node = after.node;
    }
    (node, faults)
}

// Node 2 joins, jumps to epoch 1, advances to epoch 2, moves and wants to leave.
const LIFE: [(Step, Said); 8] = [
    (Step::Join, Said::Told),
    (Step::Take(SNAP), Said::Jumped),
    (Step::Take(PIECE_0), Said::Held),
    (Step::Take(PIECE_1), Said::Held),
    (Step::Take(PIECE_2), Said::Advanced),
    (Step::Take(PIECE_3), Said::Already),
    (Step::Move, Said::Moved),
    (Step::Leave, Said::Told),
];

// What it sends on the way, to node 1.
pub(crate) const SENT: [&[u8]; 5] = [JOIN, PIECE_1_ON, PIECE_3_ON, MOVE, LEAVE];

// The datagram of this number, from 0, went to this port with these bytes.
pub(crate) fn is_sent(rt: &impl Abort, link: &MemLink, i: usize, port: u16, bytes: &[u8]) {
    let addr = Addr::new([127, 0, 0, 1], port).expect(rt, "address");
    assert_eq!(rt; link.sent(i), Some((addr, bytes)));
}

#[test]
fn a_node_joins_advances_moves_and_leaves(rt: HostRuntime) {
    let node = booted(&rt, link_failing(&rt, 0), log_failing(&rt, 0));
    let node = run(&rt, node, &LIFE);
    let (link, log) = node.stop();
    for (i, bytes) in SENT.iter().enumerate() {
        is_sent(&rt, &link, i, 9001, bytes);
    }
    assert!(rt; link.sent(5).is_none());
    // Its log has the start, the view, the step and the move.
    assert_eq!(rt; log.as_slice().len(), 39 + 162 + 23 + 21);
    let (found, _) = recovered(rt.alloc(), log);
    assert_eq!(rt; found, Seen::Member(2));
}

#[test]
fn a_member_asks_and_hands_on(rt: HostRuntime) {
    let node = booted(&rt, link_failing(&rt, 0), log_failing(&rt, 0));
    let steps = [
        (Step::Ask, Said::Told),
        (Step::Take(SNAP), Said::Jumped),
        (Step::Ask, Said::Told),
        (Step::Need, Said::Told),
        (Step::Flush, Said::Nothing),
        (Step::Take(BYE), Said::Departed),
    ];
    let (link, log) = run(&rt, node, &steps).stop();
    assert!(rt; link.sent(2).is_some());
    assert!(rt; link.sent(3).is_none());
    assert_eq!(rt; recovered(rt.alloc(), log).0, Seen::Left);
}

// What comes back where this call of the log failed.
fn left_by(call: u64) -> Seen {
    match call {
        1 => Seen::Stopped(Why::Empty),
        2 | 3 => Seen::Joining,
        4 | 5 => Seen::Member(1),
        _ => Seen::Member(2),
    }
}

#[test]
fn each_call_of_the_log_fails(rt: HostRuntime) {
    for call in 1..9 {
        let node = booted(&rt, link_failing(&rt, 0), log_failing(&rt, call));
        let (node, _) = carried(&rt, node, &LIFE);
        let (found, log) = looked_at(node);
        assert_eq!(rt; found, Seen::Stopped(Why::Log), "at {call}");
        assert_eq!(rt; log.faults(), 1, "at {call}");
        let (found, _) = recovered(rt.alloc(), log);
        assert_eq!(rt; found, left_by(call), "at {call}");
    }
}

#[test]
fn each_call_of_the_link_fails(rt: HostRuntime) {
    for call in 1..6 {
        let node = booted(&rt, link_failing(&rt, call), log_failing(&rt, 0));
        let (node, faults) = carried(&rt, node, &LIFE);
        assert_eq!(rt; faults, 1, "at {call}");
        let (link, log) = node.stop();
        assert_eq!(rt; link.faults(), 1, "at {call}");
        assert!(rt; link.sent(3).is_some(), "at {call}");
        assert!(rt; link.sent(4).is_none(), "at {call}");
        assert_eq!(rt; log.as_slice().len(), 245, "at {call}");
    }
}

// The leader takes node 2 in and closes a second epoch.
const CLOSES: [(Step, Said); 3] = [
    (Step::Take(JOIN), Said::Noted),
    (Step::Close, Said::Closed),
    (Step::Close, Said::LinkFault(1)),
];

#[test]
fn the_second_of_four_packets_fails(rt: HostRuntime) {
    // The first call of the link sends the snapshot.
    let node = booted_leader(&rt, link_failing(&rt, 3), log_failing(&rt, 0));
    let (link, log) = run(&rt, node, &CLOSES).stop();
    is_sent(&rt, &link, 1, 9002, PIECE_0);
    assert!(rt; link.sent(2).is_none());
    assert_eq!(rt; recovered(rt.alloc(), log).0, Seen::Leading(2));
}

#[test]
fn a_state_shows_its_link_and_its_view(rt: HostRuntime) {
    let state = booted_leader(&rt, link_failing(&rt, 0), log_failing(&rt, 0));
    assert_eq!(rt; state.link().faults(), 0);
    assert_eq!(rt; state.view().map(|view| view.epoch().get()), Some(0));
    let state = run(&rt, state, &[(Step::Take(JOIN), Said::Noted)]);
    state.is_of_its_kind();
    assert!(rt; state.view().is_some());
    assert!(rt; state.stop().0.sent(0).is_none());
}

#[test]
fn a_close_is_not_logged(rt: HostRuntime) {
    let node = booted_leader(&rt, link_failing(&rt, 0), log_failing(&rt, 3));
    let steps = [
        (Step::Take(JOIN), Said::Noted),
        (Step::Close, Said::LogFault),
    ];
    let (link, log) = run(&rt, node, &steps).stop();
    assert!(rt; link.sent(0).is_none());
    assert_eq!(rt; recovered(rt.alloc(), log).0, Seen::Leading(0));
}

// Node 2 at epoch 2, with a log that can be armed.
fn advanced<R: AllocGlobal + Abort>(rt: &R) -> Following<MemLink, Arming<MemLog>> {
    let log = Arming::new(log_failing(rt, 0));
    let node = boot(rt.alloc(), own(rt), link_failing(rt, 0), log)
        .ok()
        .expect(rt, "memory");
    let node = run(rt, State::Joining(node), &LIFE[..5]);
    match node {
        State::Following(node) => Some(node),
        _ => None,
    }
    .expect(rt, "member")
}

// Node 1 at epoch 1, when it took node 2 in.
fn closed<R: AllocGlobal + Abort>(rt: &R) -> Leading<MemLink, MemLog> {
    let node = booted_leader(rt, link_failing(rt, 0), log_failing(rt, 0));
    match run(rt, node, &CLOSES[..2]) {
        State::Leading(node) => Some(node),
        _ => None,
    }
    .expect(rt, "leader")
}

// One region, with the members 1 and 2: each is the root of a local tree, with the other below it.
fn check_trees(rt: &impl Abort, kept: &Kept) {
    for colour in 0..4 {
        let tree = kept.inter_tree(colour);
        assert_eq!(rt; tree.root(), 0);
        assert!(rt; tree.children(0).is_empty());
    }
    let region = RegionId::new(0).expect(rt, "region");
    for (colour, root, child) in [(0, 1, 2), (1, 2, 1)] {
        let tree = kept.local_tree(region, colour).expect(rt, "tree");
        assert_eq!(rt; tree.root(), root);
        assert_eq!(rt; tree.children(root), [child].as_slice());
        assert!(rt; tree.children(child).is_empty());
    }
    assert!(rt; kept.local_tree(region, 2).is_none());
}

#[test]
fn a_member_and_the_leader_keep_the_trees_of_their_view(rt: HostRuntime) {
    check_trees(&rt, advanced(&rt).kept());
    check_trees(&rt, closed(&rt).kept());
}

#[test]
fn an_armed_move_is_torn(rt: HostRuntime) {
    for b in 0..24 {
        let mut node = advanced(&rt);
        node.arm(b);
        assert_eq!(rt; node.armed(), Some(b));
        let after = stepped_member(&rt, node, Step::Move);
        assert_eq!(rt; answer_of(&after.note), Said::LogFault);
        let (link, log) = after.node.stop();
        assert!(rt; link.sent(3).is_none());
        assert!(rt; log.armed().is_none());
        // The move has 21 bytes.
        let kept = 39 + 162 + 23 + b.min(21) as usize;
        let log = log.into_inner();
        assert_eq!(rt; log.as_slice().len(), kept);
        let (found, _) = recovered(rt.alloc(), log);
        assert_eq!(rt; found, Seen::Member(2));
    }
}

#[test]
fn a_state_is_armed(rt: HostRuntime) {
    let mut state = State::Following(advanced(&rt));
    state.arm(7);
    assert_eq!(rt; state.armed(), Some(7));
    let After { mut node, note } = stepped(&rt, state, Step::Move);
    assert_eq!(rt; answer_of(&note), Said::LogFault);
    assert!(rt; node.armed().is_none());
    node.arm(9);
    assert_eq!(rt; node.armed(), Some(9));
}

// A link to which BYE came.
pub(crate) fn reached_link<R: AllocGlobal + Abort>(rt: &R) -> MemLink {
    let mut link = link_failing(rt, 0);
    link.arrive(BYE).expect(rt, "memory");
    link
}

// The node receives BYE, and then nothing.
fn check_receives<R: AllocGlobal + Abort>(rt: &R, node: State<MemLink, MemLog>) {
    let mut node = node;
    let mut buffer = vec![in rt.alloc(); 0; MOST_DATAGRAM].expect(rt, "memory");
    assert_eq!(rt; node.recv(&mut buffer), Ok(Some(BYE.len())));
    assert!(rt; buffer.starts_with(BYE));
    assert_eq!(rt; node.recv(&mut buffer), Ok(None));
    assert_eq!(rt; (node.link().taken(), node.link().dry()), (1, 1));
}

#[test]
fn nodes_receive_in_each_state(rt: HostRuntime) {
    // One that is joining, a member, and one that left.
    let rows: [&[(Step, Said)]; 3] = [&[], &LIFE[..2], &[(Step::Take(BYE), Said::Departed)]];
    for steps in rows {
        let node = booted(&rt, reached_link(&rt), log_failing(&rt, 0));
        check_receives(&rt, run(&rt, node, steps));
    }
    let stopped = booted(&rt, reached_link(&rt), log_failing(&rt, 1));
    check_receives(&rt, stopped);
    let leader = booted_leader(&rt, reached_link(&rt), log_failing(&rt, 0));
    check_receives(&rt, leader);
}
