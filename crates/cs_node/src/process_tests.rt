//! Nodes that are called in their place: what they answer, send and log, and when none runs any more.

use crate::call_tests::{
    BYE, PIECE_0, PIECE_1, PIECE_2, PIECE_3, SENT, SNAP, Said, answer_of, booted, is_sent,
    link_failing, log_failing, reached_link,
};
use crate::recovery_tests::{Seen, looked_at, recovered};
use crate::{Node, Process};
use cs_link::{MOST_DATAGRAM, MemLink};
use cs_log::{Armed, Arming, Log, MemLog};
use std::process::Abort;

// What the node that runs answers to bytes.
fn taken<G: Log>(process: &mut Process<MemLink, G>, bytes: &[u8]) -> Option<Said> {
    match process.deliver(bytes) {
        Some(note) => Some(answer_of(&note)),
        None => None,
    }
}

// Node 2 as it starts, with a log that fails at one of its calls; at none for 0.
fn started<R: AllocGlobal + Abort>(rt: &R, call: u64) -> Process<MemLink, MemLog> {
    let state = booted(rt, link_failing(rt, 0), log_failing(rt, call));
    Process::of(rt.alloc(), state)
}

// What the process is, as a state.
fn seen(process: Process<MemLink, MemLog>) -> Option<(Seen, MemLog)> {
    match process.state() {
        Ok(state) => Some(looked_at(state)),
        Err(_) => None,
    }
}

#[test]
fn a_node_jumps_and_advances_in_its_place(rt: HostRuntime) {
    let mut process = started(&rt, 0);
    assert!(rt; process.is_up());
    assert!(rt; process.view().is_none());
    let takes = [
        (SNAP, Said::Jumped),
        (PIECE_0, Said::Held),
        (PIECE_1, Said::Held),
        (PIECE_2, Said::Advanced),
        (PIECE_3, Said::Already),
    ];
    for (bytes, said) in takes {
        assert_eq!(rt; taken(&mut process, bytes), Some(said));
    }
    let view = process.view().expect(&rt, "view");
    assert_eq!(rt; view.epoch().get(), 2);
    for (i, bytes) in SENT[1..3].iter().enumerate() {
        is_sent(&rt, process.link(), i, 9001, bytes);
    }
    assert!(rt; process.link().sent(2).is_none());
    let (found, log) = seen(process).expect(&rt, "state");
    assert_eq!(rt; found, Seen::Member(2));
    assert_eq!(rt; log.as_slice().len(), 39 + 162 + 23);
}

#[test]
fn a_node_leaves_in_its_place(rt: HostRuntime) {
    let mut process = started(&rt, 0);
    assert_eq!(rt; taken(&mut process, BYE), Some(Said::Departed));
    assert!(rt; matches!(process.node(), Some(Node::Left)));
    assert_eq!(rt; taken(&mut process, SNAP), Some(Said::Departed));
    let (found, _) = seen(process).expect(&rt, "state");
    assert_eq!(rt; found, Seen::Left);
}

#[test]
fn a_node_whose_log_fails_runs_no_more(rt: HostRuntime) {
    // The start was appended and synced by two calls.
    let mut process = started(&rt, 3);
    assert_eq!(rt; taken(&mut process, SNAP), Some(Said::LogFault));
    assert!(rt; !process.is_up());
    assert!(rt; process.node().is_none());
    assert!(rt; process.view().is_none());
    assert_eq!(rt; taken(&mut process, SNAP), None);
    assert!(rt; process.link().sent(0).is_none());
    let (_, log) = process.stop();
    assert_eq!(rt; log.faults(), 1);
    assert_eq!(rt; recovered(rt.alloc(), log).0, Seen::Joining);
}

#[test]
fn one_that_stopped_does_not_run(rt: HostRuntime) {
    let process = started(&rt, 1);
    assert!(rt; !process.is_up());
    assert!(rt; seen(process).is_none());
}

#[test]
fn a_process_is_armed_and_receives_without_a_node(rt: HostRuntime) {
    let alloc = rt.alloc();
    let log = Arming::new(log_failing(&rt, 0));
    let mut process = Process::down(alloc, reached_link(&rt), log);
    assert!(rt; process.armed().is_none());
    process.arm(7);
    assert_eq!(rt; process.armed(), Some(7));
    let mut buffer = vec![in alloc; 0; MOST_DATAGRAM].expect(&rt, "memory");
    assert_eq!(rt; process.recv(&mut buffer), Ok(Some(BYE.len())));
    assert!(rt; buffer.starts_with(BYE));
    assert_eq!(rt; process.recv(&mut buffer), Ok(None));
    assert_eq!(rt; taken(&mut process, BYE), None);
    let (link, log) = process.stop();
    assert_eq!(rt; (link.taken(), link.dry()), (1, 1));
    assert_eq!(rt; log.armed(), Some(7));
}
