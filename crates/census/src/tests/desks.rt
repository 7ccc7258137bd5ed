// What a desk has at the end of a run, and runs in which a link or a log fails, or can't be granted.

ghost use Rattle.std.specs.Prelude.{◌≡◌, [], IfOk};

use super::{NODE, REPLAY, copy, run_over, schedule_of, words};
use crate::memory::{CleanSink, CleanSource};
use crate::status::Status;
use crate::tests::joins::TWO_JOINERS;
use crate::tests::node::TWICE_ALONE;
use crate::tests::restarts::{MEMBER_BACK, TORN, TORN_BEHIND};
use cs_base::{Addr, NodeId};
use cs_link::{Ground, GroundFault, MemDesk, MemLink};
use cs_log::MemLog;
use std::alloc::{AllocError, Global};
use std::process::Abort;

// The log of node 1, which leads, as it started: 39 bytes with the length in front.
const LEADS: &[u8] = b"\0\0\0\x23\x01\x01\0\0\0\x01\x7f\0\0\x01\x23\x29\0\0\0\0\0\0\0\0\0\0\0\0\x01\
    \0\0\0\x01\x7f\0\0\x01\x23\x29";

// The log of node 2 under it, at (10, 0, 0), as it started.
const FOLLOWS: &[u8] = b"\0\0\0\x23\x01\0\0\0\0\x02\x7f\0\0\x01\x23\x2a\0\0\0\x0a\0\0\0\0\0\0\0\0\0\
    \0\0\0\x01\x7f\0\0\x01\x23\x29";

// The log of node 1 once it began epoch 1 with node 2 as a member: 33 bytes more.
pub(crate) const LEADS_TWO: &[u8] =
    b"\0\0\0\x23\x01\x01\0\0\0\x01\x7f\0\0\x01\x23\x29\0\0\0\0\0\0\0\0\0\0\0\0\
    \x01\0\0\0\x01\x7f\0\0\x01\x23\x29\0\0\0\x1d\x06\0\0\0\x01\x01\x01\0\0\0\x02\x7f\0\0\x01\x23\x2a\
    \0\0\0\x0a\0\0\0\0\0\0\0\0";

// The report of node 2 with its join.
const REPORT: &[u8] =
    b"\x01\x01\0\0\0\x02\0\0\0\x01\x01\x01\0\0\0\x02\x7f\0\0\x01\x23\x2a\0\0\0\x0a\
    \0\0\0\0\0\0\0\0";

// Node 2 joins, and the leader begins epoch 1 with it.
const JOINED: &[u8] = b"lead 1 127.0.0.1:9001 0 0 0\nboot 2 127.0.0.1:9002 10 0 0 partial\njoin 2\n\
    deliver 1\nclose\n";

// What fails of a node.
#[derive(Clone, Copy, Debug)]
pub(crate) enum Failing {
    // Granting.
    Grant,
    // Its link, at the call of this number.
    Link(u64),
    // Its log, at the call of this number.
    Log(u64),
}

// Grants links and logs in memory, and makes those of one node fail.
#[derive(Debug, Drop)]
pub(crate) struct FailingDesk {
    desk: MemDesk,
    id: NodeId,
    failing: Failing,
    faults: u64,
}

impl FailingDesk {
    pub(crate) fn new(alloc: Global, id: NodeId, failing: Failing) -> Result<Self, AllocError>
        ensures { IfOk result (λ desk. ⟦<FailingDesk as Ground>⟧.out desk ≡ []) }
    {
        let mut desk = MemDesk::new(alloc);
        make_fail(&mut desk, id, failing)?;
        Ok(FailingDesk {
            desk,
            id,
            failing,
            faults: 0,
        })
    }
}

// Makes the call of the node's link or log fail, if that is what fails.
fn make_fail(desk: &mut MemDesk, id: NodeId, failing: Failing) -> Result<(), AllocError>
    ensures { ⟦<MemDesk as Ground>⟧.out desk.new ≡ ⟦<MemDesk as Ground>⟧.out desk.old }
{
    match failing {
        Failing::Grant => Ok(()),
        Failing::Link(call) => desk.fail_link(id, call),
        Failing::Log(call) => desk.fail_log(id, call),
    }
}

impl Ground for FailingDesk {
    ghost use Rattle.std.proofs.Common.{refl};

    type Wire = MemLink;

    type Store = MemLog;

    ghost logs = { λ desk. ⟦<MemDesk as Ground>⟧.logs desk.desk };

    ghost traffic = { λ desk. ⟦<MemDesk as Ground>⟧.traffic desk.desk };

    ghost out = { λ desk. ⟦<MemDesk as Ground>⟧.out desk.desk };

    ghost faults = { λ desk. desk.faults };

    ghost link_faults = { λ desk. ⟦<MemDesk as Ground>⟧.link_faults desk.desk };

    ghost log_faults = { λ desk. ⟦<MemDesk as Ground>⟧.log_faults desk.desk };

    ghost taken = { λ desk. ⟦<MemDesk as Ground>⟧.taken desk.desk };

    ghost dry = { λ desk. ⟦<MemDesk as Ground>⟧.dry desk.desk };

    ghost logs_tell = { λ desk store told. refl };

    ghost links_tell = { λ desk wire told. refl };

    fn grant(&mut self, id: NodeId, addr: Addr) -> Result<(MemLink, MemLog), GroundFault> {
        if id == self.id && matches!(self.failing, Failing::Grant) {
            self.faults = self.faults.saturating_add(1);
            return Err(GroundFault::Failed);
        }
        self.desk.grant(id, addr)
    }

    fn keep(&mut self, id: NodeId, wire: MemLink, store: MemLog) {
        self.desk.keep(id, wire, store);
    }
}

pub(crate) fn node<R: Abort>(rt: &R, number: u32) -> NodeId {
    NodeId::new(number).expect(rt, "id")
}

// What a desk has once a schedule was told, with the status that is wanted.
pub(crate) fn kept<R: AllocGlobal + Abort>(rt: &R, input: &[u8], end: Status) -> MemDesk {
    let mut source = CleanSource::new(copy(rt, input));
    let mut sink = CleanSink::new(rt.alloc());
    let mut desk = MemDesk::new(rt.alloc());
    let replay = words(rt, &[REPLAY]);
    let status = run_over(rt.alloc(), &replay, &mut source, &mut sink, &mut desk);
    assert_eq!(rt; status, end);
    desk
}

pub(crate) fn check_log<R: Abort>(rt: &R, desk: &MemDesk, number: u32, bytes: &[u8]) {
    let log = desk.log(node(rt, number)).expect(rt, "log");
    assert_eq!(rt; log.as_slice(), bytes, "of node {number}");
}

#[test]
fn the_log_of_a_leader_alone(rt: HostRuntime) {
    let desk = kept(&rt, b"lead 1 127.0.0.1:9001 0 0 0\n", Status::Done);
    check_log(&rt, &desk, 1, LEADS);
    let link = desk.link(node(&rt, 1)).expect(&rt, "link");
    assert!(rt; link.sent(0).is_none());
    assert!(rt; desk.log(node(&rt, 2)).is_none());
}

// Looks at what a desk has once node 2 joined.
fn check_joined<R: AllocGlobal + Abort>(rt: &R, input: &[u8], end: Status) {
    let desk = kept(rt, input, end);
    check_log(rt, &desk, 1, LEADS_TWO);
    check_log(rt, &desk, 2, FOLLOWS);
    let leader = Addr::new([127, 0, 0, 1], 9001).expect(rt, "address");
    let link = desk.link(node(rt, 2)).expect(rt, "link");
    assert_eq!(rt; link.sent(0), Some((leader, REPORT)));
    assert!(rt; link.sent(1).is_none());
}

#[test]
fn the_logs_and_the_traffic_of_two(rt: HostRuntime) {
    check_joined(&rt, JOINED, Status::Done);
    let mut faulty = copy(&rt, JOINED);
    faulty.extend_from_slice(b"join\n").expect(&rt, "memory");
    check_joined(&rt, &faulty, Status::Script);
}

// Looks at a run, of a word and a transcript, over a desk of which something fails.
fn check_failure<R: AllocGlobal + Abort>(
    rt: &R,
    (form, transcript): (&[u8], &str),
    number: u32,
    failing: Failing,
    end: Status,
) {
    let mut source = CleanSource::new(schedule_of(rt, transcript));
    let mut sink = CleanSink::new(rt.alloc());
    let mut desk = FailingDesk::new(rt.alloc(), node(rt, number), failing).expect(rt, "memory");
    let form = words(rt, &[form]);
    let status = run_over(rt.alloc(), &form, &mut source, &mut sink, &mut desk);
    assert_eq!(rt; status, end, "at {failing:?} of node {number}");
    assert!(rt; transcript.as_bytes().starts_with(sink.written()));
    assert_eq!(rt;
        sink.written() == transcript.as_bytes(),
        end == Status::Done
    );
}

// Looks at runs over a desk that grants nothing to a node, and over desks on which one call of its link or of its log
// fails, where the node sends so many packets and its log is called so often.
fn check_each_failure<R: AllocGlobal + Abort>(
    rt: &R,
    run: (&[u8], &str),
    number: u32,
    sends: u64,
    calls: u64,
) {
    check_failure(rt, run, number, Failing::Grant, Status::Link);
    for call in 1..=sends {
        check_failure(rt, run, number, Failing::Link(call), Status::Link);
    }
    let behind = sends.saturating_add(1);
    check_failure(rt, run, number, Failing::Link(behind), Status::Done);
    for call in 1..=calls {
        check_failure(rt, run, number, Failing::Log(call), Status::Log);
    }
    let behind = calls.saturating_add(1);
    check_failure(rt, run, number, Failing::Log(behind), Status::Done);
}

#[test]
fn failing_desks(rt: HostRuntime) {
    // An entry takes two calls of the log.
    let group = (REPLAY, TWO_JOINERS);
    let rows: [((&[u8], &str), u32, u64, u64); 4] = [
        (group, 1, 6, 6),
        (group, 2, 3, 6),
        (group, 3, 1, 4),
        ((NODE, TWICE_ALONE), 2, 3, 6),
    ];
    for (run, number, sends, calls) in rows {
        check_each_failure(&rt, run, number, sends, calls);
    }
}

#[test]
fn desks_that_fail_nodes_which_come_back(rt: HostRuntime) {
    // An entry that is torn takes one call of the log, and a restart takes three.
    let rows = [
        (TORN, 1, 1, 8),
        (TORN, 2, 1, 2),
        (TORN, 3, 1, 2),
        (TORN_BEHIND, 1, 5, 8),
        (MEMBER_BACK, 1, 5, 6),
        (MEMBER_BACK, 2, 6, 16),
    ];
    for (transcript, number, sends, calls) in rows {
        check_each_failure(&rt, (REPLAY, transcript), number, sends, calls);
    }
}
