//! What comes back of logs: whole ones, cut ones, ones that a stranger wrote, and ones that fail.

use crate::{State, Why, recover};
use cs_link::{CleanLink, Link};
use cs_log::MemLog;
use std::alloc::Global;
use std::process::Abort;
use std::test::Fail;

// Node 1, which leads, as it started: 39 bytes with the length in front.
pub(crate) const LEADS: &[u8] =
    b"\0\0\0\x23\x01\x01\0\0\0\x01\x7f\0\0\x01\x23\x29\0\0\0\0\0\0\0\0\0\0\0\0\x01\
    \0\0\0\x01\x7f\0\0\x01\x23\x29";

// Node 2 under it, at (10, 0, 0).
pub(crate) const FOLLOWS: &[u8] =
    b"\0\0\0\x23\x01\0\0\0\0\x02\x7f\0\0\x01\x23\x2a\0\0\0\x0a\0\0\0\0\0\0\0\0\0\
    \0\0\0\x01\x7f\0\0\x01\x23\x29";

// Epoch 1 begins, with node 2 as a member: 33 bytes.
const JOINED: &[u8] = b"\0\0\0\x1d\x06\0\0\0\x01\x01\x01\0\0\0\x02\x7f\0\0\x01\x23\x2a\0\0\0\x0a\
    \0\0\0\0\0\0\0\0";

// An epoch begins without a change: 10 bytes.
const FIRST: &[u8] = b"\0\0\0\x06\x06\0\0\0\x01\0";

const SECOND: &[u8] = b"\0\0\0\x06\x06\0\0\0\x02\0";

// The node is no member at epoch 5: 9 bytes.
const GONE: &[u8] = b"\0\0\0\x05\x05\0\0\0\x05";

// The first move of a node: 21 bytes.
const MOVED: &[u8] = b"\0\0\0\x11\x02\0\0\0\x01\0\0\0\0\0\0\0\0\0\0\0\0";

// Bytes that are no entry.
pub(crate) const STRANGE: &[u8] = b"\0\0\0\x01\x09";

// Epoch 1, with the members 1 and 2: 162 bytes.
const VIEW: &[u8] =
    b"\0\0\0\x9e\x03\0\0\0\x01\x01\0\0\0\0\0\0\0\x02\0\0\0\0\0\0\0\x0a\0\0\0\0\0\0\0\0\0\0\0\0\0\0\0\
    \0\0\0\0\0\0\0\0\0\0\0\0\0\0\0\0\x0a\0\0\0\0\0\0\0\0\x02\0\0\0\x01\x7f\0\0\x01\x23\x29\0\0\0\0\
    \0\0\0\0\0\0\0\0\0\0\0\x02\x7f\0\0\x01\x23\x2a\0\0\0\x0a\0\0\0\0\0\0\0\0\x01\0\0\0\0\0\x02\0\0\
    \0\x01\x7f\0\0\x01\x23\x29\0\0\0\0\0\0\0\0\0\0\0\0\0\0\0\x02\x7f\0\0\x01\x23\x2a\0\0\0\x0a\0\0\
    \0\0\0\0\0\0";

// The same with the members 1 and 3.
const VIEW_OF_OTHERS: &[u8] =
    b"\0\0\0\x9e\x03\0\0\0\x01\x01\0\0\0\0\0\0\0\x02\0\0\0\0\0\0\0\x0a\0\0\0\0\0\0\0\0\0\0\0\0\0\0\0\
    \0\0\0\0\0\0\0\0\0\0\0\0\0\0\0\0\x0a\0\0\0\0\0\0\0\0\x02\0\0\0\x01\x7f\0\0\x01\x23\x29\0\0\0\0\
    \0\0\0\0\0\0\0\0\0\0\0\x03\x7f\0\0\x01\x23\x2a\0\0\0\x0a\0\0\0\0\0\0\0\0\x01\0\0\0\0\0\x02\0\0\
    \0\x01\x7f\0\0\x01\x23\x29\0\0\0\0\0\0\0\0\0\0\0\0\0\0\0\x03\x7f\0\0\x01\x23\x2a\0\0\0\x0a\0\0\
    \0\0\0\0\0\0";

// Nothing changed at epoch 2: 23 bytes.
const STEP: &[u8] = b"\0\0\0\x13\x04\x01\0\0\0\x0d\0\0\0\x02\0\0\0\0\0\0\0\0\0";

// The slices of region 0 at epoch 2 and of region 3 at epoch 3.
const STEP_OF_TWO_EPOCHS: &[u8] =
    b"\0\0\0\x24\x04\x02\0\0\0\x0d\0\0\0\x02\0\0\0\0\0\0\0\0\0\0\0\0\x0d\0\0\0\x03\0\0\0\x03\0\0\0\0\
    \0";

// What a state is: joining, a member at an epoch, the leader at an epoch, a node that left, or why it stopped.
#[derive(Clone, Copy, Debug, PartialEq, Eq)]
pub(crate) enum Seen {
    Joining,
    Member(u32),
    Leading(u32),
    Left,
    Stopped(Why),
}

// What the state is, and its log.
pub(crate) fn looked_at<L: Link + Drop>(state: State<L, MemLog>) -> (Seen, MemLog) {
    match state {
        State::Joining(node) => (Seen::Joining, node.stop().1),
        State::Following(node) => {
            let epoch = node.view().epoch().get();
            (Seen::Member(epoch), node.stop().1)
        }
        State::Leading(node) => {
            let epoch = node.view().epoch().get();
            (Seen::Leading(epoch), node.stop().1)
        }
        State::Left(node) => (Seen::Left, node.stop().1),
        State::Stopped(node) => (Seen::Stopped(node.why), node.log),
    }
}

// What comes back of these bytes, and the bytes that are left.
pub(crate) fn recovered(alloc: Global, log: MemLog) -> (Seen, MemLog) {
    looked_at(recover(alloc, CleanLink::new(alloc), log))
}

// Looks at what comes back of the parts of a log, and how many bytes of them are left.
fn check<R: AllocGlobal + Abort>(
    rt: &R,
    parts: &[&[u8]],
    expected: Seen,
    len: usize,
) -> Result<(), Fail> {
    let mut bytes = Vec::new(rt.alloc());
    for part in parts {
        bytes.extend_from_slice(part)?;
    }
    let (found, log) = recovered(rt.alloc(), MemLog::from_slice(rt.alloc(), &bytes)?);
    assert_eq!(rt; found, expected);
    let left = bytes.get(..len).ok_or("length")?;
    assert_eq!(rt; log.as_slice(), left);
    Ok(())
}

#[test]
fn a_whole_log_gives_its_node(rt: HostRuntime) -> Result<(), Fail> {
    check(&rt, &[LEADS], Seen::Leading(0), 39)?;
    check(&rt, &[LEADS, JOINED], Seen::Leading(1), 72)?;
    check(&rt, &[LEADS, JOINED, SECOND], Seen::Leading(2), 82)?;
    check(&rt, &[FOLLOWS], Seen::Joining, 39)?;
    check(&rt, &[FOLLOWS, GONE], Seen::Left, 48)
}

#[test]
fn a_member_comes_back_at_its_epoch(rt: HostRuntime) -> Result<(), Fail> {
    check(&rt, &[FOLLOWS, VIEW], Seen::Member(1), 201)?;
    check(&rt, &[FOLLOWS, VIEW, STEP, MOVED], Seen::Member(2), 245)?;
    check(&rt, &[FOLLOWS, VIEW, MOVED, b"\0"], Seen::Member(1), 222)?;
    check(
        &rt,
        &[FOLLOWS, VIEW_OF_OTHERS],
        Seen::Stopped(Why::Bad(39)),
        201,
    )?;
    check(
        &rt,
        &[FOLLOWS, VIEW, STEP_OF_TWO_EPOCHS],
        Seen::Stopped(Why::Bad(201)),
        241,
    )
}

#[test]
fn the_first_bad_frame_is_named(rt: HostRuntime) -> Result<(), Fail> {
    check(&rt, &[], Seen::Stopped(Why::Empty), 0)?;
    check(&rt, &[STRANGE], Seen::Stopped(Why::Bad(0)), 5)?;
    check(&rt, &[GONE, STRANGE], Seen::Stopped(Why::Bad(0)), 14)?;
    check(&rt, &[FOLLOWS, FIRST], Seen::Stopped(Why::Bad(39)), 49)?;
    check(&rt, &[FOLLOWS, MOVED], Seen::Stopped(Why::Bad(39)), 60)?;
    check(
        &rt,
        &[FOLLOWS, GONE, MOVED],
        Seen::Stopped(Why::Bad(48)),
        69,
    )?;
    check(&rt, &[LEADS, LEADS], Seen::Stopped(Why::Bad(39)), 78)?;
    check(&rt, &[LEADS, SECOND], Seen::Stopped(Why::Bad(39)), 49)?;
    check(
        &rt,
        &[LEADS, JOINED, JOINED],
        Seen::Stopped(Why::Bad(72)),
        105,
    )?;
    check(
        &rt,
        &[LEADS, STRANGE, FIRST],
        Seen::Stopped(Why::Bad(39)),
        54,
    )
}

// The node after the first so many bytes of a leader's log.
fn cut_at(len: usize) -> (Seen, usize) {
    match len {
        0..=38 => (Seen::Stopped(Why::Empty), len),
        39..=71 => (Seen::Leading(0), 39),
        _ => (Seen::Leading(1), 72),
    }
}

#[test]
fn a_log_is_cut_at_every_byte(rt: HostRuntime) -> Result<(), Fail> {
    let mut bytes = Vec::from_slice(rt.alloc(), LEADS)?;
    bytes.extend_from_slice(JOINED)?;
    for len in 0..73 {
        let front = bytes.get(..len).ok_or("length")?;
        let (expected, left) = cut_at(len);
        check(&rt, &[front], expected, left)?;
    }
    Ok(())
}

// A log with a torn tail, which fails at one of its calls.
fn failing<R: AllocGlobal + Abort>(rt: &R, call: u64) -> Result<MemLog, Fail> {
    let mut bytes = Vec::from_slice(rt.alloc(), FOLLOWS)?;
    bytes.extend_from_slice(b"\0\0")?;
    let mut log = MemLog::from_slice(rt.alloc(), &bytes)?;
    log.fail(call)?;
    Ok(log)
}

#[test]
fn a_log_that_fails_stops_the_node(rt: HostRuntime) -> Result<(), Fail> {
    for (call, left) in [(1, 41), (2, 41), (3, 39)] {
        let (found, log) = recovered(rt.alloc(), failing(&rt, call)?);
        assert_eq!(rt; found, Seen::Stopped(Why::Log), "at {call}");
        assert_eq!(rt; log.as_slice().len(), left, "at {call}");
        assert_eq!(rt; log.faults(), 1, "at {call}");
    }
    let (found, _) = recovered(rt.alloc(), failing(&rt, 4)?);
    assert_eq!(rt; found, Seen::Joining);
    Ok(())
}
