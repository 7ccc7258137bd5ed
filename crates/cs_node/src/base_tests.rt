//! Logs of a leader that begin anew by a base, whole and damaged.

use crate::Why;
use crate::recovery_tests::{FOLLOWS, LEADS, STRANGE, Seen, recovered};
use cs_log::MemLog;
use std::process::Abort;
use std::test::Fail;

// Epoch 17 of a leader that is alone, by a base: 48 bytes.
const BASE_17: &[u8] =
    b"\0\0\0\x2c\x07\0\0\0\x11\0\0\0\x01\0\0\0\x01\0\0\0\0\0\0\0\x01\x7f\0\0\x01\x23\x29\0\0\0\0\0\0\0\0\0\
    \0\0\0\0\0\0\0\0";

// The same for epoch 5, and for epoch 17 where the leader's own id had left.
const BASE_5: &[u8] =
    b"\0\0\0\x2c\x07\0\0\0\x05\0\0\0\x01\0\0\0\x01\0\0\0\0\0\0\0\x01\x7f\0\0\x01\x23\x29\0\0\0\0\0\0\0\0\0\
    \0\0\0\0\0\0\0\0";

const LEFT: &[u8] =
    b"\0\0\0\x30\x07\0\0\0\x11\0\0\0\x01\0\x01\0\0\0\x01\0\x01\0\0\0\0\0\0\0\x01\x7f\0\0\x01\x23\x29\0\0\0\
    \0\0\0\0\0\0\0\0\0\0\0\0\0\0";

// Epoch 18 begins without a change: 10 bytes.
const ITEM_18: &[u8] = b"\0\0\0\x06\x06\0\0\0\x12\0";

// Bytes that begin as a base does, and are none.
const DAMAGED: &[u8] = b"\0\0\0\x02\x07\x01";

// What comes back of these bytes, and how many of them are left.
fn found<R: AllocGlobal + Abort>(rt: &R, bytes: &[u8]) -> Result<(Seen, usize), Fail> {
    let (seen, log) = recovered(rt.alloc(), MemLog::from_slice(rt.alloc(), bytes)?);
    let left = log.as_slice();
    assert_eq!(rt; Some(left), bytes.get(..left.len()));
    Ok((seen, left.len()))
}

fn found_in<R: AllocGlobal + Abort>(rt: &R, parts: &[&[u8]]) -> Result<(Seen, usize), Fail> {
    let mut bytes = Vec::new(rt.alloc());
    for part in parts {
        bytes.extend_from_slice(part)?;
    }
    found(rt, &bytes)
}

// A leader's log of epoch 16, each of which began without a change: 199 bytes.
fn sixteen_items<R: AllocGlobal>(rt: &R) -> Result<Vec<u8>, Fail> {
    let mut bytes = Vec::from_slice(rt.alloc(), LEADS)?;
    for epoch in 1..17 {
        bytes.extend_from_slice(&[0, 0, 0, 6, 6, 0, 0, 0, epoch, 0])?;
    }
    Ok(bytes)
}

// The same with the base of epoch 17, and with a damaged first item.
fn with_base<R: AllocGlobal>(rt: &R, kind: u8) -> Result<Vec<u8>, Fail> {
    let mut bytes = sixteen_items(rt)?;
    bytes.extend_from_slice(BASE_17)?;
    if let Some(byte) = bytes.get_mut(43) {
        *byte = kind;
    }
    Ok(bytes)
}

// What is found of the first so many bytes: without the whole base all items are looked at.
fn cut_at(len: usize, kind: u8) -> (Seen, usize) {
    match (len, kind) {
        (247, _) => (Seen::Leading(17), 247),
        (_, 6) => (Seen::Leading(16), 199),
        _ => (Seen::Stopped(Why::Bad(39)), len),
    }
}

#[test]
fn a_base_is_cut_at_every_byte(rt: HostRuntime) -> Result<(), Fail> {
    for kind in [6, 9] {
        let bytes = with_base(&rt, kind)?;
        assert_eq!(rt; bytes.len(), 247);
        for len in 199..248 {
            let front = bytes.get(..len).ok_or("length")?;
            assert_eq!(rt; found(&rt, front)?, cut_at(len, kind), "at {len}");
        }
    }
    Ok(())
}

#[test]
fn the_last_base_counts(rt: HostRuntime) -> Result<(), Fail> {
    for (parts, seen, left) in [
        ([LEADS, BASE_17, ITEM_18, BASE_5], Seen::Leading(5), 145),
        ([LEADS, STRANGE, BASE_17, ITEM_18], Seen::Leading(18), 102),
        ([LEADS, DAMAGED, LEFT, BASE_5], Seen::Leading(5), 145),
        ([LEADS, BASE_5, BASE_17, ITEM_18], Seen::Leading(18), 145),
        (
            [LEADS, BASE_5, ITEM_18, STRANGE],
            Seen::Stopped(Why::Bad(87)),
            102,
        ),
        (
            [LEADS, BASE_5, BASE_17, DAMAGED],
            Seen::Stopped(Why::Bad(135)),
            141,
        ),
        (
            [LEADS, BASE_17, STRANGE, LEFT],
            Seen::Stopped(Why::Bad(92)),
            144,
        ),
        (
            [STRANGE, LEADS, BASE_17, ITEM_18],
            Seen::Stopped(Why::Bad(0)),
            102,
        ),
        (
            [BASE_17, LEADS, BASE_5, BASE_17],
            Seen::Stopped(Why::Bad(0)),
            183,
        ),
        (
            [LEADS, BASE_17, LEADS, ITEM_18],
            Seen::Stopped(Why::Bad(87)),
            136,
        ),
    ] {
        assert_eq!(rt; found_in(&rt, &parts)?, (seen, left));
    }
    Ok(())
}

// Of another node all frames are looked at.
#[test]
fn a_base_continues_no_other_log(rt: HostRuntime) -> Result<(), Fail> {
    let bad = Seen::Stopped(Why::Bad(39));
    assert_eq!(rt; found_in(&rt, &[FOLLOWS, BASE_17])?, (bad, 87));
    assert_eq!(rt; found_in(&rt, &[FOLLOWS, STRANGE, BASE_17])?, (bad, 92));
    Ok(())
}
