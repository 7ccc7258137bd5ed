mod file_log;

use crate::{Armed, Arming, CleanLog, Frames, Log, LogFailed, MemLog, ReadAllFault, scan};
use cs_piece::Piece;
use std::alloc::Global;
use std::process::Abort;

// How many whole frames the bytes begin with, and how long they are.
fn scanned(rt: &impl Abort, alloc: Global, bytes: &[u8]) -> (usize, u64) {
    let frames = scan(alloc, bytes).expect(rt, "memory");
    (frames.len(), frames.whole_len())
}

// The frame of this number, from 0, has this place and this payload.
fn has_frame(rt: &impl Abort, frames: &Frames, i: usize, place: u64, payload: &[u8]) {
    let (at, bytes) = frames.as_slice().get(i).expect(rt, "a frame");
    assert_eq!(rt; *at, place);
    assert_eq!(rt; bytes.as_slice(), payload);
}

#[test]
fn a_torn_tail_is_left_out(rt: HostRuntime) {
    let bytes = b"\x00\x00\x00\x01\x05\x00\x00\x00";
    let frames = scan(rt.alloc(), bytes).expect(&rt, "memory");
    has_frame(&rt, &frames, 0, 0, b"\x05");
    assert_eq!(rt; frames.len(), 1);
    assert_eq!(rt; frames.whole_len(), 5);
}

// A frame of two bytes, one of none, and one of a byte.
const THREE: &[u8] = b"\x00\x00\x00\x02ab\x00\x00\x00\x00\x00\x00\x00\x01c";

#[test]
fn frames_have_their_places(rt: HostRuntime) {
    let frames = scan(rt.alloc(), THREE).expect(&rt, "memory");
    has_frame(&rt, &frames, 0, 0, b"ab");
    has_frame(&rt, &frames, 1, 6, b"");
    has_frame(&rt, &frames, 2, 10, b"c");
    assert_eq!(rt; frames.len(), 3);
}

// Frames that are cut behind so many bytes are so many whole ones.
fn cut_frames(rt: &impl Abort, alloc: Global, len: usize) {
    let found = scanned(rt, alloc, &THREE[..len.min(THREE.len())]);
    let whole = if len < 6 {
        (0, 0)
    } else if len < 10 {
        (1, 6)
    } else if len < 15 {
        (2, 10)
    } else {
        (3, 15)
    };
    assert_eq!(rt; found, whole);
}

#[test]
fn frames_are_cut_at_every_byte(rt: HostRuntime) {
    for len in 0..16 {
        cut_frames(&rt, rt.alloc(), len);
    }
}

#[test]
fn a_length_beyond_the_bytes_is_torn(rt: HostRuntime) {
    assert_eq!(rt; scanned(&rt, rt.alloc(), b""), (0, 0));
    assert_eq!(rt; scanned(&rt, rt.alloc(), b"\x00\x00\x00\x02a"), (0, 0));
    assert_eq!(rt; scanned(&rt, rt.alloc(), b"\x00\x00\x00\x09"), (0, 0));
    assert_eq!(rt; scanned(&rt, rt.alloc(), b"\xff\xff\xff\xffabc"), (0, 0));
    assert_eq!(rt; scanned(&rt, rt.alloc(), b"\x00\x00\x01\x00abc"), (0, 0));
}

// A log with these bytes, with nothing armed.
fn arming(rt: &impl Abort, alloc: Global, bytes: &[u8]) -> Arming<MemLog> {
    Arming::new(MemLog::from_slice(alloc, bytes).expect(rt, "memory"))
}

// Makes room for the piece and appends it: whether that succeeds.
fn appends<L: Log>(rt: &impl Abort, log: &mut L, piece: &[u8]) -> bool {
    log.ready(piece.len() as u64).expect(rt, "memory");
    log.append(piece).is_ok()
}

// The log has these bytes, and so often it failed.
fn has(rt: &impl Abort, log: Arming<MemLog>, bytes: &[u8], faults: u64) {
    let inner = log.into_inner();
    assert_eq!(rt; inner.as_slice(), bytes);
    assert_eq!(rt; inner.faults(), faults);
}

#[test]
fn an_arm_tears_the_append_that_is_longer(rt: HostRuntime) {
    let mut log = arming(&rt, rt.alloc(), b"");
    log.arm(3);
    assert_eq!(rt; log.armed(), Some(3));
    assert!(rt; !appends(&rt, &mut log, b"abcde"));
    assert_eq!(rt; log.armed(), None);
    assert!(rt; log.sync().is_ok());
    assert!(rt; appends(&rt, &mut log, b"fg"));
    has(&rt, log, b"abcfg", 0);
}

#[test]
fn an_arm_fails_the_sync_where_the_append_fits(rt: HostRuntime) {
    let mut log = arming(&rt, rt.alloc(), b"");
    log.arm(5);
    assert!(rt; appends(&rt, &mut log, b"abcde"));
    assert_eq!(rt; log.armed(), Some(5));
    assert!(rt; log.sync().is_err());
    assert_eq!(rt; log.armed(), None);
    assert!(rt; log.sync().is_ok());
    has(&rt, log, b"abcde", 0);
}

#[test]
fn an_arm_of_nothing_keeps_no_byte(rt: HostRuntime) {
    let mut log = arming(&rt, rt.alloc(), b"x");
    log.arm(0);
    assert!(rt; !appends(&rt, &mut log, b"a"));
    log.arm(0);
    assert!(rt; appends(&rt, &mut log, b""));
    assert!(rt; log.sync().is_err());
    has(&rt, log, b"x", 0);
}

#[test]
fn a_second_arm_takes_the_place_of_the_first(rt: HostRuntime) {
    let mut log = arming(&rt, rt.alloc(), b"");
    log.arm(1);
    log.arm(2);
    assert_eq!(rt; log.armed(), Some(2));
    assert!(rt; appends(&rt, &mut log, b"ab"));
    log.arm(1);
    assert!(rt; log.sync().is_ok());
    assert!(rt; !appends(&rt, &mut log, b"cd"));
    has(&rt, log, b"abc", 0);
}

#[test]
fn a_sync_before_the_append_is_let_pass(rt: HostRuntime) {
    let mut log = arming(&rt, rt.alloc(), b"ab");
    log.arm(0);
    assert!(rt; log.sync().is_ok());
    assert!(rt; log.cut(0).is_ok());
    assert!(rt; log.read_all().is_ok());
    assert_eq!(rt; log.armed(), Some(0));
    has(&rt, log, b"", 0);
}

#[test]
fn what_is_armed_stays_where_the_log_fails_itself(rt: HostRuntime) {
    let mut inner = MemLog::new(rt.alloc());
    inner.fail(1).expect(&rt, "memory");
    inner.fail(3).expect(&rt, "memory");
    let mut log = Arming::new(inner);
    log.arm(4);
    assert!(rt; !appends(&rt, &mut log, b"abcdef"));
    assert_eq!(rt; log.armed(), Some(4));
    assert!(rt; appends(&rt, &mut log, b"cd"));
    assert!(rt; log.cut(0).is_err());
    assert!(rt; log.sync().is_err());
    assert_eq!(rt; log.armed(), None);
    has(&rt, log, b"abcd", 2);
}

// Leaves the first so many bytes: whether that succeeds.
fn cuts(rt: &impl Abort, log: &mut MemLog, len: u64) -> bool {
    assert!(rt; len <= log.as_slice().len() as u64);
    log.cut(len).is_ok()
}

// Which calls fail, and the bytes in the end, where the call of this number is to fail.
fn six_calls(rt: &impl Abort, alloc: Global, failing: u64) -> ([bool; 6], MemLog) {
    let mut log = MemLog::from_slice(alloc, b"abc").expect(rt, "memory");
    log.fail(failing).expect(rt, "memory");
    let appended = appends(rt, &mut log, b"defg");
    let synced = log.sync().is_ok();
    let cut = cuts(rt, &mut log, 2);
    let again = appends(rt, &mut log, b"xy");
    let read = log.read_all().is_ok();
    let last = log.sync().is_ok();
    ([!appended, !synced, !cut, !again, !read, !last], log)
}

fn fails_at(rt: &impl Abort, alloc: Global, failing: u64, fails: [bool; 6], bytes: &[u8]) {
    let (found, log) = six_calls(rt, alloc, failing);
    assert_eq!(rt; found, fails);
    assert_eq!(rt; log.as_slice(), bytes);
    let count = if failing >= 1 && failing <= 6 { 1 } else { 0 };
    assert_eq!(rt; log.faults(), count);
}

#[test]
fn each_call_fails_where_it_is_told_to(rt: HostRuntime) {
    let (y, n) = (true, false);
    let alloc = rt.alloc();
    fails_at(&rt, alloc, 0, [n, n, n, n, n, n], b"abxy");
    fails_at(&rt, alloc, 1, [y, n, n, n, n, n], b"abxy");
    fails_at(&rt, alloc, 2, [n, y, n, n, n, n], b"abxy");
    fails_at(&rt, alloc, 3, [n, n, y, n, n, n], b"abcdefgxy");
    fails_at(&rt, alloc, 4, [n, n, n, y, n, n], b"abx");
    fails_at(&rt, alloc, 5, [n, n, n, n, y, n], b"abxy");
    fails_at(&rt, alloc, 6, [n, n, n, n, n, y], b"abxy");
    fails_at(&rt, alloc, 7, [n, n, n, n, n, n], b"abxy");
}

#[test]
fn half_of_a_failed_append_is_there(rt: HostRuntime) {
    let mut log = MemLog::new(rt.alloc());
    log.fail(1).expect(&rt, "memory");
    assert!(rt; !appends(&rt, &mut log, b"abcde"));
    assert_eq!(rt;
        log.read_all().expect(&rt, "read").as_slice(),
        b"ab".as_slice()
    );
    assert_eq!(rt; log.into_piece().as_slice(), b"ab".as_slice());
}

#[test]
fn a_clean_log_is_cut_below_what_is_synced(rt: HostRuntime) {
    let mut log = CleanLog::from_slice(rt.alloc(), b"abcde").expect(&rt, "memory");
    assert!(rt; appends(&rt, &mut log, b"fg"));
    assert_eq!(rt; log.as_slice().len(), 7);
    assert!(rt; log.cut(2).is_ok());
    assert!(rt; appends(&rt, &mut log, b"x"));
    assert_eq!(rt; log.as_slice(), b"abx".as_slice());
    assert!(rt; log.sync().is_ok());
    assert_eq!(rt; log.into_piece().as_slice(), b"abx".as_slice());
    assert_eq!(rt; CleanLog::new(rt.alloc()).as_slice(), b"".as_slice());
}

// What an acknowledged frame and a torn one leave of an empty log.
fn torn_log(rt: &impl Abort, alloc: Global) -> Piece {
    let mut log = Arming::new(CleanLog::new(alloc));
    assert!(rt; appends(rt, &mut log, b"\x00\x00\x00\x02ab"));
    assert!(rt; log.sync().is_ok());
    log.arm(3);
    assert!(rt; !appends(rt, &mut log, b"\x00\x00\x00\x01c"));
    log.read_all().expect(rt, "read")
}

#[test]
fn an_acknowledged_frame_is_found(rt: HostRuntime) {
    let left = torn_log(&rt, rt.alloc());
    assert_eq!(rt; left.len(), 9);
    let frames = scan(rt.alloc(), left.as_slice()).expect(&rt, "memory");
    has_frame(&rt, &frames, 0, 0, b"ab");
    assert_eq!(rt; frames.len(), 1);
    assert_eq!(rt; frames.whole_len(), 6);
}

#[test]
fn faults_have_their_texts(rt: HostRuntime) {
    let failed = format!(in rt.alloc(); "{}", ReadAllFault::Failed).expect(&rt, "memory");
    assert_eq!(rt; failed.as_str(), "the log could not be read");
    let memory = format!(in rt.alloc(); "{}", ReadAllFault::Memory).expect(&rt, "memory");
    assert_eq!(rt; memory.as_str(), "out of memory");
    let mut log = MemLog::new(rt.alloc());
    log.fail(1).expect(&rt, "memory");
    assert_eq!(rt; log.sync(), Err(LogFailed));
    log.fail(2).expect(&rt, "memory");
    assert_eq!(rt; log.read_all().err(), Some(ReadAllFault::Failed));
}
