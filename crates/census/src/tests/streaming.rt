//! Schedules that come in pieces: what is told of a line before more is read, and where reading fails.

use super::{REPLAY, copy, run_over, words};
use crate::memory::{CleanSink, CleanSource, MemSource};
use crate::status::Status;
use cs_base::MOST_TEXT;
use cs_link::CleanGround;
use std::process::Abort;

const LINES: &[u8] = b"print 1\nprint 23\nprint 4";

const FIRST: &str = "> print 1\nno node\n";

const FIRST_TWO: &str = "> print 1\nno node\n> print 23\nno node\n";

const ALL: &str = "> print 1\nno node\n> print 23\nno node\n> print 4\nno node\n";

// Looks at what is told of a source that gives so many bytes at most at once, and fails at a call, or at none for 0.
fn check_pieces<R: AllocGlobal + Abort>(
    rt: &R,
    input: &[u8],
    (most, failing): (usize, u64),
    end: Status,
    output: &str,
) {
    if most == 0 {
        return;
    }
    let calls = vec![in rt.alloc(); failing].expect(rt, "memory");
    let mut source = MemSource::new(copy(rt, input), most, calls);
    let mut sink = CleanSink::new(rt.alloc());
    let mut desk = CleanGround::new(rt.alloc());
    let replay = words(rt, &[REPLAY]);
    let status = run_over(rt.alloc(), &replay, &mut source, &mut sink, &mut desk);
    assert_eq!(rt; status, end, "of {most} bytes, failing at {failing}");
    assert_eq!(rt;
        sink.written(),
        output.as_bytes(),
        "of {most} bytes, failing at {failing}"
    );
}

#[test]
fn pieces_of_any_length(rt: HostRuntime) {
    for most in 1..30 {
        check_pieces(&rt, LINES, (most, 0), Status::Done, ALL);
    }
}

#[test]
fn reading_fails_behind_lines_that_ended(rt: HostRuntime) {
    // The first line ends with byte 8, the second one with byte 17, and the third one has no LF.
    let rows: [(usize, u64, Status, &str); 11] = [
        (8, 1, Status::Read, ""),
        (8, 2, Status::Read, FIRST),
        (8, 3, Status::Read, FIRST),
        (8, 4, Status::Read, FIRST_TWO),
        (8, 5, Status::Done, ALL),
        (8, 6, Status::Done, ALL),
        (1, 8, Status::Read, ""),
        (1, 9, Status::Read, FIRST),
        (1, 18, Status::Read, FIRST_TWO),
        (9, 2, Status::Read, FIRST),
        (100, 2, Status::Read, FIRST_TWO),
    ];
    for (most, failing, end, output) in rows {
        check_pieces(&rt, LINES, (most, failing), end, output);
    }
}

// Looks at how much of a source is left where a run ends at its first line.
fn check_left<R: AllocGlobal + Abort>(rt: &R, line: &[u8], end: Status, left: usize) {
    let mut input = copy(rt, line);
    let rest = vec![in rt.alloc(); b'\n'; 100_000].expect(rt, "memory");
    input.extend_from_slice(&rest).expect(rt, "memory");
    let mut source = CleanSource::new(input);
    let mut sink = CleanSink::new(rt.alloc());
    let mut desk = CleanGround::new(rt.alloc());
    let replay = words(rt, &[REPLAY]);
    let status = run_over(rt.alloc(), &replay, &mut source, &mut sink, &mut desk);
    assert_eq!(rt; status, end);
    assert_eq!(rt; source.left().len(), left);
}

#[test]
fn no_piece_more_is_read_than_the_line_needs(rt: HostRuntime) {
    // 65,536 of 100,005 bytes were read.
    check_left(&rt, b"close", Status::Script, 34_469);
}

#[test]
fn a_long_line_comes_in_many_pieces(rt: HostRuntime) {
    let mut input = copy(&rt, b"print 1\n");
    let rest = vec![in rt.alloc(); b'x'; 200_000].expect(&rt, "memory");
    input.extend_from_slice(&rest).expect(&rt, "memory");
    input
        .extend_from_slice(b"\nprint 2\n")
        .expect(&rt, "memory");
    let fault = "> print 1\nno node\nfault 2 word\n";
    check_pieces(&rt, &input, (MOST_TEXT, 0), Status::Script, fault);
    check_pieces(&rt, &input, (1_000, 0), Status::Script, fault);
    // The long line has not ended before call 202.
    check_pieces(&rt, &input, (1_000, 201), Status::Read, FIRST);
}

#[test]
fn the_byte_behind_the_last_that_counts(rt: HostRuntime) {
    let mut input = vec![in rt.alloc(); b'x'; MOST_TEXT].expect(&rt, "memory");
    check_pieces(
        &rt,
        &input,
        (MOST_TEXT, 0),
        Status::Script,
        "fault 1 word\n",
    );
    // 64 pieces count, and the next call looks for one byte more.
    check_pieces(&rt, &input, (MOST_TEXT, 65), Status::Read, "");
    input.push(b'x').expect(&rt, "memory");
    check_pieces(&rt, &input, (MOST_TEXT, 0), Status::Limit, "");
    check_pieces(&rt, &input, (MOST_TEXT, 65), Status::Read, "");
}
