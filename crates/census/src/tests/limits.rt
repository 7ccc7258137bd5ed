// Schedules of as many lines, or of as many bytes, as count, and of one more.
use super::{NODE, REPLAY, copy, told};
use crate::status::Status;
use cs_base::MOST_TEXT;
use std::process::Abort;

/// Bytes of each line of a schedule of 128 lines that has all the bytes that count.
const LINE: usize = 32_768;

fn append<R: AllocGlobal + Abort>(rt: &R, text: &mut Vec<u8>, bytes: &[u8]) {
    text.extend_from_slice(bytes).expect(rt, "memory");
}

// So many pieces in a row, and what stands behind them.
fn repeated<R: AllocGlobal + Abort>(rt: &R, piece: &[u8], count: usize, behind: &[u8]) -> Vec<u8> {
    let mut text = Vec::new(rt.alloc());
    for _ in 0..count {
        append(rt, &mut text, piece);
    }
    append(rt, &mut text, behind);
    text
}

#[test]
fn lines_that_count(rt: HostRuntime) {
    let rows = [(100_000, Status::Done), (100_001, Status::Limit)];
    let output = repeated(&rt, b"> print 1\nno node\n", 100_000, b"");
    for (count, end) in rows {
        let sink = told(
            &rt,
            REPLAY,
            "many lines",
            repeated(&rt, b"print 1\n", count, b""),
            end,
        );
        assert!(rt; sink.written() == output.as_slice());
    }
}

// A line, without its LF, that has so many bytes: some words, and the bytes of a packet.
fn long_line<R: AllocGlobal + Abort>(rt: &R, words: &[u8], len: usize) -> Vec<u8> {
    let zeros = vec![in rt.alloc(); b'0'; len.saturating_sub(words.len())].expect(rt, "memory");
    let mut line = copy(rt, words);
    append(rt, &mut line, &zeros);
    line
}

// What is told of a line that isn't here.
fn answered<R: AllocGlobal + Abort>(rt: &R, line: &[u8]) -> Vec<u8> {
    let mut text = copy(rt, b"> ");
    append(rt, &mut text, line);
    append(rt, &mut text, b"\nnot here\n");
    text
}

#[test]
fn bytes_that_count(rt: HostRuntime) {
    let line = long_line(&rt, b"packet 1 ", LINE - 1);
    let last = long_line(&rt, b"packet 10 ", LINE);
    let (told_line, told_last) = (answered(&rt, &line), answered(&rt, &last));
    let mut ended = copy(&rt, &line);
    append(&rt, &mut ended, b"\n");

    let mut text = repeated(&rt, &ended, 128, b"");
    assert_eq!(rt; text.len(), MOST_TEXT);
    append(&rt, &mut text, b"x");
    let sink = told(
        &rt,
        REPLAY,
        "an LF as the last byte that counts",
        text,
        Status::Limit,
    );
    assert!(rt; sink.written() == repeated(&rt, &told_line, 128, b"").as_slice());

    let mut text = repeated(&rt, &ended, 127, &last);
    assert_eq!(rt; text.len(), MOST_TEXT);
    let sink = told(&rt, REPLAY, "no last LF", copy(&rt, &text), Status::Done);
    assert!(rt; sink.written() == repeated(&rt, &told_line, 127, &told_last).as_slice());

    append(&rt, &mut text, b"\n");
    let sink = told(
        &rt,
        REPLAY,
        "an LF behind the bytes that count",
        text,
        Status::Limit,
    );
    assert!(rt; sink.written() == repeated(&rt, &told_line, 127, b"").as_slice());
}

// The longest packet of the form `node`, and one that is a byte longer: zeros, alone and behind a whole report.
#[test]
fn bytes_of_a_packet(rt: HostRuntime) {
    let home = b"home 1 127.0.0.1:9001\nboot 2 127.0.0.1:9002 10 0 0 partial\n";
    let up = b"> home 1 127.0.0.1:9001\nhome 1\n> boot 2 127.0.0.1:9002 10 0 0 partial\nup 2\n";
    let rows: [(&[u8], &[u8]); 2] = [
        (b"", b"\nbad version 0\n"),
        (b"01010000000100000002010300000005", b"\nbad extra 16\n"),
    ];
    for (front, answer) in rows {
        let mut words = copy(&rt, b"packet 2 ");
        append(&rt, &mut words, front);
        let line = long_line(&rt, &words, 9 + 2 * 65_535);
        let mut text = copy(&rt, home);
        append(&rt, &mut text, &line);
        let mut output = copy(&rt, up);
        append(&rt, &mut output, b"> ");
        append(&rt, &mut output, &line);
        append(&rt, &mut output, answer);
        let sink = told(
            &rt,
            NODE,
            "the longest packet",
            copy(&rt, &text),
            Status::Done,
        );
        assert!(rt; sink.written() == output.as_slice());

        append(&rt, &mut text, b"00\n");
        let mut output = copy(&rt, up);
        append(&rt, &mut output, b"fault 3 bytes\n");
        let sink = told(&rt, NODE, "a longer packet", text, Status::Script);
        assert_eq!(rt; sink.written(), output.as_slice());
    }
}
