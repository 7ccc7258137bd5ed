//! Whole runs over sources and sinks in memory. The expected outputs come from another program of the same
//! specification, which was written apart from this one.

ghost use Rattle.std.specs.Prelude.{◌≡◌, []};

mod asking;
mod changes;
mod desks;
mod drills;
mod groups;
mod joins;
mod limits;
mod lives;
mod loop_ground;
mod node;
mod pieces;
mod restarts;
mod settling;
mod streaming;

use crate::memory::{CleanSink, CleanSource, MemSink, MemSource};
use crate::running::run;
use crate::sink::Sink;
use crate::source::Source;
use crate::status::Status;
use crate::words::Words;
use asking::{BEHIND, REQUESTS};
use changes::{LEFT, REPORTER, STALE_MOVE};
use cs_base::MOST_TEXT;
use cs_link::{CleanGround, Ground, MemDesk};
use joins::{JOINED_AGAIN, LEADER_ALONE, TWO_JOINERS};
use node::TORN_ALONE;
use pieces::{ALL_TWICE, LATE_PIECE};
use restarts::{DOWN, MEMBER_BACK, STAYS_DOWN, STAYS_TORN, TORN, TORN_BEHIND};
use settling::{NOT_HERE, SETTLED};
use std::alloc::Global;
use std::process::{Abort, ExitCode};

// The words of the two forms.
const REPLAY: &[u8] = b"replay";

const NODE: &[u8] = b"node";

// The words behind the program's name.
fn words<R: AllocGlobal + Abort>(rt: &R, texts: &[&[u8]]) -> Words {
    let mut words = Words::new(rt.alloc());
    for text in texts {
        words.push(text).expect(rt, "memory");
    }
    words
}

// Runs what the words ask for over a desk, with a field on which nothing happens.
fn run_over<S: Source, K: Sink, D: Ground>(
    alloc: Global,
    words: &Words,
    source: &mut S,
    sink: &mut K,
    desk: &mut D,
) -> Status
    requires { D.out desk.old ≡ [] }
{
    let mut field = CleanGround::new(alloc);
    run(alloc, words, source, sink, desk, &mut field)
}

fn copy<R: AllocGlobal + Abort>(rt: &R, bytes: &[u8]) -> Vec<u8> {
    Vec::from_slice(rt.alloc(), bytes).expect(rt, "memory")
}

// What a schedule is told in the form of a word, by a source and a sink that never fail.
fn told<R: AllocGlobal + Abort>(
    rt: &R,
    form: &[u8],
    name: &str,
    input: Vec<u8>,
    end: Status,
) -> CleanSink {
    let mut source = CleanSource::new(input);
    let mut sink = CleanSink::new(rt.alloc());
    let mut desk = CleanGround::new(rt.alloc());
    let form = words(rt, &[form]);
    let status = run_over(rt.alloc(), &form, &mut source, &mut sink, &mut desk);
    assert_eq!(rt; status, end, "at {name}");
    sink
}

// The schedule of a transcript: the lines behind `> `.
fn schedule_of<R: AllocGlobal + Abort>(rt: &R, transcript: &str) -> Vec<u8> {
    let mut schedule = Vec::new(rt.alloc());
    for line in transcript.lines() {
        if let Some(event) = line.strip_prefix("> ") {
            schedule
                .extend_from_slice(event.as_bytes())
                .expect(rt, "memory");
            schedule.push(b'\n').expect(rt, "memory");
        }
    }
    schedule
}

// Looks at what a schedule is told, read and written in short pieces too.
fn check_told<R: AllocGlobal + Abort>(
    rt: &R,
    form: &[u8],
    name: &str,
    input: &[u8],
    output: &[u8],
) {
    let sink = told(rt, form, name, copy(rt, input), Status::Done);
    assert_eq!(rt; sink.written(), output, "at {name}");
    let mut source = MemSource::new(copy(rt, input), 7, Vec::new(rt.alloc()));
    let mut sink = MemSink::new(rt.alloc(), 5, Vec::new(rt.alloc()));
    let mut desk = MemDesk::new(rt.alloc());
    let form = words(rt, &[form]);
    let status = run_over(rt.alloc(), &form, &mut source, &mut sink, &mut desk);
    assert_eq!(rt; status, Status::Done, "at {name}");
    assert_eq!(rt; sink.written(), output, "at {name}");
}

#[test]
fn transcripts(rt: HostRuntime) {
    let rows = [
        ("no input", ""),
        ("a leader alone", LEADER_ALONE),
        ("two joiners", TWO_JOINERS),
        ("a member joins again", JOINED_AGAIN),
        ("a piece that comes late", LATE_PIECE),
        ("all pieces twice", ALL_TWICE),
        ("a member that left", LEFT),
        ("a stale move", STALE_MOVE),
        ("a reporter", REPORTER),
        ("rounds of deliveries", SETTLED),
        ("lines that have no effect here", NOT_HERE),
        ("a leader that is down", DOWN),
        ("a member that comes back", MEMBER_BACK),
        ("a torn entry", TORN),
        ("a write that is torn behind its entry", TORN_BEHIND),
        ("a torn leader that stays down", STAYS_TORN),
        ("another that stays down", STAYS_DOWN),
        ("who may ask whom", REQUESTS),
        ("a member that fell behind", BEHIND),
    ];
    for (name, transcript) in rows {
        let input = schedule_of(&rt, transcript);
        check_told(&rt, REPLAY, name, &input, transcript.as_bytes());
    }
}

#[test]
fn the_last_lf_may_be_missing(rt: HostRuntime) {
    check_told(&rt, REPLAY, "no LF", b"print 1", b"> print 1\nno node\n");
}

#[test]
fn faults(rt: HostRuntime) {
    let rows: [(&str, &[u8], &[u8]); 13] = [
        (
            "an id is missing",
            b"deliver 99\nprint 5\njoin\n",
            b"> deliver 99\nno packet\n> print 5\nno node\nfault 3 count\n",
        ),
        (
            "an empty line",
            b"print 1\n\nprint 2\n",
            b"> print 1\nno node\nfault 2 word\n",
        ),
        ("a space before", b" print 1\n", b"fault 1 word\n"),
        ("two spaces", b"deliver  1\n", b"fault 1 count\n"),
        ("a space behind", b"print 1 \n", b"fault 1 count\n"),
        ("CR and LF", b"print 1\r\n", b"fault 1 number\n"),
        ("another word", b"leed 1\n", b"fault 1 word\n"),
        (
            "another mode",
            b"boot 1 127.0.0.1:1 0 0 0 half\n",
            b"fault 1 word\n",
        ),
        ("a word too many", b"close 1", b"fault 1 count\n"),
        (
            "a point too far out",
            b"lead 1 127.0.0.1:9001 1000001 0 0\n",
            b"fault 1 point\n",
        ),
        (
            "a leading zero",
            b"lead 1 127.0.0.01:9001 0 0 0\n",
            b"fault 1 address\n",
        ),
        (
            "a letter that is no digit",
            b"packet 1 0g\n",
            b"fault 1 bytes\n",
        ),
        (
            "id zero",
            b"boot 0 127.0.0.1:1 0 0 0 full\n",
            b"fault 1 number\n",
        ),
    ];
    for (name, input, output) in rows {
        let sink = told(&rt, REPLAY, name, copy(&rt, input), Status::Script);
        assert_eq!(rt; sink.written(), output, "at {name}");
    }
}

#[test]
fn the_limit(rt: HostRuntime) {
    let event = b"print 1\n";
    let output = b"> print 1\nno node\n";
    let rows: [(&str, &[u8], usize, Status, &[u8]); 4] = [
        (
            "one long line",
            b"",
            MOST_TEXT,
            Status::Script,
            b"fault 1 word\n",
        ),
        ("one line too long", b"", MOST_TEXT + 1, Status::Limit, b""),
        (
            "a long second line",
            event,
            MOST_TEXT - 8,
            Status::Script,
            b"> print 1\nno node\nfault 2 word\n",
        ),
        (
            "a second line too long",
            event,
            MOST_TEXT - 7,
            Status::Limit,
            output,
        ),
    ];
    for (name, front, count, end, output) in rows {
        let mut input = copy(&rt, front);
        let rest = vec![in rt.alloc(); b'x'; count].expect(&rt, "memory");
        input.extend_from_slice(&rest).expect(&rt, "memory");
        let sink = told(&rt, REPLAY, name, input, end);
        assert_eq!(rt; sink.written(), output, "at {name}");
    }
}

// How a run ends whose source fails at one call, or whose sink does, and how many bytes of the transcript it wrote.
// None fails where 0 stands, since calls are numbered from 1.
fn failing_end<R: AllocGlobal + Abort>(
    rt: &R,
    (form, transcript): (&[u8], &str),
    (read, write): (u64, u64),
) -> (Status, usize) {
    let alloc = rt.alloc();
    let reads = vec![in alloc; read].expect(rt, "memory");
    let writes = vec![in alloc; write].expect(rt, "memory");
    let mut source = MemSource::new(schedule_of(rt, transcript), 30, reads);
    let mut sink = MemSink::new(alloc, 30, writes);
    let mut desk = MemDesk::new(alloc);
    let form = words(rt, &[form]);
    let status = run_over(alloc, &form, &mut source, &mut sink, &mut desk);
    assert!(rt; transcript.as_bytes().starts_with(sink.written()));
    (status, sink.written().len())
}

#[test]
fn failing_sources_and_sinks(rt: HostRuntime) {
    let group = (REPLAY, TWO_JOINERS);
    let node = (NODE, TORN_ALONE);
    let rows: [((&[u8], &str), (u64, u64), Status, usize); 6] = [
        (group, (1, 0), Status::Read, 0),
        // The first line has 28 bytes, and its output 35.
        (group, (2, 0), Status::Read, 35),
        (group, (0, 1), Status::Write, 0),
        // 35 bytes of the first line in two calls, and 30 of the second line.
        (group, (0, 4), Status::Write, 65),
        (node, (2, 0), Status::Read, 31),
        // 31 bytes of the first line in two calls, and 30 of the second line.
        (node, (0, 4), Status::Write, 61),
    ];
    for (run, calls, end, count) in rows {
        assert_eq!(rt; failing_end(&rt, run, calls), (end, count));
    }
}

// The schedule has 229 bytes, and no more come in the ninth call.
#[test]
fn each_read_can_fail(rt: HostRuntime) {
    let run = (REPLAY, LATE_PIECE);
    for read in 1..=9 {
        assert_eq!(rt; failing_end(&rt, run, (read, 0)).0, Status::Read);
    }
    let all = LATE_PIECE.len();
    assert_eq!(rt; failing_end(&rt, run, (10, 0)), (Status::Done, all));
}

// What an event writes is handed on in pieces of 30 bytes.
#[test]
fn each_write_can_fail(rt: HostRuntime) {
    let run = (REPLAY, LATE_PIECE);
    for write in 1..=29 {
        assert_eq!(rt; failing_end(&rt, run, (0, write)).0, Status::Write);
    }
    let all = LATE_PIECE.len();
    assert_eq!(rt; failing_end(&rt, run, (0, 30)), (Status::Done, all));
}

#[test]
fn other_words(rt: HostRuntime) {
    let rows: [&[&[u8]]; 8] = [
        &[],
        &[REPLAY, b"x"],
        &[b"reply"],
        &[b"--help"],
        &[NODE, b"x"],
        &[REPLAY, NODE],
        &[b"nodes"],
        &[b""],
    ];
    for texts in rows {
        let mut source = CleanSource::new(copy(&rt, b"print 1\n"));
        let mut sink = CleanSink::new(rt.alloc());
        let mut desk = CleanGround::new(rt.alloc());
        let texts = words(&rt, texts);
        let status = run_over(rt.alloc(), &texts, &mut source, &mut sink, &mut desk);
        assert_eq!(rt; status, Status::Usage);
        assert_eq!(rt; source.left(), b"print 1\n".as_slice());
        assert!(rt; sink.written().is_empty());
    }
}

#[test]
fn status_numbers(rt: HostRuntime) {
    let rows = [
        (Status::Done, 0),
        (Status::Usage, 2),
        (Status::Script, 3),
        (Status::Read, 4),
        (Status::Write, 5),
        (Status::Link, 6),
        (Status::Log, 7),
        (Status::Memory, 8),
        (Status::Limit, 9),
    ];
    for (status, number) in rows {
        assert_eq!(rt; ExitCode::from(status), ExitCode::from(number));
    }
}
