//! Live runs over links that pass datagrams on in memory. The expected text comes from another program of the same
//! specification, which was written apart from this one.

use super::loop_ground::{LoopGround, Passing};
use super::{REPLAY, copy, schedule_of, told, words};
use crate::memory::{CleanSink, CleanSource, MemSink};
use crate::running::run;
use crate::status::Status;
use cs_base::NodeId;
use cs_link::CleanGround;
use std::process::Abort;
use std::str;

// The word of the form.
const LIVE: &[u8] = b"live";

// Three nodes, over links that lose nothing and keep the order.
const THREE: &str = "\
> lead 1 127.0.0.1:30001 0 0 0
up 1
> boot 2 127.0.0.1:30002 2000 0 0 partial
up 2
> boot 3 127.0.0.1:30003 3000 0 0 partial
up 3
> join 2
told
#1 2>1 report 1
> join 3
told
#2 3>1 report 1
> deliver 1
noted 1 0 0 0
> deliver 2
noted 1 0 0 0
> close
accepted 2 join
accepted 3 join
closed 1
#3 1>2 snap 1 0
#4 1>3 snap 1 0
> deliver 3
jumped 1
> deliver 4
jumped 1
> close
closed 2
#5 1>2 piece 2 0 0
#6 1>3 piece 2 0 0
#7 1>2 piece 2 0 1
#8 1>3 piece 2 0 2
#9 1>2 piece 2 0 3
#10 1>3 piece 2 0 3
> deliver 5
held
> deliver 7
held
#11 2>1 piece 2 0 1
#12 2>3 piece 2 0 1
> deliver 9
advanced 2
> deliver 6
held
> deliver 8
held
#13 3>1 piece 2 0 2
#14 3>2 piece 2 0 2
> deliver 10
advanced 2
> deliver 12
already
> deliver 11
stale 2 2
> deliver 13
stale 2 2
> deliver 14
already
> ask 2 1
told
#15 2>1 ask 3
> ask 3 1
told
#16 3>1 ask 3
> deliver 15
silent
> deliver 16
silent
> print 1
epoch 2
region 0 3 5000 0 0 0 0 0 3000 0 0
global 0 1 127.0.0.1:30001 0 0 0
global 0 2 127.0.0.1:30002 2000 0 0
global 0 3 127.0.0.1:30003 3000 0 0
member 0 1 127.0.0.1:30001 0 0 0
member 0 2 127.0.0.1:30002 2000 0 0
member 0 3 127.0.0.1:30003 3000 0 0
inter 0 0
inter 1 0
inter 2 0
inter 3 0
local 0 0 1 1>2 1>3
local 0 1 2 2>1 2>3
local 0 2 3 3>1 3>2
digest 7ef141c6b6ceeddead92022d0fbf798fc0eb89347f60cbcd9fcf86ed11e469ea
end
> print 2
epoch 2
region 0 3 5000 0 0 0 0 0 3000 0 0
global 0 1 127.0.0.1:30001 0 0 0
global 0 2 127.0.0.1:30002 2000 0 0
global 0 3 127.0.0.1:30003 3000 0 0
member 0 1 127.0.0.1:30001 0 0 0
member 0 2 127.0.0.1:30002 2000 0 0
member 0 3 127.0.0.1:30003 3000 0 0
inter 0 0
inter 1 0
inter 2 0
inter 3 0
local 0 0 1 1>2 1>3
local 0 1 2 2>1 2>3
local 0 2 3 3>1 3>2
digest 7ef141c6b6ceeddead92022d0fbf798fc0eb89347f60cbcd9fcf86ed11e469ea
end
> print 3
epoch 2
region 0 3 5000 0 0 0 0 0 3000 0 0
global 0 1 127.0.0.1:30001 0 0 0
global 0 2 127.0.0.1:30002 2000 0 0
global 0 3 127.0.0.1:30003 3000 0 0
member 0 1 127.0.0.1:30001 0 0 0
member 0 2 127.0.0.1:30002 2000 0 0
member 0 3 127.0.0.1:30003 3000 0 0
inter 0 0
inter 1 0
inter 2 0
inter 3 0
local 0 0 1 1>2 1>3
local 0 1 2 2>1 2>3
local 0 2 3 3>1 3>2
digest 7ef141c6b6ceeddead92022d0fbf798fc0eb89347f60cbcd9fcf86ed11e469ea
end
";

// What a live run of so many nodes leaves: its status, and what it wrote and granted.
#[derive(Drop)]
struct Ended {
    status: Status,
    sink: CleanSink,
    field: LoopGround,
}

impl Ended {
    fn text<R: Abort>(&self, rt: &R) -> &str {
        str::from_utf8(self.sink.written()).expect(rt, "text")
    }
}

// A live run, which leaves the source and the desk alone.
fn run_live<R: AllocGlobal + Abort>(rt: &R, nodes: &[u8], passing: Passing) -> Ended {
    let mut source = CleanSource::new(copy(rt, b"print 1\n"));
    let mut sink = CleanSink::new(rt.alloc());
    let mut desk = CleanGround::new(rt.alloc());
    let mut field = LoopGround::new(rt.alloc(), passing).expect(rt, "memory");
    let live = words(rt, &[LIVE, nodes, b"30000"]);
    let status = run(
        rt.alloc(),
        &live,
        &mut source,
        &mut sink,
        &mut desk,
        &mut field,
    );
    assert_eq!(rt; source.left(), b"print 1\n".as_slice());
    Ended {
        status,
        sink,
        field,
    }
}

// How many lines of a text begin so.
fn count_lines(text: &str, front: &str) -> usize {
    text.lines().filter(|line| line.starts_with(front)).count()
}

// Looks at a whole run: a replay of the events that it repeats gives the same, each datagram that came is told, all is
// handed back, and where nothing came each node was asked.
fn check_whole<R: AllocGlobal + Abort>(rt: &R, nodes: &[u8], passing: Passing) -> Ended {
    let run = run_live(rt, nodes, passing);
    assert_eq!(rt; run.status, Status::Done, "at {passing:?}");
    let text = run.text(rt);
    let again = told(
        rt,
        REPLAY,
        "its events",
        schedule_of(rt, text),
        Status::Done,
    );
    assert_eq!(rt; again.written(), run.sink.written(), "at {passing:?}");
    let noise = count_lines(text, "> noise ");
    let came = count_lines(text, "> deliver ").saturating_add(noise);
    assert_eq!(rt; run.field.taken, came as u64);
    assert!(rt; run.field.dry >= count_lines(text, "> print ").saturating_mul(4) as u64);
    for number in 1..=3 {
        let id = NodeId::new(number).expect(rt, "id");
        assert!(rt; !run.field.is_out(id));
    }
    run
}

#[test]
fn two_nodes(rt: HostRuntime) {
    let run = check_whole(&rt, b"2", Passing::Once);
    assert_eq!(rt; count_lines(run.text(&rt), "advanced 2"), 1);
}

#[test]
fn three_nodes(rt: HostRuntime) {
    let run = check_whole(&rt, b"3", Passing::Once);
    assert_eq!(rt; run.text(&rt), THREE);
    assert_eq!(rt; count_lines(run.text(&rt), "epoch 2"), 3);
    check_equal_blocks(&rt, run.text(&rt));
}

// The blocks at the end of a text are equal.
fn check_equal_blocks<R: Abort>(rt: &R, text: &str) {
    let mut prints = text.split("> print ");
    let _before = prints.next();
    let mut blocks = prints.map(|print| print.split_once('\n'));
    let first = blocks.next().expect(rt, "a block").expect(rt, "a line");
    for block in blocks {
        assert_eq!(rt; block.expect(rt, "a line").1, first.1);
    }
}

#[test]
fn datagrams_that_come_twice(rt: HostRuntime) {
    let run = check_whole(&rt, b"3", Passing::Twice);
    let text = run.text(&rt);
    assert_eq!(rt;
        count_lines(text, "> deliver "),
        count_lines(text, "#").saturating_mul(2)
    );
    assert_eq!(rt; count_lines(text, "> noise "), 0);
    assert_eq!(rt; count_lines(text, "epoch 2"), 3);
    check_equal_blocks(&rt, text);
}

#[test]
fn a_datagram_that_no_node_sent(rt: HostRuntime) {
    let run = check_whole(&rt, b"3", Passing::Stray);
    let text = run.text(&rt);
    assert_eq!(rt; count_lines(text, "> noise 1 5"), 1);
    assert_eq!(rt; count_lines(text, "> noise "), 1);
    assert_eq!(rt; count_lines(text, "> deliver "), count_lines(text, "#"));
    check_equal_blocks(&rt, text);
}

#[test]
fn a_send_that_fails(rt: HostRuntime) {
    // The number of a send, and the event at which it fails.
    let rows = [
        (1, "> join 2\n"),
        (2, "> join 3\n"),
        (3, "> close\n"),
        (4, "> close\n"),
        (11, "> deliver 7\n"),
        (16, "> ask 3 1\n"),
    ];
    for (send, event) in rows {
        check_front(&rt, Passing::Fails(send), event);
    }
    let run = run_live(&rt, b"3", Passing::Fails(17));
    assert_eq!(rt; run.status, Status::Done);
}

// A link that fails ends the run before an event.
fn check_front<R: AllocGlobal + Abort>(rt: &R, passing: Passing, event: &str) {
    let run = run_live(rt, b"3", passing);
    assert_eq!(rt; run.status, Status::Link, "at {passing:?}");
    let before = THREE.find(event).expect(rt, "event");
    assert_eq!(rt; run.text(rt), &THREE[..before], "at {passing:?}");
    assert!(rt; !run.field.is_out(NodeId::new(1).expect(rt, "id")));
}

#[test]
fn a_link_that_fails_to_receive(rt: HostRuntime) {
    check_front(&rt, Passing::FailsToReceive(1), "> deliver 1\n");
    check_front(&rt, Passing::FailsToReceive(2), "> deliver 2\n");
    // Nodes 1 to 3 have nothing more, and then each in the second pass.
    check_front(&rt, Passing::FailsToReceive(8), "> close\n");
}

// A sink that fails has a front of the text.
#[test]
fn a_sink_that_fails_in_a_live_run(rt: HostRuntime) {
    let alloc = rt.alloc();
    let mut source = CleanSource::new(Vec::new(alloc));
    let failing = vec![in alloc; 4].expect(&rt, "memory");
    let mut sink = MemSink::new(alloc, 30, failing);
    let mut desk = CleanGround::new(alloc);
    let mut field = LoopGround::new(alloc, Passing::Once).expect(&rt, "memory");
    let live = words(&rt, &[LIVE, b"3", b"30000"]);
    let status = run(alloc, &live, &mut source, &mut sink, &mut desk, &mut field);
    assert_eq!(rt; status, Status::Write);
    // 36 bytes of the first event in two calls, and 30 of the next.
    assert_eq!(rt; sink.written(), &THREE.as_bytes()[..66]);
}

// The status of a run of these words over a field that passes nothing on, and how often its links had nothing.
fn asked<R: AllocGlobal + Abort>(rt: &R, texts: &[&[u8]]) -> (Status, u64) {
    let mut source = CleanSource::new(copy(rt, b"print 1\n"));
    let mut sink = CleanSink::new(rt.alloc());
    let mut desk = CleanGround::new(rt.alloc());
    let mut field = CleanGround::new(rt.alloc());
    let texts = words(rt, texts);
    let status = run(
        rt.alloc(),
        &texts,
        &mut source,
        &mut sink,
        &mut desk,
        &mut field,
    );
    assert_eq!(rt; source.left(), b"print 1\n".as_slice());
    assert_eq!(rt; sink.written().is_empty(), status == Status::Usage);
    (status, field.dry())
}

#[test]
fn links_that_pass_nothing_on(rt: HostRuntime) {
    assert_eq!(rt; asked(&rt, &[LIVE, b"2", b"1"]), (Status::Done, 8));
    assert_eq!(rt; asked(&rt, &[LIVE, b"64", b"65000"]), (Status::Done, 256));
}

#[test]
fn words_that_are_no_live_run(rt: HostRuntime) {
    let rows: [&[&[u8]]; 13] = [
        &[LIVE],
        &[LIVE, b"2"],
        &[LIVE, b"2", b"30000", b"0"],
        &[LIVE, b"1", b"30000"],
        &[LIVE, b"65", b"30000"],
        &[LIVE, b"2", b"0"],
        &[LIVE, b"2", b"65001"],
        &[LIVE, b"02", b"30000"],
        &[LIVE, b"2", b"030000"],
        &[LIVE, b"+2", b"30000"],
        &[LIVE, b"2", b""],
        &[LIVE, b"2", b"4294997296"],
        &[b"lives", b"2", b"30000"],
    ];
    for texts in rows {
        assert_eq!(rt; asked(&rt, texts), (Status::Usage, 0));
    }
}
