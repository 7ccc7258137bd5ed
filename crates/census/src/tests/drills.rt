//! Drills: their summaries, over desks that fail too, and the words that ask for them. The expected summaries come
//! from another program of the same specification, which was written apart from this one.

use super::desks::{Failing, FailingDesk, node};
use super::{copy, run_over, words};
use crate::memory::{CleanSink, CleanSource, MemSink};
use crate::status::Status;
use cs_link::CleanGround;
use std::process::Abort;

// The word of the form.
const DRILL: &[u8] = b"drill";

const SMALLEST: &str = "\
nodes 2
epoch 9
members 1
regions 1
sent 33 1024
views 1
agree 1
digest eea776c39367640b99f5f768a9c5c93264b3e9f994dbdedf7eede94307a665ee
";

const ONE_REGION: &str = "\
nodes 48
epoch 9
members 43
regions 1
sent 1720 312831
views 43
agree 43
digest 0a6f6730f3cb54b1bfc70ea66bb3e7c820e8ee3f51ac0a4dc415d43f42a7d603
";

const TWO_REGIONS: &str = "\
nodes 49
epoch 9
members 41
regions 2
sent 1813 416327
views 41
agree 41
digest e51e2b7168c64dbefc815c1b3a07ad7366412b074fc6ba9c5271a3adad674277
";

const MANY_REGIONS: &str = "\
nodes 300
epoch 13
members 292
regions 10
sent 13994 9281880
views 292
agree 292
digest cb0eae4f8c38420617ffb588f6bf94bc8093a091689b282831b88040dd645e64
";

const GREATEST_SEED: &str = "\
nodes 2
epoch 9
members 1
regions 1
sent 33 1024
views 1
agree 1
digest 717e4a88347a1b0ff7c8cc217c2c8d089622e3d070bbe4d360ff2ea388c0a1e2
";

// Looks at the summary of a drill, and at what it leaves of the source: all.
fn check_summary<R: AllocGlobal + Abort>(rt: &R, nodes: &[u8], seed: &[u8], summary: &str) {
    let mut source = CleanSource::new(copy(rt, b"print 1\n"));
    let mut sink = CleanSink::new(rt.alloc());
    let mut desk = CleanGround::new(rt.alloc());
    let drill = words(rt, &[DRILL, nodes, seed]);
    let status = run_over(rt.alloc(), &drill, &mut source, &mut sink, &mut desk);
    assert_eq!(rt; status, Status::Done);
    assert_eq!(rt; sink.written(), summary.as_bytes());
    assert_eq!(rt; source.left(), b"print 1\n".as_slice());
}

#[test]
fn summaries(rt: HostRuntime) {
    let rows: [(&[u8], &[u8], &str); 5] = [
        (b"2", b"0", SMALLEST),
        (b"2", b"18446744073709551615", GREATEST_SEED),
        (b"48", b"1", ONE_REGION),
        (b"49", b"1", TWO_REGIONS),
        (b"300", b"7", MANY_REGIONS),
    ];
    for (nodes, seed, summary) in rows {
        check_summary(&rt, nodes, seed, summary);
    }
}

// How a drill of two nodes ends over a desk of which something fails at node 2.
fn check_failing_desk<R: AllocGlobal + Abort>(rt: &R, failing: Failing, end: Status) {
    let mut source = CleanSource::new(copy(rt, b""));
    let mut sink = CleanSink::new(rt.alloc());
    let mut desk = FailingDesk::new(rt.alloc(), node(rt, 2), failing).expect(rt, "memory");
    let drill = words(rt, &[DRILL, b"2", b"0"]);
    let status = run_over(rt.alloc(), &drill, &mut source, &mut sink, &mut desk);
    assert_eq!(rt; status, end, "at {failing:?}");
    assert!(rt; sink.written().is_empty());
}

#[test]
fn a_drill_that_fails_writes_nothing(rt: HostRuntime) {
    check_failing_desk(&rt, Failing::Grant, Status::Link);
    check_failing_desk(&rt, Failing::Link(1), Status::Link);
    check_failing_desk(&rt, Failing::Log(1), Status::Log);
}

#[test]
fn a_sink_that_fails(rt: HostRuntime) {
    let mut source = CleanSource::new(copy(&rt, b""));
    let failing = vec![in rt.alloc(); 2].expect(&rt, "memory");
    let mut sink = MemSink::new(rt.alloc(), 30, failing);
    let mut desk = CleanGround::new(rt.alloc());
    let drill = words(&rt, &[DRILL, b"2", b"0"]);
    let status = run_over(rt.alloc(), &drill, &mut source, &mut sink, &mut desk);
    assert_eq!(rt; status, Status::Write);
    assert_eq!(rt; sink.written(), &SMALLEST.as_bytes()[..30]);
}

#[test]
fn words_that_are_no_drill(rt: HostRuntime) {
    let rows: [&[&[u8]]; 13] = [
        &[DRILL],
        &[DRILL, b"2"],
        &[DRILL, b"2", b"0", b"0"],
        &[DRILL, b"1", b"7"],
        &[DRILL, b"1001", b"7"],
        &[DRILL, b"02", b"7"],
        &[DRILL, b"2", b"07"],
        &[DRILL, b"+2", b"7"],
        &[DRILL, b"2", b"-1"],
        &[DRILL, b"2", b""],
        &[DRILL, b"two", b"7"],
        &[DRILL, b"2", b"18446744073709551616"],
        &[b"drills", b"2", b"7"],
    ];
    for texts in rows {
        let mut source = CleanSource::new(copy(&rt, b"print 1\n"));
        let mut sink = CleanSink::new(rt.alloc());
        let mut desk = CleanGround::new(rt.alloc());
        let texts = words(&rt, texts);
        let status = run_over(rt.alloc(), &texts, &mut source, &mut sink, &mut desk);
        assert_eq!(rt; status, Status::Usage);
        assert_eq!(rt; source.left(), b"print 1\n".as_slice());
        assert!(rt; sink.written().is_empty());
    }
}
