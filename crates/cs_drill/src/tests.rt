//! The expected lines, numbers and digests come from another program of the same specification, which was written apart
//! from this one. The digests are the SHA-256 of all lines of a schedule or a plan, each with its LF.

ghost use Rattle.std.specs.List.{AllByRecursion};
ghost use Rattle.cs_drill.specs.Planned.{IsPlanned};
ghost use Rattle.cs_script.specs.Event.{IsEvent};

use crate::{DrillFault, Events, Plan, Planned, generate, live_plan};
use cs_script::print_event;
use sha2::{Digest, Sha256};
use std::process::Abort;
use std::test::Fail;

// The smallest schedule, up to the end of its first round.
const FIRST_LINES: &[&[u8]] = &[
    b"lead 1 127.0.0.1:20001 951724 -603685 921288",
    b"boot 2 127.0.0.1:20002 604806 829714 -563711 full",
    b"join 2",
    b"settle 40",
    b"close",
    b"settle 40",
    b"move 2 -540407 -209254 17660",
    b"move 2 -753910 -546670 -36459",
    b"move 2 -435190 -859806 159932",
    b"move 2 416043 832401 -242735",
    b"move 2 -396065 -94907 325397",
    b"move 2 474885 -403070 -610504",
    b"move 2 -666281 297942 -641308",
    b"move 2 -400017 -8470 70414",
    b"leave 2",
    b"settle 40",
    b"flush 2",
    b"settle 40",
    b"crash 2",
    b"close",
    b"settle 40",
    b"restart 2",
    b"ask 2 1",
    b"ask 2 1",
    b"ask 2 1",
    b"ask 2 1",
    b"ask 2 1",
    b"ask 2 1",
    b"ask 2 1",
    b"ask 2 1",
    b"ask 2 1",
    b"settle 40",
];

#[test]
fn a_drill_has_from_2_to_1000_nodes(rt: HostRuntime) -> Result<(), Fail> {
    for nodes in [0, 1, 1001, u32::MAX] {
        assert_eq!(rt;
            generate(rt.alloc(), nodes, 0).err(),
            Some(DrillFault::Range)
        );
    }
    assert!(rt; generate(rt.alloc(), 2, 0).is_ok());
    assert!(rt; generate(rt.alloc(), 1000, u64::MAX).is_ok());
    Ok(())
}

#[test]
fn the_smallest_drill_begins_with_these_lines(rt: HostRuntime) -> Result<(), Fail> {
    let events = generate(rt.alloc(), 2, 0)?;
    for (event, line) in events.as_slice().iter().zip(FIRST_LINES) {
        assert_eq!(rt; print_event(rt.alloc(), event)?.as_slice(), *line);
    }
    Ok(())
}

// The schedule has so many lines, and this is their digest.
fn check_schedule<R: AllocGlobal + Abort>(
    rt: &R,
    nodes: u32,
    seed: u64,
    lines: usize,
    digest: &str,
) {
    let events = generate(rt.alloc(), nodes, seed).expect(rt, "a schedule");
    assert_eq!(rt; events.len(), lines);
    assert_eq!(rt; digest_of(rt, &events).as_str(), digest);
}

fn digest_of<R: AllocGlobal + Abort>(rt: &R, events: &Events) -> String
    requires { AllByRecursion IsEvent events.now }
{
    let mut hasher = Sha256::new();
    for event in events.as_slice() {
        let line = print_event(rt.alloc(), event).expect(rt, "memory");
        hasher.update(line.as_slice());
        hasher.update(b"\n");
    }
    hex::encode(rt.alloc(), hasher.finalize()).expect(rt, "memory")
}

#[test]
fn whole_schedules(rt: HostRuntime) {
    let rows = [
        (
            2,
            0,
            218,
            "4143bda9bb43b56f906583433639c7a0caae6e0d6aeb46442b87ee188b862106",
        ),
        (
            48,
            1,
            770,
            "039bbd26dff577825e9953307b2c84cf5030914a1601f92c373f835d1c18f0d6",
        ),
        (
            49,
            1,
            782,
            "ab30735681d79e6b95baec68f4b17ad747049091cb2b0c163d5eda29f522e32f",
        ),
        // The last batch of joins has one node.
        (
            66,
            7,
            989,
            "118c359fd1a1ba0b7d6f3cb430ac83544916f36278cd72e0c068717c130efc3c",
        ),
        (
            300,
            7,
            3806,
            "0f04547bdf5684b4d6b0d71f845d785184497542005d56811f5c3d5e27a732d2",
        ),
        (
            1000,
            u64::MAX,
            12239,
            "d436d1195da84319c6f6f4febd01ec576b4155088d8b0bc874a60a47f92fc02f",
        ),
    ];
    for (nodes, seed, lines, digest) in rows {
        check_schedule(&rt, nodes, seed, lines, digest);
    }
}

#[test]
fn events_are_seen_as_a_list(rt: HostRuntime) -> Result<(), Fail> {
    let events = generate(rt.alloc(), 2, 0)?;
    assert!(rt; !events.is_empty());
    assert_eq!(rt; events.len(), events.as_slice().len());
    let none = Events::from(Vec::new(rt.alloc()));
    assert!(rt; none.is_empty());
    Ok(())
}

// The plan of three nodes.
const LIVE_LINES: &[&str] = &[
    "lead 1 127.0.0.1:30001 0 0 0",
    "boot 2 127.0.0.1:30002 2000 0 0 partial",
    "boot 3 127.0.0.1:30003 3000 0 0 partial",
    "join 2",
    "join 3",
    "poll",
    "close",
    "poll",
    "close",
    "poll",
    "ask 2 1",
    "ask 3 1",
    "poll",
    "print 1",
    "print 2",
    "print 3",
];

// A step of a plan as a line.
fn check_step<R: AllocGlobal + Abort>(rt: &R, step: &Planned, line: &str)
    requires { IsPlanned step.now }
{
    match step {
        Planned::Event(event) => {
            let said = print_event(rt.alloc(), event).expect(rt, "memory");
            assert_eq!(rt; said.as_slice(), line.as_bytes());
        }
        Planned::Poll => assert_eq!(rt; "poll", line),
    }
}

#[test]
fn the_plan_of_three_nodes(rt: HostRuntime) -> Result<(), Fail> {
    let plan = live_plan(rt.alloc(), 3, 30_000)?;
    assert_eq!(rt; plan.len(), LIVE_LINES.len());
    for (step, line) in plan.as_slice().iter().zip(LIVE_LINES) {
        check_step(&rt, step, line);
    }
    Ok(())
}

// The plan has so many steps, and this is the digest of their lines.
fn check_plan<R: AllocGlobal + Abort>(rt: &R, plan: &Plan, steps: usize, digest: &str)
    requires { AllByRecursion IsPlanned plan.now }
{
    let mut hasher = Sha256::new();
    for step in plan.as_slice() {
        match step {
            Planned::Event(event) => {
                let line = print_event(rt.alloc(), event).expect(rt, "memory");
                hasher.update(line.as_slice());
            }
            Planned::Poll => hasher.update(b"poll"),
        }
        hasher.update(b"\n");
    }
    let found = hex::encode(rt.alloc(), hasher.finalize()).expect(rt, "memory");
    assert_eq!(rt; plan.len(), steps);
    assert_eq!(rt; found.as_str(), digest);
}

#[test]
fn whole_plans(rt: HostRuntime) -> Result<(), Fail> {
    check_plan(
        &rt,
        &live_plan(rt.alloc(), 2, 1)?,
        12,
        "cb85755f62b4d3e3b54dbd1102ee68a90cd8de948f98bc91ddd02874651939c5",
    );
    check_plan(
        &rt,
        &live_plan(rt.alloc(), 17, 20_000)?,
        72,
        "fa1e43917a8b2e319718bc26296321f5d550027893969bf17966b38974e668da",
    );
    check_plan(
        &rt,
        &live_plan(rt.alloc(), 64, 65_000)?,
        260,
        "14464a4cf128a42fb219ff5a875eea2512da30c5b14462e90e8929c6ccc1dda1",
    );
    Ok(())
}

#[test]
fn a_plan_is_seen_as_a_list(rt: HostRuntime) -> Result<(), Fail> {
    let plan = live_plan(rt.alloc(), 2, 1)?;
    assert!(rt; !plan.is_empty());
    assert_eq!(rt; plan.len(), plan.as_slice().len());
    let none = Plan::from(Vec::new(rt.alloc()));
    assert!(rt; none.is_empty());
    Ok(())
}

#[test]
fn faults_say_why(rt: HostRuntime) -> Result<(), Fail> {
    assert_eq!(rt;
        format!(in rt.alloc(); "{}", DrillFault::Range)?.as_str(),
        "a drill has from 2 to 1,000 nodes"
    );
    assert_eq!(rt;
        format!(in rt.alloc(); "{}", DrillFault::Memory)?.as_str(),
        "out of memory"
    );
    Ok(())
}
