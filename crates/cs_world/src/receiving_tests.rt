//! Datagrams that wait at links are named.

ghost use Rattle.std.specs.Prelude.{◌≡◌, ◌+◌, ◌<◌, []};
ghost use Rattle.cs_world.specs.Seats.{AreOut};

use crate::World;
use crate::datagram::Datagram;
use crate::traffic::Traffic;
use bytes::Bytes;
use cs_base::{Addr, NodeId};
use cs_link::{CleanGround, CleanLink, Ground, GroundFault, Link, MOST_DATAGRAM};
use cs_log::CleanLog;
use cs_script::{Event, read_line};
use std::alloc::{AllocError, Global};
use std::process::Abort;

// The report of node 2 at (10, 0, 0) with its join, to node 1.
const REPORT: &[u8] =
    b"\x01\x01\0\0\0\x02\0\0\0\x01\x01\x01\0\0\0\x02\x7f\0\0\x01\x23\x2a\0\0\0\x0a\
    \0\0\0\0\0\0\0\0";

// Its bytes with another last axis.
const CHANGED: &[u8] =
    b"\x01\x01\0\0\0\x02\0\0\0\x01\x01\x01\0\0\0\x02\x7f\0\0\x01\x23\x2a\0\0\0\x0a\
    \0\0\0\0\0\0\0\x01";

// Grants links in memory at which datagrams wait.
#[derive(Debug, Drop)]
struct FedGround {
    ground: CleanGround,
}

impl FedGround {
    fn new(alloc: Global) -> Self
        ensures { ⟦<FedGround as Ground>⟧.out result ≡ [] }
    {
        FedGround {
            ground: CleanGround::new(alloc),
        }
    }
}

impl Ground for FedGround {
    ghost use Rattle.std.proofs.Common.{refl};

    type Wire = CleanLink;

    type Store = CleanLog;

    ghost logs = { λ desk. ⟦<CleanGround as Ground>⟧.logs desk.ground };

    ghost traffic = { λ desk. ⟦<CleanGround as Ground>⟧.traffic desk.ground };

    ghost out = { λ desk. ⟦<CleanGround as Ground>⟧.out desk.ground };

    ghost faults = { λ _. 0 };

    ghost link_faults = { λ _. 0 };

    ghost log_faults = { λ _. 0 };

    ghost taken = { λ desk. ⟦<CleanGround as Ground>⟧.taken desk.ground };

    ghost dry = { λ desk. ⟦<CleanGround as Ground>⟧.dry desk.ground };

    ghost logs_tell = { λ desk store told. refl };

    ghost links_tell = { λ desk wire told. refl };

    fn grant(&mut self, id: NodeId, addr: Addr) -> Result<(CleanLink, CleanLog), GroundFault> {
        let (mut link, log) = self.ground.grant(id, addr)?;
        let _arrived = link.arrive(REPORT);
        if id.get() == 1 {
            let _arrived = arrive_at_the_first(&mut link);
        }
        Ok((link, log))
    }

    fn keep(&mut self, id: NodeId, wire: CleanLink, store: CleanLog) {
        self.ground.keep(id, wire, store);
    }
}

// What waits at node 1 behind the report that waits at each node.
fn arrive_at_the_first(link: &mut CleanLink) -> Result<(), AllocError>
    ensures sent { ⟦<CleanLink as Link>⟧.sent link.new ≡ ⟦<CleanLink as Link>⟧.sent link.old }
    ensures taken { ⟦<CleanLink as Link>⟧.taken link.new ≡ ⟦<CleanLink as Link>⟧.taken link.old }
    ensures dry { ⟦<CleanLink as Link>⟧.dry link.new ≡ ⟦<CleanLink as Link>⟧.dry link.old }
{
    link.arrive(REPORT)?;
    link.arrive(REPORT)?;
    link.arrive(CHANGED)?;
    link.arrive(b"")?;
    link.arrive(REPORT)
}

// A line happens.
fn happen<R: AllocGlobal + Abort>(
    rt: &R,
    world: &mut World<FedGround>,
    desk: &mut FedGround,
    line: &str,
)
    requires { AreOut (⟦<FedGround as Ground>⟧.out desk.old) world.old.nodes.seats }
    ensures { AreOut (⟦<FedGround as Ground>⟧.out desk.new) world.new.nodes.seats }
{
    let event = read_line(rt.alloc(), line.as_bytes()).expect(rt, "event");
    let mut text = Vec::new(rt.alloc());
    world.step(desk, &event, &mut text).expect(rt, "memory");
}

// What a node receives.
fn received<R: AllocGlobal + Abort>(
    rt: &R,
    world: &mut World<FedGround>,
    desk: &FedGround,
    id: u32,
) -> Option<Event>
    requires { AreOut (⟦<FedGround as Ground>⟧.out desk.now) world.old.nodes.seats }
    ensures { AreOut (⟦<FedGround as Ground>⟧.out desk.now) world.new.nodes.seats }
{
    let id = NodeId::new(id).expect(rt, "id");
    let mut buffer = vec![in rt.alloc(); 0; MOST_DATAGRAM].expect(rt, "memory");
    if !world.has(id) {
        return None;
    }
    world.receive(id, &mut buffer).expect(rt, "datagram")
}

// A line happens, or a node receives what this event is, or nothing.
#[derive(Drop)]
enum Row {
    Line(&'static str),
    Receives(u32, Option<Event>),
}

// So it is with this row.
fn take<R: AllocGlobal + Abort>(
    rt: &R,
    world: &mut World<FedGround>,
    desk: &mut FedGround,
    row: &Row,
)
    requires { AreOut (⟦<FedGround as Ground>⟧.out desk.old) world.old.nodes.seats }
    ensures { AreOut (⟦<FedGround as Ground>⟧.out desk.new) world.new.nodes.seats }
{
    match row {
        Row::Line(line) => happen(rt, world, desk, line),
        Row::Receives(id, event) => {
            let got = received(rt, world, desk, *id);
            assert!(rt; got == *event);
        }
    }
}

// Two equal packets are sent, of which the first is lost.
#[test]
fn equal_packets_are_named_one_after_the_other(rt: HostRuntime) {
    let other = NodeId::new(2).expect(&rt, "id");
    let first = NodeId::new(1).expect(&rt, "id");
    let rows = [
        Row::Line("lead 1 127.0.0.1:9001 0 0 0"),
        Row::Line("boot 2 127.0.0.1:9002 10 0 0 partial"),
        Row::Line("join 2"),
        Row::Line("join 2"),
        Row::Line("lose 1"),
        Row::Receives(1, Some(Event::Deliver(1))),
        Row::Line("deliver 1"),
        Row::Receives(1, Some(Event::Deliver(2))),
        Row::Line("deliver 2"),
        // Both were delivered.
        Row::Receives(1, Some(Event::Deliver(1))),
        Row::Receives(1, Some(Event::Noise(first, 34))),
        Row::Receives(1, Some(Event::Noise(first, 0))),
        Row::Line("crash 1"),
        Row::Receives(1, Some(Event::Deliver(1))),
        Row::Receives(1, None),
        // No packet with these bytes was sent to node 2.
        Row::Receives(2, Some(Event::Noise(other, 34))),
        Row::Receives(2, None),
    ];
    run(&rt, &rows);
}

// Three equal packets are sent, and delivered out of order.
#[test]
fn the_least_that_was_not_delivered_is_named(rt: HostRuntime) {
    let rows = [
        Row::Line("lead 1 127.0.0.1:9001 0 0 0"),
        Row::Line("boot 2 127.0.0.1:9002 10 0 0 partial"),
        Row::Line("join 2"),
        Row::Line("join 2"),
        Row::Line("join 2"),
        Row::Line("deliver 2"),
        Row::Receives(1, Some(Event::Deliver(1))),
        Row::Line("deliver 1"),
        Row::Receives(1, Some(Event::Deliver(3))),
        Row::Line("deliver 3"),
        // Each was delivered.
        Row::Receives(1, Some(Event::Deliver(1))),
    ];
    run(&rt, &rows);
}

// The rows happen in a world that keeps an index, and in one that doesn't.
fn run<R: AllocGlobal + Abort>(rt: &R, rows: &[Row]) {
    run_in(rt, World::new(rt.alloc()), rows);
    run_in(rt, World::replaying(rt.alloc()), rows);
}

// The rows happen one after the other in a world without nodes.
fn run_in<R: AllocGlobal + Abort>(rt: &R, mut world: World<FedGround>, rows: &[Row])
    requires { world.nodes.seats.items.items ≡ [] }
{
    let mut desk = FedGround::new(rt.alloc());
    for row in rows {
        take(rt, &mut world, &mut desk, row);
    }
    world.finish(&mut desk);
}

// One byte is sent to the address.
fn send<R: AllocGlobal + Abort>(rt: &R, traffic: &mut Traffic, addr: Addr)
    requires { traffic.old.bytes < 100 }
    ensures { traffic.new.bytes ≡ traffic.old.bytes + 1 }
{
    let bytes = Bytes::copy_from_slice(rt.alloc(), &[7]).expect(rt, "memory");
    let datagram = Datagram {
        addr,
        bytes,
        is_open: true,
        is_delivered: false,
    };
    traffic.push(datagram).expect(rt, "memory");
}

// The same byte is sent to two addresses in turn.
#[test]
fn the_same_bytes_at_another_address_are_other_packets(rt: HostRuntime) {
    name_by_address(&rt, Traffic::new(rt.alloc()));
    name_by_address(&rt, Traffic::indexed(rt.alloc()));
}

// So it is where nothing was sent before.
fn name_by_address<R: AllocGlobal + Abort>(rt: &R, mut traffic: Traffic)
    requires { traffic.bytes ≡ 0 }
{
    let first = Addr::new([127, 0, 0, 1], 9001).expect(rt, "address");
    let other = Addr::new([127, 0, 0, 1], 9002).expect(rt, "address");
    send(rt, &mut traffic, first);
    send(rt, &mut traffic, other);
    send(rt, &mut traffic, first);
    send(rt, &mut traffic, other);
    assert!(rt; traffic.number_for(first, &[7]) == Some(1));
    assert!(rt; traffic.number_for(other, &[7]) == Some(2));
    assert!(rt; traffic.number_for(first, &[8]).is_none());
    traffic.note_delivery(1);
    traffic.note_delivery(4);
    assert!(rt; traffic.number_for(first, &[7]) == Some(3));
    assert!(rt; traffic.number_for(other, &[7]) == Some(2));
    traffic.note_delivery(2);
    assert!(rt; traffic.number_for(other, &[7]) == Some(2));
}
