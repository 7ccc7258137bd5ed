ghost use Rattle.std.specs.Prelude.{◌≡◌, length};
ghost use Rattle.cs_link.specs.Received.{IsSmall, most_datagram};

mod udp;

use crate::inbox::Inbox;
use crate::outbox::Outbox;
use crate::{CleanGround, CleanLink, Ground, Link, LinkFailed, MOST_DATAGRAM, MemDesk, MemLink};
use bytes::{Bytes, BytesMut};
use cs_base::{Addr, NodeId};
use cs_log::Log;
use std::process::Abort;
use std::test::Fail;

fn addr(rt: &impl Abort, port: u16) -> Addr {
    Addr::new([127, 0, 0, 1], port).expect(rt, "address")
}

fn node(rt: &impl Abort, number: u32) -> NodeId {
    NodeId::new(number).expect(rt, "id")
}

// Makes room for a datagram and sends it: whether that succeeds.
fn sends<L: Link>(rt: &impl Abort, link: &mut L, port: u16, bytes: &[u8]) -> bool {
    link.ready(1, bytes.len() as u64).expect(rt, "memory");
    link.send(addr(rt, port), bytes).is_ok()
}

// The datagram of this number, from 0, went to this port with these bytes.
fn is_sent(rt: &impl Abort, link: &MemLink, i: usize, port: u16, bytes: &[u8]) {
    assert_eq!(rt; link.sent(i), Some((addr(rt, port), bytes)));
}

// The datagram of this number, from 0, is shared with this port and these bytes, and is given as a slice alike.
fn is_shared(rt: &impl Abort, link: &CleanLink, i: usize, port: u16, bytes: &'static [u8]) {
    let shared = link.share(i).expect(rt, "memory");
    assert_eq!(rt; shared, Some((addr(rt, port), Bytes::from_static(bytes))));
    assert_eq!(rt; link.sent(i), Some((addr(rt, port), bytes)));
}

// A buffer that has room for any datagram.
fn buffer<R: AllocGlobal + Abort>(rt: &R) -> Vec<u8>
    ensures { length result.items ≡ most_datagram }
{
    let mut buf = Vec::new(rt.alloc());
    buf.resize(MOST_DATAGRAM, 7).expect(rt, "memory");
    buf
}

// Receives: these bytes, or nothing.
fn receives<R: AllocGlobal + Abort, L: Link>(rt: &R, link: &mut L, bytes: Option<&[u8]>) {
    let mut buf = buffer(rt);
    let got = link.recv(&mut buf).expect(rt, "the link failed");
    assert_eq!(rt; got, bytes.map(|bytes| bytes.len()));
    if let (Some(size), Some(bytes)) = (got, bytes) {
        assert_eq!(rt; buf.get(..size), Some(bytes));
    }
}

// Puts a datagram behind those that wait.
fn arrives(rt: &impl Abort, link: &mut MemLink, bytes: &[u8])
    requires { IsSmall bytes.now }
{
    link.arrive(bytes).expect(rt, "memory");
}

#[test]
fn datagrams_are_sent_in_order(rt: HostRuntime) {
    let mut link = MemLink::new(rt.alloc());
    assert!(rt; sends(&rt, &mut link, 9001, b"ab"));
    assert!(rt; sends(&rt, &mut link, 9002, b""));
    assert!(rt; sends(&rt, &mut link, 9001, b"c"));
    is_sent(&rt, &link, 0, 9001, b"ab");
    is_sent(&rt, &link, 1, 9002, b"");
    is_sent(&rt, &link, 2, 9001, b"c");
    assert!(rt; link.sent(3).is_none());
}

// What three datagrams are shared as.
fn are_shared(rt: &impl Abort, mut link: CleanLink) {
    assert!(rt; sends(rt, &mut link, 9001, b"ab"));
    assert!(rt; sends(rt, &mut link, 9002, b""));
    assert!(rt; sends(rt, &mut link, 9001, b"c"));
    is_shared(rt, &link, 0, 9001, b"ab");
    is_shared(rt, &link, 1, 9002, b"");
    is_shared(rt, &link, 2, 9001, b"c");
    assert_eq!(rt; link.share(3).expect(rt, "memory"), None);
}

#[test]
fn the_bytes_of_a_datagram_are_shared(rt: HostRuntime) {
    are_shared(&rt, CleanLink::new(rt.alloc()));
}

// So it is where a byte in the room couldn't be shared: those behind it stay in the room.
#[test]
fn bytes_that_stay_in_the_room_are_copied(rt: HostRuntime) -> Result<(), Fail> {
    let outbox = Outbox {
        alloc: rt.alloc(),
        posts: Vec::new(rt.alloc()),
        room: BytesMut::copy_from_slice(rt.alloc(), b"x")?,
    };
    let inbox = Inbox::new(rt.alloc());
    are_shared(&rt, CleanLink { outbox, inbox });
    Ok(())
}

#[test]
fn datagrams_are_received_in_order(rt: HostRuntime) {
    let mut link = MemLink::new(rt.alloc());
    receives(&rt, &mut link, None);
    arrives(&rt, &mut link, b"ab");
    arrives(&rt, &mut link, b"");
    arrives(&rt, &mut link, b"c");
    receives(&rt, &mut link, Some(b"ab"));
    receives(&rt, &mut link, Some(b""));
    receives(&rt, &mut link, Some(b"c"));
    receives(&rt, &mut link, None);
    assert_eq!(rt; (link.taken(), link.dry(), link.faults()), (3, 2, 0));
}

#[test]
fn the_longest_datagram_comes_whole(rt: HostRuntime) {
    let mut link = CleanLink::new(rt.alloc());
    let longest = buffer(&rt);
    link.arrive(&longest).expect(&rt, "memory");
    assert!(rt; sends(&rt, &mut link, 9001, &longest));
    receives(&rt, &mut link, Some(&longest));
    receives(&rt, &mut link, None);
    assert_eq!(rt; (link.taken(), link.dry()), (1, 1));
}

// Sends `a`, receives, sends `b` and receives, where call number `fails` of these is to fail: which calls succeed, and
// how many datagrams came.
fn with_failing<R: AllocGlobal + Abort>(rt: &R, fails: u64) -> ([bool; 4], u64) {
    let mut link = MemLink::new(rt.alloc());
    link.fail(fails).expect(rt, "memory");
    arrives(rt, &mut link, b"x");
    arrives(rt, &mut link, b"y");
    let mut buf = buffer(rt);
    let first = sends(rt, &mut link, 9001, b"a");
    let second = link.recv(&mut buf).is_ok();
    let third = sends(rt, &mut link, 9001, b"b");
    let fourth = link.recv(&mut buf).is_ok();
    assert_eq!(rt; link.faults(), 1);
    assert_eq!(rt; link.dry(), 0);
    if first {
        is_sent(rt, &link, 0, 9001, b"a");
    } else {
        is_sent(rt, &link, 0, 9001, b"b");
    }
    ([first, second, third, fourth], link.taken())
}

#[test]
fn each_call_can_be_made_to_fail(rt: HostRuntime) {
    let cases = [
        (1, [false, true, true, true], 2),
        (2, [true, false, true, true], 1),
        (3, [true, true, false, true], 2),
        (4, [true, true, true, false], 1),
    ];
    for (fails, succeed, taken) in cases {
        assert_eq!(rt; with_failing(&rt, fails), (succeed, taken));
    }
}

#[test]
fn a_datagram_waits_after_a_failure(rt: HostRuntime) {
    let mut link = MemLink::new(rt.alloc());
    link.fail(1).expect(&rt, "memory");
    arrives(&rt, &mut link, b"x");
    assert_eq!(rt; link.recv(&mut buffer(&rt)), Err(LinkFailed));
    receives(&rt, &mut link, Some(b"x"));
}

#[test]
fn the_counts_of_a_link_stay_at_their_last_value(rt: HostRuntime) {
    let mut link = CleanLink::new(rt.alloc());
    link.inbox.taken = u64::MAX - 1;
    link.inbox.dry = u64::MAX - 1;
    for _ in 0..2 {
        link.arrive(b"x").expect(&rt, "memory");
        receives(&rt, &mut link, Some(b"x"));
        receives(&rt, &mut link, None);
        assert_eq!(rt; (link.taken(), link.dry()), (u64::MAX, u64::MAX));
    }
}

// What is kept under this id: the one datagram that its link sent, and the bytes of its log.
fn has_kept(rt: &impl Abort, desk: &MemDesk, id: u32, sent: &[u8], logged: &[u8]) {
    let link = desk.link(node(rt, id)).expect(rt, "a link");
    is_sent(rt, link, 0, 9000, sent);
    assert!(rt; link.sent(1).is_none());
    let log = desk.log(node(rt, id)).expect(rt, "a log");
    assert_eq!(rt; log.as_slice(), logged);
}

// Makes room for the bytes and appends them: whether that succeeds.
fn logs<G: Log>(rt: &impl Abort, log: &mut G, bytes: &[u8]) -> bool {
    log.ready(bytes.len() as u64).expect(rt, "memory");
    log.append(bytes).is_ok()
}

#[test]
fn two_nodes_hand_back_in_the_other_order(rt: HostRuntime) {
    let mut desk = MemDesk::new(rt.alloc());
    let (first, second) = (node(&rt, 1), node(&rt, 2));
    let (mut wire, mut store) = desk.grant(first, addr(&rt, 9001)).expect(&rt, "a grant");
    assert!(rt; !desk.is_out(second));
    let (mut other_wire, mut other_store) = desk
        .grant(second, addr(&rt, 9002))
        .expect(&rt, "a grant");
    wire.fail(2).expect(&rt, "memory");
    assert!(rt; sends(&rt, &mut wire, 9000, b"a"));
    assert!(rt; !sends(&rt, &mut wire, 9000, b"lost"));
    assert!(rt; logs(&rt, &mut store, b"one"));
    assert!(rt; sends(&rt, &mut other_wire, 9000, b"b"));
    assert!(rt; logs(&rt, &mut other_store, b"two"));
    receives(&rt, &mut other_wire, None);
    assert!(rt; desk.is_out(second));
    desk.keep(second, other_wire, other_store);
    assert_eq!(rt; (desk.link_faults(), desk.log_faults()), (0, 0));
    assert!(rt; desk.link(first).is_none());
    assert!(rt; desk.log(first).is_none());
    assert!(rt; desk.is_out(first));
    desk.keep(first, wire, store);
    assert_eq!(rt; (desk.link_faults(), desk.log_faults()), (1, 0));
    assert_eq!(rt; (desk.taken(), desk.dry()), (0, 1));
    has_kept(&rt, &desk, 1, b"a", b"one");
    has_kept(&rt, &desk, 2, b"b", b"two");
}

#[test]
fn what_was_kept_stays_until_the_id_hands_back_again(rt: HostRuntime) {
    let mut desk = MemDesk::new(rt.alloc());
    let id = node(&rt, 3);
    let (mut wire, mut store) = desk.grant(id, addr(&rt, 9003)).expect(&rt, "a grant");
    assert!(rt; sends(&rt, &mut wire, 9000, b"old"));
    assert!(rt; logs(&rt, &mut store, b"old log"));
    assert!(rt; desk.is_out(id));
    desk.keep(id, wire, store);
    assert!(rt; !desk.is_out(id));
    let (mut wire, mut store) = desk.grant(id, addr(&rt, 9003)).expect(&rt, "a grant");
    assert!(rt; sends(&rt, &mut wire, 9000, b"new"));
    store.fail(1).expect(&rt, "memory");
    assert!(rt; !logs(&rt, &mut store, b"new log!"));
    has_kept(&rt, &desk, 3, b"old", b"old log");
    assert!(rt; desk.is_out(id));
    desk.keep(id, wire, store);
    has_kept(&rt, &desk, 3, b"new", b"new ");
    assert_eq!(rt; (desk.link_faults(), desk.log_faults()), (0, 1));
}

// Grants a link and a log, sends twice, appends twice and hands them back: which of these calls succeed.
fn with_granted(rt: &impl Abort, desk: &mut MemDesk, id: NodeId) -> [bool; 4] {
    let (mut wire, mut store) = desk.grant(id, addr(rt, 9007)).expect(rt, "a grant");
    let first = sends(rt, &mut wire, 9000, b"a");
    let second = sends(rt, &mut wire, 9000, b"b");
    let third = logs(rt, &mut store, b"one");
    let fourth = logs(rt, &mut store, b"two");
    assert!(rt; desk.is_out(id));
    desk.keep(id, wire, store);
    [first, second, third, fourth]
}

#[test]
fn a_desk_fails_the_calls_that_it_was_told_to(rt: HostRuntime) {
    let mut desk = MemDesk::new(rt.alloc());
    let (one, other) = (node(&rt, 1), node(&rt, 2));
    desk.fail_link(one, 2).expect(&rt, "memory");
    desk.fail_log(one, 1).expect(&rt, "memory");
    desk.fail_log(other, 2).expect(&rt, "memory");
    let cases = [
        (one, [true, false, false, true]),
        (other, [true, true, true, false]),
        // it fails at the second grant too
        (one, [true, false, false, true]),
    ];
    for (id, succeed) in cases {
        assert_eq!(rt; with_granted(&rt, &mut desk, id), succeed);
    }
    assert_eq!(rt; (desk.link_faults(), desk.log_faults()), (2, 3));
}

#[test]
fn the_counts_of_a_desk_stay_at_their_last_value(rt: HostRuntime) {
    let mut desk = MemDesk::new(rt.alloc());
    desk.link_faults = u64::MAX;
    desk.taken = u64::MAX;
    desk.dry = u64::MAX;
    let id = node(&rt, 4);
    let (mut wire, store) = desk.grant(id, addr(&rt, 9004)).expect(&rt, "a grant");
    wire.fail(3).expect(&rt, "memory");
    arrives(&rt, &mut wire, b"x");
    receives(&rt, &mut wire, Some(b"x"));
    receives(&rt, &mut wire, None);
    assert!(rt; !sends(&rt, &mut wire, 9000, b"a"));
    assert!(rt; desk.is_out(id));
    desk.keep(id, wire, store);
    assert_eq!(rt; desk.link_faults(), u64::MAX);
    assert_eq!(rt; (desk.taken(), desk.dry()), (u64::MAX, u64::MAX));
}

#[test]
fn a_clean_ground_keeps_what_it_granted(rt: HostRuntime) {
    let mut desk = CleanGround::new(rt.alloc());
    let id = node(&rt, 5);
    let (mut wire, mut store) = desk.grant(id, addr(&rt, 9005)).expect(&rt, "a grant");
    assert!(rt; sends(&rt, &mut wire, 9000, b"a"));
    assert!(rt; logs(&rt, &mut store, b"entry"));
    receives(&rt, &mut wire, None);
    assert!(rt; desk.is_out(id));
    desk.keep(id, wire, store);
    let link = desk.link(id).expect(&rt, "a link");
    assert_eq!(rt; link.sent(0), Some((addr(&rt, 9000), b"a".as_slice())));
    let log = desk.log(id).expect(&rt, "a log");
    assert_eq!(rt; log.as_slice(), b"entry".as_slice());
    assert_eq!(rt; (desk.taken(), desk.dry()), (0, 1));
    assert!(rt; desk.link(node(&rt, 6)).is_none());
}

#[test]
fn what_was_sent_is_counted(rt: HostRuntime) {
    let mut link = CleanLink::new(rt.alloc());
    assert_eq!(rt; link.len(), 0);
    assert!(rt; sends(&rt, &mut link, 9001, b"ab"));
    assert!(rt; sends(&rt, &mut link, 9002, b""));
    assert_eq!(rt; link.len(), 2);
}
