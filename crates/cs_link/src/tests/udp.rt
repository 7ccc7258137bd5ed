//! Links over UDP sockets on loopback, and the ground that grants them. The system chooses the ports, so tests that
//! run at the same time don't meet.

use super::{addr, buffer, node, sends};
use crate::{Ground, GroundFault, Link, UdpGround, UdpLink};
use cs_base::Addr;
use std::net::{Ipv4Addr, Net, UdpSocket};
use std::process::Abort;
use std::rt::Clock;
use std::thread;
use std::time::Duration;

// A socket that no link has, and its address.
fn stranger<R: Net + Abort>(rt: &R) -> (UdpSocket, Addr) {
    let socket = UdpSocket::bind(rt, (Ipv4Addr::LOCALHOST, 0)).expect(rt, "a socket");
    let port = socket.local_addr().expect(rt, "an address").port();
    (socket, addr(rt, port))
}

// A link at an address that nobody uses.
fn bound<R: Net + Abort>(rt: &R) -> (UdpLink, Addr) {
    let (socket, at) = stranger(rt);
    drop(socket);
    (UdpLink::bind(rt, at).expect(rt, "a link"), at)
}

// The next datagram, where one waits.
fn received<R: AllocGlobal + Abort>(rt: &R, link: &mut UdpLink) -> Option<Vec<u8>> {
    let mut buf = buffer(rt);
    let size = link.recv(&mut buf).expect(rt, "the link failed")?;
    buf.truncate(size);
    Some(buf)
}

// The datagram that comes within some seconds.
fn comes<R: AllocGlobal + Clock + Abort>(rt: &R, link: &mut UdpLink) -> Vec<u8> {
    for _ in 0..5_000 {
        if let Some(datagram) = received(rt, link) {
            return datagram;
        }
        thread::sleep(rt, Duration::from_millis(1));
    }
    panic!(rt; "no datagram came")
}

#[test]
fn datagrams_come_and_are_counted(rt: HostRuntime) {
    let (mut near, _) = bound(&rt);
    let (mut far, at) = bound(&rt);
    assert!(rt; received(&rt, &mut far).is_none());
    assert_eq!(rt; (far.taken(), far.dry()), (0, 1));
    assert!(rt; sends(&rt, &mut near, at.port(), b"ab"));
    assert_eq!(rt; comes(&rt, &mut far).as_slice(), b"ab".as_slice());
    assert!(rt; sends(&rt, &mut near, at.port(), b""));
    assert_eq!(rt; comes(&rt, &mut far).as_slice(), b"".as_slice());
    assert_eq!(rt; (far.taken(), far.faults()), (2, 0));
    assert_eq!(rt; (near.taken(), near.dry(), near.faults()), (0, 0, 0));
}

#[test]
fn the_longest_datagram_goes_through_and_no_longer_one(rt: HostRuntime) {
    let (mut near, _) = bound(&rt);
    let (mut far, at) = bound(&rt);
    let longest = vec![in rt.alloc(); 5u8; 65_507].expect(&rt, "memory");
    assert!(rt; sends(&rt, &mut near, at.port(), &longest));
    assert!(rt; comes(&rt, &mut far) == longest);
    let longer = vec![in rt.alloc(); 5u8; 65_508].expect(&rt, "memory");
    assert!(rt; !sends(&rt, &mut near, at.port(), &longer));
    assert_eq!(rt; near.faults(), 1);
    assert!(rt; received(&rt, &mut far).is_none());
}

#[test]
fn what_a_stranger_sends_is_received(rt: HostRuntime) {
    let (socket, from) = stranger(&rt);
    let (mut link, at) = bound(&rt);
    let to = (Ipv4Addr::LOCALHOST, at.port());
    assert_eq!(rt; socket.send_to(b"noise", to).expect(&rt, "sent"), 5);
    assert_eq!(rt; comes(&rt, &mut link).as_slice(), b"noise".as_slice());
    // and it gets what is sent to it
    assert!(rt; sends(&rt, &mut link, from.port(), b"back"));
    let mut buf = [0u8; 8];
    let (size, _) = socket.recv_from(&mut buf).expect(&rt, "received");
    assert_eq!(rt; &buf[..size], b"back".as_slice());
}

#[test]
fn a_ground_grants_an_address_that_nobody_uses(rt: HostRuntime) {
    let (socket, at) = stranger(&rt);
    let mut ground = UdpGround::new(&rt, rt.alloc());
    let id = node(&rt, 7);
    assert_eq!(rt; ground.grant(id, at).err(), Some(GroundFault::Failed));
    assert_eq!(rt; (ground.is_out(id), ground.faults()), (false, 1));
    drop(socket);
    let (mut wire, store) = ground.grant(id, at).expect(&rt, "a grant");
    assert_eq!(rt; store.as_slice(), b"".as_slice());
    assert!(rt; received(&rt, &mut wire).is_none());
    assert!(rt; sends(&rt, &mut wire, at.port(), b"to itself"));
    assert_eq!(rt; comes(&rt, &mut wire).as_slice(), b"to itself".as_slice());
    let dry = wire.dry();
    assert!(rt; ground.is_out(id));
    ground.keep(id, wire, store);
    assert_eq!(rt; (ground.taken(), ground.dry()), (1, dry));
    assert_eq!(rt; (ground.faults(), ground.link_faults()), (1, 0));
    // its socket was closed
    let other = node(&rt, 8);
    assert!(rt; !ground.is_out(other));
    assert!(rt; ground.grant(other, at).is_ok());
}
