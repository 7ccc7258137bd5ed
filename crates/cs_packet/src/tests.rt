ghost use Rattle.cs_packet.specs.PacketField.{IsPacket};

use crate::{Body, Named, Own, Packet, Sends, decode, encode};
use cs_base::{Addr, Epoch, Member, Mode, NodeId, Point, RegionId};
use cs_fields::PacketFault;
use std::process::Abort;

// Node 2 asks for its join at 127.0.0.1:9002 and at the point (10, 0, 0).
const REPORT: &str =
    "01 01 00000002 00000001 01 01 00000002 7f000001 232a 0000000a 00000000 00000000";
// A piece of a slice of 5 bytes, to region 0 at epoch 2.
const PIECE: &str = "01 02 00000001 00000002 00000002 00000000 03 00000005 abcd";

const NEED: &str = "01 03 00000002 00000001 7f000001 232a 00 00000002 00000000";
// At epoch 2 region 0 stays the same.
const SLICE: &str = "01 04 00000001 00000002 00000002 00000000 00 00 00 00 00";

const ASK: &str = "01 05 00000002 00000001 7f000001 232a 01 00000009";
// Epoch 1, with member 1 alone, at (0, 0, 0).
const SNAP: &str = "01 06 00000001 00000002 00000001 01 00000000 00000001 \
    0000000000000000 0000000000000000 0000000000000000 00000000 00000000 00000000 \
    00000000 00000000 00000000 01 00000001 7f000001 2329 00000000 00000000 00000000 \
    01 00000000 0001 00000001 7f000001 2329 00000000 00000000 00000000";

const BYE: &str = "01 07 00000001 00000002 00000005";

fn node(rt: &impl Abort, id: u32) -> NodeId {
    NodeId::new(id).expect(rt, "id")
}

fn address(rt: &impl Abort, port: u16) -> Addr {
    Addr::new([127, 0, 0, 1], port).expect(rt, "address")
}

// Epoch 5, from 1 to 2.
fn bye(rt: &impl Abort) -> Packet
    ensures { IsPacket result }
{
    Packet {
        from: node(rt, 1),
        to: node(rt, 2),
        body: Body::Bye {
            epoch: Epoch::new(5).expect(rt, "epoch"),
        },
    }
}

fn bye_epoch(packet: &Packet) -> Option<u32> {
    match &packet.body {
        Body::Bye { epoch } => Some(epoch.get()),
        _ => None,
    }
}

// The id of the first change of a report.
fn first_id(packet: &Packet) -> Option<u32> {
    match &packet.body {
        Body::Report(changes) => Some(changes.as_slice().first()?.id().get()),
        _ => None,
    }
}

// Puts the bytes that are written in hexadecimal digits, two of them for each, behind the others.
fn push_field(rt: &impl Abort, bytes: &mut Vec<u8>, digits: &str) {
    for pair in digits.as_bytes().chunks(2) {
        let [high, low] = pair else {
            continue;
        };
        let high = char::from(*high).to_digit(16).expect(rt, "digit");
        let low = char::from(*low).to_digit(16).expect(rt, "digit");
        bytes.push((16 * high + low) as u8).expect(rt, "memory");
    }
}

// The bytes of all fields.
pub(crate) fn joined<R: AllocGlobal + Abort>(rt: &R, fields: &str) -> Vec<u8> {
    let mut bytes = Vec::new(rt.alloc());
    for field in fields.split(" ") {
        push_field(rt, &mut bytes, field);
    }
    bytes
}

// The bytes of all fields with two bytes changed, each given by its place and its new value.
pub(crate) fn changed<R: AllocGlobal + Abort>(
    rt: &R,
    fields: &str,
    changes: [(usize, u8); 2],
) -> Vec<u8> {
    let mut bytes = joined(rt, fields);
    for (place, byte) in changes {
        if let Some(old) = bytes.get_mut(place) {
            *old = byte;
        }
    }
    bytes
}

// Looks at the fault of bytes that spell no packet.
fn check_fault<R: AllocGlobal + Abort>(rt: &R, bytes: &[u8], fault: PacketFault) {
    assert_eq!(rt; decode(rt.alloc(), bytes).err(), Some(fault));
}

// Looks at the bytes of a packet.
fn check_bytes<R: AllocGlobal + Abort>(rt: &R, packet: &Packet, bytes: &[u8])
    requires { IsPacket packet.now }
{
    let spelling = encode(rt.alloc(), packet).expect(rt, "memory");
    assert_eq!(rt; spelling.as_slice(), bytes);
}

// The packet that the bytes spell.
fn packet_of<R: AllocGlobal + Abort>(rt: &R, bytes: &[u8]) -> Packet
    ensures { IsPacket result }
{
    decode(rt.alloc(), bytes).expect(rt, "packet")
}

#[test]
fn a_bye_is_read_and_written(rt: HostRuntime) {
    let mut bytes = joined(&rt, BYE);
    check_bytes(&rt, &bye(&rt), &bytes);
    let packet = packet_of(&rt, &bytes);
    assert_eq!(rt; packet.from, node(&rt, 1));
    assert_eq!(rt; packet.to, node(&rt, 2));
    assert_eq!(rt; bye_epoch(&packet), Some(5));
    bytes.push(0).expect(&rt, "memory");
    check_fault(&rt, &bytes, PacketFault::Extra(14));
}

#[test]
fn a_report_is_read(rt: HostRuntime) {
    let bytes = joined(&rt, REPORT);
    assert_eq!(rt; bytes.len(), 34);
    assert_eq!(rt; first_id(&packet_of(&rt, &bytes)), Some(2));
}

// Puts the bytes of a field behind the others. Before each of them the field is short.
fn check_field<R: AllocGlobal + Abort>(rt: &R, bytes: &mut Vec<u8>, field: &str) {
    let start = u32::try_from(bytes.len()).ok().expect(rt, "length");
    for byte in &joined(rt, field) {
        check_fault(rt, bytes, PacketFault::Short(start));
        bytes.push(*byte).expect(rt, "memory");
    }
}

// Looks at a copy of the packet that the bytes spell.
fn check_copy<R: AllocGlobal + Abort>(rt: &R, bytes: &[u8]) {
    let copy = packet_of(rt, bytes).copy().expect(rt, "memory");
    check_bytes(rt, &copy, bytes);
}

// The bytes end before each byte in turn, and the field that has it is short. Whole they are read, and written again.
#[test]
fn each_kind_is_read_and_written(rt: HostRuntime) {
    for fields in [REPORT, PIECE, NEED, SLICE, ASK, SNAP, BYE] {
        let mut bytes = Vec::new(rt.alloc());
        for field in fields.split(" ") {
            check_field(&rt, &mut bytes, field);
        }
        check_copy(&rt, &bytes);
    }
}

#[test]
fn a_packet_has_its_first_fault(rt: HostRuntime) {
    for (fields, changes, fault) in [
        (BYE, [(0, 2), (1, 8)], PacketFault::Version(2)),
        (BYE, [(1, 0), (5, 0)], PacketFault::Kind(0)),
        (BYE, [(1, 8), (5, 0)], PacketFault::Kind(8)),
        (BYE, [(1, 9), (5, 0)], PacketFault::Kind(9)),
        // no sender, no receiver
        (BYE, [(5, 0), (9, 0)], PacketFault::Value(2)),
        (BYE, [(9, 0), (9, 0)], PacketFault::Value(6)),
        // no change; a fourth tag
        (REPORT, [(10, 0), (10, 0)], PacketFault::Value(10)),
        (REPORT, [(11, 4), (15, 0)], PacketFault::Value(11)),
        // epoch 0; a fifth colour; totals of 0, 65,001, 65,000, 7 and 3 bytes
        (PIECE, [(13, 0), (18, 4)], PacketFault::Value(10)),
        (PIECE, [(18, 4), (22, 0)], PacketFault::Value(18)),
        (PIECE, [(22, 0), (22, 0)], PacketFault::Value(19)),
        (PIECE, [(21, 253), (22, 233)], PacketFault::Value(19)),
        (PIECE, [(21, 253), (22, 232)], PacketFault::Short(23)),
        (PIECE, [(22, 7), (22, 7)], PacketFault::Short(23)),
        (PIECE, [(22, 3), (22, 3)], PacketFault::Extra(24)),
        // port 0; a third mode; epoch 0
        (NEED, [(14, 0), (15, 0)], PacketFault::Value(14)),
        (NEED, [(16, 2), (20, 0)], PacketFault::Value(16)),
        (NEED, [(20, 0), (20, 0)], PacketFault::Value(17)),
        // a fourth kind of a part
        (SLICE, [(22, 3), (22, 3)], PacketFault::Value(22)),
        (ASK, [(16, 2), (16, 2)], PacketFault::Value(16)),
        // a snapshot of no region
        (SNAP, [(14, 0), (14, 0)], PacketFault::Value(14)),
    ] {
        check_fault(&rt, &changed(&rt, fields, changes), fault);
    }
}

#[test]
fn a_report_that_no_node_sends_has_its_first_fault(rt: HostRuntime) {
    for (fields, fault) in [
        // no sender
        (
            "01 01 00000000 00000001 01 01 00000002 7f000001 232a 0000000a 00000000 00000000",
            PacketFault::Value(2),
        ),
        // 65 changes are announced, and one comes
        (
            "01 01 00000002 00000001 41 01 00000002 7f000001 232a 0000000a 00000000 00000000",
            PacketFault::Value(10),
        ),
        // port 0
        (
            "01 01 00000002 00000001 01 01 00000002 7f000001 0000 0000000a 00000000 00000000",
            PacketFault::Value(20),
        ),
        // 1,000,001 on the first axis
        (
            "01 01 00000002 00000001 01 01 00000002 7f000001 232a 000f4241 00000000 00000000",
            PacketFault::Value(22),
        ),
        // the join comes twice
        (
            "01 01 00000002 00000001 02 01 00000002 7f000001 232a 0000000a 00000000 00000000 \
             01 00000002 7f000001 232a 0000000a 00000000 00000000",
            PacketFault::Value(35),
        ),
    ] {
        check_fault(&rt, &joined(&rt, fields), fault);
    }
}

fn check_addresses(rt: &impl Abort, sends: &[(Addr, Packet)], addresses: &[Addr]) {
    assert_eq!(rt; sends.len(), addresses.len());
    for (send, address) in sends.iter().zip(addresses) {
        assert_eq!(rt; send.0, *address);
    }
}

#[test]
fn sends_keep_their_order(rt: HostRuntime) {
    let mut sends = Sends::new(rt.alloc());
    assert!(rt; sends.is_empty());
    let addresses = [address(&rt, 9002), address(&rt, 9003)];
    sends.push((addresses[0], bye(&rt))).expect(&rt, "memory");
    sends.push((addresses[1], bye(&rt))).expect(&rt, "memory");
    assert_eq!(rt; sends.len(), 2);
    check_addresses(&rt, sends.as_slice(), &addresses);
    let packets = sends.copy().expect(&rt, "memory").into_vec();
    check_addresses(&rt, &packets, &addresses);
}

// A piece that node 1 passes on to nodes 3 and 4, behind its packet to node 2.
#[test]
fn a_piece_goes_behind_another_packet(rt: HostRuntime) {
    let addresses = [address(&rt, 9002), address(&rt, 9003), address(&rt, 9004)];
    let Packet { from, to, body } = bye(&rt);
    let mut sends = Sends::one(rt.alloc(), from, to, addresses[0], body).expect(&rt, "memory");
    let epoch = Epoch::new(2).expect(&rt, "epoch");
    let region = RegionId::new(0).expect(&rt, "region");
    let piece = Named::new(epoch, region, 3, &[0, 0, 0, 5, 171, 205]);
    let targets = [(node(&rt, 3), addresses[1]), (node(&rt, 4), addresses[2])];
    sends
        .put_piece(from, &piece, &targets)
        .expect(&rt, "memory");
    check_addresses(&rt, sends.as_slice(), &addresses);
}

// A node at 127.0.0.1:9002 and (10, 0, 0), which node 1 leads.
pub(crate) fn own(rt: &impl Abort, id: u32) -> Own {
    Own {
        id: node(rt, id),
        addr: address(rt, 9002),
        at: Point::new(10, 0, 0).expect(rt, "point"),
        mode: Mode::Partial,
        leader: node(rt, 1),
        leader_addr: address(rt, 9001),
    }
}

#[test]
fn own_values_are_compared(rt: HostRuntime) {
    let two = own(&rt, 2);
    assert_eq!(rt; two, two);
    assert!(rt; two != own(&rt, 3));
}

#[test]
fn a_node_is_a_member_at_its_own_address(rt: HostRuntime) {
    let member = Member {
        id: node(&rt, 2),
        addr: address(&rt, 9002),
        at: Point::new(10, 0, 0).expect(&rt, "point"),
    };
    assert_eq!(rt; own(&rt, 2).member(), member);
}

// A report of 64 leaves, of the nodes 1 to 64.
fn greatest_report<R: AllocGlobal + Abort>(rt: &R) -> Vec<u8> {
    let mut bytes = joined(rt, "01 01 00000002 00000001 40");
    for id in 1_u32..=64 {
        bytes.push(3).expect(rt, "memory");
        bytes
            .extend_from_slice(&id.to_be_bytes())
            .expect(rt, "memory");
    }
    bytes
}

#[test]
fn a_report_has_room_for_64_changes(rt: HostRuntime) {
    let mut bytes = greatest_report(&rt);
    assert_eq!(rt; bytes.len(), 331);
    check_bytes(&rt, &packet_of(&rt, &bytes), &bytes);
    bytes[10] = 65;
    check_fault(&rt, &bytes, PacketFault::Value(10));
}
