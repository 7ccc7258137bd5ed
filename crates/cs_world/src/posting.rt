//! What nodes send is told, numbered and kept.

ghost use Rattle.std.specs.Prelude.{◌≡◌, ◌+◌, ◌<◌, ◌≤◌, ◌⊎◌, [], ◌∷◌, ◌++◌, List, length, false, true, IfErr, OnOk};
ghost use Rattle.std.specs.String.{string_bytes};
ghost use Rattle.cs_base.specs.Address.{Address};
ghost use Rattle.cs_base.specs.Limits.{most_sent};
ghost use Rattle.cs_machine.specs.Lines.{packet_line};
ghost use Rattle.cs_packet.specs.PacketField.{IsPacket, packet_bytes};
ghost use Rattle.cs_packet.specs.declared.packet.Packet.{Packet};
ghost use Rattle.cs_show.specs.Text.{ended};
ghost use Rattle.cs_world.specs.Posting.{ArePackets, IsLimitOrMemory, IsPostFault, IsSentBehind, Posts};

use crate::WorldFault;
use crate::datagram::Datagram;
use crate::lines::{put_datagram, put_named, put_packet};
use crate::piece_names::piece_names;
use crate::tap::Tapped;
use crate::telling::Telling;
use crate::traffic::Traffic;
use bytes::Bytes;
use cs_base::{Addr, MOST_SENT};
use cs_packet::decode;
use std::alloc::{AllocError, Global};

/// Tells and keeps the datagrams that were sent through the link since so many were.
pub fn post_all<L: Tapped>(
    telling: Telling,
    link: &L,
    earlier: usize,
    traffic: &mut Traffic,
    out: &mut String,
) -> Result<(), WorldFault>
    ensures ok { (sends : List (Address × Packet)) → ArePackets sends → IsSentBehind earlier sends (L.sent link.now)
        → OnOk result (Posts telling sends traffic.old traffic.new (string_bytes out.old) (string_bytes out.new)) }
    ensures fault { (sends : List (Address × Packet)) → ArePackets sends → IsSentBehind earlier sends (L.sent link.now)
        → IfErr result (IsPostFault traffic.old sends) }
    ensures kind { IfErr result (λ fault. (fault ≡ WorldFault.Limit) ⊎ (fault ≡ WorldFault.Memory)) }
    ensures front { OnOk result (traffic.new.front ≡ traffic.old.front) }
    ensures longer { OnOk result (length traffic.old.datagrams.items ≤ length traffic.new.datagrams.items) }
{
    for place in earlier..link.count() {
        if let Some(datagram) = link.share(place)? {
            post(telling, datagram.0, datagram.1, traffic, out)?;
        }
    }
    Ok(())
}

/// Tells that a datagram was sent, with its number, and keeps it behind those that were sent before. Bytes that are no
/// packet are never sent.
pub fn post(
    telling: Telling,
    addr: Addr,
    bytes: Bytes,
    traffic: &mut Traffic,
    out: &mut String,
) -> Result<(), WorldFault>
    ensures ok { (packet : Packet) → IsPacket packet → bytes ≡ packet_bytes packet → OnOk result
        (Posts telling ((addr, packet) ∷ []) traffic.old traffic.new (string_bytes out.old) (string_bytes out.new)) }
    ensures fault { (packet : Packet) → IsPacket packet → bytes ≡ packet_bytes packet
        → IfErr result (IsPostFault traffic.old ((addr, packet) ∷ [])) }
    ensures kind { IfErr result (λ fault. (fault ≡ WorldFault.Limit) ⊎ (fault ≡ WorldFault.Memory)) }
    ensures front { OnOk result (traffic.new.front ≡ traffic.old.front) }
    ensures longer { OnOk result (length traffic.old.datagrams.items ≤ length traffic.new.datagrams.items) }
{
    // Bytes that are no packet are never sent.
    if bytes.is_empty() {
        return Err(WorldFault::Memory);
    }
    let number = traffic.len() + 1;
    match telling {
        Telling::Names => put_names(traffic.alloc, out, number, bytes.as_slice())?,
        Telling::Bytes => put_datagram(traffic.alloc, out, number, addr, bytes.as_slice())?,
    }
    keep(addr, bytes, traffic)
}

// Appends the line of a packet that was sent, as packets are told. Of a piece no more is read than its names.
fn put_names(alloc: Global, out: &mut String, number: usize, bytes: &[u8]) -> Result<(), AllocError>
    ensures { (packet : Packet) → IsPacket packet → bytes.now ≡ packet_bytes packet → OnOk result
        (string_bytes out.new ≡ string_bytes out.old ++ ended (packet_line number packet)) }
{
    if let Some(names) = piece_names(bytes) {
        return put_named(out, number, &names);
    }
    let Ok(packet) = decode(alloc, bytes) else {
        return Err(AllocError);
    };
    put_packet(out, number, &packet)
}

// Keeps a datagram behind those that were sent before.
fn keep(addr: Addr, bytes: Bytes, traffic: &mut Traffic) -> Result<(), WorldFault>
    requires { 0 < length bytes }
    ensures datagrams { OnOk result (traffic.new.datagrams.items
        ≡ traffic.old.datagrams.items
        ++ record { addr = addr; bytes = bytes; is_open = true; is_delivered = false } ∷ []) }
    ensures bytes { OnOk result (traffic.new.bytes ≡ traffic.old.bytes + length bytes) }
    ensures front { OnOk result (traffic.new.front ≡ traffic.old.front) }
    ensures fault { IfErr result (IsLimitOrMemory (most_sent < traffic.old.bytes + length bytes)) }
{
    if bytes.len() > MOST_SENT - traffic.bytes {
        return Err(WorldFault::Limit);
    }
    let datagram = Datagram {
        addr,
        bytes,
        is_open: true,
        is_delivered: false,
    };
    traffic.push(datagram)?;
    Ok(())
}
