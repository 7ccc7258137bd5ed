ghost use Rattle.std.specs.Prelude.{◌≡◌, ◌+◌, ◌≤◌, length, IfOk};
ghost use Rattle.cs_fields.specs.Reading.{Gives, HasRoom};
ghost use Rattle.cs_fields.specs.Whole.{IsWhole};
ghost use Rattle.cs_fields.specs.Writing.{Extends};
ghost use Rattle.cs_packet.specs.PacketField.{IsPacket, packet_at, packet_bytes, packet_len, packet_of};
ghost use Rattle.cs_packet.specs.PacketField.{packet_sizes, version_at};
ghost use Rattle.cs_packet.specs.declared.packet.Packet.{Packet};

use crate::codec::body::{kind_number, put_body, take_body};
use crate::codec::kind::take_kind;
use crate::{Body, Packet};
use cs_fields::{PacketFault, put_id, put_u8, take_id, take_u8};
use cs_piece::Piece;
use std::alloc::{AllocError, Global};

// What stands in a packet in front of a piece: the version, the kind, both ids, the epoch, the region and the colour.
const PIECE_HEAD: usize = 1 + 1 + 4 + 4 + 4 + 4 + 1;

// Most packets but pieces and snapshots fit so many bytes.
const LEAST_ROOM: usize = 64;

/// The packet that the bytes spell, all of them.
pub fn decode(alloc: Global, bytes: &[u8]) -> Result<Packet, PacketFault>
    // What is read is spelled so, and what is spelled so is read. Where a spelling is cut off, the field that has
    // the next byte is short; where more stands behind it, that is extra.
    ensures whole { IsWhole packet_bytes packet_sizes IsPacket bytes.now result }
    // Which fault it is.
    ensures exact { Gives result (packet_of bytes.now) }
{
    read_whole_packet(alloc, bytes)
}

#[tactic(auto, unfolding(cs_fields::specs::Whole::whole_of))]
fn read_whole_packet(alloc: Global, bytes: &[u8]) -> Result<Packet, PacketFault>
    ensures { Gives result (packet_of bytes.now) }
{
    let (packet, behind) = read_packet(alloc, bytes)?;
    if behind as usize != bytes.len() {
        return Err(PacketFault::Extra(behind));
    }
    Ok(packet)
}

#[tactic(auto, unfolding(crate::specs::PacketField::packet_at))]
fn read_packet(alloc: Global, bytes: &[u8]) -> Result<(Packet, u32), PacketFault>
    ensures { Gives result (packet_at bytes.now 0) }
{
    let (_, behind) = take_version(bytes, 0)?;
    let (kind, behind) = take_kind(bytes, behind, 7)?;
    let (from, behind) = take_id(bytes, behind)?;
    let (to, behind) = take_id(bytes, behind)?;
    let (body, behind) = take_body(alloc, bytes, behind, kind)?;
    Ok((Packet { from, to, body }, behind))
}

#[tactic(auto, unfolding(crate::specs::PacketField::version_at))]
fn take_version(bytes: &[u8], at: u32) -> Result<(u8, u32), PacketFault>
    requires { HasRoom bytes.now at 1 }
    ensures exact { result ≡ version_at bytes.now at }
    ensures near { IfOk result (λ x. (x.1 ≤ length bytes.now) × (x.1 ≤ at + 1)) }
{
    let (version, behind) = take_u8(bytes, at)?;
    if version != 1 {
        return Err(PacketFault::Version(version));
    }
    Ok((version, behind))
}

/// The one spelling of a packet, which fits a datagram.
pub fn encode(alloc: Global, p: &Packet) -> Result<Piece, AllocError>
    requires { IsPacket p.now }
    // The bytes are its spelling.
    ensures spelt { IfOk result (λ piece. piece ≡ packet_bytes p.now) }
    ensures short { IfOk result (λ piece. length piece ≤ packet_len) }
    // No other packet is spelled so.
    ensures one { (q : Packet) → IsPacket q → packet_bytes q ≡ packet_bytes p.now → q ≡ p.now }
{
    let mut out = Vec::with_capacity(alloc, room_for(&p.body))?;
    append_packet(&mut out, p)?;
    Ok(Piece::from_vec(out))
}

// How many bytes are set aside for a packet: all of a piece's, and the first of any other's.
fn room_for(body: &Body) -> usize {
    match body {
        Body::Piece { bytes, .. } => bytes.len().saturating_add(PIECE_HEAD),
        _ => LEAST_ROOM,
    }
}

#[tactic(auto, unfolding(crate::specs::PacketField::packet_bytes))]
fn append_packet(out: &mut Vec<u8>, p: &Packet) -> Result<(), AllocError>
    requires { IsPacket p.now }
    ensures { Extends result out.old.items out.new.items (packet_bytes p.now) }
{
    put_u8(out, &1)?;
    put_u8(out, &kind_number(&p.body))?;
    put_id(out, &p.from)?;
    put_id(out, &p.to)?;
    put_body(out, &p.body)
}
