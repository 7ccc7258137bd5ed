//! What a node makes of bytes that came.

ghost use Rattle.std.specs.Prelude.{◌≡◌, IfOk, None, Some};
ghost use Rattle.std.specs.Option.{option_copied};
ghost use Rattle.cs_packet.specs.BodyField.{IsBody};
ghost use Rattle.cs_packet.specs.PacketField.{IsPacket, packet_of};
ghost use Rattle.cs_core.specs.Decision.{ask_leader_plan, body_plan, bye_plan, bytes_plan, join_plan, joining_plan};
ghost use Rattle.cs_core.specs.Decision.{member_plan, packet_plan};
ghost use Rattle.cs_core.specs.Sound.{IsSound};

use crate::asking::{Asker, ask_of};
use crate::following::Following;
use crate::plans::{only, sent};
use crate::pool::ViewPool;
use crate::sending::to_leader;
use crate::snapshots::first_snap;
use crate::{FollowNote, Outcome, Plan};
use cs_base::{Addr, Change, Changes, Epoch, Mode, NodeId};
use cs_fields::PacketFault;
use cs_packet::{Body, Entry, Named, Own, Packet, Sends, decode};
use std::alloc::{AllocError, Global};

/// A joining node asks the leader to let it in.
pub(crate) fn join(alloc: Global, own: &Own) -> Result<Plan, AllocError>
    ensures plan { IfOk result (λ plan. plan ≡ join_plan own.now) }
    ensures sound { IfOk result IsSound }
{
    let mut changes = Changes::new(alloc);
    changes.push(Change::Join(own.member()))?;
    let sends = to_leader(alloc, own, Body::Report(changes))?;
    Ok(sent(sends, FollowNote::Told { kept: None }))
}

/// A joining node asks the leader for a snapshot of any epoch.
pub(crate) fn ask_leader(alloc: Global, own: &Own) -> Result<Plan, AllocError>
    ensures plan { IfOk result (λ plan. plan ≡ ask_leader_plan own.now) }
    ensures sound { IfOk result IsSound }
{
    let sends = to_leader(alloc, own, ask_of(own, 0))?;
    Ok(sent(sends, FollowNote::Told { kept: None }))
}

/// What a node, a member or a joining one, makes of bytes.
pub(crate) fn deliver(
    alloc: Global,
    pool: &ViewPool,
    own: &Own,
    member: Option<&Following>,
    bytes: &[u8],
) -> Result<Plan, AllocError>
    ensures plan { IfOk result (λ plan. plan
        ≡ bytes_plan (record { own = own.now; following = option_copied member.entry }) (packet_of bytes.now)) }
    ensures sound { IfOk result IsSound }
{
    match decode(alloc, bytes) {
        Ok(packet) => take(alloc, pool, own, member, &packet),
        Err(PacketFault::Memory) => Err(AllocError),
        Err(fault) => Ok(only(alloc, FollowNote::Bad(fault))),
    }
}

// A packet has to be for this node.
fn take(
    alloc: Global,
    pool: &ViewPool,
    own: &Own,
    member: Option<&Following>,
    packet: &Packet,
) -> Result<Plan, AllocError>
    requires { IsPacket packet.now }
    ensures plan { IfOk result (λ plan. plan
        ≡ packet_plan (record { own = own.now; following = option_copied member.entry }) packet.now) }
    ensures sound { IfOk result IsSound }
{
    if packet.to != own.id {
        return Ok(only(alloc, FollowNote::NotMine(packet.to)));
    }
    match member {
        Some(member) => member.take(own, packet.from, &packet.body),
        None => take_joining(alloc, pool, own, &packet.body),
    }
}

// A joining node has a use for two kinds of packets alone.
fn take_joining(alloc: Global, pool: &ViewPool, own: &Own, body: &Body) -> Result<Plan, AllocError>
    requires { IsBody body.now }
    ensures plan { IfOk result (λ plan. plan ≡ joining_plan own.now body.now) }
    ensures sound { IfOk result IsSound }
{
    match body {
        Body::Snap(picture) => first_snap(alloc, pool, own, picture),
        Body::Bye { epoch } => Ok(bye(alloc, *epoch)),
        Body::Report(_)
        | Body::Piece { .. }
        | Body::Need { .. }
        | Body::Slice(_)
        | Body::Ask { .. } => Ok(only(alloc, FollowNote::Idle)),
    }
}

// The node is told that it is no member.
fn bye(alloc: Global, epoch: Epoch) -> Plan
    ensures { result ≡ bye_plan epoch }
{
    Plan {
        entry: Some(Entry::Gone { epoch }),
        sends: Sends::new(alloc),
        note: FollowNote::Departed,
        after: Outcome::Gone,
    }
}

fn asker(from: NodeId, addr: Addr, mode: Mode) -> Asker
    ensures { result ≡ record { id = from; addr = addr; mode = mode } }
{
    Asker {
        id: from,
        addr,
        mode,
    }
}

impl Following {
    // What a member makes of a packet from another node.
    fn take(&self, own: &Own, from: NodeId, body: &Body) -> Result<Plan, AllocError>
        requires { IsBody body.now }
        ensures plan { IfOk result (λ plan. plan ≡ member_plan own.now self.now from body.now) }
        ensures sound { IfOk result IsSound }
    {
        match body {
            Body::Report(changes) => self.report(own, changes),
            Body::Piece {
                epoch,
                region,
                colour,
                bytes,
            } => self.piece(own, &Named::new(*epoch, *region, *colour, bytes.as_slice())),
            Body::Need {
                addr,
                mode,
                epoch,
                region,
            } => self.answer_need(own, &asker(from, *addr, *mode), *epoch, *region),
            Body::Slice(slice) => self.slice(own, slice),
            Body::Ask { addr, mode, least } => {
                self.answer_ask(own, &asker(from, *addr, *mode), *least)
            }
            Body::Snap(picture) => self.snap(own, picture),
            Body::Bye { epoch } => Ok(bye(self.alloc(), *epoch)),
        }
    }
}
