//! What the leader makes of bytes that came.

ghost use Rattle.std.specs.Prelude.{◌≡◌, IfOk};
ghost use Rattle.cs_fields.specs.Changes.{IsChanges};
ghost use Rattle.cs_packet.specs.BodyField.{IsBody};
ghost use Rattle.cs_packet.specs.PacketField.{IsPacket, packet_of};
ghost use Rattle.cs_lead.specs.Decision.{body_plan, bytes_plan, packet_plan, report_plan};
ghost use Rattle.cs_lead.specs.Sound.{IsSound};

use crate::plans::only;
use crate::{LeadNote, LeadOutcome, LeadPlan, Leader};
use cs_base::{Changes, NodeId};
use cs_fields::PacketFault;
use cs_packet::{Body, Packet, Sends, decode};
use std::alloc::AllocError;

impl Leader {
    pub(crate) fn deliver(&self, bytes: &[u8]) -> Result<LeadPlan, AllocError>
        ensures plan { IfOk result (λ plan. plan ≡ bytes_plan self.now (packet_of bytes.now)) }
        ensures sound { IfOk result IsSound }
    {
        match decode(self.alloc(), bytes) {
            Ok(packet) => self.take(&packet),
            Err(PacketFault::Memory) => Err(AllocError),
            Err(fault) => Ok(only(self.alloc(), LeadNote::Bad(fault))),
        }
    }

    // A packet has to be for the leader.
    fn take(&self, packet: &Packet) -> Result<LeadPlan, AllocError>
        requires { IsPacket packet.now }
        ensures plan { IfOk result (λ plan. plan ≡ packet_plan self.now packet.now) }
        ensures sound { IfOk result IsSound }
    {
        if packet.to != self.me().id {
            return Ok(only(self.alloc(), LeadNote::NotMine(packet.to)));
        }
        self.take_body(packet.from, &packet.body)
    }

    // What the leader makes of what another node says.
    fn take_body(&self, from: NodeId, body: &Body) -> Result<LeadPlan, AllocError>
        requires { IsBody body.now }
        ensures plan { IfOk result (λ plan. plan ≡ body_plan self.now from body.now) }
        ensures sound { IfOk result IsSound }
    {
        match body {
            Body::Report(changes) => self.report(changes),
            Body::Piece { epoch, .. } => Ok(self.untold(*epoch)),
            Body::Slice(slice) => Ok(self.untold(slice.head.epoch)),
            Body::Snap(picture) => Ok(self.untold(picture.epoch)),
            Body::Need {
                addr,
                mode,
                epoch,
                region,
            } => self.answer_need(from, *addr, *mode, *epoch, *region),
            Body::Ask { addr, mode, least } => self.answer_ask(from, *addr, *mode, *least),
            Body::Bye { .. } => Ok(only(self.alloc(), LeadNote::Idle)),
        }
    }

    // Changes of a report are offered in order.
    fn report(&self, changes: &Changes) -> Result<LeadPlan, AllocError>
        requires { IsChanges 1 changes.now }
        ensures plan { IfOk result (λ plan. plan ≡ report_plan self.now changes.now) }
        ensures sound { IfOk result IsSound }
    {
        let mut pending = self.pending().copy()?;
        let counts = pending.offer_all(changes.as_slice())?;
        Ok(LeadPlan {
            entry: None,
            sends: Sends::new(self.alloc()),
            note: LeadNote::Noted(counts),
            after: LeadOutcome::Next(self.with_pending(pending)?),
        })
    }
}
