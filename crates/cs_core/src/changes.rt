//! Changes on their way to the leader.

ghost use Rattle.std.specs.Prelude.{◌≡◌, ◌∷◌, [], IfOk, OnOk, None, Some};
ghost use Rattle.cs_base.specs.Changes.{id_of};
ghost use Rattle.cs_base.specs.Ranges.{IsChange};
ghost use Rattle.cs_fields.specs.Changes.{IsChanges};
ghost use Rattle.cs_packet.specs.PacketField.{AreSends};
ghost use Rattle.cs_packet.specs.declared.packet.Body.TheVariants.{Report};
ghost use Rattle.cs_pending.specs.Pending.{after_offer, offer_of};
ghost use Rattle.cs_pending.specs.Reportable.{CanBeReported};
ghost use Rattle.cs_core.specs.Addresses.{home_reporter, reports_to, send_to};
ghost use Rattle.cs_core.specs.Changes.{flush_plan, leave_plan, move_plan, report_plan};
ghost use Rattle.cs_core.specs.Reported.{HasNumber, IsReported};
ghost use Rattle.cs_core.specs.Sound.{IsSound};

use crate::following::Following;
use crate::plans::{goes_on, only};
use crate::sending::to_leader;
use crate::{FollowNote, Plan};
use cs_base::{Change, Changes, LAST_ID, MOST_CHANGES, NodeId, Point};
use cs_packet::{Body, Entry, Own, Sends};
use cs_pending::{Offer, Pending};
use cs_view::View;
use std::alloc::AllocError;

/// What becomes of a node's own change: its packets, what is pending then, and what the change met where the node
/// keeps it.
#[derive(Drop)]
struct Reported {
    sends: Sends,
    pending: Pending,
    kept: Option<Offer>,
}

// Whom a node reports a change to.
fn reports_to(own: &Own, view: &View) -> NodeId
    ensures { result ≡ reports_to own.now view.now }
{
    match home_reporter(own.id, view) {
        Some(reporter) => reporter,
        None => own.leader,
    }
}

// The reporter of the region whose roll has the node.
fn home_reporter(me: NodeId, view: &View) -> Option<NodeId>
    ensures { result ≡ home_reporter me view.now }
{
    let (region, _) = view.holder(me)?;
    let summary = view.listed(*region)?;
    let first = summary.globals.as_slice().first()?;
    Some(first.id)
}

impl Following {
    /// Changes of a report are offered in order.
    pub fn report(&self, own: &Own, changes: &Changes) -> Result<Plan, AllocError>
        requires { IsChanges 1 changes.now }
        ensures plan { IfOk result (λ plan. plan ≡ report_plan own.now self.now changes.now) }
        ensures sound { IfOk result IsSound }
    {
        let mut pending = self.pending().copy()?;
        let counts = pending.offer_all(changes.as_slice())?;
        Ok(Plan {
            entry: None,
            sends: Sends::new(self.alloc()),
            note: FollowNote::Noted(counts),
            after: goes_on(own, self.with_pending(pending, self.seq())?)?,
        })
    }

    // What becomes of the node's own change.
    fn reported(&self, own: &Own, change: Change) -> Result<Reported, AllocError>
        requires own { id_of change ≡ own.now.id }
        requires number { HasNumber change }
        ensures reported { IfOk result (IsReported own.now self.now change) }
        ensures allowed { OnOk result (IsChange change) }
    {
        let to = reports_to(own, self.view());
        if to == change.id() {
            self.kept(change)
        } else {
            self.sent_on(own, to, change)
        }
    }

    // A reporter keeps its own change.
    fn kept(&self, change: Change) -> Result<Reported, AllocError>
        requires { IsChange change }
        ensures sends { IfOk result (λ reported. reported.sends ≡ []) }
        ensures kept { IfOk result (λ reported. reported.kept ≡ Some (offer_of self.now.pending change)) }
        ensures pending { IfOk result (λ reported. reported.pending
            ≡ after_offer (offer_of self.now.pending change) self.now.pending change) }
        ensures reportable { IfOk result (λ reported. CanBeReported reported.pending) }
    {
        let mut pending = self.pending().copy()?;
        let offer = pending.offer(change);
        if offer == Offer::Memory {
            return Err(AllocError);
        }
        Ok(Reported {
            sends: Sends::new(self.alloc()),
            pending,
            kept: Some(offer),
        })
    }

    // Any other node sends it to its reporter.
    fn sent_on(&self, own: &Own, to: NodeId, change: Change) -> Result<Reported, AllocError>
        requires { IsChange change }
        ensures sends { IfOk result (λ reported. reported.sends
            ≡ send_to own.now self.now.view to (Report (change ∷ []))) }
        ensures allowed { IfOk result (λ reported. AreSends reported.sends) }
        ensures kept { IfOk result (λ reported. reported.kept ≡ None) }
        ensures pending { IfOk result (λ reported. reported.pending ≡ self.now.pending) }
        ensures reportable { IfOk result (λ reported. CanBeReported reported.pending) }
    {
        Ok(Reported {
            sends: self.send_change(own, to, change)?,
            pending: self.pending().copy()?,
            kept: None,
        })
    }

    fn send_change(&self, own: &Own, to: NodeId, change: Change) -> Result<Sends, AllocError>
        requires { IsChange change }
        ensures value { IfOk result (λ sends. sends
            ≡ send_to own.now self.now.view to (Report (change ∷ []))) }
        ensures allowed { IfOk result AreSends }
    {
        let Some(addr) = self.address_of(own, to) else {
            return Ok(Sends::new(self.alloc()));
        };
        let mut changes = Changes::new(self.alloc());
        changes.push(change)?;
        Sends::one(self.alloc(), own.id, to, addr, Body::Report(changes))
    }

    /// The node moves.
    pub fn moved(&self, own: &Own, at: Point) -> Result<Plan, AllocError>
        ensures plan { IfOk result (λ plan. plan ≡ move_plan own.now self.now at) }
        ensures sound { IfOk result IsSound }
    {
        if self.seq() == LAST_ID {
            return Ok(only(self.alloc(), FollowNote::SeqSpent));
        }
        let seq = self.seq() + 1;
        let change = Change::Move {
            id: own.id,
            seq,
            at,
        };
        let reported = self.reported(own, change)?;
        Ok(Plan {
            entry: Some(Entry::Seq { seq, at }),
            sends: reported.sends,
            note: FollowNote::Moved {
                seq,
                kept: reported.kept,
            },
            after: goes_on(own, self.with_pending(reported.pending, seq)?)?,
        })
    }

    /// The node wants to leave.
    pub fn leave(&self, own: &Own) -> Result<Plan, AllocError>
        ensures plan { IfOk result (λ plan. plan ≡ leave_plan own.now self.now) }
        ensures sound { IfOk result IsSound }
    {
        let reported = self.reported(own, Change::Leave { id: own.id })?;
        Ok(Plan {
            entry: None,
            sends: reported.sends,
            note: FollowNote::Told {
                kept: reported.kept,
            },
            after: goes_on(own, self.with_pending(reported.pending, self.seq())?)?,
        })
    }

    /// The first pending changes go to the leader.
    pub fn flush(&self, own: &Own) -> Result<Plan, AllocError>
        ensures plan { IfOk result (λ plan. plan ≡ flush_plan own.now self.now self.now.pending) }
        ensures sound { IfOk result IsSound }
    {
        if self.pending().is_empty() {
            return Ok(only(self.alloc(), FollowNote::Nothing));
        }
        let mut pending = self.pending().copy()?;
        let front = pending.take_front(MOST_CHANGES)?;
        let count = front.len() as u32;
        Ok(Plan {
            entry: None,
            sends: to_leader(self.alloc(), own, Body::Report(front))?,
            note: FollowNote::Flushed(count),
            after: goes_on(own, self.with_pending(pending, self.seq())?)?,
        })
    }
}
