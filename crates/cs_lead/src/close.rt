//! The close of an epoch.

ghost use Rattle.std.specs.Prelude.{◌≡◌, ◌+◌, IfOk, Some};
ghost use Rattle.std.specs.List.{AllByRecursion};
ghost use Rattle.cs_fields.specs.Changes.{IsChanges};
ghost use Rattle.cs_fields.specs.Fields.{IsLaterEpoch};
ghost use Rattle.cs_item.specs.SliceField.{IsSlice};
ghost use Rattle.cs_packet.specs.EntryField.{IsEntry};
ghost use Rattle.cs_packet.specs.PacketField.{AreSends};
ghost use Rattle.cs_pending.specs.Reportable.{CanBeReported};
ghost use Rattle.cs_slicer.specs.Turn.{IsTurnOf};
ghost use Rattle.cs_lead.specs.Closing.{begins_anew, close_plan, close_sends, turn_entry, turn_plan};
ghost use Rattle.cs_lead.specs.Leading.{all_slices, whole_view};
ghost use Rattle.cs_lead.specs.Sound.{IsSound};

use crate::plans::only;
use crate::wholes::{slices_of, view_of};
use crate::{LeadNote, LeadOutcome, LeadPlan, Leader};
use cs_base::{Epoch, MOST_CHANGES};
use cs_group::{GroupFault, Turn, Verdicts};
use cs_packet::{Entry, Sends, Slices};
use cs_pending::Pending;
use cs_view::View;
use std::alloc::AllocError;

// After so many epochs a close logs the group.
const EPOCHS_BETWEEN: u32 = 16;

// Whether the close of this epoch does.
fn begins_anew(epoch: Epoch) -> bool
    ensures { result ≡ begins_anew epoch }
{
    epoch.get() > 0 && epoch.get() % EPOCHS_BETWEEN == 0
}

// What the close of an epoch logs, sends and answers.
#[derive(Drop)]
struct Closed {
    entry: Entry,
    sends: Sends,
    verdicts: Verdicts,
}

impl Leader {
    /// Closes the epoch: the first pending changes are judged, and members are told.
    pub(crate) fn close(&self) -> Result<LeadPlan, AllocError>
        ensures plan { IfOk result (λ plan. plan ≡ close_plan self.now) }
        ensures sound { IfOk result IsSound }
    {
        let Some(epoch) = self.view().epoch().next() else {
            return Ok(only(self.alloc(), LeadNote::Spent));
        };
        let mut pending = self.pending().copy()?;
        let batch = pending.take_front(MOST_CHANGES)?;
        match self.group().next(batch.as_slice()) {
            Ok(turn) => self.close_by(epoch, turn, pending),
            Err(GroupFault::Spent) => Ok(only(self.alloc(), LeadNote::Spent)),
            Err(GroupFault::Memory) => Err(AllocError),
        }
    }

    // The epoch is closed by a turn, with these changes left.
    fn close_by(&self, epoch: Epoch, turn: Turn, pending: Pending) -> Result<LeadPlan, AllocError>
        requires epoch { epoch ≡ self.now.view.epoch + 1 }
        requires later { IsLaterEpoch epoch }
        requires turn { IsTurnOf self.now.group turn }
        requires item { IsChanges 0 turn.item }
        requires pending { CanBeReported pending }
        ensures plan { IfOk result (λ plan. plan ≡ turn_plan self.now pending (Some turn)) }
        ensures sound { IfOk result IsSound }
    {
        let view = view_of(self.alloc(), self.me().id, epoch, &turn.group)?;
        let slices = slices_of(self.alloc(), self.group(), &turn, epoch)?;
        let Closed {
            entry,
            sends,
            verdicts,
        } = self.closed_by(epoch, &turn, &view, &slices)?;
        let after = self.led_to(self.group(), turn, view, slices, pending)?;
        Ok(LeadPlan {
            entry: Some(entry),
            sends,
            note: LeadNote::Closed { epoch, verdicts },
            after: LeadOutcome::Next(after),
        })
    }

    // What is logged, sent and answered.
    fn closed_by(
        &self,
        epoch: Epoch,
        turn: &Turn,
        view: &View,
        slices: &Slices,
    ) -> Result<Closed, AllocError>
        requires epoch { epoch ≡ self.now.view.epoch + 1 }
        requires later { IsLaterEpoch epoch }
        requires turn { IsTurnOf self.now.group turn.now }
        requires item { IsChanges 0 turn.now.item }
        requires view { view.now ≡ whole_view epoch turn.now.group }
        requires slices { slices.now ≡ all_slices self.now.group turn.now epoch }
        requires allowed { AllByRecursion IsSlice slices.now }
        ensures entry { IfOk result (λ closed. closed.entry ≡ turn_entry self.now turn.now) }
        ensures logged { IfOk result (λ closed. IsEntry closed.entry) }
        ensures sends { IfOk result (λ closed. closed.sends ≡ close_sends self.now turn.now) }
        ensures sent { IfOk result (λ closed. AreSends closed.sends) }
        ensures verdicts { IfOk result (λ closed. closed.verdicts ≡ turn.now.verdicts) }
    {
        let mut sends = self.snapshots(turn, view)?;
        self.put_slices(&mut sends, slices)?;
        Ok(Closed {
            entry: self.entry_of(epoch, turn)?,
            sends,
            verdicts: turn.verdicts.copy()?,
        })
    }

    // What the close of an epoch logs: the accepted changes, and the group before them where the log begins anew.
    fn entry_of(&self, epoch: Epoch, turn: &Turn) -> Result<Entry, AllocError>
        requires epoch { epoch ≡ self.now.view.epoch + 1 }
        requires later { IsLaterEpoch epoch }
        requires item { IsChanges 0 turn.now.item }
        ensures value { IfOk result (λ entry. entry ≡ turn_entry self.now turn.now) }
        ensures allowed { IfOk result IsEntry }
    {
        let changes = turn.item.copy()?;
        if !begins_anew(self.view().epoch()) {
            return Ok(Entry::Item { epoch, changes });
        }
        let group = self.group();
        Ok(Entry::Base {
            epoch,
            next_region: group.next_region(),
            retired: group.retired().copy()?,
            rows: group.rows()?,
            changes,
        })
    }
}
