//! What the leader becomes by an entry of its log.

ghost use Rattle.std.specs.Prelude.{◌≡◌, IfOk, Some};
ghost use Rattle.std.specs.List.{AllByRecursion, list_all};
ghost use Rattle.cs_base.specs.Ranges.{IsChange, IsId};
ghost use Rattle.cs_fields.specs.Changes.{IsChanges};
ghost use Rattle.cs_fields.specs.Fields.{IsLaterEpoch};
ghost use Rattle.cs_group.specs.Group.{state_of};
ghost use Rattle.cs_group.specs.Judging.{is_accepted};
ghost use Rattle.cs_group.specs.Led.{IsLedBy};
ghost use Rattle.cs_group.specs.Next.{next_turn};
ghost use Rattle.cs_slicer.specs.Turn.{IsTurnOf};
ghost use Rattle.cs_lead.specs.Resume.{after_base, after_item, are_accepted, by_turn, has_as_it_is};

use crate::wholes::{slices_of, view_of};
use crate::{LeadResumed, Leader};
use cs_base::{Changes, Epoch, Ids, Member};
use cs_group::{Group, GroupFault, Row, RowList, RowsFault, Turn, Verdict, Verdicts};
use cs_pending::Pending;
use std::alloc::AllocError;

// Whether a change was accepted.
fn is_accepted(verdict: Verdict) -> bool
    ensures { result ≡ is_accepted verdict }
{
    matches!(verdict, Verdict::Accepted)
}

// Whether each change was accepted.
fn are_accepted(verdicts: &Verdicts) -> bool
    ensures { result ≡ are_accepted verdicts.now }
{
    verdicts
        .as_slice()
        .iter()
        .all(|judged| is_accepted(judged.1))
}

// Whether a row, where it has the leader's id, has the leader as it is.
fn has_as_it_is(me: &Member, row: &Row) -> bool
    ensures { result ≡ has_as_it_is me.now row.now }
{
    row.member.id != me.id || row.member == *me
}

// Whether each row is so.
fn have_as_it_is(me: &Member, rows: &[Row]) -> bool
    ensures { result ≡ list_all (has_as_it_is me.now) rows.now }
{
    rows.iter().all(|row| has_as_it_is(me, row))
}

impl Leader {
    /// An item is of the next epoch, its changes are all accepted, and they leave regions a number.
    pub(crate) fn after_item(
        &self,
        epoch: Epoch,
        changes: &Changes,
    ) -> Result<LeadResumed, AllocError>
        requires epoch { IsLaterEpoch epoch }
        requires changes { IsChanges 0 changes.now }
        ensures { IfOk result (λ resumed. resumed ≡ after_item self.now epoch changes.now) }
    {
        if self.view().epoch().next() != Some(epoch) {
            return Ok(LeadResumed::Breaks);
        }
        self.after_changes(self.group(), epoch, changes)
    }

    /// A base has rows that make a group which the leader leads, as it is, and changes that lead on as those of an
    /// item.
    pub(crate) fn after_base(
        &self,
        epoch: Epoch,
        next_region: u32,
        retired: &Ids,
        rows: &RowList,
        changes: &Changes,
    ) -> Result<LeadResumed, AllocError>
        requires epoch { IsLaterEpoch epoch }
        requires retired { AllByRecursion IsId retired.now }
        requires changes { IsChanges 0 changes.now }
        ensures { let before = state_of self.now.me.id rows.now next_region retired.now in
            IfOk result (λ resumed. resumed ≡ after_base self.now.me epoch before changes.now) }
    {
        let me = self.me();
        if !have_as_it_is(&me, rows.as_slice()) {
            return Ok(LeadResumed::Breaks);
        }
        match Group::from_rows(self.alloc(), me.id, rows.as_slice(), next_region, retired) {
            Ok(before) => self.after_changes(&before, epoch, changes),
            Err(RowsFault::Memory) => Err(AllocError),
            Err(_) => Ok(LeadResumed::Breaks),
        }
    }

    // What the leader is after changes that an epoch is made of.
    fn after_changes(
        &self,
        before: &Group,
        epoch: Epoch,
        changes: &Changes,
    ) -> Result<LeadResumed, AllocError>
        requires led { IsLedBy self.now.me before.now }
        requires epoch { IsLaterEpoch epoch }
        requires changes { IsChanges 0 changes.now }
        ensures { let turn = next_turn before.now changes.now in
            IfOk result (λ resumed. resumed ≡ by_turn self.now.me before.now epoch turn) }
    {
        match before.next(changes.as_slice()) {
            Ok(turn) => self.by_turn(before, epoch, turn),
            Err(GroupFault::Spent) => Ok(LeadResumed::Breaks),
            Err(GroupFault::Memory) => Err(AllocError),
        }
    }

    fn by_turn(&self, before: &Group, epoch: Epoch, turn: Turn) -> Result<LeadResumed, AllocError>
        requires led { IsLedBy self.now.me before.now }
        requires epoch { IsLaterEpoch epoch }
        requires turn { IsTurnOf before.now turn }
        requires changes { AllByRecursion IsChange turn.item }
        ensures { IfOk result (λ resumed. resumed ≡ by_turn self.now.me before.now epoch (Some turn)) }
    {
        if !are_accepted(&turn.verdicts) {
            return Ok(LeadResumed::Breaks);
        }
        let view = view_of(self.alloc(), self.me().id, epoch, &turn.group)?;
        let slices = slices_of(self.alloc(), before, &turn, epoch)?;
        let none = Pending::new(self.alloc());
        Ok(LeadResumed::Next(self.led_to(before, turn, view, slices, none)?))
    }
}
