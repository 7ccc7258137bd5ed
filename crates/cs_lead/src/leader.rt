ghost use Rattle.std.specs.Prelude.{◌≡◌, IfOk};
ghost use Rattle.std.specs.List.{AllByRecursion};
ghost use Rattle.cs_base.specs.Limits.{last_number};
ghost use Rattle.cs_base.specs.Ranges.{IsChange, IsFromTo};
ghost use Rattle.cs_group.specs.Group.{IsGroup};
ghost use Rattle.cs_group.specs.Led.{IsLedBy};
ghost use Rattle.cs_item.specs.SliceField.{IsSlice};
ghost use Rattle.cs_packet.specs.EntryField.{IsEntry};
ghost use Rattle.cs_pending.specs.Reportable.{CanBeReported};
ghost use Rattle.cs_slicer.specs.Turn.{IsTurnOf};
ghost use Rattle.cs_tree.specs.Kept.{kept_trees};
ghost use Rattle.cs_lead.specs.Decision.{plan_of};
ghost use Rattle.cs_lead.specs.Kept.{IsLeading};
ghost use Rattle.cs_lead.specs.Leading.{all_slices, begun, led_to, whole_view};
ghost use Rattle.cs_lead.specs.Resume.{resumed_by};
ghost use Rattle.cs_lead.specs.Sound.{IsSound};

use crate::wholes::view_of;
use crate::{LeadCall, LeadPlan, LeadResumed};
use cs_base::{Epoch, Member};
use cs_group::{Group, Turn, leaders_stay};
use cs_packet::{Entry, Slices};
use cs_pending::Pending;
use cs_tree::{Kept, WithTrees};
use cs_view::View;
use std::alloc::{AllocError, Global};
use std::marker::Model;
use std::rc::Rc;

/// The leader of a group. It never leaves and never moves.
#[derive(Drop)]
pub struct Leader {
    alloc: Global,
    me: Member,
    group: Rc<Group>,
    view: Rc<WithTrees<View>>,
    slices: Rc<Slices>,
    pending: Rc<Pending>,
}

impl Model for Leader {
    ghost use Rattle.cs_lead.specs.Kept.{IsLeading};
    ghost use Rattle.cs_lead.specs.Leading.{Leading};

    ghost Value = { Leading };

    ghost view = { λ leader. record {
      me = leader.me;
      group = leader.group.value;
      view = leader.view.value;
      slices = leader.slices.value;
      pending = leader.pending.value;
    } };

    ghost invariant = { λ leader. IsLeading (record {
      me = leader.me;
      group = leader.group.value;
      view = leader.view.value;
      slices = leader.slices.value;
      pending = leader.pending.value;
    }) };
}

impl Leader {
    /// The leader at epoch 0, alone in its group.
    pub fn start(alloc: Global, me: Member) -> Result<Self, AllocError>
        ensures { IfOk result (λ leader. leader ≡ begun me) }
    {
        leaders_stay();
        let group = Group::first(alloc, me)?;
        let view = view_of(alloc, me.id, Epoch::new(0).unwrap(), &group)?;
        Ok(Leader {
            alloc,
            me,
            group: Rc::new(alloc, group)?,
            view: Rc::new(alloc, WithTrees::new(alloc, view)?)?,
            slices: Rc::new(alloc, Slices::new(alloc))?,
            pending: Rc::new(alloc, Pending::new(alloc))?,
        })
    }

    pub(crate) fn alloc(&self) -> Global {
        self.alloc
    }

    /// Who the leader is.
    pub fn me(&self) -> Member
        ensures value { result ≡ self.now.me }
        ensures keeps { IsLeading self.now }
    {
        self.me
    }

    pub(crate) fn group(&self) -> &Group
        ensures value { result.now ≡ self.now.group }
        ensures keeps { IsLeading self.now }
    {
        &self.group
    }

    /// The leader's view, which has every roll.
    pub fn view(&self) -> &View
        ensures value { result.now ≡ self.now.view }
        ensures keeps { IsLeading self.now }
    {
        self.view.sight()
    }

    /// The trees of the view.
    pub fn kept(&self) -> &Kept
        ensures { result.now ≡ kept_trees self.now.view.summaries self.now.view.rolls }
    {
        self.view.kept()
    }

    pub(crate) fn with_trees(&self) -> &WithTrees<View>
        ensures value { result.now ≡ self.now.view }
        ensures keeps { IsLeading self.now }
    {
        &self.view
    }

    pub(crate) fn slices(&self) -> &Slices
        ensures value { result.now ≡ self.now.slices }
        ensures keeps { IsLeading self.now }
    {
        &self.slices
    }

    pub(crate) fn pending(&self) -> &Pending
        ensures value { result.now ≡ self.now.pending }
        ensures keeps { IsLeading self.now }
    {
        &self.pending
    }

    /// Costs in proportion to nothing that the leader has: what it has is shared.
    pub fn copy(&self) -> Result<Self, AllocError>
        ensures { IfOk result (λ copy. copy ≡ self.now) }
    {
        Ok(Leader {
            alloc: self.alloc,
            me: self.me,
            group: self.group.clone()?,
            view: self.view.clone()?,
            slices: self.slices.clone()?,
            pending: self.pending.clone()?,
        })
    }

    // The same leader with other pending changes.
    pub(crate) fn with_pending(&self, pending: Pending) -> Result<Self, AllocError>
        requires { CanBeReported pending }
        ensures { IfOk result (λ leader. leader ≡ record self.now { pending = pending }) }
    {
        Ok(Leader {
            alloc: self.alloc,
            me: self.me,
            group: self.group.clone()?,
            view: self.view.clone()?,
            slices: self.slices.clone()?,
            pending: Rc::new(self.alloc, pending)?,
        })
    }

    // The leader of an epoch to which a turn of the group before led.
    pub(crate) fn led_to(
        &self,
        before: &Group,
        turn: Turn,
        view: View,
        slices: Slices,
        pending: Pending,
    ) -> Result<Self, AllocError>
        requires led { IsLedBy self.now.me before.now }
        requires turn { IsTurnOf before.now turn }
        requires changes { AllByRecursion IsChange turn.item }
        requires group { IsGroup turn.group }
        requires epoch { IsFromTo 1 last_number view.epoch }
        requires view { view ≡ whole_view view.epoch turn.group }
        requires slices { slices ≡ all_slices before.now turn view.epoch }
        requires allowed { AllByRecursion IsSlice slices }
        requires pending { CanBeReported pending }
        ensures { IfOk result (λ leader. leader ≡ led_to self.now.me before.now turn view.epoch pending) }
    {
        leaders_stay();
        // The group before is sound, as every group is.
        let _regions = before.count();
        Ok(Leader {
            alloc: self.alloc,
            me: self.me,
            group: Rc::new(self.alloc, turn.group)?,
            view: Rc::new(self.alloc, self.view.followed_by(view)?)?,
            slices: Rc::new(self.alloc, slices)?,
            pending: Rc::new(self.alloc, pending)?,
        })
    }

    /// What the leader does at a call. Nothing changes by it: whoever runs the leader keeps the entry, sends the
    /// packets and goes on with the leader in the plan. A close takes time in proportion to the members, but for
    /// sorting and searching, and to what it sends; a packet in proportion to itself and its answer. The next leader
    /// shares with this one what a call leaves as it is.
    pub fn decide(&self, call: &LeadCall<'_>) -> Result<LeadPlan, AllocError>
        ensures plan { IfOk result (λ plan. plan ≡ plan_of self.now call.now) }
        // What is logged and sent is well formed, and an answer that changes nothing sends nothing.
        ensures sound { IfOk result IsSound }
    {
        match call {
            LeadCall::Close => self.close(),
            LeadCall::Deliver { bytes } => self.deliver(bytes),
        }
    }

    /// What the leader is after an entry of its log. An entry brings back no pending change.
    pub fn resume(&self, e: &Entry) -> Result<LeadResumed, AllocError>
        requires { IsEntry e.now }
        ensures { IfOk result (λ resumed. resumed ≡ resumed_by self.now e.now) }
    {
        match e {
            Entry::Item { epoch, changes } => self.after_item(*epoch, changes),
            Entry::Base {
                epoch,
                next_region,
                retired,
                rows,
                changes,
            } => self.after_base(*epoch, *next_region, retired, rows, changes),
            Entry::Boot { .. }
            | Entry::Seq { .. }
            | Entry::View(_)
            | Entry::Step(_)
            | Entry::Gone { .. } => Ok(LeadResumed::Breaks),
        }
    }
}
