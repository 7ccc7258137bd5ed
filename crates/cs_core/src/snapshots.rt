//! What a node makes of a snapshot.

ghost use Rattle.std.specs.Prelude.{◌≡◌, [], IfOk, IfErr, Ok};
ghost use Rattle.cs_item.specs.PictureField.{IsPicture};
ghost use Rattle.cs_view.specs.Taking.{taken};
ghost use Rattle.cs_pending.specs.Reportable.{CanBeReported};
ghost use Rattle.cs_core.specs.Kept.{IsGoodView};
ghost use Rattle.cs_core.specs.Plans.{unfit_by};
ghost use Rattle.cs_core.specs.Refused.{IsRefusalOf};
ghost use Rattle.cs_core.specs.Snapshots.{first_snap_plan, first_view, jump, next_view, snap_plan, taken_view};
ghost use Rattle.cs_core.specs.Sound.{IsSound};
ghost use Rattle.cs_core.specs.declared.plan.Unfit.TheVariants as unfit;

use crate::following::Following;
use crate::known::knows;
use crate::plans::{answered, goes_on, stale};
use crate::pool::ViewPool;
use crate::refusal::Refusal;
use crate::{FollowNote, Plan, Unfit};
use cs_item::Picture;
use cs_packet::{Entry, Own, Sends};
use cs_pending::Pending;
use cs_tree::WithTrees;
use cs_view::{View, ViewFault};
use std::alloc::{AllocError, Global};
use std::rc::Rc;

// The view that a node takes from a picture.
fn take(alloc: Global, own: &Own, picture: &Picture) -> Result<View, Refusal>
    requires { IsPicture picture.now }
    ensures ok { IfOk result (λ view. unfit_by unfit.View (taken own.now.id own.now.mode picture.now) ≡ Ok view) }
    ensures fault { IfErr result (IsRefusalOf (unfit_by unfit.View (taken own.now.id own.now.mode picture.now))) }
    ensures good { IfOk result IsGoodView }
{
    match View::take(alloc, own.id, own.mode, picture) {
        Ok(view) => Ok(view),
        Err(ViewFault::Memory) => Err(Refusal::Memory),
        Err(fault) => Err(Refusal::Unfit(Unfit::View(fault))),
    }
}

// The node goes by the view from now on, and logs it.
fn jump(
    alloc: Global,
    pool: &ViewPool,
    own: &Own,
    pending: Rc<Pending>,
    seq: u32,
    view: Rc<WithTrees<View>>,
) -> Result<Plan, AllocError>
    requires view { IsGoodView view.value }
    requires pending { CanBeReported pending.value }
    ensures plan { IfOk result (λ plan. plan ≡ jump own.now pending.value seq view.value) }
    ensures sound { IfOk result IsSound }
{
    Ok(Plan {
        entry: Some(Entry::View(view.sight().picture(None)?)),
        sends: Sends::new(alloc),
        note: FollowNote::Jumped(view.sight().epoch()),
        after: goes_on(
            own,
            Following::at_view(alloc, pool.share(), view, pending, seq)?,
        )?,
    })
}

/// What a joining node makes of a snapshot.
pub(crate) fn first_snap(
    alloc: Global,
    pool: &ViewPool,
    own: &Own,
    picture: &Picture,
) -> Result<Plan, AllocError>
    requires { IsPicture picture.now }
    ensures plan { IfOk result (λ plan. plan ≡ first_snap_plan own.now picture.now) }
    ensures sound { IfOk result IsSound }
{
    answered(alloc, first_view(alloc, pool, own, picture))
}

fn first_view(alloc: Global, pool: &ViewPool, own: &Own, picture: &Picture) -> Result<Plan, Refusal>
    requires { IsPicture picture.now }
    ensures ok { IfOk result (λ plan. first_view own.now picture.now ≡ Ok plan) }
    ensures fault { IfErr result (IsRefusalOf (first_view own.now picture.now)) }
    ensures sound { IfOk result IsSound }
{
    let view = pool.with_trees(alloc, None, take(alloc, own, picture)?)?;
    Ok(jump(alloc, pool, own, no_pending(alloc)?, 0, view)?)
}

/// No change is pending.
pub(crate) fn no_pending(alloc: Global) -> Result<Rc<Pending>, AllocError>
    ensures { IfOk result (λ pending. pending.value ≡ []) }
{
    Ok(Rc::new(alloc, Pending::new(alloc))?)
}

impl Following {
    /// What a member makes of a snapshot.
    pub fn snap(&self, own: &Own, picture: &Picture) -> Result<Plan, AllocError>
        requires { IsPicture picture.now }
        ensures plan { IfOk result (λ plan. plan ≡ snap_plan own.now self.now picture.now) }
        ensures sound { IfOk result IsSound }
    {
        if picture.epoch < self.view().epoch() {
            return Ok(stale(self, picture.epoch));
        }
        answered(self.alloc(), self.take_view(own, picture))
    }

    fn take_view(&self, own: &Own, picture: &Picture) -> Result<Plan, Refusal>
        requires { IsPicture picture.now }
        ensures ok { IfOk result (λ plan. next_view own.now self.now picture.now ≡ Ok plan) }
        ensures fault { IfErr result (IsRefusalOf (next_view own.now self.now picture.now)) }
        ensures sound { IfOk result IsSound }
    {
        let view = take(self.alloc(), own, picture)?;
        Ok(self.taken_view(own, view)?)
    }

    // A view that the member could take: it goes by it, unless that is its own epoch and it knows as much.
    fn taken_view(&self, own: &Own, view: View) -> Result<Plan, AllocError>
        requires { IsGoodView view }
        ensures plan { IfOk result (λ plan. plan ≡ taken_view own.now self.now view) }
        ensures sound { IfOk result IsSound }
    {
        if view.epoch() == self.view().epoch() && knows(self.view(), view.known()) {
            return Ok(stale(self, view.epoch()));
        }
        let view = self.next_view(view)?;
        jump(
            self.alloc(),
            self.pool(),
            own,
            self.pending_shared()?,
            self.seq(),
            view,
        )
    }
}
