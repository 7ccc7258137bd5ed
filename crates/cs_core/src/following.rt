//! What a node has as a member. What a call leaves as it is, is shared and not copied: the view with its trees, the
//! slices that were used, the pending changes, the past, and the bytes of held pieces.

ghost use Rattle.std.specs.Prelude.{◌≡◌, ◌+◌, ◌≤◌, [], None, Some, IfOk};
ghost use Rattle.std.specs.List.{AllByRecursion};
ghost use Rattle.std.specs.Option.{option_copied, option_map};
ghost use Rattle.cs_base.specs.Limits.{last_id};
ghost use Rattle.cs_item.specs.SliceField.{IsSlice};
ghost use Rattle.cs_pending.specs.Reportable.{CanBeReported};
ghost use Rattle.cs_core.specs.Kept.{AreUsed, IsFollowing, IsGoodView, IsHeldFor};
ghost use Rattle.cs_core.specs.Node.{lasting};
ghost use Rattle.cs_core.specs.Resume.{at_step};
ghost use Rattle.cs_core.specs.Snapshots.{at_view};
ghost use Rattle.cs_core.specs.Taking.{advanced};

use crate::holding::Holding;
use crate::past::Past;
use crate::pool::ViewPool;
use cs_hold::Hold;
use cs_packet::Slices;
use cs_pending::Pending;
use cs_tree::WithTrees;
use cs_view::View;
use std::alloc::{AllocError, Global};
use std::marker::Model;
use std::rc::Rc;

#[derive(Drop)]
pub(crate) struct Following {
    alloc: Global,
    pool: ViewPool,
    view: Rc<WithTrees<View>>,
    held: Holding,
    used: Rc<Slices>,
    pending: Rc<Pending>,
    seq: u32,
    past: Option<Rc<Past>>,
}

impl Model for Following {
    ghost use Rattle.std.specs.Option.{option_map};
    ghost use Rattle.cs_core.specs.Kept.{IsFollowing};
    ghost use Rattle.cs_core.specs.Node.{Following};

    ghost Value = { Following };

    ghost view = { λ m. record {
      view = m.view.value;
      held = m.held;
      used = m.used.value;
      pending = m.pending.value;
      seq = m.seq;
      past = option_map (λ past. past.value) m.past;
    } };

    ghost invariant = { λ m. IsFollowing (record {
      view = m.view.value;
      held = m.held;
      used = m.used.value;
      pending = m.pending.value;
      seq = m.seq;
      past = option_map (λ past. past.value) m.past;
    }) };
}

impl Following {
    /// A member that took a view: it holds and used nothing, and has no past.
    pub fn at_view(
        alloc: Global,
        pool: ViewPool,
        view: Rc<WithTrees<View>>,
        pending: Rc<Pending>,
        seq: u32,
    ) -> Result<Self, AllocError>
        requires view { IsGoodView view.value }
        requires pending { CanBeReported pending.value }
        ensures { IfOk result (λ m. m ≡ at_view pending.value seq view.value) }
    {
        Ok(Following {
            alloc,
            pool,
            view,
            held: Holding::new(alloc),
            used: Rc::new(alloc, Slices::new(alloc))?,
            pending,
            seq,
            past: None,
        })
    }

    pub fn alloc(&self) -> Global {
        self.alloc
    }

    pub fn view(&self) -> &View
        ensures value { result.now ≡ self.now.view }
        ensures keeps { IsFollowing self.now }
    {
        self.view.sight()
    }

    /// The pool that the member has in common with other nodes.
    pub fn pool(&self) -> &ViewPool {
        &self.pool
    }

    /// The member has this pool in common with other nodes from now on.
    pub fn share(&mut self, pool: ViewPool)
        ensures { self.new ≡ self.old }
    {
        self.pool = pool;
    }

    // Whether both go by one and the same view, and not by two that are equal.
    #[cfg(test)]
    pub fn shares_view(&self, other: &Following) -> bool {
        Rc::ptr_eq(&self.view, &other.view)
    }

    /// A further view with its trees.
    pub fn next_view(&self, view: View) -> Result<Rc<WithTrees<View>>, AllocError>
        requires { IsGoodView view }
        ensures { IfOk result (λ both. both.value ≡ view) }
    {
        self.pool.with_trees(self.alloc, Some(&self.view), view)
    }

    /// The view with its trees.
    pub fn with_trees(&self) -> &WithTrees<View>
        ensures value { result.now ≡ self.now.view }
        ensures keeps { IsFollowing self.now }
    {
        &self.view
    }

    pub fn held(&self) -> &Holding
        ensures value { result.now ≡ self.now.held }
        ensures keeps { IsFollowing self.now }
    {
        &self.held
    }

    pub fn used(&self) -> &Slices
        ensures value { result.now ≡ self.now.used }
        ensures keeps { AllByRecursion IsSlice self.now.used }
    {
        &self.used
    }

    pub fn pending(&self) -> &Pending
        ensures value { result.now ≡ self.now.pending }
        ensures keeps { CanBeReported self.now.pending }
    {
        &self.pending
    }

    /// The pending changes, to be shared.
    pub fn pending_shared(&self) -> Result<Rc<Pending>, AllocError>
        ensures { IfOk result (λ pending. pending.value ≡ self.now.pending) }
    {
        self.pending.clone()
    }

    pub fn seq(&self) -> u32
        ensures { result ≡ self.now.seq }
    {
        self.seq
    }

    pub fn past(&self) -> Option<&Past>
        ensures { option_copied result ≡ self.now.past }
    {
        match &self.past {
            Some(past) => Some(past),
            None => None,
        }
    }

    pub fn copy(&self) -> Result<Self, AllocError>
        ensures { IfOk result (λ copy. copy ≡ self.now) }
    {
        self.with(self.held.copy()?, self.pending.clone()?, self.seq)
    }

    /// The same member with other pieces held, and other pending changes.
    fn with(&self, held: Holding, pending: Rc<Pending>, seq: u32) -> Result<Self, AllocError>
        requires held { IsHeldFor (self.now.view.epoch + 1) self.now.view held }
        requires pending { CanBeReported pending.value }
        ensures { IfOk result (λ m. m ≡ record self.now { held = held; pending = pending.value; seq = seq }) }
    {
        Ok(Following {
            alloc: self.alloc,
            pool: self.pool.share(),
            view: self.view.clone()?,
            held,
            used: self.used.clone()?,
            pending,
            seq,
            past: shared(&self.past)?,
        })
    }

    /// The same member, which holds these pieces.
    pub fn with_held(&self, held: Holding) -> Result<Self, AllocError>
        requires { IsHeldFor (self.now.view.epoch + 1) self.now.view held }
        ensures { IfOk result (λ m. m ≡ record self.now { held = held }) }
    {
        self.with(held, self.pending.clone()?, self.seq)
    }

    /// The same member with other pending changes, whose last move has this number.
    pub fn with_pending(&self, pending: Pending, seq: u32) -> Result<Self, AllocError>
        requires { CanBeReported pending }
        ensures { IfOk result (λ m. m ≡ record self.now { pending = pending; seq = seq }) }
    {
        self.with(self.held.copy()?, Rc::new(self.alloc, pending)?, seq)
    }

    /// The same member, whose last move has this number.
    pub fn with_seq(&self, seq: u32) -> Result<Self, AllocError>
        ensures { IfOk result (λ m. m ≡ record self.now { seq = seq }) }
    {
        self.with(self.held.copy()?, self.pending.clone()?, seq)
    }

    /// The member of the next epoch, which came to this view by these slices. Its past has all that it held.
    pub fn advanced(&self, held: &Hold, used: Slices, view: View) -> Result<Self, AllocError>
        requires view { IsGoodView view }
        requires used { AreUsed view.epoch used }
        ensures { IfOk result (λ m. m ≡ advanced self.now held.now used view) }
    {
        let past = Past::new(self.view.clone()?, held.names()?);
        Ok(Following {
            alloc: self.alloc,
            pool: self.pool.share(),
            view: self.next_view(view)?,
            held: Holding::new(self.alloc),
            used: Rc::new(self.alloc, used)?,
            pending: self.pending.clone()?,
            seq: self.seq,
            past: Some(Rc::new(self.alloc, past)?),
        })
    }

    /// The member that came to a view by these slices, as its log tells.
    pub fn at_step(&self, used: Slices, view: View) -> Result<Self, AllocError>
        requires view { IsGoodView view }
        requires used { AreUsed view.epoch used }
        ensures { IfOk result (λ m. m ≡ at_step self.now used view) }
    {
        Ok(Following {
            alloc: self.alloc,
            pool: self.pool.share(),
            view: self.next_view(view)?,
            held: Holding::new(self.alloc),
            used: Rc::new(self.alloc, used)?,
            pending: Rc::new(self.alloc, Pending::new(self.alloc))?,
            seq: self.seq,
            past: None,
        })
    }

    /// What a restart brings back of the member, whose last move has this number.
    pub fn lasting(&self, seq: u32) -> Result<Self, AllocError>
        ensures { IfOk result (λ m. m ≡ lasting (record self.now { seq = seq })) }
    {
        Ok(Following {
            alloc: self.alloc,
            pool: self.pool.share(),
            view: self.view.clone()?,
            held: Holding::new(self.alloc),
            used: self.used.clone()?,
            pending: Rc::new(self.alloc, Pending::new(self.alloc))?,
            seq,
            past: None,
        })
    }

    /// The same member with another past.
    pub fn with_past(&self, past: Past) -> Result<Self, AllocError>
        ensures { IfOk result (λ m. m ≡ record self.now { past = Some past }) }
    {
        Ok(Following {
            alloc: self.alloc,
            pool: self.pool.share(),
            view: self.view.clone()?,
            held: self.held.copy()?,
            used: self.used.clone()?,
            pending: self.pending.clone()?,
            seq: self.seq,
            past: Some(Rc::new(self.alloc, past)?),
        })
    }
}

fn shared(past: &Option<Rc<Past>>) -> Result<Option<Rc<Past>>, AllocError>
    ensures { IfOk result (λ copy. option_map (λ past. past.value) copy ≡ option_map (λ past. past.value) past.now) }
{
    match past {
        Some(past) => Ok(Some(past.clone()?)),
        None => Ok(None),
    }
}
