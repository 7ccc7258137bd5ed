//! The step of the summaries that was made last. Nodes of one process go to an epoch by one step of their summaries,
//! and come to one list.

ghost use Rattle.std.specs.Prelude.{◌≡◌, IfOk, IfSome, IsTrue};
ghost use Rattle.cs_view.specs.Step.{next_summaries};
ghost use Rattle.std.proofs.Props.{props};

use crate::heads::is_same_head;
use cs_item::{Head, Regions};
use cs_roll::are_alike;
use cs_view::next_summaries;
use std::alloc::{AllocError, Global};
use std::cell::RefCell;

/// Summaries, and those of the next epoch by its head.
#[derive(Drop)]
struct SummaryStep {
    before: Regions,
    head: Head,
    next: Regions,
    ghost made: { next ≡ next_summaries before head } by { Prim.hlevel props },
}

impl SummaryStep {
    fn new(before: &Regions, head: &Head, next: &Regions) -> Result<Self, AllocError>
        requires { next.now ≡ next_summaries before.now head.now }
    {
        Ok(SummaryStep {
            before: before.copy()?,
            head: head.copy()?,
            next: next.copy()?,
        })
    }

    // Whether it is the step of these summaries by this head.
    fn is_of(&self, before: &Regions, head: &Head) -> bool
        ensures { IsTrue result → self.now.next ≡ next_summaries before.now head.now }
    {
        is_same_head(&self.head, head) && are_alike(self.before.as_slice(), before.as_slice())
    }
}

/// The step that was made last, if any. What is in it stands in no clause: it saves time and memory alone.
#[derive(Drop)]
pub(crate) struct StepMemo {
    last: RefCell<Option<SummaryStep>>,
}

impl StepMemo {
    /// No step was made.
    pub fn new() -> Self {
        StepMemo {
            last: RefCell::new(None),
        }
    }

    /// The summaries of the next epoch: those of the last step, where it is the same one.
    pub fn next_summaries(
        &self,
        alloc: Global,
        before: &Regions,
        head: &Head,
    ) -> Result<Regions, AllocError>
        ensures { IfOk result (λ next. next ≡ next_summaries before.now head.now) }
    {
        // A step that changes none shares the list, and there is nothing to look for.
        if head.dropped.is_empty() && head.summaries.is_empty() {
            return next_summaries(alloc, before, head);
        }
        if let Some(next) = self.find(before, head) {
            return Ok(next);
        }
        let next = next_summaries(alloc, before, head)?;
        let _kept = self.keep(before, head, &next);
        Ok(next)
    }

    /// What the last step came to, where it is this one.
    pub fn find(&self, before: &Regions, head: &Head) -> Option<Regions>
        ensures { IfSome result (λ next. next ≡ next_summaries before.now head.now) }
    {
        let last = self.last.try_borrow().ok()?;
        let step = last.as_ref()?;
        if !step.is_of(before, head) {
            return None;
        }
        match step.next.copy() {
            Ok(next) => Some(next),
            Err(_) => None,
        }
    }

    // Keeps a step in the place of the one before. Where there is no memory for it, that one stays.
    fn keep(&self, before: &Regions, head: &Head, next: &Regions) -> Option<()>
        requires { next.now ≡ next_summaries before.now head.now }
    {
        let step = SummaryStep::new(before, head, next).ok()?;
        let mut last = self.last.try_borrow_mut().ok()?;
        *last = Some(step);
        Some(())
    }
}
