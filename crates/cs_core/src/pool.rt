//! Views, and the step of their summaries, that the nodes of one process have in common.
//!
//! Nodes of one region come to the same view at each epoch, and each of them would build its trees. Where they have a
//! pool in common, the first of them builds them, and the others go by its view.

ghost use Rattle.std.specs.Prelude.{◌≡◌, IfOk, IfSome};
ghost use Rattle.cs_core.specs.Heads.{is_same_view};
ghost use Rattle.cs_core.specs.Kept.{IsGoodView};
ghost use Rattle.cs_view.specs.Step.{next_summaries};

use crate::steps::StepMemo;
use cs_item::{Head, Regions};
use cs_roll::are_alike;
use cs_tree::WithTrees;
use cs_view::{View, next_summaries};
use std::alloc::{AllocError, Global};
use std::cell::RefCell;
use std::collections::BTreeMap;
use std::rc::Rc;

// A pool with so many views begins anew. A group has at most 64 regions at a time.
const MOST_VIEWS: usize = 256;

// The view that a node came to last, by its least known region and by how many it knows.
type Latest = BTreeMap<(u32, usize), Rc<WithTrees<View>>>;

// What some nodes have in common: the views that they came to last, and the step of summaries that was made last.
#[derive(Drop)]
struct Pool {
    latest: RefCell<Latest>,
    step: StepMemo,
}

/// The views that some nodes came to last, each with its trees, and the step of their summaries that was made last.
/// What a pool has decides no answer, and stands in no clause: it saves time and memory alone.
#[derive(Drop)]
pub struct ViewPool {
    pool: Option<Rc<Pool>>,
}

impl ViewPool {
    /// No pool: whoever has it makes all trees and summaries by itself.
    pub fn none() -> Self {
        ViewPool { pool: None }
    }

    /// A pool without views, and none where there is no memory for it.
    pub fn new(alloc: Global) -> Self {
        let pool = Pool {
            latest: RefCell::new(Latest::new(alloc)),
            step: StepMemo::new(),
        };
        ViewPool {
            pool: Rc::new(alloc, pool).ok(),
        }
    }

    /// The same pool, for one more node.
    pub fn share(&self) -> Self {
        match &self.pool {
            Some(pool) => ViewPool {
                pool: pool.clone().ok(),
            },
            None => ViewPool::none(),
        }
    }

    /// The view with its trees: those of a node that has the same view, and otherwise those that are built, as far as
    /// they can't be shared with the ones before.
    pub(crate) fn with_trees(
        &self,
        alloc: Global,
        before: Option<&WithTrees<View>>,
        view: View,
    ) -> Result<Rc<WithTrees<View>>, AllocError>
        requires { IsGoodView view }
        ensures { IfOk result (λ both. both.value ≡ view) }
    {
        if let Some(found) = self.find(&view) {
            return Ok(found);
        }
        let built = match before {
            Some(before) => before.followed_by(view)?,
            None => WithTrees::new(alloc, view)?,
        };
        let built = Rc::new(alloc, built)?;
        let _kept = self.keep(&built);
        Ok(built)
    }

    /// The summaries of the next epoch by its head.
    pub(crate) fn next_summaries(
        &self,
        alloc: Global,
        summaries: &Regions,
        head: &Head,
    ) -> Result<Regions, AllocError>
        ensures { IfOk result (λ next. next ≡ next_summaries summaries.now head.now) }
    {
        match &self.pool {
            Some(pool) => pool.step.next_summaries(alloc, summaries, head),
            None => next_summaries(alloc, summaries, head),
        }
    }

    // Whether the last step was that of these summaries by this head.
    #[cfg(test)]
    pub(crate) fn has_step(&self, before: &Regions, head: &Head) -> bool {
        match &self.pool {
            Some(pool) => pool.step.find(before, head).is_some(),
            None => false,
        }
    }

    // The same view, where it is in the pool.
    fn find(&self, view: &View) -> Option<Rc<WithTrees<View>>>
        ensures { IfSome result (λ found. found.value ≡ view.now) }
    {
        let pool = self.pool.as_ref()?;
        let latest = pool.latest.try_borrow().ok()?;
        let found = latest.get(&key_of(view)?)?;
        if !is_same(found.sight(), view) {
            return None;
        }
        match found.clone() {
            Ok(found) => Some(found),
            Err(_) => None,
        }
    }

    // Puts a view in, in the place of an earlier one. Where there is no memory for it the pool stays without it.
    fn keep(&self, view: &Rc<WithTrees<View>>) -> Option<()> {
        let key = key_of(view.sight())?;
        let view = view.clone().ok()?;
        let mut latest = self.pool.as_ref()?.latest.try_borrow_mut().ok()?;
        if latest.len() >= MOST_VIEWS {
            latest.clear();
        }
        latest.insert(key, view).ok()?;
        Some(())
    }
}

// By what a view is found: its least known region, and how many it knows.
fn key_of(view: &View) -> Option<(u32, usize)> {
    let known = view.known();
    let (region, _) = known.first()?;
    Some((region.get(), known.len()))
}

// Whether two views are the same.
fn is_same(view: &View, other: &View) -> bool
    ensures { result ≡ is_same_view view.now other.now }
{
    view.epoch() == other.epoch()
        && are_alike(view.known(), other.known())
        && are_alike(view.summaries(), other.summaries())
}
