//! The ids that left a group, which the groups that follow one another share as long as nobody leaves.
ghost use Rattle.std.specs.Prelude.{IsTrue, ◌↔◌, ◌≡◌, length, Contains, IfOk, OnOk};
ghost use Rattle.cs_base.specs.Ascending.{placed_by};

use cs_base::{Ids, NodeId};
use std::alloc::AllocError;
use std::marker::Model;
use std::rc::Rc;

/// Ids in order, which a copy shares.
#[derive(Debug, Drop)]
pub struct Retired {
    ids: Rc<Ids>,
}

impl Model for Retired {
    ghost use Rattle.std.specs.Prelude.{ℕ, List};

    ghost Value = { List ℕ };

    ghost view = { λ retired. retired.ids.value };
}

impl Retired {
    pub(crate) fn new(ids: Ids) -> Result<Self, AllocError>
        ensures { IfOk result (λ retired. retired ≡ ids) }
    {
        Ok(Retired {
            ids: Rc::new(ids.allocator(), ids)?,
        })
    }

    pub(crate) fn ids(&self) -> &Ids
        ensures { result.now ≡ self.now }
    {
        &self.ids
    }

    pub(crate) fn len(&self) -> usize
        ensures { result ≡ length self.now }
    {
        self.ids().len()
    }

    pub(crate) fn has(&self, id: NodeId) -> bool
        ensures { IsTrue result ↔ Contains self.now id }
    {
        self.ids().has(id.get())
    }

    // Puts an id in its place, in a copy where the ids are shared.
    pub(crate) fn insert(&mut self, id: NodeId) -> Result<(), AllocError>
        ensures { OnOk result (self.new ≡ placed_by (λ n. n) id self.old) }
    {
        if let Some(ids) = Rc::get_mut(&mut self.ids) {
            ids.insert(id.get())?;
            return Ok(());
        }
        let mut ids = self.ids.copy()?;
        ids.insert(id.get())?;
        self.ids = Rc::new(ids.allocator(), ids)?;
        Ok(())
    }

    // The same ids, which are shared.
    pub(crate) fn copy(&self) -> Result<Self, AllocError>
        ensures { IfOk result (λ copy. copy ≡ self.now) }
    {
        Ok(Retired {
            ids: self.ids.clone()?,
        })
    }
}
