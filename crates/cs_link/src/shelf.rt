ghost use Rattle.std.specs.Prelude.{◌≡◌, ◌+◌, ◌≤◌, [], length, Contains, None, OnOk, OnErr, vec_len, vec_capacity};
ghost use Rattle.std.specs.Option.{option_copied};
ghost use Rattle.cs_base.specs.Ascending.{placed_by, without_key};
ghost use Rattle.cs_link.specs.Maps.{Enters, kept_by_id};

use crate::kept::Kept;
use cs_base::{Ids, NodeId};
use std::alloc::{AllocError, Global};

/// The ids whose link and log were granted, and what was handed back of them, with room for the rest.
#[derive(Debug, Drop)]
pub(crate) struct Shelf<L, G> {
    pub out: Ids,
    pub kept: Vec<Kept<L, G>>,
    ghost room: { vec_len kept + length out ≤ vec_capacity kept },
}

impl<L, G> Shelf<L, G> {
    pub fn new(alloc: Global) -> Self
        ensures out { result.out ≡ [] }
        ensures kept { result.kept.items ≡ [] }
    {
        Shelf {
            out: Ids::new(alloc),
            kept: Vec::new(alloc),
        }
    }

    /// What was handed back under this id.
    pub fn get(&self, id: NodeId) -> Option<&Kept<L, G>>
        ensures { option_copied result ≡ kept_by_id self.now.kept.items id }
    {
        self.kept.iter().find(|kept| kept.id == id)
    }
}

impl<L: Drop, G: Drop> Shelf<L, G> {
    /// Notes that the id is out, and makes the room for what will be handed back.
    pub fn lend(&mut self, id: NodeId) -> Result<(), AllocError>
        ensures ok { OnOk result (self.new.out ≡ placed_by (λ n. n) id self.old.out) }
        ensures err { OnErr result (self.new.out ≡ self.old.out) }
        ensures kept { self.new.kept.items ≡ self.old.kept.items }
    {
        self.kept.reserve(self.out.len() + 1)?;
        self.out.insert(id.get())?;
        Ok(())
    }

    /// Keeps what is handed back under the id, which is out.
    pub fn put(&mut self, id: NodeId, link: L, log: G)
        requires { Contains self.old.out id }
        ensures out { self.new.out ≡ without_key (λ n. n) id self.old.out }
        ensures kept { Enters id (record { id = id; link = link; log = log })
            (kept_by_id self.old.kept.items) (kept_by_id self.new.kept.items) }
    {
        self.out.remove(id.get());
        self.kept.retain(|kept| kept.id != id);
        self.kept.push_reserved(Kept { id, link, log });
    }
}
