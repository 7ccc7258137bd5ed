//! Links and logs in memory that never fail, and what was handed back of them.

ghost use Rattle.std.specs.Prelude.{◌≡◌, ◌↔◌, ℕ, [], Contains, IsTrue, Some, None, IfSome};
ghost use Rattle.std.specs.Option.{option_and_then, option_copied};

use crate::shelf::Shelf;
use crate::{CleanLink, Ground, GroundFault, Link};
use cs_base::{Addr, NodeId};
use cs_log::{CleanLog, Log};
use std::alloc::Global;

/// Grants links and logs in memory that never fail.
#[derive(Debug, Drop)]
pub struct CleanGround {
    alloc: Global,
    shelf: Shelf<CleanLink, CleanLog>,
    taken: u64,
    dry: u64,
}

impl CleanGround {
    /// A ground that granted nothing.
    pub fn new(alloc: Global) -> Self
        ensures logs { IfSome (⟦<CleanGround as Ground>⟧.logs result) (λ logs. (id : ℕ) → logs id ≡ None) }
        ensures traffic { IfSome (⟦<CleanGround as Ground>⟧.traffic result) (λ traffic. (id : ℕ) → traffic id ≡ None) }
        ensures out { ⟦<CleanGround as Ground>⟧.out result ≡ [] }
        ensures taken { ⟦<CleanGround as Ground>⟧.taken result ≡ 0 }
        ensures dry { ⟦<CleanGround as Ground>⟧.dry result ≡ 0 }
    {
        CleanGround {
            alloc,
            shelf: Shelf::new(alloc),
            taken: 0,
            dry: 0,
        }
    }

    /// Whether the link and the log of this node were granted and not yet handed back.
    pub fn is_out(&self, id: NodeId) -> bool
        ensures { IsTrue result ↔ Contains (⟦<CleanGround as Ground>⟧.out self.now) id }
    {
        self.shelf.out.has(id.get())
    }

    /// The log that was handed back of this node last.
    pub fn log(&self, id: NodeId) -> Option<&CleanLog>
        ensures { IfSome (⟦<CleanGround as Ground>⟧.logs self.now)
            (λ logs. option_and_then ⟦<CleanLog as Log>⟧.bytes (option_copied result) ≡ logs id) }
    {
        let kept = self.shelf.get(id)?;
        Some(&kept.log)
    }

    /// The link that was handed back of this node last.
    pub fn link(&self, id: NodeId) -> Option<&CleanLink>
        ensures { IfSome (⟦<CleanGround as Ground>⟧.traffic self.now)
            (λ traffic. option_and_then ⟦<CleanLink as Link>⟧.sent (option_copied result) ≡ traffic id) }
    {
        let kept = self.shelf.get(id)?;
        Some(&kept.link)
    }

    /// How many datagrams the links handed back had received.
    pub fn taken(&self) -> u64
        ensures { result ≡ ⟦<CleanGround as Ground>⟧.taken self.now }
    {
        self.taken
    }

    /// How often nothing had been waiting at the links handed back.
    pub fn dry(&self) -> u64
        ensures { result ≡ ⟦<CleanGround as Ground>⟧.dry self.now }
    {
        self.dry
    }
}

impl Ground for CleanGround {
    ghost use Rattle.std.proofs.Common.{refl};
    ghost use Rattle.cs_link.specs.Maps.{part_by_id};
    ghost use Rattle.cs_link.specs.Sent.{datagrams};

    type Wire = CleanLink;

    type Store = CleanLog;

    ghost logs = { λ desk. Some (part_by_id (λ kept. kept.log.bytes.items) desk.shelf.kept.items) };

    ghost traffic = { λ desk. Some (part_by_id
        (λ kept. datagrams kept.link.outbox.posts.items kept.link.outbox.room.items)
        desk.shelf.kept.items) };

    ghost out = { λ desk. desk.shelf.out };

    ghost faults = { λ desk. 0 };

    ghost link_faults = { λ desk. 0 };

    ghost log_faults = { λ desk. 0 };

    ghost taken = { λ desk. desk.taken };

    ghost dry = { λ desk. desk.dry };

    ghost logs_tell = { λ desk store told. refl };

    ghost links_tell = { λ desk wire told. refl };

    fn grant(&mut self, id: NodeId, _addr: Addr) -> Result<(CleanLink, CleanLog), GroundFault> {
        self.shelf.lend(id)?;
        Ok((CleanLink::new(self.alloc), CleanLog::new(self.alloc)))
    }

    fn keep(&mut self, id: NodeId, wire: CleanLink, store: CleanLog) {
        self.taken = self.taken.saturating_add(wire.taken());
        self.dry = self.dry.saturating_add(wire.dry());
        self.shelf.put(id, wire, store);
    }
}
