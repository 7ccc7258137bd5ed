//! Links and logs in memory, each of which can be told to fail, and what was handed back of them.

ghost use Rattle.std.specs.Prelude.{◌≡◌, ◌↔◌, ℕ, [], ◌∷◌, ◌++◌, Contains, IsTrue, Some, None, IfSome};
ghost use Rattle.std.specs.Prelude.{OnOk, OnErr, IfOk, Err};
ghost use Rattle.std.specs.Option.{option_and_then, option_copied};
ghost use Rattle.cs_base.specs.Ascending.{placed_by};
ghost use Rattle.cs_link.specs.Failing.{IsNewLink, IsNewLog, calls_of};

use crate::failing::{Failing, link_of, log_of};
use crate::shelf::Shelf;
use crate::{Ground, GroundFault, Link, MemLink};
use cs_base::{Addr, NodeId};
use cs_log::{Log, MemLog};
use std::alloc::{AllocError, Global};

/// Grants links and logs in memory, which can be told to fail.
#[derive(Debug, Drop)]
pub struct MemDesk {
    alloc: Global,
    shelf: Shelf<MemLink, MemLog>,
    failing_links: Vec<Failing>,
    failing_logs: Vec<Failing>,
    pub(crate) link_faults: u64,
    pub(crate) log_faults: u64,
    pub(crate) taken: u64,
    pub(crate) dry: u64,
}

impl MemDesk {
    /// A desk that granted nothing.
    pub fn new(alloc: Global) -> Self
        ensures logs { IfSome (⟦<MemDesk as Ground>⟧.logs result) (λ logs. (id : ℕ) → logs id ≡ None) }
        ensures traffic { IfSome (⟦<MemDesk as Ground>⟧.traffic result) (λ traffic. (id : ℕ) → traffic id ≡ None) }
        ensures out { ⟦<MemDesk as Ground>⟧.out result ≡ [] }
        ensures link_faults { ⟦<MemDesk as Ground>⟧.link_faults result ≡ 0 }
        ensures log_faults { ⟦<MemDesk as Ground>⟧.log_faults result ≡ 0 }
        ensures taken { ⟦<MemDesk as Ground>⟧.taken result ≡ 0 }
        ensures dry { ⟦<MemDesk as Ground>⟧.dry result ≡ 0 }
        ensures failing_links { result.failing_links.items ≡ [] }
        ensures failing_logs { result.failing_logs.items ≡ [] }
    {
        MemDesk {
            alloc,
            shelf: Shelf::new(alloc),
            failing_links: Vec::new(alloc),
            failing_logs: Vec::new(alloc),
            link_faults: 0,
            log_faults: 0,
            taken: 0,
            dry: 0,
        }
    }

    /// Makes the call of this number fail at each link that is granted to this node from now on. The calls are
    /// counted as those of `MemLink::fail`.
    pub fn fail_link(&mut self, id: NodeId, call: u64) -> Result<(), AllocError>
        ensures ok { OnOk result (self.new.failing_links.items
            ≡ self.old.failing_links.items ++ record { id = id; call = call } ∷ []) }
        ensures err { OnErr result (self.new.failing_links.items ≡ self.old.failing_links.items) }
        ensures others { self.new ≡ record self.old { failing_links = self.new.failing_links } }
    {
        self.failing_links.push(Failing { id, call })?;
        Ok(())
    }

    /// Makes the call of this number fail at each log that is granted to this node from now on. The calls are counted
    /// as those of `MemLog::fail`.
    pub fn fail_log(&mut self, id: NodeId, call: u64) -> Result<(), AllocError>
        ensures ok { OnOk result (self.new.failing_logs.items
            ≡ self.old.failing_logs.items ++ record { id = id; call = call } ∷ []) }
        ensures err { OnErr result (self.new.failing_logs.items ≡ self.old.failing_logs.items) }
        ensures others { self.new ≡ record self.old { failing_logs = self.new.failing_logs } }
    {
        self.failing_logs.push(Failing { id, call })?;
        Ok(())
    }

    /// Whether the link and the log of this node were granted and not yet handed back.
    pub fn is_out(&self, id: NodeId) -> bool
        ensures { IsTrue result ↔ Contains (⟦<MemDesk as Ground>⟧.out self.now) id }
    {
        self.shelf.out.has(id.get())
    }

    /// The log that was handed back of this node last.
    pub fn log(&self, id: NodeId) -> Option<&MemLog>
        ensures { IfSome (⟦<MemDesk as Ground>⟧.logs self.now)
            (λ logs. option_and_then ⟦<MemLog as Log>⟧.bytes (option_copied result) ≡ logs id) }
    {
        let kept = self.shelf.get(id)?;
        Some(&kept.log)
    }

    /// The link that was handed back of this node last.
    pub fn link(&self, id: NodeId) -> Option<&MemLink>
        ensures { IfSome (⟦<MemDesk as Ground>⟧.traffic self.now)
            (λ traffic. option_and_then ⟦<MemLink as Link>⟧.sent (option_copied result) ≡ traffic id) }
    {
        let kept = self.shelf.get(id)?;
        Some(&kept.link)
    }

    /// Rises with each link handed back that had failed.
    pub fn link_faults(&self) -> u64
        ensures { result ≡ ⟦<MemDesk as Ground>⟧.link_faults self.now }
    {
        self.link_faults
    }

    /// Rises with each log handed back that had failed.
    pub fn log_faults(&self) -> u64
        ensures { result ≡ ⟦<MemDesk as Ground>⟧.log_faults self.now }
    {
        self.log_faults
    }

    /// How many datagrams the links handed back had received.
    pub fn taken(&self) -> u64
        ensures { result ≡ ⟦<MemDesk as Ground>⟧.taken self.now }
    {
        self.taken
    }

    /// How often nothing had been waiting at the links handed back.
    pub fn dry(&self) -> u64
        ensures { result ≡ ⟦<MemDesk as Ground>⟧.dry self.now }
    {
        self.dry
    }
}

impl Ground for MemDesk {
    ghost use Rattle.std.proofs.Common.{refl};
    ghost use Rattle.cs_link.specs.Maps.{part_by_id};
    ghost use Rattle.cs_link.specs.Sent.{datagrams};

    type Wire = MemLink;

    type Store = MemLog;

    ghost logs = { λ desk. Some (part_by_id (λ kept. kept.log.log.bytes.items) desk.shelf.kept.items) };

    ghost traffic = { λ desk. Some (part_by_id
        (λ kept. datagrams kept.link.link.outbox.posts.items kept.link.link.outbox.room.items)
        desk.shelf.kept.items) };

    ghost out = { λ desk. desk.shelf.out };

    ghost faults = { λ desk. 0 };

    ghost link_faults = { λ desk. desk.link_faults };

    ghost log_faults = { λ desk. desk.log_faults };

    ghost taken = { λ desk. desk.taken };

    ghost dry = { λ desk. desk.dry };

    ghost logs_tell = { λ desk store told. refl };

    ghost links_tell = { λ desk wire told. refl };

    fn grant(&mut self, id: NodeId, _addr: Addr) -> Result<(MemLink, MemLog), GroundFault>
        ensures new_link { IfOk result (λ granted. IsNewLink (calls_of id self.old.failing_links.items) granted.0) }
        ensures new_log { IfOk result (λ granted. IsNewLog (calls_of id self.old.failing_logs.items) granted.1) }
        ensures out { OnOk result (self.new.shelf.out ≡ placed_by (λ n. n) id self.old.shelf.out) }
        ensures out_stays { OnErr result (self.new.shelf.out ≡ self.old.shelf.out) }
        ensures kept { self.new.shelf.kept.items ≡ self.old.shelf.kept.items }
        ensures others { self.new ≡ record self.old { shelf = self.new.shelf } }
        ensures failed { ¬ (result ≡ Err GroundFault.Failed) }
    {
        let link = link_of(self.alloc, &self.failing_links, id)?;
        let log = log_of(self.alloc, &self.failing_logs, id)?;
        self.shelf.lend(id)?;
        Ok((link, log))
    }

    fn keep(&mut self, id: NodeId, wire: MemLink, store: MemLog) {
        self.link_faults = self.link_faults.saturating_add(wire.faults());
        self.log_faults = self.log_faults.saturating_add(store.faults());
        self.taken = self.taken.saturating_add(wire.taken());
        self.dry = self.dry.saturating_add(wire.dry());
        self.shelf.put(id, wire, store);
    }
}
