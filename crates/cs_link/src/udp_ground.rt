//! Sockets on this machine with logs in memory.

ghost use Rattle.std.specs.Prelude.{◌≡◌, ◌↔◌, [], Contains, IsTrue, None};

use crate::{Ground, GroundFault, Link, UdpLink};
use cs_base::{Addr, Ids, NodeId};
use cs_log::CleanLog;
use std::alloc::Global;
use std::net::Net;

/// Grants each node a UDP socket that is bound to its address, and an empty log in memory. It tells neither logs nor
/// traffic: a link that is handed back is closed, and a log is let go.
#[derive(Debug, Drop)]
pub struct UdpGround<R> {
    net: R,
    alloc: Global,
    out: Ids,
    faults: u64,
    link_faults: u64,
    taken: u64,
    dry: u64,
}

impl<R: Net + Drop> UdpGround<R> {
    /// A ground that granted nothing, over this network.
    pub fn new(net: R, alloc: Global) -> Self
        ensures logs { ⟦<UdpGround<R> as Ground>⟧.logs result ≡ None }
        ensures traffic { ⟦<UdpGround<R> as Ground>⟧.traffic result ≡ None }
        ensures out { ⟦<UdpGround<R> as Ground>⟧.out result ≡ [] }
        ensures faults { ⟦<UdpGround<R> as Ground>⟧.faults result ≡ 0 }
        ensures link_faults { ⟦<UdpGround<R> as Ground>⟧.link_faults result ≡ 0 }
        ensures log_faults { ⟦<UdpGround<R> as Ground>⟧.log_faults result ≡ 0 }
        ensures taken { ⟦<UdpGround<R> as Ground>⟧.taken result ≡ 0 }
        ensures dry { ⟦<UdpGround<R> as Ground>⟧.dry result ≡ 0 }
        ensures net { result.net ≡ net }
    {
        UdpGround {
            net,
            alloc,
            out: Ids::new(alloc),
            faults: 0,
            link_faults: 0,
            taken: 0,
            dry: 0,
        }
    }

    /// Whether the link and the log of this node were granted and not yet handed back.
    pub fn is_out(&self, id: NodeId) -> bool
        ensures { IsTrue result ↔ Contains (⟦<UdpGround<R> as Ground>⟧.out self.now) id }
    {
        self.out.has(id.get())
    }

    /// How often an address couldn't be bound.
    pub fn faults(&self) -> u64
        ensures { result ≡ ⟦<UdpGround<R> as Ground>⟧.faults self.now }
    {
        self.faults
    }

    /// Rises with each link handed back that had failed.
    pub fn link_faults(&self) -> u64
        ensures { result ≡ ⟦<UdpGround<R> as Ground>⟧.link_faults self.now }
    {
        self.link_faults
    }

    /// How many datagrams the links handed back had received.
    pub fn taken(&self) -> u64
        ensures { result ≡ ⟦<UdpGround<R> as Ground>⟧.taken self.now }
    {
        self.taken
    }

    /// How often nothing had been waiting at the links handed back.
    pub fn dry(&self) -> u64
        ensures { result ≡ ⟦<UdpGround<R> as Ground>⟧.dry self.now }
    {
        self.dry
    }
}

impl<R: Net + Drop> Ground for UdpGround<R> {
    ghost use Rattle.std.proofs.Common.{refl};

    type Wire = UdpLink;

    type Store = CleanLog;

    ghost logs = { λ ground. None };

    ghost traffic = { λ ground. None };

    ghost out = { λ ground. ground.out };

    ghost faults = { λ ground. ground.faults };

    ghost link_faults = { λ ground. ground.link_faults };

    ghost log_faults = { λ ground. 0 };

    ghost taken = { λ ground. ground.taken };

    ghost dry = { λ ground. ground.dry };

    ghost logs_tell = { λ ground store told. refl };

    ghost links_tell = { λ ground wire told. told };

    fn grant(&mut self, id: NodeId, addr: Addr) -> Result<(UdpLink, CleanLog), GroundFault> {
        let Ok(wire) = UdpLink::bind(&self.net, addr) else {
            self.faults = self.faults.saturating_add(1);
            return Err(GroundFault::Failed);
        };
        self.out.insert(id.get())?;
        Ok((wire, CleanLog::new(self.alloc)))
    }

    fn keep(&mut self, id: NodeId, wire: UdpLink, _store: CleanLog) {
        self.link_faults = self.link_faults.saturating_add(wire.faults());
        self.taken = self.taken.saturating_add(wire.taken());
        self.dry = self.dry.saturating_add(wire.dry());
        self.out.remove(id.get());
    }
}
