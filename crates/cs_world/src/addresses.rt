//! Which node has which address.

ghost use Rattle.std.specs.Prelude.{◌≡◌, ℕ, None, OnOk};
ghost use Rattle.cs_base.specs.Address.{Address};
ghost use Rattle.cs_world.specs.Addresses.{AreNoted, address_under, id_under};

use cs_base::{Addr, NodeId};
use std::alloc::{AllocError, Global};
use std::collections::BTreeMap;

/// The id of each node by its address, and the address of each by its id.
#[derive(Drop)]
pub struct Addresses {
    pub ids: BTreeMap<Addr, NodeId>,
    pub addrs: BTreeMap<NodeId, Addr>,
}

impl Addresses {
    pub fn new(alloc: Global) -> Self
        ensures ids { (addr : Address) → id_under result addr ≡ None }
        ensures addrs { (id : ℕ) → address_under result id ≡ None }
    {
        Addresses {
            ids: BTreeMap::new(alloc),
            addrs: BTreeMap::new(alloc),
        }
    }

    /// The id of the node with the address.
    pub fn id_at(&self, addr: Addr) -> Option<NodeId>
        ensures { result ≡ id_under self.now addr }
    {
        self.ids.get(&addr).copied()
    }

    /// The address of the node with the id.
    pub fn address_of(&self, id: NodeId) -> Option<Addr>
        ensures { result ≡ address_under self.now id }
    {
        self.addrs.get(&id).copied()
    }

    /// Notes the address of a node.
    pub fn insert(&mut self, id: NodeId, addr: Addr) -> Result<(), AllocError>
        ensures { OnOk result (AreNoted id addr self.old self.new) }
    {
        self.ids.insert(addr, id)?;
        self.addrs.insert(id, addr)?;
        Ok(())
    }
}
