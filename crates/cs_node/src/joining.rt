ghost use Rattle.std.specs.Prelude.{◌≡◌, None, IfSome};
ghost use Rattle.cs_node.specs.Logged.{Survives};
ghost use Rattle.cs_core.specs.declared.plan.Call.TheVariants as calls;
ghost use Rattle.cs_node.specs.Calls.{IsCall};
ghost use Rattle.cs_node.specs.Effects.{on_bytes, on_call};

use crate::calling::{deliver, follow};
use crate::{After, Node};
use cs_core::{Call, Follower, ViewPool};
use cs_link::Link;
use cs_log::Log;
use std::alloc::Global;
use std::marker::Model;

/// A node that asked, or will ask, the leader to let it in. It owns its link and its log.
#[derive(Drop)]
pub struct Joining<L: Link, G: Log> {
    pub(crate) alloc: Global,
    pub(crate) node: Follower,
    pub(crate) link: L,
    pub(crate) log: G,
}

impl<L: Link, G: Log> Model for Joining<L, G> {
    ghost use Rattle.std.specs.Prelude.{◌≡◌, None};
    ghost use Rattle.cs_node.specs.Logged.{HasLogged};
    ghost use Rattle.cs_node.specs.Running.{Running};
    ghost use Rattle.cs_node.specs.declared.node.Node.TheVariants as nodes;

    ghost Value = { Running L G };

    ghost view = { λ s. record { node = nodes.Follower s.node; link = s.link; log = s.log } };

    ghost invariant = { λ s. (s.node.following ≡ None)
        × HasLogged (G.synced s.log) (G.bytes s.log) (nodes.Follower s.node) };
}

impl<L: Link, G: Log> Joining<L, G> {
    /// The same node, which has a pool of views in common with other nodes from now on.
    pub fn sharing(self, pool: ViewPool) -> Self
        ensures { result ≡ self }
    {
        let Joining {
            alloc,
            node,
            link,
            log,
        } = self;
        Joining {
            alloc,
            node: node.sharing(pool),
            link,
            log,
        }
    }

    /// Asks the leader to let the node in.
    pub fn join(self) -> After<L, G>
        ensures { IsCall L.Link G.Log self (on_call self.node calls.Join) result }
    {
        let Joining {
            alloc,
            node,
            link,
            log,
        } = self;
        follow(alloc, node, &Call::Join, link, log)
    }

    /// Asks the leader for a snapshot.
    pub fn ask(self) -> After<L, G>
        ensures { IsCall L.Link G.Log self (on_call self.node calls.AskLeader) result }
    {
        let Joining {
            alloc,
            node,
            link,
            log,
        } = self;
        follow(alloc, node, &Call::AskLeader, link, log)
    }

    /// Bytes come, those of a packet or not.
    pub fn deliver(self, bytes: &[u8]) -> After<L, G>
        ensures { IsCall L.Link G.Log self (on_bytes self.node bytes.now) result }
    {
        let Joining {
            alloc,
            node,
            link,
            log,
        } = self;
        deliver(alloc, Node::Follower(node), bytes, link, log)
    }

    /// Ends the node: its link and its log are handed back. Whatever a crash leaves of the log gives the node again.
    pub fn stop(self) -> (L, G)
        ensures link { result.0 ≡ self.link }
        ensures log { result.1 ≡ self.log }
        ensures survives { IfSome (G.bytes self.log) (λ bytes. Survives (G.synced self.log) bytes self.node) }
    {
        let Joining { link, log, .. } = self;
        (link, log)
    }
}
