ghost use Rattle.std.specs.Prelude.{◌≡◌, Some, IfSome};
ghost use Rattle.cs_node.specs.Logged.{Survives};
ghost use Rattle.cs_node.specs.Node.{trees_in, view_of};
ghost use Rattle.cs_core.specs.declared.plan.Call.TheVariants as calls;
ghost use Rattle.cs_node.specs.Calls.{IsCall};
ghost use Rattle.cs_node.specs.Effects.{on_bytes, on_call};

use crate::calling::{deliver, follow};
use crate::{After, Node};
use cs_base::{NodeId, Point, RegionId};
use cs_core::{Call, Follower, ViewPool};
use cs_link::Link;
use cs_log::Log;
use cs_tree::Kept;
use cs_view::View;
use std::alloc::Global;
use std::marker::Model;

/// A member that isn't the leader. It owns its link and its log.
#[derive(Drop)]
pub struct Following<L: Link, G: Log> {
    pub(crate) alloc: Global,
    pub(crate) node: Follower,
    pub(crate) link: L,
    pub(crate) log: G,
}

impl<L: Link, G: Log> Model for Following<L, G> {
    ghost use Rattle.std.specs.Prelude.{IsSome};
    ghost use Rattle.cs_node.specs.Logged.{HasLogged};
    ghost use Rattle.cs_node.specs.Running.{Running};
    ghost use Rattle.cs_node.specs.declared.node.Node.TheVariants as nodes;

    ghost Value = { Running L G };

    ghost view = { λ s. record { node = nodes.Follower s.node; link = s.link; log = s.log } };

    ghost invariant = { λ s. IsSome s.node.following
        × HasLogged (G.synced s.log) (G.bytes s.log) (nodes.Follower s.node) };
}

impl<L: Link, G: Log> Following<L, G> {
    /// The same node, which has a pool of views in common with other nodes from now on.
    pub fn sharing(self, pool: ViewPool) -> Self
        ensures { result ≡ self }
    {
        let Following {
            alloc,
            node,
            link,
            log,
        } = self;
        Following {
            alloc,
            node: node.sharing(pool),
            link,
            log,
        }
    }

    pub fn view(&self) -> &View
        ensures { Some result.now ≡ view_of self.now.node }
    {
        self.node.view().unwrap()
    }

    /// The trees of the view.
    pub fn kept(&self) -> &Kept
        ensures { Some result.now ≡ trees_in self.now.node }
    {
        self.node.kept().unwrap()
    }

    /// The node is at another point from now on, and reports it.
    pub fn moved(self, at: Point) -> After<L, G>
        ensures { IsCall L.Link G.Log self (on_call self.node (calls.Moved at)) result }
    {
        let Following {
            alloc,
            node,
            link,
            log,
        } = self;
        follow(alloc, node, &Call::Moved { at }, link, log)
    }

    /// Reports that the node wants to leave. It goes on until it hears that it is no member.
    pub fn leave(self) -> After<L, G>
        ensures { IsCall L.Link G.Log self (on_call self.node calls.Leave) result }
    {
        let Following {
            alloc,
            node,
            link,
            log,
        } = self;
        follow(alloc, node, &Call::Leave, link, log)
    }

    /// Hands the first 64 pending changes on to the leader.
    pub fn flush(self) -> After<L, G>
        ensures { IsCall L.Link G.Log self (on_call self.node calls.Flush) result }
    {
        let Following {
            alloc,
            node,
            link,
            log,
        } = self;
        follow(alloc, node, &Call::Flush, link, log)
    }

    /// Asks another node for a snapshot that tells something new.
    pub fn ask(self, to: NodeId) -> After<L, G>
        ensures { IsCall L.Link G.Log self (on_call self.node (calls.Ask to)) result }
    {
        let Following {
            alloc,
            node,
            link,
            log,
        } = self;
        follow(alloc, node, &Call::Ask { to }, link, log)
    }

    /// Asks another node for the slice of a region of the next epoch.
    pub fn need(self, to: NodeId, region: RegionId) -> After<L, G>
        ensures { IsCall L.Link G.Log self (on_call self.node (calls.Need to region)) result }
    {
        let Following {
            alloc,
            node,
            link,
            log,
        } = self;
        follow(alloc, node, &Call::Need { to, region }, link, log)
    }

    /// Bytes come, those of a packet or not.
    pub fn deliver(self, bytes: &[u8]) -> After<L, G>
        ensures { IsCall L.Link G.Log self (on_bytes self.node bytes.now) result }
    {
        let Following {
            alloc,
            node,
            link,
            log,
        } = self;
        deliver(alloc, Node::Follower(node), bytes, link, log)
    }

    /// Ends the node: its link and its log are handed back. Whatever a crash leaves of the log gives the node again.
    pub fn stop(self) -> (L, G)
        ensures link { result.0 ≡ self.link }
        ensures log { result.1 ≡ self.log }
        ensures survives { IfSome (G.bytes self.log) (λ bytes. Survives (G.synced self.log) bytes self.node) }
    {
        let Following { link, log, .. } = self;
        (link, log)
    }
}
