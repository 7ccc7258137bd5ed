ghost use Rattle.std.specs.Prelude.{◌≡◌, Some, IfSome};
ghost use Rattle.cs_node.specs.Logged.{Survives};
ghost use Rattle.cs_node.specs.Node.{trees_in, view_of};
ghost use Rattle.cs_node.specs.Calls.{IsCall};
ghost use Rattle.cs_node.specs.Effects.{on_bytes, on_close};

use crate::calling::{close, deliver};
use crate::{After, Node};
use cs_lead::Leader;
use cs_link::Link;
use cs_log::Log;
use cs_tree::Kept;
use cs_view::View;
use std::alloc::Global;
use std::marker::Model;

/// The leader. It owns its link and its log.
#[derive(Drop)]
pub struct Leading<L: Link, G: Log> {
    pub(crate) alloc: Global,
    pub(crate) node: Leader,
    pub(crate) link: L,
    pub(crate) log: G,
}

impl<L: Link, G: Log> Model for Leading<L, G> {
    ghost use Rattle.cs_node.specs.Logged.{HasLogged};
    ghost use Rattle.cs_node.specs.Running.{Running};
    ghost use Rattle.cs_node.specs.declared.node.Node.TheVariants as nodes;

    ghost Value = { Running L G };

    ghost view = { λ s. record { node = nodes.Leader s.node; link = s.link; log = s.log } };

    ghost invariant = { λ s. HasLogged (G.synced s.log) (G.bytes s.log) (nodes.Leader s.node) };
}

impl<L: Link, G: Log> Leading<L, G> {
    pub fn view(&self) -> &View
        ensures { Some result.now ≡ view_of self.now.node }
    {
        self.node.view()
    }

    /// The trees of the view.
    pub fn kept(&self) -> &Kept
        ensures { Some result.now ≡ trees_in self.now.node }
    {
        self.node.kept()
    }

    /// Closes the epoch: the first 64 pending changes are judged, and what they change is logged and sent on its way.
    pub fn close(self) -> After<L, G>
        ensures { IsCall L.Link G.Log self (on_close self.node) result }
    {
        let Leading {
            alloc,
            node,
            link,
            log,
        } = self;
        close(alloc, node, link, log)
    }

    /// Bytes come, those of a packet or not.
    pub fn deliver(self, bytes: &[u8]) -> After<L, G>
        ensures { IsCall L.Link G.Log self (on_bytes self.node bytes.now) result }
    {
        let Leading {
            alloc,
            node,
            link,
            log,
        } = self;
        deliver(alloc, Node::Leader(node), bytes, link, log)
    }

    /// Ends the node: its link and its log are handed back. Whatever a crash leaves of the log gives the node again.
    pub fn stop(self) -> (L, G)
        ensures link { result.0 ≡ self.link }
        ensures log { result.1 ≡ self.log }
        ensures survives { IfSome (G.bytes self.log) (λ bytes. Survives (G.synced self.log) bytes self.node) }
    {
        let Leading { link, log, .. } = self;
        (link, log)
    }
}
