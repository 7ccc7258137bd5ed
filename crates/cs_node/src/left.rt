ghost use Rattle.std.specs.Prelude.{◌≡◌, IfSome};
ghost use Rattle.cs_node.specs.Logged.{Survives};

use cs_link::Link;
use cs_log::Log;
use std::alloc::Global;
use std::marker::Model;

/// A node that is no member any more. It keeps its link and its log.
#[derive(Drop)]
pub struct Left<L: Link, G: Log> {
    pub(crate) alloc: Global,
    pub(crate) link: L,
    pub(crate) log: G,
}

impl<L: Link, G: Log> Model for Left<L, G> {
    ghost use Rattle.cs_node.specs.Logged.{HasLogged};
    ghost use Rattle.cs_node.specs.Running.{Running};
    ghost use Rattle.cs_node.specs.declared.node.Node.TheVariants as nodes;

    ghost Value = { Running L G };

    ghost view = { λ s. record { node = nodes.Left; link = s.link; log = s.log } };

    ghost invariant = { λ s. HasLogged (G.synced s.log) (G.bytes s.log) nodes.Left };
}

impl<L: Link, G: Log> Left<L, G> {
    /// Ends the node: its link and its log are handed back. Whatever a crash leaves of the log gives the node again.
    pub fn stop(self) -> (L, G)
        ensures link { result.0 ≡ self.link }
        ensures log { result.1 ≡ self.log }
        ensures survives { IfSome (G.bytes self.log) (λ bytes. Survives (G.synced self.log) bytes self.node) }
    {
        let Left { link, log, .. } = self;
        (link, log)
    }
}
