//! Calls on nodes with their links and logs.

ghost use Rattle.cs_core.specs.Decision.{HasCall};
ghost use Rattle.cs_node.specs.Calls.{IsCall};
ghost use Rattle.cs_node.specs.Effects.{on_bytes, on_call, on_close};
ghost use Rattle.cs_node.specs.Logged.{HasLogged};
ghost use Rattle.cs_node.specs.declared.node.Node.TheVariants as nodes;

use crate::acting::carry_out;
use crate::deciding::{decide_follower, decide_leader};
use crate::{After, Node};
use cs_core::{Call, Follower};
use cs_lead::{LeadCall, Leader};
use cs_link::Link;
use cs_log::Log;
use std::alloc::Global;

/// A call on a node that isn't the leader.
pub(crate) fn follow<L: Link, G: Log>(
    alloc: Global,
    node: Follower,
    call: &Call<'_>,
    link: L,
    log: G,
) -> After<L, G>
    requires call { HasCall node.following call.now }
    requires logged { HasLogged (G.synced log) (G.bytes log) (nodes.Follower node) }
    ensures { IsCall L.Link G.Log (record { node = nodes.Follower node; link = link; log = log })
        (on_call (nodes.Follower node) call.now) result }
{
    let decided = decide_follower(&node, call);
    carry_out(alloc, Node::Follower(node), decided, link, log)
}

/// The leader closes its epoch.
pub(crate) fn close<L: Link, G: Log>(alloc: Global, leader: Leader, link: L, log: G) -> After<L, G>
    requires { HasLogged (G.synced log) (G.bytes log) (nodes.Leader leader) }
    ensures { IsCall L.Link G.Log (record { node = nodes.Leader leader; link = link; log = log })
        (on_close (nodes.Leader leader)) result }
{
    let decided = decide_leader(&leader, &LeadCall::Close);
    carry_out(alloc, Node::Leader(leader), decided, link, log)
}

/// Bytes come to a node.
pub(crate) fn deliver<L: Link, G: Log>(
    alloc: Global,
    node: Node,
    bytes: &[u8],
    link: L,
    log: G,
) -> After<L, G>
    requires { HasLogged (G.synced log) (G.bytes log) node }
    ensures { IsCall L.Link G.Log (record { node = node; link = link; log = log }) (on_bytes node bytes.now) result }
{
    let decided = node.deliver(alloc, bytes);
    carry_out(alloc, node, decided, link, log)
}
