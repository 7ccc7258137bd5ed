ghost use Rattle.std.specs.Prelude.{◌≡◌, IfOk};
ghost use Rattle.std.specs.Option.{option_copied};
ghost use Rattle.cs_packet.specs.PacketField.{AreSends};
ghost use Rattle.cs_node.specs.Acting.{IsDecision};
ghost use Rattle.cs_node.specs.Effects.{on_bytes};
ghost use Rattle.cs_node.specs.Node.{trees_in, view_of};

use crate::deciding::{decide_follower, decide_leader};
use crate::{Effects, Note};
use cs_core::{Call, Follower};
use cs_lead::{LeadCall, Leader};
use cs_tree::Kept;
use cs_view::View;
use std::alloc::{AllocError, Global};

/// What a node is, without its link and its log.
#[derive(Drop)]
pub enum Node {
    /// A member, or one that is joining.
    Follower(Follower),
    Leader(Leader),
    /// It is no member any more.
    Left,
}

impl Node {
    /// The view of a member and of the leader.
    pub fn view(&self) -> Option<&View>
        ensures { option_copied result ≡ view_of self.now }
    {
        match self {
            Node::Follower(follower) => follower.view(),
            Node::Leader(leader) => Some(leader.view()),
            Node::Left => None,
        }
    }

    /// The trees of that view.
    pub fn kept(&self) -> Option<&Kept>
        ensures { option_copied result ≡ trees_in self.now }
    {
        match self {
            Node::Follower(follower) => follower.kept(),
            Node::Leader(leader) => Some(leader.kept()),
            Node::Left => None,
        }
    }

    /// What the node does with bytes that came, those of a packet or not. One that left answers that it departed.
    pub fn deliver(&self, alloc: Global, bytes: &[u8]) -> Result<Effects, AllocError>
        ensures value { IfOk result (λ effects. effects ≡ on_bytes self.now bytes.now) }
        ensures allowed { IfOk result (λ effects. AreSends effects.sends) }
        // What is logged and sent is well formed, a note that changes nothing comes with nothing else, and what is
        // logged leads a log on to the node after.
        ensures decision { IfOk result (IsDecision self.now) }
    {
        match self {
            Node::Follower(follower) => decide_follower(follower, &Call::Deliver { bytes }),
            Node::Leader(leader) => decide_leader(leader, &LeadCall::Deliver { bytes }),
            Node::Left => Ok(Effects::quiet(alloc, Note::Departed)),
        }
    }
}
