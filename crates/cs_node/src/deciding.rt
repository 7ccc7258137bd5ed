//! What nodes of each kind decide, as effects that a log can carry.

ghost use Rattle.std.specs.Prelude.{◌≡◌, IfOk};
ghost use Rattle.cs_core.specs.Decision.{HasCall, plan_of as follow};
ghost use Rattle.cs_lead.specs.Decision.{plan_of as lead};
ghost use Rattle.cs_packet.specs.PacketField.{AreSends};
ghost use Rattle.cs_node.specs.Acting.{IsDecision};
ghost use Rattle.cs_node.specs.Effects.{effects_of_follower, effects_of_leader};
ghost use Rattle.cs_node.specs.declared.node.Node.TheVariants as nodes;

use crate::Effects;
use cs_core::{
    Call, Follower, a_log_gives_the_node_again, all_that_resuming_reads_lasts,
    what_is_not_logged_is_as_it_was,
};
use cs_lead::{LeadCall, Leader};
use std::alloc::AllocError;

/// What a node that isn't the leader does at a call.
pub(crate) fn decide_follower(node: &Follower, call: &Call<'_>) -> Result<Effects, AllocError>
    requires { HasCall node.now.following call.now }
    ensures value { IfOk result (λ effects.
        effects ≡ effects_of_follower (follow node.now.own node.now.following call.now)) }
    ensures allowed { IfOk result (λ effects. AreSends effects.sends) }
    ensures decision { IfOk result (IsDecision (nodes.Follower node.now)) }
{
    a_log_gives_the_node_again();
    what_is_not_logged_is_as_it_was();
    all_that_resuming_reads_lasts();
    Ok(Effects::from(node.decide(call)?))
}

/// What the leader does at a call.
pub(crate) fn decide_leader(leader: &Leader, call: &LeadCall<'_>) -> Result<Effects, AllocError>
    ensures value { IfOk result (λ effects. effects ≡ effects_of_leader (lead leader.now call.now)) }
    ensures allowed { IfOk result (λ effects. AreSends effects.sends) }
    ensures decision { IfOk result (IsDecision (nodes.Leader leader.now)) }
{
    // The view tells what the leader keeps.
    let _view = leader.view();
    cs_lead::a_log_gives_the_leader_again();
    cs_lead::what_is_not_logged_is_as_it_was();
    cs_lead::all_that_resuming_reads_lasts();
    Ok(Effects::from(leader.decide(call)?))
}
