ghost use Rattle.std.specs.Prelude.{◌≡◌};
ghost use Rattle.cs_node.specs.Effects.{after_follower, after_leader, effects_of_follower, effects_of_leader, quiet};

use crate::{Node, Note};
use cs_core::{Outcome, Plan};
use cs_lead::{LeadOutcome, LeadPlan};
use cs_packet::{Entry, Sends};
use std::alloc::Global;

/// What a node does at a call: it logs the entry, then sends the packets in order, answers with the note, and is what
/// `after` says, or as before.
#[derive(Drop)]
pub struct Effects {
    pub entry: Option<Entry>,
    /// Nothing is sent before the entry is kept.
    pub sends: Sends,
    pub note: Note,
    pub after: Option<Node>,
}

impl Effects {
    /// Nothing is logged or sent, and the node stays as it is.
    pub fn quiet(alloc: Global, note: Note) -> Self
        ensures { result ≡ quiet note }
    {
        Effects {
            entry: None,
            sends: Sends::new(alloc),
            note,
            after: None,
        }
    }
}

impl From<Plan> for Effects {
    fn from(plan: Plan) -> Self
        ensures { result ≡ effects_of_follower plan }
    {
        let Plan {
            entry,
            sends,
            note,
            after,
        } = plan;
        Effects {
            entry,
            sends,
            note: Note::from(note),
            after: after_follower(after),
        }
    }
}

fn after_follower(after: Outcome) -> Option<Node>
    ensures { result ≡ after_follower after }
{
    match after {
        Outcome::Same => None,
        Outcome::Next(follower) => Some(Node::Follower(follower)),
        Outcome::Gone => Some(Node::Left),
    }
}

impl From<LeadPlan> for Effects {
    fn from(plan: LeadPlan) -> Self
        ensures { result ≡ effects_of_leader plan }
    {
        let LeadPlan {
            entry,
            sends,
            note,
            after,
        } = plan;
        Effects {
            entry,
            sends,
            note: Note::from(note),
            after: after_leader(after),
        }
    }
}

fn after_leader(after: LeadOutcome) -> Option<Node>
    ensures { result ≡ after_leader after }
{
    match after {
        LeadOutcome::Same => None,
        LeadOutcome::Next(leader) => Some(Node::Leader(leader)),
    }
}
