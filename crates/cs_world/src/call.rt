//! What a schedule makes a node do, and what the node answers.

ghost use Rattle.std.specs.Prelude.{◌≡◌, None, IsSome, IfOk, IfErr};
ghost use Rattle.std.specs.String.{string_bytes};
ghost use Rattle.cs_lead.specs.Leading.{Leading as Leader};
ghost use Rattle.cs_node.specs.Calls.{ends_in};
ghost use Rattle.cs_node.specs.States.{IsFollowerThat};
ghost use Rattle.cs_node.specs.declared.node.Node.TheVariants as nodes;
ghost use Rattle.cs_node.specs.declared.state.State.TheVariants as states;
ghost use Rattle.cs_show.specs.Text.{ended};
ghost use Rattle.cs_world.specs.Calls.{HasCalled, left_answer, refusal_word};

use crate::WorldFault;
use crate::lines::{line, number_line};
use cs_base::{NodeId, Point, RegionId};
use cs_link::Link;
use cs_log::Log;
use cs_node::{After, Following, Joining, Leading, Note, State, Why};
use std::alloc::Global;

/// A call on a node, whatever state it is in.
#[derive(Debug, Drop)]
pub enum Call<'a> {
    Join,
    Leave,
    Flush,
    Move(Point),
    Close,
    /// Asks another node for a snapshot. A joining node asks the one that leads alone.
    Ask { to: NodeId, leads: bool },
    /// Asks another node for the slice of a region of the next epoch.
    Need(NodeId, RegionId),
    /// Bytes come.
    Deliver(&'a [u8]),
}

/// Why a node in its state has no such call.
#[derive(Clone, Copy, Debug, PartialEq, Eq)]
pub enum Refusal {
    /// It is a member already.
    Member,
    /// It is no member yet.
    Joining,
    /// It leads.
    Leader,
    /// It is no member any more.
    Departed,
    /// It doesn't lead.
    NoLeader,
    /// It is down.
    Down,
    /// It isn't down.
    Up,
    /// It doesn't know the other node.
    Unknown(NodeId),
}

impl Refusal {
    /// Its line in a transcript.
    pub fn line(self, alloc: Global) -> Result<String, WorldFault>
        ensures text { IfOk result (λ text. string_bytes text ≡ ended (refusal_word self)) }
        ensures memory { IfErr result (λ fault. fault ≡ WorldFault.Memory) }
    {
        match self {
            Refusal::Member => line(alloc, "member"),
            Refusal::Joining => line(alloc, "joining"),
            Refusal::Leader => line(alloc, "leader"),
            Refusal::Departed => line(alloc, "departed"),
            Refusal::NoLeader => line(alloc, "no leader"),
            Refusal::Down => line(alloc, "down"),
            Refusal::Up => line(alloc, "up"),
            Refusal::Unknown(to) => number_line(alloc, "unknown", u64::from(to.get())),
        }
    }
}

/// What a node answers to a line.
#[derive(Debug, Drop)]
pub enum Answer {
    /// It acted.
    Noted(Note),
    /// It did nothing.
    Refused(Refusal),
    /// What was armed tore its write, and it is down.
    Torn,
    /// It is down from now on.
    Down,
    /// Its log brought it back.
    Back,
    /// Its log didn't bring it back.
    Stopped(Why),
    /// Its log is armed with a number of bytes.
    Armed(u64),
}

/// A state after a call, and its answer.
pub struct Called<L: Link, G: Log> {
    pub state: State<L, G>,
    pub answer: Answer,
}

impl<L: Link, G: Log> Called<L, G> {
    // The node acted.
    fn acted(after: After<L, G>) -> Self
        ensures state { result.state ≡ after.node }
        ensures answer { result.answer ≡ Answer.Noted after.note }
    {
        let After { node, note } = after;
        Called {
            state: node,
            answer: Answer::Noted(note),
        }
    }

    // It is as before.
    fn refused(state: State<L, G>, refusal: Refusal) -> Self
        ensures state { result.state ≡ state }
        ensures answer { result.answer ≡ Answer.Refused refusal }
    {
        Called {
            state,
            answer: Answer::Refused(refusal),
        }
    }
}

/// The call on a state.
pub fn call_on<L: Link, G: Log>(state: State<L, G>, call: &Call<'_>) -> Called<L, G>
    ensures { HasCalled (ends_in L.Link G.Log state) call.now result.answer (ends_in L.Link G.Log result.state) }
{
    state.is_of_its_kind();
    match state {
        State::Joining(node) => call_on_joining(node, call),
        State::Following(node) => call_on_following(node, call),
        State::Leading(node) => call_on_leading(node, call),
        State::Left(node) => {
            let answer = answer_of_left(call);
            Called {
                state: State::Left(node),
                answer,
            }
        }
        State::Stopped(node) => Called::refused(State::Stopped(node), Refusal::Down),
    }
}

fn call_on_joining<L: Link, G: Log>(node: Joining<L, G>, call: &Call<'_>) -> Called<L, G>
    requires { IsFollowerThat (λ f. f.following ≡ None) node.node }
    ensures { HasCalled (ends_in L.Link G.Log (states.Joining node)) call.now result.answer
        (ends_in L.Link G.Log result.state) }
{
    match call {
        Call::Join => Called::acted(node.join()),
        Call::Deliver(bytes) => Called::acted(node.deliver(bytes)),
        Call::Ask { leads: true, .. } => Called::acted(node.ask()),
        Call::Ask { to, leads: false } => {
            Called::refused(State::Joining(node), Refusal::Unknown(*to))
        }
        Call::Leave | Call::Flush | Call::Move(_) | Call::Need(..) => {
            Called::refused(State::Joining(node), Refusal::Joining)
        }
        Call::Close => Called::refused(State::Joining(node), Refusal::NoLeader),
    }
}

fn call_on_following<L: Link, G: Log>(node: Following<L, G>, call: &Call<'_>) -> Called<L, G>
    requires { IsFollowerThat (λ f. IsSome f.following) node.node }
    ensures { HasCalled (ends_in L.Link G.Log (states.Following node)) call.now result.answer
        (ends_in L.Link G.Log result.state) }
{
    match call {
        Call::Leave => Called::acted(node.leave()),
        Call::Flush => Called::acted(node.flush()),
        Call::Move(at) => Called::acted(node.moved(*at)),
        Call::Ask { to, .. } => Called::acted(node.ask(*to)),
        Call::Need(to, region) => Called::acted(node.need(*to, *region)),
        Call::Deliver(bytes) => Called::acted(node.deliver(bytes)),
        Call::Join => Called::refused(State::Following(node), Refusal::Member),
        Call::Close => Called::refused(State::Following(node), Refusal::NoLeader),
    }
}

fn call_on_leading<L: Link, G: Log>(node: Leading<L, G>, call: &Call<'_>) -> Called<L, G>
    requires { (leader : Leader) × (node.node ≡ nodes.Leader leader) }
    ensures { HasCalled (ends_in L.Link G.Log (states.Leading node)) call.now result.answer
        (ends_in L.Link G.Log result.state) }
{
    match call {
        Call::Close => Called::acted(node.close()),
        Call::Deliver(bytes) => Called::acted(node.deliver(bytes)),
        Call::Join => Called::refused(State::Leading(node), Refusal::Member),
        Call::Leave | Call::Flush | Call::Move(_) | Call::Ask { .. } | Call::Need(..) => {
            Called::refused(State::Leading(node), Refusal::Leader)
        }
    }
}

// A node that left hears, and does nothing.
fn answer_of_left(call: &Call<'_>) -> Answer
    ensures { result ≡ left_answer call.now }
{
    match call {
        Call::Deliver(_) => Answer::Noted(Note::Departed),
        Call::Close => Answer::Refused(Refusal::NoLeader),
        Call::Join
        | Call::Leave
        | Call::Flush
        | Call::Move(_)
        | Call::Ask { .. }
        | Call::Need(..) => Answer::Refused(Refusal::Departed),
    }
}
