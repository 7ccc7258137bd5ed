//! A decision is carried out: all memory first, then the entry, then the packets.

ghost use Rattle.std.specs.Prelude.{◌≡◌, ◌≤◌, length, Option, IfSome, Some, IfOk, IfErr, OnOk, OnErr};
ghost use Rattle.cs_node.specs.Acting.{IsDecision, IsFrameOf, IsPrepared};
ghost use Rattle.cs_node.specs.Appending.{IsKept, IsLost};
ghost use Rattle.cs_node.specs.Calls.{IsCall};
ghost use Rattle.cs_node.specs.Logged.{HasLogged};
ghost use Rattle.cs_node.specs.Placed.{HasCarriedOut};
ghost use Rattle.cs_node.specs.Sound.{IsSound};
ghost use Rattle.cs_node.specs.Told.{link_told, log_told};
ghost use Rattle.cs_packet.specs.declared.entry.Entry.{Entry};
ghost use Rattle.cs_node.specs.declared.effects.Effects.{Effects};

use crate::appending::{framed_entry, keep};
use crate::posting::{datagrams, ready_link, send_all};
use crate::{After, Effects, Node, Note, State, Stopped, Why};
use cs_base::Addr;
use cs_link::Link;
use cs_log::{Log, LogFailed};
use cs_piece::Piece;
use std::alloc::{AllocError, Global};

/// What is to be logged and sent, for which there is room.
#[derive(Drop)]
struct Prepared {
    frame: Option<Vec<u8>>,
    datagrams: Vec<(Addr, Piece)>,
}

// Takes all memory that the effects need. Nothing else changes.
fn prepare<L: Link, G: Log>(
    alloc: Global,
    effects: &Effects,
    link: &mut L,
    log: &mut G,
) -> Result<Prepared, AllocError>
    requires { IsSound effects.now }
    ensures prepared { IfOk result (IsPrepared effects.now (G.spare log.new) (L.spare link.new)) }
    ensures link { link_told L.Link link.new ≡ link_told L.Link link.old }
    ensures log { log_told G.Log log.new ≡ log_told G.Log log.old }
{
    let frame = match &effects.entry {
        Some(entry) => Some(framed_entry(alloc, entry, log)?),
        None => None,
    };
    let datagrams = datagrams(alloc, &effects.sends)?;
    ready_link(link, &datagrams)?;
    Ok(Prepared { frame, datagrams })
}

// Logs the frame, where there is one.
fn keep_frame<G: Log>(log: &mut G, frame: &Option<Vec<u8>>) -> Result<(), LogFailed>
    requires { IfSome frame.now (λ bytes. length bytes.items ≤ G.spare log.old) }
    ensures ok { (entry : Option Entry) → IsFrameOf entry frame.now (G.spare log.old)
        → OnOk result (IsKept entry (log_told G.Log log.old) (log_told G.Log log.new)) }
    ensures err { (entry : Option Entry) → IsFrameOf entry frame.now (G.spare log.old)
        → OnErr result (IsLost entry (log_told G.Log log.old) (log_told G.Log log.new)) }
{
    match frame {
        Some(bytes) => keep(log, bytes),
        None => Ok(()),
    }
}

// The answer of a call, where its packets were sent or the first of them.
fn note_by(note: Note, sent: Result<(), u32>) -> Note
    ensures ok { OnOk sent (result ≡ note) }
    ensures err { IfErr sent (λ n. result ≡ Note.LinkFault n) }
{
    match sent {
        Ok(()) => note,
        Err(sent) => Note::LinkFault { sent },
    }
}

/// A node after a decision was carried out, none where its log failed, and the answer.
#[derive(Drop)]
pub(crate) struct Carried {
    pub node: Option<Node>,
    pub note: Note,
}

// Logs and sends what was prepared, and goes on with the next node.
fn act<L: Link, G: Log>(
    node: Node,
    effects: Effects,
    prepared: &Prepared,
    link: &mut L,
    log: &mut G,
) -> Carried
    requires logged { HasLogged (G.synced log.old) (G.bytes log.old) node }
    requires decision { IsDecision node effects }
    requires prepared { IsPrepared effects (G.spare log.old) (L.spare link.old) prepared.now }
    ensures carried { HasCarriedOut node effects (link_told L.Link link.old) (log_told G.Log log.old)
        result (link_told L.Link link.new) (log_told G.Log log.new) }
    ensures logged { IfSome result.node (HasLogged (G.synced log.new) (G.bytes log.new)) }
{
    match keep_frame(log, &prepared.frame) {
        Ok(()) => {
            let Effects { note, after, .. } = effects;
            let node = after.unwrap_or(node);
            let sent = send_all(link, &prepared.datagrams);
            Carried {
                node: Some(node),
                note: note_by(note, sent),
            }
        }
        Err(LogFailed) => Carried {
            node: None,
            note: Note::LogFault,
        },
    }
}

// Memory is wanting, and nothing is done.
fn unchanged(node: Node) -> Carried
    ensures node { result.node ≡ Some node }
    ensures note { result.note ≡ Note.Memory }
{
    Carried {
        node: Some(node),
        note: Note::Memory,
    }
}

// Carries effects out, where there is memory for it.
fn perform<L: Link, G: Log>(
    alloc: Global,
    node: Node,
    effects: Effects,
    link: &mut L,
    log: &mut G,
) -> Carried
    requires logged { HasLogged (G.synced log.old) (G.bytes log.old) node }
    requires decision { IsDecision node effects }
    ensures carried { HasCarriedOut node effects (link_told L.Link link.old) (log_told G.Log log.old)
        result (link_told L.Link link.new) (log_told G.Log log.new) }
    ensures logged { IfSome result.node (HasLogged (G.synced log.new) (G.bytes log.new)) }
{
    match prepare(alloc, &effects, link, log) {
        Ok(prepared) => act(node, effects, &prepared, link, log),
        Err(AllocError) => unchanged(node),
    }
}

/// Carries a decision out, on the link and the log in their places. Without memory for it, also for the decision
/// itself, nothing is done.
pub(crate) fn carry_out_on<L: Link, G: Log>(
    alloc: Global,
    node: Node,
    decided: Result<Effects, AllocError>,
    link: &mut L,
    log: &mut G,
) -> Carried
    requires logged { HasLogged (G.synced log.old) (G.bytes log.old) node }
    requires decision { IfOk decided (IsDecision node) }
    ensures carried { (effects : Effects) → IfOk decided (λ it. it ≡ effects)
        → HasCarriedOut node effects (link_told L.Link link.old) (log_told G.Log log.old)
        result (link_told L.Link link.new) (log_told G.Log log.new) }
    ensures logged { IfSome result.node (HasLogged (G.synced log.new) (G.bytes log.new)) }
{
    match decided {
        Ok(effects) => perform(alloc, node, effects, link, log),
        Err(AllocError) => unchanged(node),
    }
}

/// Carries a decision out, and gives the state that the node is in then.
pub(crate) fn carry_out<L: Link, G: Log>(
    alloc: Global,
    node: Node,
    decided: Result<Effects, AllocError>,
    mut link: L,
    mut log: G,
) -> After<L, G>
    requires logged { HasLogged (G.synced log) (G.bytes log) node }
    requires decision { IfOk decided (IsDecision node) }
    ensures { (effects : Effects) → IfOk decided (λ it. it ≡ effects)
        → IsCall L.Link G.Log (record { node = node; link = link; log = log }) effects result }
{
    let Carried { node, note } = carry_out_on(alloc, node, decided, &mut link, &mut log);
    let node = match node {
        Some(node) => State::of(alloc, node, link, log),
        None => State::Stopped(Stopped {
            link,
            log,
            why: Why::Log,
        }),
    };
    After { node, note }
}
