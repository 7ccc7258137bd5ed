//! What the entries of a log make of a node.

ghost use Rattle.std.specs.Prelude.{◌≡◌, IfOk};
ghost use Rattle.std.specs.Option.{option_copied, unwrap_or};
ghost use Rattle.cs_packet.specs.EntryField.{entry_of, IsEntry};
ghost use Rattle.cs_node.specs.Folding.{after_entry, begins_as_base, fold, fold_from, from_last_base, looked_at};
ghost use Rattle.cs_node.specs.Folding.{of_follower, of_leader, started_by, takes_in};

use crate::Node;
use cs_core::{Follower, Resumed};
use cs_fields::PacketFault;
use cs_lead::{LeadResumed, Leader};
use cs_log::Frames;
use cs_packet::{Entry, decode_entry};
use cs_piece::Piece;
use std::alloc::{AllocError, Global};

// The kind of a base, with which its payload begins.
const BASE: u8 = 7;

/// What the whole frames of a log give.
#[derive(Drop)]
pub enum Folded {
    Gives(Node),
    /// There is no whole frame.
    Empty,
    /// The frame at this place is the first that is no entry, or doesn't continue the ones before it.
    Bad(u64),
}

/// What the frames give: the first one starts a node, and those that are looked at continue its log.
pub fn fold(alloc: Global, frames: &Frames) -> Result<Folded, AllocError>
    ensures { IfOk result (λ folded. folded ≡ fold frames.now) }
{
    let Some((first, behind)) = frames.as_slice().split_first() else {
        return Ok(Folded::Empty);
    };
    match take_in(alloc, None, first.1.as_slice())? {
        Some(node) => {
            let behind = looked_at(&node, behind);
            fold_from(alloc, node, behind)
        }
        None => Ok(Folded::Bad(first.0)),
    }
}

// What the frames make of a node, one behind the other.
fn fold_from(alloc: Global, node: Node, frames: &[(u64, Piece)]) -> Result<Folded, AllocError>
    ensures { IfOk result (λ folded. folded ≡ fold_from node frames.now) }
{
    let mut now = node;
    for (place, payload) in frames {
        let Some(next) = take_in(alloc, Some(&now), payload.as_slice())? else {
            return Ok(Folded::Bad(*place));
        };
        now = next;
    }
    Ok(Folded::Gives(now))
}

// Which frames behind the first one are looked at: in a leader's log what stands before the last base isn't.
fn looked_at<'a>(node: &Node, frames: &'a [(u64, Piece)]) -> &'a [(u64, Piece)]
    ensures { result.now ≡ looked_at node.now frames.now }
{
    match node {
        Node::Leader(_) => from_last_base(frames),
        Node::Follower(_) | Node::Left => frames,
    }
}

// The frames from the last base on, or all where there is none.
fn from_last_base(frames: &[(u64, Piece)]) -> &[(u64, Piece)]
    ensures { result.now ≡ unwrap_or (from_last_base frames.now) frames.now }
{
    let mut from = 0;
    for i in 0..frames.len() {
        if begins_as_base(frames[i].1.as_slice()) {
            from = i;
        }
    }
    &frames[from..]
}

// Whether a payload begins as that of a base does.
fn begins_as_base(payload: &[u8]) -> bool
    ensures { result ≡ begins_as_base payload.now }
{
    payload.first() == Some(&BASE)
}

// What the payload of a frame makes of a node, or of none.
fn take_in(alloc: Global, before: Option<&Node>, payload: &[u8]) -> Result<Option<Node>, AllocError>
    ensures { IfOk result (λ next. next ≡ takes_in (option_copied before.entry) (entry_of payload.now)) }
{
    let entry = match decode_entry(alloc, payload) {
        Ok(entry) => entry,
        Err(PacketFault::Memory) => return Err(AllocError),
        Err(_) => return Ok(None),
    };
    match before {
        Some(node) => resume(node, &entry),
        None => start(alloc, &entry),
    }
}

// The node that the first entry starts.
fn start(alloc: Global, entry: &Entry) -> Result<Option<Node>, AllocError>
    ensures { IfOk result (λ node. node ≡ started_by entry.now) }
{
    let Entry::Boot { leader, own } = entry else {
        return Ok(None);
    };
    if *leader {
        return Ok(Some(Node::Leader(Leader::start(alloc, own.member())?)));
    }
    Ok(Some(Node::Follower(Follower::start(alloc, *own))))
}

// The node after a further entry, where that continues its log.
fn resume(node: &Node, entry: &Entry) -> Result<Option<Node>, AllocError>
    requires { IsEntry entry.now }
    ensures { IfOk result (λ next. next ≡ after_entry node.now entry.now) }
{
    match node {
        Node::Follower(follower) => Ok(resumed_follower(follower.resume(entry)?)),
        Node::Leader(leader) => Ok(resumed_leader(leader.resume(entry)?)),
        Node::Left => Ok(None),
    }
}

fn resumed_follower(resumed: Resumed) -> Option<Node>
    ensures { result ≡ of_follower resumed }
{
    match resumed {
        Resumed::Next(follower) => Some(Node::Follower(follower)),
        Resumed::Gone => Some(Node::Left),
        Resumed::Breaks => None,
    }
}

fn resumed_leader(resumed: LeadResumed) -> Option<Node>
    ensures { result ≡ of_leader resumed }
{
    match resumed {
        LeadResumed::Next(leader) => Some(Node::Leader(leader)),
        LeadResumed::Breaks => None,
    }
}
