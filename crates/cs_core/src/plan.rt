use crate::Follower;
use cs_base::{Epoch, NodeId, Point, RegionId};
use cs_fields::PacketFault;
use cs_packet::{Entry, Sends};
use cs_pending::{Counts, Offer};
use cs_piece::PieceFault;
use cs_view::ViewFault;

/// A call on a node that isn't the leader. A joining node has `Join`, `AskLeader` and `Deliver`, and a member all but
/// the first two.
#[derive(Clone, Copy, Debug)]
pub enum Call<'a> {
    /// The leader is asked to let the node in.
    Join,
    /// The leader is asked for a snapshot.
    AskLeader,
    /// The node's point is another one from now on.
    Moved { at: Point },
    /// The node wants to leave.
    Leave,
    /// The first pending changes are handed on to the leader.
    Flush,
    /// Another node is asked for a snapshot that tells something new.
    Ask { to: NodeId },
    /// Another node is asked for the slice of a region of the next epoch.
    Need { to: NodeId, region: RegionId },
    /// Bytes came, those of a packet or not.
    Deliver { bytes: &'a [u8] },
}

/// What a node answers to a call.
#[derive(Clone, Copy, Debug, PartialEq, Eq)]
pub enum FollowNote {
    /// It was sent on its way. A reporter's own change is kept by itself, and met `kept`.
    Told { kept: Option<Offer> },
    /// The same of a move, which has this number.
    Moved { seq: u32, kept: Option<Offer> },
    /// No number is left for a move.
    SeqSpent,
    /// So many pending changes went to the leader.
    Flushed(u32),
    /// No change is pending.
    Nothing,
    /// The node is this one itself, or one that it doesn't know.
    Unknown(NodeId),
    /// The piece or slice is held, and more is needed for a step.
    Held,
    /// A late piece was passed on.
    Passed,
    /// The piece or slice came before.
    Already,
    /// The node is at the next epoch now, by the slices that it held.
    Advanced(Epoch),
    /// The node is at this epoch now, by a snapshot.
    Jumped(Epoch),
    /// The node is no member any more.
    Departed,
    /// The packet is of an epoch that tells the node nothing new.
    Stale { have: Epoch, given: Epoch },
    /// The packet is of an epoch that the node can't use yet.
    Early { have: Epoch, given: Epoch },
    /// The request was answered.
    Answered,
    /// The request gets no answer.
    Silent,
    /// The changes of a report were offered to the pending ones.
    Noted(Counts),
    /// The node has no use for packets of this kind.
    Idle,
    /// The packet is for another node.
    NotMine(NodeId),
    /// The bytes are no packet: their first fault.
    Bad(PacketFault),
    /// What came doesn't fit together, or doesn't fit the node.
    Unfit(Unfit),
    /// No epoch follows that of the node.
    Spent,
}

/// Why something that came doesn't fit.
#[derive(Clone, Copy, Debug, PartialEq, Eq)]
pub enum Unfit {
    /// It can't be taken as a view, or the view makes no step by it.
    View(ViewFault),
    /// The third piece of a region doesn't fit the two others.
    Piece(PieceFault),
    /// The bytes that three pieces give are no slice: their first fault.
    Bytes(PacketFault),
    /// The slice that three pieces give is of another epoch or region than they say.
    Name,
    /// The slice of this region has another head than that of the least one.
    Heads(RegionId),
}

/// What the node is after a call.
#[derive(Drop)]
pub enum Outcome {
    Same,
    Next(Follower),
    /// It left.
    Gone,
}

/// What a node does at a call: it logs the entry, then sends the packets in order, answers with the note, and is what
/// `after` says.
#[derive(Drop)]
pub struct Plan {
    pub entry: Option<Entry>,
    /// Nothing is sent before the entry is kept.
    pub sends: Sends,
    pub note: FollowNote,
    pub after: Outcome,
}

/// What a node is after an entry of its log.
#[derive(Drop)]
pub enum Resumed {
    Next(Follower),
    /// It left.
    Gone,
    /// The entry doesn't continue the ones before it.
    Breaks,
}
