use crate::Leader;
use cs_base::{Epoch, NodeId};
use cs_fields::PacketFault;
use cs_group::Verdicts;
use cs_packet::{Entry, Sends};
use cs_pending::Counts;

/// A call on the leader.
#[derive(Clone, Copy, Debug)]
pub enum LeadCall<'a> {
    /// The epoch is closed.
    Close,
    /// Bytes came, those of a packet or not.
    Deliver { bytes: &'a [u8] },
}

/// What the leader answers to a call.
#[derive(Debug, Drop)]
pub enum LeadNote {
    /// The packet is of an epoch that tells the leader nothing new.
    Stale { have: Epoch, given: Epoch },
    /// The packet is of an epoch that hasn't begun.
    Early { have: Epoch, given: Epoch },
    /// The request was answered.
    Answered,
    /// The request gets no answer.
    Silent,
    /// The changes of a report were offered to the pending ones.
    Noted(Counts),
    /// The leader has no use for packets of this kind.
    Idle,
    /// The packet is for another node.
    NotMine(NodeId),
    /// The bytes are no packet: their first fault.
    Bad(PacketFault),
    /// The epoch is this one now, by the accepted changes.
    Closed { epoch: Epoch, verdicts: Verdicts },
    /// No epoch is left, or no number for a region that is to be cut off.
    Spent,
}

/// What the leader is after a call.
#[derive(Drop)]
pub enum LeadOutcome {
    Same,
    Next(Leader),
}

/// What the leader does at a call: it logs the entry, then sends the packets in order, answers with the note, and is
/// what `after` says.
#[derive(Drop)]
pub struct LeadPlan {
    pub entry: Option<Entry>,
    /// Nothing is sent before the entry is kept.
    pub sends: Sends,
    pub note: LeadNote,
    pub after: LeadOutcome,
}

/// What the leader is after an entry of its log.
#[derive(Drop)]
pub enum LeadResumed {
    Next(Leader),
    /// The entry doesn't continue the ones before it.
    Breaks,
}
