ghost use Rattle.std.specs.Prelude.{◌≡◌};
ghost use Rattle.cs_node.specs.Notes.{note_of_follower, note_of_leader};

use cs_base::{Epoch, NodeId};
use cs_core::{FollowNote, Unfit};
use cs_fields::PacketFault;
use cs_group::Verdicts;
use cs_lead::LeadNote;
use cs_pending::{Counts, Offer};

/// What a node answers to a call, the leader or another.
#[derive(Debug, Drop)]
pub enum Note {
    /// It was sent on its way. A reporter's own change is kept by itself, and met `kept`.
    Told { kept: Option<Offer> },
    /// The same of a move, which has this number.
    Moved { seq: u32, kept: Option<Offer> },
    /// No number is left for a move.
    SeqSpent,
    /// So many pending changes went to the leader.
    Flushed(u32),
    /// No change is pending.
    Nothing,
    /// The node is this one itself, or one that it doesn't know.
    Unknown(NodeId),
    /// The piece or slice is held, and more is needed for a step.
    Held,
    /// A late piece was passed on.
    Passed,
    /// The piece or slice came before.
    Already,
    /// The node is at the next epoch now, by the slices that it held.
    Advanced(Epoch),
    /// The node is at this epoch now, by a snapshot.
    Jumped(Epoch),
    /// The node is no member any more.
    Departed,
    /// The packet is of an epoch that tells the node nothing new.
    Stale { have: Epoch, given: Epoch },
    /// The packet is of an epoch that the node can't use yet.
    Early { have: Epoch, given: Epoch },
    /// The request was answered.
    Answered,
    /// The request gets no answer.
    Silent,
    /// The changes of a report were offered to the pending ones.
    Noted(Counts),
    /// The node has no use for packets of this kind.
    Idle,
    /// The packet is for another node.
    NotMine(NodeId),
    /// The bytes are no packet: their first fault.
    Bad(PacketFault),
    /// What came doesn't fit together, or doesn't fit the node.
    Unfit(Unfit),
    /// The epoch is this one now, by the accepted changes.
    Closed { epoch: Epoch, verdicts: Verdicts },
    /// No epoch is left, or no number for a region that is to be cut off.
    Spent,
    /// The link failed. The first `sent` packets of the call went out and no other; all else was done.
    LinkFault { sent: u32 },
    /// The log failed, and the node stopped. Nothing was sent.
    LogFault,
    /// Memory was wanting, and nothing was done.
    Memory,
}

impl From<FollowNote> for Note {
    fn from(note: FollowNote) -> Self
        ensures { result ≡ note_of_follower note }
    {
        match note {
            FollowNote::Told { kept } => Note::Told { kept },
            FollowNote::Moved { seq, kept } => Note::Moved { seq, kept },
            FollowNote::SeqSpent => Note::SeqSpent,
            FollowNote::Flushed(count) => Note::Flushed(count),
            FollowNote::Nothing => Note::Nothing,
            FollowNote::Unknown(to) => Note::Unknown(to),
            FollowNote::Held => Note::Held,
            FollowNote::Passed => Note::Passed,
            FollowNote::Already => Note::Already,
            FollowNote::Advanced(epoch) => Note::Advanced(epoch),
            FollowNote::Jumped(epoch) => Note::Jumped(epoch),
            FollowNote::Departed => Note::Departed,
            FollowNote::Stale { have, given } => Note::Stale { have, given },
            FollowNote::Early { have, given } => Note::Early { have, given },
            FollowNote::Answered => Note::Answered,
            FollowNote::Silent => Note::Silent,
            FollowNote::Noted(counts) => Note::Noted(counts),
            FollowNote::Idle => Note::Idle,
            FollowNote::NotMine(to) => Note::NotMine(to),
            FollowNote::Bad(fault) => Note::Bad(fault),
            FollowNote::Unfit(reason) => Note::Unfit(reason),
            FollowNote::Spent => Note::Spent,
        }
    }
}

impl From<LeadNote> for Note {
    fn from(note: LeadNote) -> Self
        ensures { result ≡ note_of_leader note }
    {
        match note {
            LeadNote::Stale { have, given } => Note::Stale { have, given },
            LeadNote::Early { have, given } => Note::Early { have, given },
            LeadNote::Answered => Note::Answered,
            LeadNote::Silent => Note::Silent,
            LeadNote::Noted(counts) => Note::Noted(counts),
            LeadNote::Idle => Note::Idle,
            LeadNote::NotMine(to) => Note::NotMine(to),
            LeadNote::Bad(fault) => Note::Bad(fault),
            LeadNote::Closed { epoch, verdicts } => Note::Closed { epoch, verdicts },
            LeadNote::Spent => Note::Spent,
        }
    }
}
