ghost use Rattle.std.specs.Prelude.{◌≡◌};
ghost use Rattle.cs_base.specs.Changes.{id_of, rank_of};
ghost use Rattle.cs_base.specs.Ranges.{IsChangeButSeq};

use crate::{Axis, Keyed, Member, NodeId, Point};

/// How much of the group a node wants to know: its own region, or every region.
#[derive(Clone, Copy, Debug, PartialEq, Eq)]
pub enum Mode {
    Partial,
    Full,
}

/// A change of the group that a node asks for.
#[derive(Clone, Copy, Debug, PartialEq, Eq)]
pub enum Change {
    Join(Member),
    /// The member stands at another point. Of two moves the one with the greater `seq` is the later.
    Move { id: NodeId, seq: u32, at: Point },
    Leave { id: NodeId },
}

impl Change {
    /// The member that the change is about.
    pub fn id(&self) -> NodeId
        ensures value { result ≡ id_of self.now }
        ensures allowed { IsChangeButSeq self.now }
    {
        match self {
            Change::Join(member) => {
                let _id = member.key();
                member.id
            }
            Change::Move { id, at, .. } => {
                let _x = at.axis(Axis::X);
                let _id = id.get();
                *id
            }
            Change::Leave { id } => {
                let _id = id.get();
                *id
            }
        }
    }

    /// Of two changes of one member the one with the higher rank is the stronger: 0 for a Join, `seq` for a
    /// Move, 4,294,967,296 for a Leave.
    pub fn rank(&self) -> u64
        ensures { result ≡ rank_of self.now }
    {
        match self {
            Change::Join(_) => 0,
            Change::Move { seq, .. } => u64::from(*seq),
            Change::Leave { .. } => 1 << 32,
        }
    }
}
