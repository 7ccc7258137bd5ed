ghost use Rattle.std.specs.Prelude.{◌≡◌, IfOk};

use crate::Own;
use cs_base::{Changes, Epoch, Ids, Ordered, Point};
use cs_group::RowList;
use cs_item::{Picture, Slice};
use std::alloc::AllocError;

/// What a node writes into its log, from which it takes up again after a crash.
#[derive(Debug, Drop)]
pub enum Entry {
    /// The node starts. `leader` says whether it leads the group itself.
    Boot {
        leader: bool,
        own: Own,
    },
    /// The node stands at another point. `seq` is the number of the move.
    Seq {
        seq: u32,
        at: Point,
    },
    /// What the node knows of an epoch, which it had from a snapshot.
    View(Picture),
    /// The slices that took the node to a new epoch.
    Step(Slices),
    /// The node is no member any more from this epoch on.
    Gone {
        epoch: Epoch,
    },
    /// The changes that the leader made the epoch of.
    Item {
        epoch: Epoch,
        changes: Changes,
    },
    /// The same where the leader begins anew here: with the group before, by its rows, the number of the next new
    /// region and the ids that left.
    Base {
        epoch: Epoch,
        next_region: u32,
        retired: Ids,
        rows: RowList,
        changes: Changes,
    },
}

/// The slices of one epoch, ascending by region.
pub type Slices = Ordered<Slice>;

impl Entry {
    pub fn copy(&self) -> Result<Self, AllocError>
        ensures { IfOk result (λ copy. copy ≡ self.now) }
    {
        Ok(match self {
            Entry::Boot { leader, own } => Entry::Boot {
                leader: *leader,
                own: *own,
            },
            Entry::Seq { seq, at } => Entry::Seq { seq: *seq, at: *at },
            Entry::View(picture) => Entry::View(picture.copy()?),
            Entry::Step(slices) => Entry::Step(slices.copy()?),
            Entry::Gone { epoch } => Entry::Gone { epoch: *epoch },
            Entry::Item { epoch, changes } => Entry::Item {
                epoch: *epoch,
                changes: changes.copy()?,
            },
            Entry::Base {
                epoch,
                next_region,
                retired,
                rows,
                changes,
            } => Entry::Base {
                epoch: *epoch,
                next_region: *next_region,
                retired: retired.copy()?,
                rows: rows.copy()?,
                changes: changes.copy()?,
            },
        })
    }
}
