ghost use Rattle.std.specs.Prelude.{◌≡◌};
ghost use Rattle.cs_view.specs.declared.fault.ViewFault.TheVariants.{Memory};

use cs_base::{Epoch, RegionId};
use std::alloc::AllocError;
use thiserror::Error;

/// Why a picture isn't taken as a view, or a view makes no step: the first that fits, in the order that `take` and
/// `apply` state.
#[derive(Clone, Copy, Debug, PartialEq, Eq, Drop, Error)]
pub enum ViewFault {
    /// The head isn't that of the next epoch.
    #[error("the epoch isn't the one after that of the view")]
    Epoch { have: Epoch, given: Epoch },
    /// The least dropped or touched region that the view doesn't list.
    #[error("a dropped or touched region isn't listed")]
    Region(u32),
    /// The least touched known region that has no part.
    #[error("a touched region that is known has no part")]
    Missing(RegionId),
    /// The least known region whose roll doesn't have all who go out.
    #[error("a part takes out an id that its region doesn't have")]
    Part(RegionId),
    /// The least region of a roll that has no members, isn't listed, or has another summary than the listed one.
    #[error("a roll isn't the one that its region's summary is of")]
    Roll(RegionId),
    #[error("a view has no region, or too many regions or members")]
    Size,
    #[error("no roll has the node")]
    Absent,
    #[error("out of memory")]
    Memory,
}

impl From<AllocError> for ViewFault {
    ghost from_gives = { λ _ fault. fault ≡ Memory };

    fn from(_error: AllocError) -> ViewFault {
        ViewFault::Memory
    }
}
