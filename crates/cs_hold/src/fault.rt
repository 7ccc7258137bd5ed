ghost use Rattle.std.specs.Prelude.{◌≡◌};
ghost use Rattle.cs_hold.specs.declared.fault.HoldFault.TheVariants.{Memory};

use cs_piece::PieceFault;
use std::alloc::AllocError;
use thiserror::Error;

/// Why a piece isn't taken.
#[derive(Clone, Copy, Debug, PartialEq, Eq, Drop, Error)]
pub enum HoldFault {
    /// It is the third of its region, and doesn't fit the two others.
    #[error("a piece does not fit the other two")]
    Piece(PieceFault),
    #[error("out of memory")]
    Memory,
}

impl From<AllocError> for HoldFault {
    ghost from_gives = { λ _ fault. fault ≡ Memory };

    fn from(_error: AllocError) -> HoldFault {
        HoldFault::Memory
    }
}
