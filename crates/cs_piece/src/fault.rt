ghost use Rattle.std.specs.Prelude.{◌≡◌};
ghost use Rattle.cs_piece.specs.declared.fault.PieceFault.TheVariants.{Memory};

use std::alloc::AllocError;
use thiserror::Error;

/// Why three pieces don't give bytes.
#[derive(Clone, Copy, Debug, PartialEq, Eq, Drop, Error)]
pub enum PieceFault {
    /// An index is above 3, or two are equal.
    #[error("these are not three of the pieces 0 to 3")]
    Index,
    /// A piece ends within its first four bytes, the pieces say different lengths, or a block isn't as long as
    /// the length wants.
    #[error("the pieces do not have one length")]
    Length,
    /// A byte behind the last one isn't 0.
    #[error("a filling byte is not 0")]
    Padding,
    #[error("out of memory")]
    Memory,
}

impl From<AllocError> for PieceFault {
    ghost from_gives = { λ _ fault. fault ≡ Memory };

    fn from(_error: AllocError) -> PieceFault {
        PieceFault::Memory
    }
}
