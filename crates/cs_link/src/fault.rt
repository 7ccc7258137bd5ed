ghost use Rattle.std.specs.Prelude.{◌≡◌};
ghost use Rattle.cs_link.specs.declared.fault.GroundFault.TheVariants.{Memory};

use std::alloc::AllocError;
use thiserror::Error;

/// Why no link and log are granted.
#[derive(Clone, Copy, Debug, PartialEq, Eq, Drop, Error)]
pub enum GroundFault {
    #[error("no link and log could be made")]
    Failed,
    #[error("out of memory")]
    Memory,
}

impl From<AllocError> for GroundFault {
    ghost from_gives = { λ _ fault. fault ≡ Memory };

    fn from(_error: AllocError) -> GroundFault {
        GroundFault::Memory
    }
}
