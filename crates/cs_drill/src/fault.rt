ghost use Rattle.std.specs.Prelude.{◌≡◌};
ghost use Rattle.cs_drill.specs.declared.fault.DrillFault.TheVariants.{Memory};

use std::alloc::AllocError;
use thiserror::Error;

/// Why there is no schedule.
#[derive(Clone, Copy, Debug, PartialEq, Eq, Drop, Error)]
pub enum DrillFault {
    #[error("a drill has from 2 to 1,000 nodes")]
    Range,
    #[error("out of memory")]
    Memory,
}

impl From<AllocError> for DrillFault {
    ghost from_gives = { λ _ fault. fault ≡ Memory };

    fn from(_error: AllocError) -> DrillFault {
        DrillFault::Memory
    }
}
