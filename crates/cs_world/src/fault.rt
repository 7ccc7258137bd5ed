ghost use Rattle.std.specs.Prelude.{◌≡◌};
ghost use Rattle.cs_link.specs.declared.fault.GroundFault.TheVariants as ground_faults;
ghost use Rattle.cs_world.specs.declared.fault.WorldFault.TheVariants.{Link, Memory};

use cs_link::{GroundFault, LinkFailed};
use std::alloc::AllocError;
use thiserror::Error;

/// Why an event has no place in a run.
#[derive(Clone, Copy, Debug, PartialEq, Eq, Drop, Error)]
pub enum WorldFault {
    /// With it more bytes would be sent than a run may send.
    #[error("more bytes are sent than a run may send")]
    Limit,
    /// A link failed, or none could be granted.
    #[error("a link failed")]
    Link,
    /// A log failed.
    #[error("a log failed")]
    Log,
    #[error("out of memory")]
    Memory,
}

impl From<AllocError> for WorldFault {
    ghost from_gives = { λ _ fault. fault ≡ Memory };

    fn from(_refused: AllocError) -> WorldFault {
        WorldFault::Memory
    }
}

impl From<LinkFailed> for WorldFault {
    ghost from_gives = { λ _ fault. fault ≡ Link };

    fn from(_failed: LinkFailed) -> WorldFault {
        WorldFault::Link
    }
}

impl From<GroundFault> for WorldFault {
    ghost from_gives = { λ refused fault. (refused ≡ ground_faults.Failed → fault ≡ Link)
        × (refused ≡ ground_faults.Memory → fault ≡ Memory) };

    fn from(refused: GroundFault) -> WorldFault {
        match refused {
            GroundFault::Failed => WorldFault::Link,
            GroundFault::Memory => WorldFault::Memory,
        }
    }
}
