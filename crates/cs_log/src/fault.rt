ghost use Rattle.std.specs.Prelude.{◌≡◌};
ghost use Rattle.cs_log.specs.declared.fault.ReadAllFault.TheVariants.{Memory};

use std::alloc::AllocError;
use thiserror::Error;

/// A log couldn't be written to, cut or synced.
#[derive(Clone, Copy, Debug, PartialEq, Eq)]
pub struct LogFailed;

/// Why a log isn't read.
#[derive(Clone, Copy, Debug, PartialEq, Eq, Drop, Error)]
pub enum ReadAllFault {
    #[error("the log could not be read")]
    Failed,
    #[error("out of memory")]
    Memory,
}

impl From<AllocError> for ReadAllFault {
    ghost from_gives = { λ _ fault. fault ≡ Memory };

    fn from(_error: AllocError) -> ReadAllFault {
        ReadAllFault::Memory
    }
}
