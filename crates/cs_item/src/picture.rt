ghost use Rattle.std.specs.Prelude.{◌≡◌, IfOk};

use crate::{Regions, Rolls};
use cs_base::Epoch;
use std::alloc::AllocError;

/// The summaries of an epoch's regions, and the rolls of some of them.
#[derive(Debug, Drop)]
pub struct Picture {
    pub epoch: Epoch,
    pub summaries: Regions,
    pub rolls: Rolls,
}

impl Picture {
    pub fn copy(&self) -> Result<Self, AllocError>
        ensures { IfOk result (λ copy. copy ≡ self.now) }
    {
        Ok(Picture {
            epoch: self.epoch,
            summaries: self.summaries.copy()?,
            rolls: self.rolls.copy()?,
        })
    }
}
