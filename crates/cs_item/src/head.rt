ghost use Rattle.std.specs.Prelude.{◌≡◌, IfOk};

use crate::Regions;
use cs_base::{Epoch, Ids};
use std::alloc::AllocError;

/// What a new epoch tells every old region alike: the ids that left, the old regions that are gone, the summaries
/// that are new or differ, and the old regions whose members changed.
#[derive(Debug, Drop)]
pub struct Head {
    pub epoch: Epoch,
    pub left: Ids,
    pub dropped: Ids,
    pub summaries: Regions,
    pub touched: Ids,
}

impl Head {
    pub fn copy(&self) -> Result<Self, AllocError>
        ensures { IfOk result (λ copy. copy ≡ self.now) }
    {
        Ok(Head {
            epoch: self.epoch,
            left: self.left.copy()?,
            dropped: self.dropped.copy()?,
            summaries: self.summaries.copy()?,
            touched: self.touched.copy()?,
        })
    }
}
