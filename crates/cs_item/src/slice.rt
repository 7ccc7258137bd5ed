ghost use Rattle.std.specs.Prelude.{◌≡◌, IfOk};

use crate::{Head, Part};
use cs_base::{Copied, Keyed};
use std::alloc::AllocError;

/// What a new epoch tells one old region, which is the region of the part.
#[derive(Debug, Drop)]
pub struct Slice {
    pub head: Head,
    pub part: Part,
}

/// A list of slices ascends by region.
impl Keyed for Slice {
    ghost use Rattle.cs_base.specs.Ranges.{IsRegion};

    ghost key_of = { λ s. s.part.region };

    ghost IsAllowed = { λ s. IsRegion s.part.region };

    fn key(&self) -> u32 {
        self.part.key()
    }
}

impl Copied for Slice {
    fn copied(&self) -> Result<Self, AllocError> {
        self.copy()
    }
}

impl Slice {
    pub fn copy(&self) -> Result<Self, AllocError>
        ensures { IfOk result (λ copy. copy ≡ self.now) }
    {
        Ok(Slice {
            head: self.head.copy()?,
            part: self.part.copy()?,
        })
    }
}
