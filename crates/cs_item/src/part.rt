ghost use Rattle.std.specs.Prelude.{◌≡◌, IfOk};

use cs_base::{Copied, Cut, Ids, Keyed, RegionId};
use cs_roll::Roll;
use std::alloc::AllocError;

/// What a new epoch tells one old region: what its members become, and whether they are cut in two then. A region
/// that stays the same isn't cut.
#[derive(Debug, Drop)]
pub struct Part {
    pub region: RegionId,
    pub kind: PartKind,
    pub cut: Option<Cut>,
}

/// What becomes of the members of an old region.
#[derive(Debug, Drop)]
pub enum PartKind {
    Same,
    /// The ids in `gone` go out, and the members in `here` are put in.
    Diff { gone: Ids, here: Roll },
    /// The region was merged into another one, which has this roll.
    Whole { into: RegionId, roll: Roll },
}

/// A list of parts ascends by region.
impl Keyed for Part {
    ghost use Rattle.cs_base.specs.Ranges.{IsRegion};

    ghost key_of = { λ p. p.region };

    ghost IsAllowed = { λ p. IsRegion p.region };

    fn key(&self) -> u32 {
        self.region.get()
    }
}

impl Copied for Part {
    fn copied(&self) -> Result<Self, AllocError> {
        self.copy()
    }
}

impl Part {
    pub fn copy(&self) -> Result<Self, AllocError>
        ensures { IfOk result (λ copy. copy ≡ self.now) }
    {
        Ok(Part {
            region: self.region,
            kind: self.kind.copy()?,
            cut: self.cut,
        })
    }
}

impl PartKind {
    pub fn copy(&self) -> Result<Self, AllocError>
        ensures { IfOk result (λ copy. copy ≡ self.now) }
    {
        match self {
            PartKind::Same => Ok(PartKind::Same),
            PartKind::Diff { gone, here } => Ok(PartKind::Diff {
                gone: gone.copy()?,
                here: here.copy()?,
            }),
            PartKind::Whole { into, roll } => Ok(PartKind::Whole {
                into: *into,
                roll: roll.copy()?,
            }),
        }
    }
}
