ghost use Rattle.std.specs.Prelude.{◌≡◌};
ghost use Rattle.cs_base.specs.Split.{is_lower, is_upper};

use crate::{Axis, Member, NodeId, RegionId};

/// Where a region is cut in two: a member is upper where the pair of its coordinate on the axis and its id
/// isn't below the pair (`at`, `id`). The coordinate is in microseconds.
#[derive(Clone, Copy, Debug, PartialEq, Eq)]
pub struct Split {
    pub axis: Axis,
    pub at: i32,
    pub id: NodeId,
}

/// A cut: the upper members become the region `upper`.
#[derive(Clone, Copy, Debug, PartialEq, Eq)]
pub struct Cut {
    pub split: Split,
    pub upper: RegionId,
}

impl Split {
    /// Whether the pair of the member's coordinate and its id is below the pair of the split.
    pub fn is_lower(&self, m: &Member) -> bool
        ensures { result ≡ is_lower self.now m.now }
    {
        (m.at.axis(self.axis), m.id) < (self.at, self.id)
    }

    /// Whether it isn't.
    pub fn is_upper(&self, m: &Member) -> bool
        ensures { result ≡ is_upper self.now m.now }
    {
        !self.is_lower(m)
    }
}
