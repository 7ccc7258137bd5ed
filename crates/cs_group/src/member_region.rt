ghost use Rattle.std.specs.Prelude.{◌≡◌};

use cs_base::{NodeId, RegionId};
use cs_shared::Ranked;

/// The region of a member: what the index of a group has of each id.
#[derive(Clone, Copy, Debug, PartialEq, Eq)]
pub struct MemberRegion {
    pub id: NodeId,
    pub region: RegionId,
}

/// The index is ranked by id.
impl Ranked for MemberRegion {
    ghost rank_of = { λ entry. entry.id };

    fn rank(&self) -> u64 {
        u64::from(self.id.get())
    }
}
