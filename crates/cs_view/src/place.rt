//! Where a view has a member.

ghost use Rattle.std.specs.Prelude.{◌≡◌};
ghost use Rattle.cs_view.specs.Place.{member_at, place_in_globals, place_in_rolls};

use cs_base::{Member, NodeId, RegionId};
use cs_roll::{Roll, Summary};

// The region with its member of this id.
fn member_at(id: NodeId, region: RegionId, members: &Roll) -> Option<(RegionId, Member)>
    ensures { result ≡ member_at id (region, members.now) }
{
    let member = members.find(id)?;
    Some((region, *member))
}

/// The first such one among the rolls.
pub fn place_in_rolls(id: NodeId, rolls: &[(RegionId, Roll)]) -> Option<(RegionId, Member)>
    ensures { result ≡ place_in_rolls id rolls.now }
{
    for (region, roll) in rolls {
        if let Some(place) = member_at(id, *region, roll) {
            return Some(place);
        }
    }
    None
}

/// The first such one among the globals.
pub fn place_in_globals(id: NodeId, summaries: &[(RegionId, Summary)]) -> Option<(RegionId, Member)>
    ensures { result ≡ place_in_globals id summaries.now }
{
    for (region, summary) in summaries {
        if let Some(place) = member_at(id, *region, &summary.globals) {
            return Some(place);
        }
    }
    None
}
