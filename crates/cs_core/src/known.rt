ghost use Rattle.std.specs.Prelude.{◌≡◌};
ghost use Rattle.std.specs.List.{list_all};
ghost use Rattle.cs_core.specs.Snapshots.{knows};
ghost use Rattle.cs_view.specs.Step.{is_known};

use cs_base::RegionId;
use cs_roll::{Roll, Sight};
use cs_view::View;

/// Whether the roll of a region is known.
pub(crate) fn is_known(view: &View, region: RegionId) -> bool
    ensures { result ≡ is_known view.now.rolls region }
{
    view.roll(region).is_some()
}

/// Whether the region of each of these rolls is known.
pub(crate) fn knows(view: &View, rolls: &[(RegionId, Roll)]) -> bool
    ensures { result ≡ knows view.now.rolls rolls.now }
{
    rolls.iter().all(|pair| is_known(view, pair.0))
}
