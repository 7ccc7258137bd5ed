ghost use Rattle.std.specs.Prelude.{◌≡◌, ◌<◌, length, Some, slice_get};
ghost use Rattle.std.specs.Option.{option_copied, option_map};
ghost use Rattle.cs_roll.specs.Sight.{Summaries, Rolls, IsSight, at_region};

use crate::{Roll, Summary};
use cs_base::RegionId;

/// What can be seen of a group: the summary of each region, ascending by region, and the rolls of the known
/// ones.
pub trait Sight {
    /// The summary of each region.
    ghost summaries: { Self → Summaries };

    /// The rolls of the known regions.
    ghost rolls: { Self → Rolls };

    /// How many regions there are.
    fn count(&self) -> usize
        ensures count { result ≡ length (summaries self.now) }
        ensures sight { IsSight (summaries self.now) (rolls self.now) };

    /// The region at a place, from 0.
    fn region(&self, i: usize) -> RegionId
        requires { i < length (summaries self.now) }
        ensures { option_map (λ pair. pair.0) (slice_get (summaries self.now) i) ≡ Some result };

    /// The summary of the region at a place, from 0.
    fn summary(&self, i: usize) -> &Summary
        requires { i < length (summaries self.now) }
        ensures { option_map (λ pair. pair.1) (slice_get (summaries self.now) i) ≡ Some result.now };

    /// The roll of a region, where it is known.
    fn roll(&self, r: RegionId) -> Option<&Roll>
        ensures { option_copied result ≡ at_region r (rolls self.now) };
}
