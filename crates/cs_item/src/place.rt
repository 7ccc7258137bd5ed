ghost use Rattle.std.specs.Prelude.{◌≡◌, ◌<◌, length, IfSome, slice_get};
ghost use Rattle.std.specs.Option.{option_and_then, option_map};
ghost use Rattle.cs_roll.specs.Sight.{IsByRegion, at_region};

use cs_base::RegionId;

/// Where the region stands in the ascending list.
pub fn place_of<T>(pairs: &[(RegionId, T)], region: RegionId) -> Option<usize>
    requires { IsByRegion pairs.now }
    ensures within { IfSome result (λ place. place < length pairs.now) }
    ensures found { option_and_then (λ place. option_map (λ pair. pair.1) (slice_get pairs.now place)) result
        ≡ at_region region pairs.now }
{
    pairs.binary_search_by_key(&region, |pair| pair.0).ok()
}
