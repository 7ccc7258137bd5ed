//! Lists of what stands beside regions, ascending by region.

ghost use Rattle.std.specs.Prelude.{◌≡◌, is_some, IfOk, IfErr, OnOk};
ghost use Rattle.cs_base.specs.Ascending.{IsAt, IsGap, placed_by};
ghost use Rattle.cs_roll.specs.Sight.{IsByRegion, at_region};

use cs_base::RegionId;
use cs_item::Beside;
use std::alloc::AllocError;

/// Where the region with this number is, or where it would go.
pub fn search<T>(pairs: &[(RegionId, T)], n: u32) -> Result<usize, usize>
    requires { IsByRegion pairs.now }
    ensures found { IfOk result (IsAt (λ pair. pair.0) n pairs.now) }
    ensures absent { IfErr result (IsGap (λ pair. pair.0) n pairs.now) }
{
    pairs.binary_search_by_key(&n, |pair| pair.0.get())
}

/// Whether the region with this number is there.
pub fn has_region<T>(pairs: &[(RegionId, T)], n: u32) -> bool
    requires { IsByRegion pairs.now }
    ensures { result ≡ is_some (at_region n pairs.now) }
{
    search(pairs, n).is_ok()
}

/// Puts the pair in its place, instead of one of its region.
pub fn place<T: Beside>(
    pairs: &mut Vec<(RegionId, T)>,
    pair: (RegionId, T),
) -> Result<(), AllocError>
    requires { IsByRegion pairs.old.items }
    ensures placed { OnOk result (pairs.new.items ≡ placed_by (λ p. p.0) pair pairs.old.items) }
    ensures ascending { OnOk result (IsByRegion pairs.new.items) }
{
    match search(pairs, pair.0.get()) {
        Ok(place) => pairs[place] = pair,
        Err(place) => pairs.insert(place, pair)?,
    }
    Ok(())
}
