ghost use Rattle.std.specs.Prelude.{◌≡◌, ◌+◌, ◌<◌, ◌≤◌, ◌∷◌, [], ◌++◌, length, take, Some, IfOk};
ghost use Rattle.cs_base.specs.Limits.{colours};
ghost use Rattle.cs_roll.specs.Sight.{IsSight};
ghost use Rattle.cs_tree.specs.Building.{number_of_keys};
ghost use Rattle.cs_tree.specs.Inter.{region_points, inter_tree};

use crate::colour::representative;
use crate::grow::tree_of;
use crate::region_point::RegionPoint;
use crate::{Steps, Tree};
use cs_roll::Sight;
use std::alloc::{AllocError, Global};
use std::sync::ledger::Ledger;

/// The region at a place, from 0, at the point of its representative. It comes next after those before it.
pub(crate) fn region_point<V: Sight>(sight: &V, i: usize, colour: u8) -> RegionPoint
    requires colour { colour < colours }
    requires place { i < length (V.summaries sight.now) }
    ensures { region_points colour (take (i + 1) (V.summaries sight.now))
        ≡ region_points colour (take i (V.summaries sight.now)) ++ result ∷ [] }
{
    let region = sight.region(i);
    let at = representative(sight.summary(i), colour).at;
    RegionPoint { region, at }
}

/// The regions, each at the point of its representative.
pub(crate) fn region_points<V: Sight>(
    alloc: Global,
    sight: &V,
    colour: u8,
) -> Result<Vec<RegionPoint>, AllocError>
    requires { colour < colours }
    ensures points { IfOk result (λ points. points.items ≡ region_points colour (V.summaries sight.now)) }
    ensures sight { IfOk result (λ _. IsSight (V.summaries sight.now) (V.rolls sight.now)) }
{
    let regions = sight.count();
    let mut points = Vec::with_capacity(alloc, regions)?;
    for i in 0..regions {
        points.push(region_point(sight, i, colour))?;
    }
    Ok(points)
}

/// The tree of the regions for a colour, each at the point of its representative. It takes a step for each of its
/// keys.
pub fn inter<V: Sight, L: Ledger>(
    alloc: Global,
    sight: &V,
    colour: u8,
    steps: &mut Steps<L>,
) -> Result<Tree, AllocError>
    requires colour { colour < colours }
    requires some { 0 < length (V.summaries sight.now) }
    ensures value { IfOk result (λ tree. inter_tree colour (V.summaries sight.now) ≡ Some tree) }
    ensures steps { IfOk result (λ tree. steps.new ≡ steps.old + number_of_keys tree) }
    ensures most { steps.new ≤ steps.old + length (V.summaries sight.now) }
{
    let mut points = region_points(alloc, sight, colour)?;
    let tree = tree_of(alloc, &mut points, &mut [], steps)?;
    Ok(tree.unwrap())
}
