//! Routes along trees that are kept.
ghost use Rattle.std.specs.Prelude.{◌≡◌, ◌++◌, ◌<◌, length, IsSome, Some, IfOk, OnOk};
ghost use Rattle.cs_base.specs.Limits.{colours};
ghost use Rattle.cs_roll.specs.Sight.{at_region};
ghost use Rattle.cs_tree.specs.Kept.{kept_trees, known_trees};
ghost use Rattle.cs_tree.specs.Local.{local_trees};
ghost use Rattle.cs_tree.specs.Route.{representative_at, is_node, to_known, route};
ghost use Rattle.cs_tree.specs.Standing.{standings};

use crate::routes::{append_members, append_regions, append_root, known_roll};
use crate::standing::HasStandings;
use crate::{Kept, Targets};
use cs_base::{Addr, COLOURS, NodeId, RegionId};
use cs_roll::{Roll, Sight};
use std::alloc::{AllocError, Global};

// Appends the targets of the second and the third rule, in a region whose roll is known.
fn append_known(
    offered: &mut Vec<(NodeId, Addr)>,
    me: NodeId,
    is_representative: bool,
    kept: &Kept,
    region: RegionId,
    roll: &Roll,
    colour: u8,
) -> Result<(), AllocError>
    requires some { 0 < length roll.now }
    requires kept { at_region region kept.now.within ≡ Some (local_trees roll.now) }
    ensures { OnOk result (offered.new.items
        ≡ offered.old.items ++ to_known me is_representative colour (Some roll.now)) }
{
    let trees = roll.len().min(COLOURS);
    let colour = usize::from(colour) % trees;
    if let Some(tree) = kept.local_tree(region, colour as u8) {
        append_root(offered, me, is_representative, roll, tree)?;
        append_members(offered, roll, tree.children(me.get()))?;
    }
    Ok(())
}

// Appends the targets of these two rules, where the roll is known.
fn append_in_region<V: Sight, S: HasStandings>(
    offered: &mut Vec<(NodeId, Addr)>,
    me: NodeId,
    sight: &V,
    represented: &S,
    kept: &Kept,
    region: RegionId,
    colour: u8,
) -> Result<(), AllocError>
    requires kept { kept.now.within ≡ known_trees (V.rolls sight.now) }
    requires represented { S.standings represented.now ≡ standings (V.summaries sight.now) }
    requires colour { colour < colours }
    ensures { let stands = is_node me (representative_at colour (V.summaries sight.now) region) in
        OnOk result (offered.new.items
        ≡ offered.old.items ++ to_known me stands colour (at_region region (V.rolls sight.now))) }
{
    // The count tells what holds of the sight.
    let _count = sight.count();
    let is_representative = represented.stands_for(me, region, colour);
    if let Some(roll) = known_roll(sight, region) {
        append_known(offered, me, is_representative, kept, region, roll, colour)?;
    }
    Ok(())
}

impl Kept {
    /// As `route`, along the kept trees.
    pub fn route<V: Sight>(
        &self,
        me: NodeId,
        sight: &V,
        region: RegionId,
        colour: u8,
    ) -> Result<Targets, AllocError>
        requires kept { self.now ≡ kept_trees (V.summaries sight.now) (V.rolls sight.now) }
        requires colour { colour < colours }
        requires listed { IsSome (at_region region (V.summaries sight.now)) }
        ensures { IfOk result (λ targets. targets
            ≡ route me (V.summaries sight.now) (V.rolls sight.now) region colour) }
    {
        self.route_by(me, sight, sight, region, colour)
    }

    /// The same, where it was found before which node represents each region.
    pub(crate) fn route_by<V: Sight, S: HasStandings>(
        &self,
        me: NodeId,
        sight: &V,
        represented: &S,
        region: RegionId,
        colour: u8,
    ) -> Result<Targets, AllocError>
        requires kept { self.now ≡ kept_trees (V.summaries sight.now) (V.rolls sight.now) }
        requires represented { S.standings represented.now ≡ standings (V.summaries sight.now) }
        requires colour { colour < colours }
        requires listed { IsSome (at_region region (V.summaries sight.now)) }
        ensures { IfOk result (λ targets. targets
            ≡ route me (V.summaries sight.now) (V.rolls sight.now) region colour) }
    {
        // The count tells what holds of the sight.
        let _count = sight.count();
        let mut offered = Vec::new(self.allocator());
        let tree = self.inter_tree(colour);
        append_regions(&mut offered, me, sight, represented, tree, region, colour)?;
        append_in_region(&mut offered, me, sight, represented, self, region, colour)?;
        Targets::each_once(self.allocator(), &offered)
    }
}
