//! Whom the node that made a piece sends it to.
ghost use Rattle.std.specs.Prelude.{◌≡◌, ◌<◌, Some, IfOk};
ghost use Rattle.std.specs.Option.{option_to_list};
ghost use Rattle.cs_base.specs.Limits.{colours};
ghost use Rattle.cs_tree.specs.Inter.{inter_tree};
ghost use Rattle.cs_tree.specs.Start.{root_representative, to_inter_root, start};

use crate::routes::representative_at;
use crate::{Targets, Tree, route_along};
use cs_base::{Addr, NodeId, RegionId};
use cs_roll::Sight;
use std::alloc::{AllocError, Global};

// The representative of the root of the inter-region tree, unless that is the node itself.
fn inter_root<V: Sight>(me: NodeId, sight: &V, tree: &Tree, colour: u8) -> Option<(NodeId, Addr)>
    requires colour { colour < colours }
    requires tree { inter_tree colour (V.summaries sight.now) ≡ Some tree.now }
    ensures { option_to_list result ≡ to_inter_root me (root_representative colour (V.summaries sight.now)) }
{
    let root = representative_at(sight, tree.root(), colour)?;
    if root.id == me {
        return None;
    }
    Some((root.id, root.addr))
}

/// Whom the node that made a piece of a region and a colour sends it to, where the inter-region tree of the colour was
/// made before.
///
/// The piece goes to the representative of the root of that tree, from where it reaches every region, and along the
/// node's own route, since a node doesn't pass on a piece that it had before.
pub fn start<V: Sight>(
    alloc: Global,
    me: NodeId,
    sight: &V,
    tree: &Tree,
    region: RegionId,
    colour: u8,
) -> Result<Targets, AllocError>
    requires colour { colour < colours }
    requires tree { inter_tree colour (V.summaries sight.now) ≡ Some tree.now }
    ensures { IfOk result (λ targets. targets
        ≡ start me (V.summaries sight.now) (V.rolls sight.now) region colour) }
{
    let mut targets = route_along(alloc, me, sight, tree, region, colour)?;
    if let Some(root) = inter_root(me, sight, tree, colour) {
        targets.put(root)?;
    }
    Ok(targets)
}
