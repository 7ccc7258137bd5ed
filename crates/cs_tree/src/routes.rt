//! To whom a node passes a piece on. The rules offer targets in their order, and of those that one id was offered with
//! the first stays.
ghost use Rattle.std.specs.Prelude.{◌≡◌, ℕ, ◌++◌, ◌<◌, ◌≤◌, ◌==◌, length, IsSome, Some, slice_get};
ghost use Rattle.std.specs.Prelude.{IfOk, OnOk, IfSome};
ghost use Rattle.std.specs.Option.{option_copied};
ghost use Rattle.std.specs.List.{filter_map, find, list_any};
ghost use Rattle.cs_base.specs.Limits.{colours, most_summed};
ghost use Rattle.cs_base.specs.declared.member.Member.{Member};
ghost use Rattle.cs_roll.specs.Roll.{IsRoll, member_of};
ghost use Rattle.cs_roll.specs.Sight.{at_region};
ghost use Rattle.cs_roll.specs.Summary.{RegionSummary};
ghost use Rattle.cs_tree.specs.Colour.{representative, members_of_colour};
ghost use Rattle.cs_tree.specs.Inter.{inter_tree};
ghost use Rattle.cs_tree.specs.Route.{target_of, representative_at, is_node, way_up, is_parent, passed_below};
ghost use Rattle.cs_tree.specs.Route.{to_regions, to_root, members_with, to_known, route};
ghost use Rattle.cs_tree.specs.Standing.{standings};

use crate::colour::representative;
use crate::standing::HasStandings;
use crate::{Targets, Tree, inter_uncounted, local_uncounted};
use cs_base::{Addr, COLOURS, Member, NodeId, RegionId};
use cs_roll::{Roll, Sight};
use std::alloc::{AllocError, Global};

/// The representative of a region.
pub(crate) fn representative_at<V: Sight>(sight: &V, region: u32, colour: u8) -> Option<Member>
    requires { colour < colours }
    ensures { result ≡ representative_at colour (V.summaries sight.now) region }
{
    for i in 0..sight.count() {
        if sight.region(i).get() == region {
            return Some(representative(sight.summary(i), colour));
        }
    }
    None
}

// Whether a node represents some region. One that represents none has no target by the first rule.
fn represents_any<V: Sight>(me: NodeId, sight: &V, colour: u8) -> bool
    requires { colour < colours }
    ensures { result ≡ list_any (λ (above : ℕ × RegionSummary). is_node me (representative colour above.1))
        (V.summaries sight.now) }
{
    for i in 0..sight.count() {
        let member = representative(sight.summary(i), colour);
        if member.id == me {
            return true;
        }
    }
    false
}

// The child of one region on the way up to it from another, of so many steps at most.
fn child_towards(tree: &Tree, steps: usize, above: u32, region: u32) -> Option<u32>
    ensures { result ≡ find (is_parent tree.now.edges above) (way_up steps tree.now.edges (Some region)) }
{
    let mut key = region;
    for _step in 0..steps {
        let parent = tree.parent(key)?;
        if parent == above {
            return Some(key);
        }
        key = parent;
    }
    None
}

// The representative of the next region below the one at a place, where the node represents that one.
fn passed_below<V: Sight, S: HasStandings>(
    me: NodeId,
    sight: &V,
    represented: &S,
    tree: &Tree,
    region: RegionId,
    colour: u8,
    place: usize,
) -> Option<(NodeId, Addr)>
    requires colour { colour < colours }
    requires place { place < length (V.summaries sight.now) }
    requires represented { S.standings represented.now ≡ standings (V.summaries sight.now) }
    ensures { (above : ℕ × RegionSummary) → slice_get (V.summaries sight.now) place ≡ Some above →
        result ≡ passed_below me (V.summaries sight.now) tree.now.edges region colour above }
{
    if !represented.stands_at(me, place, colour) {
        return None;
    }
    let above = sight.region(place).get();
    let child = child_towards(tree, sight.count(), above, region.get())?;
    let next = representative_at(sight, child, colour)?;
    Some((next.id, next.addr))
}

/// Appends the targets of the first rule.
pub(crate) fn append_regions<V: Sight, S: HasStandings>(
    offered: &mut Vec<(NodeId, Addr)>,
    me: NodeId,
    sight: &V,
    represented: &S,
    tree: &Tree,
    region: RegionId,
    colour: u8,
) -> Result<(), AllocError>
    requires colour { colour < colours }
    requires represented { S.standings represented.now ≡ standings (V.summaries sight.now) }
    ensures { OnOk result (offered.new.items
        ≡ offered.old.items ++ to_regions me (V.summaries sight.now) region colour (Some tree.now)) }
{
    for i in 0..sight.count() {
        if let Some(target) = passed_below(me, sight, represented, tree, region, colour, i) {
            offered.push(target)?;
        }
    }
    Ok(())
}

/// The roll of a region, where it is known. It has members, few enough to be summed.
pub(crate) fn known_roll<V: Sight>(sight: &V, region: RegionId) -> Option<&Roll>
    ensures value { option_copied result ≡ at_region region (V.rolls sight.now) }
    ensures some { IfSome result (λ roll. 0 < length roll.now) }
    ensures few { IfSome result (λ roll. length roll.now ≤ most_summed) }
{
    // The count tells what holds of the sight.
    let _count = sight.count();
    sight.roll(region)
}

// The member with an id.
fn member_with(roll: &Roll, id: u32) -> Option<Member>
    ensures { result ≡ member_of id roll.now }
{
    let members = roll.as_slice();
    match members.binary_search_by_key(&id, |m| m.id.get()) {
        Ok(place) => Some(members[place]),
        Err(_) => None,
    }
}

// Whether a node is a member of the colour. One that isn't has no children in the tree of the colour.
fn is_inside(roll: &Roll, id: u32, colour: usize) -> bool
    ensures value { result ≡ list_any (λ (member : Member). member.id == id) (members_of_colour colour roll.now) }
    ensures roll { IsRoll roll.now }
{
    let members = roll.as_slice();
    match members.binary_search_by_key(&id, |m| m.id.get()) {
        Ok(place) => place % COLOURS == colour,
        Err(_) => false,
    }
}

/// Appends the targets that are the members with these ids.
pub(crate) fn append_members(
    offered: &mut Vec<(NodeId, Addr)>,
    roll: &Roll,
    ids: &[u32],
) -> Result<(), AllocError>
    ensures { OnOk result (offered.new.items ≡ offered.old.items ++ members_with roll.now ids.now) }
{
    for id in ids {
        if let Some(member) = member_with(roll, *id) {
            offered.push((member.id, member.addr))?;
        }
    }
    Ok(())
}

/// Appends the target of the second rule.
pub(crate) fn append_root(
    offered: &mut Vec<(NodeId, Addr)>,
    me: NodeId,
    is_representative: bool,
    roll: &Roll,
    tree: &Tree,
) -> Result<(), AllocError>
    ensures { OnOk result (offered.new.items
        ≡ offered.old.items ++ members_with roll.now (to_root me is_representative tree.now)) }
{
    let root = tree.root();
    if is_representative && root != me.get() {
        append_members(offered, roll, &[root])?;
    }
    Ok(())
}

// Appends the targets of the second and the third rule, in a region whose roll is known. Its tree takes long, and is
// made only for a node that these rules may give some.
fn append_known(
    alloc: Global,
    offered: &mut Vec<(NodeId, Addr)>,
    me: NodeId,
    is_representative: bool,
    roll: &Roll,
    colour: u8,
) -> Result<(), AllocError>
    requires some { 0 < length roll.now }
    requires few { length roll.now ≤ most_summed }
    ensures { OnOk result (offered.new.items
        ≡ offered.old.items ++ to_known me is_representative colour (Some roll.now)) }
{
    let trees = roll.len().min(COLOURS);
    let colour = usize::from(colour) % trees;
    if !is_representative && !is_inside(roll, me.get(), colour) {
        return Ok(());
    }
    if let Some(tree) = local_uncounted(alloc, roll, colour as u8)? {
        append_root(offered, me, is_representative, roll, &tree)?;
        append_members(offered, roll, tree.children(me.get()))?;
    }
    Ok(())
}

/// Whether a node represents a region.
pub(crate) fn represents<V: Sight>(me: NodeId, sight: &V, region: RegionId, colour: u8) -> bool
    requires { colour < colours }
    ensures { result ≡ is_node me (representative_at colour (V.summaries sight.now) region) }
{
    match representative_at(sight, region.get(), colour) {
        Some(representative) => representative.id == me,
        None => false,
    }
}

// Appends the targets of these two rules, where the roll is known.
fn append_in_region<V: Sight>(
    alloc: Global,
    offered: &mut Vec<(NodeId, Addr)>,
    me: NodeId,
    sight: &V,
    region: RegionId,
    colour: u8,
) -> Result<(), AllocError>
    requires { colour < colours }
    ensures { let stands = is_node me (representative_at colour (V.summaries sight.now) region) in
        OnOk result (offered.new.items
        ≡ offered.old.items ++ to_known me stands colour (at_region region (V.rolls sight.now))) }
{
    let is_representative = represents(me, sight, region, colour);
    if let Some(roll) = known_roll(sight, region) {
        append_known(alloc, offered, me, is_representative, roll, colour)?;
    }
    Ok(())
}

// The targets of all rules, where those of the first one were offered.
fn with_members<V: Sight>(
    alloc: Global,
    mut offered: Vec<(NodeId, Addr)>,
    me: NodeId,
    sight: &V,
    region: RegionId,
    colour: u8,
) -> Result<Targets, AllocError>
    requires colour { colour < colours }
    requires offered { let summaries = V.summaries sight.now in
        offered.items ≡ to_regions me summaries region colour (inter_tree colour summaries) }
    ensures { IfOk result (λ targets. targets
        ≡ route me (V.summaries sight.now) (V.rolls sight.now) region colour) }
{
    append_in_region(alloc, &mut offered, me, sight, region, colour)?;
    Targets::each_once(alloc, &offered)
}

/// Whom a node passes a piece of a region and a colour on to, by what it sees of the group before the piece's epoch.
///
/// A node that represents a region above that of the piece passes it on to the representative of the next region
/// down; one that represents the piece's region to the root of its local tree; and a member to its children there.
pub fn route<V: Sight>(
    alloc: Global,
    me: NodeId,
    sight: &V,
    region: RegionId,
    colour: u8,
) -> Result<Targets, AllocError>
    requires colour { colour < colours }
    requires listed { IsSome (at_region region (V.summaries sight.now)) }
    ensures { IfOk result (λ targets. targets
        ≡ route me (V.summaries sight.now) (V.rolls sight.now) region colour) }
{
    // Most nodes represent no region, and the tree takes long.
    if represents_any(me, sight, colour) {
        let tree = inter_uncounted(alloc, sight, colour)?;
        return route_along(alloc, me, sight, &tree, region, colour);
    }
    with_members(alloc, Vec::new(alloc), me, sight, region, colour)
}

/// The same, where the inter-region tree of the colour was made before.
pub fn route_along<V: Sight>(
    alloc: Global,
    me: NodeId,
    sight: &V,
    tree: &Tree,
    region: RegionId,
    colour: u8,
) -> Result<Targets, AllocError>
    requires colour { colour < colours }
    requires tree { inter_tree colour (V.summaries sight.now) ≡ Some tree.now }
    ensures { IfOk result (λ targets. targets
        ≡ route me (V.summaries sight.now) (V.rolls sight.now) region colour) }
{
    let mut offered = Vec::new(alloc);
    append_regions(&mut offered, me, sight, sight, tree, region, colour)?;
    with_members(alloc, offered, me, sight, region, colour)
}
