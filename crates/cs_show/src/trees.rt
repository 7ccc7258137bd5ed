//! The lines of trees: those of the regions, and those of the members of known regions.

ghost use Rattle.std.specs.Prelude.{◌≡◌, ℕ, ◌<◌, ◌++◌, length, Some, OnOk, option_to_list};
ghost use Rattle.std.specs.List.{flat_map};
ghost use Rattle.std.specs.Option.{option_map};
ghost use Rattle.std.specs.String.{string_bytes};
ghost use Rattle.cs_roll.specs.Sight.{IsSight};
ghost use Rattle.cs_tree.specs.Colour.{trees_of};
ghost use Rattle.cs_tree.specs.Inter.{inter_tree};
ghost use Rattle.cs_tree.specs.Kept.{kept_local, kept_trees};
ghost use Rattle.cs_tree.specs.Local.{local_tree};
ghost use Rattle.cs_show.specs.Block.{edges_text, inter_line, inter_lines, local_line, local_lines};
ghost use Rattle.cs_show.specs.Text.{text_of};

use crate::lines::put_number;
use cs_base::{COLOURS, Member, RegionId};
use cs_roll::{Roll, Sight};
use cs_tree::{
    Kept, Tree, inter_trees_are_good, inter_uncounted, kept_trees_are_the_trees,
    local_trees_are_good,
};
use cs_view::View;
use std::alloc::AllocError;
use std::fmt::Write;

/// The tree of the regions for each colour.
pub(crate) fn put_inters(out: &mut String, view: &View) -> Result<(), AllocError>
    ensures { OnOk result (string_bytes out.new
        ≡ string_bytes out.old ++ text_of (inter_lines view.now.summaries)) }
{
    // The contracts say what every view keeps: it lists some region, and it is a sight.
    let (_known, _count) = (view.known(), view.count());
    for colour in 0..COLOURS as u8 {
        let tree = inter_uncounted(*out.allocator(), view, colour)?;
        put_inter(out, view, colour, &tree)?;
    }
    Ok(())
}

/// The tree of the regions for each colour, as it is kept.
pub(crate) fn put_kept_inters(out: &mut String, view: &View, kept: &Kept) -> Result<(), AllocError>
    requires { kept.now ≡ kept_trees view.now.summaries view.now.rolls }
    ensures { OnOk result (string_bytes out.new
        ≡ string_bytes out.old ++ text_of (inter_lines view.now.summaries)) }
{
    // The contracts say what every view keeps: it lists some region, and it is a sight.
    let (_known, _count) = (view.known(), view.count());
    kept_trees_are_the_trees();
    for colour in 0..COLOURS as u8 {
        put_inter(out, view, colour, kept.inter_tree(colour))?;
    }
    Ok(())
}

// The tree of the regions for a colour.
fn put_inter(out: &mut String, view: &View, colour: u8, tree: &Tree) -> Result<(), AllocError>
    requires sight { IsSight view.now.summaries view.now.rolls }
    requires tree { inter_tree colour view.now.summaries ≡ Some tree.now }
    ensures { OnOk result (string_bytes out.new ≡ string_bytes out.old
        ++ text_of (option_to_list (option_map (inter_line colour) (inter_tree colour view.now.summaries)))) }
{
    let root = tree.root();
    write!(out, "inter {colour} {root}")?;
    put_region_edges(out, view, tree)?;
    inter_trees_are_good();
    writeln!(out)
}

// The edges from each region.
fn put_region_edges(out: &mut String, view: &View, tree: &Tree) -> Result<(), AllocError>
    ensures { OnOk result (string_bytes out.new ≡ string_bytes out.old
        ++ flat_map (λ pair. edges_text tree.now.edges pair.0) view.now.summaries) }
{
    for place in 0..view.count() {
        put_edges(out, tree, view.region(place).get())?;
    }
    Ok(())
}

/// The local trees of the known regions.
pub(crate) fn put_locals(out: &mut String, view: &View, kept: &Kept) -> Result<(), AllocError>
    requires { kept.now ≡ kept_trees view.now.summaries view.now.rolls }
    ensures { OnOk result (string_bytes out.new
        ≡ string_bytes out.old ++ text_of (flat_map local_lines view.now.rolls)) }
{
    kept_trees_are_the_trees();
    for (region, roll) in view.known() {
        put_region_locals(out, kept, *region, roll)?;
    }
    Ok(())
}

// The local trees of a region.
fn put_region_locals(
    out: &mut String,
    kept: &Kept,
    region: RegionId,
    roll: &Roll,
) -> Result<(), AllocError>
    requires { (colour : ℕ) → colour < trees_of (length roll.now) →
        kept_local region colour kept.now ≡ local_tree colour roll.now }
    ensures { OnOk result (string_bytes out.new
        ≡ string_bytes out.old ++ text_of (local_lines (region, roll.now))) }
{
    for colour in 0..roll.len().min(COLOURS) as u8 {
        put_local(out, kept, region, roll, colour)?;
    }
    Ok(())
}

// The local tree of a region for a colour, where there is one.
fn put_local(
    out: &mut String,
    kept: &Kept,
    region: RegionId,
    roll: &Roll,
    colour: u8,
) -> Result<(), AllocError>
    requires { kept_local region colour kept.now ≡ local_tree colour roll.now }
    ensures { OnOk result (string_bytes out.new ≡ string_bytes out.old
        ++ text_of (option_to_list (option_map (local_line region colour) (local_tree colour roll.now)))) }
{
    let Some(tree) = kept.local_tree(region, colour) else {
        return Ok(());
    };
    let root = tree.root();
    write!(out, "local {region} {colour} {root}")?;
    put_member_edges(out, roll.as_slice(), tree)?;
    local_trees_are_good();
    writeln!(out)
}

// The edges from each member.
fn put_member_edges(out: &mut String, members: &[Member], tree: &Tree) -> Result<(), AllocError>
    ensures { OnOk result (string_bytes out.new
        ≡ string_bytes out.old ++ flat_map (λ m. edges_text tree.now.edges m.id) members.now) }
{
    for member in members {
        put_edges(out, tree, member.id.get())?;
    }
    Ok(())
}

// The edges from a key to its children, each after a space.
fn put_edges(out: &mut String, tree: &Tree, key: u32) -> Result<(), AllocError>
    ensures { OnOk result (string_bytes out.new ≡ string_bytes out.old ++ edges_text tree.now.edges key) }
{
    for child in tree.children(key) {
        put_number(out, ' ', key)?;
        put_number(out, '>', *child)?;
    }
    Ok(())
}
