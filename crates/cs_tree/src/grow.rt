//! How a tree is made: its root is found, what is left and right below it is cut off, and both sides grow likewise.
ghost use Rattle.std.specs.Prelude.{◌≡◌, ℕ, ◌+◌, ◌≤◌, ◌++◌, length, map, option_to_list};
ghost use Rattle.std.specs.Prelude.{Contains, IfOk, OnOk};
ghost use Rattle.cs_base.specs.Limits.{most_summed};
ghost use Rattle.cs_tree.specs.Building.{HasRoom, number_of_keys_in, placed_keys, placements_of, times};
ghost use Rattle.cs_tree.specs.Skeleton.{root_of, edges_down, tree_of};

use crate::placed::Placed;
use crate::sides::Sides;
use crate::{Builder, Steps, Tree};
use cs_base::Keyed;
use cs_near::{nearest, sum_of_points};
use std::alloc::{AllocError, Global};
use std::sync::ledger::Ledger;

// The one nearest to the centroid of all.
fn root_of<P: Placed + Copy>(own: &[P]) -> Option<P>
    requires { length own.now ≤ most_summed }
    ensures { result ≡ root_of P.key_of P.point_of own.now }
{
    match own.len() {
        0 => None,
        1 => Some(own[0]),
        _ => nearest(&sum_of_points(own), own),
    }
}

// Puts the root of a side below a parent, where there is one.
fn place_root<P: Keyed + Copy, L: Ledger>(
    builder: &mut Builder,
    parent: u32,
    root: Option<P>,
    steps: &mut Steps<L>,
) -> Result<(), AllocError>
    requires parent { Contains (placed_keys builder.old) parent }
    requires new { (k : ℕ) → times k (placed_keys builder.old) + times k (map P.key_of (option_to_list root)) ≤ 1 }
    ensures placed { OnOk result (builder.new ≡ builder.old
        ++ placements_of (map (λ c. record { parent = parent; child = P.key_of c }) (option_to_list root))) }
    ensures steps { steps.new + length builder.old ≡ steps.old + length builder.new }
    ensures most { length builder.new ≤ length builder.old + length (option_to_list root) }
{
    if let Some(root) = root {
        builder.place(Some(parent), root.key(), steps)?;
    }
    Ok(())
}

// Puts leaves below a parent.
fn place_leaves<P: Keyed, L: Ledger>(
    builder: &mut Builder,
    parent: u32,
    leaves: &[P],
    steps: &mut Steps<L>,
) -> Result<(), AllocError>
    requires parent { Contains (placed_keys builder.old) parent }
    requires new { (k : ℕ) → times k (placed_keys builder.old) + times k (map P.key_of leaves.now) ≤ 1 }
    ensures placed { OnOk result (builder.new ≡ builder.old
        ++ placements_of (map (λ c. record { parent = parent; child = P.key_of c }) leaves.now)) }
    ensures steps { steps.new + length builder.old ≡ steps.old + length builder.new }
    ensures most { length builder.new ≤ length builder.old + length leaves.now }
{
    for leaf in leaves {
        builder.place(Some(parent), leaf.key(), steps)?;
    }
    Ok(())
}

// Puts the children of a root below it: the roots of both sides, where there are some, and its leaves.
fn place_children<P: Keyed + Copy, L: Ledger>(
    builder: &mut Builder,
    parent: u32,
    left: Option<P>,
    right: Option<P>,
    leaves: &[P],
    steps: &mut Steps<L>,
) -> Result<(), AllocError>
    requires parent { Contains (placed_keys builder.old) parent }
    requires new { (k : ℕ) → times k (placed_keys builder.old)
        + times k (map P.key_of (option_to_list left ++ option_to_list right ++ leaves.now)) ≤ 1 }
    ensures placed { OnOk result (builder.new ≡ builder.old
        ++ placements_of (map (λ c. record { parent = parent; child = P.key_of c })
        (option_to_list left ++ option_to_list right ++ leaves.now))) }
    ensures steps { steps.new + length builder.old ≡ steps.old + length builder.new }
    ensures most { length builder.new
        ≤ length builder.old + length (option_to_list left ++ option_to_list right ++ leaves.now) }
{
    place_root(builder, parent, left, steps)?;
    place_root(builder, parent, right, steps)?;
    place_leaves(builder, parent, leaves, steps)
}

// Puts all below the root of some elements that hangs there: the other elements, and others below them.
fn place_below<P: Placed + Copy, L: Ledger>(
    root: Option<P>,
    own: &mut [P],
    others: &mut [P],
    builder: &mut Builder,
    steps: &mut Steps<L>,
) -> Result<(), AllocError>
    requires root { root ≡ root_of P.key_of P.point_of own.old }
    requires few { length own.old + length others.old ≤ most_summed }
    requires own_distinct { (t u : P) → Contains own.old t → Contains own.old u
        → P.key_of t ≡ P.key_of u → t ≡ u }
    requires others_distinct { (t u : P) → Contains others.old t → Contains others.old u
        → P.key_of t ≡ P.key_of u → t ≡ u }
    requires room { HasRoom (placed_keys builder.old) (map P.key_of (option_to_list root))
        (map P.key_of own.old) (map P.key_of others.old) }
    ensures placed { (depth : ℕ) → length own.old ≤ depth → OnOk result (builder.new ≡ builder.old
        ++ placements_of (edges_down P.key_of P.point_of depth (record { own = own.old; others = others.old }))) }
    ensures steps { steps.new + length builder.old ≡ steps.old + length builder.new }
    ensures most { length builder.new + length (option_to_list root)
        ≤ length builder.old + length own.old + length others.old }
{
    let Some(root) = root else { return Ok(()) };
    let Sides {
        left,
        left_others,
        leaves,
        right,
        right_others,
    } = Sides::new(root, own, others);
    let left_root = root_of(left);
    let right_root = root_of(right);
    place_children(builder, root.key(), left_root, right_root, leaves, steps)?;
    place_below(left_root, left, left_others, builder, steps)?;
    place_below(right_root, right, right_others, builder, steps)
}

/// The tree of some elements and of others below them, where there are own elements. It takes a step for each of them.
pub(crate) fn tree_of<P: Placed + Copy, L: Ledger>(
    alloc: Global,
    own: &mut [P],
    others: &mut [P],
    steps: &mut Steps<L>,
) -> Result<Option<Tree>, AllocError>
    requires few { length own.old + length others.old ≤ most_summed }
    requires own_distinct { (t u : P) → Contains own.old t → Contains own.old u
        → P.key_of t ≡ P.key_of u → t ≡ u }
    requires others_distinct { (t u : P) → Contains others.old t → Contains others.old u
        → P.key_of t ≡ P.key_of u → t ≡ u }
    requires once { (k : ℕ) → times k (map P.key_of own.old) + times k (map P.key_of others.old) ≤ 1 }
    ensures value { IfOk result (λ tree. tree
        ≡ tree_of P.key_of P.point_of (record { own = own.old; others = others.old })) }
    ensures steps { IfOk result (λ tree. steps.new ≡ steps.old + number_of_keys_in tree) }
    ensures most { steps.new ≤ steps.old + length own.old + length others.old }
{
    let Some(root) = root_of(own) else {
        return Ok(None);
    };
    let mut builder = Builder::with_room(alloc, own.len() + others.len())?;
    builder.place(None, root.key(), steps)?;
    place_below(Some(root), own, others, &mut builder, steps)?;
    Ok(Some(builder.finish()?))
}
