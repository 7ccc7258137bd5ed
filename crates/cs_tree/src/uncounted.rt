//! The trees for callers that count no steps.
ghost use Rattle.std.specs.Prelude.{◌≡◌, ◌<◌, ◌≤◌, ◌↔◌, length, IsNone, Some, IfOk};
ghost use Rattle.cs_base.specs.Limits.{colours, most_summed};
ghost use Rattle.cs_tree.specs.Colour.{trees_of};
ghost use Rattle.cs_tree.specs.Inter.{inter_tree};
ghost use Rattle.cs_tree.specs.Local.{local_tree};

use crate::{Steps, Tree, inter, local};
use cs_roll::{Roll, Sight};
use std::alloc::{AllocError, Global};
use std::marker::Brand;
use std::sync::ledger::{Blank, Ledger};

// The local tree of a colour, with steps counted from none on.
fn local_from_none<L: Ledger>(
    alloc: Global,
    roll: &Roll,
    colour: u8,
    blank: Blank,
) -> Result<Option<Tree>, AllocError>
    requires name { blank.name ≡ L.name }
    requires parts { blank.parts ≡ L.parts }
    requires some { 0 < blank.parts }
    requires few { length roll.now ≤ most_summed }
    ensures value { IfOk result (λ tree. tree ≡ local_tree colour roll.now) }
    ensures none { IfOk result (λ tree. IsNone tree ↔ (trees_of (length roll.now) ≤ colour)) }
{
    let mut steps = Steps::<L>::new(blank);
    local(alloc, roll, colour, &mut steps)
}

/// As `local`, and nobody counts.
pub fn local_uncounted(alloc: Global, roll: &Roll, colour: u8) -> Result<Option<Tree>, AllocError>
    requires { length roll.now ≤ most_summed }
    ensures value { IfOk result (λ tree. tree ≡ local_tree colour roll.now) }
    ensures none { IfOk result (λ tree. IsNone tree ↔ (trees_of (length roll.now) ≤ colour)) }
{
    local_from_none::<Brand>(alloc, roll, colour, Blank::new(1))
}

// The tree of the regions for a colour, with steps counted from none on.
fn inter_from_none<V: Sight, L: Ledger>(
    alloc: Global,
    sight: &V,
    colour: u8,
    blank: Blank,
) -> Result<Tree, AllocError>
    requires name { blank.name ≡ L.name }
    requires parts { blank.parts ≡ L.parts }
    requires some_part { 0 < blank.parts }
    requires colour { colour < colours }
    requires some { 0 < length (V.summaries sight.now) }
    ensures { IfOk result (λ tree. inter_tree colour (V.summaries sight.now) ≡ Some tree) }
{
    let mut steps = Steps::<L>::new(blank);
    inter(alloc, sight, colour, &mut steps)
}

/// As `inter`, and nobody counts.
pub fn inter_uncounted<V: Sight>(alloc: Global, sight: &V, colour: u8) -> Result<Tree, AllocError>
    requires colour { colour < colours }
    requires some { 0 < length (V.summaries sight.now) }
    ensures { IfOk result (λ tree. inter_tree colour (V.summaries sight.now) ≡ Some tree) }
{
    inter_from_none::<V, Brand>(alloc, sight, colour, Blank::new(1))
}
