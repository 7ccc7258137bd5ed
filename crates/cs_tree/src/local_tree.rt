ghost use Rattle.std.specs.Prelude.{◌≡◌, ◌+◌, ◌≤◌, ◌↔◌, length, IsNone, IfOk};
ghost use Rattle.cs_base.specs.Limits.{most_summed};
ghost use Rattle.cs_tree.specs.Building.{number_of_keys_in};
ghost use Rattle.cs_tree.specs.Colour.{trees_of};
ghost use Rattle.cs_tree.specs.Local.{local_tree};

use crate::colour::{members_of_colour, members_of_others};
use crate::grow::tree_of;
use crate::{Steps, Tree};
use cs_roll::Roll;
use std::alloc::{AllocError, Global};
use std::sync::ledger::Ledger;

/// The local tree of a colour: members of the colour have children, and the others are leaves. It takes a step for
/// each of its keys.
pub fn local<L: Ledger>(
    alloc: Global,
    roll: &Roll,
    colour: u8,
    steps: &mut Steps<L>,
) -> Result<Option<Tree>, AllocError>
    requires { length roll.now ≤ most_summed }
    ensures value { IfOk result (λ tree. tree ≡ local_tree colour roll.now) }
    ensures none { IfOk result (λ tree. IsNone tree ↔ (trees_of (length roll.now) ≤ colour)) }
    ensures steps { IfOk result (λ tree. steps.new ≡ steps.old + number_of_keys_in tree) }
    ensures most { steps.new ≤ steps.old + length roll.now }
{
    let mut own = members_of_colour(alloc, roll.as_slice(), colour)?;
    let mut others = members_of_others(alloc, roll.as_slice(), colour)?;
    tree_of(alloc, &mut own, &mut others, steps)
}
