ghost use Rattle.std.specs.Prelude.{◌≡◌, ◌<◌, Some, IfOk};
ghost use Rattle.cs_base.specs.Limits.{colours};
ghost use Rattle.cs_tree.specs.Colour.{members_of_colour, members_of_others, representative};

use cs_base::{COLOURS, Member};
use cs_roll::Summary;
use std::alloc::{AllocError, Global};

/// The members of a roll that have the colour.
pub(crate) fn members_of_colour(
    alloc: Global,
    roll: &[Member],
    colour: u8,
) -> Result<Vec<Member>, AllocError>
    ensures { IfOk result (λ own. own.items ≡ members_of_colour colour roll.now) }
{
    let colour = usize::from(colour);
    let mut own = Vec::with_capacity(alloc, roll.len().div_ceil(COLOURS))?;
    own.extend(
        roll.iter()
            .copied()
            .enumerate()
            .filter(|placed| placed.0 % COLOURS == colour)
            .map(|placed| placed.1),
    )?;
    Ok(own)
}

/// The members of the other colours.
pub(crate) fn members_of_others(
    alloc: Global,
    roll: &[Member],
    colour: u8,
) -> Result<Vec<Member>, AllocError>
    ensures { IfOk result (λ others. others.items ≡ members_of_others colour roll.now) }
{
    let colour = usize::from(colour);
    let mut others = Vec::with_capacity(alloc, roll.len())?;
    others.extend(
        roll.iter()
            .copied()
            .enumerate()
            .filter(|placed| placed.0 % COLOURS != colour)
            .map(|placed| placed.1),
    )?;
    Ok(others)
}

/// The member that stands for a region in the trees of a colour.
pub(crate) fn representative(summary: &Summary, colour: u8) -> Member
    requires { colour < colours }
    ensures { representative colour summary.now ≡ Some result }
{
    let trees = summary.globals.len().min(COLOURS);
    summary.globals.as_slice()[usize::from(colour) % trees]
}
