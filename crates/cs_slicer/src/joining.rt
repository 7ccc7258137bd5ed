//! Whom an item lets in.
ghost use Rattle.std.specs.Prelude.{◌≡◌, IfOk};
ghost use Rattle.cs_slicer.specs.Joiners.{joiner_in, joiners};

use cs_base::{Change, Member};
use cs_roll::Roll;
use std::alloc::{AllocError, Global};

// Whom a change lets in.
fn joiner_in(change: &Change) -> Option<Member>
    ensures { result ≡ joiner_in change.now }
{
    match *change {
        Change::Join(member) => Some(member),
        Change::Move { .. } | Change::Leave { .. } => None,
    }
}

/// The members that an item lets in, ascending by id.
pub fn joiners(alloc: Global, item: &[Change]) -> Result<Roll, AllocError>
    ensures { IfOk result (λ roll. roll ≡ joiners item.now) }
{
    let mut roll = Roll::new(alloc);
    for change in item {
        if let Some(member) = joiner_in(change) {
            roll.insert(member)?;
        }
    }
    Ok(roll)
}
