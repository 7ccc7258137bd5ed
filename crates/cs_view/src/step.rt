//! The step of a view to the next epoch, before anyone departs.

ghost use Rattle.std.specs.Prelude.{◌≡◌, None, IfOk, IfErr};
ghost use Rattle.cs_view.specs.Step.{next_rolls, next_summaries};
ghost use Rattle.cs_view.specs.Taking.{IsFirst};
ghost use Rattle.cs_view.specs.Faults.{step_fault};

use crate::faults::{check_epoch, check_gone, check_parts, check_regions};
use crate::giving::next_rolls;
use crate::taking::{check_regions_few, check_rolls};
use crate::{Parts, ViewFault};
use cs_item::{Head, Picture, Regions, Rolls};
use std::alloc::Global;

/// The summaries of the next epoch, and the rolls that the known regions give, ascending by region.
#[derive(Drop)]
pub struct Gathered {
    pub summaries: Regions,
    pub rolls: Rolls,
}

/// What the view becomes before anyone departs, with these summaries of the next epoch.
pub fn gather(
    alloc: Global,
    view: &Picture,
    head: &Head,
    parts: &Parts,
    summaries: Regions,
) -> Result<Gathered, ViewFault>
    requires { summaries ≡ next_summaries view.now.summaries head.now }
    ensures faultless { IfOk result (λ _. step_fault view.now head.now parts.now ≡ None) }
    ensures summaries { IfOk result (λ next. next.summaries ≡ next_summaries view.now.summaries head.now) }
    ensures rolls { IfOk result (λ next. next.rolls ≡ next_rolls view.now.rolls head.now parts.now) }
    ensures fault { IfErr result (IsFirst (step_fault view.now head.now parts.now)) }
{
    check_epoch(view, head)?;
    check_regions(view, head)?;
    check_parts(view, head, parts)?;
    check_regions_few(&summaries)?;
    check_gone(view, head, parts)?;
    let rolls = next_rolls(alloc, &view.rolls, head, parts)?;
    check_rolls(&summaries, rolls.as_slice())?;
    Ok(Gathered { summaries, rolls })
}
