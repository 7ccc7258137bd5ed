//! The summaries of the next epoch.

ghost use Rattle.std.specs.Prelude.{◌≡◌, not, IfOk, OnOk};
ghost use Rattle.std.specs.List.{filter};
ghost use Rattle.cs_roll.specs.Sight.{IsByRegion};
ghost use Rattle.cs_view.specs.Step.{is_among, next_summaries, placed_each};

use crate::faults::is_among;
use crate::pairs::place;
use cs_base::{Ids, RegionId};
use cs_item::{Head, Regions};
use cs_roll::Summary;
use std::alloc::{AllocError, Global};

// The summaries of the regions that aren't dropped, with room for so many in all.
fn undropped(
    alloc: Global,
    summaries: &[(RegionId, Summary)],
    dropped: &Ids,
    room: usize,
) -> Result<Vec<(RegionId, Summary)>, AllocError>
    ensures { IfOk result (λ kept. kept.items ≡ filter (λ p. not (is_among dropped.now p.0)) summaries.now) }
{
    let mut kept = Vec::with_capacity(alloc, room)?;
    for (region, summary) in summaries {
        if !is_among(dropped, region.get()) {
            kept.push((*region, summary.copy()?))?;
        }
    }
    Ok(kept)
}

// Puts the summaries in their places, one by one.
fn place_each(
    pairs: &mut Vec<(RegionId, Summary)>,
    summaries: &[(RegionId, Summary)],
) -> Result<(), AllocError>
    requires { IsByRegion pairs.old.items }
    ensures placed { OnOk result (pairs.new.items ≡ placed_each summaries.now pairs.old.items) }
    ensures ascending { OnOk result (IsByRegion pairs.new.items) }
{
    for (region, summary) in summaries {
        place(pairs, (*region, summary.copy()?))?;
    }
    Ok(())
}

// The old summaries without those of dropped regions, with those of the head put in.
fn put_together(alloc: Global, summaries: &Regions, head: &Head) -> Result<Regions, AllocError>
    ensures { IfOk result (λ next. next ≡ next_summaries summaries.now head.now) }
{
    let room = summaries.len().saturating_add(head.summaries.len());
    let mut next = undropped(alloc, summaries.as_slice(), &head.dropped, room)?;
    place_each(&mut next, head.summaries.as_slice())?;
    Regions::from_vec(next).shared()
}

/// The summaries of the next epoch. Where the head changes none, they are shared with the old ones.
pub fn next_summaries(
    alloc: Global,
    summaries: &Regions,
    head: &Head,
) -> Result<Regions, AllocError>
    ensures { IfOk result (λ next. next ≡ next_summaries summaries.now head.now) }
{
    if head.dropped.is_empty() && head.summaries.is_empty() {
        return summaries.copy();
    }
    put_together(alloc, summaries, head)
}
