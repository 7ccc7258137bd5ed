//! All of a group: its view, and what a turn tells each of its regions.

ghost use Rattle.std.specs.Prelude.{◌≡◌, ◌<◌, ◌≤◌, IfOk};
ghost use Rattle.std.specs.List.{AllByRecursion};
ghost use Rattle.cs_group.specs.Group.{IsGroup};
ghost use Rattle.cs_group.specs.Rows.{members_in};
ghost use Rattle.cs_item.specs.SliceField.{IsSlice};
ghost use Rattle.cs_slicer.specs.Turn.{IsTurnOf};
ghost use Rattle.cs_lead.specs.Leading.{all_slices, whole_view};

use cs_base::{Epoch, Mode, NodeId, RegionId};
use cs_group::{Group, Turn};
use cs_item::{Picture, Regions, Rolls};
use cs_packet::Slices;
use cs_roll::Roll;
use cs_slicer::Slicer;
use cs_view::View;
use std::alloc::{AllocError, Global};

// The roll of a region.
fn roll_of(alloc: Global, group: &Group, region: RegionId) -> Result<Roll, AllocError>
    ensures { IfOk result (λ roll. roll ≡ members_in region group.now.rows) }
{
    Ok(group.roll(region)?.unwrap_or(Roll::new(alloc)))
}

// All regions of a group, with their summaries and their rolls.
fn picture_of(alloc: Global, epoch: Epoch, group: &Group) -> Result<Picture, AllocError>
    ensures value { IfOk result (λ picture. picture ≡ whole_view epoch group.now) }
    ensures group { IsGroup group.now }
{
    let mut summaries = Regions::new(alloc);
    let mut rolls = Rolls::new(alloc);
    for i in 0..group.count() {
        let region = group.region(i);
        let roll = roll_of(alloc, group, region)?;
        let summary = roll.summary()?;
        summaries.push((region, summary))?;
        rolls.push((region, roll))?;
    }
    Ok(Picture {
        epoch,
        summaries,
        rolls,
    })
}

/// The leader's view of a group: all of it.
pub(crate) fn view_of(
    alloc: Global,
    leader: NodeId,
    epoch: Epoch,
    group: &Group,
) -> Result<View, AllocError>
    ensures value { IfOk result (λ view. view ≡ whole_view epoch group.now) }
    ensures group { IsGroup group.now }
{
    let picture = picture_of(alloc, epoch, group)?;
    // The picture fits together, so that only memory can be missing.
    View::take(alloc, leader, Mode::Full, &picture).map_err(|_| AllocError)
}

/// The slices of all regions of a group, which a turn of it makes.
pub(crate) fn slices_of(
    alloc: Global,
    before: &Group,
    turn: &Turn,
    epoch: Epoch,
) -> Result<Slices, AllocError>
    requires turn { IsTurnOf before.now turn.now }
    requires later { 0 < epoch }
    ensures value { IfOk result (λ slices. slices ≡ all_slices before.now turn.now epoch) }
    ensures allowed { IfOk result (AllByRecursion IsSlice) }
{
    let slicer = Slicer::new(alloc, before, turn, epoch)?;
    let mut slices = Slices::new(alloc);
    for i in 0..before.count() {
        slices.push(slicer.slice(before.region(i))?)?;
    }
    Ok(slices)
}
