//! The lists of a head.
ghost use Rattle.std.specs.Prelude.{◌≡◌, ◌≤◌, false, length, map, not, None, IfOk, OnOk};
ghost use Rattle.std.specs.List.{AllByRecursion, filter};
ghost use Rattle.std.specs.Option.{option_map_or};
ghost use Rattle.cs_base.specs.Ascending.{IsAscendingBy};
ghost use Rattle.cs_base.specs.Limits.{last_id, most_members};
ghost use Rattle.cs_group.specs.Rows.{IsInOrder};
ghost use Rattle.cs_group.specs.Taking.{FitsRow};
ghost use Rattle.cs_roll.specs.Same.{is_same_summary};
ghost use Rattle.cs_roll.specs.Sight.{at_region};
ghost use Rattle.cs_slicer.specs.Head.{dropped_in, is_same_kind, summaries_in};
ghost use Rattle.cs_slicer.specs.Leavers.{leaver_of, leavers};
ghost use Rattle.cs_slicer.specs.Turn.{summaries_of};

use crate::rows::{has_region, roll_in, summary_in};
use cs_base::{Change, Ids, NodeId, RegionId};
use cs_group::{Group, Row};
use cs_item::{Part, PartKind, Regions};
use cs_roll::Summary;
use std::alloc::{AllocError, Global};

// A mover doesn't leave. The number of its move fits its row.
fn mover(_seq: u32) -> Option<NodeId>
    ensures value { result ≡ None }
    ensures few_bits { _seq ≤ last_id }
{
    None
}

// The id that leaves by the change.
fn leaver_of(change: &Change) -> Option<NodeId>
    ensures value { result ≡ leaver_of change.now }
    ensures allowed { FitsRow change.now }
{
    let _id = change.id();
    match *change {
        Change::Join(_) => None,
        Change::Move { seq, .. } => mover(seq),
        Change::Leave { id } => Some(id),
    }
}

// The ids that leave by the item.
pub(crate) fn leavers(alloc: Global, item: &[Change]) -> Result<Ids, AllocError>
    ensures left { IfOk result (λ left. left ≡ leavers item.now) }
    ensures allowed { OnOk result (AllByRecursion FitsRow item.now) }
{
    let mut left = Ids::new(alloc);
    for change in item {
        if let Some(id) = leaver_of(change) {
            left.insert(id.get())?;
        }
    }
    Ok(left)
}

// The regions of the group that have none of these rows.
pub(crate) fn dropped(alloc: Global, before: &Group, rows: &[Row]) -> Result<Ids, AllocError>
    requires { IsInOrder rows.now }
    ensures { IfOk result (λ dropped. dropped ≡ dropped_in before.now.rows rows.now) }
{
    let mut dropped = Ids::new(alloc);
    for i in 0..before.count() {
        let region = before.region(i);
        if !has_region(rows, region) {
            dropped.push(region.get())?;
        }
    }
    Ok(dropped)
}

// Whether the region has this summary by the rows.
fn has_summary(
    alloc: Global,
    rows: &[Row],
    region: RegionId,
    summary: &Summary,
) -> Result<bool, AllocError>
    requires in_order { IsInOrder rows.now }
    requires few { length rows.now ≤ most_members }
    ensures { IfOk result (λ has.
        has ≡ option_map_or (is_same_summary summary.now) (at_region region (summaries_of rows.now)) false) }
{
    match summary_in(alloc, rows, region)? {
        Some(other) => Ok(summary.is_same(&other)),
        None => Ok(false),
    }
}

// The summaries of the group's regions that are new or differ from those by the old rows.
pub(crate) fn summaries(
    alloc: Global,
    old: &[Row],
    after: &Group,
    new: &[Row],
) -> Result<Regions, AllocError>
    requires old_in_order { IsInOrder old.now }
    requires few { length old.now ≤ most_members }
    requires new { new.now ≡ after.now.rows }
    ensures { IfOk result (λ summaries. summaries ≡ summaries_in old.now after.now.rows) }
{
    let mut summaries = Regions::new(alloc);
    for i in 0..after.count() {
        let region = after.region(i);
        let summary = roll_in(alloc, new, region)?.summary()?;
        if !has_summary(alloc, old, region, &summary)? {
            summaries.push((region, summary))?;
        }
    }
    summaries.shared()
}

// Whether the members become anything else.
fn is_same(kind: &PartKind) -> bool
    ensures { result ≡ is_same_kind kind.now }
{
    matches!(kind, PartKind::Same)
}

// The regions whose part isn't the same.
pub(crate) fn touched(alloc: Global, parts: &[Part]) -> Result<Ids, AllocError>
    requires { IsAscendingBy (λ part. part.region) parts.now }
    ensures { IfOk result (λ touched.
        touched ≡ map (λ part. part.region) (filter (λ part. not (is_same_kind part.kind)) parts.now)) }
{
    let mut touched = Ids::new(alloc);
    for part in parts {
        if !is_same(&part.kind) {
            touched.push(part.region.get())?;
        }
    }
    Ok(touched)
}
