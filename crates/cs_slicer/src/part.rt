//! The part of an old region.
ghost use Rattle.std.specs.Prelude.{◌≡◌, false, IfOk, if◌then◌else◌};
ghost use Rattle.std.specs.Option.{is_some, option_map_or};
ghost use Rattle.cs_group.specs.Group.{is_among};
ghost use Rattle.cs_group.specs.Rows.{IsInOrder, members_in, regions};
ghost use Rattle.cs_item.specs.declared.part.PartKind.{PartKind};
ghost use Rattle.cs_roll.specs.Roll.{member_of};
ghost use Rattle.cs_roll.specs.Same.{is_same_member};
ghost use Rattle.cs_slicer.specs.Turn.{cut_of, middle_rows, taken_in_by};
ghost use Rattle.cs_slicer.specs.Part.{diff_or_same, gone_from, kind_of, kind_of_kept, new_in, part_in, target_of};

use crate::rows::roll_in;
use cs_base::{Cut, Ids, Member, RegionId};
use cs_group::{Group, Row, Turn};
use cs_item::{Part, PartKind};
use cs_roll::Roll;
use std::alloc::{AllocError, Global};

// The ids of the old roll that aren't in the new one.
fn gone_from(alloc: Global, old: &Roll, new: &Roll) -> Result<Ids, AllocError>
    ensures { IfOk result (λ gone. gone ≡ gone_from old.now new.now) }
{
    let mut gone = Ids::new(alloc);
    for member in old.as_slice() {
        if new.find(member.id).is_none() {
            gone.push(member.id.get())?;
        }
    }
    Ok(gone)
}

// Whether the roll has the same member.
fn has_same(roll: &Roll, member: &Member) -> bool
    ensures { result ≡ option_map_or (is_same_member member.now) (member_of member.now.id roll.now) false }
{
    match roll.find(member.id) {
        Some(other) => member == other,
        None => false,
    }
}

// The members of the new roll that aren't in the old one or differ from it.
fn new_in(alloc: Global, old: &Roll, new: &Roll) -> Result<Roll, AllocError>
    ensures { IfOk result (λ here. here ≡ new_in old.now new.now) }
{
    let mut here = Roll::new(alloc);
    for member in new.as_slice() {
        if !has_same(old, member) {
            here.push(*member)?;
        }
    }
    Ok(here)
}

// A region whose members are the same, and that isn't cut, is the same.
fn diff_or_same(alloc: Global, old: &Roll, new: &Roll, is_cut: bool) -> Result<PartKind, AllocError>
    ensures { IfOk result (λ kind. kind ≡ diff_or_same old.now new.now is_cut) }
{
    if old.is_same(new) && !is_cut {
        return Ok(PartKind::Same);
    }
    Ok(PartKind::Diff {
        gone: gone_from(alloc, old, new)?,
        here: new_in(alloc, old, new)?,
    })
}

// The region that took this one in, where it was merged.
fn taken_in_by(merged: Option<(RegionId, RegionId)>, region: RegionId) -> Option<RegionId>
    ensures { result ≡ taken_in_by merged region }
{
    let (gone, into) = merged?;
    if gone == region { Some(into) } else { None }
}

// The cut of a region, where it was cut.
fn cut_of(cut: Option<(RegionId, Cut)>, region: RegionId) -> Option<Cut>
    ensures { result ≡ cut_of cut region }
{
    let (there, cut) = cut?;
    if there == region { Some(cut) } else { None }
}

// What becomes of the members of a region that wasn't merged.
fn kind_of_kept(
    alloc: Global,
    old: &[Row],
    middle: &[Row],
    is_cut: bool,
    region: RegionId,
) -> Result<PartKind, AllocError>
    requires old_in_order { IsInOrder old.now }
    requires middle_in_order { IsInOrder middle.now }
    ensures { IfOk result (λ kind. kind ≡ (if is_among (regions middle.now) region
        then diff_or_same (members_in region old.now) (members_in region middle.now) is_cut else PartKind.Same)) }
{
    let now = roll_in(alloc, middle, region)?;
    if now.is_empty() {
        return Ok(PartKind::Same);
    }
    diff_or_same(alloc, &roll_in(alloc, old, region)?, &now, is_cut)
}

// What becomes of the members of a region.
fn kind_of(
    alloc: Global,
    before: &Group,
    turn: &Turn,
    old: &[Row],
    middle: &[Row],
    region: RegionId,
) -> Result<PartKind, AllocError>
    requires old_in_order { IsInOrder old.now }
    requires middle_in_order { IsInOrder middle.now }
    requires old { old.now ≡ before.now.rows }
    requires middle { middle.now ≡ middle_rows before.now turn.now }
    ensures { IfOk result (λ kind.
        kind ≡ kind_of before.now turn.now region (taken_in_by turn.now.merged region)) }
{
    match taken_in_by(turn.merged, region) {
        Some(into) => {
            let roll = roll_in(alloc, middle, into)?;
            Ok(PartKind::Whole { into, roll })
        }
        None => kind_of_kept(
            alloc,
            old,
            middle,
            cut_of(turn.cut, region).is_some(),
            region,
        ),
    }
}

// The region whose roll the part gives.
fn target_of(region: RegionId, kind: &PartKind) -> Option<RegionId>
    ensures { result ≡ target_of region kind.now }
{
    match kind {
        PartKind::Same => None,
        PartKind::Diff { .. } => Some(region),
        PartKind::Whole { into, .. } => Some(*into),
    }
}

// The part of a region.
pub(crate) fn part_of(
    alloc: Global,
    before: &Group,
    turn: &Turn,
    old: &[Row],
    middle: &[Row],
    region: RegionId,
) -> Result<Part, AllocError>
    requires old_in_order { IsInOrder old.now }
    requires middle_in_order { IsInOrder middle.now }
    requires old { old.now ≡ before.now.rows }
    requires middle { middle.now ≡ middle_rows before.now turn.now }
    ensures { IfOk result (λ part. part ≡ part_in before.now turn.now region) }
{
    let kind = kind_of(alloc, before, turn, old, middle, region)?;
    let cut = match target_of(region, &kind) {
        Some(target) => cut_of(turn.cut, target),
        None => None,
    };
    Ok(Part { region, kind, cut })
}
