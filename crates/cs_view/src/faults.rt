//! What is wrong with a head and the parts that a view is to step by.

ghost use Rattle.std.specs.Prelude.{◌≡◌, ◌&&◌, not, true, None, is_some, IfOk, IfSome, IfErr, OnOk};
ghost use Rattle.std.specs.List.{find, fold, list_all};
ghost use Rattle.std.specs.Option.{option_copied};
ghost use Rattle.cs_base.specs.Ascending.{placed_by};
ghost use Rattle.cs_roll.specs.Roll.{IsById, member_of};
ghost use Rattle.cs_roll.specs.Sight.{IsByRegion, at_region};
ghost use Rattle.cs_view.specs.Step.{is_among, is_known, part_of};
ghost use Rattle.cs_view.specs.Taking.{IsFirst};
ghost use Rattle.cs_view.specs.Faults.{epoch_fault, fits_part, has_gone, missing_fault, part_fault, region_fault};

use crate::pairs::{has_region, search};
use crate::{Parts, ViewFault};
use cs_base::{Ids, Member, RegionId};
use cs_item::{Head, PartKind, Picture};
use cs_roll::{Roll, Summary};
use std::alloc::AllocError;

/// Whether the number is among these.
pub fn is_among(ids: &Ids, n: u32) -> bool
    ensures { result ≡ is_among ids.now n }
{
    ids.get(n).is_some()
}

/// The head is that of the next epoch.
pub fn check_epoch(view: &Picture, head: &Head) -> Result<(), ViewFault>
    ensures ok { OnOk result (epoch_fault view.now head.now ≡ None) }
    ensures fault { IfErr result (IsFirst (epoch_fault view.now head.now)) }
{
    if head.epoch.get() == view.epoch.get() + 1 {
        return Ok(());
    }
    Err(ViewFault::Epoch {
        have: view.epoch,
        given: head.epoch,
    })
}

// The ids with more of them.
fn with_ids(ids: &Ids, more: &[u32]) -> Result<Ids, AllocError>
    ensures { IfOk result (λ all. all ≡ fold (λ before n. placed_by (λ m. m) n before) ids.now more.now) }
{
    let mut all = ids.copy()?;
    for n in more {
        all.insert(*n)?;
    }
    Ok(all)
}

// The first of these regions that isn't listed.
fn first_unlisted<'a>(summaries: &[(RegionId, Summary)], regions: &'a [u32]) -> Option<&'a u32>
    requires { IsByRegion summaries.now }
    ensures { option_copied result ≡ find (λ r. not (is_some (at_region r summaries.now))) regions.now }
{
    regions
        .iter()
        .find(|region| !has_region(summaries, **region))
}

/// Each dropped or touched region is listed.
pub fn check_regions(view: &Picture, head: &Head) -> Result<(), ViewFault>
    ensures ok { OnOk result (region_fault view.now head.now ≡ None) }
    ensures fault { IfErr result (IsFirst (region_fault view.now head.now)) }
{
    let regions = with_ids(&head.dropped, head.touched.as_slice())?;
    match first_unlisted(view.summaries.as_slice(), regions.as_slice()) {
        Some(region) => Err(ViewFault::Region(*region)),
        None => Ok(()),
    }
}

// The region with this number, where its roll is known and it has no part.
fn missing(rolls: &[(RegionId, Roll)], parts: &Parts, n: u32) -> Option<RegionId>
    requires { IsByRegion rolls.now }
    ensures is { is_some result ≡ (is_known rolls.now n && not (is_some (part_of n parts.now))) }
    ensures region { IfSome result (λ region. region ≡ n) }
{
    if parts.get(n).is_some() {
        return None;
    }
    match search(rolls, n) {
        Ok(place) => Some(rolls[place].0),
        Err(_) => None,
    }
}

// The first touched known region without a part.
fn first_missing(rolls: &[(RegionId, Roll)], touched: &[u32], parts: &Parts) -> Option<RegionId>
    requires { IsByRegion rolls.now }
    ensures { result ≡ find (λ r. is_known rolls.now r && not (is_some (part_of r parts.now))) touched.now }
{
    for n in touched {
        if let Some(region) = missing(rolls, parts, *n) {
            return Some(region);
        }
    }
    None
}

/// Each touched known region has a part.
pub fn check_parts(view: &Picture, head: &Head, parts: &Parts) -> Result<(), ViewFault>
    ensures ok { OnOk result (missing_fault view.now head.now parts.now ≡ None) }
    ensures fault { IfErr result (IsFirst (missing_fault view.now head.now parts.now)) }
{
    match first_missing(view.rolls.as_slice(), head.touched.as_slice(), parts) {
        Some(region) => Err(ViewFault::Missing(region)),
        None => Ok(()),
    }
}

// Whether one of the members has this number.
fn has_member(members: &[Member], n: u32) -> bool
    requires { IsById members.now }
    ensures { result ≡ is_some (member_of n members.now) }
{
    members
        .binary_search_by_key(&n, |member| member.id.get())
        .is_ok()
}

// Whether all of these are among the members.
fn has_members(members: &[Member], ids: &[u32]) -> bool
    requires { IsById members.now }
    ensures { result ≡ list_all (λ id. is_some (member_of id members.now)) ids.now }
{
    ids.iter().all(|id| has_member(members, *id))
}

// Whether the roll has each of those who go out.
fn has_gone(roll: &Roll, kind: &PartKind) -> bool
    ensures { result ≡ has_gone roll.now kind.now }
{
    match kind {
        PartKind::Diff { gone, .. } => has_members(roll.as_slice(), gone.as_slice()),
        PartKind::Same | PartKind::Whole { .. } => true,
    }
}

// Whether the part of a known region fits its roll, where the region is touched.
fn fits_part(head: &Head, parts: &Parts, pair: &(RegionId, Roll)) -> bool
    ensures { result ≡ fits_part head.now parts.now pair.now }
{
    if !is_among(&head.touched, pair.0.get()) {
        return true;
    }
    match parts.get(pair.0.get()) {
        Some(part) => has_gone(&pair.1, &part.kind),
        None => true,
    }
}

// The first known region whose part doesn't fit.
fn first_misfit<'a>(
    rolls: &'a [(RegionId, Roll)],
    head: &Head,
    parts: &Parts,
) -> Option<&'a (RegionId, Roll)>
    ensures { option_copied result ≡ find (λ pair. not (fits_part head.now parts.now pair)) rolls.now }
{
    rolls.iter().find(|pair| !fits_part(head, parts, pair))
}

/// Each known region has those who go out by its part.
pub fn check_gone(view: &Picture, head: &Head, parts: &Parts) -> Result<(), ViewFault>
    ensures ok { OnOk result (part_fault view.now head.now parts.now ≡ None) }
    ensures fault { IfErr result (IsFirst (part_fault view.now head.now parts.now)) }
{
    match first_misfit(view.rolls.as_slice(), head, parts) {
        Some(pair) => Err(ViewFault::Part(pair.0)),
        None => Ok(()),
    }
}
