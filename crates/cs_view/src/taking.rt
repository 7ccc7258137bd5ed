//! What a node takes from a picture, and what is wrong with the picture.

ghost use Rattle.std.specs.Prelude.{◌≡◌, ◌<◌, ◌≤◌, ◌&&◌, nat_lt, None, false, length};
ghost use Rattle.std.specs.Prelude.{IsTrue, IfOk, IfErr, OnOk, MatchOption};
ghost use Rattle.std.specs.Option.{option_copied, option_to_list};
ghost use Rattle.cs_item.specs.Picture.{members_in};
ghost use Rattle.cs_roll.specs.Same.{is_same_summary};
ghost use Rattle.cs_roll.specs.Summary.{summary_of};
ghost use Rattle.cs_view.specs.Taking.{IsFirst, few_members, few_regions, is_listed, picture_fault, roll_fault};
ghost use Rattle.cs_view.specs.Taking.{unless};
ghost use Rattle.cs_view.specs.View.{holder, kept};
ghost use Rattle.cs_view.specs.declared.fault.ViewFault.TheVariants.{Size};

use crate::ViewFault;
use cs_base::{MOST_MEMBERS, MOST_REGIONS, Mode, NodeId, RegionId};
use cs_item::{Picture, Regions, Rolls};
use cs_roll::{Roll, Summary};
use std::alloc::{AllocError, Global};

// How many members the rolls have together, where it is at most `most`.
fn count_members(rolls: &[(RegionId, Roll)], most: usize) -> Option<usize>
    ensures { MatchOption result (most < members_in rolls.now) (λ n. (n ≡ members_in rolls.now) × (n ≤ most)) }
{
    let mut count = 0;
    for (_, roll) in rolls {
        if roll.len() > most - count {
            return None;
        }
        count += roll.len();
    }
    Some(count)
}

/// Whether the rolls don't have too many members together.
pub fn few_members(rolls: &Rolls) -> bool
    ensures { result ≡ few_members rolls.now }
{
    count_members(rolls.as_slice(), MOST_MEMBERS).is_some()
}

/// Whether there are some regions, and not too many.
pub fn few_regions(summaries: &Regions) -> bool
    ensures { result ≡ few_regions summaries.now }
{
    let regions = summaries.len();
    regions > 0 && regions <= MOST_REGIONS
}

/// There are some regions, and not too many.
pub fn check_regions_few(summaries: &Regions) -> Result<(), ViewFault>
    ensures ok { OnOk result (unless (few_regions summaries.now) Size ≡ None) }
    ensures fault { IfErr result (IsFirst (unless (few_regions summaries.now) Size)) }
{
    if few_regions(summaries) {
        return Ok(());
    }
    Err(ViewFault::Size)
}

// Whether the roll has members and the summary is theirs.
fn is_summary_of(summary: &Summary, roll: &Roll) -> Result<bool, AllocError>
    ensures { IfOk result (λ is.
        is ≡ (nat_lt 0 (length roll.now) && is_same_summary (summary_of roll.now) summary.now)) }
{
    if roll.len() != summary.size as usize {
        return Ok(false);
    }
    Ok(roll.summary()?.is_same(summary))
}

// Whether the roll has members, and its region is listed with its summary.
fn is_listed(summaries: &Regions, pair: &(RegionId, Roll)) -> Result<bool, AllocError>
    ensures { IfOk result (λ listed. listed ≡ is_listed summaries.now pair.now) }
{
    match summaries.find(pair.0) {
        Some(summary) => is_summary_of(summary, &pair.1),
        None => Ok(false),
    }
}

/// Each roll is listed.
pub fn check_rolls(summaries: &Regions, rolls: &[(RegionId, Roll)]) -> Result<(), ViewFault>
    ensures ok { OnOk result (roll_fault summaries.now rolls.now ≡ None) }
    ensures fault { IfErr result (IsFirst (roll_fault summaries.now rolls.now)) }
{
    for pair in rolls {
        if !is_listed(summaries, pair)? {
            return Err(ViewFault::Roll(pair.0));
        }
    }
    Ok(())
}

/// The roll of the least region that has the node.
pub fn find_holder(me: NodeId, rolls: &[(RegionId, Roll)]) -> Option<&(RegionId, Roll)>
    ensures { option_copied result ≡ holder me rolls.now }
{
    rolls.iter().find(|pair| pair.1.find(me).is_some())
}

/// The picture can be taken as a view.
pub fn check_picture(me: NodeId, picture: &Picture) -> Result<(), ViewFault>
    ensures ok { OnOk result (picture_fault me picture.now ≡ None) }
    ensures fault { IfErr result (IsFirst (picture_fault me picture.now)) }
{
    if !few_regions(&picture.summaries) || !few_members(&picture.rolls) {
        return Err(ViewFault::Size);
    }
    check_rolls(&picture.summaries, picture.rolls.as_slice())?;
    if find_holder(me, picture.rolls.as_slice()).is_none() {
        return Err(ViewFault::Absent);
    }
    Ok(())
}

/// The roll alone, or none.
pub fn only_roll(alloc: Global, pair: Option<&(RegionId, Roll)>) -> Result<Rolls, AllocError>
    ensures { IfOk result (λ only. only ≡ option_to_list (option_copied pair.entry)) }
{
    let mut only = Rolls::new(alloc);
    if let Some((region, roll)) = pair {
        only.push((*region, roll.copy()?))?;
    }
    only.shared()
}

// Whether a node keeps every roll: a Full one does, and a Partial one where there is one alone, which has it.
fn keeps_all(me: NodeId, mode: Mode, rolls: &[(RegionId, Roll)]) -> bool
    ensures all { IsTrue result → kept me mode rolls.now ≡ rolls.now }
    ensures one { result ≡ false → kept me mode rolls.now ≡ option_to_list (holder me rolls.now) }
{
    match mode {
        Mode::Full => true,
        Mode::Partial => rolls.len() == 1 && rolls[0].1.find(me).is_some(),
    }
}

/// The rolls that a node keeps. Where it keeps every one they are shared.
pub fn kept_rolls(alloc: Global, me: NodeId, mode: Mode, rolls: &Rolls) -> Result<Rolls, AllocError>
    ensures { IfOk result (λ rolls_kept. rolls_kept ≡ kept me mode rolls.now) }
{
    if keeps_all(me, mode, rolls.as_slice()) {
        return rolls.copy();
    }
    only_roll(alloc, find_holder(me, rolls.as_slice()))
}
