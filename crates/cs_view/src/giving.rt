//! What the known regions give to the rolls of the next epoch.

ghost use Rattle.std.specs.Prelude.{◌≡◌, not, IfOk, OnOk};
ghost use Rattle.std.specs.List.{filter, fold};
ghost use Rattle.cs_roll.specs.Roll.{IsById, with_member};
ghost use Rattle.cs_roll.specs.Sight.{IsByRegion};
ghost use Rattle.cs_view.specs.Step.{changed, cut_in_two, given, given_by_kind, is_among, leaves_all};
ghost use Rattle.cs_view.specs.Step.{next_rolls, placed_each, unchanged};

use crate::Parts;
use crate::faults::is_among;
use crate::pairs::place;
use cs_base::{Cut, Ids, Member, RegionId};
use cs_item::{Head, Part, PartKind, Rolls};
use cs_roll::Roll;
use std::alloc::{AllocError, Global};

// Puts in the roll of a region, or where it is cut both of its parts.
fn place_parts(
    next: &mut Vec<(RegionId, Roll)>,
    region: RegionId,
    roll: Roll,
    cut: Option<Cut>,
) -> Result<(), AllocError>
    requires { IsByRegion next.old.items }
    ensures placed { OnOk result (next.new.items ≡ placed_each (cut_in_two region roll cut) next.old.items) }
    ensures ascending { OnOk result (IsByRegion next.new.items) }
{
    let Some(cut) = cut else {
        return place(next, (region, roll));
    };
    let (lower, upper) = roll.part(&cut.split)?;
    place(next, (region, lower))?;
    place(next, (cut.upper, upper))
}

// The members that don't go out.
fn staying(alloc: Global, members: &[Member], gone: &Ids) -> Result<Roll, AllocError>
    requires { IsById members.now }
    ensures { IfOk result (λ staying. staying ≡ filter (λ m. not (is_among gone.now m.id)) members.now) }
{
    let mut staying = Roll::new(alloc);
    for member in members {
        if !is_among(gone, member.id.get()) {
            staying.push(*member)?;
        }
    }
    Ok(staying)
}

// Puts the members in their places, one by one.
fn insert_each(roll: &mut Roll, members: &[Member]) -> Result<(), AllocError>
    ensures { OnOk result (roll.new ≡ fold (λ before m. with_member m before) roll.old members.now) }
{
    for member in members {
        roll.insert(*member)?;
    }
    Ok(())
}

// The roll without those who went out, and with those who came in or differ.
fn changed(alloc: Global, roll: &Roll, gone: &Ids, here: &Roll) -> Result<Roll, AllocError>
    ensures { IfOk result (λ next. next ≡ changed gone.now here.now roll.now) }
{
    let mut next = staying(alloc, roll.as_slice(), gone)?;
    insert_each(&mut next, here.as_slice())?;
    Ok(next)
}

// Puts in what a region gives where nothing of it changed.
fn place_unchanged(
    next: &mut Vec<(RegionId, Roll)>,
    head: &Head,
    pair: &(RegionId, Roll),
) -> Result<(), AllocError>
    requires { IsByRegion next.old.items }
    ensures placed { OnOk result (next.new.items ≡ placed_each (unchanged head.now pair.now) next.old.items) }
    ensures ascending { OnOk result (IsByRegion next.new.items) }
{
    if is_among(&head.dropped, pair.0.get()) {
        return Ok(());
    }
    place(next, (pair.0, pair.1.copy()?))
}

// Puts in what a touched region gives by its part.
fn place_by_part(
    next: &mut Vec<(RegionId, Roll)>,
    rolls: &Rolls,
    head: &Head,
    pair: &(RegionId, Roll),
    part: &Part,
) -> Result<(), AllocError>
    requires { IsByRegion next.old.items }
    ensures placed { OnOk result (next.new.items
        ≡ placed_each (given_by_kind rolls.now head.now pair.now part.now.cut part.now.kind) next.old.items) }
    ensures ascending { OnOk result (IsByRegion next.new.items) }
{
    match &part.kind {
        PartKind::Same => place_unchanged(next, head, pair),
        PartKind::Diff { gone, here } => {
            let roll = changed(*next.allocator(), &pair.1, gone, here)?;
            place_parts(next, pair.0, roll, part.cut)
        }
        PartKind::Whole { into, roll } => {
            if rolls.find(*into).is_some() {
                return Ok(());
            }
            place_parts(next, *into, roll.copy()?, part.cut)
        }
    }
}

// Puts in what a known region gives.
fn place_given(
    next: &mut Vec<(RegionId, Roll)>,
    rolls: &Rolls,
    head: &Head,
    parts: &Parts,
    pair: &(RegionId, Roll),
) -> Result<(), AllocError>
    requires { IsByRegion next.old.items }
    ensures placed { OnOk result (next.new.items
        ≡ placed_each (given rolls.now head.now parts.now pair.now) next.old.items) }
    ensures ascending { OnOk result (IsByRegion next.new.items) }
{
    if !is_among(&head.touched, pair.0.get()) {
        return place_unchanged(next, head, pair);
    }
    match parts.get(pair.0.get()) {
        Some(part) => place_by_part(next, rolls, head, pair, part),
        None => Ok(()),
    }
}

// The rolls that the known regions give, put in their places: a later roll of a region replaces an earlier one.
fn give_each(
    alloc: Global,
    rolls: &Rolls,
    head: &Head,
    parts: &Parts,
) -> Result<Vec<(RegionId, Roll)>, AllocError>
    ensures value { IfOk result (λ next. next.items ≡ next_rolls rolls.now head.now parts.now) }
    ensures ascending { IfOk result (λ next. IsByRegion next.items) }
{
    let mut next = Vec::new(alloc);
    for pair in rolls.as_slice() {
        place_given(&mut next, rolls, head, parts, pair)?;
    }
    Ok(next)
}

// Whether the head neither touches nor drops one of these regions.
fn leaves_all(head: &Head, rolls: &[(RegionId, Roll)]) -> bool
    ensures { result ≡ leaves_all head.now rolls.now }
{
    rolls.iter().all(|pair| {
        !is_among(&head.touched, pair.0.get()) && !is_among(&head.dropped, pair.0.get())
    })
}

/// The rolls that the known regions give, ascending by region. Where none of these is touched or dropped, they are
/// shared with the old ones.
pub fn next_rolls(
    alloc: Global,
    rolls: &Rolls,
    head: &Head,
    parts: &Parts,
) -> Result<Rolls, AllocError>
    ensures { IfOk result (λ next. next ≡ next_rolls rolls.now head.now parts.now) }
{
    if leaves_all(head, rolls.as_slice()) {
        return rolls.copy();
    }
    let next = give_each(alloc, rolls, head, parts)?;
    Rolls::from_vec(next).shared()
}
