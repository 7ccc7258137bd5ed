ghost use Rattle.std.specs.Prelude.{◌≡◌, ◌<◌, ◌≤◌, Some, All, Contains, IfOk, IsSome, length, map};
ghost use Rattle.cs_base.specs.Limits.{most_members};
ghost use Rattle.cs_group.specs.Group.{IsGroup};
ghost use Rattle.cs_group.specs.Rows.{IsInOrder, regions};
ghost use Rattle.cs_item.specs.SliceField.{IsSlice};
ghost use Rattle.cs_slicer.specs.Part.{part_in};
ghost use Rattle.cs_slicer.specs.Slice.{slice_in};
ghost use Rattle.cs_slicer.specs.Slicer.{slice_of, slices_in};
ghost use Rattle.cs_slicer.specs.Turn.{middle_rows, IsTurnOf};

use crate::head::{dropped, leavers, summaries, touched};
use crate::part::part_of;
use crate::rows::before_cut;
use cs_base::{Epoch, Ordered, RegionId};
use cs_group::{Group, Row, RowList, Turn};
use cs_item::{Head, Part, Slice};
use std::alloc::{AllocError, Global};
use std::marker::Model;

/// All slices of a turn: the head, which is the same for every region, and the part of each old region.
#[derive(Debug, Drop)]
pub struct Slicer {
    head: Head,
    parts: Ordered<Part>,
}

impl Model for Slicer {
    ghost use Rattle.cs_slicer.specs.Slicer.{AreWellFormed, Slices};

    ghost Value = { Slices };

    ghost view = { λ slicer. record { head = slicer.head; parts = slicer.parts } };

    ghost invariant = { λ slicer. AreWellFormed (record { head = slicer.head; parts = slicer.parts }) };
}

// The rows of a group. They are those of a group, which the count of its regions tells.
fn rows_of(group: &Group) -> Result<RowList, AllocError>
    ensures value { IfOk result (λ rows. rows ≡ group.now.rows) }
    ensures group { IsGroup group.now }
{
    let _count = group.count();
    group.rows()
}

// The part of each region of the group.
fn parts_of(
    alloc: Global,
    before: &Group,
    turn: &Turn,
    old: &[Row],
    middle: &[Row],
) -> Result<Ordered<Part>, AllocError>
    requires old_in_order { IsInOrder old.now }
    requires middle_in_order { IsInOrder middle.now }
    requires old { old.now ≡ before.now.rows }
    requires middle { middle.now ≡ middle_rows before.now turn.now }
    ensures { IfOk result (λ parts. parts ≡ map (part_in before.now turn.now) (regions before.now.rows)) }
{
    let mut parts = Ordered::new(alloc);
    for i in 0..before.count() {
        let part = part_of(alloc, before, turn, old, middle, before.region(i))?;
        parts.push(part)?;
    }
    Ok(parts)
}

impl Slicer {
    /// The slices of the turn, where the new epoch is this one.
    pub fn new(alloc: Global, before: &Group, turn: &Turn, epoch: Epoch) -> Result<Self, AllocError>
        requires { IsTurnOf before.now turn.now }
        ensures slices { IfOk result (λ slicer. slicer ≡ slices_in before.now turn.now epoch) }
        ensures each { IfOk result (λ slicer.
            All (λ region. slice_of slicer region ≡ Some (slice_in before.now turn.now epoch region))
            (regions before.now.rows)) }
    {
        let _number = epoch.get();
        let left = leavers(alloc, turn.item.as_slice())?;
        let old = rows_of(before)?;
        let new = rows_of(&turn.group)?;
        let middle = before_cut(alloc, new.as_slice(), &turn.cut)?;
        let parts = parts_of(alloc, before, turn, old.as_slice(), &middle)?;
        let head = Head {
            epoch,
            left,
            dropped: dropped(alloc, before, new.as_slice())?,
            summaries: summaries(alloc, old.as_slice(), &turn.group, new.as_slice())?,
            touched: touched(alloc, parts.as_slice())?,
        };
        Ok(Slicer { head, parts })
    }

    /// The slice of an old region.
    pub fn slice(&self, region: RegionId) -> Result<Slice, AllocError>
        requires { IsSome (slice_of self.now region) }
        ensures slice { IfOk result (λ slice. slice_of self.now region ≡ Some slice) }
        ensures well_formed { 0 < self.now.head.epoch → IfOk result IsSlice }
    {
        let part = self.parts.get(region.get()).unwrap();
        Ok(Slice {
            head: self.head.copy()?,
            part: part.copy()?,
        })
    }
}

/// The slice of a region of the group before the turn, where the new epoch is this one. Where several are wanted,
/// `Slicer` computes what they have in common once.
pub fn slice(
    alloc: Global,
    before: &Group,
    turn: &Turn,
    region: RegionId,
    epoch: Epoch,
) -> Result<Slice, AllocError>
    requires turn { IsTurnOf before.now turn.now }
    requires old { Contains (regions before.now.rows) region }
    ensures slice { IfOk result (λ slice. slice ≡ slice_in before.now turn.now epoch region) }
    ensures well_formed { 0 < epoch → IfOk result IsSlice }
{
    Slicer::new(alloc, before, turn, epoch)?.slice(region)
}
