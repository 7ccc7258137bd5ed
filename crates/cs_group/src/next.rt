ghost use Rattle.std.specs.Prelude.{◌≡◌, true, false, ◌≤◌, ◌<◌, length, None, Some, IfOk, IfErr, OnOk};
ghost use Rattle.std.specs.List.{AllByRecursion};
ghost use Rattle.cs_base.specs.Ascending.{IsDistinctBy};
ghost use Rattle.cs_base.specs.Changes.{id_of};
ghost use Rattle.cs_base.specs.Limits.{last_number, most_changes};
ghost use Rattle.cs_group.specs.Cut.{cut_at, cut_due};
ghost use Rattle.cs_group.specs.Group.{IsGroup};
ghost use Rattle.cs_group.specs.Judging.{accepted, verdicts_on, item_of};
ghost use Rattle.cs_group.specs.Merge.{merge_due};
ghost use Rattle.cs_group.specs.Next.{with_accepted, merged_group, before_cut, next_turn, cut_group};
ghost use Rattle.cs_group.specs.Next.{is_spent, IsTurnFault};
ghost use Rattle.cs_group.specs.Rows.{members_in};
ghost use Rattle.cs_group.specs.Taking.{FitsRow};

use crate::cut::{cut_rows, region_to_cut};
use crate::merge::{after_merge, merge_due};
use crate::state::State;
use crate::{Group, Verdict, Verdicts};
use cs_base::{Change, Changes, Cut, RegionId};
use cs_near::choose_split;
use std::alloc::{AllocError, Global};
use thiserror::Error;

/// The group of the next epoch, and what led to it.
#[derive(Debug, Drop)]
pub struct Turn {
    pub group: Group,
    /// What became of each change.
    pub verdicts: Verdicts,
    /// The accepted changes.
    pub item: Changes,
    /// The region that was given up, and the one that took it in.
    pub merged: Option<(RegionId, RegionId)>,
    /// The region that was cut, and how.
    pub cut: Option<(RegionId, Cut)>,
}

/// Why there is no next group.
#[derive(Clone, Copy, Debug, PartialEq, Eq, Error)]
pub enum GroupFault {
    #[error("a region is to be cut, and the region numbers are spent")]
    Spent,
    #[error("out of memory")]
    Memory,
}

// The accepted changes.
fn item_of(alloc: Global, verdicts: &[(Change, Verdict)]) -> Result<Changes, AllocError>
    ensures { IfOk result (λ item. item ≡ accepted verdicts.now) }
{
    let mut item = Changes::new(alloc);
    for (change, verdict) in verdicts {
        if verdict.is_accepted() {
            item.push(*change)?;
        }
    }
    Ok(item)
}

impl State {
    // Merges a region with few members into another.
    fn merge(&mut self) -> Result<Option<(RegionId, RegionId)>, AllocError>
        requires { IsGroup self.old }
        ensures merge { IfOk result (λ merge. merge ≡ merge_due self.old.rows) }
        ensures after { OnOk result (self.new ≡ merged_group self.old) }
    {
        let merge = merge_due(&self.table)?;
        let table = after_merge(&self.table, &merge)?;
        self.table = table;
        Ok(merge)
    }

    // Where the region is cut, and which region its upper members become.
    fn cut_of(&self, alloc: Global, region: RegionId) -> Result<Cut, GroupFault>
        requires group { IsGroup self.now }
        requires some { 2 ≤ length (members_in region self.now.rows) }
        ensures cut { IfOk result (λ cut.
            cut_at self.now.next_region self.now.rows (Some region) ≡ Some (region, cut)) }
        ensures number { OnOk result (self.now.next_region ≤ last_number) }
        ensures fault { IfErr result (λ fault. fault ≡ GroupFault.Spent → last_number < self.now.next_region) }
    {
        let Some(upper) = RegionId::new(self.next_region) else {
            return Err(GroupFault::Spent);
        };
        let roll = self.table.roll(region).map_err(|_| GroupFault::Memory)?;
        let split = choose_split(alloc, roll.as_slice()).map_err(|_| GroupFault::Memory)?;
        Ok(Cut { split, upper })
    }

    // Cuts the largest region where it has many members.
    fn cut(&mut self, alloc: Global) -> Result<Option<(RegionId, Cut)>, GroupFault>
        requires { IsGroup self.old }
        ensures cut { IfOk result (λ cut. cut ≡ cut_due self.old.next_region self.old.rows) }
        ensures after { OnOk result (self.new ≡ cut_group (cut_due self.old.next_region self.old.rows) self.old) }
        ensures number { OnOk result (is_spent self.old ≡ false) }
        ensures fault { IfErr result (λ fault. fault ≡ GroupFault.Spent → is_spent self.old ≡ true) }
    {
        let Some(region) = region_to_cut(&self.table).map_err(|_| GroupFault::Memory)? else {
            return Ok(None);
        };
        let cut = self.cut_of(alloc, region)?;
        let table = cut_rows(&self.table, region, &cut).map_err(|_| GroupFault::Memory)?;
        self.table = table;
        self.next_region += 1;
        Ok(Some((region, cut)))
    }
}

// The state before the cut, and what led to it.
#[derive(Debug, Drop)]
struct BeforeCut {
    state: State,
    verdicts: Verdicts,
    item: Changes,
    merged: Option<(RegionId, RegionId)>,
}

impl Group {
    // The state with the accepted changes, after the merge.
    fn before_cut(&self, changes: &[Change]) -> Result<BeforeCut, AllocError>
        ensures state { IfOk result (λ before. before.state ≡ before_cut self.now changes.now) }
        ensures verdicts { IfOk result (λ before. before.verdicts ≡ verdicts_on self.now changes.now) }
        ensures item { IfOk result (λ before. before.item ≡ item_of self.now changes.now) }
        ensures merged { IfOk result (λ before. before.merged ≡ merge_due (with_accepted self.now changes.now).rows) }
        ensures group { IsGroup self.now }
        ensures allowed { OnOk result (AllByRecursion FitsRow changes.now) }
    {
        let alloc = self.allocator();
        let mut state = self.state().copy()?;
        let verdicts = state.take_all(self.sums(), changes)?;
        let item = item_of(alloc, verdicts.as_slice())?;
        let merged = state.merge()?;
        Ok(BeforeCut {
            state,
            verdicts,
            item,
            merged,
        })
    }

    /// The group after the changes.
    pub fn next(&self, changes: &[Change]) -> Result<Turn, GroupFault>
        requires distinct { IsDistinctBy id_of changes.now }
        requires few { length changes.now ≤ most_changes }
        ensures turn { IfOk result (λ turn. next_turn self.now changes.now ≡ Some turn) }
        ensures fault { IfErr result (IsTurnFault (next_turn self.now changes.now)) }
        ensures spent { IfErr result (λ fault. fault ≡ GroupFault.Spent → last_number < self.now.next_region) }
    {
        let BeforeCut {
            mut state,
            verdicts,
            item,
            merged,
        } = self.before_cut(changes).map_err(|_| GroupFault::Memory)?;
        let cut = state.cut(self.allocator())?;
        let group = Group::from_state(state).map_err(|_| GroupFault::Memory)?;
        Ok(Turn {
            group,
            verdicts,
            item,
            merged,
            cut,
        })
    }
}
