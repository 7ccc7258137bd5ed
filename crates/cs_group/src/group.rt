ghost use Rattle.std.specs.Prelude.{◌≡◌, ◌<◌, ◌⊎◌, length, IsTrue, ◌↔◌, Some, None, Contains, IfOk, IfErr, slice_get};
ghost use Rattle.std.specs.Option.{option_map};
ghost use Rattle.cs_group.specs.Rows.{regions, row_of, roll_in};
ghost use Rattle.cs_group.specs.Place.{region_sums};
ghost use Rattle.cs_group.specs.Group.{state_of, first_group, is_among, IsGroup};
ghost use Rattle.cs_group.specs.Faults.{rows_fault};
ghost use Rattle.cs_group.specs.Judging.{verdict_on};

use crate::checks::{are_below, first_repeat, is_in_order, is_in_size};
use crate::retired::Retired;
use crate::rows::has_member;
use crate::state::State;
use crate::table::Table;
use crate::{Row, RowList, RowsFault, Verdict};
use cs_base::{Change, Ids, Keyed, Member, NodeId, RegionId};
use cs_near::RegionSum;
use cs_roll::Roll;
use std::alloc::{AllocError, Global};
use std::marker::Model;

/// The members of all regions, and who may join them.
#[derive(Debug, Drop)]
pub struct Group {
    state: State,
    sums: Vec<RegionSum>,
}

impl Model for Group {
    ghost use Rattle.std.specs.Prelude.{◌≡◌};
    ghost use Rattle.cs_group.specs.Group.{GroupState, IsGroup};
    ghost use Rattle.cs_group.specs.Place.{region_sums};

    ghost Value = { GroupState };

    ghost view = { λ g. g.state };

    ghost invariant = { λ g. IsGroup g.state × (g.sums.items ≡ region_sums g.state.rows) };
}

impl Group {
    // The group of a state that is sound.
    pub(crate) fn from_state(state: State) -> Result<Self, AllocError>
        requires { IsGroup state }
        ensures { IfOk result (λ group. group ≡ state) }
    {
        let sums = state.table.sums()?;
        Ok(Group { state, sums })
    }

    /// The group of epoch 0: the leader alone, in region 0.
    pub fn first(alloc: Global, leader: Member) -> Result<Self, AllocError>
        ensures { IfOk result (λ group. group ≡ first_group leader) }
    {
        let _key = leader.key();
        let row = Row {
            region: RegionId::new(0).unwrap(),
            member: leader,
            seq: 0,
        };
        let table = Table::new(alloc).with(&row)?;
        let retired = Retired::new(Ids::new(alloc))?;
        Group::from_state(State {
            leader: leader.id,
            table,
            next_region: 1,
            retired,
        })
    }

    /// The group that has these rows.
    pub fn from_rows(
        alloc: Global,
        leader: NodeId,
        rows: &[Row],
        next_region: u32,
        retired: &Ids,
    ) -> Result<Self, RowsFault>
        ensures group { let given = state_of leader rows.now next_region retired.now in
            IfOk result (λ group. (rows_fault given ≡ None) × (group ≡ given)) }
        ensures fault { let given = state_of leader rows.now next_region retired.now in
            IfErr result (λ fault. (fault ≡ RowsFault.Memory) ⊎ (rows_fault given ≡ Some fault)) }
    {
        if !is_in_order(rows) {
            return Err(RowsFault::Order);
        }
        if let Some(id) = first_repeat(retired, rows).map_err(|_| RowsFault::Memory)? {
            return Err(RowsFault::Repeat(id));
        }
        if !are_below(rows, next_region) {
            return Err(RowsFault::Region);
        }
        if !is_in_size(alloc, rows, retired).map_err(|_| RowsFault::Memory)? {
            return Err(RowsFault::Size);
        }
        if !has_member(rows, leader) {
            return Err(RowsFault::Leader);
        }
        let list = RowList::from_slice(alloc, rows).map_err(|_| RowsFault::Memory)?;
        Group::from_parts(leader, &list, next_region, retired).map_err(|_| RowsFault::Memory)
    }

    // The group of parts that have no fault.
    fn from_parts(
        leader: NodeId,
        rows: &RowList,
        next_region: u32,
        retired: &Ids,
    ) -> Result<Self, AllocError>
        requires { IsGroup (state_of leader rows.now next_region retired.now) }
        ensures { IfOk result (λ group. group ≡ state_of leader rows.now next_region retired.now) }
    {
        let none = Table::new(retired.allocator());
        let table = none.with_all(rows.as_slice())?;
        let retired = Retired::new(retired.copy()?)?;
        Group::from_state(State {
            leader,
            table,
            next_region,
            retired,
        })
    }

    pub fn copy(&self) -> Result<Self, AllocError>
        ensures { IfOk result (λ copy. copy ≡ self.now) }
    {
        Group::from_state(self.state.copy()?)
    }

    // The allocator of all that the group has.
    pub(crate) fn allocator(&self) -> Global {
        self.state.table.allocator()
    }

    // The state, to take changes in.
    pub(crate) fn state(&self) -> &State
        ensures value { result.now ≡ self.now }
        ensures group { IsGroup self.now }
    {
        &self.state
    }

    // Each region with its sum.
    pub(crate) fn sums(&self) -> &[RegionSum]
        ensures { result.now ≡ region_sums self.now.rows }
    {
        &self.sums
    }

    /// The verdict on a change, where it is the next to be judged.
    pub fn judge(&self, c: &Change) -> Verdict
        ensures { result ≡ verdict_on self.now c.now }
    {
        self.state.judge(c)
    }

    /// How many regions there are.
    pub fn count(&self) -> usize
        ensures value { result ≡ length (regions self.now.rows) }
        ensures group { IsGroup self.now }
    {
        self.sums.len()
    }

    /// The region at a place, in ascending order, from 0.
    pub fn region(&self, i: usize) -> RegionId
        requires { i < length (regions self.now.rows) }
        ensures { slice_get (regions self.now.rows) i ≡ Some result }
    {
        self.sums[i].region
    }

    /// The region of a member.
    pub fn region_of(&self, id: NodeId) -> Option<RegionId>
        ensures { result ≡ option_map (λ row. row.region) (row_of id self.now.rows) }
    {
        self.state.table.region_of(id)
    }

    /// Whether the id left the group, and so never returns.
    pub fn is_retired(&self, id: NodeId) -> bool
        ensures { IsTrue result ↔ Contains self.now.retired id }
    {
        self.state.retired.has(id)
    }

    /// The number of the next new region, which is 4,294,967,295 where there can be no further one.
    pub fn next_region(&self) -> u32
        ensures { result ≡ self.now.next_region }
    {
        self.state.next_region
    }

    /// The ids that left the group.
    pub fn retired(&self) -> &Ids
        ensures { result.now ≡ self.now.retired }
    {
        self.state.retired.ids()
    }

    /// The members of a region, where there is such a region.
    pub fn roll(&self, r: RegionId) -> Result<Option<Roll>, AllocError>
        ensures { IfOk result (λ roll. roll ≡ roll_in r self.now.rows) }
    {
        let roll = self.state.table.roll(r)?;
        if roll.is_empty() {
            Ok(None)
        } else {
            Ok(Some(roll))
        }
    }

    /// All rows.
    pub fn rows(&self) -> Result<RowList, AllocError>
        ensures { IfOk result (λ rows. rows ≡ self.now.rows) }
    {
        RowList::from_slice(self.allocator(), &self.state.table.rows()?)
    }
}
