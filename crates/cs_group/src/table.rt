//! The rows of a group in order, with what is kept of them. A table is never written to: an edit makes a further one,
//! which shares what it can with the one before.
//!
//! A member is found by the region that the index has of its id, and by its rank in that region. The rows of a region
//! are those of a range of ranks. A row that comes or goes takes its point into the sum of its region or out of it.
ghost use Rattle.std.specs.Prelude.{◌≡◌, ◌<◌, ◌≤◌, ◌+◌, false, [], length, IfOk};
ghost use Rattle.std.specs.List.{fold};
ghost use Rattle.std.specs.Option.{option_copied, option_map};
ghost use Rattle.cs_base.specs.Limits.{most_summed};
ghost use Rattle.cs_group.specs.Place.{region_sums};
ghost use Rattle.cs_group.specs.Rows.{IsRow, has_member, members_in, placed, row_of, rows_in, without};
ghost use Rattle.cs_group.specs.Table.{entry, with_row, without_row};

use crate::Row;
use crate::kept::{KeptSum, sums_less, sums_with, totals_of};
use crate::member_region::MemberRegion;
use crate::row::{first_rank, last_rank, rank_at};
use crate::rows::roll_of;
use cs_base::{Keyed, NodeId, RegionId};
use cs_near::RegionSum;
use cs_roll::Roll;
use cs_shared::{Ranked, Shared};
use std::alloc::{AllocError, Global};
use std::marker::Model;

/// Rows in order of region and id, no two of one id, with the sum of each region's points, the region of each id, and
/// how many there are.
#[derive(Debug, Drop)]
pub struct Table {
    rows: Shared<Row>,
    sums: Shared<KeptSum>,
    index: Shared<MemberRegion>,
    count: usize,
}

impl Model for Table {
    ghost use Rattle.std.specs.Prelude.{List};
    ghost use Rattle.cs_group.specs.Table.{IsTable};
    ghost use Rattle.cs_group.specs.declared.row.Row.{Row};

    ghost Value = { List Row };

    ghost view = { λ t. t.rows };

    ghost invariant = { λ t. IsTable t.rows t.sums t.index t.count };
}

// What the index has of a row. A table keeps that each row is allowed, which its region and its member's key tell.
fn entry_of(row: &Row) -> MemberRegion
    ensures value { result ≡ entry row.now }
    ensures allowed { IsRow row.now }
{
    let _key = row.member.key();
    let _region = row.region.get();
    let _seq = row.seq;
    MemberRegion {
        id: row.member.id,
        region: row.region,
    }
}

impl Table {
    pub(crate) fn new(alloc: Global) -> Self
        ensures { result ≡ [] }
    {
        let rows = Shared::new(alloc);
        let sums = Shared::new(alloc);
        let index = Shared::new(alloc);
        Table {
            rows,
            sums,
            index,
            count: 0,
        }
    }

    // Where the table has its memory from.
    pub(crate) fn allocator(&self) -> Global {
        self.rows.allocator()
    }

    // How many rows there are.
    pub(crate) fn len(&self) -> usize
        ensures { result ≡ length self.now }
    {
        self.count
    }

    // The region of a member.
    pub(crate) fn region_of(&self, id: NodeId) -> Option<RegionId>
        ensures { result ≡ option_map (λ row. row.region) (row_of id self.now) }
    {
        let rank = u64::from(id.get());
        self.index.get(rank).map(|entry| entry.region)
    }

    // Whether there is such a member.
    pub(crate) fn has(&self, id: NodeId) -> bool
        ensures { result ≡ has_member id self.now }
    {
        self.region_of(id).is_some()
    }

    // The row of a member.
    pub(crate) fn find(&self, id: NodeId) -> Option<&Row>
        ensures value { option_copied result ≡ row_of id self.now }
        ensures few { length self.now ≤ most_summed }
    {
        match self.region_of(id) {
            Some(region) => self.rows.get(rank_at(region, id)),
            None => None,
        }
    }

    // The rows of a region.
    pub(crate) fn rows_of(&self, region: RegionId) -> Result<Vec<Row>, AllocError>
        ensures { IfOk result (λ rows. rows.items ≡ rows_in region self.now) }
    {
        self.rows.from_to(first_rank(region), last_rank(region))
    }

    // The members of a region.
    pub(crate) fn roll(&self, region: RegionId) -> Result<Roll, AllocError>
        ensures { IfOk result (λ roll. roll ≡ members_in region self.now) }
    {
        let alloc = self.rows.allocator();
        let rows = self.rows_of(region)?;
        roll_of(alloc, &rows, region)
    }

    // All rows.
    pub(crate) fn rows(&self) -> Result<Vec<Row>, AllocError>
        ensures { IfOk result (λ rows. rows.items ≡ self.now) }
    {
        self.rows.to_vec()
    }

    // Each region with its sum.
    pub(crate) fn sums(&self) -> Result<Vec<RegionSum>, AllocError>
        ensures { IfOk result (λ sums. sums.items ≡ region_sums self.now) }
    {
        totals_of(&self.sums)
    }

    // The same table, which shares all.
    pub(crate) fn copy(&self) -> Result<Self, AllocError>
        ensures { IfOk result (λ copy. copy ≡ self.now) }
    {
        let rows = self.rows.copy()?;
        let sums = self.sums.copy()?;
        let index = self.index.copy()?;
        Ok(Table {
            rows,
            sums,
            index,
            count: self.count,
        })
    }

    // The table with the row of a further member.
    fn with_new(&self, row: &Row) -> Result<Self, AllocError>
        requires is_new { has_member row.now.member.id self.now ≡ false }
        requires few { length self.now < most_summed }
        ensures { IfOk result (λ table. table ≡ placed row.now self.now) }
    {
        let entry = entry_of(row);
        let rows = self.rows.with(*row)?;
        let sums = sums_with(&self.sums, row.region, row.member.at)?;
        let index = self.index.with(entry)?;
        Ok(Table {
            rows,
            sums,
            index,
            count: self.count + 1,
        })
    }

    // The table without a member's row.
    fn less(&self, row: &Row) -> Result<Self, AllocError>
        requires { row_of row.now.member.id self.now ≡ Some row.now }
        ensures { IfOk result (λ table. table ≡ without row.now.member.id self.now) }
    {
        let rows = self.rows.without(row.rank())?;
        let sums = sums_less(&self.sums, row.region, row.member.at)?;
        let id = u64::from(row.member.id.get());
        let index = self.index.without(id)?;
        Ok(Table {
            rows,
            sums,
            index,
            count: self.count - 1,
        })
    }

    // The table without the row of this id.
    pub(crate) fn without(&self, id: NodeId) -> Result<Self, AllocError>
        ensures { IfOk result (λ table. table ≡ without id self.now) }
    {
        match self.find(id) {
            Some(row) => self.less(row),
            None => self.copy(),
        }
    }

    // The table with the row in its place, instead of one of its id.
    pub(crate) fn with(&self, row: &Row) -> Result<Self, AllocError>
        requires { length (without row.now.member.id self.now) < most_summed }
        ensures { IfOk result (λ table. table ≡ with_row self.now row.now) }
    {
        let others = self.without(row.member.id)?;
        others.with_new(row)
    }

    // The table without the ids of these rows.
    pub(crate) fn without_all(&self, rows: &[Row]) -> Result<Self, AllocError>
        ensures { IfOk result (λ table. table ≡ fold without_row self.now rows.now) }
    {
        let mut table = self.copy()?;
        for row in rows {
            table = table.without(row.member.id)?;
        }
        Ok(table)
    }

    // The table with each of these rows in its place.
    pub(crate) fn with_all(&self, rows: &[Row]) -> Result<Self, AllocError>
        requires { length self.now + length rows.now ≤ most_summed }
        ensures { IfOk result (λ table. table ≡ fold with_row self.now rows.now) }
    {
        let mut table = self.copy()?;
        for row in rows {
            table = table.with(row)?;
        }
        Ok(table)
    }
}
