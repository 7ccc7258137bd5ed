//! The merge: a region with few members is taken in by the nearest other one.
ghost use Rattle.std.specs.Prelude.{◌≡◌, ◌≤◌, length, IfOk};
ghost use Rattle.cs_base.specs.Limits.{most_summed};
ghost use Rattle.cs_group.specs.Rows.{IsInOrder, HasDistinctIds};
ghost use Rattle.cs_group.specs.Merge.{small_region, others, merge_due, merged, after_merge};

use crate::place::nearest_region;
use crate::rows::rows_moved;
use crate::table::Table;
use cs_base::{MERGE_BELOW, RegionId};
use cs_near::RegionSum;
use std::alloc::{AllocError, Global};

// The least region with few members.
fn small_region(sums: &[RegionSum]) -> Option<RegionSum>
    ensures { result ≡ small_region sums.now }
{
    sums.iter()
        .copied()
        .find(|total| (total.sum.count() as usize) < MERGE_BELOW)
}

// The sums of the other regions.
fn others(alloc: Global, region: RegionId, sums: &[RegionSum]) -> Result<Vec<RegionSum>, AllocError>
    ensures { IfOk result (λ rest. rest.items ≡ others region sums.now) }
{
    sums.iter()
        .copied()
        .filter(|total| total.region != region)
        .collect(alloc)
}

// The region that is to be given up, and the one that takes it in.
pub(crate) fn merge_due(table: &Table) -> Result<Option<(RegionId, RegionId)>, AllocError>
    ensures { IfOk result (λ merge. merge ≡ merge_due table.now) }
{
    let sums = table.sums()?;
    let Some(small) = small_region(&sums) else {
        return Ok(None);
    };
    let rest = others(table.allocator(), small.region, &sums)?;
    match nearest_region(&small.sum, &rest) {
        Some(into) => Ok(Some((small.region, into))),
        None => Ok(None),
    }
}

// The table, with the rows of one region placed in another.
fn merged(table: &Table, gone: RegionId, into: RegionId) -> Result<Table, AllocError>
    requires in_order { IsInOrder table.now }
    requires distinct { HasDistinctIds table.now }
    requires few { length table.now ≤ most_summed }
    ensures { IfOk result (λ after. after ≡ merged gone into table.now) }
{
    let rows = table.rows_of(gone)?;
    let moved = rows_moved(table.allocator(), &rows, into)?;
    let rest = table.without_all(&rows)?;
    rest.with_all(&moved)
}

// The table after a merge, if there is one.
pub(crate) fn after_merge(
    table: &Table,
    merge: &Option<(RegionId, RegionId)>,
) -> Result<Table, AllocError>
    requires in_order { IsInOrder table.now }
    requires distinct { HasDistinctIds table.now }
    requires few { length table.now ≤ most_summed }
    ensures { IfOk result (λ after. after ≡ after_merge merge.now table.now) }
{
    match merge {
        None => table.copy(),
        Some((gone, into)) => merged(table, *gone, *into),
    }
}
