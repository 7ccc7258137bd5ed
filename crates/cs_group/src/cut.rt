//! The cut: the largest region is split in two where it has many members.
ghost use Rattle.std.specs.Prelude.{◌≡◌, ◌<◌, ◌≤◌, nat_le, length, IfOk};
ghost use Rattle.std.specs.List.{AllByRecursion, filter, find, list_all};
ghost use Rattle.std.specs.Option.{option_map};
ghost use Rattle.cs_base.specs.Limits.{most_summed};
ghost use Rattle.cs_group.specs.Rows.{IsInOrder, HasDistinctIds};
ghost use Rattle.cs_group.specs.Cut.{is_largest, region_to_cut, is_cut_off, cut_rows};

use crate::Row;
use crate::rows::rows_moved;
use crate::table::Table;
use cs_base::{CUT_ABOVE, Cut, MOST_REGIONS, RegionId, Split};
use cs_near::RegionSum;
use std::alloc::{AllocError, Global};

// Whether no region has more members.
fn none_has_more(sums: &[RegionSum], count: u32) -> bool
    ensures { result ≡ list_all (λ other. nat_le other.sum.count count) sums.now }
{
    sums.iter().all(|other| other.sum.count() <= count)
}

// Whether the region has many members, and none has more.
fn is_largest(sums: &[RegionSum], total: &RegionSum) -> bool
    ensures { result ≡ is_largest sums.now total.now }
{
    let count = total.sum.count();
    count as usize > CUT_ABOVE && none_has_more(sums, count)
}

// The least of the largest regions, where one has many members.
fn largest(sums: &[RegionSum]) -> Option<RegionId>
    ensures { result ≡ option_map (λ total. total.region) (find (is_largest sums.now) sums.now) }
{
    sums.iter()
        .find(|total| is_largest(sums, total))
        .map(|total| total.region)
}

// The region that is to be cut.
pub(crate) fn region_to_cut(table: &Table) -> Result<Option<RegionId>, AllocError>
    ensures { IfOk result (λ region. region ≡ region_to_cut table.now) }
{
    let sums = table.sums()?;
    if sums.len() >= MOST_REGIONS {
        return Ok(None);
    }
    Ok(largest(&sums))
}

// Whether the cut moves the row.
fn is_cut_off(region: RegionId, split: &Split, row: &Row) -> bool
    ensures { result ≡ is_cut_off region split.now row.now }
{
    row.region == region && split.is_upper(&row.member)
}

// The rows of the upper members.
fn upper_rows(
    alloc: Global,
    rows: &[Row],
    region: RegionId,
    split: &Split,
) -> Result<Vec<Row>, AllocError>
    ensures { IfOk result (λ upper. upper.items ≡ filter (is_cut_off region split.now) rows.now) }
{
    rows.iter()
        .copied()
        .filter(|row| is_cut_off(region, split, row))
        .collect(alloc)
}

// The table, with the rows of the upper members in their new region, which comes last.
pub(crate) fn cut_rows(table: &Table, region: RegionId, cut: &Cut) -> Result<Table, AllocError>
    requires in_order { IsInOrder table.now }
    requires distinct { HasDistinctIds table.now }
    requires few { length table.now ≤ most_summed }
    requires numbered { AllByRecursion (λ row. row.region < cut.now.upper) table.now }
    ensures { IfOk result (λ after. after ≡ cut_rows region cut.now table.now) }
{
    let alloc = table.allocator();
    let rows = table.rows_of(region)?;
    let upper = upper_rows(alloc, &rows, region, &cut.split)?;
    let moved = rows_moved(alloc, &upper, cut.upper)?;
    let rest = table.without_all(&upper)?;
    rest.with_all(&moved)
}
