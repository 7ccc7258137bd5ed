//! Rows in order: those of a region, its roll and its summary, and all rows as they were before a cut.
ghost use Rattle.std.specs.Prelude.{◌≡◌, ℕ, ◌<◌, ◌≤◌, List, length, map, Some, IfOk};
ghost use Rattle.std.specs.List.{AllByRecursion};
ghost use Rattle.cs_base.specs.Limits.{most_members};
ghost use Rattle.cs_group.specs.Cut.{after_cut};
ghost use Rattle.cs_group.specs.Group.{is_among};
ghost use Rattle.cs_group.specs.Rows.{IsInOrder, rows_in, members_in, regions};
ghost use Rattle.cs_group.specs.declared.row.Row.{Row};
ghost use Rattle.cs_roll.specs.Sight.{at_region};
ghost use Rattle.cs_slicer.specs.Turn.{summaries_of};
ghost use Rattle.cs_slicer.specs.Rejoined.{rejoined_row, IsBelowCut};

use cs_base::{Cut, RegionId};
use cs_group::Row;
use cs_roll::{Roll, Summary};
use std::alloc::{AllocError, Global};

// The rows of a region.
pub(crate) fn rows_in(rows: &[Row], region: RegionId) -> &[Row]
    requires { IsInOrder rows.now }
    ensures { result.now ≡ rows_in region rows.now }
{
    let start = rows.partition_point(|row| row.region < region);
    let rest = &rows[start..];
    let size = rest.partition_point(|row| row.region <= region);
    &rest[..size]
}

// Whether the region has a row.
pub(crate) fn has_region(rows: &[Row], region: RegionId) -> bool
    requires { IsInOrder rows.now }
    ensures { result ≡ is_among (regions rows.now) region }
{
    !rows_in(rows, region).is_empty()
}

// The members of a region.
pub(crate) fn roll_in(alloc: Global, rows: &[Row], region: RegionId) -> Result<Roll, AllocError>
    requires { IsInOrder rows.now }
    ensures { IfOk result (λ roll. roll ≡ members_in region rows.now) }
{
    let mut roll = Roll::new(alloc);
    for row in rows_in(rows, region) {
        roll.push(row.member)?;
    }
    Ok(roll)
}

// The summary of a region that has members.
pub(crate) fn summary_in(
    alloc: Global,
    rows: &[Row],
    region: RegionId,
) -> Result<Option<Summary>, AllocError>
    requires in_order { IsInOrder rows.now }
    requires few { length rows.now ≤ most_members }
    ensures { IfOk result (λ summary. summary ≡ at_region region (summaries_of rows.now)) }
{
    let roll = roll_in(alloc, rows, region)?;
    if roll.is_empty() {
        return Ok(None);
    }
    Ok(Some(roll.summary()?))
}

// The row as it was before the cut: one of the upper region was in the region that was cut.
fn rejoined(row: &Row, region: RegionId, upper: RegionId) -> Row
    ensures { result ≡ rejoined_row region upper row.now }
{
    if row.region == upper {
        Row { region, ..*row }
    } else {
        *row
    }
}

// The rows as they were before the cut, in another order.
fn all_rejoined(
    alloc: Global,
    rows: &[Row],
    region: RegionId,
    upper: RegionId,
) -> Result<Vec<Row>, AllocError>
    ensures { IfOk result (λ all. all.items ≡ map (rejoined_row region upper) rows.now) }
{
    rows.iter()
        .map(|row| rejoined(row, region, upper))
        .collect(alloc)
}

// The rows before the cut that led to these.
pub(crate) fn before_cut(
    alloc: Global,
    rows: &[Row],
    cut: &Option<(RegionId, Cut)>,
) -> Result<Vec<Row>, AllocError>
    ensures { (before : List Row) → IsInOrder before → IsBelowCut cut.now before →
        rows.now ≡ after_cut cut.now before → IfOk result (λ all. all.items ≡ before) }
{
    let Some((region, cut)) = cut else {
        return Vec::from_slice(alloc, rows);
    };
    let mut all = all_rejoined(alloc, rows, *region, cut.upper)?;
    all.sort_unstable_by_key(|row| (row.region, row.member.id));
    Ok(all)
}
