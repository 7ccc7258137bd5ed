//! What rows have to be like to be a group's.
ghost use Rattle.std.specs.Prelude.{◌≡◌, nat_lt, IfOk};
ghost use Rattle.std.specs.List.{list_all};
ghost use Rattle.cs_base.specs.Ascending.{IsAscending};
ghost use Rattle.cs_group.specs.Faults.{is_in_order, first_repeat, is_in_size};

use crate::Row;
use crate::rows::{is_before, regions_of};
use cs_base::{Ids, MOST_MEMBERS, MOST_REGIONS, MOST_TOGETHER, NodeId};
use std::alloc::{AllocError, Global};
use thiserror::Error;

/// What is wrong with rows that are to be a group's: the first that fits, in this order.
#[derive(Clone, Copy, Debug, PartialEq, Eq, Error)]
pub enum RowsFault {
    #[error("the rows don't ascend by region and id")]
    Order,
    /// The id of the first row whose id stands in an earlier row or is retired.
    #[error("an id stands in two rows, or is retired")]
    Repeat(NodeId),
    #[error("a region isn't below the next region number")]
    Region,
    #[error("too many members, regions, or members and retired ids together")]
    Size,
    #[error("no row has the leader")]
    Leader,
    #[error("out of memory")]
    Memory,
}

// Whether each row is below those after it.
pub(crate) fn is_in_order(rows: &[Row]) -> bool
    ensures { result ≡ is_in_order rows.now }
{
    for i in 1..rows.len() {
        if !is_before(&rows[i - 1], &rows[i]) {
            return false;
        }
    }
    true
}

// The id of the first row whose id stands in an earlier row or is retired.
pub(crate) fn first_repeat(retired: &Ids, rows: &[Row]) -> Result<Option<NodeId>, AllocError>
    ensures { IfOk result (λ repeat. repeat ≡ first_repeat retired.now rows.now) }
{
    let mut seen = retired.copy()?;
    for row in rows {
        if !seen.insert(row.member.id.get())? {
            return Ok(Some(row.member.id));
        }
    }
    Ok(None)
}

// Whether each region is below the number.
pub(crate) fn are_below(rows: &[Row], next_region: u32) -> bool
    ensures { result ≡ list_all (λ r. nat_lt r.region next_region) rows.now }
{
    rows.iter().all(|row| row.region.get() < next_region)
}

// Whether the rows and the retired ids are within their numbers.
pub(crate) fn is_in_size(alloc: Global, rows: &[Row], retired: &Ids) -> Result<bool, AllocError>
    ensures value { IfOk result (λ is_in. is_in ≡ is_in_size rows.now retired.now) }
    ensures ascending { IfOk result (λ _. IsAscending retired.now) }
{
    let regions = regions_of(alloc, rows)?;
    let retired = retired.as_slice();
    Ok(
        rows.len() <= MOST_MEMBERS
            && regions.len() <= MOST_REGIONS
            && retired.len() <= MOST_TOGETHER - rows.len(),
    )
}
