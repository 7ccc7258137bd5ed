//! Rows in a list: whether one stands before another, whether one is that of a member, and what they have in common.
ghost use Rattle.std.specs.Prelude.{◌≡◌, ◌≤◌, map, IfOk};
ghost use Rattle.std.specs.List.{AllByRecursion};
ghost use Rattle.cs_base.specs.Limits.{last_number};
ghost use Rattle.cs_group.specs.Rows.{is_before, IsInOrder, has_member, members_in, moved_to, regions};

use crate::Row;
use cs_base::{Ids, NodeId, RegionId};
use cs_roll::Roll;
use std::alloc::{AllocError, Global};

// Whether a row stands before another.
pub(crate) fn is_before(a: &Row, b: &Row) -> bool
    ensures { result ≡ is_before a.now b.now }
{
    (a.region, a.member.id) < (b.region, b.member.id)
}

pub(crate) fn has_member(rows: &[Row], id: NodeId) -> bool
    ensures { result ≡ has_member id rows.now }
{
    rows.iter().any(|row| row.member.id == id)
}

// The rows, in another region.
pub(crate) fn rows_moved(alloc: Global, rows: &[Row], to: RegionId) -> Result<Vec<Row>, AllocError>
    ensures { IfOk result (λ moved. moved.items ≡ map (moved_to to) rows.now) }
{
    rows.iter()
        .map(|row| Row { region: to, ..*row })
        .collect(alloc)
}

// The members of a region.
pub(crate) fn roll_of(alloc: Global, rows: &[Row], region: RegionId) -> Result<Roll, AllocError>
    requires { IsInOrder rows.now }
    ensures { IfOk result (λ roll. roll ≡ members_in region rows.now) }
{
    let mut roll = Roll::new(alloc);
    for row in rows {
        if row.region == region {
            roll.push(row.member)?;
        }
    }
    Ok(roll)
}

// The regions that have members.
pub(crate) fn regions_of(alloc: Global, rows: &[Row]) -> Result<Ids, AllocError>
    ensures value { IfOk result (λ known. known ≡ regions rows.now) }
    ensures not_last { IfOk result (λ known. AllByRecursion (λ n. n ≤ last_number) known) }
{
    let mut regions = Ids::new(alloc);
    for row in rows {
        regions.insert(row.region.get())?;
    }
    Ok(regions)
}
