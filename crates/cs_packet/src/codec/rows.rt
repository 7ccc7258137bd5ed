ghost use Rattle.std.specs.Prelude.{◌≡◌, ◌+◌, ◌*◌, ◌≤◌, length, IfOk};
ghost use Rattle.std.specs.List.{flat_map};
ghost use Rattle.cs_base.specs.Limits.{most_members};
ghost use Rattle.cs_fields.specs.Counted.{elements_at};
ghost use Rattle.cs_fields.specs.Reading.{Gives, HasRoom, IsTaken};
ghost use Rattle.cs_fields.specs.Writing.{Appends, Extends};
ghost use Rattle.cs_packet.specs.RowsField.{AreRows, is_behind, IsRowAfter, place_after, place_from, place_of};
ghost use Rattle.cs_packet.specs.RowsField.{row_after, row_bytes, row_len, rows_at, rows_bytes, rows_len};

use cs_base::{LAST_ID, MOST_MEMBERS, Member, NodeId, RegionId};
use cs_fields::{
    PacketFault, put_member, put_region, put_u16, put_u32, take_address, take_id, take_point,
    take_region_from, take_u16_in, take_u32_in, undone,
};
use cs_group::{Row, RowList};
use std::alloc::{AllocError, Global};

/// From 1 to 2,000 rows, ascending by region and id.
pub fn take_rows(alloc: Global, bytes: &[u8], at: u32) -> Result<(RowList, u32), PacketFault>
    requires { HasRoom bytes.now at rows_len }
    ensures exact { Gives result (rows_at bytes.now at) }
    ensures spelt { IsTaken rows_bytes AreRows rows_len bytes.now at result }
{
    read_rows(alloc, bytes, at)
}

#[tactic(auto, unfolding(crate::specs::RowsField::rows_at, cs_fields::specs::Counted::counted_at))]
fn read_rows(alloc: Global, bytes: &[u8], at: u32) -> Result<(RowList, u32), PacketFault>
    requires { HasRoom bytes.now at rows_len }
    ensures { Gives result (rows_at bytes.now at) }
{
    let (count, behind) = take_u16_in(bytes, at, 1, MOST_MEMBERS as u16)?;
    take_each_row(alloc, bytes, behind, count)
}

fn take_each_row(
    alloc: Global,
    bytes: &[u8],
    at: u32,
    count: u16,
) -> Result<(RowList, u32), PacketFault>
    requires { HasRoom bytes.now at (row_len * count) }
    ensures { Gives result (elements_at row_after (λ before row. place_of row) count (0, 0) bytes.now at) }
{
    let mut rows = RowList::new(alloc);
    let mut place = at;
    let mut before = (0, 0);
    for _ in 0..count {
        let (row, behind) = take_row_after(bytes, place, before)?;
        before = place_of(&row);
        rows.push(row)?;
        place = behind;
    }
    Ok((rows, place))
}

// Where a row stands: its region and its id.
fn place_of(row: &Row) -> (u32, u32)
    ensures { result ≡ place_of row.now }
{
    (row.region.get(), row.member.id.get())
}

// A row behind the place of the one before.
fn take_row_after(bytes: &[u8], at: u32, before: (u32, u32)) -> Result<(Row, u32), PacketFault>
    requires { HasRoom bytes.now at row_len }
    ensures exact { result ≡ row_after before bytes.now at }
    ensures spelt { IsTaken row_bytes (IsRowAfter before) row_len bytes.now at result }
{
    read_row_after(bytes, at, before)
}

#[tactic(auto, unfolding(crate::specs::RowsField::row_after))]
fn read_row_after(bytes: &[u8], at: u32, before: (u32, u32)) -> Result<(Row, u32), PacketFault>
    requires { HasRoom bytes.now at row_len }
    ensures { result ≡ row_after before bytes.now at }
{
    let ((region, id), behind) = take_place_after(bytes, at, before)?;
    let (addr, behind) = take_address(bytes, behind)?;
    let (at, behind) = take_point(bytes, behind)?;
    let (seq, behind) = take_u32_in(bytes, behind, 0, LAST_ID)?;
    let member = Member { id, addr, at };
    Ok((
        Row {
            region,
            member,
            seq,
        },
        behind,
    ))
}

// A region and an id behind those of the row before.
fn take_place_after(
    bytes: &[u8],
    at: u32,
    before: (u32, u32),
) -> Result<((RegionId, NodeId), u32), PacketFault>
    requires { HasRoom bytes.now at 8 }
    ensures exact { result ≡ place_after before bytes.now at }
    ensures near { IfOk result (λ x. (x.1 ≤ length bytes.now) × (x.1 ≤ at + 8)) }
{
    let ((region, id), behind) = take_place_from(bytes, at, before.0)?;
    if !is_behind(before, (region.get(), id.get())) {
        return Err(PacketFault::Value(at));
    }
    Ok(((region, id), behind))
}

#[tactic(auto, unfolding(crate::specs::RowsField::place_from))]
fn take_place_from(
    bytes: &[u8],
    at: u32,
    least: u32,
) -> Result<((RegionId, NodeId), u32), PacketFault>
    requires { HasRoom bytes.now at 8 }
    ensures exact { result ≡ place_from least bytes.now at }
    ensures near { IfOk result (λ x. (x.1 ≤ length bytes.now) × (x.1 ≤ at + 8)) }
{
    let (region, behind) = take_region_from(bytes, at, u64::from(least))?;
    let (id, behind) = take_id(bytes, behind)?;
    Ok(((region, id), behind))
}

fn is_behind(before: (u32, u32), place: (u32, u32)) -> bool
    ensures { result ≡ is_behind before place }
{
    before < place
}

pub fn put_rows(out: &mut Vec<u8>, v: &RowList) -> Result<(), AllocError>
    requires { length v.now ≤ most_members }
    ensures { Appends result out.old.items out.new.items (rows_bytes v.now) }
{
    undone!(out, append_rows(out, v.as_slice()))
}

#[tactic(auto, unfolding(crate::specs::RowsField::rows_bytes))]
fn append_rows(out: &mut Vec<u8>, rows: &[Row]) -> Result<(), AllocError>
    requires { length rows.now ≤ most_members }
    ensures { Extends result out.old.items out.new.items (rows_bytes rows.now) }
{
    put_u16(out, &(rows.len() as u16))?;
    append_each_row(out, rows)
}

fn append_each_row(out: &mut Vec<u8>, rows: &[Row]) -> Result<(), AllocError>
    ensures { Extends result out.old.items out.new.items (flat_map row_bytes rows.now) }
{
    for row in rows {
        put_row(out, row)?;
    }
    Ok(())
}

fn put_row(out: &mut Vec<u8>, row: &Row) -> Result<(), AllocError>
    ensures { Appends result out.old.items out.new.items (row_bytes row.now) }
{
    undone!(out, append_row(out, row))
}

#[tactic(auto, unfolding(crate::specs::RowsField::row_bytes))]
fn append_row(out: &mut Vec<u8>, row: &Row) -> Result<(), AllocError>
    ensures { Extends result out.old.items out.new.items (row_bytes row.now) }
{
    put_region(out, &row.region)?;
    put_member(out, &row.member)?;
    put_u32(out, &row.seq)
}
