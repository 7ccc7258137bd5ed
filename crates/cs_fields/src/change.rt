//! Changes, and lists of them.

ghost use Rattle.std.specs.Prelude.{◌≡◌, ◌+◌, ◌*◌, ◌≤◌, ◌==◌, [], ◌++◌, length, IfOk};
ghost use Rattle.std.specs.List.{list_any};
ghost use Rattle.cs_base.specs.Changes.{id_of};
ghost use Rattle.cs_base.specs.Limits.{most_changes};
ghost use Rattle.cs_base.specs.Ranges.{IsChange};
ghost use Rattle.cs_fields.specs.Changes.{IsChanges, IsNewChange, change_after, change_at, change_bytes, change_len};
ghost use Rattle.cs_fields.specs.Changes.{is_new};
ghost use Rattle.cs_fields.specs.Changes.{changes_at, changes_bytes, changes_len, join_at, move_at, with_change};
ghost use Rattle.cs_fields.specs.Counted.{elements_at};
ghost use Rattle.cs_fields.specs.Fields.{id_at, id_bytes, point_bytes};
ghost use Rattle.cs_fields.specs.Numbers.{number_bytes};
ghost use Rattle.cs_fields.specs.Reading.{checked, Gives, HasRoom, IsTaken};
ghost use Rattle.cs_fields.specs.Writing.{Appends, Extends};

use crate::address::{put_point, take_address, take_point};
use crate::member::{put_id, put_member, take_id};
use crate::number::{put_u8, put_u32, take_u8_in, take_u32_in};
use crate::{PacketFault, undone};
use cs_base::{Change, Changes, LAST_ID, MOST_CHANGES, Member, NodeId, Point};
use std::alloc::{AllocError, Global};

pub fn take_change(bytes: &[u8], at: u32) -> Result<(Change, u32), PacketFault>
    requires { HasRoom bytes.now at change_len }
    ensures exact { result ≡ change_at bytes.now at }
    ensures spelt { IsTaken change_bytes IsChange change_len bytes.now at result }
{
    take_change_after(bytes, at, &[])
}

// A change whose id isn't that of a change before.
fn take_change_after(
    bytes: &[u8],
    at: u32,
    changes: &[Change],
) -> Result<(Change, u32), PacketFault>
    requires { HasRoom bytes.now at change_len }
    ensures exact { result ≡ change_after changes.now bytes.now at }
    ensures spelt { IsTaken change_bytes (IsNewChange changes.now) change_len bytes.now at result }
{
    read_change(bytes, at, changes)
}

#[tactic(auto, unfolding(crate::specs::Changes::change_after))]
fn read_change(bytes: &[u8], at: u32, changes: &[Change]) -> Result<(Change, u32), PacketFault>
    requires { HasRoom bytes.now at change_len }
    ensures { result ≡ change_after changes.now bytes.now at }
{
    let (tag, behind) = take_u8_in(bytes, at, 1, 3)?;
    let (id, behind) = take_new_id(bytes, behind, changes)?;
    match tag {
        1 => take_join(bytes, behind, id),
        2 => take_move(bytes, behind, id),
        _ => Ok((Change::Leave { id }, behind)),
    }
}

// An id that isn't that of one of the changes.
fn take_new_id(bytes: &[u8], at: u32, changes: &[Change]) -> Result<(NodeId, u32), PacketFault>
    requires { HasRoom bytes.now at 4 }
    ensures exact { result ≡ checked (is_new changes.now) id_at bytes.now at }
    ensures near { IfOk result (λ x. (x.1 ≤ length bytes.now) × (x.1 ≤ at + 4)) }
{
    let (id, behind) = take_id(bytes, at)?;
    if has_id(changes, id) {
        return Err(PacketFault::Value(at));
    }
    Ok((id, behind))
}

fn has_id(changes: &[Change], id: NodeId) -> bool
    ensures { result ≡ list_any (λ c. id_of c == id) changes.now }
{
    changes.iter().any(|change| change.id() == id)
}

#[tactic(auto, unfolding(crate::specs::Changes::join_at))]
fn take_join(bytes: &[u8], at: u32, id: NodeId) -> Result<(Change, u32), PacketFault>
    requires { HasRoom bytes.now at (6 + 12) }
    ensures { result ≡ join_at id bytes.now at }
{
    let (addr, behind) = take_address(bytes, at)?;
    let (at, behind) = take_point(bytes, behind)?;
    Ok((Change::Join(Member { id, addr, at }), behind))
}

#[tactic(auto, unfolding(crate::specs::Changes::move_at))]
fn take_move(bytes: &[u8], at: u32, id: NodeId) -> Result<(Change, u32), PacketFault>
    requires { HasRoom bytes.now at (4 + 12) }
    ensures { result ≡ move_at id bytes.now at }
{
    let (seq, behind) = take_u32_in(bytes, at, 1, LAST_ID)?;
    let (at, behind) = take_point(bytes, behind)?;
    Ok((Change::Move { id, seq, at }, behind))
}

pub fn take_changes(alloc: Global, bytes: &[u8], at: u32) -> Result<(Changes, u32), PacketFault>
    requires { HasRoom bytes.now at changes_len }
    ensures exact { Gives result (changes_at 0 bytes.now at) }
    ensures spelt { IsTaken changes_bytes (IsChanges 0) changes_len bytes.now at result }
{
    take_some_changes(alloc, bytes, at, 0)
}

/// Changes, at least so many.
pub fn take_some_changes(
    alloc: Global,
    bytes: &[u8],
    at: u32,
    least: u8,
) -> Result<(Changes, u32), PacketFault>
    requires { HasRoom bytes.now at changes_len }
    ensures exact { Gives result (changes_at least bytes.now at) }
    ensures spelt { IsTaken changes_bytes (IsChanges least) changes_len bytes.now at result }
{
    read_changes(alloc, bytes, at, least)
}

#[tactic(auto, unfolding(crate::specs::Changes::changes_at, crate::specs::Counted::counted_at))]
fn read_changes(
    alloc: Global,
    bytes: &[u8],
    at: u32,
    least: u8,
) -> Result<(Changes, u32), PacketFault>
    requires { HasRoom bytes.now at changes_len }
    ensures { Gives result (changes_at least bytes.now at) }
{
    let (count, behind) = take_u8_in(bytes, at, least, MOST_CHANGES as u8)?;
    take_each_change(alloc, bytes, behind, count)
}

fn take_each_change(
    alloc: Global,
    bytes: &[u8],
    at: u32,
    count: u8,
) -> Result<(Changes, u32), PacketFault>
    requires place { HasRoom bytes.now at (change_len * most_changes) }
    requires few { count ≤ most_changes }
    ensures { Gives result (elements_at change_after with_change count [] bytes.now at) }
{
    let mut changes = Changes::new(alloc);
    let mut place = at;
    for _ in 0..count {
        let (change, behind) = take_change_after(bytes, place, changes.as_slice())?;
        changes.push(change)?;
        place = behind;
    }
    Ok((changes, place))
}

pub fn put_change(out: &mut Vec<u8>, v: &Change) -> Result<(), AllocError>
    ensures { Appends result out.old.items out.new.items (change_bytes v.now) }
{
    undone!(out, append_change(out, v))
}

#[tactic(auto, unfolding(crate::specs::Changes::change_bytes))]
fn append_change(out: &mut Vec<u8>, v: &Change) -> Result<(), AllocError>
    ensures { Extends result out.old.items out.new.items (change_bytes v.now) }
{
    match v {
        Change::Join(member) => {
            put_u8(out, &1)?;
            put_member(out, member)
        }
        Change::Move { id, seq, at } => append_move(out, *id, *seq, *at),
        Change::Leave { id } => {
            put_u8(out, &3)?;
            put_id(out, id)
        }
    }
}

fn append_move(out: &mut Vec<u8>, id: NodeId, seq: u32, at: Point) -> Result<(), AllocError>
    ensures { Extends result out.old.items out.new.items
        (number_bytes 1 2 ++ id_bytes id ++ number_bytes 4 seq ++ point_bytes at) }
{
    put_u8(out, &2)?;
    put_id(out, &id)?;
    put_u32(out, &seq)?;
    put_point(out, &at)
}

pub fn put_changes(out: &mut Vec<u8>, v: &Changes) -> Result<(), AllocError>
    requires { length v.now ≤ most_changes }
    ensures { Appends result out.old.items out.new.items (changes_bytes v.now) }
{
    undone!(out, append_changes(out, v.as_slice()))
}

fn append_changes(out: &mut Vec<u8>, changes: &[Change]) -> Result<(), AllocError>
    requires { length changes.now ≤ most_changes }
    ensures { Extends result out.old.items out.new.items (changes_bytes changes.now) }
{
    put_u8(out, &(changes.len() as u8))?;
    for change in changes {
        put_change(out, change)?;
    }
    Ok(())
}
