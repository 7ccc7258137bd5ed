ghost use Rattle.std.specs.Prelude.{◌≡◌, ◌+◌, ◌*◌, ◌^◌, ◌<◌, ◌≤◌, length};
ghost use Rattle.std.specs.List.{flat_map};
ghost use Rattle.cs_base.specs.Limits.{most_members};
ghost use Rattle.cs_fields.specs.Counted.{above, elements_at};
ghost use Rattle.cs_fields.specs.Fields.{member_bytes, member_from, member_len};
ghost use Rattle.cs_fields.specs.Reading.{Gives, HasRoom, IsTaken};
ghost use Rattle.cs_fields.specs.Writing.{Appends, Extends};
ghost use Rattle.cs_item.specs.RollField.{AreMembers, roll_at, roll_bytes, roll_len};
ghost use Rattle.cs_roll.specs.Roll.{member_id};

use cs_base::MOST_MEMBERS;
use cs_fields::{PacketFault, put_member, put_u16, take_member_from, take_u16_in, undone};
use cs_roll::Roll;
use std::alloc::{AllocError, Global};

// The length of a member: its id, its address and its point.
const MEMBER_LEN: usize = 4 + 6 + 12;

pub fn take_roll(alloc: Global, bytes: &[u8], at: u32) -> Result<(Roll, u32), PacketFault>
    requires { HasRoom bytes.now at (roll_len most_members) }
    ensures exact { Gives result (roll_at most_members bytes.now at) }
    ensures spelt { IsTaken roll_bytes (AreMembers 0 most_members) (roll_len most_members) bytes.now at result }
{
    take_roll_within(alloc, bytes, at, MOST_MEMBERS as u16)
}

/// A roll of at most `room` members.
pub fn take_roll_within(
    alloc: Global,
    bytes: &[u8],
    at: u32,
    room: u16,
) -> Result<(Roll, u32), PacketFault>
    requires place { HasRoom bytes.now at (roll_len room) }
    requires few { room ≤ most_members }
    ensures exact { Gives result (roll_at room bytes.now at) }
    ensures spelt { IsTaken roll_bytes (AreMembers 0 room) (roll_len room) bytes.now at result }
{
    read_roll(alloc, bytes, at, room)
}

#[tactic(auto, unfolding(crate::specs::RollField::roll_at, cs_fields::specs::Counted::counted_at))]
fn read_roll(alloc: Global, bytes: &[u8], at: u32, room: u16) -> Result<(Roll, u32), PacketFault>
    requires place { HasRoom bytes.now at (roll_len room) }
    requires few { room ≤ most_members }
    ensures { Gives result (roll_at room bytes.now at) }
{
    let (count, behind) = take_u16_in(bytes, at, 0, room)?;
    take_members(alloc, bytes, behind, count)
}

// How many of so many members the bytes from this place can hold at most.
fn room_for(bytes: &[u8], at: u32, count: u16) -> usize
    ensures { result ≤ count }
{
    let left = bytes.len().saturating_sub(at as usize);
    usize::from(count).min(left / MEMBER_LEN)
}

// So many members, ascending by id.
pub fn take_members(
    alloc: Global,
    bytes: &[u8],
    at: u32,
    count: u16,
) -> Result<(Roll, u32), PacketFault>
    requires place { HasRoom bytes.now at (member_len * count) }
    requires few { count ≤ most_members }
    ensures { Gives result (elements_at member_from (above member_id) count 1 bytes.now at) }
{
    let mut roll = Roll::with_room(alloc, room_for(bytes, at, count))?;
    let mut place = at;
    let mut least = 1;
    for _ in 0..count {
        let (member, behind) = take_member_from(bytes, place, least)?;
        let id = member.id;
        roll.push(member)?;
        least = u64::from(id.get()) + 1;
        place = behind;
    }
    Ok((roll, place))
}

pub fn put_roll(out: &mut Vec<u8>, v: &Roll) -> Result<(), AllocError>
    requires { length v.now ≤ most_members }
    ensures { Appends result out.old.items out.new.items (roll_bytes v.now) }
{
    undone!(out, append_roll(out, v))
}

#[tactic(auto, unfolding(crate::specs::RollField::roll_bytes))]
fn append_roll(out: &mut Vec<u8>, v: &Roll) -> Result<(), AllocError>
    requires { length v.now ≤ most_members }
    ensures { Extends result out.old.items out.new.items (roll_bytes v.now) }
{
    put_u16(out, &(v.len() as u16))?;
    append_members(out, v)
}

pub fn append_members(out: &mut Vec<u8>, roll: &Roll) -> Result<(), AllocError>
    ensures { Extends result out.old.items out.new.items (flat_map member_bytes roll.now) }
{
    for member in roll.as_slice() {
        put_member(out, member)?;
    }
    Ok(())
}
