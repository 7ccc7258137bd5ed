ghost use Rattle.std.specs.Prelude.{◌≡◌, ◌+◌, ◌*◌, ◌^◌, ◌<◌, ◌≤◌, length};
ghost use Rattle.cs_base.specs.Limits.{most_members, most_regions};
ghost use Rattle.cs_fields.specs.Counted.{elements_at};
ghost use Rattle.cs_fields.specs.Fields.{member_len};
ghost use Rattle.cs_fields.specs.Reading.{Gives, HasRoom, IsTaken};
ghost use Rattle.cs_fields.specs.Writing.{Appends, Extends};
ghost use Rattle.cs_item.specs.Beside.{beside_bytes};
ghost use Rattle.cs_item.specs.PictureField.{all_left, AreRolls, IsPicture, IsRegionRollAfter, left_after, picture_at};
ghost use Rattle.cs_item.specs.PictureField.{picture_bytes, picture_len, region_roll_after, rolls_at, rolls_bytes};
ghost use Rattle.cs_item.specs.PictureField.{rolls_len};
ghost use Rattle.cs_item.specs.RollField.{roll_bytes, roll_len};

use crate::codec::regions::{put_regions, take_some_regions};
use crate::codec::roll::{put_roll, take_roll_within};
use crate::{Picture, Rolls};
use cs_base::{MOST_MEMBERS, MOST_REGIONS, RegionId};
use cs_fields::{
    PacketFault, put_epoch, put_region, put_u8, take_epoch, take_region_from, take_u8_in, undone,
};
use cs_roll::Roll;
use std::alloc::{AllocError, Global};

/// A picture of at least one region, with rolls of no more members together than the group may have.
pub fn take_picture(alloc: Global, bytes: &[u8], at: u32) -> Result<(Picture, u32), PacketFault>
    requires { HasRoom bytes.now at picture_len }
    ensures exact { Gives result (picture_at bytes.now at) }
    ensures spelt { IsTaken picture_bytes IsPicture picture_len bytes.now at result }
{
    read_picture(alloc, bytes, at)
}

#[tactic(auto, unfolding(crate::specs::PictureField::picture_at))]
fn read_picture(alloc: Global, bytes: &[u8], at: u32) -> Result<(Picture, u32), PacketFault>
    requires { HasRoom bytes.now at picture_len }
    ensures { Gives result (picture_at bytes.now at) }
{
    let (epoch, behind) = take_epoch(bytes, at)?;
    let (summaries, behind) = take_some_regions(alloc, bytes, behind, 1)?;
    let (rolls, behind) = take_rolls(alloc, bytes, behind)?;
    Ok((
        Picture {
            epoch,
            summaries,
            rolls,
        },
        behind,
    ))
}

#[tactic(auto, unfolding(crate::specs::PictureField::rolls_at, cs_fields::specs::Counted::counted_at))]
fn take_rolls(alloc: Global, bytes: &[u8], at: u32) -> Result<(Rolls, u32), PacketFault>
    requires { HasRoom bytes.now at rolls_len }
    ensures { Gives result (rolls_at bytes.now at) }
{
    let (count, behind) = take_u8_in(bytes, at, 0, MOST_REGIONS as u8)?;
    take_each_roll(alloc, bytes, behind, count)
}

fn take_each_roll(
    alloc: Global,
    bytes: &[u8],
    at: u32,
    count: u8,
) -> Result<(Rolls, u32), PacketFault>
    requires place { HasRoom bytes.now at (6 * most_regions + member_len * most_members) }
    requires few { count ≤ most_regions }
    ensures { Gives result (elements_at region_roll_after left_after count all_left bytes.now at) }
{
    let mut rolls = Rolls::new(alloc);
    let mut place = at;
    let mut least = 0;
    let mut room = MOST_MEMBERS as u16;
    for _ in 0..count {
        let ((region, roll), behind) = take_region_roll(alloc, bytes, place, least, room)?;
        room -= roll.len() as u16;
        rolls.push((region, roll))?;
        least = u64::from(region.get()) + 1;
        place = behind;
    }
    Ok((rolls.shared()?, place))
}

// A region that is at least `least`, and a roll of at most `room` members.
fn take_region_roll(
    alloc: Global,
    bytes: &[u8],
    at: u32,
    least: u64,
    room: u16,
) -> Result<((RegionId, Roll), u32), PacketFault>
    requires place { HasRoom bytes.now at (4 + roll_len room) }
    requires few { room ≤ most_members }
    ensures exact { Gives result (region_roll_after (record { least = least; room = room }) bytes.now at) }
    ensures spelt { IsTaken (beside_bytes roll_bytes) (IsRegionRollAfter (record { least = least; room = room }))
        (4 + roll_len room) bytes.now at result }
{
    read_region_roll(alloc, bytes, at, least, room)
}

#[tactic(auto, unfolding(crate::specs::Beside::beside_from))]
fn read_region_roll(
    alloc: Global,
    bytes: &[u8],
    at: u32,
    least: u64,
    room: u16,
) -> Result<((RegionId, Roll), u32), PacketFault>
    requires place { HasRoom bytes.now at (4 + roll_len room) }
    requires few { room ≤ most_members }
    ensures { Gives result (region_roll_after (record { least = least; room = room }) bytes.now at) }
{
    let (region, behind) = take_region_from(bytes, at, least)?;
    let (roll, behind) = take_roll_within(alloc, bytes, behind, room)?;
    Ok(((region, roll), behind))
}

pub fn put_picture(out: &mut Vec<u8>, v: &Picture) -> Result<(), AllocError>
    requires { IsPicture v.now }
    ensures { Appends result out.old.items out.new.items (picture_bytes v.now) }
{
    undone!(out, append_picture(out, v))
}

#[tactic(auto, unfolding(crate::specs::PictureField::picture_bytes))]
fn append_picture(out: &mut Vec<u8>, v: &Picture) -> Result<(), AllocError>
    requires { IsPicture v.now }
    ensures { Extends result out.old.items out.new.items (picture_bytes v.now) }
{
    put_epoch(out, &v.epoch)?;
    put_regions(out, &v.summaries)?;
    put_rolls(out, &v.rolls)
}

fn put_rolls(out: &mut Vec<u8>, v: &Rolls) -> Result<(), AllocError>
    requires { AreRolls v.now }
    ensures { Appends result out.old.items out.new.items (rolls_bytes v.now) }
{
    undone!(out, append_rolls(out, v))
}

#[tactic(auto, unfolding(crate::specs::PictureField::rolls_bytes))]
fn append_rolls(out: &mut Vec<u8>, v: &Rolls) -> Result<(), AllocError>
    requires { AreRolls v.now }
    ensures { Extends result out.old.items out.new.items (rolls_bytes v.now) }
{
    put_u8(out, &(v.len() as u8))?;
    for (region, roll) in v.as_slice() {
        put_region_roll(out, *region, roll)?;
    }
    Ok(())
}

fn put_region_roll(out: &mut Vec<u8>, region: RegionId, roll: &Roll) -> Result<(), AllocError>
    requires { length roll.now ≤ most_members }
    ensures { Appends result out.old.items out.new.items (beside_bytes roll_bytes (region, roll.now)) }
{
    undone!(out, append_region_roll(out, region, roll))
}

#[tactic(auto, unfolding(crate::specs::Beside::beside_bytes))]
fn append_region_roll(out: &mut Vec<u8>, region: RegionId, roll: &Roll) -> Result<(), AllocError>
    requires { length roll.now ≤ most_members }
    ensures { Extends result out.old.items out.new.items (beside_bytes roll_bytes (region, roll.now)) }
{
    put_region(out, &region)?;
    put_roll(out, roll)
}
