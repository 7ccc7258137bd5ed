//! Ids, regions, epochs and members.

ghost use Rattle.std.specs.Prelude.{◌≡◌, ◌<◌};
ghost use Rattle.cs_base.specs.Limits.{last_id, last_number};
ghost use Rattle.cs_base.specs.Ranges.{IsFromTo, IsId, IsRegion, IsMemberFrom, IsMember};
ghost use Rattle.cs_fields.specs.Fields.{id_at, id_from, region_at, region_from, id_bytes};
ghost use Rattle.cs_fields.specs.Fields.{IsLaterEpoch, later_epoch_at, member_from, member_bytes, member_len};
ghost use Rattle.cs_fields.specs.Reading.{HasRoom, IsTaken};
ghost use Rattle.cs_fields.specs.Writing.{Appends};

use crate::address::point_of;
use crate::{PacketFault, put_u32, take_address, take_point, take_u32_in};
use cs_base::{Epoch, LAST_ID, LAST_NUMBER, Member, NodeId, RegionId};
use std::alloc::AllocError;

/// An id that is at least `least`, as it is in ascending lists.
pub fn take_id_from(bytes: &[u8], at: u32, least: u64) -> Result<(NodeId, u32), PacketFault>
    requires place { HasRoom bytes.now at 4 }
    requires some { 0 < least }
    ensures exact { result ≡ id_from least bytes.now at }
    ensures spelt { IsTaken id_bytes (IsFromTo least last_id) 4 bytes.now at result }
{
    let (n, behind) = take_u32_in(bytes, at, least, LAST_ID)?;
    Ok((NodeId::new(n).unwrap(), behind))
}

pub fn take_id(bytes: &[u8], at: u32) -> Result<(NodeId, u32), PacketFault>
    requires { HasRoom bytes.now at 4 }
    ensures exact { result ≡ id_at bytes.now at }
    ensures spelt { IsTaken id_bytes IsId 4 bytes.now at result }
{
    take_id_from(bytes, at, 1)
}

/// A region that is at least `least`, as it is in ascending lists.
pub fn take_region_from(bytes: &[u8], at: u32, least: u64) -> Result<(RegionId, u32), PacketFault>
    requires { HasRoom bytes.now at 4 }
    ensures exact { result ≡ region_from least bytes.now at }
    ensures spelt { IsTaken id_bytes (IsFromTo least last_number) 4 bytes.now at result }
{
    let (n, behind) = take_u32_in(bytes, at, least, LAST_NUMBER)?;
    Ok((RegionId::new(n).unwrap(), behind))
}

pub fn take_region(bytes: &[u8], at: u32) -> Result<(RegionId, u32), PacketFault>
    requires { HasRoom bytes.now at 4 }
    ensures exact { result ≡ region_at bytes.now at }
    ensures spelt { IsTaken id_bytes IsRegion 4 bytes.now at result }
{
    take_region_from(bytes, at, 0)
}

pub fn take_epoch(bytes: &[u8], at: u32) -> Result<(Epoch, u32), PacketFault>
    requires { HasRoom bytes.now at 4 }
    ensures exact { result ≡ region_at bytes.now at }
    ensures spelt { IsTaken id_bytes IsRegion 4 bytes.now at result }
{
    take_epoch_from(bytes, at, 0)
}

/// An epoch that isn't 0.
pub fn take_later_epoch(bytes: &[u8], at: u32) -> Result<(Epoch, u32), PacketFault>
    requires { HasRoom bytes.now at 4 }
    ensures exact { result ≡ later_epoch_at bytes.now at }
    ensures spelt { IsTaken id_bytes IsLaterEpoch 4 bytes.now at result }
{
    take_epoch_from(bytes, at, 1)
}

fn take_epoch_from(bytes: &[u8], at: u32, least: u64) -> Result<(Epoch, u32), PacketFault>
    requires { HasRoom bytes.now at 4 }
    ensures exact { result ≡ region_from least bytes.now at }
    ensures spelt { IsTaken id_bytes (IsFromTo least last_number) 4 bytes.now at result }
{
    let (n, behind) = take_u32_in(bytes, at, least, LAST_NUMBER)?;
    Ok((Epoch::new(n).unwrap(), behind))
}

pub fn take_member(bytes: &[u8], at: u32) -> Result<(Member, u32), PacketFault>
    requires { HasRoom bytes.now at member_len }
    ensures exact { result ≡ member_from 1 bytes.now at }
    ensures spelt { IsTaken member_bytes IsMember member_len bytes.now at result }
{
    take_member_from(bytes, at, 1)
}

/// A member whose id is at least `least`, as it is in rolls.
pub fn take_member_from(bytes: &[u8], at: u32, least: u64) -> Result<(Member, u32), PacketFault>
    requires place { HasRoom bytes.now at member_len }
    requires some { 0 < least }
    ensures exact { result ≡ member_from least bytes.now at }
    ensures spelt { IsTaken member_bytes (IsMemberFrom least) member_len bytes.now at result }
{
    read_member(bytes, at, least)
}

#[tactic(auto, unfolding(crate::specs::Fields::member_from))]
fn read_member(bytes: &[u8], at: u32, least: u64) -> Result<(Member, u32), PacketFault>
    requires place { HasRoom bytes.now at member_len }
    requires some { 0 < least }
    ensures { result ≡ member_from least bytes.now at }
{
    let (id, behind) = take_id_from(bytes, at, least)?;
    let (addr, behind) = take_address(bytes, behind)?;
    let (at, behind) = take_point(bytes, behind)?;
    Ok((Member { id, addr, at }, behind))
}

pub fn put_id(out: &mut Vec<u8>, v: &NodeId) -> Result<(), AllocError>
    ensures { Appends result out.old.items out.new.items (id_bytes v.now) }
{
    put_u32(out, &v.get())
}

pub fn put_region(out: &mut Vec<u8>, v: &RegionId) -> Result<(), AllocError>
    ensures { Appends result out.old.items out.new.items (id_bytes v.now) }
{
    put_u32(out, &v.get())
}

pub fn put_epoch(out: &mut Vec<u8>, v: &Epoch) -> Result<(), AllocError>
    ensures { Appends result out.old.items out.new.items (id_bytes v.now) }
{
    put_u32(out, &v.get())
}

pub fn put_member(out: &mut Vec<u8>, v: &Member) -> Result<(), AllocError>
    ensures { Appends result out.old.items out.new.items (member_bytes v.now) }
{
    out.extend_from_slice(&bytes_of(v))
}

// The bytes of a member, written at once: most of what is written are members.
#[tactic(auto, unfolding(crate::specs::Fields::member_bytes))]
fn bytes_of(v: &Member) -> [u8; 22]
    ensures { result ≡ member_bytes v.now }
{
    let [id_0, id_1, id_2, id_3] = v.id.get().to_be_bytes();
    let [a, b, c, d] = v.addr.ip();
    let [port_0, port_1] = v.addr.port().to_be_bytes();
    let [x_0, x_1, x_2, x_3, y_0, y_1, y_2, y_3, z_0, z_1, z_2, z_3] = point_of(&v.at);
    [
        id_0, id_1, id_2, id_3, a, b, c, d, port_0, port_1, x_0, x_1, x_2, x_3, y_0, y_1, y_2, y_3,
        z_0, z_1, z_2, z_3,
    ]
}
