//! Addresses and points.

ghost use Rattle.std.specs.Prelude.{◌≡◌, ◌≤ℤ◌, pos, neg_ℤ};
ghost use Rattle.std.specs.Int.{w32};
ghost use Rattle.cs_base.specs.Address.{IsAddress};
ghost use Rattle.cs_base.specs.Axes.{IsPoint};
ghost use Rattle.cs_base.specs.Limits.{farthest};
ghost use Rattle.cs_fields.specs.Fields.{address_at, address_bytes, point_at, point_bytes};
ghost use Rattle.cs_fields.specs.Numbers.{IsFrom, axis_from, signed_at, signed_bytes};
ghost use Rattle.cs_fields.specs.Reading.{HasRoom, IsTaken};
ghost use Rattle.cs_fields.specs.Writing.{Appends, Extends};

use crate::number::{put_u16, put_u32, take_raw, take_u16_in, take_u32};
use crate::{PacketFault, undone};
use cs_base::{Addr, Axis, FARTHEST, Point};
use std::alloc::AllocError;

pub fn take_address(bytes: &[u8], at: u32) -> Result<(Addr, u32), PacketFault>
    requires { HasRoom bytes.now at 6 }
    ensures exact { result ≡ address_at bytes.now at }
    ensures spelt { IsTaken address_bytes IsAddress 6 bytes.now at result }
{
    read_address(bytes, at)
}

#[tactic(auto, unfolding(crate::specs::Fields::address_at))]
fn read_address(bytes: &[u8], at: u32) -> Result<(Addr, u32), PacketFault>
    requires { HasRoom bytes.now at 6 }
    ensures { result ≡ address_at bytes.now at }
{
    let (ip, behind) = take_raw::<4>(bytes, at)?;
    let (port, behind) = take_u16_in(bytes, behind, 1, u16::MAX)?;
    Ok((Addr::new(ip, port).unwrap(), behind))
}

/// A coordinate that has to be from `low` to the end of the axis.
pub fn take_axis_from(bytes: &[u8], at: u32, low: i32) -> Result<(i32, u32), PacketFault>
    requires place { HasRoom bytes.now at 4 }
    requires near { neg_ℤ (pos farthest) ≤ℤ low }
    ensures exact { result ≡ axis_from low bytes.now at }
    ensures spelt { IsTaken (signed_bytes w32) (IsFrom low) 4 bytes.now at result }
{
    read_axis(bytes, at, low)
}

fn read_axis(bytes: &[u8], at: u32, low: i32) -> Result<(i32, u32), PacketFault>
    requires { HasRoom bytes.now at 4 }
    ensures { result ≡ axis_from low bytes.now at }
{
    let (coordinate, behind) = take_i32(bytes, at)?;
    if coordinate < low || coordinate > FARTHEST {
        return Err(PacketFault::Value(at));
    }
    Ok((coordinate, behind))
}

#[tactic(auto, unfolding(crate::specs::Numbers::signed_at))]
fn take_i32(bytes: &[u8], at: u32) -> Result<(i32, u32), PacketFault>
    requires { HasRoom bytes.now at 4 }
    ensures { result ≡ signed_at w32 bytes.now at }
{
    let (n, behind) = take_u32(bytes, at)?;
    Ok((n.cast_signed(), behind))
}

pub fn take_point(bytes: &[u8], at: u32) -> Result<(Point, u32), PacketFault>
    requires { HasRoom bytes.now at 12 }
    ensures exact { result ≡ point_at bytes.now at }
    ensures spelt { IsTaken point_bytes IsPoint 12 bytes.now at result }
{
    read_point(bytes, at)
}

#[tactic(auto, unfolding(crate::specs::Fields::point_at))]
fn read_point(bytes: &[u8], at: u32) -> Result<(Point, u32), PacketFault>
    requires { HasRoom bytes.now at 12 }
    ensures { result ≡ point_at bytes.now at }
{
    let (x, behind) = take_axis_from(bytes, at, -FARTHEST)?;
    let (y, behind) = take_axis_from(bytes, behind, -FARTHEST)?;
    let (z, behind) = take_axis_from(bytes, behind, -FARTHEST)?;
    Ok((Point::new(x, y, z).unwrap(), behind))
}

pub fn put_address(out: &mut Vec<u8>, v: &Addr) -> Result<(), AllocError>
    ensures { Appends result out.old.items out.new.items (address_bytes v.now) }
{
    undone!(out, append_address(out, v))
}

#[tactic(auto, unfolding(crate::specs::Fields::address_bytes))]
fn append_address(out: &mut Vec<u8>, v: &Addr) -> Result<(), AllocError>
    ensures { Extends result out.old.items out.new.items (address_bytes v.now) }
{
    out.extend_from_slice(&v.ip())?;
    put_u16(out, &v.port())
}

#[tactic(auto, unfolding(crate::specs::Numbers::signed_bytes))]
pub fn put_axis(out: &mut Vec<u8>, v: &i32) -> Result<(), AllocError>
    ensures { Appends result out.old.items out.new.items (signed_bytes w32 v.now) }
{
    put_u32(out, &v.cast_unsigned())
}

pub fn put_point(out: &mut Vec<u8>, v: &Point) -> Result<(), AllocError>
    ensures { Appends result out.old.items out.new.items (point_bytes v.now) }
{
    out.extend_from_slice(&point_of(v))
}

#[tactic(auto, unfolding(crate::specs::Fields::point_bytes))]
pub(crate) fn point_of(v: &Point) -> [u8; 12]
    ensures { result ≡ point_bytes v.now }
{
    let [x_0, x_1, x_2, x_3] = v.axis(Axis::X).cast_unsigned().to_be_bytes();
    let [y_0, y_1, y_2, y_3] = v.axis(Axis::Y).cast_unsigned().to_be_bytes();
    let [z_0, z_1, z_2, z_3] = v.axis(Axis::Z).cast_unsigned().to_be_bytes();
    [x_0, x_1, x_2, x_3, y_0, y_1, y_2, y_3, z_0, z_1, z_2, z_3]
}
