//! Modes, and the cuts of regions.

ghost use Rattle.std.specs.Prelude.{◌≡◌, ⊤};
ghost use Rattle.cs_base.specs.Ranges.{IsCut};
ghost use Rattle.cs_fields.specs.Fields.{mode_at, mode_bytes, axis_of, axis_number, cut_at, cut_bytes};
ghost use Rattle.cs_fields.specs.Reading.{HasRoom, IsTaken};
ghost use Rattle.cs_fields.specs.Writing.{Appends, Extends};

use crate::address::{put_axis, take_axis_from};
use crate::member::{put_id, put_region, take_id, take_region};
use crate::number::{put_u8, take_u8_in};
use crate::{PacketFault, undone};
use cs_base::{Axis, Cut, Mode, Split};
use std::alloc::AllocError;

pub fn take_mode(bytes: &[u8], at: u32) -> Result<(Mode, u32), PacketFault>
    requires { HasRoom bytes.now at 1 }
    ensures exact { result ≡ mode_at bytes.now at }
    ensures spelt { IsTaken mode_bytes (λ mode. ⊤) 1 bytes.now at result }
{
    read_mode(bytes, at)
}

#[tactic(auto, unfolding(crate::specs::Fields::mode_at))]
fn read_mode(bytes: &[u8], at: u32) -> Result<(Mode, u32), PacketFault>
    requires { HasRoom bytes.now at 1 }
    ensures { result ≡ mode_at bytes.now at }
{
    let (n, behind) = take_u8_in(bytes, at, 0, 1)?;
    let mode = if n == 0 { Mode::Partial } else { Mode::Full };
    Ok((mode, behind))
}

#[tactic(auto, unfolding(crate::specs::Fields::mode_bytes))]
pub fn put_mode(out: &mut Vec<u8>, v: &Mode) -> Result<(), AllocError>
    ensures { Appends result out.old.items out.new.items (mode_bytes v.now) }
{
    let n = match v {
        Mode::Partial => 0,
        Mode::Full => 1,
    };
    put_u8(out, &n)
}

fn axis_of(n: u8) -> Axis
    ensures { result ≡ axis_of n }
{
    match n {
        0 => Axis::X,
        1 => Axis::Y,
        _ => Axis::Z,
    }
}

fn axis_number(axis: Axis) -> u8
    ensures { result ≡ axis_number axis }
{
    match axis {
        Axis::X => 0,
        Axis::Y => 1,
        Axis::Z => 2,
    }
}

pub fn take_cut(bytes: &[u8], at: u32) -> Result<(Cut, u32), PacketFault>
    requires { HasRoom bytes.now at 13 }
    ensures exact { result ≡ cut_at bytes.now at }
    ensures spelt { IsTaken cut_bytes IsCut 13 bytes.now at result }
{
    read_cut(bytes, at)
}

#[tactic(auto, unfolding(crate::specs::Fields::cut_at))]
fn read_cut(bytes: &[u8], at: u32) -> Result<(Cut, u32), PacketFault>
    requires { HasRoom bytes.now at 13 }
    ensures { result ≡ cut_at bytes.now at }
{
    let (axis, behind) = take_u8_in(bytes, at, 0, 2)?;
    let (at, behind) = take_axis_from(bytes, behind, -1_000_000)?;
    let (id, behind) = take_id(bytes, behind)?;
    let (upper, behind) = take_region(bytes, behind)?;
    let axis = axis_of(axis);
    Ok((
        Cut {
            split: Split { axis, at, id },
            upper,
        },
        behind,
    ))
}

pub fn put_cut(out: &mut Vec<u8>, v: &Cut) -> Result<(), AllocError>
    ensures { Appends result out.old.items out.new.items (cut_bytes v.now) }
{
    undone!(out, append_cut(out, v))
}

#[tactic(auto, unfolding(crate::specs::Fields::cut_bytes))]
fn append_cut(out: &mut Vec<u8>, v: &Cut) -> Result<(), AllocError>
    ensures { Extends result out.old.items out.new.items (cut_bytes v.now) }
{
    put_u8(out, &axis_number(v.split.axis))?;
    put_axis(out, &v.split.at)?;
    put_id(out, &v.split.id)?;
    put_region(out, &v.upper)
}
