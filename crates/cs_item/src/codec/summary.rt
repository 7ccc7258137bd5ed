ghost use Rattle.std.specs.Prelude.{◌≡◌, ◌+◌, ◌*◌, ◌^◌, ◌<◌, ◌≤◌, ◌&&◌, ◌*ℤ◌, int_le, length, pos, IfOk};
ghost use Rattle.std.specs.Int.{w64};
ghost use Rattle.cs_base.specs.Axes.{from_row, IsNear, IsPoint, on_axis};
ghost use Rattle.cs_base.specs.Limits.{farthest, most_globals, most_members};
ghost use Rattle.cs_fields.specs.Fields.{point_bytes};
ghost use Rattle.cs_fields.specs.Numbers.{signed_at, signed_bytes};
ghost use Rattle.cs_fields.specs.Reading.{Gives, HasRoom, IsTaken};
ghost use Rattle.cs_fields.specs.Writing.{Appends, Extends};
ghost use Rattle.cs_item.specs.SummaryField.{AreGlobals, globals_at, globals_bytes, globals_len, high_at, IsHigh};
ghost use Rattle.cs_item.specs.SummaryField.{IsShortSummary, is_sum_of, sum_at, sum_bytes, summary_at};
ghost use Rattle.cs_item.specs.SummaryField.{summary_bytes, summary_len, sums_fit};
ghost use Rattle.cs_roll.specs.Summary.{IsSummary};

use crate::codec::roll::{append_members, take_members};
use cs_base::{Axis, MOST_GLOBALS, MOST_MEMBERS, Point};
use cs_fields::{
    PacketFault, put_axis, put_u8, put_u32, put_u64, take_axis_from, take_point, take_u8_in,
    take_u32_in, take_u64, undone,
};
use cs_roll::{Roll, Summary};
use std::alloc::{AllocError, Global};
use std::marker::Model;

/// A summary of no more members than the group may have. Its sums are checked after its last global.
pub fn take_summary(alloc: Global, bytes: &[u8], at: u32) -> Result<(Summary, u32), PacketFault>
    requires { HasRoom bytes.now at summary_len }
    ensures exact { Gives result (summary_at bytes.now at) }
    ensures spelt { IsTaken summary_bytes IsShortSummary summary_len bytes.now at result }
{
    read_summary(alloc, bytes, at)
}

#[tactic(auto, unfolding(crate::specs::SummaryField::summary_at))]
fn read_summary(alloc: Global, bytes: &[u8], at: u32) -> Result<(Summary, u32), PacketFault>
    requires { HasRoom bytes.now at summary_len }
    ensures { Gives result (summary_at bytes.now at) }
{
    let (size, sum_at) = take_u32_in(bytes, at, 1, MOST_MEMBERS as u32)?;
    let (sum, behind) = take_sum(bytes, sum_at)?;
    let (low, behind) = take_point(bytes, behind)?;
    let (high, behind) = take_high(bytes, behind, low)?;
    let (globals, behind) = take_globals(alloc, bytes, behind, size)?;
    check_sum(size, sum, low, high, sum_at)?;
    Ok((make_summary(size, sum, low, high, globals), behind))
}

// The sum of points on each axis.
#[derive(Clone, Copy)]
struct PointSum {
    x: i64,
    y: i64,
    z: i64,
}

impl Model for PointSum {
    ghost use Rattle.cs_base.specs.Axes.{Axes};

    ghost Value = { Axes };

    ghost view = { λ s. record { x = s.x; y = s.y; z = s.z } };

    ghost inverse = { λ v. record { x = v.x; y = v.y; z = v.z } };
}

impl PointSum {
    fn axis(self, a: Axis) -> i64
        ensures { result ≡ on_axis a self }
    {
        match a {
            Axis::X => self.x,
            Axis::Y => self.y,
            Axis::Z => self.z,
        }
    }
}

fn make_summary(size: u32, sum: PointSum, low: Point, high: Point, globals: Roll) -> Summary
    requires { IsSummary (record { size = size; sum = sum; low = low; high = high; globals = globals }) }
    ensures { result ≡ record { size = size; sum = sum; low = low; high = high; globals = globals } }
{
    Summary {
        size,
        sum: [sum.x, sum.y, sum.z],
        low: [low.axis(Axis::X), low.axis(Axis::Y), low.axis(Axis::Z)],
        high: [high.axis(Axis::X), high.axis(Axis::Y), high.axis(Axis::Z)],
        globals,
    }
}

#[tactic(auto, unfolding(cs_fields::specs::Numbers::signed_at))]
fn take_i64(bytes: &[u8], at: u32) -> Result<(i64, u32), PacketFault>
    requires { HasRoom bytes.now at 8 }
    ensures exact { result ≡ signed_at w64 bytes.now at }
    ensures near { IfOk result (λ x. (x.1 ≤ length bytes.now) × (x.1 ≤ at + 8)) }
{
    let (n, behind) = take_u64(bytes, at)?;
    Ok((n.cast_signed(), behind))
}

#[tactic(auto, unfolding(crate::specs::SummaryField::sum_at))]
fn take_sum(bytes: &[u8], at: u32) -> Result<(PointSum, u32), PacketFault>
    requires { HasRoom bytes.now at 24 }
    ensures exact { result ≡ sum_at bytes.now at }
    ensures near { IfOk result (λ x. (x.1 ≤ length bytes.now) × (x.1 ≤ at + 24)) }
{
    let (x, behind) = take_i64(bytes, at)?;
    let (y, behind) = take_i64(bytes, behind)?;
    let (z, behind) = take_i64(bytes, behind)?;
    Ok((PointSum { x, y, z }, behind))
}

// The highest coordinates, none of which is below the lowest one.
fn take_high(bytes: &[u8], at: u32, low: Point) -> Result<(Point, u32), PacketFault>
    requires place { HasRoom bytes.now at 12 }
    requires near { IsPoint low }
    ensures exact { result ≡ high_at low bytes.now at }
    ensures spelt { IsTaken point_bytes (IsHigh low) 12 bytes.now at result }
{
    read_high(bytes, at, low)
}

#[tactic(auto, unfolding(crate::specs::SummaryField::high_at))]
fn read_high(bytes: &[u8], at: u32, low: Point) -> Result<(Point, u32), PacketFault>
    requires place { HasRoom bytes.now at 12 }
    requires near { IsPoint low }
    ensures { result ≡ high_at low bytes.now at }
{
    let (x, behind) = take_axis_from(bytes, at, low.axis(Axis::X))?;
    let (y, behind) = take_axis_from(bytes, behind, low.axis(Axis::Y))?;
    let (z, behind) = take_axis_from(bytes, behind, low.axis(Axis::Z))?;
    Ok((Point::new(x, y, z).unwrap(), behind))
}

// The first of so many members, or all where there are few.
fn take_globals(alloc: Global, bytes: &[u8], at: u32, size: u32) -> Result<(Roll, u32), PacketFault>
    requires { HasRoom bytes.now at globals_len }
    ensures exact { Gives result (globals_at size bytes.now at) }
    ensures spelt { IsTaken globals_bytes (AreGlobals size) globals_len bytes.now at result }
{
    read_globals(alloc, bytes, at, size)
}

#[tactic(auto, unfolding(crate::specs::SummaryField::globals_at, cs_fields::specs::Counted::counted_at))]
fn read_globals(alloc: Global, bytes: &[u8], at: u32, size: u32) -> Result<(Roll, u32), PacketFault>
    requires { HasRoom bytes.now at globals_len }
    ensures { Gives result (globals_at size bytes.now at) }
{
    let count = size.min(MOST_GLOBALS as u32) as u8;
    let (count, behind) = take_u8_in(bytes, at, count, count)?;
    take_members(alloc, bytes, behind, u16::from(count))
}

// So many times the coordinate.
fn times(size: u32, coordinate: i32) -> i64
    requires few { size ≤ most_members }
    requires near { IsNear farthest coordinate }
    ensures value { result ≡ pos size *ℤ coordinate }
    ensures near { IsNear (farthest * most_members) result }
{
    i64::from(size) * i64::from(coordinate)
}

// Whether the sum on an axis is that of so many coordinates within the bounds.
fn is_sum_on(size: u32, sum: PointSum, low: Point, high: Point, axis: Axis) -> bool
    requires { size ≤ most_members }
    ensures { result ≡ is_sum_of size (on_axis axis low) (on_axis axis high) (on_axis axis sum) }
{
    let least = times(size, low.axis(axis));
    let most = times(size, high.axis(axis));
    is_between(sum.axis(axis), least, most)
}

fn is_between(n: i64, least: i64, most: i64) -> bool
    ensures { result ≡ (int_le least n && int_le n most) }
{
    least <= n && n <= most
}

#[tactic(auto, unfolding(crate::specs::SummaryField::sums_fit))]
fn check_sum(size: u32, sum: PointSum, low: Point, high: Point, at: u32) -> Result<(), PacketFault>
    requires few { size ≤ most_members }
    requires room { at + 24 < 2 ^ 32 }
    ensures { result ≡ sums_fit size sum low high at }
{
    if !is_sum_on(size, sum, low, high, Axis::X) {
        return Err(PacketFault::Value(at));
    }
    if !is_sum_on(size, sum, low, high, Axis::Y) {
        return Err(PacketFault::Value(at + 8));
    }
    if !is_sum_on(size, sum, low, high, Axis::Z) {
        return Err(PacketFault::Value(at + 16));
    }
    Ok(())
}

pub fn put_summary(out: &mut Vec<u8>, v: &Summary) -> Result<(), AllocError>
    ensures { Appends result out.old.items out.new.items (summary_bytes v.now) }
{
    undone!(out, append_summary(out, v))
}

#[tactic(auto, unfolding(crate::specs::SummaryField::summary_bytes))]
fn append_summary(out: &mut Vec<u8>, v: &Summary) -> Result<(), AllocError>
    ensures { Extends result out.old.items out.new.items (summary_bytes v.now) }
{
    put_u32(out, &v.size)?;
    put_sum(out, &v.sum)?;
    put_bounds(out, &v.low)?;
    put_bounds(out, &v.high)?;
    put_globals(out, &v.globals)
}

fn put_globals(out: &mut Vec<u8>, globals: &Roll) -> Result<(), AllocError>
    requires { length globals.now ≤ most_globals }
    ensures { Appends result out.old.items out.new.items (globals_bytes globals.now) }
{
    undone!(out, append_globals(out, globals))
}

#[tactic(auto, unfolding(crate::specs::SummaryField::globals_bytes))]
fn append_globals(out: &mut Vec<u8>, globals: &Roll) -> Result<(), AllocError>
    requires { length globals.now ≤ most_globals }
    ensures { Extends result out.old.items out.new.items (globals_bytes globals.now) }
{
    put_u8(out, &(globals.len() as u8))?;
    append_members(out, globals)
}

fn put_sum(out: &mut Vec<u8>, sum: &[i64; 3]) -> Result<(), AllocError>
    ensures { Appends result out.old.items out.new.items (sum_bytes (from_row sum.now)) }
{
    undone!(out, append_sum(out, sum))
}

#[tactic(auto, unfolding(crate::specs::SummaryField::sum_bytes))]
fn append_sum(out: &mut Vec<u8>, sum: &[i64; 3]) -> Result<(), AllocError>
    ensures { Extends result out.old.items out.new.items (sum_bytes (from_row sum.now)) }
{
    put_i64(out, &sum[0])?;
    put_i64(out, &sum[1])?;
    put_i64(out, &sum[2])
}

#[tactic(auto, unfolding(cs_fields::specs::Numbers::signed_bytes))]
fn put_i64(out: &mut Vec<u8>, v: &i64) -> Result<(), AllocError>
    ensures { Appends result out.old.items out.new.items (signed_bytes w64 v.now) }
{
    put_u64(out, &v.cast_unsigned())
}

fn put_bounds(out: &mut Vec<u8>, bounds: &[i32; 3]) -> Result<(), AllocError>
    ensures { Appends result out.old.items out.new.items (point_bytes (from_row bounds.now)) }
{
    undone!(out, append_bounds(out, bounds))
}

#[tactic(auto, unfolding(cs_fields::specs::Fields::point_bytes))]
fn append_bounds(out: &mut Vec<u8>, bounds: &[i32; 3]) -> Result<(), AllocError>
    ensures { Extends result out.old.items out.new.items (point_bytes (from_row bounds.now)) }
{
    put_axis(out, &bounds[0])?;
    put_axis(out, &bounds[1])?;
    put_axis(out, &bounds[2])
}
