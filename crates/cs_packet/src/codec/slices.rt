ghost use Rattle.std.specs.Prelude.{◌≡◌, ◌*◌, ◌≤◌};
ghost use Rattle.std.specs.List.{AllByRecursion, flat_map};
ghost use Rattle.cs_base.specs.Limits.{most_regions};
ghost use Rattle.cs_fields.specs.Counted.{above, elements_at};
ghost use Rattle.cs_fields.specs.Reading.{Gives, HasRoom, IsTaken};
ghost use Rattle.cs_fields.specs.Writing.{Appends, Extends};
ghost use Rattle.cs_item.specs.SliceField.{IsSlice, slice_at, slice_bytes};
ghost use Rattle.cs_packet.specs.SlicesField.{AreSlices, framed_at, framed_bytes, framed_slice_len, IsSliceFrom};
ghost use Rattle.cs_packet.specs.SlicesField.{region_of_slice, slice_from, slices_at, slices_bytes, slices_len};

use crate::Slices;
use cs_base::{Keyed, MOST_REGIONS};
use cs_fields::{PacketFault, put_u8, put_u32, take_u8_in, take_u32, undone};
use cs_item::{Slice, decode_slice, encode_slice};
use std::alloc::{AllocError, Global};

/// From 1 to 64 slices, ascending by region, each with its length in front.
#[tactic(auto, unfolding(crate::specs::SlicesField::slices_at, cs_fields::specs::Counted::counted_at))]
pub fn take_slices(alloc: Global, bytes: &[u8], at: u32) -> Result<(Slices, u32), PacketFault>
    requires { HasRoom bytes.now at slices_len }
    ensures { Gives result (slices_at bytes.now at) }
{
    let (count, behind) = take_u8_in(bytes, at, 1, MOST_REGIONS as u8)?;
    take_each_slice(alloc, bytes, behind, count)
}

fn take_each_slice(
    alloc: Global,
    bytes: &[u8],
    at: u32,
    count: u8,
) -> Result<(Slices, u32), PacketFault>
    requires place { HasRoom bytes.now at (framed_slice_len * most_regions) }
    requires few { count ≤ most_regions }
    ensures { Gives result (elements_at slice_from (above region_of_slice) count 0 bytes.now at) }
{
    let mut slices = Slices::new(alloc);
    let mut place = at;
    let mut least = 0;
    for _ in 0..count {
        let (slice, behind) = take_slice_from(alloc, bytes, place, least)?;
        least = u64::from(slice.key()) + 1;
        slices.push(slice)?;
        place = behind;
    }
    Ok((slices, place))
}

// A slice with its length in front, for a region that is at least `least`.
fn take_slice_from(
    alloc: Global,
    bytes: &[u8],
    at: u32,
    least: u64,
) -> Result<(Slice, u32), PacketFault>
    requires { HasRoom bytes.now at framed_slice_len }
    ensures exact { Gives result (slice_from least bytes.now at) }
    ensures spelt { IsTaken (framed_bytes slice_bytes) (IsSliceFrom least) framed_slice_len bytes.now at result }
{
    read_slice_from(alloc, bytes, at, least)
}

fn read_slice_from(
    alloc: Global,
    bytes: &[u8],
    at: u32,
    least: u64,
) -> Result<(Slice, u32), PacketFault>
    requires { HasRoom bytes.now at framed_slice_len }
    ensures { Gives result (slice_from least bytes.now at) }
{
    let (slice, behind) = read_framed_slice(alloc, bytes, at)?;
    if u64::from(slice.key()) < least {
        return Err(PacketFault::Value(at));
    }
    Ok((slice, behind))
}

// A length, and a slice of exactly so many bytes. Whatever is wrong within them is told at the length.
#[tactic(auto, unfolding(crate::specs::SlicesField::framed_at))]
fn read_framed_slice(alloc: Global, bytes: &[u8], at: u32) -> Result<(Slice, u32), PacketFault>
    requires { HasRoom bytes.now at framed_slice_len }
    ensures { Gives result (framed_at slice_at bytes.now at) }
{
    let (size, text_at) = take_u32(bytes, at)?;
    let rest = &bytes[text_at as usize..];
    if rest.len() < size as usize {
        return Err(PacketFault::Short(text_at));
    }
    match decode_slice(alloc, &rest[..size as usize]) {
        Ok(slice) => Ok((slice, text_at + size)),
        Err(fault) => match fault {
            PacketFault::Memory => Err(PacketFault::Memory),
            _ => Err(PacketFault::Value(at)),
        },
    }
}

pub fn put_slices(out: &mut Vec<u8>, v: &Slices) -> Result<(), AllocError>
    requires { AreSlices v.now }
    ensures { Appends result out.old.items out.new.items (slices_bytes v.now) }
{
    undone!(out, append_slices(out, v.as_slice()))
}

#[tactic(auto, unfolding(crate::specs::SlicesField::slices_bytes))]
fn append_slices(out: &mut Vec<u8>, slices: &[Slice]) -> Result<(), AllocError>
    requires { AreSlices slices.now }
    ensures { Extends result out.old.items out.new.items (slices_bytes slices.now) }
{
    put_u8(out, &(slices.len() as u8))?;
    append_each_slice(out, slices)
}

fn append_each_slice(out: &mut Vec<u8>, slices: &[Slice]) -> Result<(), AllocError>
    requires { AllByRecursion IsSlice slices.now }
    ensures { Extends result out.old.items out.new.items (flat_map (framed_bytes slice_bytes) slices.now) }
{
    for slice in slices {
        put_framed_slice(out, slice)?;
    }
    Ok(())
}

fn put_framed_slice(out: &mut Vec<u8>, slice: &Slice) -> Result<(), AllocError>
    requires { IsSlice slice.now }
    ensures { Appends result out.old.items out.new.items (framed_bytes slice_bytes slice.now) }
{
    undone!(out, append_framed_slice(out, slice))
}

#[tactic(auto, unfolding(crate::specs::SlicesField::framed_bytes))]
fn append_framed_slice(out: &mut Vec<u8>, slice: &Slice) -> Result<(), AllocError>
    requires { IsSlice slice.now }
    ensures { Extends result out.old.items out.new.items (framed_bytes slice_bytes slice.now) }
{
    let text = encode_slice(*out.allocator(), slice)?;
    put_u32(out, &(text.as_slice().len() as u32))?;
    out.extend_from_slice(text.as_slice())
}
