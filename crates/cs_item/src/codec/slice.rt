ghost use Rattle.std.specs.Prelude.{◌≡◌, ◌+◌, ◌^◌, ◌<◌, ◌≤◌, ◌++◌, length, IfOk};
ghost use Rattle.cs_base.specs.Limits.{most_changes, most_members, most_slice_bytes};
ghost use Rattle.cs_fields.specs.Fields.{cut_bytes, id_bytes, ids_bytes, ids_len};
ghost use Rattle.cs_fields.specs.Numbers.{number_bytes};
ghost use Rattle.cs_fields.specs.Reading.{Gives, HasRoom, IsTaken};
ghost use Rattle.cs_fields.specs.Whole.{IsWhole, whole_of};
ghost use Rattle.cs_fields.specs.Writing.{Appends, Extends};
ghost use Rattle.cs_item.specs.RollField.{roll_bytes, roll_len};
ghost use Rattle.cs_item.specs.SliceField.{diff_at, head_at, head_bytes, head_len, IsHead, IsHeadOf, IsPart, IsSlice};
ghost use Rattle.cs_item.specs.SliceField.{optional_cut_at, optional_cut_bytes, part_at, part_bytes, part_len};
ghost use Rattle.cs_item.specs.SliceField.{slice_at, slice_bytes, slice_len, slice_sizes, whole_at};
ghost use Rattle.cs_item.specs.declared.slice.Slice.{Slice};

use crate::codec::regions::{put_regions, take_regions};
use crate::codec::roll::{put_roll, take_roll};
use crate::{Head, Part, PartKind, Slice};
use cs_base::{Cut, Epoch, Ids, RegionId};
use cs_fields::{
    PacketFault, put_cut, put_epoch, put_ids, put_region, put_region_list, put_u8, take_cut,
    take_ids, take_later_epoch, take_region, take_region_list, take_u8_in, undone,
};
use cs_piece::Piece;
use cs_roll::Roll;
use std::alloc::{AllocError, Global};

// So many bytes are set aside for a slice. Most of them fit.
const LEAST_ROOM: usize = 256;

/// The slice that the bytes spell, all of them. Places count from the first byte.
pub fn decode_slice(alloc: Global, bytes: &[u8]) -> Result<Slice, PacketFault>
    // What is read is spelled so, what is spelled so is read, and where too little or too much is spelled.
    ensures whole { IsWhole slice_bytes slice_sizes IsSlice bytes.now result }
    // Which fault it is.
    ensures exact { Gives result (whole_of slice_at bytes.now) }
{
    read_whole_slice(alloc, bytes)
}

#[tactic(auto, unfolding(cs_fields::specs::Whole::whole_of))]
fn read_whole_slice(alloc: Global, bytes: &[u8]) -> Result<Slice, PacketFault>
    ensures { Gives result (whole_of slice_at bytes.now) }
{
    let (slice, behind) = take_slice(alloc, bytes, 0)?;
    if (behind as usize) < bytes.len() {
        return Err(PacketFault::Extra(behind));
    }
    Ok(slice)
}

/// A slice whose bytes may be followed by others.
pub fn take_slice(alloc: Global, bytes: &[u8], at: u32) -> Result<(Slice, u32), PacketFault>
    requires { HasRoom bytes.now at slice_len }
    ensures exact { Gives result (slice_at bytes.now at) }
    ensures spelt { IsTaken slice_bytes IsSlice slice_len bytes.now at result }
{
    read_slice(alloc, bytes, at)
}

#[tactic(auto, unfolding(crate::specs::SliceField::slice_at))]
fn read_slice(alloc: Global, bytes: &[u8], at: u32) -> Result<(Slice, u32), PacketFault>
    requires { HasRoom bytes.now at slice_len }
    ensures { Gives result (slice_at bytes.now at) }
{
    let (epoch, behind) = take_later_epoch(bytes, at)?;
    let (region, behind) = take_region(bytes, behind)?;
    let (head, behind) = take_head(alloc, bytes, behind, epoch)?;
    let (part, behind) = take_part(alloc, bytes, behind, region)?;
    Ok((Slice { head, part }, behind))
}

// The head of this epoch.
fn take_head(alloc: Global, bytes: &[u8], at: u32, epoch: Epoch) -> Result<(Head, u32), PacketFault>
    requires { HasRoom bytes.now at head_len }
    ensures exact { Gives result (head_at epoch bytes.now at) }
    ensures spelt { IsTaken head_bytes (IsHeadOf epoch) head_len bytes.now at result }
{
    read_head(alloc, bytes, at, epoch)
}

#[tactic(auto, unfolding(crate::specs::SliceField::head_at))]
fn read_head(alloc: Global, bytes: &[u8], at: u32, epoch: Epoch) -> Result<(Head, u32), PacketFault>
    requires { HasRoom bytes.now at head_len }
    ensures { Gives result (head_at epoch bytes.now at) }
{
    let (left, behind) = take_ids(alloc, bytes, at)?;
    let (dropped, behind) = take_region_list(alloc, bytes, behind)?;
    let (summaries, behind) = take_regions(alloc, bytes, behind)?;
    let (touched, behind) = take_region_list(alloc, bytes, behind)?;
    Ok((
        Head {
            epoch,
            left,
            dropped,
            summaries,
            touched,
        },
        behind,
    ))
}

// The part of this region.
#[tactic(auto, unfolding(crate::specs::SliceField::part_at))]
fn take_part(
    alloc: Global,
    bytes: &[u8],
    at: u32,
    region: RegionId,
) -> Result<(Part, u32), PacketFault>
    requires { HasRoom bytes.now at part_len }
    ensures { Gives result (part_at region bytes.now at) }
{
    let (number, behind) = take_u8_in(bytes, at, 0, 2)?;
    match number {
        0 => Ok((
            Part {
                region,
                kind: PartKind::Same,
                cut: None,
            },
            behind,
        )),
        1 => take_diff(alloc, bytes, behind, region),
        _ => take_whole(alloc, bytes, behind, region),
    }
}

#[tactic(auto, unfolding(crate::specs::SliceField::diff_at))]
fn take_diff(
    alloc: Global,
    bytes: &[u8],
    at: u32,
    region: RegionId,
) -> Result<(Part, u32), PacketFault>
    requires { HasRoom bytes.now at (ids_len + roll_len most_members + 14) }
    ensures { Gives result (diff_at region bytes.now at) }
{
    let (gone, behind) = take_ids(alloc, bytes, at)?;
    let (here, behind) = take_roll(alloc, bytes, behind)?;
    let (cut, behind) = take_optional_cut(bytes, behind)?;
    let kind = PartKind::Diff { gone, here };
    Ok((Part { region, kind, cut }, behind))
}

#[tactic(auto, unfolding(crate::specs::SliceField::whole_at))]
fn take_whole(
    alloc: Global,
    bytes: &[u8],
    at: u32,
    region: RegionId,
) -> Result<(Part, u32), PacketFault>
    requires { HasRoom bytes.now at (4 + roll_len most_members + 14) }
    ensures { Gives result (whole_at region bytes.now at) }
{
    let (into, behind) = take_region(bytes, at)?;
    let (roll, behind) = take_roll(alloc, bytes, behind)?;
    let (cut, behind) = take_optional_cut(bytes, behind)?;
    let kind = PartKind::Whole { into, roll };
    Ok((Part { region, kind, cut }, behind))
}

// A flag, and a cut where it is 1.
#[tactic(auto, unfolding(crate::specs::SliceField::optional_cut_at))]
fn take_optional_cut(bytes: &[u8], at: u32) -> Result<(Option<Cut>, u32), PacketFault>
    requires { HasRoom bytes.now at 14 }
    ensures { result ≡ optional_cut_at bytes.now at }
{
    let (flag, behind) = take_u8_in(bytes, at, 0, 1)?;
    if flag == 0 {
        return Ok((None, behind));
    }
    let (cut, behind) = take_cut(bytes, behind)?;
    Ok((Some(cut), behind))
}

/// The one spelling of a slice, which fits a datagram.
pub fn encode_slice(alloc: Global, s: &Slice) -> Result<Piece, AllocError>
    requires { IsSlice s.now }
    // The bytes are its spelling.
    ensures spelt { IfOk result (λ piece. piece ≡ slice_bytes s.now) }
    ensures short { IfOk result (λ piece. length piece ≤ most_slice_bytes) }
    // No other slice is spelled so.
    ensures one { (t : Slice) → IsSlice t → slice_bytes t ≡ slice_bytes s.now → t ≡ s.now }
{
    let mut out = Vec::with_capacity(alloc, LEAST_ROOM)?;
    put_slice(&mut out, s)?;
    Ok(Piece::from_vec(out))
}

pub fn put_slice(out: &mut Vec<u8>, v: &Slice) -> Result<(), AllocError>
    requires { IsSlice v.now }
    ensures { Appends result out.old.items out.new.items (slice_bytes v.now) }
{
    undone!(out, append_slice(out, v))
}

#[tactic(auto, unfolding(crate::specs::SliceField::slice_bytes))]
fn append_slice(out: &mut Vec<u8>, s: &Slice) -> Result<(), AllocError>
    requires { IsSlice s.now }
    ensures { Extends result out.old.items out.new.items (slice_bytes s.now) }
{
    put_epoch(out, &s.head.epoch)?;
    put_region(out, &s.part.region)?;
    put_head(out, &s.head)?;
    put_part(out, &s.part)
}

// The head without its epoch.
fn put_head(out: &mut Vec<u8>, head: &Head) -> Result<(), AllocError>
    requires { IsHead head.now }
    ensures { Appends result out.old.items out.new.items (head_bytes head.now) }
{
    undone!(out, append_head(out, head))
}

#[tactic(auto, unfolding(crate::specs::SliceField::head_bytes))]
fn append_head(out: &mut Vec<u8>, head: &Head) -> Result<(), AllocError>
    requires { IsHead head.now }
    ensures { Extends result out.old.items out.new.items (head_bytes head.now) }
{
    put_ids(out, &head.left)?;
    put_region_list(out, &head.dropped)?;
    put_regions(out, &head.summaries)?;
    put_region_list(out, &head.touched)
}

// The part without its region.
fn put_part(out: &mut Vec<u8>, part: &Part) -> Result<(), AllocError>
    requires { IsPart part.now }
    ensures { Appends result out.old.items out.new.items (part_bytes part.now) }
{
    undone!(out, append_part(out, part))
}

#[tactic(auto, unfolding(crate::specs::SliceField::part_bytes))]
fn append_part(out: &mut Vec<u8>, part: &Part) -> Result<(), AllocError>
    requires { IsPart part.now }
    ensures { Extends result out.old.items out.new.items (part_bytes part.now) }
{
    match &part.kind {
        PartKind::Same => append_same(out),
        PartKind::Diff { gone, here } => append_diff(out, gone, here, &part.cut),
        PartKind::Whole { into, roll } => append_whole(out, *into, roll, &part.cut),
    }
}

fn append_same(out: &mut Vec<u8>) -> Result<(), AllocError>
    ensures { Extends result out.old.items out.new.items (number_bytes 1 0) }
{
    put_u8(out, &0)
}

fn append_diff(
    out: &mut Vec<u8>,
    gone: &Ids,
    here: &Roll,
    cut: &Option<Cut>,
) -> Result<(), AllocError>
    requires gone { length gone.now ≤ most_changes }
    requires here { length here.now ≤ most_members }
    ensures { Extends result out.old.items out.new.items
        (number_bytes 1 1 ++ ids_bytes gone.now ++ roll_bytes here.now ++ optional_cut_bytes cut.now) }
{
    put_u8(out, &1)?;
    put_ids(out, gone)?;
    put_roll(out, here)?;
    put_optional_cut(out, cut)
}

fn append_whole(
    out: &mut Vec<u8>,
    into: RegionId,
    roll: &Roll,
    cut: &Option<Cut>,
) -> Result<(), AllocError>
    requires { length roll.now ≤ most_members }
    ensures { Extends result out.old.items out.new.items
        (number_bytes 1 2 ++ id_bytes into ++ roll_bytes roll.now ++ optional_cut_bytes cut.now) }
{
    put_u8(out, &2)?;
    put_region(out, &into)?;
    put_roll(out, roll)?;
    put_optional_cut(out, cut)
}

// A flag, and the cut where there is one.
fn put_optional_cut(out: &mut Vec<u8>, cut: &Option<Cut>) -> Result<(), AllocError>
    ensures { Appends result out.old.items out.new.items (optional_cut_bytes cut.now) }
{
    undone!(out, append_optional_cut(out, cut))
}

#[tactic(auto, unfolding(crate::specs::SliceField::optional_cut_bytes))]
fn append_optional_cut(out: &mut Vec<u8>, cut: &Option<Cut>) -> Result<(), AllocError>
    ensures { Extends result out.old.items out.new.items (optional_cut_bytes cut.now) }
{
    match cut {
        None => put_u8(out, &0),
        Some(cut) => append_some_cut(out, cut),
    }
}

fn append_some_cut(out: &mut Vec<u8>, cut: &Cut) -> Result<(), AllocError>
    ensures { Extends result out.old.items out.new.items (number_bytes 1 1 ++ cut_bytes cut.now) }
{
    put_u8(out, &1)?;
    put_cut(out, cut)
}
