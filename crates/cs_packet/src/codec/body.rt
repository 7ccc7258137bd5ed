ghost use Rattle.std.specs.Prelude.{◌≡◌, ◌+◌, ◌++◌};
ghost use Rattle.cs_fields.specs.Changes.{changes_len};
ghost use Rattle.cs_fields.specs.Fields.{address_bytes, id_bytes, mode_bytes};
ghost use Rattle.cs_fields.specs.Numbers.{number_bytes};
ghost use Rattle.cs_fields.specs.Reading.{Gives, HasRoom};
ghost use Rattle.cs_fields.specs.Writing.{Appends, Extends};
ghost use Rattle.cs_item.specs.PictureField.{picture_len};
ghost use Rattle.cs_item.specs.SliceField.{slice_len};
ghost use Rattle.cs_packet.specs.BodyField.{ask_at, body_at, body_bytes, bye_at, IsBody, kind_of, need_at, piece_at};
ghost use Rattle.cs_packet.specs.BodyField.{report_at, snap_at, slice_body_at};
ghost use Rattle.cs_packet.specs.PieceField.{piece_text_len};

use crate::Body;
use crate::codec::piece::take_piece_text;
use cs_base::{Addr, COLOURS, Epoch, Mode, RegionId};
use cs_fields::{
    PacketFault, put_address, put_changes, put_epoch, put_mode, put_region, put_u8, put_u32,
    take_address, take_epoch, take_later_epoch, take_mode, take_region, take_some_changes,
    take_u8_in, take_u32_in, undone,
};
use cs_item::{put_picture, put_slice, take_picture, take_slice};
use cs_piece::Piece;
use std::alloc::{AllocError, Global};

/// The body of this kind.
pub fn take_body(alloc: Global, bytes: &[u8], at: u32, kind: u8) -> Result<(Body, u32), PacketFault>
    requires { HasRoom bytes.now at slice_len }
    ensures { Gives result (body_at kind bytes.now at) }
{
    match kind {
        1 => take_report(alloc, bytes, at),
        2 => take_piece(alloc, bytes, at),
        3 => take_need(bytes, at),
        4 => take_slice_body(alloc, bytes, at),
        5 => take_ask(bytes, at),
        6 => take_snap(alloc, bytes, at),
        _ => take_bye(bytes, at),
    }
}

#[tactic(auto, unfolding(crate::specs::BodyField::report_at))]
fn take_report(alloc: Global, bytes: &[u8], at: u32) -> Result<(Body, u32), PacketFault>
    requires { HasRoom bytes.now at changes_len }
    ensures { Gives result (report_at bytes.now at) }
{
    let (changes, behind) = take_some_changes(alloc, bytes, at, 1)?;
    Ok((Body::Report(changes), behind))
}

#[tactic(auto, unfolding(crate::specs::BodyField::piece_at))]
fn take_piece(alloc: Global, bytes: &[u8], at: u32) -> Result<(Body, u32), PacketFault>
    requires { HasRoom bytes.now at (4 + 4 + 1 + piece_text_len) }
    ensures { Gives result (piece_at bytes.now at) }
{
    let (epoch, behind) = take_later_epoch(bytes, at)?;
    let (region, behind) = take_region(bytes, behind)?;
    let (colour, behind) = take_u8_in(bytes, behind, 0, COLOURS as u8 - 1)?;
    let (text, behind) = take_piece_text(alloc, bytes, behind)?;
    Ok((
        Body::Piece {
            epoch,
            region,
            colour,
            bytes: text,
        },
        behind,
    ))
}

#[tactic(auto, unfolding(crate::specs::BodyField::need_at))]
fn take_need(bytes: &[u8], at: u32) -> Result<(Body, u32), PacketFault>
    requires { HasRoom bytes.now at (6 + 1 + 4 + 4) }
    ensures { result ≡ need_at bytes.now at }
{
    let (addr, behind) = take_address(bytes, at)?;
    let (mode, behind) = take_mode(bytes, behind)?;
    let (epoch, behind) = take_later_epoch(bytes, behind)?;
    let (region, behind) = take_region(bytes, behind)?;
    Ok((
        Body::Need {
            addr,
            mode,
            epoch,
            region,
        },
        behind,
    ))
}

#[tactic(auto, unfolding(crate::specs::BodyField::slice_body_at))]
fn take_slice_body(alloc: Global, bytes: &[u8], at: u32) -> Result<(Body, u32), PacketFault>
    requires { HasRoom bytes.now at slice_len }
    ensures { Gives result (slice_body_at bytes.now at) }
{
    let (slice, behind) = take_slice(alloc, bytes, at)?;
    Ok((Body::Slice(slice), behind))
}

#[tactic(auto, unfolding(crate::specs::BodyField::ask_at))]
fn take_ask(bytes: &[u8], at: u32) -> Result<(Body, u32), PacketFault>
    requires { HasRoom bytes.now at (6 + 1 + 4) }
    ensures { result ≡ ask_at bytes.now at }
{
    let (addr, behind) = take_address(bytes, at)?;
    let (mode, behind) = take_mode(bytes, behind)?;
    let (least, behind) = take_u32_in(bytes, behind, 0, u32::MAX)?;
    Ok((Body::Ask { addr, mode, least }, behind))
}

#[tactic(auto, unfolding(crate::specs::BodyField::snap_at))]
fn take_snap(alloc: Global, bytes: &[u8], at: u32) -> Result<(Body, u32), PacketFault>
    requires { HasRoom bytes.now at picture_len }
    ensures { Gives result (snap_at bytes.now at) }
{
    let (picture, behind) = take_picture(alloc, bytes, at)?;
    Ok((Body::Snap(picture), behind))
}

#[tactic(auto, unfolding(crate::specs::BodyField::bye_at))]
fn take_bye(bytes: &[u8], at: u32) -> Result<(Body, u32), PacketFault>
    requires { HasRoom bytes.now at 4 }
    ensures { result ≡ bye_at bytes.now at }
{
    let (epoch, behind) = take_epoch(bytes, at)?;
    Ok((Body::Bye { epoch }, behind))
}

pub fn kind_number(body: &Body) -> u8
    ensures { result ≡ kind_of body.now }
{
    match body {
        Body::Report(_) => 1,
        Body::Piece { .. } => 2,
        Body::Need { .. } => 3,
        Body::Slice(_) => 4,
        Body::Ask { .. } => 5,
        Body::Snap(_) => 6,
        Body::Bye { .. } => 7,
    }
}

pub fn put_body(out: &mut Vec<u8>, body: &Body) -> Result<(), AllocError>
    requires { IsBody body.now }
    ensures { Appends result out.old.items out.new.items (body_bytes body.now) }
{
    undone!(out, append_body(out, body))
}

fn append_body(out: &mut Vec<u8>, body: &Body) -> Result<(), AllocError>
    requires { IsBody body.now }
    ensures { Extends result out.old.items out.new.items (body_bytes body.now) }
{
    match body {
        Body::Report(changes) => put_changes(out, changes),
        Body::Piece {
            epoch,
            region,
            colour,
            bytes,
        } => append_piece(out, *epoch, *region, *colour, bytes),
        Body::Need {
            addr,
            mode,
            epoch,
            region,
        } => append_need(out, addr, *mode, *epoch, *region),
        Body::Slice(slice) => put_slice(out, slice),
        Body::Ask { addr, mode, least } => append_ask(out, addr, *mode, *least),
        Body::Snap(picture) => put_picture(out, picture),
        Body::Bye { epoch } => put_epoch(out, epoch),
    }
}

fn append_piece(
    out: &mut Vec<u8>,
    epoch: Epoch,
    region: RegionId,
    colour: u8,
    bytes: &Piece,
) -> Result<(), AllocError>
    ensures { Extends result out.old.items out.new.items
        (id_bytes epoch ++ id_bytes region ++ number_bytes 1 colour ++ bytes.now) }
{
    put_epoch(out, &epoch)?;
    put_region(out, &region)?;
    put_u8(out, &colour)?;
    out.extend_from_slice(bytes.as_slice())
}

fn append_need(
    out: &mut Vec<u8>,
    addr: &Addr,
    mode: Mode,
    epoch: Epoch,
    region: RegionId,
) -> Result<(), AllocError>
    ensures { Extends result out.old.items out.new.items
        (address_bytes addr.now ++ mode_bytes mode ++ id_bytes epoch ++ id_bytes region) }
{
    put_address(out, addr)?;
    put_mode(out, &mode)?;
    put_epoch(out, &epoch)?;
    put_region(out, &region)
}

fn append_ask(out: &mut Vec<u8>, addr: &Addr, mode: Mode, least: u32) -> Result<(), AllocError>
    ensures { Extends result out.old.items out.new.items
        (address_bytes addr.now ++ mode_bytes mode ++ number_bytes 4 least) }
{
    put_address(out, addr)?;
    put_mode(out, &mode)?;
    put_u32(out, &least)
}
