ghost use Rattle.std.specs.Prelude.{◌≡◌, ◌+◌, ◌≤◌, ◌++◌, length, IfOk};
ghost use Rattle.cs_fields.specs.Changes.{changes_bytes, changes_len, IsChanges};
ghost use Rattle.cs_fields.specs.Fields.{id_bytes, point_bytes};
ghost use Rattle.cs_fields.specs.Numbers.{number_bytes};
ghost use Rattle.cs_fields.specs.Reading.{Gives, HasRoom};
ghost use Rattle.cs_fields.specs.Whole.{IsWhole};
ghost use Rattle.cs_fields.specs.Writing.{Appends, Extends};
ghost use Rattle.cs_item.specs.PictureField.{picture_len};
ghost use Rattle.cs_packet.specs.BootField.{boot_len};
ghost use Rattle.cs_packet.specs.EntryField.{boot_entry_at, entry_at, entry_bytes, entry_fields, entry_kind};
ghost use Rattle.cs_packet.specs.EntryField.{entry_len, entry_of, entry_of_kind, entry_sizes, gone_entry_at, IsEntry};
ghost use Rattle.cs_packet.specs.EntryField.{item_entry_at, seq_entry_at, step_entry_at, view_entry_at};
ghost use Rattle.cs_packet.specs.SlicesField.{slices_len};
ghost use Rattle.cs_packet.specs.declared.entry.Entry.{Entry};

use crate::Entry;
use crate::codec::base::{put_base, take_base};
use crate::codec::boot::{put_boot, take_boot};
use crate::codec::kind::take_kind;
use crate::codec::slices::{put_slices, take_slices};
use cs_base::{Changes, Epoch, LAST_ID, Point};
use cs_fields::{
    PacketFault, put_changes, put_epoch, put_point, put_u8, put_u32, take_changes, take_epoch,
    take_later_epoch, take_point, take_u32_in, undone,
};
use cs_item::{put_picture, take_picture};
use cs_piece::Piece;
use std::alloc::{AllocError, Global};

// So many bytes are set aside for an entry. Most steps fit them.
const LEAST_ROOM: usize = 512;

/// The entry that the bytes spell, all of them.
pub fn decode_entry(alloc: Global, bytes: &[u8]) -> Result<Entry, PacketFault>
    // What is read is spelled so, and what is spelled so is read. Where a spelling is cut off, the field that has
    // the next byte is short; where more stands behind it, that is extra.
    ensures whole { IsWhole entry_bytes entry_sizes IsEntry bytes.now result }
    // Which fault it is.
    ensures exact { Gives result (entry_of bytes.now) }
{
    read_whole_entry(alloc, bytes)
}

#[tactic(auto, unfolding(cs_fields::specs::Whole::whole_of))]
fn read_whole_entry(alloc: Global, bytes: &[u8]) -> Result<Entry, PacketFault>
    ensures { Gives result (entry_of bytes.now) }
{
    let (entry, behind) = read_entry(alloc, bytes)?;
    if behind as usize != bytes.len() {
        return Err(PacketFault::Extra(behind));
    }
    Ok(entry)
}

#[tactic(auto, unfolding(crate::specs::EntryField::entry_at))]
fn read_entry(alloc: Global, bytes: &[u8]) -> Result<(Entry, u32), PacketFault>
    ensures { Gives result (entry_at bytes.now 0) }
{
    let (kind, behind) = take_kind(bytes, 0, 7)?;
    take_fields(alloc, bytes, behind, kind)
}

// The fields of an entry of this kind.
fn take_fields(alloc: Global, bytes: &[u8], at: u32, kind: u8) -> Result<(Entry, u32), PacketFault>
    requires { HasRoom bytes.now at slices_len }
    ensures { Gives result (entry_of_kind kind bytes.now at) }
{
    match kind {
        1 => take_boot_entry(bytes, at),
        2 => take_seq(bytes, at),
        3 => take_view(alloc, bytes, at),
        4 => take_step(alloc, bytes, at),
        5 => take_gone(bytes, at),
        6 => take_item(alloc, bytes, at),
        _ => take_base(alloc, bytes, at),
    }
}

#[tactic(auto, unfolding(crate::specs::EntryField::boot_entry_at))]
fn take_boot_entry(bytes: &[u8], at: u32) -> Result<(Entry, u32), PacketFault>
    requires { HasRoom bytes.now at boot_len }
    ensures { result ≡ boot_entry_at bytes.now at }
{
    let ((leader, own), behind) = take_boot(bytes, at)?;
    Ok((Entry::Boot { leader, own }, behind))
}

#[tactic(auto, unfolding(crate::specs::EntryField::seq_entry_at))]
fn take_seq(bytes: &[u8], at: u32) -> Result<(Entry, u32), PacketFault>
    requires { HasRoom bytes.now at (4 + 12) }
    ensures { result ≡ seq_entry_at bytes.now at }
{
    let (seq, behind) = take_u32_in(bytes, at, 1, LAST_ID)?;
    let (at, behind) = take_point(bytes, behind)?;
    Ok((Entry::Seq { seq, at }, behind))
}

#[tactic(auto, unfolding(crate::specs::EntryField::view_entry_at))]
fn take_view(alloc: Global, bytes: &[u8], at: u32) -> Result<(Entry, u32), PacketFault>
    requires { HasRoom bytes.now at picture_len }
    ensures { Gives result (view_entry_at bytes.now at) }
{
    let (picture, behind) = take_picture(alloc, bytes, at)?;
    Ok((Entry::View(picture), behind))
}

#[tactic(auto, unfolding(crate::specs::EntryField::step_entry_at))]
fn take_step(alloc: Global, bytes: &[u8], at: u32) -> Result<(Entry, u32), PacketFault>
    requires { HasRoom bytes.now at slices_len }
    ensures { Gives result (step_entry_at bytes.now at) }
{
    let (slices, behind) = take_slices(alloc, bytes, at)?;
    Ok((Entry::Step(slices), behind))
}

#[tactic(auto, unfolding(crate::specs::EntryField::gone_entry_at))]
fn take_gone(bytes: &[u8], at: u32) -> Result<(Entry, u32), PacketFault>
    requires { HasRoom bytes.now at 4 }
    ensures { result ≡ gone_entry_at bytes.now at }
{
    let (epoch, behind) = take_epoch(bytes, at)?;
    Ok((Entry::Gone { epoch }, behind))
}

#[tactic(auto, unfolding(crate::specs::EntryField::item_entry_at))]
fn take_item(alloc: Global, bytes: &[u8], at: u32) -> Result<(Entry, u32), PacketFault>
    requires { HasRoom bytes.now at (4 + changes_len) }
    ensures { Gives result (item_entry_at bytes.now at) }
{
    let (epoch, behind) = take_later_epoch(bytes, at)?;
    let (changes, behind) = take_changes(alloc, bytes, behind)?;
    Ok((Entry::Item { epoch, changes }, behind))
}

/// The one spelling of an entry. The log puts its length in front.
pub fn encode_entry(alloc: Global, e: &Entry) -> Result<Piece, AllocError>
    requires { IsEntry e.now }
    // The bytes are its spelling.
    ensures spelt { IfOk result (λ piece. piece ≡ entry_bytes e.now) }
    ensures short { IfOk result (λ piece. length piece ≤ entry_len) }
    // No other entry is spelled so.
    ensures one { (f : Entry) → IsEntry f → entry_bytes f ≡ entry_bytes e.now → f ≡ e.now }
{
    let mut out = Vec::with_capacity(alloc, LEAST_ROOM)?;
    append_entry(&mut out, e)?;
    Ok(Piece::from_vec(out))
}

#[tactic(auto, unfolding(crate::specs::EntryField::entry_bytes))]
fn append_entry(out: &mut Vec<u8>, e: &Entry) -> Result<(), AllocError>
    requires { IsEntry e.now }
    ensures { Extends result out.old.items out.new.items (entry_bytes e.now) }
{
    put_u8(out, &kind_number(e))?;
    put_fields(out, e)
}

fn kind_number(e: &Entry) -> u8
    ensures { result ≡ entry_kind e.now }
{
    match e {
        Entry::Boot { .. } => 1,
        Entry::Seq { .. } => 2,
        Entry::View(_) => 3,
        Entry::Step(_) => 4,
        Entry::Gone { .. } => 5,
        Entry::Item { .. } => 6,
        Entry::Base { .. } => 7,
    }
}

fn put_fields(out: &mut Vec<u8>, e: &Entry) -> Result<(), AllocError>
    requires { IsEntry e.now }
    ensures { Appends result out.old.items out.new.items (entry_fields e.now) }
{
    undone!(out, append_fields(out, e))
}

fn append_fields(out: &mut Vec<u8>, e: &Entry) -> Result<(), AllocError>
    requires { IsEntry e.now }
    ensures { Extends result out.old.items out.new.items (entry_fields e.now) }
{
    match e {
        Entry::Boot { leader, own } => put_boot(out, *leader, own),
        Entry::Seq { seq, at } => append_seq(out, *seq, at),
        Entry::View(picture) => put_picture(out, picture),
        Entry::Step(slices) => put_slices(out, slices),
        Entry::Gone { epoch } => put_epoch(out, epoch),
        Entry::Item { epoch, changes } => append_item(out, *epoch, changes),
        Entry::Base {
            epoch,
            next_region,
            retired,
            rows,
            changes,
        } => put_base(out, *epoch, *next_region, retired, rows, changes),
    }
}

fn append_seq(out: &mut Vec<u8>, seq: u32, at: &Point) -> Result<(), AllocError>
    ensures { Extends result out.old.items out.new.items (number_bytes 4 seq ++ point_bytes at.now) }
{
    put_u32(out, &seq)?;
    put_point(out, at)
}

fn append_item(out: &mut Vec<u8>, epoch: Epoch, changes: &Changes) -> Result<(), AllocError>
    requires { IsChanges 0 changes.now }
    ensures { Extends result out.old.items out.new.items (id_bytes epoch ++ changes_bytes changes.now) }
{
    put_epoch(out, &epoch)?;
    put_changes(out, changes)
}
