//! The lines of a transcript.

ghost use Rattle.std.specs.Prelude.{◌≡◌, ◌++◌, IfOk, IfErr, OnOk, map, codes, decimal};
ghost use Rattle.std.specs.List.{join_with_byte};
ghost use Rattle.std.specs.String.{string_bytes};
ghost use Rattle.cs_machine.specs.Lines.{body_text, counts_line, fault_line, fault_text, kept_lines, note_lines};
ghost use Rattle.cs_machine.specs.Lines.{packet_line, pair_line, piece_fault_line, unfit_line, verdict_line};
ghost use Rattle.cs_machine.specs.Lines.{view_fault_line, word_of};
ghost use Rattle.cs_show.specs.Text.{ended, text_of};
ghost use Rattle.cs_world.specs.Named.{named_line};
ghost use Rattle.cs_world.specs.Posting.{datagram_line};

use crate::WorldFault;
use crate::piece_names::PieceNames;
use cs_base::{Addr, Change, Epoch, NodeId, RegionId};
use cs_core::Unfit;
use cs_fields::PacketFault;
use cs_group::Verdict;
use cs_item::{Picture, Rolls};
use cs_node::Note;
use cs_packet::{Body, Packet};
use cs_pending::{Counts, Offer};
use cs_piece::PieceFault;
use cs_view::ViewFault;
use std::alloc::{AllocError, Global};
use std::fmt::Write;

/// Appends a line.
pub fn put_line(out: &mut String, line: &str) -> Result<(), AllocError>
    ensures { OnOk result (string_bytes out.new ≡ string_bytes out.old ++ ended line.now) }
{
    out.push_str(line)?;
    out.push_str("\n")
}

// Appends a text and a number.
fn put_number(out: &mut String, text: &str, number: u64) -> Result<(), AllocError>
    ensures { OnOk result (string_bytes out.new ≡ string_bytes out.old ++ text.now ++ decimal number) }
{
    let mut digits = itoa::Buffer::new();
    out.push_str(text)?;
    out.push_str(digits.format(number))
}

/// Appends the line that a text and a number are.
pub fn put_number_line(out: &mut String, text: &str, number: u64) -> Result<(), AllocError>
    ensures { OnOk result (string_bytes out.new ≡ string_bytes out.old ++ ended (text.now ++ decimal number)) }
{
    put_number(out, text, number)?;
    out.push_str("\n")
}

/// The text of one line.
pub fn line(alloc: Global, line: &str) -> Result<String, WorldFault>
    ensures text { IfOk result (λ text. string_bytes text ≡ ended line.now) }
    ensures memory { IfErr result (λ fault. fault ≡ WorldFault.Memory) }
{
    let mut text = String::new(alloc);
    put_line(&mut text, line)?;
    Ok(text)
}

/// The text of a line that says a word and a number.
pub fn number_line(alloc: Global, word: &str, number: u64) -> Result<String, WorldFault>
    ensures text { IfOk result (λ text. string_bytes text ≡ ended (word.now ++ codes " " ++ decimal number)) }
    ensures memory { IfErr result (λ fault. fault ≡ WorldFault.Memory) }
{
    let mut text = String::new(alloc);
    writeln!(text, "{word} {number}")?;
    Ok(text)
}

/// Appends the lines of an answer.
pub fn put_note(out: &mut String, note: &Note) -> Result<(), AllocError>
    ensures { OnOk result (string_bytes out.new ≡ string_bytes out.old ++ text_of (note_lines note.now)) }
{
    match note {
        Note::Told { kept } => {
            put_line(out, "told")?;
            put_kept(out, *kept)
        }
        Note::Moved { seq, kept } => {
            writeln!(out, "moved {seq}")?;
            put_kept(out, *kept)
        }
        Note::SeqSpent | Note::Spent => put_line(out, "spent"),
        Note::Flushed(count) => writeln!(out, "flushed {count}"),
        Note::Nothing => put_line(out, "nothing"),
        Note::Unknown(to) => writeln!(out, "unknown {to}"),
        Note::Held => put_line(out, "held"),
        Note::Passed => put_line(out, "passed"),
        Note::Already => put_line(out, "already"),
        Note::Advanced(epoch) => put_number_line(out, "advanced ", u64::from(epoch.get())),
        Note::Jumped(epoch) => writeln!(out, "jumped {epoch}"),
        Note::Departed => put_line(out, "departed"),
        Note::Stale { have, given } => writeln!(out, "stale {have} {given}"),
        Note::Early { have, given } => writeln!(out, "early {have} {given}"),
        Note::Answered => put_line(out, "answered"),
        Note::Silent => put_line(out, "silent"),
        Note::Noted(counts) => put_counts(out, counts),
        Note::Idle => put_line(out, "idle"),
        Note::NotMine(to) => writeln!(out, "not mine {to}"),
        Note::Bad(fault) => put_fault(out, *fault),
        Note::LinkFault { .. } => put_line(out, "link"),
        Note::LogFault => put_line(out, "stopped log"),
        Note::Memory => put_line(out, "memory"),
        Note::Unfit(reason) => put_unfit(out, *reason),
        Note::Closed { epoch, verdicts } => {
            put_verdicts(out, verdicts.as_slice())?;
            writeln!(out, "closed {epoch}")
        }
    }
}

// What the node's own change met, where the node keeps it.
fn put_kept(out: &mut String, kept: Option<Offer>) -> Result<(), AllocError>
    ensures { OnOk result (string_bytes out.new ≡ string_bytes out.old ++ text_of (kept_lines kept)) }
{
    let Some(offer) = kept else {
        return Ok(());
    };
    let mut counts = Counts::new();
    counts.count(offer);
    put_counts(out, &counts)
}

// How many offers met what.
fn put_counts(out: &mut String, counts: &Counts) -> Result<(), AllocError>
    ensures { OnOk result (string_bytes out.new ≡ string_bytes out.old ++ ended (counts_line counts.now)) }
{
    let (fresh, replaced) = (counts.fresh, counts.replaced);
    let (weaker, full) = (counts.weaker, counts.full);
    writeln!(out, "noted {fresh} {replaced} {weaker} {full}")
}

// Why bytes are no packet.
fn put_fault(out: &mut String, fault: PacketFault) -> Result<(), AllocError>
    ensures { OnOk result (string_bytes out.new ≡ string_bytes out.old ++ ended (fault_line fault)) }
{
    write!(out, "bad ")?;
    put_fault_text(out, fault)
}

// The first fault of bytes.
fn put_fault_text(out: &mut String, fault: PacketFault) -> Result<(), AllocError>
    ensures { OnOk result (string_bytes out.new ≡ string_bytes out.old ++ ended (fault_text fault)) }
{
    match fault {
        PacketFault::Short(place) => writeln!(out, "short {place}"),
        PacketFault::Extra(place) => writeln!(out, "extra {place}"),
        PacketFault::Version(version) => writeln!(out, "version {version}"),
        PacketFault::Kind(kind) => writeln!(out, "kind {kind}"),
        PacketFault::Value(place) => writeln!(out, "value {place}"),
        PacketFault::Memory => put_line(out, "memory"),
    }
}

// Why a packet that was read is of no use.
fn put_unfit(out: &mut String, reason: Unfit) -> Result<(), AllocError>
    ensures { OnOk result (string_bytes out.new ≡ string_bytes out.old ++ ended (unfit_line reason)) }
{
    match reason {
        Unfit::View(fault) => put_view_fault(out, fault),
        Unfit::Piece(fault) => put_piece_fault(out, fault),
        Unfit::Bytes(fault) => put_bytes_fault(out, fault),
        Unfit::Name => put_line(out, "unfit name"),
        Unfit::Heads(region) => writeln!(out, "unfit heads {region}"),
    }
}

// Why the bytes that three pieces give are no slice.
fn put_bytes_fault(out: &mut String, fault: PacketFault) -> Result<(), AllocError>
    ensures { OnOk result (string_bytes out.new
        ≡ string_bytes out.old ++ ended (unfit_line (Unfit.Bytes fault))) }
{
    write!(out, "unfit bytes ")?;
    put_fault_text(out, fault)
}

fn put_piece_fault(out: &mut String, fault: PieceFault) -> Result<(), AllocError>
    ensures { OnOk result (string_bytes out.new ≡ string_bytes out.old ++ ended (piece_fault_line fault)) }
{
    match fault {
        PieceFault::Length => put_line(out, "unfit piece length"),
        PieceFault::Padding => put_line(out, "unfit piece padding"),
        PieceFault::Index | PieceFault::Memory => put_line(out, "memory"),
    }
}

fn put_view_fault(out: &mut String, fault: ViewFault) -> Result<(), AllocError>
    ensures { OnOk result (string_bytes out.new ≡ string_bytes out.old ++ ended (view_fault_line fault)) }
{
    match fault {
        ViewFault::Region(region) => writeln!(out, "unfit region {region}"),
        ViewFault::Part(region) => writeln!(out, "unfit part {region}"),
        ViewFault::Roll(region) => writeln!(out, "unfit roll {region}"),
        ViewFault::Size => put_line(out, "unfit size"),
        ViewFault::Absent => put_line(out, "unfit absent"),
        ViewFault::Epoch { .. } | ViewFault::Missing(_) | ViewFault::Memory => {
            put_line(out, "memory")
        }
    }
}

fn put_verdicts(out: &mut String, verdicts: &[(Change, Verdict)]) -> Result<(), AllocError>
    ensures { OnOk result (string_bytes out.new ≡ string_bytes out.old ++ text_of (map verdict_line verdicts.now)) }
{
    for (change, verdict) in verdicts {
        put_verdict(out, change, *verdict)?;
    }
    Ok(())
}

fn put_verdict(out: &mut String, change: &Change, verdict: Verdict) -> Result<(), AllocError>
    ensures { OnOk result (string_bytes out.new ≡ string_bytes out.old ++ ended (verdict_line (change.now, verdict))) }
{
    let id = change.id();
    let word = change_word(change);
    match verdict {
        Verdict::Accepted => writeln!(out, "accepted {id} {word}"),
        Verdict::Retired => writeln!(out, "refused {id} {word} retired"),
        Verdict::Present => writeln!(out, "refused {id} {word} present"),
        Verdict::Full => writeln!(out, "refused {id} {word} full"),
        Verdict::Absent => writeln!(out, "refused {id} {word} absent"),
        Verdict::Leader => writeln!(out, "refused {id} {word} leader"),
        Verdict::Stale => writeln!(out, "refused {id} {word} stale"),
    }
}

fn change_word(change: &Change) -> &'static str
    ensures { result.now ≡ word_of change.now }
{
    match change {
        Change::Join(_) => "join",
        Change::Move { .. } => "move",
        Change::Leave { .. } => "leave",
    }
}

/// Appends the line of a packet that was sent, with its number: from whom, to whom, and what it says.
pub fn put_packet(out: &mut String, number: usize, packet: &Packet) -> Result<(), AllocError>
    ensures { OnOk result (string_bytes out.new
        ≡ string_bytes out.old ++ ended (packet_line number packet.now)) }
{
    put_ends(out, number, packet.from, packet.to)?;
    put_body(out, &packet.body)?;
    out.push_str("\n")
}

/// Appends the line of a piece that was sent, with its number, by its names.
pub fn put_named(out: &mut String, number: usize, names: &PieceNames) -> Result<(), AllocError>
    ensures { OnOk result (string_bytes out.new ≡ string_bytes out.old ++ ended (named_line number names.now)) }
{
    put_ends(out, number, names.from, names.to)?;
    put_piece(out, names.epoch, names.region, names.colour)?;
    out.push_str("\n")?;
    Ok(())
}

// Appends the number of a packet, from whom it is, and to whom.
fn put_ends(out: &mut String, number: usize, from: NodeId, to: NodeId) -> Result<(), AllocError>
    ensures { OnOk result (string_bytes out.new ≡ string_bytes out.old
        ++ codes "#" ++ decimal number ++ codes " " ++ decimal from ++ codes ">" ++ decimal to ++ codes " ") }
{
    put_number(out, "#", number as u64)?;
    put_number(out, " ", u64::from(from.get()))?;
    put_number(out, ">", u64::from(to.get()))?;
    out.push_str(" ")
}

fn put_body(out: &mut String, body: &Body) -> Result<(), AllocError>
    ensures { OnOk result (string_bytes out.new ≡ string_bytes out.old ++ body_text body.now) }
{
    match body {
        Body::Report(changes) => {
            let count = changes.len();
            write!(out, "report {count}")
        }
        Body::Piece {
            epoch,
            region,
            colour,
            ..
        } => put_piece(out, *epoch, *region, *colour),
        Body::Need { epoch, region, .. } => write!(out, "need {epoch} {region}"),
        Body::Slice(slice) => {
            let (epoch, region) = (slice.head.epoch, slice.part.region);
            write!(out, "slice {epoch} {region}")
        }
        Body::Ask { least, .. } => write!(out, "ask {least}"),
        Body::Snap(picture) => put_snap(out, picture),
        Body::Bye { epoch } => write!(out, "bye {epoch}"),
    }
}

// What the line of a piece says.
fn put_piece(out: &mut String, epoch: Epoch, region: RegionId, colour: u8) -> Result<(), AllocError>
    ensures { OnOk result (string_bytes out.new ≡ string_bytes out.old
        ++ pair_line (codes "piece") epoch region ++ codes " " ++ decimal colour) }
{
    put_number(out, "piece ", u64::from(epoch.get()))?;
    put_number(out, " ", u64::from(region.get()))?;
    put_number(out, " ", u64::from(colour))
}

fn put_snap(out: &mut String, picture: &Picture) -> Result<(), AllocError>
    ensures { OnOk result (string_bytes out.new ≡ string_bytes out.old ++ body_text (Body.Snap picture.now)) }
{
    let epoch = picture.epoch;
    write!(out, "snap {epoch} ")?;
    put_regions(out, &picture.rolls)
}

// The regions of the rolls, a comma between two.
fn put_regions(out: &mut String, rolls: &Rolls) -> Result<(), AllocError>
    ensures { OnOk result (string_bytes out.new
        ≡ string_bytes out.old ++ join_with_byte 44 (map decimal (map (λ pair. pair.0) rolls.now))) }
{
    for (place, pair) in rolls.as_slice().iter().enumerate() {
        if place > 0 {
            write!(out, ",")?;
        }
        let region = pair.0;
        write!(out, "{region}")?;
    }
    Ok(())
}

/// Appends the line of a packet that was sent, with its number: where it goes, and its bytes, two digits for each.
pub fn put_datagram(
    alloc: Global,
    out: &mut String,
    number: usize,
    addr: Addr,
    bytes: &[u8],
) -> Result<(), AllocError>
    ensures { OnOk result (string_bytes out.new
        ≡ string_bytes out.old ++ ended (datagram_line number addr bytes.now)) }
{
    let digits = hex::encode(alloc, bytes)?;
    writeln!(out, "#{number} {addr} {digits}")
}
