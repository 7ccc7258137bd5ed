ghost use Rattle.cs_core.specs.Decision.{HasCall};

use super::fields::{Fields, REGIONS, ROLL_0, ROLLS};
use crate::{Call, FollowNote, Follower, Outcome, Plan, Unfit};
use cs_base::{Addr, Epoch, Mode, NodeId, Point, RegionId};
use cs_fields::PacketFault;
use cs_item::{Picture, Slice};
use cs_packet::{Body, Entry, Own, Packet, Slices};
use cs_pending::{Counts, Offer};
use cs_piece::{PieceFault, cut};
use cs_view::ViewFault;
use std::alloc::AllocError;
use std::process::Abort;

/// What comes to a node, or what it is told to do.
#[derive(Clone, Copy)]
pub(crate) enum Came<'a> {
    /// A piece from node 1: the epoch, the region and the colour that it says, and the slice that it is cut of.
    Piece(u32, u32, u8, Fields<'a>),
    Slice(Fields<'a>),
    /// A snapshot: its epoch, its summaries and its rolls.
    Snap(u32, Fields<'a>, Fields<'a>),
    /// A packet of this kind from a node.
    Packet(u8, u32, Fields<'a>),
    Bytes(&'a [u8]),
    /// A report of 64 leaves, of the ids from this one on.
    Leaves(u16),
    /// A call, with its numbers.
    Join,
    AskLeader,
    Move(i32),
    Leave,
    Flush,
    Ask(u32),
    Need(u32, u32),
}

/// Why something doesn't fit. Of regions the numbers stand here, so that a row is a constant.
#[derive(Clone, Copy)]
pub(crate) enum Reason {
    Region(u32),
    Part(u32),
    Roll(u32),
    Size,
    Absent,
    Length,
    Padding,
    Bytes(PacketFault),
    Name,
    Heads(u32),
}

/// What a node answers, likewise.
#[derive(Clone, Copy)]
pub(crate) enum Note {
    Told(Option<Offer>),
    Moved(u32, Option<Offer>),
    Flushed(u32),
    Nothing,
    Unknown(u32),
    Held,
    Passed,
    Already,
    Advanced(u32),
    Jumped(u32),
    Departed,
    Stale(u32, u32),
    Early(u32, u32),
    Answered,
    Silent,
    /// So many changes of a report were new, took another's place, were weaker, and found no room.
    Noted(u32, u32, u32, u32),
    Idle,
    NotMine(u32),
    Bad(PacketFault),
    Unfit(Reason),
    Spent,
}

/// What comes, what the node answers, and what it logs and sends, in words.
#[derive(Clone, Copy)]
pub(crate) struct Row<'a>(pub Came<'a>, pub Note, pub &'a str);

/// Node 2 is at epoch 5 by such a snapshot: it knows region 0, or all three of them.
const ONE_ROLL: &[Row] = &[Row(
    Came::Snap(5, REGIONS, ROLL_0),
    Note::Jumped(5),
    "log view 5",
)];

const ALL_ROLLS: &[Row] = &[Row(Came::Snap(5, REGIONS, ROLLS), Note::Jumped(5), "log view 5")];

pub(crate) fn id_of(rt: &impl Abort, id: u32) -> NodeId {
    NodeId::new(id).expect(rt, "id")
}

pub(crate) fn epoch_of(rt: &impl Abort, epoch: u32) -> Epoch {
    Epoch::new(epoch).expect(rt, "epoch")
}

pub(crate) fn region_of(rt: &impl Abort, region: u32) -> RegionId {
    RegionId::new(region).expect(rt, "region")
}

pub(crate) fn point_of(rt: &impl Abort, x: i32) -> Point {
    Point::new(x, 0, 0).expect(rt, "point")
}

fn fault_of(rt: &impl Abort, reason: Reason) -> Unfit {
    match reason {
        Reason::Region(region) => Unfit::View(ViewFault::Region(region)),
        Reason::Part(region) => Unfit::View(ViewFault::Part(region_of(rt, region))),
        Reason::Roll(region) => Unfit::View(ViewFault::Roll(region_of(rt, region))),
        Reason::Size => Unfit::View(ViewFault::Size),
        Reason::Absent => Unfit::View(ViewFault::Absent),
        Reason::Length => Unfit::Piece(PieceFault::Length),
        Reason::Padding => Unfit::Piece(PieceFault::Padding),
        Reason::Bytes(fault) => Unfit::Bytes(fault),
        Reason::Name => Unfit::Name,
        Reason::Heads(region) => Unfit::Heads(region_of(rt, region)),
    }
}

pub(crate) fn note_of(rt: &impl Abort, note: Note) -> FollowNote {
    match note {
        Note::Told(kept) => FollowNote::Told { kept },
        Note::Moved(seq, kept) => FollowNote::Moved { seq, kept },
        Note::Flushed(count) => FollowNote::Flushed(count),
        Note::Nothing => FollowNote::Nothing,
        Note::Unknown(id) => FollowNote::Unknown(id_of(rt, id)),
        Note::Held => FollowNote::Held,
        Note::Passed => FollowNote::Passed,
        Note::Already => FollowNote::Already,
        Note::Advanced(epoch) => FollowNote::Advanced(epoch_of(rt, epoch)),
        Note::Jumped(epoch) => FollowNote::Jumped(epoch_of(rt, epoch)),
        Note::Departed => FollowNote::Departed,
        Note::Stale(have, given) => FollowNote::Stale {
            have: epoch_of(rt, have),
            given: epoch_of(rt, given),
        },
        Note::Early(have, given) => FollowNote::Early {
            have: epoch_of(rt, have),
            given: epoch_of(rt, given),
        },
        Note::Answered => FollowNote::Answered,
        Note::Silent => FollowNote::Silent,
        Note::Noted(fresh, replaced, weaker, full) => FollowNote::Noted(Counts {
            fresh,
            replaced,
            weaker,
            full,
        }),
        Note::Idle => FollowNote::Idle,
        Note::NotMine(id) => FollowNote::NotMine(id_of(rt, id)),
        Note::Bad(fault) => FollowNote::Bad(fault),
        Note::Unfit(reason) => FollowNote::Unfit(fault_of(rt, reason)),
        Note::Spent => FollowNote::Spent,
    }
}

fn address_of(rt: &impl Abort, port: u16) -> Addr {
    Addr::new([127, 0, 0, 1], port).expect(rt, "address")
}

/// A joining node with this id, at this port and place, which node 1 leads.
pub(crate) fn joining<R: AllocGlobal + Abort>(
    rt: &R,
    id: u32,
    port: u16,
    x: i32,
    mode: Mode,
) -> Follower {
    let own = Own {
        id: id_of(rt, id),
        addr: address_of(rt, port),
        at: point_of(rt, x),
        mode,
        leader: id_of(rt, 1),
        leader_addr: address_of(rt, 9001),
    };
    Follower::start(rt.alloc(), own)
}

pub(crate) fn node_2<R: AllocGlobal + Abort>(rt: &R, mode: Mode) -> Follower {
    joining(rt, 2, 9002, 10, mode)
}

/// Node 2 at epoch 5 of three regions. It knows region 0, or all three of them.
pub(crate) fn at_5<R: AllocGlobal + Abort>(rt: &R, mode: Mode) -> Follower {
    let rows = match mode {
        Mode::Partial => ONE_ROLL,
        Mode::Full => ALL_ROLLS,
    };
    after_all(rt, node_2(rt, mode), rows)
}

// Puts the bytes that are written in hexadecimal digits, two of them for each, behind the others.
fn push_digits(rt: &impl Abort, bytes: &mut Vec<u8>, digits: &str) {
    for pair in digits.as_bytes().chunks(2) {
        let [high, low] = pair else {
            continue;
        };
        let high = char::from(*high).to_digit(16).expect(rt, "digit");
        let low = char::from(*low).to_digit(16).expect(rt, "digit");
        bytes.push((16 * high + low) as u8).expect(rt, "memory");
    }
}

fn push_text(rt: &impl Abort, bytes: &mut Vec<u8>, text: &str) {
    for field in text.split(" ") {
        push_digits(rt, bytes, field);
    }
}

fn push_fields(rt: &impl Abort, bytes: &mut Vec<u8>, fields: Fields) {
    for text in fields {
        push_text(rt, bytes, text);
    }
}

pub(crate) fn joined<R: AllocGlobal + Abort>(rt: &R, fields: Fields) -> Vec<u8> {
    let mut bytes = Vec::new(rt.alloc());
    push_fields(rt, &mut bytes, fields);
    bytes
}

fn push_number(rt: &impl Abort, bytes: &mut Vec<u8>, number: u32) {
    bytes
        .extend_from_slice(&number.to_be_bytes())
        .expect(rt, "memory");
}

// The bytes of a packet up to its body.
fn head_of<R: AllocGlobal + Abort>(rt: &R, kind: u8, from: u32, to: u32) -> Vec<u8> {
    let mut bytes = Vec::new(rt.alloc());
    bytes.push(1).expect(rt, "memory");
    bytes.push(kind).expect(rt, "memory");
    push_number(rt, &mut bytes, from);
    push_number(rt, &mut bytes, to);
    bytes
}

fn packet_of<R: AllocGlobal + Abort>(
    rt: &R,
    kind: u8,
    from: u32,
    to: u32,
    fields: Fields,
) -> Vec<u8> {
    let mut bytes = head_of(rt, kind, from, to);
    push_fields(rt, &mut bytes, fields);
    bytes
}

fn snap_of<R: AllocGlobal + Abort>(
    rt: &R,
    to: u32,
    epoch: u32,
    regions: Fields,
    rolls: Fields,
) -> Vec<u8> {
    let mut bytes = head_of(rt, 6, 1, to);
    push_number(rt, &mut bytes, epoch);
    push_fields(rt, &mut bytes, regions);
    push_fields(rt, &mut bytes, rolls);
    bytes
}

fn leaves_of<R: AllocGlobal + Abort>(rt: &R, to: u32, first: u16) -> Vec<u8> {
    let mut bytes = head_of(rt, 1, 1, to);
    bytes.push(64).expect(rt, "memory");
    for id in first..first.saturating_add(64) {
        bytes.push(3).expect(rt, "memory");
        push_number(rt, &mut bytes, u32::from(id));
    }
    bytes
}

// The piece of this colour of a slice.
fn push_piece<R: AllocGlobal + Abort>(rt: &R, bytes: &mut Vec<u8>, slice: Fields, colour: u8) {
    let whole = joined(rt, slice);
    assert!(rt; whole.len() < 4_294_967_296);
    let pieces = cut(rt.alloc(), &whole).expect(rt, "memory");
    let piece = pieces.get(colour as usize).expect(rt, "colour");
    bytes
        .extend_from_slice(piece.as_slice())
        .expect(rt, "memory");
}

pub(crate) fn bytes_of<R: AllocGlobal + Abort>(rt: &R, to: u32, came: Came) -> Vec<u8> {
    match came {
        Came::Piece(epoch, region, colour, slice) => {
            let mut bytes = head_of(rt, 2, 1, to);
            push_number(rt, &mut bytes, epoch);
            push_number(rt, &mut bytes, region);
            bytes.push(colour).expect(rt, "memory");
            push_piece(rt, &mut bytes, slice, colour);
            bytes
        }
        Came::Slice(fields) => packet_of(rt, 4, 1, to, fields),
        Came::Snap(epoch, regions, rolls) => snap_of(rt, to, epoch, regions, rolls),
        Came::Packet(kind, from, fields) => packet_of(rt, kind, from, to, fields),
        Came::Bytes(bytes) => Vec::from_slice(rt.alloc(), bytes).expect(rt, "memory"),
        Came::Leaves(first) => leaves_of(rt, to, first),
        _ => Vec::new(rt.alloc()),
    }
}

// Where memory runs out, the node is as before: the call is made once more, and has to give the same.
fn decided(rt: &impl Abort, node: &Follower, call: &Call) -> Plan {
    check_call(rt, node, call);
    match node.decide(call) {
        Ok(plan) => plan,
        Err(_) => node.decide(call).expect(rt, "memory"),
    }
}

fn decided_on<R: AllocGlobal + Abort>(rt: &R, node: &Follower, came: Came) -> Plan {
    let bytes = bytes_of(rt, node.own().id.get(), came);
    decided(rt, node, &Call::Deliver { bytes: &bytes })
}

pub(crate) fn plan_on<R: AllocGlobal + Abort>(rt: &R, node: &Follower, came: Came) -> Plan {
    match came {
        Came::Join => decided(rt, node, &Call::Join),
        Came::AskLeader => decided(rt, node, &Call::AskLeader),
        Came::Move(x) => decided(
            rt,
            node,
            &Call::Moved {
                at: point_of(rt, x),
            },
        ),
        Came::Leave => decided(rt, node, &Call::Leave),
        Came::Flush => decided(rt, node, &Call::Flush),
        Came::Ask(to) => decided(rt, node, &Call::Ask { to: id_of(rt, to) }),
        Came::Need(to, region) => decided(rt, node, &need_of(rt, to, region)),
        _ => decided_on(rt, node, came),
    }
}

fn need_of<'a>(rt: &impl Abort, to: u32, region: u32) -> Call<'a> {
    Call::Need {
        to: id_of(rt, to),
        region: region_of(rt, region),
    }
}

// A joining node and a member have different calls.
fn check_call(rt: &impl Abort, node: &Follower, call: &Call)
    ensures { HasCall node.now.following call.now }
{
    match call {
        Call::Join | Call::AskLeader => assert!(rt; node.view().is_none()),
        Call::Deliver { .. } => {}
        _ => assert!(rt; node.view().is_some()),
    }
}

fn put_entry(text: &mut String, entry: &Entry) -> Result<(), AllocError> {
    match entry {
        Entry::Seq { seq, .. } => write!(text, "log seq {seq}"),
        Entry::View(picture) => write!(text, "log view {}", picture.epoch.get()),
        Entry::Step(slices) => put_step(text, slices),
        Entry::Gone { epoch } => write!(text, "log gone {}", epoch.get()),
        Entry::Boot { .. } | Entry::Item { .. } | Entry::Base { .. } => {
            write!(text, "log another entry")
        }
    }
}

fn put_step(text: &mut String, slices: &Slices) -> Result<(), AllocError> {
    write!(text, "log step")?;
    for slice in slices.as_slice() {
        write!(text, " {}", slice.part.region.get())?;
    }
    Ok(())
}

fn put_send(text: &mut String, addr: Addr, packet: &Packet) -> Result<(), AllocError> {
    if !text.is_empty() {
        write!(text, ", ")?;
    }
    write!(
        text,
        "{}>{}@{} ",
        packet.from.get(),
        packet.to.get(),
        addr.port()
    )?;
    match &packet.body {
        Body::Report(changes) => write!(text, "report {}", changes.len()),
        Body::Piece {
            epoch,
            region,
            colour,
            ..
        } => write!(text, "piece {} {} {colour}", epoch.get(), region.get()),
        Body::Need { epoch, region, .. } => write!(text, "need {} {}", epoch.get(), region.get()),
        Body::Slice(slice) => put_slice(text, slice),
        Body::Ask { least, .. } => write!(text, "ask {least}"),
        Body::Snap(picture) => put_snap(text, picture),
        Body::Bye { epoch } => write!(text, "bye {}", epoch.get()),
    }
}

fn put_slice(text: &mut String, slice: &Slice) -> Result<(), AllocError> {
    write!(
        text,
        "slice {} {}",
        slice.head.epoch.get(),
        slice.part.region.get()
    )
}

// The epoch of a picture and the regions of its rolls.
fn put_snap(text: &mut String, picture: &Picture) -> Result<(), AllocError> {
    write!(text, "snap {}", picture.epoch.get())?;
    for (region, _) in picture.rolls.as_slice() {
        write!(text, " {}", region.get())?;
    }
    Ok(())
}

// What is logged, and then what is sent.
fn done_by<R: AllocGlobal + Abort>(rt: &R, plan: &Plan) -> String {
    let mut text = String::new(rt.alloc());
    if let Some(entry) = &plan.entry {
        put_entry(&mut text, entry).expect(rt, "memory");
    }
    for (addr, packet) in plan.sends.as_slice() {
        put_send(&mut text, *addr, packet).expect(rt, "memory");
    }
    text
}

/// What becomes of the node by a row. What it answers and does has to be that of the row.
pub(crate) fn check_row<R: AllocGlobal + Abort>(rt: &R, node: &Follower, row: &Row) -> Outcome {
    let Row(came, note, done) = *row;
    let plan = plan_on(rt, node, came);
    assert_eq!(rt; plan.note, note_of(rt, note));
    let text = done_by(rt, &plan);
    assert_eq!(rt; text.as_str(), done);
    plan.after
}

/// Each row is for the node as it is.
pub(crate) fn check_each<R: AllocGlobal + Abort>(rt: &R, node: &Follower, rows: &[Row]) {
    for row in rows {
        let _after = check_row(rt, node, row);
    }
}

pub(crate) fn next_of(rt: &impl Abort, node: Follower, after: Outcome) -> Follower {
    match after {
        Outcome::Same => node,
        Outcome::Next(next) => next,
        Outcome::Gone => panic!(rt; "the node left"),
    }
}

/// The node after all rows, one after the other.
pub(crate) fn after_all<R: AllocGlobal + Abort>(rt: &R, node: Follower, rows: &[Row]) -> Follower {
    let mut node = node;
    for row in rows {
        let after = check_row(rt, &node, row);
        node = next_of(rt, node, after);
    }
    node
}

/// The node leaves by the row.
pub(crate) fn check_leaves<R: AllocGlobal + Abort>(rt: &R, node: &Follower, row: &Row) {
    assert!(rt; matches!(check_row(rt, node, row), Outcome::Gone));
}
