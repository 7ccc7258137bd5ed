use super::fields::Fields;
use crate::{LeadCall, LeadNote, LeadOutcome, LeadPlan, Leader};
use cs_base::{Addr, Epoch, Member, NodeId, Point};
use cs_group::{Verdict, Verdicts};
use cs_item::{Picture, Slice};
use cs_packet::{Body, Entry, Packet};
use std::alloc::AllocError;
use std::process::Abort;

/// What comes to the leader.
#[derive(Clone, Copy)]
pub(crate) enum Came<'a> {
    Close,
    /// A packet of this kind from a node.
    Packet(u8, u32, Fields<'a>),
    Bytes(&'a [u8]),
    /// A report of the joins of the nodes 2 to 50, which stand 10 apart.
    Joins,
    /// A report of 64 leaves, of the ids from this one on.
    Leaves(u16),
}

/// What comes, and in words what the leader answers, and what it logs and sends.
#[derive(Clone, Copy)]
pub(crate) struct Row<'a>(pub Came<'a>, pub &'a str, pub &'a str);

// Node 1, which stands at 0.
fn member_1(rt: &impl Abort) -> Member {
    Member {
        id: NodeId::new(1).expect(rt, "id"),
        addr: Addr::new([127, 0, 0, 1], 9001).expect(rt, "address"),
        at: Point::new(0, 0, 0).expect(rt, "point"),
    }
}

/// Node 1 leads at epoch 0.
pub(crate) fn leader_1<R: AllocGlobal + Abort>(rt: &R) -> Leader {
    match Leader::start(rt.alloc(), member_1(rt)) {
        Ok(leader) => leader,
        Err(_) => Leader::start(rt.alloc(), member_1(rt)).expect(rt, "memory"),
    }
}

// Puts the bytes that are written in hexadecimal digits, two of them for each, behind the others.
fn push_digits(rt: &impl Abort, bytes: &mut Vec<u8>, digits: &str) {
    for pair in digits.as_bytes().chunks(2) {
        let [high, low] = pair else {
            continue;
        };
        let high = char::from(*high).to_digit(16).expect(rt, "digit");
        let low = char::from(*low).to_digit(16).expect(rt, "digit");
        bytes.push((16 * high + low) as u8).expect(rt, "memory");
    }
}

fn push_text(rt: &impl Abort, bytes: &mut Vec<u8>, text: &str) {
    for field in text.split(" ") {
        push_digits(rt, bytes, field);
    }
}

fn push_fields(rt: &impl Abort, bytes: &mut Vec<u8>, fields: Fields) {
    for text in fields {
        push_text(rt, bytes, text);
    }
}

pub(crate) fn joined<R: AllocGlobal + Abort>(rt: &R, fields: Fields) -> Vec<u8> {
    let mut bytes = Vec::new(rt.alloc());
    push_fields(rt, &mut bytes, fields);
    bytes
}

fn push_number(rt: &impl Abort, bytes: &mut Vec<u8>, number: u32) {
    bytes
        .extend_from_slice(&number.to_be_bytes())
        .expect(rt, "memory");
}

// The bytes of a packet for the leader up to its body.
fn head_of<R: AllocGlobal + Abort>(rt: &R, kind: u8, from: u32) -> Vec<u8> {
    let mut bytes = Vec::new(rt.alloc());
    bytes.push(1).expect(rt, "memory");
    bytes.push(kind).expect(rt, "memory");
    push_number(rt, &mut bytes, from);
    push_number(rt, &mut bytes, 1);
    bytes
}

fn packet_of<R: AllocGlobal + Abort>(rt: &R, kind: u8, from: u32, fields: Fields) -> Vec<u8> {
    let mut bytes = head_of(rt, kind, from);
    push_fields(rt, &mut bytes, fields);
    bytes
}

fn push_join(rt: &impl Abort, bytes: &mut Vec<u8>, id: u16) {
    bytes.push(1).expect(rt, "memory");
    push_number(rt, bytes, u32::from(id));
    bytes
        .extend_from_slice(&[127, 0, 0, 1])
        .expect(rt, "memory");
    let port = id.saturating_add(9000);
    bytes
        .extend_from_slice(&port.to_be_bytes())
        .expect(rt, "memory");
    push_number(rt, bytes, 10 * u32::from(id));
    push_number(rt, bytes, 0);
    push_number(rt, bytes, 0);
}

fn joins_of<R: AllocGlobal + Abort>(rt: &R) -> Vec<u8> {
    let mut bytes = head_of(rt, 1, 2);
    bytes.push(49).expect(rt, "memory");
    for id in 2..51 {
        push_join(rt, &mut bytes, id);
    }
    bytes
}

fn leaves_of<R: AllocGlobal + Abort>(rt: &R, first: u16) -> Vec<u8> {
    let mut bytes = head_of(rt, 1, 2);
    bytes.push(64).expect(rt, "memory");
    for id in first..first.saturating_add(64) {
        bytes.push(3).expect(rt, "memory");
        push_number(rt, &mut bytes, u32::from(id));
    }
    bytes
}

fn bytes_of<R: AllocGlobal + Abort>(rt: &R, came: Came) -> Vec<u8> {
    match came {
        Came::Close => Vec::new(rt.alloc()),
        Came::Packet(kind, from, fields) => packet_of(rt, kind, from, fields),
        Came::Bytes(bytes) => Vec::from_slice(rt.alloc(), bytes).expect(rt, "memory"),
        Came::Joins => joins_of(rt),
        Came::Leaves(first) => leaves_of(rt, first),
    }
}

// Where memory runs out, the leader is as before: the call is made once more, and has to give the same.
fn decided(rt: &impl Abort, leader: &Leader, call: &LeadCall) -> LeadPlan {
    match leader.decide(call) {
        Ok(plan) => plan,
        Err(_) => leader.decide(call).expect(rt, "memory"),
    }
}

pub(crate) fn plan_on<R: AllocGlobal + Abort>(rt: &R, leader: &Leader, came: Came) -> LeadPlan {
    let bytes = bytes_of(rt, came);
    match came {
        Came::Close => decided(rt, leader, &LeadCall::Close),
        _ => decided(rt, leader, &LeadCall::Deliver { bytes: &bytes }),
    }
}

fn put_note(text: &mut String, note: &LeadNote) -> Result<(), AllocError> {
    match note {
        LeadNote::Stale { have, given } => write!(text, "stale {} {}", have.get(), given.get()),
        LeadNote::Early { have, given } => write!(text, "early {} {}", have.get(), given.get()),
        LeadNote::Answered => write!(text, "answered"),
        LeadNote::Silent => write!(text, "silent"),
        LeadNote::Noted(counts) => write!(
            text,
            "noted {} {} {} {}",
            counts.fresh, counts.replaced, counts.weaker, counts.full
        ),
        LeadNote::Idle => write!(text, "idle"),
        LeadNote::NotMine(to) => write!(text, "not mine {}", to.get()),
        LeadNote::Bad(fault) => write!(text, "bad {fault:?}"),
        LeadNote::Closed { epoch, verdicts } => put_closed(text, *epoch, verdicts),
        LeadNote::Spent => write!(text, "spent"),
    }
}

// The epoch, how many changes were judged, and the first one that wasn't accepted.
fn put_closed(text: &mut String, epoch: Epoch, verdicts: &Verdicts) -> Result<(), AllocError> {
    write!(text, "closed {} {}", epoch.get(), verdicts.len())?;
    for (change, verdict) in verdicts.as_slice() {
        if *verdict != Verdict::Accepted {
            return write!(text, ", {} {verdict:?}", change.id().get());
        }
    }
    Ok(())
}

// The epoch of an item, and how many changes are in it.
fn put_entry(text: &mut String, entry: &Entry) -> Result<(), AllocError> {
    match entry {
        Entry::Item { epoch, changes } => {
            write!(text, "log item {} {}", epoch.get(), changes.len())
        }
        _ => write!(text, "log another entry"),
    }
}

fn put_send(text: &mut String, addr: Addr, packet: &Packet) -> Result<(), AllocError> {
    if !text.is_empty() {
        write!(text, ", ")?;
    }
    write!(
        text,
        "{}>{}@{} ",
        packet.from.get(),
        packet.to.get(),
        addr.port()
    )?;
    match &packet.body {
        Body::Piece {
            epoch,
            region,
            colour,
            ..
        } => write!(text, "piece {} {} {colour}", epoch.get(), region.get()),
        Body::Slice(slice) => put_slice(text, slice),
        Body::Snap(picture) => put_snap(text, picture),
        Body::Bye { epoch } => write!(text, "bye {}", epoch.get()),
        _ => write!(text, "another packet"),
    }
}

fn put_slice(text: &mut String, slice: &Slice) -> Result<(), AllocError> {
    write!(
        text,
        "slice {} {}",
        slice.head.epoch.get(),
        slice.part.region.get()
    )
}

// The epoch of a picture and the regions of its rolls.
fn put_snap(text: &mut String, picture: &Picture) -> Result<(), AllocError> {
    write!(text, "snap {}", picture.epoch.get())?;
    for (region, _) in picture.rolls.as_slice() {
        write!(text, " {}", region.get())?;
    }
    Ok(())
}

// What is logged, and then what is sent.
fn done_by<R: AllocGlobal + Abort>(rt: &R, plan: &LeadPlan) -> String {
    let mut text = String::new(rt.alloc());
    if let Some(entry) = &plan.entry {
        put_entry(&mut text, entry).expect(rt, "memory");
    }
    for (addr, packet) in plan.sends.as_slice() {
        put_send(&mut text, *addr, packet).expect(rt, "memory");
    }
    text
}

fn note_in<R: AllocGlobal + Abort>(rt: &R, plan: &LeadPlan) -> String {
    let mut text = String::new(rt.alloc());
    put_note(&mut text, &plan.note).expect(rt, "memory");
    text
}

/// What becomes of the leader by a row. What it answers and does has to be that of the row.
fn check_row<R: AllocGlobal + Abort>(rt: &R, leader: &Leader, row: &Row) -> LeadOutcome {
    let Row(came, note, done) = *row;
    let plan = plan_on(rt, leader, came);
    let told = note_in(rt, &plan);
    assert_eq!(rt; told.as_str(), note);
    let text = done_by(rt, &plan);
    assert_eq!(rt; text.as_str(), done);
    plan.after
}

/// Each row is for the leader as it is.
pub(crate) fn check_each<R: AllocGlobal + Abort>(rt: &R, leader: &Leader, rows: &[Row]) {
    for row in rows {
        let _after = check_row(rt, leader, row);
    }
}

/// The leader after a plan.
pub(crate) fn next_of(leader: Leader, after: LeadOutcome) -> Leader {
    match after {
        LeadOutcome::Same => leader,
        LeadOutcome::Next(next) => next,
    }
}

/// The leader after all rows, one after the other.
pub(crate) fn after_all<R: AllocGlobal + Abort>(rt: &R, leader: Leader, rows: &[Row]) -> Leader {
    let mut leader = leader;
    for row in rows {
        let after = check_row(rt, &leader, row);
        leader = next_of(leader, after);
    }
    leader
}
