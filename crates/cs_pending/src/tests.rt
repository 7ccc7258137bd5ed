use crate::{Counts, Offer, Pending};
use cs_base::{Addr, Change, Member, NodeId, Point};
use std::process::Abort;

fn id_of(rt: &impl Abort, number: u32) -> NodeId {
    NodeId::new(number).expect(rt, "id")
}

fn join(rt: &impl Abort, number: u32) -> Change {
    Change::Join(Member {
        id: id_of(rt, number),
        addr: Addr::new([127, 0, 0, 1], 9000).expect(rt, "address"),
        at: Point::new(0, 0, 0).expect(rt, "point"),
    })
}

fn moved(rt: &impl Abort, number: u32, seq: u32) -> Change {
    Change::Move {
        id: id_of(rt, number),
        seq,
        at: Point::new(1, 2, 3).expect(rt, "point"),
    }
}

fn leave(rt: &impl Abort, number: u32) -> Change {
    Change::Leave {
        id: id_of(rt, number),
    }
}

// Offers a change, which meets this.
fn offer(rt: &impl Abort, pending: &mut Pending, change: Change, met: Offer) {
    assert_eq!(rt; pending.offer(change), met);
}

// Offers a Join of each of these ids, which is new.
fn offer_joins(rt: &impl Abort, pending: &mut Pending, from: u32, to: u32) {
    for number in from..to {
        offer(rt, pending, join(rt, number), Offer::New);
    }
}

// Takes out the first changes, which are these.
fn take(rt: &impl Abort, pending: &mut Pending, count: usize, changes: &[Change]) {
    let front = pending.take_front(count).expect(rt, "memory");
    assert_eq!(rt; front.as_slice(), changes);
}

fn copy_of(rt: &impl Abort, pending: &Pending) -> Pending {
    pending.copy().expect(rt, "memory")
}

#[test]
fn the_stronger_change_stands(rt: HostRuntime) {
    let mut pending = Pending::new(rt.alloc());
    offer(&rt, &mut pending, join(&rt, 7), Offer::New);
    offer(&rt, &mut pending, moved(&rt, 7, 2), Offer::Replaced);
    offer(&rt, &mut pending, moved(&rt, 7, 1), Offer::Weaker);
    take(&rt, &mut pending, 1, &[moved(&rt, 7, 2)]);
    assert!(rt; pending.is_empty());
}

#[test]
fn no_more_than_256_are_pending(rt: HostRuntime) {
    let mut pending = Pending::new(rt.alloc());
    offer_joins(&rt, &mut pending, 1000, 1256);
    offer(&rt, &mut pending, join(&rt, 3), Offer::Full);
    offer(&rt, &mut pending, leave(&rt, 1255), Offer::Replaced);
    take(&rt, &mut pending, 1, &[join(&rt, 1000)]);
    assert_eq!(rt; pending.len(), 255);
}

#[test]
fn the_first_are_taken_out(rt: HostRuntime) {
    let mut pending = Pending::new(rt.alloc());
    offer_joins(&rt, &mut pending, 1, 4);
    offer(&rt, &mut pending, moved(&rt, 2, 9), Offer::Replaced);
    take(&rt, &mut pending, 2, &[join(&rt, 1), moved(&rt, 2, 9)]);
    offer(&rt, &mut pending, join(&rt, 2), Offer::New);
    let mut copy = copy_of(&rt, &pending);
    take(&rt, &mut copy, 7, &[join(&rt, 3), join(&rt, 2)]);
    assert!(rt; copy.is_empty());
    assert_eq!(rt; pending.len(), 2);
}

// Offers changes together, which meet this.
fn offer_all(rt: &impl Abort, pending: &mut Pending, changes: &[Change], counts: Counts) {
    assert!(rt; changes.len() < 100);
    assert_eq!(rt; pending.offer_all(changes).expect(rt, "memory"), counts);
}

#[test]
fn a_report_meets_all_four_answers(rt: HostRuntime) {
    let mut pending = Pending::new(rt.alloc());
    offer_joins(&rt, &mut pending, 1, 255);
    let report = [
        moved(&rt, 2, 5),
        join(&rt, 900),
        moved(&rt, 2, 4),
        leave(&rt, 1),
        join(&rt, 901),
        join(&rt, 2),
        moved(&rt, 902, 1),
    ];
    let counts = Counts {
        fresh: 2,
        replaced: 2,
        weaker: 2,
        full: 1,
    };
    offer_all(&rt, &mut pending, &report, counts);
    assert_eq!(rt; pending.len(), 256);
    take(&rt, &mut pending, 2, &[leave(&rt, 1), moved(&rt, 2, 5)]);
    offer_all(&rt, &mut pending, &[], Counts::new());
    assert_eq!(rt; pending.len(), 254);
}
