use crate::{Hold, HoldFault, Took};
use cs_base::RegionId;
use cs_piece::PieceFault;
use std::alloc::Global;
use std::process::Abort;

fn region_of(rt: &impl Abort, number: u32) -> RegionId {
    RegionId::new(number).expect(rt, "region")
}

fn copy_of(rt: &impl Abort, hold: &Hold) -> Hold {
    hold.copy().expect(rt, "memory")
}

// A piece of a region and a colour.
#[derive(Clone, Copy)]
struct Came<'a>(u32, u8, &'a [u8]);

// What taking it gives.
fn taken(rt: &impl Abort, hold: &mut Hold, came: &Came) -> Result<Took, HoldFault> {
    let Came(region, colour, bytes) = *came;
    assert!(rt; colour < 4);
    hold.take(region_of(rt, region), colour, bytes)
}

// Takes pieces, each of which is new.
fn take_new(rt: &impl Abort, hold: &mut Hold, pieces: &[Came]) {
    for came in pieces {
        assert_eq!(rt; taken(rt, hold, came), Ok(Took::New));
    }
}

// Offers pieces that change nothing.
fn take_none(rt: &impl Abort, hold: &mut Hold, pieces: &[(Came, Result<Took, HoldFault>)]) {
    for (came, answer) in pieces {
        assert_eq!(rt; taken(rt, hold, came), *answer);
    }
}

fn take_slice(rt: &impl Abort, hold: &mut Hold, region: u32, bytes: &[u8], took: Took) {
    assert!(rt; bytes.len() < 100);
    let answer = hold.take_slice(region_of(rt, region), bytes);
    assert_eq!(rt; answer, Ok(took));
}

// Which pieces there are, of some that may be.
fn check_pieces(rt: &impl Abort, hold: &Hold, there: &[Came], absent: &[(u32, u8)]) {
    assert_eq!(rt; hold.len(), there.len());
    for Came(region, colour, bytes) in there {
        let piece = hold.piece(region_of(rt, *region), *colour);
        assert_eq!(rt; piece.expect(rt, "piece"), *bytes);
    }
    check_absent(rt, hold, absent);
}

fn check_absent(rt: &impl Abort, hold: &Hold, absent: &[(u32, u8)]) {
    for (region, colour) in absent {
        assert!(rt; hold.piece(region_of(rt, *region), *colour).is_none());
    }
}

fn check_no_slice(rt: &impl Abort, hold: &Hold, region: u32) {
    let whole = hold.whole(region_of(rt, region)).expect(rt, "memory");
    assert!(rt; whole.is_none());
}

fn check_slice(rt: &impl Abort, hold: &Hold, region: u32, bytes: &[u8]) {
    let whole = hold.whole(region_of(rt, region)).expect(rt, "memory");
    assert_eq!(rt; whole.expect(rt, "slice").as_slice(), bytes);
}

fn check_least(rt: &impl Abort, hold: &Hold, region: u32) {
    let least = hold.least_whole().expect(rt, "region");
    assert_eq!(rt; least.get(), region);
}

#[test]
fn the_third_piece_brings_the_fourth(rt: HostRuntime) {
    let first = Came(0, 0, b"\x00\x00\x00\x07cen");
    let second = Came(0, 1, b"\x00\x00\x00\x07sus");
    let third = Came(0, 2, b"\x00\x00\x00\x07!\x00\x00");
    let fourth = Came(0, 3, b"\x00\x00\x00\x07\x31\x10\x1d");
    let mut hold = Hold::new(rt.alloc());
    assert!(rt; hold.is_empty());
    take_new(&rt, &mut hold, &[second, first]);
    check_no_slice(&rt, &hold, 0);
    assert!(rt; hold.least_whole().is_none());
    take_none(&rt, &mut hold, &[(Came(0, 0, b"other"), Ok(Took::Already))]);
    check_pieces(&rt, &hold, &[first, second], &[(0, 2), (0, 3), (1, 0)]);

    take_new(&rt, &mut hold, &[fourth]);
    check_pieces(&rt, &hold, &[first, second, third, fourth], &[(1, 0)]);
    check_slice(&rt, &hold, 0, b"census!");
    check_least(&rt, &hold, 0);
    take_slice(&rt, &mut hold, 0, b"strange", Took::Already);
    check_slice(&rt, &hold, 0, b"census!");
}

#[test]
fn a_piece_that_does_not_fit_changes_nothing(rt: HostRuntime) {
    let first = Came(3, 0, b"\x00\x00\x00\x07cen");
    let second = Came(3, 1, b"\x00\x00\x00\x07sus");
    let mut hold = Hold::new(rt.alloc());
    take_new(&rt, &mut hold, &[first, second]);
    let length = Err(HoldFault::Piece(PieceFault::Length));
    let padding = Err(HoldFault::Piece(PieceFault::Padding));
    take_none(
        &rt,
        &mut hold,
        &[
            (Came(3, 2, b""), length),
            (Came(3, 2, b"\x00\x00\x00\x07!\x00"), length),
            (Came(3, 2, b"\x00\x00\x00\x08!\x00\x00"), length),
            (Came(3, 2, b"\x00\x00\x00\x07!\x00\x01"), padding),
        ],
    );
    check_pieces(&rt, &hold, &[first, second], &[(3, 2), (3, 3)]);
    take_new(&rt, &mut hold, &[Came(3, 2, b"\x00\x00\x00\x07!\x00\x00")]);
    check_slice(&rt, &hold, 3, b"census!");
}

#[test]
fn two_regions_stand_side_by_side(rt: HostRuntime) {
    let mut hold = Hold::new(rt.alloc());
    take_slice(&rt, &mut hold, 5, b"census!", Took::New);
    take_new(&rt, &mut hold, &[Came(2, 1, b"any bytes")]);
    check_least(&rt, &hold, 5);
    assert!(rt; hold.is_whole(region_of(&rt, 5)));
    assert!(rt; !hold.is_whole(region_of(&rt, 2)));
    let names = hold.names().expect(&rt, "memory");
    assert_eq!(rt; names.len(), 5);
    assert_eq!(rt; names[0], (region_of(&rt, 2), 1));
    assert_eq!(rt; names[4], (region_of(&rt, 5), 3));
    take_slice(&rt, &mut hold, 2, b"", Took::New);
    check_least(&rt, &hold, 2);
    check_slice(&rt, &hold, 2, b"");
    check_slice(&rt, &hold, 5, b"census!");
    assert_eq!(rt; hold.len(), 8);
}

#[test]
fn a_copy_is_changed_alone(rt: HostRuntime) {
    let first = Came(1, 0, b"\x00\x00\x00\x01c");
    let second = Came(1, 2, b"\x00\x00\x00\x01\x00");
    let mut hold = Hold::new(rt.alloc());
    take_new(&rt, &mut hold, &[first, second]);
    let mut copy = copy_of(&rt, &hold);
    take_new(&rt, &mut copy, &[Came(1, 1, b"\x00\x00\x00\x01\x00")]);
    check_slice(&rt, &copy, 1, b"c");
    check_pieces(&rt, &hold, &[first, second], &[(1, 1), (1, 3)]);
    take_slice(&rt, &mut hold, 1, b"s", Took::New);
    check_slice(&rt, &copy, 1, b"c");
    check_slice(&rt, &hold, 1, b"s");
}

fn check_text(rt: &impl Abort, alloc: Global, fault: HoldFault, text: &str) {
    let got = format!(in alloc; "{fault}").expect(rt, "memory");
    assert_eq!(rt; got.as_str(), text);
}

#[test]
fn faults_have_their_texts(rt: HostRuntime) {
    let misfit = HoldFault::Piece(PieceFault::Length);
    check_text(
        &rt,
        rt.alloc(),
        misfit,
        "a piece does not fit the other two",
    );
    check_text(&rt, rt.alloc(), HoldFault::Memory, "out of memory");
}
