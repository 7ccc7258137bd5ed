use crate::{Piece, PieceFault, cut, join};
use std::alloc::Global;
use std::process::Abort;
use std::test::Fail;

#[test]
fn bytes_are_kept(rt: HostRuntime) -> Result<(), Fail> {
    assert!(rt; Piece::new(rt.alloc()).is_empty());
    let mut piece = Piece::from_slice(rt.alloc(), b"cens")?;
    piece.push(b'u')?;
    piece.push(b's')?;
    assert_eq!(rt; piece.len(), 6);
    let copy = piece.copy()?;
    assert_eq!(rt; copy.as_slice(), b"census".as_slice());
    assert_eq!(rt;
        Piece::from_vec(copy.into_vec()).as_slice(),
        b"census".as_slice()
    );
    Ok(())
}

#[test]
fn census_is_cut(rt: HostRuntime) -> Result<(), Fail> {
    let pieces = cut(rt.alloc(), b"census!")?;
    assert_eq!(rt; pieces[0].as_slice(), b"\x00\x00\x00\x07cen".as_slice());
    assert_eq!(rt; pieces[1].as_slice(), b"\x00\x00\x00\x07sus".as_slice());
    assert_eq!(rt;
        pieces[2].as_slice(),
        b"\x00\x00\x00\x07!\x00\x00".as_slice()
    );
    assert_eq!(rt;
        pieces[3].as_slice(),
        b"\x00\x00\x00\x07\x31\x10\x1d".as_slice()
    );
    Ok(())
}

// The pieces of the text have this length, and any three of them give it.
fn comes_back(rt: &impl Abort, alloc: Global, text: &[u8], len: usize) -> Result<(), Fail> {
    let pieces = cut(alloc, &text[..text.len().min(100)])?;
    let (p0, p1, p2, p3) = (
        pieces[0].as_slice(),
        pieces[1].as_slice(),
        pieces[2].as_slice(),
        pieces[3].as_slice(),
    );
    assert_eq!(rt; p0.len(), len);
    assert_eq!(rt; p3.len(), len);
    assert_eq!(rt; join(alloc, 0, p0, 1, p1, 2, p2)?.as_slice(), text);
    assert_eq!(rt; join(alloc, 3, p3, 0, p0, 1, p1)?.as_slice(), text);
    assert_eq!(rt; join(alloc, 2, p2, 3, p3, 0, p0)?.as_slice(), text);
    assert_eq!(rt; join(alloc, 2, p2, 1, p1, 3, p3)?.as_slice(), text);
    Ok(())
}

#[test]
fn short_texts_come_back(rt: HostRuntime) -> Result<(), Fail> {
    comes_back(&rt, rt.alloc(), b"", 4)?;
    comes_back(&rt, rt.alloc(), b"c", 5)?;
    comes_back(&rt, rt.alloc(), b"ce", 5)?;
    comes_back(&rt, rt.alloc(), b"cen", 5)?;
    comes_back(&rt, rt.alloc(), b"cens", 6)?;
    comes_back(&rt, rt.alloc(), b"censu", 6)?;
    comes_back(&rt, rt.alloc(), b"census", 6)?;
    comes_back(&rt, rt.alloc(), b"census!", 7)
}

#[test]
fn faults_are_told(rt: HostRuntime) -> Result<(), Fail> {
    let pieces = cut(rt.alloc(), b"census!")?;
    let (p0, p1, p2) = (
        pieces[0].as_slice(),
        pieces[1].as_slice(),
        pieces[2].as_slice(),
    );
    assert_eq!(rt;
        fault(rt.alloc(), 0, p0, 0, p0, 1, p1),
        Some(PieceFault::Index)
    );
    assert_eq!(rt;
        fault(rt.alloc(), 0, p0, 4, b"", 1, p1),
        Some(PieceFault::Index)
    );
    let short = &p2[..p2.len().saturating_sub(1)];
    assert_eq!(rt;
        fault(rt.alloc(), 0, p0, 1, p1, 2, short),
        Some(PieceFault::Length)
    );
    assert_eq!(rt;
        fault(rt.alloc(), 0, b"\x00\x00\x00", 1, p1, 2, p2),
        Some(PieceFault::Length)
    );
    assert_eq!(rt;
        fault(rt.alloc(), 0, b"\x00\x00\x00\x08cen", 1, p1, 2, p2),
        Some(PieceFault::Length)
    );
    let filled = b"\x00\x00\x00\x07!\x00\x01";
    assert_eq!(rt;
        fault(rt.alloc(), 0, p0, 1, p1, 2, filled),
        Some(PieceFault::Padding)
    );
    assert_eq!(rt; fault(rt.alloc(), 0, p0, 1, p1, 2, p2), None);
    Ok(())
}

// What three pieces of the text "census.org" give, where byte `at` of piece `i` has one bit flipped. Of each
// piece the first four bytes are the length, and then come four bytes of the text, or its last two and two zeros.
fn flipped(
    rt: &impl Abort,
    alloc: Global,
    pieces: &[Piece; 4],
    i: usize,
    at: usize,
) -> Result<(), Fail> {
    let mut bytes = pieces[i.min(3)].copy()?.into_vec();
    let mut text = Vec::from_slice(alloc, b"census.org")?;
    assert!(rt; at < bytes.len());
    bytes[at] ^= 1;
    let (p0, p1) = (pieces[0].as_slice(), pieces[1].as_slice());
    let result = match i {
        0 => join(alloc, 0, &bytes, 1, p1, 2, pieces[2].as_slice()),
        1 => join(alloc, 2, pieces[2].as_slice(), 0, p0, 1, &bytes),
        2 => join(alloc, 0, p0, 1, p1, 2, &bytes),
        _ => join(alloc, 3, &bytes, 0, p0, 1, p1),
    };
    let place = 4 * i.min(2) + at.saturating_sub(4);
    if at < 4 {
        assert_eq!(rt; result.err(), Some(PieceFault::Length));
    } else if place >= text.len() {
        assert_eq!(rt; result.err(), Some(PieceFault::Padding));
    } else {
        text[place] ^= 1;
        assert_eq!(rt; result?.as_slice(), text.as_slice());
    }
    Ok(())
}

#[test]
fn a_flipped_byte_is_told_or_comes_back(rt: HostRuntime) -> Result<(), Fail> {
    let pieces = cut(rt.alloc(), b"census.org")?;
    for i in 0..4 {
        for at in 0..8 {
            flipped(&rt, rt.alloc(), &pieces, i, at)?;
        }
    }
    Ok(())
}

fn fault(alloc: Global, a: u8, x: &[u8], b: u8, y: &[u8], c: u8, z: &[u8]) -> Option<PieceFault> {
    join(alloc, a, x, b, y, c, z).err()
}

#[test]
fn faults_have_their_texts(rt: HostRuntime) -> Result<(), Fail> {
    for (fault, text) in [
        (
            PieceFault::Index,
            "these are not three of the pieces 0 to 3",
        ),
        (PieceFault::Length, "the pieces do not have one length"),
        (PieceFault::Padding, "a filling byte is not 0"),
        (PieceFault::Memory, "out of memory"),
    ] {
        assert_eq!(rt; format!(in rt.alloc(); "{fault}")?.as_str(), text);
    }
    Ok(())
}
