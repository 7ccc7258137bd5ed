//! What a piece is named, and what isn't.

use crate::lines::put_named;
use crate::piece_names::piece_names;
use std::process::Abort;
use std::test::Fail;

#[test]
fn a_piece_has_the_line_of_its_names(rt: HostRuntime) -> Result<(), Fail> {
    let piece = b"\x01\x02\0\0\0\x02\0\0\0\x01\0\0\0\x06\0\0\0\x07\x03\0\0\0\x01\0";
    let names = piece_names(piece).ok_or("names")?;
    let mut line = String::new(rt.alloc());
    put_named(&mut line, 5, &names)?;
    assert_eq!(rt; line.as_str(), "#5 2>1 piece 6 7 3\n");
    Ok(())
}

#[test]
fn only_a_piece_is_named(rt: HostRuntime) {
    // A bye; a piece of another version, and one with a fifth colour; and the front of a piece.
    let others: [&[u8]; 4] = [
        b"\x01\x07\0\0\0\x01\0\0\0\x02\0\0\0\x06",
        b"\x02\x02\0\0\0\x02\0\0\0\x01\0\0\0\x06\0\0\0\x07\x03\0\0\0\x01\0",
        b"\x01\x02\0\0\0\x02\0\0\0\x01\0\0\0\x06\0\0\0\x07\x04\0\0\0\x01\0",
        b"\x01\x02\0\0\0\x02\0\0\0\x01\0\0\0\x06\0\0\0\x07",
    ];
    for bytes in others {
        assert!(rt; piece_names(bytes).is_none());
    }
}
