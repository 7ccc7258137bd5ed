ghost use Rattle.std.specs.Prelude.{◌≡◌, ◌+◌, ◌*◌, ◌^◌, ◌<◌, ◌≤◌, ◌==◌, List, ℕ, Ok, length, ◌++◌, IfOk, OnOk};
ghost use Rattle.std.specs.Bool.{OnTrue};
ghost use Rattle.std.specs.List.{list_all};
ghost use Rattle.cs_piece.specs.Blocks.{block_len, parity, piece_of};
ghost use Rattle.cs_piece.specs.Joining.{are_alike, are_three, AreThree, block_from, blocks_from, Gives, is_piece_of};
ghost use Rattle.cs_piece.specs.Joining.{joined, total_of, unfilled};

use crate::cutting::{block_len, xor_into};
use crate::{Piece, PieceFault};
use std::alloc::{AllocError, Global};

/// The bytes of which three pieces are those with the indexes `a`, `b` and `c`.
pub fn join(
    alloc: Global,
    a: u8,
    piece_a: &[u8],
    b: u8,
    piece_b: &[u8],
    c: u8,
    piece_c: &[u8],
) -> Result<Piece, PieceFault>
    ensures exact { Gives result (joined a piece_a.now b piece_b.now c piece_c.now) }
    ensures few { IfOk result (λ bytes. length bytes < 2 ^ 32) }

    // Any three of the four pieces of some bytes give the bytes.
    ensures whole { (bytes : List ℕ) → length bytes < 2 ^ 32 → AreThree a b c → piece_a.now ≡ piece_of bytes a
        → piece_b.now ≡ piece_of bytes b → piece_c.now ≡ piece_of bytes c → Gives result (Ok bytes) }

    // And the bytes that pieces give have these pieces.
    ensures of_a { IfOk result (λ bytes. piece_a.now ≡ piece_of bytes a) }
    ensures of_b { IfOk result (λ bytes. piece_b.now ≡ piece_of bytes b) }
    ensures of_c { IfOk result (λ bytes. piece_c.now ≡ piece_of bytes c) }
{
    joined(alloc, a, piece_a, b, piece_b, c, piece_c)
}

#[tactic(auto, unfolding(crate::specs::Joining::joined))]
fn joined(
    alloc: Global,
    a: u8,
    piece_a: &[u8],
    b: u8,
    piece_b: &[u8],
    c: u8,
    piece_c: &[u8],
) -> Result<Piece, PieceFault>
    ensures value { Gives result (joined a piece_a.now b piece_b.now c piece_c.now) }
    ensures few { IfOk result (λ bytes. length bytes < 2 ^ 32) }
{
    if !are_three(a, b, c) {
        return Err(PieceFault::Index);
    }
    if !are_alike(piece_a, piece_b, piece_c) {
        return Err(PieceFault::Length);
    }
    let three = Three {
        a,
        block_a: &piece_a[4..],
        b,
        block_b: &piece_b[4..],
        c,
        block_c: &piece_c[4..],
    };
    unfilled(blocks_in_a_row(alloc, &three)?, total_of(piece_a) as usize)
}

#[tactic(auto, unfolding(crate::specs::Joining::are_three))]
fn are_three(a: u8, b: u8, c: u8) -> bool
    ensures { result ≡ are_three a b c }
{
    a <= 3 && b <= 3 && c <= 3 && a != b && a != c && b != c
}

#[tactic(auto, unfolding(crate::specs::Joining::are_alike, crate::specs::Joining::is_piece_of))]
fn are_alike(piece_a: &[u8], piece_b: &[u8], piece_c: &[u8]) -> bool
    ensures value { result ≡ are_alike piece_a.now piece_b.now piece_c.now }
    ensures len { OnTrue result (length piece_a.now ≡ 4 + block_len (total_of piece_a.now)) }
    ensures few { OnTrue result (length piece_a.now < 2 ^ 32) }
    ensures as_b { OnTrue result (length piece_b.now ≡ length piece_a.now) }
    ensures as_c { OnTrue result (length piece_c.now ≡ length piece_a.now) }
{
    if piece_a.len() < 4 {
        return false;
    }
    let total = total_of(piece_a);
    is_piece_of(total, piece_a) && is_piece_of(total, piece_b) && is_piece_of(total, piece_c)
}

#[tactic(auto, unfolding(crate::specs::Joining::is_piece_of))]
fn is_piece_of(total: u32, piece: &[u8]) -> bool
    ensures { result ≡ is_piece_of total piece.now }
{
    piece.len() == 4 + block_len(total) as usize && total_of(piece) == total
}

fn total_of(piece: &[u8]) -> u32
    requires { 4 ≤ length piece.now }
    ensures { result ≡ total_of piece.now }
{
    u32::from_be_bytes([piece[0], piece[1], piece[2], piece[3]])
}

// Three of the four blocks, with their indexes.
#[derive(Drop)]
struct Three<'a> {
    a: u8,
    block_a: &'a [u8],
    b: u8,
    block_b: &'a [u8],
    c: u8,
    block_c: &'a [u8],
}

// Blocks 0, 1 and 2, one behind the other.
fn blocks_in_a_row(alloc: Global, three: &Three) -> Result<Vec<u8>, AllocError>
    requires as_b { length three.now.block_b.now ≡ length three.now.block_a.now }
    requires as_c { length three.now.block_c.now ≡ length three.now.block_a.now }
    requires few { length three.now.block_a.now < 2 ^ 32 }
    ensures len { IfOk result (λ row. length row.items ≡ 3 * length three.now.block_a.now) }
    ensures row { IfOk result (λ row. row.items
        ≡ blocks_from three.now.a three.now.block_a.now three.now.b three.now.block_b.now
        three.now.c three.now.block_c.now) }
{
    let mut row = Vec::with_capacity(alloc, 3 * three.block_a.len())?;
    append_block(&mut row, three, 0)?;
    append_block(&mut row, three, 1)?;
    append_block(&mut row, three, 2)?;
    Ok(row)
}

// Appends the block of this index: one of the three, or the XOR of them.
#[tactic(auto, unfolding(crate::specs::Joining::block_from))]
fn append_block(row: &mut Vec<u8>, three: &Three, index: u8) -> Result<(), AllocError>
    requires as_b { length three.now.block_b.now ≡ length three.now.block_a.now }
    requires as_c { length three.now.block_c.now ≡ length three.now.block_a.now }
    ensures len { OnOk result (length row.new.items ≡ length row.old.items + length three.now.block_a.now) }
    ensures row { OnOk result (row.new.items ≡ row.old.items
        ++ block_from three.now.a three.now.block_a.now three.now.b three.now.block_b.now
        three.now.c three.now.block_c.now index) }
{
    if index == three.a {
        row.extend_from_slice(three.block_a)
    } else if index == three.b {
        row.extend_from_slice(three.block_b)
    } else if index == three.c {
        row.extend_from_slice(three.block_c)
    } else {
        append_parity(row, three.block_a, three.block_b, three.block_c)
    }
}

// Appends the XOR of three blocks.
fn append_parity(row: &mut Vec<u8>, x: &[u8], y: &[u8], z: &[u8]) -> Result<(), AllocError>
    requires as_y { length y.now ≡ length x.now }
    requires as_z { length z.now ≡ length x.now }
    ensures len { OnOk result (length row.new.items ≡ length row.old.items + length x.now) }
    ensures row { OnOk result (row.new.items ≡ row.old.items ++ parity x.now y.now z.now) }
{
    let start = row.len();
    row.extend_from_slice(x)?;
    xor_into(&mut row[start..], y);
    xor_into(&mut row[start..], z);
    Ok(())
}

// The first bytes, so many, if all others are 0.
#[tactic(auto, unfolding(crate::specs::Joining::unfilled))]
fn unfilled(mut bytes: Vec<u8>, total: usize) -> Result<Piece, PieceFault>
    requires { total ≤ length bytes.items }
    ensures value { Gives result (unfilled total bytes.items) }
    ensures len { IfOk result (λ front. length front ≡ total) }
{
    if !are_zero(&bytes[total..]) {
        return Err(PieceFault::Padding);
    }
    bytes.truncate(total);
    Ok(Piece::from_vec(bytes))
}

fn are_zero(bytes: &[u8]) -> bool
    ensures { result ≡ list_all (λ byte. byte == 0) bytes.now }
{
    bytes.iter().all(|&byte| byte == 0)
}
