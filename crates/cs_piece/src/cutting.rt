ghost use Rattle.std.specs.Prelude.{◌≡◌, ◌+◌, ◌^◌, ◌<◌, ◌≤◌, length, drop, take, ◌++◌, IfOk, OnOk};
ghost use Rattle.std.specs.Int.{w32, to_be_bytes};
ghost use Rattle.cs_piece.specs.Blocks.{block_len, data_block, parity, pieces_of, xor};

use crate::Piece;
use std::alloc::{AllocError, Global};

/// The length of each of the three blocks that so many bytes are parted into.
pub fn block_len(total: u32) -> u32
    ensures { result ≡ block_len total }
{
    total.div_ceil(3)
}

/// The four pieces of the bytes. Any three of them suffice for `join`.
#[tactic(auto, unfolding(crate::specs::Blocks::piece_of, crate::specs::Blocks::block))]
pub fn cut(alloc: Global, bytes: &[u8]) -> Result<[Piece; 4], AllocError>
    requires { length bytes.now < 2 ^ 32 }
    ensures { IfOk result (λ pieces. pieces ≡ pieces_of bytes.now) }
{
    let first = data_piece(alloc, bytes, 0)?;
    let second = data_piece(alloc, bytes, 1)?;
    let third = data_piece(alloc, bytes, 2)?;
    let fourth = parity_piece(&first, &second, &third)?;
    Ok([first, second, third, fourth])
}

// The length of the bytes, and a third of them.
fn data_piece(alloc: Global, bytes: &[u8], index: usize) -> Result<Piece, AllocError>
    requires few { length bytes.now < 2 ^ 32 }
    requires data { index < 3 }
    ensures { IfOk result (λ piece. piece ≡ to_be_bytes w32 (length bytes.now) ++ data_block bytes.now index) }
{
    let total = bytes.len() as u32;
    let size = block_len(total) as usize;
    let start = bytes.len().min(index * size);
    let end = bytes.len().min(start + size);
    let mut piece = Vec::with_capacity(alloc, 4 + size)?;
    piece.extend_from_slice(&total.to_be_bytes())?;
    piece.extend_from_slice(&bytes[start..end])?;
    piece.resize(4 + size, 0)?;
    Ok(Piece::from_vec(piece))
}

// The first four bytes of three pieces, which are those of each, and the XOR of what is behind them.
fn parity_piece(first: &Piece, second: &Piece, third: &Piece) -> Result<Piece, AllocError>
    requires four { 4 ≤ length first.now }
    requires as_second { length second.now ≡ length first.now }
    requires as_third { length third.now ≡ length first.now }
    ensures { IfOk result (λ piece. piece ≡ take 4 first.now
        ++ parity (drop 4 first.now) (drop 4 second.now) (drop 4 third.now)) }
{
    let mut piece = first.copy()?.into_vec();
    xor_into(&mut piece[4..], &second.as_slice()[4..]);
    xor_into(&mut piece[4..], &third.as_slice()[4..]);
    Ok(Piece::from_vec(piece))
}

// Puts the XOR of two blocks in the place of the one.
pub(crate) fn xor_into(block: &mut [u8], other: &[u8])
    requires { length other.now ≡ length block.old }
    ensures { block.new ≡ xor block.old other.now }
{
    for (i, byte) in block.iter_mut().enumerate() {
        *byte ^= other[i];
    }
}
