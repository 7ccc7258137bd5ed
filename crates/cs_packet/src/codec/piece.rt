ghost use Rattle.cs_fields.specs.Reading.{Gives, HasRoom, IsTaken};
ghost use Rattle.cs_packet.specs.PieceField.{IsPieceText, piece_text_at, piece_text_len};

use cs_base::MOST_PIECE_TOTAL;
use cs_fields::{PacketFault, take_u32_in};
use cs_piece::{Piece, block_len};
use std::alloc::Global;

/// The length of a slice, and a block of a third of so many bytes.
pub fn take_piece_text(alloc: Global, bytes: &[u8], at: u32) -> Result<(Piece, u32), PacketFault>
    requires { HasRoom bytes.now at piece_text_len }
    ensures exact { Gives result (piece_text_at bytes.now at) }
    ensures spelt { IsTaken (λ text. text) IsPieceText piece_text_len bytes.now at result }
{
    read_piece_text(alloc, bytes, at)
}

#[tactic(auto, unfolding(crate::specs::PieceField::piece_text_at))]
fn read_piece_text(alloc: Global, bytes: &[u8], at: u32) -> Result<(Piece, u32), PacketFault>
    requires { HasRoom bytes.now at piece_text_len }
    ensures { Gives result (piece_text_at bytes.now at) }
{
    let (total, block_at) = take_u32_in(bytes, at, 1, MOST_PIECE_TOTAL as u32)?;
    let behind = block_at + block_len(total);
    if bytes.len() < behind as usize {
        return Err(PacketFault::Short(block_at));
    }
    Ok((
        Piece::from_slice(alloc, &bytes[at as usize..behind as usize])?,
        behind,
    ))
}
