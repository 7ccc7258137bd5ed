//! The names of a piece that was sent, read without its bytes.

ghost use Rattle.std.specs.Prelude.{◌≡◌, IfOk, IfSome};
ghost use Rattle.cs_packet.specs.PacketField.{packet_of};
ghost use Rattle.cs_world.specs.Named.{IsNamed};

use cs_base::{COLOURS, Epoch, NodeId, RegionId};
use cs_fields::{PacketFault, take_id, take_later_epoch, take_region, take_u8, take_u8_in};

// The version of a packet, and the kind of a piece.
const VERSION: u8 = 1;

const PIECE: u8 = 2;

/// Who sends a piece, to whom, and which it is.
#[derive(Clone, Copy, Debug)]
pub struct PieceNames {
    pub from: NodeId,
    pub to: NodeId,
    pub epoch: Epoch,
    pub region: RegionId,
    pub colour: u8,
}

/// The names of a piece that the bytes spell. They stand in front of its own bytes, which aren't looked at.
pub fn piece_names(bytes: &[u8]) -> Option<PieceNames>
    ensures { IfSome result (λ names. IfOk (packet_of bytes.now) (IsNamed names)) }
{
    match read_names(bytes) {
        Ok(names) => names,
        Err(_) => None,
    }
}

// The names of a piece; None where the bytes begin as no piece does.
fn read_names(bytes: &[u8]) -> Result<Option<PieceNames>, PacketFault>
    ensures { IfOk result (λ found. IfSome found (λ names. IfOk (packet_of bytes.now) (IsNamed names))) }
{
    let (version, behind) = take_u8(bytes, 0)?;
    let (kind, behind) = take_u8(bytes, behind)?;
    if version != VERSION || kind != PIECE {
        return Ok(None);
    }
    let (from, behind) = take_id(bytes, behind)?;
    let (to, behind) = take_id(bytes, behind)?;
    let (epoch, behind) = take_later_epoch(bytes, behind)?;
    let (region, behind) = take_region(bytes, behind)?;
    let (colour, _) = take_u8_in(bytes, behind, 0, COLOURS as u8 - 1)?;
    Ok(Some(PieceNames {
        from,
        to,
        epoch,
        region,
        colour,
    }))
}
