ghost use Rattle.std.specs.Prelude.{◌≡◌};

use cs_base::{Epoch, RegionId};
use std::marker::Model;

/// A piece of a slice, with its name: the epoch and the region of the slice, and the colour of the piece.
#[derive(Drop)]
pub struct Named<'a> {
    epoch: Epoch,
    region: RegionId,
    colour: u8,
    bytes: &'a [u8],
}

impl<'a> Model for Named<'a> {
    ghost use Rattle.cs_packet.specs.NamedPiece.{NamedPiece};

    ghost Value = { NamedPiece };

    ghost view = { λ piece. record {
      epoch = piece.epoch;
      region = piece.region;
      colour = piece.colour;
      bytes = piece.bytes.now;
    } };
}

impl<'a> Named<'a> {
    pub fn new(epoch: Epoch, region: RegionId, colour: u8, bytes: &'a [u8]) -> Self
        ensures { result ≡ record { epoch = epoch; region = region; colour = colour; bytes = bytes.now } }
    {
        Named {
            epoch,
            region,
            colour,
            bytes,
        }
    }

    pub fn epoch(&self) -> Epoch
        ensures { result ≡ self.now.epoch }
    {
        self.epoch
    }

    pub fn region(&self) -> RegionId
        ensures { result ≡ self.now.region }
    {
        self.region
    }

    pub fn colour(&self) -> u8
        ensures { result ≡ self.now.colour }
    {
        self.colour
    }

    /// The length of the slice, in 4 bytes, and a block.
    pub fn bytes(&self) -> &[u8]
        ensures { result.now ≡ self.now.bytes }
    {
        self.bytes
    }
}
