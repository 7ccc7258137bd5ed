ghost use Rattle.std.specs.Prelude.{◌≡◌, IfOk};

use cs_base::{Addr, Changes, Copied, Epoch, Mode, NodeId, RegionId};
use cs_item::{Picture, Slice};
use cs_piece::Piece;
use std::alloc::AllocError;

/// A packet from one node to another.
#[derive(Debug, Drop)]
pub struct Packet {
    pub from: NodeId,
    pub to: NodeId,
    pub body: Body,
}

/// What a packet says.
#[derive(Debug, Drop)]
pub enum Body {
    /// Changes that its sender asks for.
    Report(Changes),
    /// One of the four pieces of a slice. Its bytes are the length of the slice, in 4 bytes, and a block.
    Piece {
        epoch: Epoch,
        region: RegionId,
        colour: u8,
        bytes: Piece,
    },
    /// Its sender lacks the slice of this region.
    Need {
        addr: Addr,
        mode: Mode,
        epoch: Epoch,
        region: RegionId,
    },
    /// A whole slice.
    Slice(Slice),
    /// Its sender asks for a snapshot of an epoch that is at least so late.
    Ask {
        addr: Addr,
        mode: Mode,
        least: u32,
    },
    /// A snapshot of an epoch.
    Snap(Picture),
    /// The node that it goes to is no member at this epoch.
    Bye {
        epoch: Epoch,
    },
}

impl Packet {
    pub fn copy(&self) -> Result<Self, AllocError>
        ensures { IfOk result (λ copy. copy ≡ self.now) }
    {
        Ok(Packet {
            from: self.from,
            to: self.to,
            body: self.body.copy()?,
        })
    }
}

impl Copied for Packet {
    fn copied(&self) -> Result<Self, AllocError> {
        self.copy()
    }
}

impl Body {
    pub fn copy(&self) -> Result<Self, AllocError>
        ensures { IfOk result (λ copy. copy ≡ self.now) }
    {
        Ok(match self {
            Body::Report(changes) => Body::Report(changes.copy()?),
            Body::Piece {
                epoch,
                region,
                colour,
                bytes,
            } => Body::Piece {
                epoch: *epoch,
                region: *region,
                colour: *colour,
                bytes: bytes.copy()?,
            },
            Body::Need {
                addr,
                mode,
                epoch,
                region,
            } => Body::Need {
                addr: *addr,
                mode: *mode,
                epoch: *epoch,
                region: *region,
            },
            Body::Slice(slice) => Body::Slice(slice.copy()?),
            Body::Ask { addr, mode, least } => Body::Ask {
                addr: *addr,
                mode: *mode,
                least: *least,
            },
            Body::Snap(picture) => Body::Snap(picture.copy()?),
            Body::Bye { epoch } => Body::Bye { epoch: *epoch },
        })
    }
}
