//! The pieces of one region.

ghost use Rattle.std.specs.Prelude.{◌≡◌, ◌^◌, ◌<◌, None, Ok, length, is_some, IfOk, IfErr};
ghost use Rattle.std.specs.Prelude.{slice_index_or, [], ◌∷◌, ◌==◌, ◌≤◌};
ghost use Rattle.cs_base.specs.Ascending.{at_key};
ghost use Rattle.cs_base.specs.Limits.{colours};
ghost use Rattle.cs_hold.specs.Kept.{HasAll};
ghost use Rattle.cs_hold.specs.Pieces.{ArePieces, colour_of, four_of, gained};
ghost use Rattle.cs_hold.specs.Taking.{IsFaultOf, IsMisfit};

use crate::HoldFault;
use cs_base::{Copied, Keyed, Ordered, RegionId};
use cs_piece::{Piece, PieceFault, cut, join};
use std::alloc::{AllocError, Global};
use std::marker::Model;
use std::mem;
use std::rc::Rc;

/// A piece with its colour.
#[derive(Drop)]
pub(crate) struct Coloured {
    colour: u8,
    bytes: Rc<Piece>,
}

impl Model for Coloured {
    ghost use Rattle.std.specs.Prelude.{◌<◌, ℕ, List};
    ghost use Rattle.cs_base.specs.Limits.{colours};

    ghost Value = { ℕ × List ℕ };

    ghost view = { λ piece. (piece.colour, piece.bytes.value) };

    ghost invariant = { λ piece. piece.colour < colours };
}

impl Keyed for Coloured {
    ghost use Rattle.std.specs.Prelude.{◌<◌};
    ghost use Rattle.cs_base.specs.Limits.{colours};
    ghost use Rattle.cs_hold.specs.Pieces.{colour_of};

    ghost key_of = { colour_of };

    ghost IsAllowed = { λ piece. colour_of piece < colours };

    fn key(&self) -> u32 {
        u32::from(self.colour)
    }
}

impl Copied for Coloured {
    fn copied(&self) -> Result<Self, AllocError> {
        Ok(Coloured {
            colour: self.colour,
            bytes: self.bytes.clone()?,
        })
    }
}

/// The pieces of a region: one, two, or all four of some bytes.
#[derive(Drop)]
pub(crate) struct Shelf {
    region: RegionId,
    pieces: Ordered<Coloured>,
}

impl Model for Shelf {
    ghost use Rattle.std.specs.Prelude.{ℕ, List};
    ghost use Rattle.cs_hold.specs.Pieces.{ArePieces};

    ghost Value = { ℕ × List (ℕ × List ℕ) };

    ghost view = { λ shelf. (shelf.region, shelf.pieces) };

    ghost invariant = { λ shelf. ArePieces shelf.pieces };
}

impl Keyed for Shelf {
    ghost use Rattle.std.specs.Prelude.{◌<◌, ◌^◌};
    ghost use Rattle.cs_hold.specs.Held.{region_of};
    ghost use Rattle.cs_hold.specs.Pieces.{ArePieces};

    ghost key_of = { region_of };

    ghost IsAllowed = { λ shelf. (region_of shelf < 2 ^ 32) × ArePieces shelf.1 };

    fn key(&self) -> u32 {
        self.region.get()
    }
}

impl Copied for Shelf {
    fn copied(&self) -> Result<Self, AllocError> {
        Ok(Shelf {
            region: self.region,
            pieces: self.pieces.copy()?,
        })
    }
}

impl Coloured {
    fn new(alloc: Global, colour: u8, bytes: Piece) -> Result<Self, AllocError>
        requires { colour < colours }
        ensures { IfOk result (λ piece. piece ≡ (colour, bytes)) }
    {
        Ok(Coloured {
            colour,
            bytes: Rc::new(alloc, bytes)?,
        })
    }

    pub(crate) fn colour(&self) -> u8
        ensures value { result ≡ self.now.0 }
        ensures allowed { result < colours }
    {
        self.colour
    }

    pub(crate) fn bytes(&self) -> &[u8]
        ensures { result.now ≡ self.now.1 }
    {
        self.bytes.as_slice()
    }
}

impl Shelf {
    pub(crate) fn region(&self) -> RegionId
        ensures { result ≡ self.now.0 }
    {
        self.region
    }

    pub(crate) fn pieces(&self) -> &Ordered<Coloured>
        ensures value { result.now ≡ self.now.1 }
        ensures keeps { ArePieces self.now.1 }
        ensures few { length self.now.1 ≤ 4 }
    {
        &self.pieces
    }

    pub(crate) fn is_whole(&self) -> bool
        ensures { result ≡ (length self.now.1 == 4) }
    {
        self.pieces.len() == 4
    }

    /// The first piece of a region.
    pub(crate) fn first(
        alloc: Global,
        region: RegionId,
        colour: u8,
        bytes: &[u8],
    ) -> Result<Self, AllocError>
        requires { colour < colours }
        ensures ok { IfOk result (λ shelf. (shelf.0 ≡ region) × (gained colour bytes.now [] ≡ Ok shelf.1)) }
        ensures kept { IfOk result (λ shelf. HasAll colour bytes.now [] shelf.1) }
    {
        let mut pieces = Ordered::new(alloc);
        let piece = Coloured::new(alloc, colour, Piece::from_slice(alloc, bytes)?)?;
        pieces.put(piece)?;
        Ok(Shelf { region, pieces })
    }

    /// All four pieces of some bytes.
    pub(crate) fn whole(alloc: Global, region: RegionId, bytes: &[u8]) -> Result<Self, AllocError>
        requires { length bytes.now < 2 ^ 32 }
        ensures { IfOk result (λ shelf. (shelf.0 ≡ region) × (shelf.1 ≡ four_of bytes.now)) }
    {
        let pieces = four_coloured(alloc, cut(alloc, bytes)?)?;
        Ok(Shelf { region, pieces })
    }

    /// The pieces with one more, of a colour that isn't there.
    pub(crate) fn gained(&self, alloc: Global, colour: u8, bytes: &[u8]) -> Result<Self, HoldFault>
        requires allowed { colour < colours }
        requires absent { at_key colour_of colour self.now.1 ≡ None }
        ensures ok { IfOk result (λ shelf. (shelf.0 ≡ self.now.0)
            × (gained colour bytes.now self.now.1 ≡ Ok shelf.1)) }
        ensures kept { IfOk result (λ shelf. HasAll colour bytes.now self.now.1 shelf.1) }
        ensures fault { IfErr result (IsFaultOf (gained colour bytes.now self.now.1)) }
        ensures misfit { IfErr result IsMisfit }
    {
        if self.pieces.len() < 2 {
            let mut pieces = self.pieces.copy()?;
            let piece = Coloured::new(alloc, colour, Piece::from_slice(alloc, bytes)?)?;
            pieces.put(piece)?;
            return Ok(Shelf {
                region: self.region,
                pieces,
            });
        }
        let pieces = self.pieces.as_slice();
        let (x, y) = (&pieces[0], &pieces[1]);
        match join(
            alloc,
            colour,
            bytes,
            x.colour(),
            x.bytes(),
            y.colour(),
            y.bytes(),
        ) {
            Ok(bytes) => Ok(Shelf::whole(alloc, self.region, bytes.as_slice())?),
            Err(PieceFault::Memory) => Err(HoldFault::Memory),
            Err(fault) => Err(HoldFault::Piece(fault)),
        }
    }
}

// Four pieces with their colours.
fn four_coloured(alloc: Global, mut four: [Piece; 4]) -> Result<Ordered<Coloured>, AllocError>
    ensures { IfOk result (λ pieces. pieces ≡ (0, slice_index_or four 0 []) ∷ (1, slice_index_or four 1 [])
        ∷ (2, slice_index_or four 2 []) ∷ (3, slice_index_or four 3 []) ∷ []) }
{
    let pieces = [
        Coloured::new(alloc, 0, mem::replace(&mut four[0], Piece::new(alloc)))?,
        Coloured::new(alloc, 1, mem::replace(&mut four[1], Piece::new(alloc)))?,
        Coloured::new(alloc, 2, mem::replace(&mut four[2], Piece::new(alloc)))?,
        Coloured::new(alloc, 3, mem::replace(&mut four[3], Piece::new(alloc)))?,
    ];
    Ok(Ordered::from_vec(Vec::from_array(alloc, pieces)?))
}
