//! The pieces that a member holds of the next epoch, with the slices of the regions that are whole. A slice is read
//! once, when the third piece of its region comes, and is shared from then on.

ghost use Rattle.std.specs.Prelude.{◌≡◌, ◌≢◌, ◌==◌, ◌<◌, [], None, Ok, is_some, length};
ghost use Rattle.std.specs.Prelude.{IfOk, IfErr, IfSome, IfNone, OnOk};
ghost use Rattle.std.specs.Option.{option_copied, option_map_or};
ghost use Rattle.cs_base.specs.Ascending.{placed_by};
ghost use Rattle.cs_base.specs.Limits.{colours};
ghost use Rattle.cs_hold.specs.Held.{of_region, piece_in};
ghost use Rattle.cs_hold.specs.Taking.{sliced, taken};
ghost use Rattle.cs_hold.specs.Whole.{whole_in};
ghost use Rattle.cs_item.specs.SliceField.{IsSlice, slice_bytes};
ghost use Rattle.cs_core.specs.Holding.{held_with_piece, least_slice, region_fault, slice_in, slice_of, slice_region};
ghost use Rattle.cs_core.specs.Plans.{unfit_by, unless_unfit};
ghost use Rattle.cs_core.specs.Refused.{IsRefusalOf};
ghost use Rattle.cs_core.specs.declared.plan.Unfit.TheVariants as unfit;

use crate::Unfit;
use crate::refusal::Refusal;
use cs_base::{Copied, Epoch, Keyed, Ordered, RegionId};
use cs_fields::PacketFault;
use cs_hold::{Hold, HoldFault};
use cs_item::{Slice, decode_slice, encode_slice};
use cs_piece::Piece;
use std::alloc::{AllocError, Global};
use std::marker::Model;
use std::rc::Rc;

/// The slice of a whole region.
#[derive(Drop)]
struct WholeSlice {
    slice: Rc<Slice>,
}

impl Model for WholeSlice {
    ghost use Rattle.cs_item.specs.SliceField.{IsSlice};
    ghost use Rattle.cs_item.specs.declared.slice.Slice.{Slice};

    ghost Value = { Slice };

    ghost view = { λ whole. whole.slice.value };

    ghost invariant = { λ whole. IsSlice whole.slice.value };
}

/// A list of them ascends by region.
impl Keyed for WholeSlice {
    ghost use Rattle.cs_item.specs.SliceField.{IsSlice};
    ghost use Rattle.cs_core.specs.Holding.{slice_region};

    ghost key_of = { slice_region };

    ghost IsAllowed = { IsSlice };

    fn key(&self) -> u32 {
        self.slice.key()
    }
}

impl Copied for WholeSlice {
    fn copied(&self) -> Result<Self, AllocError> {
        Ok(WholeSlice {
            slice: self.slice.clone()?,
        })
    }
}

#[derive(Drop)]
pub(crate) struct Holding {
    alloc: Global,
    pieces: Hold,
    slices: Ordered<WholeSlice>,
}

impl Model for Holding {
    ghost use Rattle.std.specs.Prelude.{List, ◌≡◌, ℕ};
    ghost use Rattle.cs_base.specs.Ascending.{at_key};
    ghost use Rattle.cs_hold.specs.Held.{Held};
    ghost use Rattle.cs_core.specs.Holding.{slice_in, slice_region};

    ghost Value = { List Held };

    ghost view = { λ held. held.pieces };

    ghost invariant = { λ held. (region : ℕ) → at_key slice_region region held.slices ≡ slice_in region held.pieces };
}

impl Holding {
    pub fn new(alloc: Global) -> Self
        ensures { result ≡ [] }
    {
        Holding {
            alloc,
            pieces: Hold::new(alloc),
            slices: Ordered::new(alloc),
        }
    }

    pub fn pieces(&self) -> &Hold
        ensures { result.now ≡ self.now }
    {
        &self.pieces
    }

    /// Costs in proportion to how many pieces are held, and not to their bytes.
    pub fn copy(&self) -> Result<Self, AllocError>
        ensures { IfOk result (λ copy. copy ≡ self.now) }
    {
        Ok(Holding {
            alloc: self.alloc,
            pieces: self.pieces.copy()?,
            slices: self.slices.copy()?,
        })
    }

    /// Whether the piece is held.
    pub fn has(&self, region: RegionId, colour: u8) -> bool
        ensures { result ≡ is_some (piece_in region colour self.now) }
    {
        self.pieces.piece(region, colour).is_some()
    }

    /// Whether all four pieces of a region are held.
    pub fn is_whole(&self, region: RegionId) -> bool
        ensures { result ≡ (length (of_region region self.now) == 4) }
    {
        self.pieces.is_whole(region)
    }

    /// The slice of a whole region.
    pub fn slice(&self, region: u32) -> Option<&Slice>
        ensures value { option_copied result ≡ slice_in region self.now }
        ensures allowed { IfSome result (λ slice. IsSlice slice.now) }
    {
        match self.slices.get(region) {
            Some(whole) => Some(&whole.slice),
            None => None,
        }
    }

    /// The slice of the least whole region.
    pub fn least(&self) -> Option<&Slice>
        ensures value { option_copied result ≡ least_slice self.now }
        ensures allowed { IfSome result (λ slice. IsSlice slice.now) }
    {
        match self.pieces.least_whole() {
            Some(region) => self.slice(region.get()),
            None => None,
        }
    }

    /// What is held with one more piece of an epoch and a region. Where it is the third of its region, the three have
    /// to give the slice of that epoch and region.
    pub fn with_piece(
        &self,
        epoch: Epoch,
        region: RegionId,
        colour: u8,
        bytes: &[u8],
    ) -> Result<Holding, Refusal>
        requires colour { colour < colours }
        requires absent { piece_in region colour self.now ≡ None }
        ensures ok { IfOk result (λ held. held_with_piece epoch region colour bytes.now self.now ≡ Ok held) }
        ensures fault { IfErr result (IsRefusalOf (held_with_piece epoch region colour bytes.now self.now)) }
    {
        let pieces = taken(&self.pieces, region, colour, bytes)?;
        let slice = read_whole(self.alloc, &pieces, epoch, region)?;
        let slices = with_whole(self.alloc, &self.slices, slice)?;
        Ok(Holding {
            alloc: self.alloc,
            pieces,
            slices,
        })
    }

    /// What is held with all pieces of a slice whose region isn't whole.
    pub fn with_slice(&self, slice: &Slice) -> Result<Holding, AllocError>
        requires slice { IsSlice slice.now }
        requires absent { length (of_region slice.now.part.region self.now) ≢ 4 }
        ensures { IfOk result (λ held. held ≡ sliced slice.now.part.region (slice_bytes slice.now) self.now) }
    {
        let pieces = with_pieces(self.alloc, &self.pieces, slice)?;
        let whole = slice.copy()?;
        let slices = with_whole(self.alloc, &self.slices, Some(whole))?;
        Ok(Holding {
            alloc: self.alloc,
            pieces,
            slices,
        })
    }
}

// The pieces with one more, unless it is the third of its region and doesn't fit.
fn taken(pieces: &Hold, region: RegionId, colour: u8, bytes: &[u8]) -> Result<Hold, Refusal>
    requires { colour < colours }
    ensures ok { IfOk result (λ next. taken region colour bytes.now pieces.now ≡ Ok next) }
    ensures fault { IfErr result (IsRefusalOf (unfit_by unfit.Piece (taken region colour bytes.now pieces.now))) }
{
    let mut next = pieces.copy()?;
    match next.take(region, colour, bytes) {
        Ok(_) => Ok(next),
        Err(HoldFault::Memory) => Err(Refusal::Memory),
        Err(HoldFault::Piece(fault)) => Err(Refusal::Unfit(Unfit::Piece(fault))),
    }
}

// The pieces with all of a slice.
fn with_pieces(alloc: Global, pieces: &Hold, slice: &Slice) -> Result<Hold, AllocError>
    requires { IsSlice slice.now }
    ensures { IfOk result (λ next. next ≡ sliced slice.now.part.region (slice_bytes slice.now) pieces.now) }
{
    let bytes = encode_slice(alloc, slice)?;
    let mut next = pieces.copy()?;
    match next.take_slice(slice.part.region, bytes.as_slice()) {
        Ok(_) => Ok(next),
        Err(_) => Err(AllocError),
    }
}

// The slices with that of one more region, where there is one.
fn with_whole(
    alloc: Global,
    slices: &Ordered<WholeSlice>,
    slice: Option<Slice>,
) -> Result<Ordered<WholeSlice>, AllocError>
    requires { IfSome slice IsSlice }
    ensures { IfOk result (λ all. all ≡ option_map_or (λ s. placed_by slice_region s slices.now) slice slices.now) }
{
    let mut all = slices.copy()?;
    if let Some(slice) = slice {
        all.put(shared(alloc, slice)?)?;
    }
    Ok(all)
}

fn shared(alloc: Global, slice: Slice) -> Result<WholeSlice, AllocError>
    requires { IsSlice slice }
    ensures { IfOk result (λ whole. whole ≡ slice) }
{
    Ok(WholeSlice {
        slice: Rc::new(alloc, slice)?,
    })
}

// The slice of a region, where it is whole: it has to be that of the epoch and the region.
fn read_whole(
    alloc: Global,
    pieces: &Hold,
    epoch: Epoch,
    region: RegionId,
) -> Result<Option<Slice>, Refusal>
    ensures value { IfOk result (λ slice. slice ≡ slice_in region pieces.now) }
    ensures some { IfOk result (λ slice. IfSome slice (λ s. IsSlice s × (s.part.region ≡ region))) }
    ensures none { IfOk result (λ slice. IfNone slice (length (of_region region pieces.now) < 3)) }
    ensures fits { OnOk result (region_fault epoch region pieces.now ≡ None) }
    ensures fault { IfErr result (IsRefusalOf (unless_unfit (region_fault epoch region pieces.now) pieces.now)) }
{
    let Some(bytes) = whole_bytes(pieces, region)? else {
        return Ok(None);
    };
    let slice = read_slice(alloc, bytes.as_slice())?;
    if slice.head.epoch != epoch || slice.part.region != region {
        return Err(Refusal::Unfit(Unfit::Name));
    }
    Ok(Some(slice))
}

fn whole_bytes(pieces: &Hold, region: RegionId) -> Result<Option<Piece>, AllocError>
    ensures value { IfOk result (λ whole. whole ≡ whole_in region pieces.now) }
    ensures none { IfOk result (λ whole. IfNone whole (length (of_region region pieces.now) < 3)) }
{
    match pieces.whole(region) {
        Ok(bytes) => Ok(bytes),
        Err(_) => Err(AllocError),
    }
}

fn read_slice(alloc: Global, bytes: &[u8]) -> Result<Slice, Refusal>
    ensures ok { IfOk result (λ slice. slice_of bytes.now ≡ Ok slice) }
    ensures allowed { IfOk result IsSlice }
    ensures fault { IfErr result (IsRefusalOf (unfit_by unfit.Bytes (slice_of bytes.now))) }
{
    match decode_slice(alloc, bytes) {
        Ok(slice) => Ok(slice),
        Err(PacketFault::Memory) => Err(Refusal::Memory),
        Err(fault) => Err(Refusal::Unfit(Unfit::Bytes(fault))),
    }
}
