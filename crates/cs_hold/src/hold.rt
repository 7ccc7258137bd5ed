//! Held pieces, region by region.

ghost use Rattle.std.specs.Prelude.{◌≡◌, ◌^◌, ◌<◌, [], Ok, None, length, IsTrue, is_some};
ghost use Rattle.std.specs.Prelude.{◌↔◌, IfOk, IfErr, OnOk, OnErr};
ghost use Rattle.std.specs.Prelude.{IsSome, IsNone, IfSome, IfNone, MatchOption, ℕ};
ghost use Rattle.std.specs.Prelude.{◌==◌, ◌≢◌, ◌≤◌, ◌++◌, map};
ghost use Rattle.std.specs.List.{find};
ghost use Rattle.std.specs.Option.{option_copied};
ghost use Rattle.cs_base.specs.Ascending.{at_key, IsAscendingBy};
ghost use Rattle.cs_base.specs.Limits.{colours};
ghost use Rattle.cs_hold.specs.Held.{IsHold, of_region, on_shelves, piece_in, pieces_at, region_of};
ghost use Rattle.cs_hold.specs.Kept.{HasAll, KeepsPieces};
ghost use Rattle.cs_hold.specs.Pieces.{ArePieces, colour_of, four_of, gained};
ghost use Rattle.cs_hold.specs.Taking.{IsFaultOf, IsMisfit, sliced, taken};
ghost use Rattle.cs_hold.specs.Whole.{least_whole, whole_in};
ghost use Rattle.cs_hold.specs.declared.fault.HoldFault.TheVariants.{Memory};
ghost use Rattle.cs_hold.specs.declared.hold.Took.TheVariants.{Already};

use crate::HoldFault;
use crate::shelf::{Coloured, Shelf};
use cs_base::{Ordered, RegionId};
use cs_piece::{Piece, join};
use std::alloc::{AllocError, Global};
use std::marker::Model;

/// Whether what came was there already.
#[derive(Clone, Copy, Debug, PartialEq, Eq)]
pub enum Took {
    New,
    Already,
}

/// Pieces by region and colour. Of each region there are none, one, two, or all four of some bytes.
#[derive(Drop)]
pub struct Hold {
    alloc: Global,
    shelves: Ordered<Shelf>,
}

impl Model for Hold {
    ghost use Rattle.std.specs.Prelude.{List};
    ghost use Rattle.cs_hold.specs.Held.{Held, on_shelves};

    ghost Value = { List Held };

    ghost view = { λ hold. on_shelves hold.shelves };
}

impl Hold {
    pub fn new(alloc: Global) -> Self
        ensures { result ≡ [] }
    {
        Hold {
            alloc,
            shelves: Ordered::new(alloc),
        }
    }

    /// How many pieces there are in all regions.
    pub fn len(&self) -> usize
        ensures value { result ≡ length self.now }
        ensures keeps { IsHold self.now }
    {
        count(self.shelves.as_slice())
    }

    pub fn is_empty(&self) -> bool
        ensures { IsTrue result ↔ (self.now ≡ []) }
    {
        self.len() == 0
    }

    /// The bytes of a piece.
    pub fn piece(&self, region: RegionId, colour: u8) -> Option<&[u8]>
        ensures { option_copied result ≡ piece_in region colour self.now }
    {
        match piece_of(&self.shelves, region, colour) {
            Some(piece) => Some(piece.bytes()),
            None => None,
        }
    }

    /// Takes a piece. Where it is the third of its region, the fourth is made too.
    pub fn take(&mut self, region: RegionId, colour: u8, bytes: &[u8]) -> Result<Took, HoldFault>
        requires { colour < colours }
        ensures took { IfOk result (λ took. (took ≡ Already) ↔ IsSome (piece_in region colour self.old)) }
        ensures ok { OnOk result (taken region colour bytes.now self.old ≡ Ok self.new) }
        ensures kept { OnOk result (KeepsPieces region colour bytes.now self.old self.new) }
        ensures fault { IfErr result (IsFaultOf (taken region colour bytes.now self.old)) }
        ensures misfit { IfErr result IsMisfit }
        ensures err { OnErr result (self.new ≡ self.old) }
    {
        match gained(self.alloc, &self.shelves, region, colour, bytes) {
            Ok(Some(shelf)) => {
                self.shelves.put(shelf)?;
                Ok(Took::New)
            }
            Ok(None) => Ok(Took::Already),
            Err(fault) => Err(fault),
        }
    }

    /// Takes the bytes of a region's slice, whose four pieces are then there.
    pub fn take_slice(&mut self, region: RegionId, bytes: &[u8]) -> Result<Took, HoldFault>
        requires { length bytes.now < 2 ^ 32 }
        ensures took { IfOk result (λ took. (took ≡ Already) ↔ (length (of_region region self.old) ≡ 4)) }
        ensures ok { OnOk result (self.new ≡ sliced region bytes.now self.old) }
        ensures fault { IfErr result (λ fault. fault ≡ Memory) }
        ensures err { OnErr result (self.new ≡ self.old) }
    {
        if pieces(&self.shelves, region).len() == 4 {
            return Ok(Took::Already);
        }
        let shelf = Shelf::whole(self.alloc, region, bytes)?;
        self.shelves.put(shelf)?;
        Ok(Took::New)
    }

    /// The bytes of a region with four pieces.
    pub fn whole(&self, region: RegionId) -> Result<Option<Piece>, HoldFault>
        ensures value { IfOk result (λ whole. whole ≡ whole_in region self.now) }
        ensures none { length (of_region region self.now) < 3 → result ≡ Ok None }
        ensures whole { IfOk result (λ whole. IfSome whole (λ bytes. of_region region self.now ≡ four_of bytes)) }
        ensures some { IfOk result (λ whole. IfNone whole (length (of_region region self.now) < 3)) }
        ensures fault { IfErr result (λ fault. fault ≡ Memory) }
    {
        let pieces = pieces(&self.shelves, region);
        if pieces.len() < 3 {
            return Ok(None);
        }
        match join(
            self.alloc,
            0,
            pieces[0].bytes(),
            1,
            pieces[1].bytes(),
            2,
            pieces[2].bytes(),
        ) {
            Ok(bytes) => Ok(Some(bytes)),
            Err(_) => Err(HoldFault::Memory),
        }
    }

    /// The least region with four pieces.
    pub fn least_whole(&self) -> Option<RegionId>
        ensures value { result ≡ least_whole self.now }
        ensures whole { IfSome result (λ least. length (of_region least self.now) ≡ 4) }
        ensures least { IfSome result (λ least. (region : ℕ) → region < least → length (of_region region self.now)
            ≢ 4) }
        ensures none { IfNone result ((region : ℕ) → length (of_region region self.now) ≢ 4) }
    {
        match first_whole(self.shelves.as_slice()) {
            Some(shelf) => Some(shelf.region()),
            None => None,
        }
    }

    /// Whether all four pieces of a region are there.
    pub fn is_whole(&self, region: RegionId) -> bool
        ensures { result ≡ (length (of_region region self.now) == 4) }
    {
        pieces(&self.shelves, region).len() == 4
    }

    /// The region and the colour of each piece.
    pub fn names(&self) -> Result<Vec<(RegionId, u8)>, AllocError>
        ensures { IfOk result (λ names. names.items ≡ map (λ h. (h.region, h.colour)) self.now) }
    {
        let mut names = Vec::new(self.alloc);
        for shelf in self.shelves.as_slice() {
            append_names(&mut names, shelf)?;
        }
        Ok(names)
    }

    /// The same pieces again. Both share the bytes, so the time goes by the number of pieces.
    pub fn copy(&self) -> Result<Self, AllocError>
        ensures { IfOk result (λ copy. copy ≡ self.now) }
    {
        Ok(Hold {
            alloc: self.alloc,
            shelves: self.shelves.copy()?,
        })
    }
}

// Appends the region and the colour of each piece on the shelf.
fn append_names(names: &mut Vec<(RegionId, u8)>, shelf: &Shelf) -> Result<(), AllocError>
    ensures { OnOk result (names.new.items ≡ names.old.items ++ map (λ piece. (shelf.now.0, piece.0)) shelf.now.1) }
{
    for piece in shelf.pieces().as_slice() {
        names.push((shelf.region(), piece.colour()))?;
    }
    Ok(())
}

// The first shelf with four pieces.
fn first_whole(shelves: &[Shelf]) -> Option<&Shelf>
    ensures { option_copied result ≡ find (λ shelf. length shelf.1 == 4) shelves.now }
{
    shelves.iter().find(|shelf| shelf.is_whole())
}

// How many pieces there are on all shelves.
fn count(shelves: &[Shelf]) -> usize
    requires { length shelves.now ≤ 2 ^ 32 }
    ensures { result ≡ length (on_shelves shelves.now) }
{
    let mut count = 0;
    for shelf in shelves {
        count += shelf.pieces().len();
    }
    count
}

// The shelf of a region.
fn shelf_of(shelves: &Ordered<Shelf>, region: RegionId) -> Option<&Shelf>
    ensures value { option_copied result ≡ at_key region_of region shelves.now }
    ensures ascending { IsAscendingBy region_of shelves.now }
{
    // The list tells its order where it is read as a whole.
    let _all = shelves.as_slice();
    shelves.get(region.get())
}

// A piece on the shelves.
fn piece_of(shelves: &Ordered<Shelf>, region: RegionId, colour: u8) -> Option<&Coloured>
    ensures value { option_copied result ≡ at_key colour_of colour (pieces_at region shelves.now) }
    ensures ascending { IsAscendingBy region_of shelves.now }
{
    match shelf_of(shelves, region) {
        Some(shelf) => shelf.pieces().get(u32::from(colour)),
        None => None,
    }
}

// The pieces of a region.
fn pieces(shelves: &Ordered<Shelf>, region: RegionId) -> &[Coloured]
    ensures value { result.now ≡ pieces_at region shelves.now }
    ensures keeps { ArePieces (pieces_at region shelves.now) }
    ensures ascending { IsAscendingBy region_of shelves.now }
{
    match shelf_of(shelves, region) {
        Some(shelf) => shelf.pieces().as_slice(),
        None => &[],
    }
}

// The pieces of a region with one more, unless its colour is there.
fn gained(
    alloc: Global,
    shelves: &Ordered<Shelf>,
    region: RegionId,
    colour: u8,
    bytes: &[u8],
) -> Result<Option<Shelf>, HoldFault>
    requires { colour < colours }
    ensures already { IfOk result (λ shelf. IsNone shelf
        ↔ IsSome (at_key colour_of colour (pieces_at region shelves.now))) }
    ensures region { IfOk result (λ shelf. IfSome shelf (λ s. s.0 ≡ region)) }
    ensures ok { IfOk result (λ shelf. IfSome shelf
        (λ s. gained colour bytes.now (pieces_at region shelves.now) ≡ Ok s.1)) }
    ensures kept { IfOk result (λ shelf. IfSome shelf
        (λ s. HasAll colour bytes.now (pieces_at region shelves.now) s.1)) }
    ensures absent { OnErr result (at_key colour_of colour (pieces_at region shelves.now) ≡ None) }
    ensures fault { IfErr result (IsFaultOf (gained colour bytes.now (pieces_at region shelves.now))) }
    ensures misfit { IfErr result IsMisfit }
    ensures ascending { IsAscendingBy region_of shelves.now }
{
    if piece_of(shelves, region, colour).is_some() {
        return Ok(None);
    }
    match shelf_of(shelves, region) {
        Some(shelf) => Ok(Some(shelf.gained(alloc, colour, bytes)?)),
        None => Ok(Some(Shelf::first(alloc, region, colour, bytes)?)),
    }
}
