//! Taking a piece or a slice of the next epoch: it becomes held, and where the slices that the node needs are whole
//! then, the node makes its step. What became held is sent on by the view from before.

ghost use Rattle.std.specs.Prelude.{◌≡◌, ◌≢◌, ℕ, ◌==◌, ◌+◌, ◌++◌, ◌<◌, [], None, Some, Ok, length, Contains, IsTrue};
ghost use Rattle.std.specs.Prelude.{IfOk, IfErr, IfSome, OnOk};
ghost use Rattle.std.specs.List.{AllByRecursion};
ghost use Rattle.cs_base.specs.Ascending.{IsAscending, IsAscendingBy};
ghost use Rattle.cs_base.specs.Limits.{colours};
ghost use Rattle.cs_fields.specs.Fields.{IsLaterEpoch};
ghost use Rattle.cs_hold.specs.Held.{of_region, piece_in};
ghost use Rattle.cs_item.specs.SliceField.{IsSlice};
ghost use Rattle.cs_packet.specs.PacketField.{AreSends};
ghost use Rattle.cs_packet.specs.PieceField.{IsPieceText};
ghost use Rattle.cs_view.specs.Step.{is_known};
ghost use Rattle.cs_core.specs.Gained.{IsGain, IsMade};
ghost use Rattle.cs_core.specs.Holding.{slice_in, slice_region};
ghost use Rattle.cs_core.specs.Kept.{AreUsed, IsGoodView, IsHeldFor};
ghost use Rattle.cs_core.specs.Node.{lists};
ghost use Rattle.cs_core.specs.Plans.{unless_unfit};
ghost use Rattle.cs_core.specs.Refused.{IsRefusalOf};
ghost use Rattle.cs_core.specs.Sound.{IsSound};
ghost use Rattle.cs_core.specs.Taking.{advance_plan, are_whole, came_first, depart_plan, gain_of_piece, gain_of_slice};
ghost use Rattle.cs_core.specs.Taking.{gain_plan};
ghost use Rattle.cs_core.specs.Taking.{gain_sends, gained_sends, heads_fault, hold_plan, is_new, needed, new_colours};
ghost use Rattle.cs_core.specs.Taking.{parts_of};
ghost use Rattle.cs_core.specs.Taking.{piece_gained, progress, slices_in, step_with, stepped, text_in, used_with};

use crate::following::Following;
use crate::gain::Gain;
use crate::heads::is_same_head;
use crate::holding::Holding;
use crate::plans::goes_on;
use crate::pool::ViewPool;
use crate::refusal::Refusal;
use crate::sending::put_routed;
use crate::{FollowNote, Outcome, Plan, Unfit};
use cs_base::{COLOURS, Epoch, Ids, RegionId};
use cs_hold::Hold;
use cs_item::Slice;
use cs_packet::{Entry, Named, Own, Sends, Slices};
use cs_roll::Sight;
use cs_view::{Next, Parts, View, ViewFault};
use std::alloc::{AllocError, Global};

// The colours of a region that are held now and weren't before.
fn new_colours(
    alloc: Global,
    region: RegionId,
    before: &Hold,
    after: &Hold,
) -> Result<Vec<u8>, AllocError>
    ensures { IfOk result (λ new. new.items ≡ new_colours region before.now after.now) }
{
    let mut new = Vec::new(alloc);
    for colour in 0..COLOURS as u8 {
        if is_new(region, colour, before, after) {
            new.push(colour)?;
        }
    }
    Ok(new)
}

// Whether a colour is held now and wasn't before.
fn is_new(region: RegionId, colour: u8, before: &Hold, after: &Hold) -> bool
    ensures { result ≡ is_new region before.now after.now colour }
{
    after.piece(region, colour).is_some() && before.piece(region, colour).is_none()
}

// The colour that came, and then the others.
fn came_first(alloc: Global, colour: u8, others: &[u8]) -> Result<Vec<u8>, AllocError>
    ensures { IfOk result (λ all. all.items ≡ came_first colour others.now) }
{
    let mut all = Vec::new(alloc);
    all.push(colour)?;
    for other in others {
        if *other != colour {
            all.push(*other)?;
        }
    }
    Ok(all)
}

impl Following {
    /// The plan on a piece of the next epoch, of a listed region, that isn't held.
    pub fn take_piece(&self, own: &Own, piece: &Named<'_>) -> Result<Plan, Refusal>
        requires colour { piece.now.colour < colours }
        requires epoch { piece.now.epoch ≡ self.now.view.epoch + 1 }
        requires listed { IsTrue (lists self.now.view piece.now.region) }
        requires text { IsPieceText piece.now.bytes }
        requires absent { piece_in piece.now.region piece.now.colour self.now.held ≡ None }
        ensures plan { IfOk result (λ plan. piece_gained own.now self.now piece.now ≡ Ok plan) }
        ensures fault { IfErr result (IsRefusalOf (piece_gained own.now self.now piece.now)) }
        ensures sound { IfOk result IsSound }
    {
        let gain = self.piece_gain(piece)?;
        self.gain(own, gain)
    }

    /// The plan on a slice of the next epoch, of a listed region that isn't whole.
    pub fn take_slice(&self, own: &Own, slice: &Slice) -> Result<Plan, Refusal>
        requires slice { IsSlice slice.now }
        requires epoch { slice.now.head.epoch ≡ self.now.view.epoch + 1 }
        requires listed { IsTrue (lists self.now.view slice.now.part.region) }
        requires absent { length (of_region slice.now.part.region self.now.held) ≢ 4 }
        ensures plan { IfOk result (λ plan. gain_plan own.now self.now (gain_of_slice self.now slice.now) ≡ Ok plan) }
        ensures fault { IfErr result (IsRefusalOf (gain_plan own.now self.now (gain_of_slice self.now slice.now))) }
        ensures sound { IfOk result IsSound }
    {
        let gain = self.slice_gain(slice)?;
        self.gain(own, gain)
    }

    // What the node gains by a piece.
    fn piece_gain(&self, piece: &Named<'_>) -> Result<Gain, Refusal>
        requires colour { piece.now.colour < colours }
        requires epoch { piece.now.epoch ≡ self.now.view.epoch + 1 }
        requires listed { IsTrue (lists self.now.view piece.now.region) }
        requires text { IsPieceText piece.now.bytes }
        requires absent { piece_in piece.now.region piece.now.colour self.now.held ≡ None }
        ensures ok { IfOk result (λ gain. gain_of_piece self.now piece.now.region piece.now.colour piece.now.bytes
            ≡ Ok gain) }
        ensures good { IfOk result (IsGain self.now) }
        ensures fault { IfErr result (IsRefusalOf
            (gain_of_piece self.now piece.now.region piece.now.colour piece.now.bytes)) }
    {
        // The member tells what it keeps where its view is read, and the epoch and the region tell their ranges.
        let _view = self.view();
        let _epoch = piece.epoch().get();
        let _region = piece.region().get();
        let before = self.held();
        let held = before.with_piece(piece.epoch(), piece.region(), piece.colour(), piece.bytes())?;
        let others = new_colours(self.alloc(), piece.region(), before.pieces(), held.pieces())?;
        let colours = came_first(self.alloc(), piece.colour(), &others)?;
        Ok(Gain {
            region: piece.region(),
            held,
            colours,
        })
    }

    // What the node gains by a slice.
    fn slice_gain(&self, slice: &Slice) -> Result<Gain, AllocError>
        requires slice { IsSlice slice.now }
        requires epoch { slice.now.head.epoch ≡ self.now.view.epoch + 1 }
        requires listed { IsTrue (lists self.now.view slice.now.part.region) }
        requires absent { length (of_region slice.now.part.region self.now.held) ≢ 4 }
        ensures value { IfOk result (λ gain. gain ≡ gain_of_slice self.now slice.now) }
        ensures good { IfOk result (IsGain self.now) }
    {
        // The member tells what it keeps where its view is read.
        let _view = self.view();
        let region = slice.part.region;
        let before = self.held();
        let held = before.with_slice(slice)?;
        let colours = new_colours(self.alloc(), region, before.pieces(), held.pieces())?;
        Ok(Gain {
            region,
            held,
            colours,
        })
    }

    // What becomes of the node with what it gained.
    fn gain(&self, own: &Own, gain: Gain) -> Result<Plan, Refusal>
        requires { IsGain self.now gain }
        ensures plan { IfOk result (λ plan. gain_plan own.now self.now gain ≡ Ok plan) }
        ensures fault { IfErr result (IsRefusalOf (gain_plan own.now self.now gain)) }
        ensures sound { IfOk result IsSound }
    {
        match self.progress(own, &gain.held)? {
            Some((used, next)) => Ok(self.stepped(own, gain, used, next)?),
            None => Ok(self.hold(own, gain)?),
        }
    }

    // The plan after the step of the view.
    fn stepped(&self, own: &Own, gain: Gain, used: Slices, next: Next) -> Result<Plan, AllocError>
        requires gain { IsGain self.now gain }
        requires made { IsMade (self.now.view.epoch + 1) used next }
        ensures value { IfOk result (λ plan. plan ≡ stepped own.now self.now gain used next) }
        ensures sound { IfOk result IsSound }
    {
        match next {
            Next::Member(view) => self.advance(own, gain, used, view),
            Next::Departed => self.depart(own, gain),
        }
    }

    // The step that the held pieces make possible, with the slices that it uses.
    fn progress(&self, own: &Own, held: &Holding) -> Result<Option<(Slices, Next)>, Refusal>
        requires { IsHeldFor (self.now.view.epoch + 1) self.now.view held.now }
        ensures ok { IfOk result (λ made. progress own.now self.now.view held.now ≡ Ok made) }
        ensures good { IfOk result (λ made. IfSome made (λ m. IsMade (self.now.view.epoch + 1) m.0 m.1)) }
        ensures fault { IfErr result (IsRefusalOf (progress own.now self.now.view held.now)) }
    {
        let Some(least) = held.least() else {
            return Ok(None);
        };
        let Some(used) = used_with(self.alloc(), self.view(), held, least)? else {
            return Ok(None);
        };
        let next = step_with(self.alloc(), self.pool(), own, self.view(), least, &used)?;
        Ok(Some((used, next)))
    }

    // What became held, on its way by the view from before.
    fn gain_sends(&self, own: &Own, gain: &Gain) -> Result<Sends, AllocError>
        requires { IsGain self.now gain.now }
        ensures value { IfOk result (λ sends. sends ≡ gain_sends own.now self.now gain.now) }
        ensures allowed { IfOk result AreSends }
    {
        let mut sends = Sends::new(self.alloc());
        for colour in &gain.colours {
            self.put_gained(own, gain, *colour, &mut sends)?;
        }
        Ok(sends)
    }

    // A piece that became held, on its way.
    fn put_gained(
        &self,
        own: &Own,
        gain: &Gain,
        colour: u8,
        sends: &mut Sends,
    ) -> Result<(), AllocError>
        requires gain { IsGain self.now gain.now }
        requires colour { Contains gain.now.colours colour }
        ensures value { OnOk result (sends.new ≡ sends.old ++ gained_sends own.now self.now gain.now colour) }
        ensures allowed { OnOk result (AreSends sends.old → AreSends sends.new) }
    {
        let bytes = text_in(&gain.held, gain.region, colour);
        let piece = Named::new(self.next_epoch(), gain.region, colour, bytes);
        put_routed(sends, own.id, self.with_trees(), &piece)
    }

    // The epoch after that of the view.
    fn next_epoch(&self) -> Epoch
        requires { IsLaterEpoch (self.now.view.epoch + 1) }
        ensures { result ≡ self.now.view.epoch + 1 }
    {
        let epoch = self.view().epoch();
        match epoch.next() {
            Some(next) => next,
            None => epoch,
        }
    }

    // The node holds what came, and waits for more.
    fn hold(&self, own: &Own, gain: Gain) -> Result<Plan, AllocError>
        requires { IsGain self.now gain }
        ensures value { IfOk result (λ plan. plan ≡ hold_plan own.now self.now gain) }
        ensures sound { IfOk result IsSound }
    {
        Ok(Plan {
            entry: None,
            sends: self.gain_sends(own, &gain)?,
            note: FollowNote::Held,
            after: goes_on(own, self.with_held(gain.held)?)?,
        })
    }

    // The node is a member of the next epoch, by the slices that it used.
    fn advance(&self, own: &Own, gain: Gain, used: Slices, view: View) -> Result<Plan, AllocError>
        requires gain { IsGain self.now gain }
        requires view { IsGoodView view }
        requires used { AreUsed view.epoch used }
        requires some { 0 < length used }
        ensures value { IfOk result (λ plan. plan ≡ advance_plan own.now self.now gain used view) }
        ensures sound { IfOk result IsSound }
    {
        Ok(Plan {
            entry: Some(Entry::Step(used.copy()?)),
            sends: self.gain_sends(own, &gain)?,
            note: FollowNote::Advanced(view.epoch()),
            after: goes_on(own, self.advanced(gain.held.pieces(), used, view)?)?,
        })
    }

    // The next epoch says that the node left.
    fn depart(&self, own: &Own, gain: Gain) -> Result<Plan, AllocError>
        requires { IsGain self.now gain }
        ensures value { IfOk result (λ plan. plan ≡ depart_plan own.now self.now gain) }
        ensures sound { IfOk result IsSound }
    {
        let epoch = self.next_epoch();
        Ok(Plan {
            entry: Some(Entry::Gone { epoch }),
            sends: self.gain_sends(own, &gain)?,
            note: FollowNote::Departed,
            after: Outcome::Gone,
        })
    }
}

// The bytes of a held piece.
fn text_in(held: &Holding, region: RegionId, colour: u8) -> &[u8]
    ensures { result.now ≡ text_in region colour held.now }
{
    match held.pieces().piece(region, colour) {
        Some(bytes) => bytes,
        None => &[],
    }
}

// The regions whose slices are used where this is the least whole one.
fn needed(alloc: Global, view: &View, least: &Slice) -> Result<Ids, AllocError>
    ensures { IfOk result (λ regions. regions ≡ needed view.now least.now) }
{
    let mut regions = Ids::new(alloc);
    for region in least.head.touched.as_slice() {
        if has_known(view, *region) {
            regions.push(*region)?;
        }
    }
    regions.insert(least.part.region.get())?;
    Ok(regions)
}

// Whether the roll of a region is known.
fn has_known(view: &View, region: u32) -> bool
    ensures { result ≡ is_known view.now.rolls region }
{
    view.known().iter().any(|pair| pair.0.get() == region)
}

// The slices that are used, where all that are needed are there.
fn used_with(
    alloc: Global,
    view: &View,
    held: &Holding,
    least: &Slice,
) -> Result<Option<Slices>, AllocError>
    requires { (region : ℕ) → IfSome (slice_in region held.now) (λ s. s.part.region ≡ region) }
    ensures value { IfOk result (λ used. used ≡ used_with view.now held.now least.now) }
    ensures allowed { IfOk result (λ used. IfSome used (AllByRecursion IsSlice)) }
{
    let regions = needed(alloc, view, least)?;
    if !are_whole(held, regions.as_slice()) {
        return Ok(None);
    }
    Ok(Some(slices_in(alloc, held, regions.as_slice())?))
}

// Whether each of these regions is whole.
fn are_whole(held: &Holding, regions: &[u32]) -> bool
    ensures { result ≡ are_whole held.now regions.now }
{
    regions.iter().all(|region| held.slice(*region).is_some())
}

// The slices of these regions.
fn slices_in(alloc: Global, held: &Holding, regions: &[u32]) -> Result<Slices, AllocError>
    requires ascending { IsAscending regions.now }
    requires named { (region : ℕ) → IfSome (slice_in region held.now) (λ s. s.part.region ≡ region) }
    ensures value { IfOk result (λ slices. slices ≡ slices_in held.now regions.now) }
    ensures allowed { IfOk result (AllByRecursion IsSlice) }
{
    let mut slices = Slices::new(alloc);
    for region in regions {
        if let Some(slice) = held.slice(*region) {
            slices.push(slice.copy()?)?;
        }
    }
    Ok(slices)
}

/// The view after the step by the used slices, whose heads have to be the same.
pub(crate) fn step_with(
    alloc: Global,
    pool: &ViewPool,
    own: &Own,
    view: &View,
    least: &Slice,
    used: &Slices,
) -> Result<Next, Refusal>
    ensures ok { IfOk result (λ next. step_with own.now view.now least.now used.now ≡ Ok next) }
    ensures fault { IfErr result (IsRefusalOf (step_with own.now view.now least.now used.now)) }
{
    check_heads(least, used.as_slice())?;
    let parts = parts_of(alloc, used.as_slice())?;
    let summaries = pool.next_summaries(alloc, view.regions(), &least.head)?;
    match view.apply_with(own.id, own.mode, &least.head, &parts, summaries) {
        Ok(next) => Ok(next),
        Err(ViewFault::Memory) => Err(Refusal::Memory),
        Err(fault) => Err(Refusal::Unfit(Unfit::View(fault))),
    }
}

/// The slices have the head of the least one.
pub(crate) fn check_heads(least: &Slice, used: &[Slice]) -> Result<(), Refusal>
    ensures ok { OnOk result (heads_fault least.now used.now ≡ None) }
    ensures fault { IfErr result (IsRefusalOf (unless_unfit (heads_fault least.now used.now) used.now)) }
{
    for slice in used {
        if !is_same_head(&slice.head, &least.head) {
            return Err(Refusal::Unfit(Unfit::Heads(slice.part.region)));
        }
    }
    Ok(())
}

/// The parts of slices, which ascend by region.
pub(crate) fn parts_of(alloc: Global, slices: &[Slice]) -> Result<Parts, AllocError>
    requires { IsAscendingBy slice_region slices.now }
    ensures { IfOk result (λ parts. parts ≡ parts_of slices.now) }
{
    let mut parts = Parts::new(alloc);
    for slice in slices {
        parts.push(slice.part.copy()?)?;
    }
    Ok(parts)
}
