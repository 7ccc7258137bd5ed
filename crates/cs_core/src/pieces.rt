//! What a member makes of a piece and of a slice.

ghost use Rattle.std.specs.Prelude.{◌≡◌, ◌+◌, ◌<◌, IsTrue, IfOk};
ghost use Rattle.cs_base.specs.Limits.{colours};
ghost use Rattle.cs_fields.specs.Fields.{IsLaterEpoch};
ghost use Rattle.cs_item.specs.SliceField.{IsSlice};
ghost use Rattle.cs_packet.specs.PieceField.{IsPieceText};
ghost use Rattle.cs_core.specs.Node.{lists};
ghost use Rattle.cs_core.specs.Pieces.{late_plan, next_piece_plan, next_slice_plan, pass_plan, piece_plan, slice_plan};
ghost use Rattle.cs_core.specs.Sound.{IsSound};

use crate::following::Following;
use crate::past::Past;
use crate::plans::{answered, early, goes_on, only, stale, unlisted};
use crate::sending::put_routed;
use crate::{FollowNote, Plan};
use cs_base::RegionId;
use cs_item::Slice;
use cs_packet::{Named, Own, Sends};
use cs_view::View;
use std::alloc::AllocError;

fn lists(view: &View, region: RegionId) -> bool
    ensures { result ≡ lists view.now region }
{
    view.listed(region).is_some()
}

impl Following {
    pub fn piece(&self, own: &Own, piece: &Named<'_>) -> Result<Plan, AllocError>
        requires later { IsLaterEpoch piece.now.epoch }
        requires colour { piece.now.colour < colours }
        requires text { IsPieceText piece.now.bytes }
        ensures plan { IfOk result (λ plan. plan ≡ piece_plan own.now self.now piece.now) }
        ensures sound { IfOk result IsSound }
    {
        let have = self.view().epoch();
        let given = piece.epoch();
        if given < have {
            return Ok(stale(self, given));
        }
        if given == have {
            return self.late_piece(own, piece);
        }
        if given.get() > have.get() + 1 {
            return Ok(early(self, given));
        }
        self.next_piece(own, piece)
    }

    // A piece of the node's own epoch.
    fn late_piece(&self, own: &Own, piece: &Named<'_>) -> Result<Plan, AllocError>
        requires later { IsLaterEpoch piece.now.epoch }
        requires colour { piece.now.colour < colours }
        requires text { IsPieceText piece.now.bytes }
        ensures plan { IfOk result (λ plan. plan ≡ late_plan own.now self.now piece.now self.now.past) }
        ensures sound { IfOk result IsSound }
    {
        let Some(past) = self.past() else {
            return Ok(stale(self, piece.epoch()));
        };
        if !lists(past.view(), piece.region()) {
            return Ok(unlisted(self.alloc(), piece.region()));
        }
        if past.has(piece.region(), piece.colour()) {
            return Ok(only(self.alloc(), FollowNote::Already));
        }
        self.pass(own, past, piece)
    }

    // The piece is passed on by the past view.
    fn pass(&self, own: &Own, past: &Past, piece: &Named<'_>) -> Result<Plan, AllocError>
        requires later { IsLaterEpoch piece.now.epoch }
        requires colour { piece.now.colour < colours }
        requires text { IsPieceText piece.now.bytes }
        requires listed { IsTrue (lists past.now.view piece.now.region) }
        ensures plan { IfOk result (λ plan. plan ≡ pass_plan own.now self.now past.now piece.now) }
        ensures sound { IfOk result IsSound }
    {
        let mut sends = Sends::new(self.alloc());
        put_routed(&mut sends, own.id, past.with_trees(), piece)?;
        let past = past.with(self.alloc(), piece.region(), piece.colour())?;
        Ok(Plan {
            entry: None,
            sends,
            note: FollowNote::Passed,
            after: goes_on(own, self.with_past(past)?)?,
        })
    }

    // A piece of the next epoch.
    fn next_piece(&self, own: &Own, piece: &Named<'_>) -> Result<Plan, AllocError>
        requires later { IsLaterEpoch piece.now.epoch }
        requires colour { piece.now.colour < colours }
        requires text { IsPieceText piece.now.bytes }
        requires epoch { piece.now.epoch ≡ self.now.view.epoch + 1 }
        ensures plan { IfOk result (λ plan. plan ≡ next_piece_plan own.now self.now piece.now) }
        ensures sound { IfOk result IsSound }
    {
        if !lists(self.view(), piece.region()) {
            return Ok(unlisted(self.alloc(), piece.region()));
        }
        if self.held().has(piece.region(), piece.colour()) {
            return Ok(only(self.alloc(), FollowNote::Already));
        }
        // The region tells its range where it is read.
        let _region = piece.region().get();
        answered(self.alloc(), self.take_piece(own, piece))
    }

    pub fn slice(&self, own: &Own, slice: &Slice) -> Result<Plan, AllocError>
        requires { IsSlice slice.now }
        ensures plan { IfOk result (λ plan. plan ≡ slice_plan own.now self.now slice.now) }
        ensures sound { IfOk result IsSound }
    {
        let have = self.view().epoch();
        let given = slice.head.epoch;
        if given <= have {
            return Ok(stale(self, given));
        }
        if given.get() > have.get() + 1 {
            return Ok(early(self, given));
        }
        self.next_slice(own, slice)
    }

    // A slice of the next epoch.
    fn next_slice(&self, own: &Own, slice: &Slice) -> Result<Plan, AllocError>
        requires slice { IsSlice slice.now }
        requires epoch { slice.now.head.epoch ≡ self.now.view.epoch + 1 }
        ensures plan { IfOk result (λ plan. plan ≡ next_slice_plan own.now self.now slice.now) }
        ensures sound { IfOk result IsSound }
    {
        if !lists(self.view(), slice.part.region) {
            return Ok(unlisted(self.alloc(), slice.part.region));
        }
        if self.held().is_whole(slice.part.region) {
            return Ok(only(self.alloc(), FollowNote::Already));
        }
        answered(self.alloc(), self.take_slice(own, slice))
    }
}
