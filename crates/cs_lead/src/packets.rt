//! The packets of a close.

ghost use Rattle.std.specs.Prelude.{◌≡◌, ◌+◌, ◌++◌, ◌∷◌, [], ◌<◌, true, map, IfOk, OnOk};
ghost use Rattle.std.specs.List.{AllByRecursion, flat_map};
ghost use Rattle.cs_base.specs.Limits.{colours};
ghost use Rattle.cs_base.specs.declared.change.Mode.TheVariants.{Partial};
ghost use Rattle.cs_group.specs.Rows.{has_member, regions};
ghost use Rattle.cs_item.specs.SliceField.{IsSlice, slice_bytes};
ghost use Rattle.cs_packet.specs.PacketField.{AreSends};
ghost use Rattle.cs_piece.specs.Blocks.{piece_of};
ghost use Rattle.cs_slicer.specs.Joiners.{joiners};
ghost use Rattle.cs_slicer.specs.Projection.{known_by};
ghost use Rattle.cs_slicer.specs.Turn.{IsTurnOf};
ghost use Rattle.cs_lead.specs.Closing.{piece_of_slice, slice_sends, snapshot_to, started};
ghost use Rattle.cs_lead.specs.Leading.{all_slices, whole_view};

use crate::Leader;
use cs_base::{COLOURS, NodeId, RegionId};
use cs_group::{Group, Turn};
use cs_item::{Slice, encode_slice};
use cs_packet::{Body, Named, Packet, Sends, Slices};
use cs_piece::{Piece, cut};
use cs_slicer::joiners;
use cs_view::View;
use std::alloc::AllocError;

// The region of a member: no other has it.
fn region_of(group: &Group, id: NodeId) -> RegionId
    requires { has_member id group.now.rows ≡ true }
    ensures { known_by id Partial group.now.rows (regions group.now.rows) ≡ result ∷ [] }
{
    // The count says that the rows are those of a group.
    let _count = group.count();
    group.region_of(id).unwrap()
}

impl Leader {
    /// A snapshot for each joiner of a turn, ascending by id: of the new view, with the roll of the joiner's region.
    pub(crate) fn snapshots(&self, turn: &Turn, view: &View) -> Result<Sends, AllocError>
        requires turn { IsTurnOf self.now.group turn.now }
        requires view { view.now ≡ whole_view view.now.epoch turn.now.group }
        ensures value { IfOk result (λ sends. sends
            ≡ map (snapshot_to self.now.me.id view.now.epoch turn.now.group) (joiners turn.now.item)) }
        ensures allowed { IfOk result AreSends }
    {
        // The count says that the rows are those of a group, and both numbers tell their ranges where they are read.
        let _count = turn.group.count();
        let _epoch = view.epoch().get();
        let me = self.me().id;
        let _sender = me.get();
        let mut sends = Sends::new(self.alloc());
        for joiner in joiners(self.alloc(), turn.item.as_slice())?.as_slice() {
            let region = region_of(&turn.group, joiner.id);
            let packet = Packet {
                from: me,
                to: joiner.id,
                body: Body::Snap(view.picture(Some(region))?),
            };
            sends.push((joiner.addr, packet))?;
        }
        Ok(sends)
    }

    /// Puts all pieces of the slices on their way, by the leader's view.
    pub(crate) fn put_slices(&self, sends: &mut Sends, slices: &Slices) -> Result<(), AllocError>
        requires { AllByRecursion IsSlice slices.now }
        ensures value { OnOk result (sends.new
            ≡ sends.old ++ flat_map (slice_sends self.now.me.id self.now.view) slices.now) }
        ensures allowed { OnOk result (AreSends sends.old → AreSends sends.new) }
    {
        for slice in slices.as_slice() {
            self.put_slice(sends, slice)?;
        }
        Ok(())
    }

    // The pieces of a slice, which is spelt and cut once.
    fn put_slice(&self, sends: &mut Sends, slice: &Slice) -> Result<(), AllocError>
        requires { IsSlice slice.now }
        ensures value { OnOk result (sends.new ≡ sends.old ++ slice_sends self.now.me.id self.now.view slice.now) }
        ensures allowed { OnOk result (AreSends sends.old → AreSends sends.new) }
    {
        let bytes = encode_slice(self.alloc(), slice)?;
        let pieces = cut(self.alloc(), bytes.as_slice())?;
        for colour in 0..COLOURS {
            self.put_colour(sends, slice, colour as u8, &pieces[colour])?;
        }
        Ok(())
    }

    // The piece of a colour.
    fn put_colour(
        &self,
        sends: &mut Sends,
        slice: &Slice,
        colour: u8,
        bytes: &Piece,
    ) -> Result<(), AllocError>
        requires colour { colour < colours }
        requires slice { IsSlice slice.now }
        requires bytes { bytes.now ≡ piece_of (slice_bytes slice.now) colour }
        ensures value { OnOk result (sends.new
            ≡ sends.old ++ started self.now.me.id self.now.view (piece_of_slice slice.now colour)) }
        ensures allowed { OnOk result (AreSends sends.old → AreSends sends.new) }
    {
        let region = slice.part.region;
        let piece = Named::new(slice.head.epoch, region, colour, bytes.as_slice());
        let me = self.me().id;
        let targets = self.with_trees().start(me, region, colour)?;
        sends.put_piece(me, &piece, targets.as_slice())
    }
}
