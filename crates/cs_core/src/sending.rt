//! Packets that a node sends.

ghost use Rattle.std.specs.Prelude.{◌≡◌, ◌++◌, ◌<◌, IfOk, OnOk, IsTrue};
ghost use Rattle.cs_base.specs.Limits.{colours};
ghost use Rattle.cs_fields.specs.Fields.{IsLaterEpoch};
ghost use Rattle.cs_packet.specs.BodyField.{IsBody};
ghost use Rattle.cs_packet.specs.PacketField.{AreSends};
ghost use Rattle.cs_packet.specs.PieceField.{IsPieceText};
ghost use Rattle.cs_core.specs.Addresses.{send_leader};
ghost use Rattle.cs_core.specs.Node.{lists};
ghost use Rattle.cs_core.specs.Routing.{routed};

use cs_base::NodeId;
use cs_packet::{Body, Named, Own, Sends};
use cs_tree::WithTrees;
use cs_view::View;
use std::alloc::{AllocError, Global};

/// One packet to the leader.
pub(crate) fn to_leader(alloc: Global, own: &Own, body: Body) -> Result<Sends, AllocError>
    requires { IsBody body }
    ensures value { IfOk result (λ sends. sends ≡ send_leader own.now body) }
    ensures allowed { IfOk result AreSends }
{
    Sends::one(alloc, own.id, own.leader, own.leader_addr, body)
}

/// Puts a piece on its way to each target of its route by a view.
pub(crate) fn put_routed(
    sends: &mut Sends,
    me: NodeId,
    view: &WithTrees<View>,
    piece: &Named<'_>,
) -> Result<(), AllocError>
    requires colour { piece.now.colour < colours }
    requires listed { IsTrue (lists view.now piece.now.region) }
    ensures value { OnOk result (sends.new ≡ sends.old ++ routed me view.now piece.now) }
    ensures allowed { OnOk result (IsLaterEpoch piece.now.epoch → IsPieceText piece.now.bytes
        → AreSends sends.old → AreSends sends.new) }
{
    let targets = view.route(me, piece.region(), piece.colour())?;
    sends.put_piece(me, piece, targets.as_slice())
}
