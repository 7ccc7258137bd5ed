ghost use Rattle.std.specs.Prelude.{◌≡◌, [], ◌∷◌, ◌++◌, ◌<◌, ◌↔◌, length, map, take, IsTrue, IfOk, OnOk, OnErr};
ghost use Rattle.cs_base.specs.Limits.{colours};
ghost use Rattle.cs_fields.specs.Fields.{IsLaterEpoch};
ghost use Rattle.cs_packet.specs.BodyField.{IsBody};
ghost use Rattle.cs_packet.specs.NamedPiece.{piece_to};
ghost use Rattle.cs_packet.specs.PacketField.{AreSends, IsSend};
ghost use Rattle.cs_packet.specs.PieceField.{IsPieceText};

use crate::{Body, Named, Packet};
use cs_base::{Addr, Copied, NodeId};
use cs_piece::Piece;
use std::alloc::{AllocError, Global};
use std::marker::Model;

/// Packets to be sent, in order, each with the address that it goes to.
#[derive(Debug, Drop)]
pub struct Sends {
    alloc: Global,
    items: Vec<(Addr, Packet)>,
}

impl Model for Sends {
    ghost use Rattle.std.specs.Prelude.{List};
    ghost use Rattle.cs_base.specs.Address.{Address};
    ghost use Rattle.cs_packet.specs.declared.packet.Packet.{Packet};

    ghost Value = { List (Address × Packet) };

    ghost view = { λ sends. sends.items.items };
}

impl Sends {
    pub fn new(alloc: Global) -> Self
        ensures { result ≡ [] }
    {
        Sends {
            alloc,
            items: Vec::new(alloc),
        }
    }

    /// One packet, to a node at an address.
    pub fn one(
        alloc: Global,
        from: NodeId,
        to: NodeId,
        addr: Addr,
        body: Body,
    ) -> Result<Self, AllocError>
        requires { IsBody body }
        ensures value { IfOk result (λ sends. sends ≡ (addr, record { from = from; to = to; body = body }) ∷ []) }
        ensures allowed { IfOk result AreSends }
    {
        // Both ids and the address tell their ranges where they are read.
        let _sender = from.get();
        let _receiver = to.get();
        let _ip = addr.ip();
        let mut sends = Sends::new(alloc);
        sends.push((addr, Packet { from, to, body }))?;
        Ok(sends)
    }

    pub fn len(&self) -> usize
        ensures { result ≡ length self.now }
    {
        self.items.len()
    }

    pub fn is_empty(&self) -> bool
        ensures { IsTrue result ↔ (self.now ≡ []) }
    {
        self.items.is_empty()
    }

    pub fn as_slice(&self) -> &[(Addr, Packet)]
        ensures { result.now ≡ self.now }
    {
        &self.items
    }

    /// The packets and addresses themselves.
    pub fn into_vec(self) -> Vec<(Addr, Packet)>
        ensures { result.items ≡ self }
    {
        self.items
    }

    pub fn copy(&self) -> Result<Self, AllocError>
        ensures { IfOk result (λ copy. copy ≡ self.now) }
    {
        let mut copies = Sends::new(self.alloc);
        for send in self.as_slice() {
            copies.push(send.copied()?)?;
        }
        Ok(copies)
    }

    pub fn push(&mut self, x: (Addr, Packet)) -> Result<(), AllocError>
        ensures ok { OnOk result (self.new ≡ self.old ++ x ∷ []) }
        ensures err { OnErr result (self.new ≡ self.old) }
    {
        self.items.push(x)?;
        Ok(())
    }

    /// Puts a piece on its way to each of these nodes, behind what is there.
    pub fn put_piece(
        &mut self,
        me: NodeId,
        piece: &Named<'_>,
        targets: &[(NodeId, Addr)],
    ) -> Result<(), AllocError>
        ensures value { OnOk result (self.new ≡ self.old ++ map (piece_to me piece.now) targets.now) }
        // What stands there is well formed then, where it was, and the piece can stand in a packet.
        ensures allowed { OnOk result (IsLaterEpoch piece.now.epoch → piece.now.colour < colours
            → IsPieceText piece.now.bytes → AreSends self.old → AreSends self.new) }
        ensures err { OnErr result (self.new ≡ self.old) }
    {
        let before = self.items.len();
        let put = self.put_each(me, piece, targets);
        if put.is_err() {
            self.items.truncate(before);
        }
        put
    }

    // Without memory for all of it the first of them stand there, behind what was there.
    fn put_each(
        &mut self,
        me: NodeId,
        piece: &Named<'_>,
        targets: &[(NodeId, Addr)],
    ) -> Result<(), AllocError>
        ensures value { OnOk result (self.new ≡ self.old ++ map (piece_to me piece.now) targets.now) }
        ensures allowed { OnOk result (IsLaterEpoch piece.now.epoch → piece.now.colour < colours
            → IsPieceText piece.now.bytes → AreSends self.old → AreSends self.new) }
        ensures front { take (length self.old) self.new ≡ self.old }
    {
        let alloc = self.alloc;
        for target in targets {
            let send = piece_to(alloc, me, piece, *target)?;
            self.push(send)?;
        }
        Ok(())
    }
}

// A piece on its way to a target.
fn piece_to(
    alloc: Global,
    me: NodeId,
    piece: &Named<'_>,
    target: (NodeId, Addr),
) -> Result<(Addr, Packet), AllocError>
    ensures value { IfOk result (λ send. send ≡ piece_to me piece.now target) }
    ensures allowed { IfOk result (λ send. IsLaterEpoch piece.now.epoch → piece.now.colour < colours
        → IsPieceText piece.now.bytes → IsSend send) }
{
    // Both ids, the region and the address tell their ranges where they are read.
    let _sender = me.get();
    let _receiver = target.0.get();
    let _region = piece.region().get();
    let _ip = target.1.ip();
    let body = Body::Piece {
        epoch: piece.epoch(),
        region: piece.region(),
        colour: piece.colour(),
        bytes: Piece::from_slice(alloc, piece.bytes())?,
    };
    let packet = Packet {
        from: me,
        to: target.0,
        body,
    };
    Ok((target.1, packet))
}
