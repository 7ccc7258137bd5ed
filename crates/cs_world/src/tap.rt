//! A link that keeps a copy of each datagram that was sent.

ghost use Rattle.std.specs.Prelude.{◌≡◌, [], length, slice_get, Some, IfOk};
ghost use Rattle.std.specs.Option.{option_map};
ghost use Rattle.cs_link.specs.Received.{IsNothing};
ghost use Rattle.cs_world.specs.Tapped.{TellsSame, common_room};
ghost use Rattle.std.proofs.Props.{props};

use bytes::Bytes;
use cs_base::Addr;
use cs_link::{CleanLink, Link, LinkFailed};
use std::alloc::{AllocError, Global};

/// A link that has a copy of each datagram that was sent through it.
pub trait Tapped: Link {
    /// How many datagrams were sent.
    fn count(&self) -> usize
        ensures { Some result ≡ option_map length (Self.sent self.now) };

    /// The datagram of this number that was sent, from 0, with the bytes of the copy shared, and where to.
    fn share(&self, i: usize) -> Result<Option<(Addr, Bytes)>, AllocError>
        ensures { IfOk result (λ datagram. Some datagram
            ≡ option_map (λ sent. slice_get sent i) (Self.sent self.now)) };
}

/// Any link as one that keeps a copy of each datagram that was sent. It passes each call on.
/// The copies stay in memory until the inner link is taken out.
#[derive(Debug, Drop)]
pub struct Tap<L: Link> {
    inner: L,
    copies: CleanLink,
    ghost copied: { TellsSame (L.sent inner) (⟦<CleanLink as Link>⟧.sent copies) } by { Prim.hlevel props },
}

impl<L: Link> Tap<L> {
    /// The link, with no copies. This takes no memory.
    pub fn new(alloc: Global, inner: L) -> Tap<L>
        requires { IsNothing (L.sent inner) }
        ensures sent { ⟦<Tap<L> as Link>⟧.sent result ≡ Some [] }
        ensures waiting { ⟦<Tap<L> as Link>⟧.waiting result ≡ L.waiting inner }
        ensures faults { ⟦<Tap<L> as Link>⟧.faults result ≡ L.faults inner }
        ensures taken { ⟦<Tap<L> as Link>⟧.taken result ≡ L.taken inner }
        ensures dry { ⟦<Tap<L> as Link>⟧.dry result ≡ L.dry inner }
    {
        Tap {
            inner,
            copies: CleanLink::new(alloc),
        }
    }

    /// The inner link as it is. The copies are let go.
    pub fn into_inner(self) -> L
        ensures sent { TellsSame (L.sent result) (⟦<Tap<L> as Link>⟧.sent self) }
        ensures waiting { L.waiting result ≡ ⟦<Tap<L> as Link>⟧.waiting self }
        ensures faults { L.faults result ≡ ⟦<Tap<L> as Link>⟧.faults self }
        ensures taken { L.taken result ≡ ⟦<Tap<L> as Link>⟧.taken self }
        ensures dry { L.dry result ≡ ⟦<Tap<L> as Link>⟧.dry self }
    {
        let Tap { inner, copies: _ } = self;
        inner
    }
}

impl<L: Link> Tapped for Tap<L> {
    fn count(&self) -> usize {
        self.copies.len()
    }

    fn share(&self, i: usize) -> Result<Option<(Addr, Bytes)>, AllocError> {
        self.copies.share(i)
    }
}

impl<L: Link> Link for Tap<L> {
    ghost sent = { λ tap. ⟦<CleanLink as Link>⟧.sent tap.copies };

    ghost waiting = { λ tap. L.waiting tap.inner };

    ghost spare = { λ tap. common_room (L.spare tap.inner) (⟦<CleanLink as Link>⟧.spare tap.copies) };

    ghost faults = { λ tap. L.faults tap.inner };

    ghost taken = { λ tap. L.taken tap.inner };

    ghost dry = { λ tap. L.dry tap.inner };

    fn ready(&mut self, pieces: u32, bytes: u64) -> Result<(), AllocError> {
        self.inner.ready(pieces, bytes)?;
        self.copies.ready(pieces, bytes)
    }

    fn send(&mut self, to: Addr, bytes: &[u8]) -> Result<(), LinkFailed> {
        self.inner.send(to, bytes)?;
        // A copy never fails.
        self.copies.send(to, bytes)
    }

    fn recv(&mut self, buf: &mut [u8]) -> Result<Option<usize>, LinkFailed> {
        self.inner.recv(buf)
    }
}
