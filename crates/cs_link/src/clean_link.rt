//! A link in memory that never fails.

ghost use Rattle.std.specs.Prelude.{◌≡◌, [], ◌∷◌, ◌++◌, length, slice_get, Some, IfOk, OnOk, OnErr};
ghost use Rattle.std.specs.Option.{option_map};
ghost use Rattle.cs_link.specs.Received.{IsSmall, arrived};

use crate::inbox::Inbox;
use crate::link::{Link, LinkFailed};
use crate::outbox::Outbox;
use bytes::Bytes;
use cs_base::Addr;
use std::alloc::{AllocError, Global};

/// A link that never fails.
#[derive(Debug, Drop)]
pub struct CleanLink {
    pub(crate) outbox: Outbox,
    pub(crate) inbox: Inbox,
}

impl CleanLink {
    /// A link that sent nothing, and at which nothing waits.
    pub fn new(alloc: Global) -> Self
        ensures sent { ⟦<CleanLink as Link>⟧.sent result ≡ Some [] }
        ensures waiting { ⟦<CleanLink as Link>⟧.waiting result ≡ Some [] }
        ensures taken { ⟦<CleanLink as Link>⟧.taken result ≡ 0 }
        ensures dry { ⟦<CleanLink as Link>⟧.dry result ≡ 0 }
    {
        CleanLink {
            outbox: Outbox::new(alloc),
            inbox: Inbox::new(alloc),
        }
    }

    /// Puts a datagram behind those that wait.
    pub fn arrive(&mut self, bytes: &[u8]) -> Result<(), AllocError>
        requires { IsSmall bytes.now }
        ensures ok { OnOk result
            (⟦<CleanLink as Link>⟧.waiting self.new ≡ arrived bytes.now (⟦<CleanLink as Link>⟧.waiting self.old)) }
        ensures err { OnErr result (⟦<CleanLink as Link>⟧.waiting self.new ≡ ⟦<CleanLink as Link>⟧.waiting self.old) }
        ensures sent { ⟦<CleanLink as Link>⟧.sent self.new ≡ ⟦<CleanLink as Link>⟧.sent self.old }
        ensures spare { ⟦<CleanLink as Link>⟧.spare self.new ≡ ⟦<CleanLink as Link>⟧.spare self.old }
        ensures taken { ⟦<CleanLink as Link>⟧.taken self.new ≡ ⟦<CleanLink as Link>⟧.taken self.old }
        ensures dry { ⟦<CleanLink as Link>⟧.dry self.new ≡ ⟦<CleanLink as Link>⟧.dry self.old }
    {
        self.inbox.arrive(bytes)
    }

    /// How many datagrams were sent.
    pub fn len(&self) -> usize
        ensures { Some result ≡ option_map length (⟦<CleanLink as Link>⟧.sent self.now) }
    {
        self.outbox.posts.len()
    }

    /// The datagram of this number that was sent, from 0, and where to.
    pub fn sent(&self, i: usize) -> Option<(Addr, &[u8])>
        ensures { Some (option_map (λ sent. (sent.0, sent.1.now)) result)
            ≡ option_map (λ sent. slice_get sent i) (⟦<CleanLink as Link>⟧.sent self.now) }
    {
        self.outbox.get(i)
    }

    /// The datagram of this number that was sent, from 0, with its bytes shared, and where to.
    pub fn share(&self, i: usize) -> Result<Option<(Addr, Bytes)>, AllocError>
        ensures { IfOk result (λ datagram. Some datagram
            ≡ option_map (λ sent. slice_get sent i) (⟦<CleanLink as Link>⟧.sent self.now)) }
    {
        self.outbox.share(i)
    }

    /// How many datagrams were received.
    pub fn taken(&self) -> u64
        ensures { result ≡ ⟦<CleanLink as Link>⟧.taken self.now }
    {
        self.inbox.taken
    }

    /// How often nothing was waiting.
    pub fn dry(&self) -> u64
        ensures { result ≡ ⟦<CleanLink as Link>⟧.dry self.now }
    {
        self.inbox.dry
    }
}

impl Link for CleanLink {
    ghost use Rattle.cs_link.specs.Sent.{datagrams, room_of};

    ghost sent = { λ link. Some (datagrams link.outbox.posts.items link.outbox.room.items) };

    ghost waiting = { λ link. Some link.inbox.waiting.items };

    ghost spare = { λ link. room_of link.outbox.posts link.outbox.room };

    ghost faults = { λ link. 0 };

    ghost taken = { λ link. link.inbox.taken };

    ghost dry = { λ link. link.inbox.dry };

    fn ready(&mut self, pieces: u32, bytes: u64) -> Result<(), AllocError> {
        self.outbox.ready(pieces as usize, bytes as usize)
    }

    fn send(&mut self, to: Addr, bytes: &[u8]) -> Result<(), LinkFailed> {
        self.outbox.put(to, bytes);
        Ok(())
    }

    fn recv(&mut self, buf: &mut [u8]) -> Result<Option<usize>, LinkFailed> {
        Ok(self.inbox.next(buf))
    }
}
