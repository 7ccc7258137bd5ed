//! A link in memory that fails at the calls that it is told to.

ghost use Rattle.std.specs.Prelude.{◌≡◌, [], ◌∷◌, ◌++◌, slice_get, Some, OnOk, OnErr};
ghost use Rattle.std.specs.Option.{option_map};
ghost use Rattle.cs_link.specs.Received.{IsSmall, arrived};

use crate::clean_link::CleanLink;
use crate::link::{Link, LinkFailed};
use cs_base::Addr;
use cs_log::Calls;
use std::alloc::{AllocError, Global};

/// A link that fails at the calls that it is told to.
#[derive(Debug, Drop)]
pub struct MemLink {
    link: CleanLink,
    calls: Calls,
}

impl MemLink {
    /// A link that sent nothing, at which nothing waits, and which is told to fail at no call.
    pub fn new(alloc: Global) -> Self
        ensures sent { ⟦<MemLink as Link>⟧.sent result ≡ Some [] }
        ensures waiting { ⟦<MemLink as Link>⟧.waiting result ≡ Some [] }
        ensures faults { ⟦<MemLink as Link>⟧.faults result ≡ 0 }
        ensures taken { ⟦<MemLink as Link>⟧.taken result ≡ 0 }
        ensures dry { ⟦<MemLink as Link>⟧.dry result ≡ 0 }
        ensures failing { result.calls.failing.items ≡ [] }
        ensures count { result.calls.count ≡ 0 }
    {
        MemLink {
            link: CleanLink::new(alloc),
            calls: Calls::new(alloc),
        }
    }

    /// Makes the call of this number fail. The calls that may fail are counted from 1: `send` and `recv`.
    pub fn fail(&mut self, call: u64) -> Result<(), AllocError>
        ensures ok { OnOk result (self.new.calls.failing.items ≡ self.old.calls.failing.items ++ call ∷ []) }
        ensures err { OnErr result (self.new.calls.failing.items ≡ self.old.calls.failing.items) }
        ensures count { self.new.calls.count ≡ self.old.calls.count }
        ensures faults { ⟦<MemLink as Link>⟧.faults self.new ≡ ⟦<MemLink as Link>⟧.faults self.old }
        ensures link { self.new.link ≡ self.old.link }
    {
        self.calls.fail(call)
    }

    /// Puts a datagram behind those that wait.
    pub fn arrive(&mut self, bytes: &[u8]) -> Result<(), AllocError>
        requires { IsSmall bytes.now }
        ensures ok { OnOk result
            (⟦<MemLink as Link>⟧.waiting self.new ≡ arrived bytes.now (⟦<MemLink as Link>⟧.waiting self.old)) }
        ensures err { OnErr result (⟦<MemLink as Link>⟧.waiting self.new ≡ ⟦<MemLink as Link>⟧.waiting self.old) }
        ensures sent { ⟦<MemLink as Link>⟧.sent self.new ≡ ⟦<MemLink as Link>⟧.sent self.old }
        ensures spare { ⟦<MemLink as Link>⟧.spare self.new ≡ ⟦<MemLink as Link>⟧.spare self.old }
        ensures taken { ⟦<MemLink as Link>⟧.taken self.new ≡ ⟦<MemLink as Link>⟧.taken self.old }
        ensures dry { ⟦<MemLink as Link>⟧.dry self.new ≡ ⟦<MemLink as Link>⟧.dry self.old }
        ensures calls { self.new.calls ≡ self.old.calls }
    {
        self.link.arrive(bytes)
    }

    /// The datagram of this number that was sent, from 0, and where to.
    pub fn sent(&self, i: usize) -> Option<(Addr, &[u8])>
        ensures { Some (option_map (λ sent. (sent.0, sent.1.now)) result)
            ≡ option_map (λ sent. slice_get sent i) (⟦<MemLink as Link>⟧.sent self.now) }
    {
        self.link.sent(i)
    }

    /// How often a call failed.
    pub fn faults(&self) -> u64
        ensures { result ≡ ⟦<MemLink as Link>⟧.faults self.now }
    {
        self.calls.faults()
    }

    /// How many datagrams were received.
    pub fn taken(&self) -> u64
        ensures { result ≡ ⟦<MemLink as Link>⟧.taken self.now }
    {
        self.link.taken()
    }

    /// How often nothing was waiting.
    pub fn dry(&self) -> u64
        ensures { result ≡ ⟦<MemLink as Link>⟧.dry self.now }
    {
        self.link.dry()
    }
}

impl Link for MemLink {
    ghost use Rattle.cs_link.specs.Sent.{datagrams, room_of};

    ghost sent = { λ link. Some (datagrams link.link.outbox.posts.items link.link.outbox.room.items) };

    ghost waiting = { λ link. Some link.link.inbox.waiting.items };

    ghost spare = { λ link. room_of link.link.outbox.posts link.link.outbox.room };

    ghost faults = { λ link. link.calls.faults };

    ghost taken = { λ link. link.link.inbox.taken };

    ghost dry = { λ link. link.link.inbox.dry };

    fn ready(&mut self, pieces: u32, bytes: u64) -> Result<(), AllocError> {
        self.link.ready(pieces, bytes)
    }

    fn send(&mut self, to: Addr, bytes: &[u8]) -> Result<(), LinkFailed> {
        if self.calls.fails() {
            return Err(LinkFailed);
        }
        self.link.send(to, bytes)
    }

    fn recv(&mut self, buf: &mut [u8]) -> Result<Option<usize>, LinkFailed> {
        if self.calls.fails() {
            return Err(LinkFailed);
        }
        self.link.recv(buf)
    }
}
