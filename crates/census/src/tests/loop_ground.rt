//! A ground of tests whose links pass datagrams on to each other in memory. The links share a cell, and tell their
//! counts alone.

ghost use Rattle.std.specs.Prelude.{◌≡◌, [], IfOk};

use cs_base::{Addr, NodeId};
use cs_link::{CleanGround, CleanLink, Ground, GroundFault, Link, LinkFailed, MOST_DATAGRAM};
use cs_log::CleanLog;
use cs_piece::Piece;
use std::alloc::{AllocError, Global};
use std::cell::RefCell;
use std::rc::Rc;

/// The bytes of a datagram that no node sent.
pub const STRAY: &[u8] = b"stray";

/// How datagrams come from one link to another.
#[derive(Clone, Copy, Debug, PartialEq, Eq)]
pub enum Passing {
    Once,
    Twice,
    /// Behind the first one comes one that no node sent.
    Stray,
    /// The send of this number fails, from 1, whichever link it is of.
    Fails(u64),
    /// And so does the receiving of this number.
    FailsToReceive(u64),
}

/// A datagram on its way.
#[derive(Debug, Drop)]
struct Waiting {
    to: Addr,
    bytes: Piece,
}

/// What is on its way between all links, and how often one of them sent, and was asked for what came.
#[derive(Debug, Drop)]
struct Way {
    waiting: Vec<Waiting>,
    sends: u64,
    asked: u64,
}

impl Way {
    // One more datagram is on its way.
    fn put(&mut self, to: Addr, bytes: &[u8]) -> Result<(), AllocError> {
        let bytes = Piece::from_slice(*self.waiting.allocator(), bytes)?;
        self.waiting.push(Waiting { to, bytes })?;
        Ok(())
    }

    // A link sends, and this says whether it could.
    fn send(&mut self, passing: Passing, to: Addr, bytes: &[u8]) -> Result<bool, AllocError> {
        self.sends = self.sends.saturating_add(1);
        if passing == Passing::Fails(self.sends) {
            return Ok(false);
        }
        self.put(to, bytes)?;
        match passing {
            Passing::Twice => self.put(to, bytes)?,
            Passing::Stray if self.sends == 1 => self.put(to, STRAY)?,
            _ => {}
        }
        Ok(true)
    }

    // A link is asked for what came, and this says whether it can tell.
    fn ask(&mut self, passing: Passing) -> bool {
        self.asked = self.asked.saturating_add(1);
        passing != Passing::FailsToReceive(self.asked)
    }

    // The next datagram for an address.
    fn take(&mut self, to: Addr) -> Option<Piece> {
        let place = self.waiting.iter().position(|datagram| datagram.to == to)?;
        let Waiting { to: _, bytes } = self.waiting.remove(place);
        Some(bytes)
    }
}

/// A link that shares the way with all others of its ground.
#[derive(Drop)]
pub struct LoopLink {
    inner: CleanLink,
    way: Rc<RefCell<Way>>,
    addr: Addr,
    passing: Passing,
    faults: u64,
    taken: u64,
    dry: u64,
}

impl LoopLink {
    // Whether the datagram is on its way now.
    fn pass(&self, to: Addr, bytes: &[u8]) -> bool {
        match self.way.try_borrow_mut() {
            Ok(mut way) => way.send(self.passing, to, bytes).unwrap_or(false),
            Err(_) => false,
        }
    }

    // Whether it can tell what came.
    fn can_tell(&self) -> bool {
        match self.way.try_borrow_mut() {
            Ok(mut way) => way.ask(self.passing),
            Err(_) => false,
        }
    }

    // The next datagram that came.
    fn next(&self) -> Option<Piece> {
        let mut way = self.way.try_borrow_mut().ok()?;
        way.take(self.addr)
    }
}

impl Link for LoopLink {
    ghost use Rattle.std.specs.Prelude.{None};

    ghost sent = { λ _. None };

    ghost waiting = { λ _. None };

    ghost spare = { λ link. ⟦<CleanLink as Link>⟧.spare link.inner };

    ghost faults = { λ link. link.faults };

    ghost taken = { λ link. link.taken };

    ghost dry = { λ link. link.dry };

    fn ready(&mut self, pieces: u32, bytes: u64) -> Result<(), AllocError> {
        self.inner.ready(pieces, bytes)
    }

    fn send(&mut self, to: Addr, bytes: &[u8]) -> Result<(), LinkFailed> {
        if self.pass(to, bytes) {
            return Ok(());
        }
        self.faults = self.faults.saturating_add(1);
        Err(LinkFailed)
    }

    fn recv(&mut self, buf: &mut [u8]) -> Result<Option<usize>, LinkFailed> {
        if !self.can_tell() {
            self.faults = self.faults.saturating_add(1);
            return Err(LinkFailed);
        }
        let Some(bytes) = self.next() else {
            self.dry = self.dry.saturating_add(1);
            return Ok(None);
        };
        self.taken = self.taken.saturating_add(1);
        let size = bytes.len().min(MOST_DATAGRAM);
        buf[..size].copy_from_slice(&bytes.as_slice()[..size]);
        Ok(Some(size))
    }
}

/// Grants such links, and logs that never fail.
#[derive(Drop)]
pub struct LoopGround {
    kept: CleanGround,
    way: Rc<RefCell<Way>>,
    passing: Passing,
    link_faults: u64,
    pub taken: u64,
    pub dry: u64,
}

impl LoopGround {
    /// A ground that granted nothing.
    pub fn new(alloc: Global, passing: Passing) -> Result<Self, AllocError>
        ensures { IfOk result (λ field. ⟦<LoopGround as Ground>⟧.out field ≡ []) }
    {
        let way = Way {
            waiting: Vec::new(alloc),
            sends: 0,
            asked: 0,
        };
        Ok(LoopGround {
            kept: CleanGround::new(alloc),
            way: Rc::new(alloc, RefCell::new(way))?,
            passing,
            link_faults: 0,
            taken: 0,
            dry: 0,
        })
    }

    /// Whether the link and the log of this node were granted and not yet handed back.
    pub fn is_out(&self, id: NodeId) -> bool {
        self.kept.is_out(id)
    }
}

impl Ground for LoopGround {
    ghost use Rattle.std.specs.Prelude.{None};
    ghost use Rattle.std.proofs.Common.{refl};

    type Wire = LoopLink;

    type Store = CleanLog;

    ghost logs = { λ field. ⟦<CleanGround as Ground>⟧.logs field.kept };

    ghost traffic = { λ _. None };

    ghost out = { λ field. ⟦<CleanGround as Ground>⟧.out field.kept };

    ghost faults = { λ _. 0 };

    ghost link_faults = { λ field. field.link_faults };

    ghost log_faults = { λ _. 0 };

    ghost taken = { λ field. field.taken };

    ghost dry = { λ field. field.dry };

    ghost logs_tell = { λ field store told. refl };

    ghost links_tell = { λ field wire told. told };

    fn grant(&mut self, id: NodeId, addr: Addr) -> Result<(LoopLink, CleanLog), GroundFault> {
        let way = self.way.clone()?;
        let (inner, log) = self.kept.grant(id, addr)?;
        let link = LoopLink {
            inner,
            way,
            addr,
            passing: self.passing,
            faults: 0,
            taken: 0,
            dry: 0,
        };
        Ok((link, log))
    }

    fn keep(&mut self, id: NodeId, wire: LoopLink, store: CleanLog) {
        if wire.faults > 0 {
            self.link_faults = self.link_faults.saturating_add(1);
        }
        self.taken = self.taken.saturating_add(wire.taken);
        self.dry = self.dry.saturating_add(wire.dry);
        let LoopLink { inner, .. } = wire;
        self.kept.keep(id, inner, store);
    }
}
