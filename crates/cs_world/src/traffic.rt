//! Every packet that was sent, what of it settling still delivers, and what was delivered.

ghost use Rattle.std.specs.Prelude.{◌≡◌, ◌+◌, ◌<◌, ◌≤◌, false, [], ◌∷◌, ◌++◌, length, slice_get};
ghost use Rattle.std.specs.Prelude.{Some, IfSome, OnOk, OnErr};
ghost use Rattle.std.specs.Option.{option_copied};
ghost use Rattle.cs_base.specs.Limits.{most_sent};
ghost use Rattle.cs_world.specs.Indexed.{IsIndexOf};
ghost use Rattle.cs_world.specs.Sending.{datagram_at, marked, noted};
ghost use Rattle.cs_world.specs.declared.datagram.Datagram.{Datagram};
ghost use Rattle.std.proofs.Props.{props};

use crate::datagram::Datagram;
use crate::index::Index;
use std::alloc::{AllocError, Global};

/// Every packet that was ever sent, in order, as bytes. Packets are numbered from 1.
#[derive(Drop)]
pub struct Traffic {
    pub alloc: Global,
    pub datagrams: Vec<Datagram>,
    /// The packets by hashes, where nodes receive.
    pub index: Option<Index>,
    /// The bytes of all of them.
    pub bytes: usize,
    /// What stands before this place is passed over by settling.
    pub front: usize,
    // No packet is empty.
    ghost full: { length datagrams.items ≤ bytes },
    ghost few: { bytes ≤ most_sent },
    ghost passed: { front ≤ length datagrams.items },
    ghost indexed: { IfSome index (IsIndexOf datagrams.items) } by { Prim.hlevel props },
}

impl Traffic {
    /// Nothing was sent.
    pub fn new(alloc: Global) -> Self
        ensures datagrams { result.datagrams.items ≡ [] }
        ensures bytes { result.bytes ≡ 0 }
        ensures front { result.front ≡ 0 }
    {
        Traffic {
            alloc,
            datagrams: Vec::new(alloc),
            index: None,
            bytes: 0,
            front: 0,
        }
    }

    /// Nothing was sent, and what will be is found by an index.
    pub fn indexed(alloc: Global) -> Self
        ensures datagrams { result.datagrams.items ≡ [] }
        ensures bytes { result.bytes ≡ 0 }
        ensures front { result.front ≡ 0 }
    {
        Traffic {
            alloc,
            datagrams: Vec::new(alloc),
            index: Some(Index::new(alloc)),
            bytes: 0,
            front: 0,
        }
    }

    /// How many packets were sent.
    pub fn len(&self) -> usize
        ensures count { result ≡ length self.now.datagrams.items }
        ensures few { result ≤ most_sent }
    {
        self.datagrams.len()
    }

    /// The packet with the number.
    pub fn get(&self, number: usize) -> Option<&Datagram>
        ensures { option_copied result ≡ datagram_at self.now.datagrams.items number }
    {
        if number == 0 {
            return None;
        }
        self.datagrams.get(number - 1)
    }

    /// Whether settling still delivers the packet at the place.
    pub fn is_open(&self, place: usize) -> bool
        requires { place < length self.now.datagrams.items }
        ensures { (datagram : Datagram) → slice_get self.now.datagrams.items place ≡ Some datagram
            → result ≡ datagram.is_open }
    {
        self.datagrams[place].is_open
    }

    /// Settling passes over the packet with the number, where there is one.
    pub fn pass_over(&mut self, number: usize)
        requires { 0 < number }
        ensures datagrams { self.new.datagrams.items ≡ marked number self.old.datagrams.items }
        ensures bytes { self.new.bytes ≡ self.old.bytes }
        ensures front { self.new.front ≡ self.old.front }
    {
        if let Some(datagram) = self.datagrams.get_mut(number - 1) {
            datagram.is_open = false;
        }
    }

    /// The packet with the number was delivered, where there is one.
    pub fn note_delivery(&mut self, number: usize)
        requires { 0 < number }
        ensures datagrams { self.new.datagrams.items ≡ noted number self.old.datagrams.items }
        ensures bytes { self.new.bytes ≡ self.old.bytes }
        ensures front { self.new.front ≡ self.old.front }
    {
        if let Some(datagram) = self.datagrams.get_mut(number - 1) {
            if let Some(index) = &mut self.index {
                index.note_delivery(datagram, number);
            }
            datagram.is_delivered = true;
        }
    }

    /// Keeps a datagram behind those that were sent before.
    pub fn push(&mut self, datagram: Datagram) -> Result<(), AllocError>
        requires some { 0 < length datagram.bytes }
        requires few { self.old.bytes + length datagram.bytes ≤ most_sent }
        requires fresh { datagram.is_delivered ≡ false }
        ensures datagrams { OnOk result (self.new.datagrams.items ≡ self.old.datagrams.items ++ datagram ∷ []) }
        ensures bytes { OnOk result (self.new.bytes ≡ self.old.bytes + length datagram.bytes) }
        ensures front { self.new.front ≡ self.old.front }
        ensures err { OnErr result (self.new.datagrams.items ≡ self.old.datagrams.items) }
    {
        self.datagrams.reserve(1)?;
        if let Some(index) = &mut self.index {
            index.push(&datagram, self.datagrams.len() + 1)?;
        }
        self.bytes += datagram.bytes.len();
        self.datagrams.push_reserved(datagram);
        Ok(())
    }
}
