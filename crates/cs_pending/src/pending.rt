ghost use Rattle.std.specs.Prelude.{◌≡◌, ◌≢◌, ◌≤◌, ◌<◌, ◌^◌, [], length, take, drop, IfOk, OnOk, OnErr, IsTrue, ◌↔◌};
ghost use Rattle.cs_base.specs.Ascending.{IsDistinctBy};
ghost use Rattle.cs_pending.specs.Counting.{all_offered, IsFrontOffered};
ghost use Rattle.cs_pending.specs.Pending.{after_offer, IsPending, key_of, offer_of};
ghost use Rattle.cs_pending.specs.declared.offer.Offer.TheVariants.{Memory, New};

use crate::{Counts, Offer};
use cs_base::{Change, Changes, MOST_PENDING};
use indexmap::IndexMap;
use std::alloc::{AllocError, Global};
use std::marker::Model;

/// Changes with distinct keys, in the order in which the keys came.
#[derive(Drop)]
pub struct Pending {
    table: IndexMap<u32, Change>,
}

impl Model for Pending {
    ghost use Rattle.std.specs.Prelude.{List};
    ghost use Rattle.indexmap.specs.IndexMap.{values};
    ghost use Rattle.cs_base.specs.declared.change.Change.{Change};
    ghost use Rattle.cs_pending.specs.Pending.{IsTable};

    ghost Value = { List Change };

    ghost view = { λ pending. values pending.table };

    ghost invariant = { λ pending. IsTable pending.table.entries };
}

// What no two pending changes have in common.
fn key_of(change: &Change) -> u32
    ensures { result ≡ key_of change.now }
{
    change.id().get()
}

impl Pending {
    pub fn new(alloc: Global) -> Self
        ensures { result ≡ [] }
    {
        Pending {
            table: IndexMap::new(alloc),
        }
    }

    pub fn len(&self) -> usize
        ensures value { result ≡ length self.now }
        ensures keeps { IsPending self.now }
    {
        self.table.len()
    }

    pub fn is_empty(&self) -> bool
        ensures { IsTrue result ↔ (self.now ≡ []) }
    {
        self.table.is_empty()
    }

    /// Offers a change. The time doesn't depend on how many are there: the key is looked up by its hash.
    pub fn offer(&mut self, change: Change) -> Offer
        ensures answer { result ≢ Memory → result ≡ offer_of self.old change }
        ensures memory { result ≡ Memory → offer_of self.old change ≡ New }
        ensures after { self.new ≡ after_offer result self.old change }
    {
        let offer = self.offer_to(&change);
        match offer {
            Offer::New | Offer::Replaced => match self.table.insert(key_of(&change), change) {
                Ok(_) => offer,
                Err(_) => Offer::Memory,
            },
            _ => offer,
        }
    }

    // What the change meets.
    fn offer_to(&self, change: &Change) -> Offer
        ensures { result ≡ offer_of self.now change.now }
    {
        match self.table.get(&key_of(change)) {
            Some(there) if there.rank() < change.rank() => Offer::Replaced,
            Some(_) => Offer::Weaker,
            None if self.table.len() < MOST_PENDING => Offer::New,
            None => Offer::Full,
        }
    }

    /// Offers changes in order, and counts what they met. Where there is no memory for one, those in front of it were
    /// offered, and it and those behind it were not.
    pub fn offer_all(&mut self, changes: &[Change]) -> Result<Counts, AllocError>
        requires { length changes.now < 2 ^ 32 }
        ensures answer { IfOk result (λ counts. counts ≡ (all_offered self.old changes.now).1) }
        ensures after { OnOk result (self.new ≡ (all_offered self.old changes.now).0) }
        ensures err { OnErr result (IsFrontOffered self.old changes.now self.new) }
    {
        let mut counts = Counts::new();
        for change in changes {
            counts.count(self.offer_one(*change)?);
        }
        Ok(counts)
    }

    // Offers a change, where there is memory for it.
    fn offer_one(&mut self, change: Change) -> Result<Offer, AllocError>
        ensures answer { IfOk result (λ offer. offer ≡ offer_of self.old change) }
        ensures after { OnOk result (self.new ≡ after_offer (offer_of self.old change) self.old change) }
        ensures err { OnErr result (self.new ≡ self.old) }
    {
        match self.offer(change) {
            Offer::Memory => Err(AllocError),
            offer => Ok(offer),
        }
    }

    /// Takes out the first `n` changes, or all where there are fewer. Each change is touched once: those are copied
    /// out, and the others go into a table of their own.
    pub fn take_front(&mut self, n: usize) -> Result<Changes, AllocError>
        ensures taken { IfOk result (λ changes. changes ≡ take n self.old) }
        ensures distinct { IfOk result (λ changes. IsDistinctBy key_of changes) }
        ensures rest { OnOk result (self.new ≡ drop n self.old) }
        ensures err { OnErr result (self.new ≡ self.old) }
    {
        let n = n.min(self.len());
        let front = self.front(n)?;
        self.table = self.table.split_off(n)?;
        Ok(front)
    }

    // The first n changes again.
    fn front(&self, n: usize) -> Result<Changes, AllocError>
        requires { n ≤ length self.now }
        ensures { IfOk result (λ front. front ≡ take n self.now) }
    {
        let mut front = Changes::new(*self.table.allocator());
        for i in 0..n {
            front.push(self.table[i])?;
        }
        Ok(front)
    }

    pub fn copy(&self) -> Result<Self, AllocError>
        ensures { IfOk result (λ copy. copy ≡ self.now) }
    {
        Ok(Pending {
            table: self.table.clone()?,
        })
    }
}
