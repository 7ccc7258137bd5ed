//! Which of the sent packets some bytes are.

ghost use Rattle.std.specs.Prelude.{◌≡◌, ◌&&◌, Bool, not, false, IfSome};
ghost use Rattle.std.specs.Option.{option_map_or, option_or};
ghost use Rattle.cs_base.specs.Limits.{most_sent};
ghost use Rattle.cs_base.specs.Ranges.{IsFromTo};
ghost use Rattle.cs_world.specs.Indexed.{AreHashed};
ghost use Rattle.cs_world.specs.Sending.{datagram_at, is_for, least_with};
ghost use Rattle.cs_world.specs.declared.datagram.Datagram.{Datagram};

use crate::index::{Hashed, hash};
use crate::traffic::Traffic;
use cs_base::Addr;
use std::collections::BTreeSet;

impl Traffic {
    /// The number of the packet with this address and these bytes: the least that wasn't delivered yet, and the least
    /// of all where each was.
    pub fn number_for(&self, addr: Addr, bytes: &[u8]) -> Option<usize>
        ensures least { result ≡ option_or
            (least_with (λ datagram. is_for addr bytes.now datagram && not datagram.is_delivered)
            self.now.datagrams.items)
            (least_with (is_for addr bytes.now) self.now.datagrams.items) }
        ensures few { IfSome result (IsFromTo 1 most_sent) }
    {
        let fresh = self.least_fresh(addr, bytes);
        if fresh.is_some() {
            return fresh;
        }
        self.least(addr, bytes)
    }

    // The least number of a packet with this address and these bytes that wasn't delivered yet.
    fn least_fresh(&self, addr: Addr, bytes: &[u8]) -> Option<usize>
        ensures { result ≡ least_with (λ datagram. is_for addr bytes.now datagram && not datagram.is_delivered)
            self.now.datagrams.items }
    {
        let Some(index) = &self.index else {
            let place = self
                .datagrams
                .iter()
                .position(|datagram| datagram.is_fresh_for(addr, bytes))?;
            return Some(place + 1);
        };
        self.least_in(&index.fresh, addr, bytes)
    }

    // The least number of a packet with this address and these bytes.
    fn least(&self, addr: Addr, bytes: &[u8]) -> Option<usize>
        ensures { result ≡ least_with (is_for addr bytes.now) self.now.datagrams.items }
    {
        let Some(index) = &self.index else {
            let place = self
                .datagrams
                .iter()
                .position(|datagram| datagram.is_for(addr, bytes))?;
            return Some(place + 1);
        };
        self.least_in(&index.all, addr, bytes)
    }

    // The least number in the set whose packet has this address and these bytes.
    fn least_in(&self, set: &BTreeSet<Hashed>, addr: Addr, bytes: &[u8]) -> Option<usize>
        ensures { (test : Datagram → Bool) → AreHashed test self.now.datagrams.items set.now
            → result ≡ least_with (λ datagram. is_for addr bytes.now datagram && test datagram)
            self.now.datagrams.items }
    {
        let hash = hash(addr, bytes);
        let first = Hashed { hash, number: 0 };
        let last = Hashed {
            hash,
            number: usize::MAX,
        };
        for hashed in set.range(first..=last) {
            if self.is_for(hashed.number, addr, bytes) {
                return Some(hashed.number);
            }
        }
        None
    }

    // Whether there is a packet with the number that has this address and these bytes.
    fn is_for(&self, number: usize, addr: Addr, bytes: &[u8]) -> bool
        ensures { result ≡ option_map_or (is_for addr bytes.now) (datagram_at self.now.datagrams.items number) false }
    {
        self.get(number)
            .is_some_and(|datagram| datagram.is_for(addr, bytes))
    }
}
