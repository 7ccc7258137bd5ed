//! The packets by hashes of their addresses and first bytes.

ghost use Rattle.std.specs.Prelude.{◌≡◌, ◌+◌, List, [], ◌∷◌, ◌++◌, false, length, Some, OnOk, OnErr};
ghost use Rattle.cs_world.specs.Indexed.{IsIndexOf, hash_behind, hash_for, next_hash};
ghost use Rattle.cs_world.specs.Sending.{datagram_at, noted};
ghost use Rattle.cs_world.specs.declared.datagram.Datagram.{Datagram as Packet};

use crate::datagram::Datagram;
use cs_base::Addr;
use std::alloc::{AllocError, Global};
use std::collections::BTreeSet;

/// The number of a packet, behind the hash of its address and first bytes. Packets are numbered from 1.
#[derive(Clone, Copy, Debug, PartialEq, Eq, PartialOrd, Ord)]
pub struct Hashed {
    pub hash: u64,
    pub number: usize,
}

/// All packets, and those that weren't delivered yet, by their hashes. Their bytes stand elsewhere: whoever finds a
/// hash compares them.
#[derive(Drop)]
pub struct Index {
    pub all: BTreeSet<Hashed>,
    pub fresh: BTreeSet<Hashed>,
}

impl Index {
    pub fn new(alloc: Global) -> Self
        ensures { IsIndexOf [] result }
    {
        Index {
            all: BTreeSet::new(alloc),
            fresh: BTreeSet::new(alloc),
        }
    }

    /// One more packet, with this number, was sent.
    pub fn push(&mut self, datagram: &Datagram, number: usize) -> Result<(), AllocError>
        requires { datagram.now.is_delivered ≡ false }
        ensures ok { (packets : List Packet) → IsIndexOf packets self.old → number ≡ length packets + 1
            → OnOk result (IsIndexOf (packets ++ datagram.now ∷ []) self.new) }
        ensures err { (packets : List Packet) → IsIndexOf packets self.old → number ≡ length packets + 1
            → OnErr result (IsIndexOf packets self.new) }
    {
        let hash = hash(datagram.addr, datagram.bytes.as_slice());
        let hashed = Hashed { hash, number };
        self.all.insert(hashed)?;
        match self.fresh.insert(hashed) {
            Ok(_) => Ok(()),
            Err(_) => {
                self.all.remove(&hashed);
                Err(AllocError)
            }
        }
    }

    /// The packet with this number was delivered.
    pub fn note_delivery(&mut self, datagram: &Datagram, number: usize)
        ensures { (packets : List Packet) → IsIndexOf packets self.old
            → datagram_at packets number ≡ Some datagram.now → IsIndexOf (noted number packets) self.new }
    {
        let hash = hash(datagram.addr, datagram.bytes.as_slice());
        self.fresh.remove(&Hashed { hash, number });
    }
}

// So many bytes of a packet are hashed. Those behind them seldom tell two packets to one node apart.
const MOST_HASHED: usize = 32;

/// The hash of an address and of the first bytes of a packet, by a linear congruential generator of 64 bits.
pub fn hash(addr: Addr, bytes: &[u8]) -> u64
    ensures { result ≡ hash_for addr bytes.now }
{
    let ip = addr.ip();
    let behind_ip = hash_of(0, &ip);
    let front = &bytes[..MOST_HASHED.min(bytes.len())];
    hash_of(next(behind_ip, addr.port()), front)
}

// The hash behind more bytes.
fn hash_of(before: u64, bytes: &[u8]) -> u64
    ensures { result ≡ hash_behind before bytes.now }
{
    let mut hash = before;
    for byte in bytes {
        hash = next(hash, u16::from(*byte));
    }
    hash
}

// The hash behind one more number.
fn next(hash: u64, number: u16) -> u64
    ensures { result ≡ next_hash hash number }
{
    hash.wrapping_mul(6_364_136_223_846_793_005)
        .wrapping_add(u64::from(number) + 1)
}
