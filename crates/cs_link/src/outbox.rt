ghost use Rattle.std.specs.Prelude.{◌≡◌, ◌+◌, ◌≤◌, ℕ, List, [], ◌∷◌, ◌++◌, length, slice_get, IfOk, OnOk};
ghost use Rattle.std.specs.List.{AllByRecursion};
ghost use Rattle.std.specs.Option.{option_map};
ghost use Rattle.cs_link.specs.Room.{FallsAtMost, HasRoom};
ghost use Rattle.cs_link.specs.Sent.{IsStored, IsWithin, bytes_of, datagrams, room_of};
ghost use Rattle.std.proofs.Props.{props};

use crate::post::{Post, Stored};
use bytes::{Bytes, BytesMut};
use cs_base::Addr;
use std::alloc::{AllocError, Global};

// A block has room for at least so many bytes, so that small datagrams have one in common.
const LEAST_BLOCK: usize = 512;

/// The datagrams that were sent: a post for each, and the room that the bytes of the next ones come to. What was sent
/// never moves in memory, and whoever asks for its bytes shares them.
#[derive(Debug, Drop)]
pub(crate) struct Outbox {
    pub alloc: Global,
    pub posts: Vec<Post>,
    pub room: BytesMut,
    ghost within: { AllByRecursion (IsWithin room.items) posts.items } by { Prim.hlevel props },
}

impl Outbox {
    pub fn new(alloc: Global) -> Self
        ensures { datagrams result.posts.items result.room.items ≡ [] }
    {
        Outbox {
            alloc,
            posts: Vec::new(alloc),
            room: BytesMut::new(alloc),
        }
    }

    /// Makes room for so many datagrams, and for so many bytes of them together.
    pub fn ready(&mut self, pieces: usize, bytes: usize) -> Result<(), AllocError>
        ensures ok { OnOk result (HasRoom pieces bytes (room_of self.new.posts self.new.room)) }
        ensures room_stays { FallsAtMost 0 0
            (room_of self.old.posts self.old.room) (room_of self.new.posts self.new.room) }
        ensures sent { datagrams self.new.posts.items self.new.room.items
            ≡ datagrams self.old.posts.items self.old.room.items }
    {
        self.posts.reserve(pieces)?;
        if self.room.is_empty() && self.room.capacity() < bytes {
            self.room = BytesMut::with_capacity(self.alloc, bytes.max(LEAST_BLOCK))?;
        }
        self.room.reserve(bytes)
    }

    /// Adds a datagram, for which there is room.
    pub fn put(&mut self, to: Addr, bytes: &[u8])
        requires { HasRoom 1 (length bytes.now) (room_of self.old.posts self.old.room) }
        ensures sent { datagrams self.new.posts.items self.new.room.items
            ≡ datagrams self.old.posts.items self.old.room.items ++ (to, bytes.now) ∷ [] }
        ensures room { FallsAtMost 1 (length bytes.now)
            (room_of self.old.posts self.old.room) (room_of self.new.posts self.new.room) }
    {
        let bytes = store(&mut self.room, bytes);
        self.posts.push_reserved(Post { to, bytes });
    }

    /// The datagram of this number, from 0, and where to it was sent.
    pub fn get(&self, i: usize) -> Option<(Addr, &[u8])>
        ensures { option_map (λ sent. (sent.0, sent.1.now)) result
            ≡ slice_get (datagrams self.now.posts.items self.now.room.items) i }
    {
        let post = self.posts.get(i)?;
        Some((post.to, self.bytes_of(&post.bytes)))
    }

    /// The datagram of this number, from 0, with its bytes shared, and where to it was sent.
    pub fn share(&self, i: usize) -> Result<Option<(Addr, Bytes)>, AllocError>
        ensures { IfOk result (λ sent. sent
            ≡ slice_get (datagrams self.now.posts.items self.now.room.items) i) }
    {
        let Some(post) = self.posts.get(i) else {
            return Ok(None);
        };
        let bytes = match &post.bytes {
            Stored::Shared(bytes) => bytes.clone()?,
            stored => Bytes::copy_from_slice(self.alloc, self.bytes_of(stored))?,
        };
        Ok(Some((post.to, bytes)))
    }

    // The bytes that are stored so.
    fn bytes_of<'a>(&'a self, stored: &'a Stored) -> &'a [u8]
        requires { IsStored self.now.room.items stored.now }
        ensures { result.now ≡ bytes_of self.now.room.items stored.now }
    {
        match stored {
            Stored::Shared(bytes) => bytes.as_slice(),
            Stored::InRoom { start, end } => &self.room.as_slice()[*start..*end],
        }
    }
}

// Stores bytes in the room, and shares them. Where nobody can count who shares them, for want of memory, they stay in
// the room, and so do those behind them.
fn store(room: &mut BytesMut, bytes: &[u8]) -> Stored
    requires { length bytes.now ≤ room.old.spare }
    ensures bytes { bytes_of room.new.items result ≡ bytes.now }
    ensures stored { IsStored room.new.items result }
    ensures behind { (more : List ℕ) × (room.new.items ≡ room.old.items ++ more) }
    ensures spare { room.old.spare ≤ room.new.spare + length bytes.now }
{
    let start = room.len();
    room.extend_reserved(bytes);
    if start == 0 {
        if let Ok(shared) = room.freeze_to(bytes.len()) {
            return Stored::Shared(shared);
        }
    }
    let end = room.len();
    Stored::InRoom { start, end }
}
