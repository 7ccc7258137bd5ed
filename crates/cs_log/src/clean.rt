ghost use Rattle.std.specs.Prelude.{◌≡◌, ◌-◌, ◌≤◌, Some, [], length, vec_len, vec_capacity, IfOk};

use crate::{Log, LogFailed, ReadAllFault};
use cs_piece::Piece;
use std::alloc::{AllocError, Global};

/// A log in memory that never fails.
#[derive(Debug, Drop)]
pub struct CleanLog {
    bytes: Vec<u8>,
    synced: usize,
    ghost within: { synced ≤ length bytes.items },
}

impl CleanLog {
    pub fn new(alloc: Global) -> Self
        ensures bytes { ⟦<CleanLog as Log>⟧.bytes result ≡ Some [] }
        ensures synced { ⟦<CleanLog as Log>⟧.synced result ≡ 0 }
    {
        CleanLog {
            bytes: Vec::new(alloc),
            synced: 0,
        }
    }

    /// A log with these bytes, all of them synced.
    pub fn from_slice(alloc: Global, bytes: &[u8]) -> Result<Self, AllocError>
        ensures bytes { IfOk result (λ log. ⟦<CleanLog as Log>⟧.bytes log ≡ Some bytes.now) }
        ensures synced { IfOk result (λ log. ⟦<CleanLog as Log>⟧.synced log ≡ length bytes.now) }
    {
        let bytes = Vec::from_slice(alloc, bytes)?;
        let synced = bytes.len();
        Ok(CleanLog { bytes, synced })
    }

    pub fn as_slice(&self) -> &[u8]
        ensures { ⟦<CleanLog as Log>⟧.bytes self.now ≡ Some result.now }
    {
        &self.bytes
    }

    /// The bytes, without a copy.
    pub fn into_piece(self) -> Piece
        ensures { ⟦<CleanLog as Log>⟧.bytes self ≡ Some result }
    {
        let CleanLog { bytes, synced: _ } = self;
        Piece::from_vec(bytes)
    }
}

impl Log for CleanLog {
    ghost bytes = { λ log. Some log.bytes.items };

    ghost synced = { λ log. log.synced };

    ghost spare = { λ log. vec_capacity log.bytes - vec_len log.bytes };

    ghost faults = { λ log. 0 };

    ghost own_faults = { λ log. 0 };

    ghost within = { λ log. log.within };

    fn ready(&mut self, n: u64) -> Result<(), AllocError> {
        self.bytes.reserve(n as usize)
    }

    fn append(&mut self, piece: &[u8]) -> Result<(), LogFailed> {
        self.bytes.extend_from_slice(piece).map_err(|_| LogFailed)
    }

    fn sync(&mut self) -> Result<(), LogFailed> {
        self.synced = self.bytes.len();
        Ok(())
    }

    fn cut(&mut self, len: u64) -> Result<(), LogFailed> {
        self.synced = self.synced.min(len as usize);
        self.bytes.truncate(len as usize);
        Ok(())
    }

    fn read_all(&mut self) -> Result<Piece, ReadAllFault> {
        Ok(Piece::from_slice(*self.bytes.allocator(), &self.bytes)?)
    }
}
