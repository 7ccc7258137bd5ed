ghost use Rattle.std.specs.Prelude.{◌≡◌, ◌-◌, Some, [], ◌∷◌, ◌++◌, length, vec_len, vec_capacity, IfOk, OnOk, OnErr};

use crate::{Calls, CleanLog, Log, LogFailed, ReadAllFault};
use cs_piece::Piece;
use std::alloc::{AllocError, Global};

/// A log in memory that fails at the calls that it is told to. An append that fails leaves the first half of its
/// piece.
#[derive(Debug, Drop)]
pub struct MemLog {
    log: CleanLog,
    calls: Calls,
}

impl MemLog {
    pub fn new(alloc: Global) -> Self
        ensures bytes { ⟦<MemLog as Log>⟧.bytes result ≡ Some [] }
        ensures synced { ⟦<MemLog as Log>⟧.synced result ≡ 0 }
        ensures faults { ⟦<MemLog as Log>⟧.faults result ≡ 0 }
        ensures failing { result.calls.failing.items ≡ [] }
        ensures count { result.calls.count ≡ 0 }
    {
        MemLog {
            log: CleanLog::new(alloc),
            calls: Calls::new(alloc),
        }
    }

    /// A log with these bytes, all of them synced.
    pub fn from_slice(alloc: Global, bytes: &[u8]) -> Result<Self, AllocError>
        ensures bytes { IfOk result (λ log. ⟦<MemLog as Log>⟧.bytes log ≡ Some bytes.now) }
        ensures synced { IfOk result (λ log. ⟦<MemLog as Log>⟧.synced log ≡ length bytes.now) }
        ensures faults { IfOk result (λ log. ⟦<MemLog as Log>⟧.faults log ≡ 0) }
        ensures failing { IfOk result (λ log. log.calls.failing.items ≡ []) }
        ensures count { IfOk result (λ log. log.calls.count ≡ 0) }
    {
        Ok(MemLog {
            log: CleanLog::from_slice(alloc, bytes)?,
            calls: Calls::new(alloc),
        })
    }

    /// Makes the call of this number fail. The calls that may fail are counted from 1: `append`, `sync`, `cut`
    /// and `read_all`.
    pub fn fail(&mut self, call: u64) -> Result<(), AllocError>
        ensures ok { OnOk result (self.new.calls.failing.items ≡ self.old.calls.failing.items ++ call ∷ []) }
        ensures err { OnErr result (self.new.calls.failing.items ≡ self.old.calls.failing.items) }
        ensures count { self.new.calls.count ≡ self.old.calls.count }
        ensures faults { self.new.calls.faults ≡ self.old.calls.faults }
        ensures log { self.new.log ≡ self.old.log }
    {
        self.calls.fail(call)
    }

    pub fn as_slice(&self) -> &[u8]
        ensures { ⟦<MemLog as Log>⟧.bytes self.now ≡ Some result.now }
    {
        self.log.as_slice()
    }

    /// The bytes, without a copy.
    pub fn into_piece(self) -> Piece
        ensures { ⟦<MemLog as Log>⟧.bytes self ≡ Some result }
    {
        let MemLog { log, calls: _ } = self;
        log.into_piece()
    }

    /// How often a call failed.
    pub fn faults(&self) -> u64
        ensures { result ≡ ⟦<MemLog as Log>⟧.faults self.now }
    {
        self.calls.faults()
    }
}

impl Log for MemLog {
    ghost bytes = { λ log. Some log.log.bytes.items };

    ghost synced = { λ log. log.log.synced };

    ghost spare = { λ log. vec_capacity log.log.bytes - vec_len log.log.bytes };

    ghost faults = { λ log. log.calls.faults };

    ghost own_faults = { λ log. log.calls.faults };

    ghost within = { λ log. log.log.within };

    fn ready(&mut self, n: u64) -> Result<(), AllocError> {
        self.log.ready(n)
    }

    fn append(&mut self, piece: &[u8]) -> Result<(), LogFailed> {
        if self.calls.fails() {
            self.log.append(&piece[..piece.len() / 2])?;
            return Err(LogFailed);
        }
        self.log.append(piece)
    }

    fn sync(&mut self) -> Result<(), LogFailed> {
        if self.calls.fails() {
            return Err(LogFailed);
        }
        self.log.sync()
    }

    fn cut(&mut self, len: u64) -> Result<(), LogFailed> {
        if self.calls.fails() {
            return Err(LogFailed);
        }
        self.log.cut(len)
    }

    fn read_all(&mut self) -> Result<Piece, ReadAllFault> {
        if self.calls.fails() {
            return Err(ReadAllFault::Failed);
        }
        self.log.read_all()
    }
}
