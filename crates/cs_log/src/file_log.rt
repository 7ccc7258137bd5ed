//! A log in a file, which doesn't tell what the file has.

ghost use Rattle.std.specs.Prelude.{◌≡◌, ◌-◌, ◌^◌, ◌≤◌, None, IsErr, IsTrue, OnOk, OnErr, true, false};
ghost use Rattle.cs_log.specs.Faults.{HasRisen};

use crate::{Log, LogFailed, ReadAllFault};
use cs_piece::Piece;
use std::alloc::{AllocError, Global};
use std::fs::File;
use std::io;
use std::io::{ErrorKind, Read, Seek, SeekFrom, Write};

/// An open file as a log: its bytes are those of the file. It doesn't tell them, nor that any of them is synced, since
/// no contract can say what a disk gives back.
///
/// The file was opened for reading and for writing, and nobody else writes to it. That it is found by its name after a
/// crash is for whoever made it to see to.
#[derive(Debug, Drop)]
pub struct FileLog {
    alloc: Global,
    file: File,
    sync_failed: bool,
    faults: u64,
}

impl FileLog {
    /// A log with what the file has.
    pub fn new(alloc: Global, file: File) -> Self
        ensures bytes { ⟦<FileLog as Log>⟧.bytes result ≡ None }
        ensures synced { ⟦<FileLog as Log>⟧.synced result ≡ 0 }
        ensures faults { ⟦<FileLog as Log>⟧.faults result ≡ 0 }
        ensures file { result.file ≡ file }
        ensures sync_failed { result.sync_failed ≡ false }
    {
        FileLog {
            alloc,
            file,
            sync_failed: false,
            faults: 0,
        }
    }

    /// How often a call failed.
    pub fn faults(&self) -> u64
        ensures { result ≡ ⟦<FileLog as Log>⟧.faults self.now }
    {
        self.faults
    }
}

// Counts a call that failed.
fn failed(faults: &mut u64) -> LogFailed
    ensures counts { faults.old ≤ faults.new }
    ensures risen { HasRisen faults.old faults.new }
{
    *faults = faults.saturating_add(1);
    LogFailed
}

// Writes the piece behind all bytes. Where that fails, a front of the piece may be there.
fn write_last(file: &mut File, piece: &[u8]) -> io::Result<()> {
    file.seek(SeekFrom::End(0))?;
    file.write_all(piece)
}

// Leaves the first so many bytes, or all where there are no more.
fn leave(file: &mut File, len: u64) -> io::Result<()> {
    if len < file.seek(SeekFrom::End(0))? {
        file.set_len(len)?;
    }
    Ok(())
}

// All bytes.
fn read_from_start(alloc: Global, file: &mut File) -> io::Result<Piece> {
    let mut bytes = Vec::new(alloc);
    file.seek(SeekFrom::Start(0))?;
    file.read_to_end(&mut bytes)?;
    Ok(Piece::from_vec(bytes))
}

impl Log for FileLog {
    ghost bytes = { λ log. None };

    ghost synced = { λ log. 0 };

    ghost spare = { λ log. 2 ^ 64 - 1 };

    ghost faults = { λ log. log.faults };

    ghost own_faults = { λ log. log.faults };

    ghost within = { λ log. tt };

    // A write takes no memory.
    fn ready(&mut self, _n: u64) -> Result<(), AllocError> {
        Ok(())
    }

    fn append(&mut self, piece: &[u8]) -> Result<(), LogFailed> {
        if write_last(&mut self.file, piece).is_err() {
            return Err(failed(&mut self.faults));
        }
        Ok(())
    }

    // Where a sync fails, the system may drop what it was to write, and let the next one succeed. So none does.
    fn sync(&mut self) -> Result<(), LogFailed>
        ensures ok { OnOk result (self.new ≡ self.old) }
        ensures err { OnErr result
            (self.new ≡ record self.old { sync_failed = true; faults = self.new.faults }) }
        ensures again { IsTrue self.old.sync_failed → IsErr result }
        ensures counts { self.old.faults ≤ self.new.faults }
        ensures risen { OnErr result (HasRisen self.old.faults self.new.faults) }
    {
        if self.sync_failed || self.file.sync_all().is_err() {
            self.sync_failed = true;
            return Err(failed(&mut self.faults));
        }
        Ok(())
    }

    fn cut(&mut self, len: u64) -> Result<(), LogFailed> {
        if leave(&mut self.file, len).is_err() {
            return Err(failed(&mut self.faults));
        }
        Ok(())
    }

    fn read_all(&mut self) -> Result<Piece, ReadAllFault> {
        match read_from_start(self.alloc, &mut self.file) {
            Ok(all) => Ok(all),
            Err(e) if e.kind() == ErrorKind::OutOfMemory => Err(ReadAllFault::Memory),
            Err(_) => {
                failed(&mut self.faults);
                Err(ReadAllFault::Failed)
            }
        }
    }
}
