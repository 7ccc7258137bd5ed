//! Sources and sinks in memory, which tell all their bytes. One of each fails at the calls that it is told to;
//! the other never fails by itself.

ghost use Rattle.std.specs.Prelude.{◌≡◌, ◌≤◌, ◌<◌, ◌↔◌, Some, [], IsTrue, Contains, length, take, min, vec_len};
ghost use Rattle.cs_log.specs.Faults.{HasRisen};

use crate::sink::{Sink, WriteFailed};
use crate::source::{ReadFailed, Source};
use std::alloc::Global;

/// A source that never fails.
#[derive(Debug, Drop)]
pub struct CleanSource {
    bytes: Vec<u8>,
    at: usize,
    ghost within: { at ≤ vec_len bytes },
}

impl CleanSource {
    pub fn new(bytes: Vec<u8>) -> Self
        ensures { ⟦<CleanSource as Source>⟧.left result ≡ Some bytes.items }
    {
        CleanSource { bytes, at: 0 }
    }

    pub fn left(&self) -> &[u8]
        ensures { ⟦<CleanSource as Source>⟧.left self.now ≡ Some result.now }
    {
        &self.bytes[self.at..]
    }
}

impl Source for CleanSource {
    ghost use Rattle.std.specs.Prelude.{drop};

    ghost left = { λ source. Some (drop source.at source.bytes.items) };

    ghost faults = { λ source. 0 };

    fn read(&mut self, buf: &mut [u8]) -> Result<usize, ReadFailed> {
        let taken = copy_front(&self.bytes[self.at..], buf);
        self.at += taken;
        Ok(taken)
    }
}

// Copies as many bytes as there are and have room, and says how many.
fn copy_front(bytes: &[u8], buf: &mut [u8]) -> usize
    ensures count { result ≡ min (length bytes.now) (length buf.old) }
    ensures copied { take result buf.new ≡ take result bytes.now }
{
    let count = bytes.len().min(buf.len());
    buf[..count].copy_from_slice(&bytes[..count]);
    count
}

/// The calls of a source or a sink so far, numbered from 1, and the numbers of those that fail.
#[derive(Debug, Drop)]
struct Calls {
    count: u64,
    failing: Vec<u64>,
    faults: u64,
}

impl Calls {
    fn new(failing: Vec<u64>) -> Self {
        Calls {
            count: 0,
            failing,
            faults: 0,
        }
    }

    // Counts a call, and says whether it fails.
    fn fails(&mut self) -> bool
        ensures failing { self.new.failing.items ≡ self.old.failing.items }
        ensures fails { IsTrue result ↔ Contains self.old.failing.items self.new.count }
        ensures counts { self.old.faults ≤ self.new.faults }
        ensures risen { IsTrue result → HasRisen self.old.faults self.new.faults }
    {
        self.count = self.count.saturating_add(1);
        let fails = self.failing.contains(&self.count);
        if fails {
            self.faults = self.faults.saturating_add(1);
        }
        fails
    }
}

/// A source that gives at most so many bytes a call, and fails at some calls.
#[derive(Debug, Drop)]
pub struct MemSource {
    bytes: CleanSource,
    most: usize,
    calls: Calls,
    ghost some: { 0 < most },
}

impl MemSource {
    pub fn new(bytes: Vec<u8>, most: usize, failing: Vec<u64>) -> Self
        requires { 0 < most }
        ensures { ⟦<MemSource as Source>⟧.left result ≡ Some bytes.items }
    {
        MemSource {
            bytes: CleanSource::new(bytes),
            most,
            calls: Calls::new(failing),
        }
    }
}

impl Source for MemSource {
    ghost use Rattle.std.specs.Prelude.{drop};

    ghost left = { λ source. Some (drop source.bytes.at source.bytes.bytes.items) };

    ghost faults = { λ source. source.calls.faults };

    fn read(&mut self, buf: &mut [u8]) -> Result<usize, ReadFailed> {
        if self.calls.fails() {
            return Err(ReadFailed);
        }
        let room = buf.len().min(self.most);
        self.bytes.read(&mut buf[..room])
    }
}

/// A sink that fails only for want of memory.
#[derive(Debug, Drop)]
pub struct CleanSink {
    written: Vec<u8>,
    faults: u64,
}

impl CleanSink {
    pub fn new(alloc: Global) -> Self
        ensures { ⟦<CleanSink as Sink>⟧.written result ≡ Some [] }
    {
        CleanSink {
            written: Vec::new(alloc),
            faults: 0,
        }
    }

    pub fn written(&self) -> &[u8]
        ensures { ⟦<CleanSink as Sink>⟧.written self.now ≡ Some result.now }
    {
        &self.written
    }
}

impl Sink for CleanSink {
    ghost written = { λ sink. Some sink.written.items };

    ghost faults = { λ sink. sink.faults };

    fn write(&mut self, piece: &[u8]) -> Result<usize, WriteFailed> {
        if self.written.extend_from_slice(piece).is_err() {
            self.faults = self.faults.saturating_add(1);
            return Err(WriteFailed);
        }
        Ok(piece.len())
    }
}

/// A sink that takes at most so many bytes a call, and fails at some calls and for want of memory.
#[derive(Debug, Drop)]
pub struct MemSink {
    bytes: CleanSink,
    most: usize,
    calls: Calls,
    ghost some: { 0 < most },
}

impl MemSink {
    pub fn new(alloc: Global, most: usize, failing: Vec<u64>) -> Self
        requires { 0 < most }
        ensures { ⟦<MemSink as Sink>⟧.written result ≡ Some [] }
    {
        MemSink {
            bytes: CleanSink::new(alloc),
            most,
            calls: Calls::new(failing),
        }
    }

    pub fn written(&self) -> &[u8]
        ensures { ⟦<MemSink as Sink>⟧.written self.now ≡ Some result.now }
    {
        self.bytes.written()
    }
}

impl Sink for MemSink {
    ghost use Rattle.std.specs.Prelude.{◌+◌};

    ghost written = { λ sink. Some sink.bytes.written.items };

    ghost faults = { λ sink. sink.bytes.faults + sink.calls.faults };

    fn write(&mut self, piece: &[u8]) -> Result<usize, WriteFailed> {
        if self.calls.fails() {
            return Err(WriteFailed);
        }
        self.bytes.write(&piece[..piece.len().min(self.most)])
    }
}
