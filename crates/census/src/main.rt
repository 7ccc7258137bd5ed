//! `census replay` reads a schedule from standard input, runs a leader and nodes in memory, and writes the
//! transcript to standard output. `census node` does so with one node and the bytes that it receives. `census drill`
//! runs a generated schedule, and writes a summary. `census live` runs nodes by a plan, each of which receives what
//! comes to its link.
//!
//! `running::run` is the top call: its contract says that what was written is the transcript of the text under the
//! form, which `specs/` defines.
#![tactic(auto)]

mod command;
mod drilling;
mod form;
mod lines;
mod live_run;
#[cfg(test)]
mod memory;
mod output;
mod running;
mod sink;
mod source;
mod standard;
mod status;
mod summary;
mod system;
mod teller;
#[cfg(test)]
mod tests;
mod words;

use cs_link::{MemDesk, UdpGround};
use running::run;
use standard::{ReaderSource, WriterSink};
use status::Status;
use std::env;
use std::process::ExitCode;
use std::rt::Env;
use words::Words;

// The words behind the program's name.
fn words_of<R: Env + AllocGlobal>(rt: &R) -> Option<Words> {
    let mut words = Words::new(rt.alloc());
    for word in env::args(rt).ok()?.skip(1) {
        words.push(word.as_bytes()).ok()?;
    }
    Some(words)
}

fn main(rt: HostRuntime) -> ExitCode {
    let Some(words) = words_of(&rt) else {
        return Status::Memory.into();
    };
    let mut source = ReaderSource {
        reader: rt.stdin(),
        faults: 0,
    };
    let mut sink = WriterSink {
        writer: rt.stdout(),
        faults: 0,
    };
    let mut desk = MemDesk::new(rt.alloc());
    let mut field = UdpGround::new(&rt, rt.alloc());
    let status = run(
        rt.alloc(),
        &words,
        &mut source,
        &mut sink,
        &mut desk,
        &mut field,
    );
    if status == Status::Usage {
        let _ = eprintln!(rt; "usage: census replay | node | drill N SEED | live N PORT");
    }
    status.into()
}
