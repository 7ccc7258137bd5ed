//! What is written: a line of the schedule again, the line of a fault, and all of a text into a sink.

ghost use Rattle.std.specs.Prelude.{◌≡◌, ◌≤◌, IfOk, IfErr, OnOk, OnErr};
ghost use Rattle.std.specs.String.{string_bytes};
ghost use Rattle.census.specs.Run.{WritesFront};
ghost use Rattle.cs_log.specs.Faults.{HasRisen};
ghost use Rattle.census.specs.Streams.{Appends};
ghost use Rattle.census.specs.Transcript.{AtFault, echo, end_text};

use crate::sink::Sink;
use crate::status::Status;
use cs_script::LineFault;
use std::alloc::{AllocError, Global};
use std::fmt::Write;

/// The line as it is said again.
pub fn line_text(alloc: Global, line: &[u8]) -> Result<Vec<u8>, AllocError>
    ensures { IfOk result (λ text. text.items ≡ echo line.now) }
{
    let mut text = Vec::from_slice(alloc, b"> ")?;
    text.extend_from_slice(line)?;
    text.push(b'\n')?;
    Ok(text)
}

/// The line of a fault, with the number of the line that has it.
pub fn fault_line(alloc: Global, number: usize, fault: LineFault) -> Result<String, AllocError>
    ensures { IfOk result (λ text. string_bytes text ≡ end_text (AtFault number fault)) }
{
    let kind = match fault {
        LineFault::Word => "word",
        LineFault::Count => "count",
        LineFault::Number => "number",
        LineFault::Point => "point",
        LineFault::Address => "address",
        LineFault::Bytes => "bytes",
        LineFault::Memory => "",
    };
    let mut text = String::new(alloc);
    writeln!(text, "fault {number} {kind}")?;
    Ok(text)
}

/// Writes all of a text.
pub fn write_all<K: Sink>(sink: &mut K, text: &[u8]) -> Result<(), Status>
    ensures ok { OnOk result (Appends (K.written sink.old) (K.written sink.new) text.now) }
    ensures front { OnErr result (WritesFront text.now (K.written sink.old) (K.written sink.new)) }
    ensures counts { K.faults sink.old ≤ K.faults sink.new }
    ensures stop { IfErr result
        (λ status. (status ≡ Status.Write) × HasRisen (K.faults sink.old) (K.faults sink.new)) }
{
    let mut rest = text;
    while !rest.is_empty() {
        let taken = sink.write(rest)?;
        rest = &rest[taken..];
    }
    Ok(())
}
