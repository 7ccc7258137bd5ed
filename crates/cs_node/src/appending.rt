//! An entry comes into the log in one frame.

ghost use Rattle.std.specs.Prelude.{◌≡◌, ◌≤◌, length, IfOk, OnOk, OnErr};
ghost use Rattle.cs_packet.specs.EntryField.{IsEntry};
ghost use Rattle.cs_node.specs.Appending.{entry_frame, FailsToKeep, Keeps};
ghost use Rattle.cs_node.specs.Told.{log_told};

use cs_log::{Log, LogFailed};
use cs_packet::{Entry, encode_entry};
use std::alloc::{AllocError, Global};

// The length of an entry in four bytes, and the entry.
fn entry_frame(alloc: Global, entry: &Entry) -> Result<Vec<u8>, AllocError>
    requires { IsEntry entry.now }
    ensures { IfOk result (λ bytes. bytes.items ≡ entry_frame entry.now) }
{
    let payload = encode_entry(alloc, entry)?;
    let len = payload.len() as u32;
    let mut bytes = Vec::with_capacity(alloc, 4 + payload.len())?;
    bytes.extend_from_slice(&len.to_be_bytes())?;
    bytes.extend_from_slice(payload.as_slice())?;
    Ok(bytes)
}

/// The frame of an entry, with room for it in the log. Nothing else of the log changes.
pub(crate) fn framed_entry<G: Log>(
    alloc: Global,
    entry: &Entry,
    log: &mut G,
) -> Result<Vec<u8>, AllocError>
    requires { IsEntry entry.now }
    ensures frame { IfOk result (λ bytes. bytes.items ≡ entry_frame entry.now) }
    ensures room { IfOk result (λ bytes. length bytes.items ≤ G.spare log.new) }
    ensures same { log_told G.Log log.new ≡ log_told G.Log log.old }
{
    let bytes = entry_frame(alloc, entry)?;
    log.ready(bytes.len() as u64)?;
    Ok(bytes)
}

/// Appends a frame and syncs it.
pub(crate) fn keep<G: Log>(log: &mut G, frame: &[u8]) -> Result<(), LogFailed>
    requires { length frame.now ≤ G.spare log.old }
    ensures ok { OnOk result (Keeps frame.now (log_told G.Log log.old) (log_told G.Log log.new)) }
    ensures err { OnErr result (FailsToKeep frame.now (log_told G.Log log.old) (log_told G.Log log.new)) }
{
    log.append(frame)?;
    log.sync()
}
