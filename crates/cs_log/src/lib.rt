//! Logs: what a node keeps where a crash can't take it.
//!
//! A `Log` is bytes that are appended and synced. A crash leaves a front of them, with at least what was synced:
//! `MayBeLeft`. So an entry is acknowledged once it was appended and synced. `CleanLog` and `MemLog` are logs in
//! memory, `FileLog` is a file as a log, and `Arming` is any log that can be armed to tear.
//!
//! What is appended is frames, a length and so many bytes. `scan` finds the whole ones after a crash.
//!
//! ```text
//! log.ready(8)?;
//! log.append(b"\x00\x00\x00\x04seed")?;
//! log.sync()?;
//! let frames = scan(alloc, log.read_all()?.as_slice())?;
//! log.cut(frames.whole_len())?;
//! ```
#![tactic(auto)]

mod armed;
mod arming;
mod calls;
mod clean;
mod fault;
mod file_log;
mod frames;
mod laws;
mod log;
mod memory;
#[cfg(test)]
mod tests;

pub use armed::{Armed, Tear};
pub use arming::Arming;
pub use calls::Calls;
pub use clean::CleanLog;
pub use fault::{LogFailed, ReadAllFault};
pub use file_log::FileLog;
pub use frames::{Frames, scan};
pub use laws::{
    a_crash_leaves_whole_entries, a_part_of_a_frame_is_torn, frames_are_found,
    what_is_synced_is_left,
};
pub use log::Log;
pub use memory::MemLog;
