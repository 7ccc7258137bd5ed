//! The lines of a schedule, both ways.
//!
//! A line is words of bytes with one space between two. `read_line` gives the event that a line says, or its first
//! fault; `specs/Rows` has each line's words, `specs/Kinds` what such a word may be, and `specs/Grammar` which fault
//! is the first. `print_event` gives the one line that says an event, by `specs/Spelling`: it is read as that event,
//! and no other line is.
//!
//! ```text
//! match read_line(alloc, b"deliver 3") {
//!     Ok(event) => print_event(alloc, &event)?    // the same line again
//!     Err(LineFault::Memory) => ..                // nothing is known of the line
//!     Err(fault) => ..                            // the line is outside the grammar
//! }
//! ```
#![tactic(auto)]

mod event;
mod fault;
mod limits;
mod line;
mod printing;
mod reading;
#[cfg(test)]
mod tests;
mod words;

pub use event::Event;
pub use fault::LineFault;
pub use limits::{MOST_NOISE, MOST_ROUNDS, MOST_SHOWN};
pub use line::Line;
pub use printing::print_event;
pub use reading::read_line;
