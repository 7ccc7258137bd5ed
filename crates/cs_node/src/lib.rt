//! One kind of answer and one kind of plan for all nodes, the leader and the others, and nodes that own a link and a
//! log.
//!
//! A `Node` is a member or a joining one (`Follower`), the leader, or one that left. What it decides at a call is an
//! `Effects`: the entry that it logs, then the packets that it sends, its answer, and what it is afterwards. Whoever
//! runs nodes carries out effects, and needn't know which kind of node they are of.
//!
//! ```text
//! let effects = Effects::from(follower.decide(&call)?);
//! if let Some(entry) = &effects.entry { .. }
//! for (addr, packet) in effects.sends.as_slice() { .. }
//! if let Some(next) = effects.after { .. }
//! ```
//!
//! `State` is a node with its link and its log: `Joining`, `Following`, `Leading`, `Left` or `Stopped`. `boot` and
//! `boot_leader` start one, and `recover` gives the state that a log gives. Each call hands the state over and gives
//! the next one with its answer, `After`: it takes all memory first, then logs and syncs, then sends. Whatever a crash
//! leaves of the log of a running one gives the node again.
//!
//! ```text
//! let node = boot(alloc, own, link, log)?;
//! let After { node, note } = node.join();
//! match node {
//!     State::Joining(node) => { .. }
//!     State::Stopped(Stopped { why: Why::Log, log, .. }) => { .. }
//!     ..
//! }
//! ```
//!
//! `Process` is a node with its link and its log in one place: bytes come to it there (`Process::deliver`), and for any
//! other call it gives the state and takes the next one.
#![tactic(auto)]

mod acting;
mod after;
mod appending;
mod arming;
#[cfg(test)]
mod base_tests;
mod booting;
#[cfg(test)]
mod call_tests;
mod calling;
mod deciding;
mod effects;
mod folding;
mod following;
mod joining;
mod leading;
mod left;
mod node;
mod note;
mod posting;
mod process;
#[cfg(test)]
mod process_tests;
mod receiving;
mod recovery;
#[cfg(test)]
mod recovery_tests;
mod state;
mod stopped;
#[cfg(test)]
mod tests;
#[cfg(test)]
mod untold_tests;

pub use after::After;
pub use booting::{boot, boot_leader};
pub use effects::Effects;
pub use following::Following;
pub use joining::Joining;
pub use leading::Leading;
pub use left::Left;
pub use node::Node;
pub use note::Note;
pub use process::Process;
pub use recovery::recover;
pub use state::State;
pub use stopped::{Stopped, Why};
