//! The decisions of a node that isn't the leader, without a link and without a log: what it keeps, what it sends, what
//! it answers and what it becomes, for one call at a time.
//!
//! `Follower::start` gives a node that is joining. `Follower::decide` plans a call and changes nothing; whoever runs
//! the node keeps the entry of the plan in its log, then sends the packets, and goes on with the node in it. To a node
//! come bytes: it reads them itself, and answers bytes that are no packet by their first fault. After a crash
//! `Follower::resume` folds the entries of the log, one by one, into the node that goes on.
//!
//! Nodes of one process may have a `ViewPool` in common (`Follower::sharing`): those that come to the same view go by
//! one, with the trees that the first of them built. No answer depends on it.
//!
//! ```text
//! let node = Follower::start(alloc, own);
//! let plan = node.decide(&Call::Deliver { bytes: &bytes })?;
//! if let Some(entry) = &plan.entry { .. }
//! for (addr, packet) in plan.sends.as_slice() { .. }
//! if let Outcome::Next(next) = plan.after { .. }
//! ```
#![tactic(auto)]

mod asking;
mod changes;
mod deliver;
mod follower;
mod following;
mod gain;
mod heads;
mod holding;
mod known;
mod laws;
mod past;
mod pieces;
mod plan;
mod plans;
mod pool;
mod refusal;
mod resume;
mod sending;
mod snapshots;
mod steps;
mod taking;
#[cfg(test)]
mod tests;

pub use follower::Follower;
pub use laws::{
    a_log_gives_the_node_again, all_that_resuming_reads_lasts, what_is_not_logged_is_as_it_was,
    whole_slices_are_used,
};
pub use plan::{Call, FollowNote, Outcome, Plan, Resumed, Unfit};
pub use pool::ViewPool;
