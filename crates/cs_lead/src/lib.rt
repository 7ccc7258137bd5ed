//! The decisions of the leader, without a link and without a log: what it keeps, what it sends, what it answers and
//! what it becomes, for one call at a time.
//!
//! `Leader::start` gives the leader at epoch 0, alone in its group. `Leader::decide` plans a call and changes nothing;
//! whoever runs the leader keeps the entry of the plan in its log, then sends the packets, and goes on with the leader
//! in it. A close judges the first pending changes, and sends snapshots to joiners and the pieces of each region's
//! slice on their way. After a crash `Leader::resume` folds the entries of the log, one by one, into the leader that
//! goes on.
//!
//! ```text
//! let leader = Leader::start(alloc, me)?;
//! let plan = leader.decide(&LeadCall::Close)?;
//! if let Some(entry) = &plan.entry { .. }
//! for (addr, packet) in plan.sends.as_slice() { .. }
//! if let LeadOutcome::Next(next) = plan.after { .. }
//! ```
#![tactic(auto)]

mod answers;
mod close;
mod deliver;
mod laws;
mod leader;
mod packets;
mod plan;
mod plans;
mod resume;
#[cfg(test)]
mod tests;
mod wholes;

pub use laws::{
    a_log_gives_the_leader_again, all_that_resuming_reads_lasts, pieces_start_at_members,
    what_is_not_logged_is_as_it_was,
};
pub use leader::Leader;
pub use plan::{LeadCall, LeadNote, LeadOutcome, LeadPlan, LeadResumed};
