//! What a view becomes by the slices of a turn: the projection law, which ties the step of a view to the group.
//!
//! A view that lists all summaries of a group, and has the rolls of some of its regions, is the projection of the
//! group on these regions. `step_is_projected` says that the slices of a turn lead it to the projection of the next
//! group, `next_is_a_turn` that what `Group::next` makes is such a turn, and `projection_is_a_picture` that what a
//! node knows fits a datagram. `snapshots_are_taken` says that a member of one of these regions finds no fault with
//! such a view. The crate does nothing when it runs: who calls a function has its clauses.
#![tactic(auto)]

mod laws;
#[cfg(test)]
mod tests;

pub use laws::{next_is_a_turn, projection_is_a_picture, snapshots_are_taken, step_is_projected};
