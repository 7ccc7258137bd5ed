//! The group over many regions: who is a member, in which region, and what becomes of it at the end of an epoch.
//!
//! A `Group` is always sound: it passes all checks of `from_rows`. `judge` gives the verdict on one change, and
//! `next` the group of the next epoch, with what led to it: the verdicts, the item, the merge and the cut. It leaves
//! the group as it was, and the two groups share what is the same in both. The other calls look things up.
//!
//! ```text
//! let group = Group::first(alloc, leader)?;
//! let turn = group.next(&changes)?;
//! if let Some((gone, into)) = turn.merged { .. }
//! let group = turn.group;
//! ```
#![tactic(auto)]

mod checks;
mod cut;
mod group;
mod kept;
mod laws;
mod member_region;
mod merge;
mod next;
mod place;
mod retired;
mod row;
mod rows;
mod state;
mod table;
#[cfg(test)]
mod tests;
mod verdict;

pub use checks::RowsFault;
pub use group::Group;
pub use laws::{
    accepted_again, groups_have_no_fault, history_grows, history_is_bounded, leaders_stay,
};
pub use next::{GroupFault, Turn};
pub use row::{Row, RowList};
pub use verdict::{Verdict, Verdicts};
