//! Rolls and summaries: the members of a region in full, and what the other regions know of it.
//!
//! A `Roll` is a list of members, ascending by id. Its `Summary` has its size, the sum and the bounds of its
//! points, and its first eight members. `part` cuts a roll in two by a `Split`. `Sight` is what can be seen of a
//! group: a summary of each region, and the rolls of some. `are_alike` says whether the same stands beside the same
//! regions.
//!
//! ```text
//! let mut roll = Roll::new(alloc);
//! roll.insert(member)?;
//! let summary = roll.summary()?;
//! let (lower, upper) = roll.part(&split)?;
//! ```
#![tactic(auto)]

mod alike;
mod roll;
mod sight;
mod summary;
#[cfg(test)]
mod tests;

pub use alike::{Alike, are_alike};
pub use roll::Roll;
pub use sight::Sight;
pub use summary::Summary;
