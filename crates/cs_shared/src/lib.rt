//! Lists in order whose copies share what they have in common.
//!
//! A `Shared` list ascends by a rank that each element has. A copy of it costs a count, and an edit makes a further
//! list and leaves the first as it was: of the elements it copies a number that grows with the logarithm of their
//! number, and the two lists share the others.
//!
//! ```text
//! let first = Shared::new(alloc).with(7)?.with(4)?;
//! let second = first.without(7)?;
//! ```
#![tactic(auto)]

mod balance;
mod edit;
mod look;
mod ranked;
mod shared;
#[cfg(test)]
mod tests;
mod tree;

pub use ranked::Ranked;
pub use shared::Shared;
