//! The pending changes of a node: what it hands on, or a leader judges, at the next occasion.
//!
//! There is at most one change about each member. A stronger one takes its place, and a weaker one is refused. They
//! stand in a table with a hash of their keys, so an offer takes the same time however many there are. `key_of` says
//! what a key is.
//!
//! ```text
//! match pending.offer(change) {
//!     Offer::New | Offer::Replaced => ..,
//!     Offer::Weaker | Offer::Full => ..,
//!     Offer::Memory => ..,
//! }
//! let counts = pending.offer_all(&changes)?;
//! let changes = pending.take_front(MOST_CHANGES)?;
//! ```
#![tactic(auto)]

mod laws;
mod offer;
mod pending;
#[cfg(test)]
mod tests;

pub use laws::{
    pending_changes_stay_allowed, pending_changes_stay_few, pending_changes_stay_reportable,
};
pub use offer::{Counts, Offer};
pub use pending::Pending;
