//! Geometry of what has points: their sum, which of several centroids is nearest, on which axis points are spread
//! most widely, and their order and middle on an axis.
//!
//! Nothing is divided. `nearer` and `sums_nearer` compare distances by cross-multiplication, in whole numbers of
//! 128 bits, so two distances are equal exactly where they are `Equal`; `nearest` chooses by them, and of those as
//! near by the least key. `distances_are_ordered` and `one_is_nearest` are laws on which such a choice can rest.
//! The other calls take anything with a point or a key, as members, and `choose_split` gives a split for a roll's
//! `part` to cut by.
//!
//! ```text
//! let total = sum_of_points(roll.as_slice());
//! if let Some(into) = nearest(&total, &other_regions) { .. }
//! let split = choose_split(alloc, members)?;
//! ```
#![tactic(auto)]

mod choice;
mod distance;
mod keyed;
mod laws;
mod middle;
mod spread;
mod sums;
#[cfg(test)]
mod tests;

pub use choice::nearest;
pub use distance::{nearer, sums_nearer};
pub use keyed::{HasSum, RegionSum};
pub use laws::{distances_are_ordered, one_is_nearest};
pub use middle::{choose_split, in_order, middle_on, put_in_order};
pub use spread::{widest, widest_of};
pub use sums::{one_point, sum_of_points};
