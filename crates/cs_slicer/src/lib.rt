//! What a new epoch tells the old regions: their slices.
//!
//! A turn makes the next group of a group. The slice of an old region says what its members become by it, with a head
//! that is the same for every region, so that who knows the region's roll, and the summaries of all regions, can go
//! on to the next group's. `Slicer` computes all slices of a turn together, and `slice` one of them.
//!
//! Whom a turn lets in has no old region, and so no slice: `joiners` gives the members that are to learn the new group
//! in another way. The law `joiners_are_members` says that they are members of it.
//!
//! ```text
//! let turn = group.next(&changes)?;
//! let slicer = Slicer::new(alloc, &group, &turn, epoch)?;
//! for i in 0..group.count() {
//!     let slice = slicer.slice(group.region(i))?;
//! }
//! ```
#![tactic(auto)]

mod head;
mod joining;
mod laws;
mod part;
mod rows;
mod slicer;
#[cfg(test)]
mod tests;

pub use joining::joiners;
pub use laws::joiners_are_members;
pub use slicer::{Slicer, slice};
