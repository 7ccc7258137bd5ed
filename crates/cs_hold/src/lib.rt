//! The pieces that a node holds of the slices of one epoch.
//!
//! A slice is cut into four pieces, one of each colour, and any three give it. So where the third piece of a region
//! comes, the fourth is made, and the slice is there. A piece that doesn't fit the two others is refused, and all
//! stays as it was.
//!
//! ```text
//! hold.take(region, colour, bytes)?;
//! if let Some(region) = hold.least_whole() {
//!     let slice = hold.whole(region)?;
//! }
//! ```
#![tactic(auto)]

mod fault;
mod hold;
mod laws;
mod shelf;
#[cfg(test)]
mod tests;

pub use fault::HoldFault;
pub use hold::{Hold, Took};
pub use laws::{
    four_pieces_give_the_bytes, pieces_are_taken, pieces_of_bytes_fit, pieces_say_their_total,
    slices_are_taken,
};
