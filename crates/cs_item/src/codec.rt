//! Rolls, summaries, pictures and slices as bytes, both ways.

mod picture;
mod regions;
mod roll;
mod slice;
mod summary;
#[cfg(test)]
mod tests;

pub use picture::{put_picture, take_picture};
pub use regions::{put_regions, take_regions, take_some_regions};
pub use roll::{put_roll, take_roll};
pub use slice::{decode_slice, encode_slice, put_slice, take_slice};
pub use summary::{put_summary, take_summary};
