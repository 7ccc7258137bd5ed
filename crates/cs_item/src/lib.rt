//! What nodes tell each other of the group: summaries and rolls by region, pictures of an epoch, and slices, as
//! values and as bytes.
//!
//! `Regions` and `Rolls` are lists ascending by region, of one type. A `Picture` has the summary of each region of an
//! epoch, and the rolls of some; it is what a snapshot carries, and need not fit together. A `Slice` tells one old
//! region what a new epoch makes of it: the `Head` is the same for every region, and the `Part` is its own.
//!
//! `take_roll`, `put_roll` and the like are further fields beside those of cs_fields. `encode_slice` and
//! `decode_slice` are for the bytes of a slice alone.
//!
//! ```text
//! let mut rolls = Rolls::new(alloc);
//! rolls.push((region, roll))?;
//! let picture = Picture { epoch, summaries, rolls };
//! put_picture(&mut out, &picture)?;
//! let slice = decode_slice(alloc, &bytes)?;
//! ```
#![tactic(auto)]

mod by_region;
mod codec;
mod head;
mod part;
mod picture;
mod place;
mod slice;
#[cfg(test)]
mod tests;

pub use by_region::{Beside, ByRegion, Regions, Rolls};
pub use codec::{
    decode_slice, encode_slice, put_picture, put_regions, put_roll, put_slice, put_summary,
    take_picture, take_regions, take_roll, take_slice, take_some_regions, take_summary,
};
pub use head::Head;
pub use part::{Part, PartKind};
pub use picture::Picture;
pub use slice::Slice;
