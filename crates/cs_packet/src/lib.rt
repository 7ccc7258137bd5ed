//! Packets and log entries: what nodes send each other and what they log, as values and as bytes.
//!
//! A `Packet` has a sender, a receiver and a `Body`. `encode` gives its one spelling, and `decode` the packet that
//! bytes spell, or the first fault in them. `Sends` is a list of packets with the addresses that they go to, and
//! `Sends::put_piece` puts a piece of a slice, which is `Named`, on its way to several nodes. `Own` says who a node is
//! and who leads its group, and `Own::member` gives the node as a member of that group.
//!
//! An `Entry` is what a node writes into its log: how it started, what it learned of the group, and what it did.
//! `encode_entry` and `decode_entry` are for the bytes of an entry alone, without the length that the log puts in
//! front of it.
//!
//! ```text
//! let packet = Packet { from, to, body: Body::Bye { epoch } };
//! let bytes = encode(alloc, &packet)?;
//! let same = decode(alloc, bytes.as_slice())?;
//! let mut sends = Sends::new(alloc);
//! sends.put_piece(me, &Named::new(epoch, region, colour, &text), &targets)?;
//! let entry = encode_entry(alloc, &Entry::Gone { epoch })?;
//! ```
#![tactic(auto)]

mod codec;
mod entry;
#[cfg(test)]
mod entry_tests;
mod named;
mod own;
mod packet;
mod sends;
#[cfg(test)]
mod tests;

pub use codec::{decode, decode_entry, encode, encode_entry};
pub use entry::{Entry, Slices};
pub use named::Named;
pub use own::Own;
pub use packet::{Body, Packet};
pub use sends::Sends;
