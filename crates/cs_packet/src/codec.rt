//! Packets and log entries as bytes, both ways.

mod base;
mod body;
mod boot;
mod entry;
mod kind;
mod packet;
mod piece;
mod rows;
mod slices;

pub use entry::{decode_entry, encode_entry};
pub use packet::{decode, encode};
