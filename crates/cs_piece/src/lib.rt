//! Pieces: the bytes that nodes hand each other.
//!
//! A `Piece` is a list of bytes that grows at its end.
//!
//! ```text
//! let mut piece = Piece::from_slice(alloc, b"cens")?;
//! piece.push(b'u')?;
//! ```
#![tactic(auto)]

mod cutting;
mod fault;
mod joining;
mod piece;
#[cfg(test)]
mod tests;

pub use cutting::{block_len, cut};
pub use fault::PieceFault;
pub use joining::join;
pub use piece::Piece;
