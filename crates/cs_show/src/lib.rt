//! The printed block of a view.
//!
//! `show` appends the block that a node prints of its view, `show_kept` does the same by the trees that the node keeps
//! beside it, and `digest` is the digest in the block. `show_kept_by` and `digest_by` go by a memo, and make nothing
//! twice in a row that the blocks of an epoch have in common. Two nodes that hold one epoch print equal regions,
//! globals, inter-region trees and digests, and equal members and local trees of each region that both know: that is
//! the law `printed_blocks_agree`, by `specs/Agreement`, which says it as a reader checks it. The local trees that a
//! block says are good ones, by `specs/PrintedTrees`: that is the law `printed_trees_are_good`.
//!
//! ```text
//! let mut out = Vec::new(alloc);
//! show(&view, &mut out)?;
//! show_kept(with_trees.sight(), with_trees.kept(), &mut out)?;
//! if digest(alloc, &mine)? == digest(alloc, &theirs)? { .. }
//! ```
#![tactic(auto)]

mod block;
mod common;
mod laws;
mod lines;
mod memo;
#[cfg(test)]
mod tests;
mod trees;

pub use block::{digest, digest_by, show, show_kept, show_kept_by};
pub use laws::{printed_blocks_agree, printed_trees_are_good};
pub use memo::BlockMemo;
