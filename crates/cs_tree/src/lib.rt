//! The trees along which pieces travel: in a region, a local tree for each colour; between regions, a tree for each
//! colour, in which each region is at the point of one of its members.
//!
//! A `Tree` is seen as its root and its edges, each from a parent to a child, in ascending order. `local` gives the
//! tree of a roll's members and `inter` that of the regions of a `Sight`; both are as the definitions say, whatever
//! way they are made. `children` is a binary search, `parent` goes through the edges, and neither takes memory.
//!
//! A tree is put together by a `Builder`, key by key, and each key takes one of the `Steps`, a count that proofs see
//! and that costs nothing when it runs. Who counts none calls `local_uncounted` and `inter_uncounted`.
//!
//! A `Kept` has all trees of a `Sight`. `renew` makes them those of the next one: it builds those alone that changed,
//! as its bound on steps says, and shares the others. `WithTrees` has a `Sight` and its trees together, always those of
//! it, and leads on to the next.
//!
//! `route` gives the `Targets` to whom a node passes a piece on: ids with addresses, ascending by id. It holds on
//! every `Sight`, also on one that bytes of strangers made. `start` gives those to whom the node that made a piece
//! sends it. Who has many pieces of a colour makes the tree of the regions once, for `route_along` and for `start`.
//!
//! The laws `local_trees_are_good` and `inter_trees_are_good` say that each tree reaches all its keys, with few
//! children for each, and the law `targets_are_seen` that each target is a member that the `Sight` shows. The law
//! `renewals_build_what_changed` says that a renewal to the same `Sight` takes no step.
//!
//! ```text
//! if let Some(tree) = local(alloc, &roll, colour, &mut steps)? {
//!     for child in tree.children(me) { .. }
//! }
//! let regions = inter(alloc, &view, colour, &mut steps)?;
//! let above = regions.parent(region.get());
//! let mut kept = Kept::new(alloc, &view)?;
//! kept.renew(&view, &next_view, &mut steps)?;
//! let next = WithTrees::new(alloc, view)?.followed_by(next_view)?;
//! for (id, addr) in next.route(me, region, colour)?.as_slice() { .. }
//! for (id, addr) in route(alloc, me, &view, region, colour)?.as_slice() { .. }
//! for (id, addr) in start(alloc, me, &view, &regions, region, colour)?.as_slice() { .. }
//! ```
#![tactic(auto)]

mod builder;
mod colour;
mod edge;
mod grow;
mod inter_tree;
mod kept;
mod kept_routes;
#[cfg(test)]
mod kept_tests;
mod laws;
#[cfg(test)]
mod line_tests;
mod local_tree;
mod local_trees;
mod placed;
mod region_point;
#[cfg(test)]
mod route_tests;
mod routes;
mod sides;
mod standing;
mod starts;
mod steps;
mod targets;
#[cfg(test)]
mod tests;
mod tree;
mod uncounted;
mod with_trees;

pub use builder::Builder;
pub use edge::Edge;
pub use inter_tree::inter;
pub use kept::Kept;
pub use laws::{
    inter_trees_are_good, kept_trees_are_the_trees, local_trees_are_good,
    renewals_build_what_changed, targets_are_seen,
};
pub use local_tree::local;
pub use routes::{route, route_along};
pub use starts::start;
pub use steps::Steps;
pub use targets::Targets;
pub use tree::Tree;
pub use uncounted::{inter_uncounted, local_uncounted};
pub use with_trees::WithTrees;
