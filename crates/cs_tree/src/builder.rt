//! How a tree is put together, key by key.
ghost use Rattle.std.specs.Prelude.{◌≡◌, ◌+◌, ◌<◌, ◌∷◌, [], ◌++◌, length, Some};
ghost use Rattle.std.specs.Prelude.{MatchOption, Contains, IfOk, OnOk, OnErr};
ghost use Rattle.cs_tree.specs.Building.{built, edge_to, placed_edges, placed_keys};

use crate::{Edge, Steps, Tree};
use std::alloc::{AllocError, Global};
use std::marker::Model;
use std::sync::ledger::Ledger;

/// A tree that is being built: its keys in the order of placing, each with its parent. The first key has none.
#[derive(Debug, Drop)]
pub struct Builder {
    placements: Vec<(Option<u32>, u32)>,
}

impl Model for Builder {
    ghost use Rattle.std.specs.Prelude.{List};
    ghost use Rattle.cs_tree.specs.Building.{Placement};

    ghost Value = { List Placement };

    ghost view = { λ builder. builder.placements.items };
}

// The edge to a key from its parent.
fn edge_to(placement: (Option<u32>, u32)) -> Option<Edge>
    ensures { result ≡ edge_to placement }
{
    let (parent, child) = placement;
    let parent = parent?;
    Some(Edge { parent, child })
}

// The edges of what was placed, in its order.
fn edges_of(alloc: Global, placements: &[(Option<u32>, u32)]) -> Result<Vec<Edge>, AllocError>
    ensures { IfOk result (λ edges. edges.items ≡ placed_edges placements.now) }
{
    let mut edges = Vec::with_capacity(alloc, placements.len())?;
    edges.extend(
        placements
            .iter()
            .copied()
            .filter_map(|placement| edge_to(placement)),
    )?;
    Ok(edges)
}

impl Builder {
    pub fn new(alloc: Global) -> Self
        ensures { result ≡ [] }
    {
        Builder {
            placements: Vec::new(alloc),
        }
    }

    /// One with room for so many keys.
    pub(crate) fn with_room(alloc: Global, keys: usize) -> Result<Self, AllocError>
        ensures { IfOk result (λ builder. builder ≡ []) }
    {
        let placements = Vec::with_capacity(alloc, keys)?;
        Ok(Builder { placements })
    }

    /// Puts a key below its parent. Nothing else puts a key into a tree, and each takes one step.
    pub fn place<L: Ledger>(
        &mut self,
        parent: Option<u32>,
        key: u32,
        steps: &mut Steps<L>,
    ) -> Result<(), AllocError>
        requires new { ¬ Contains (placed_keys self.old) key }
        requires parent { MatchOption parent (self.old ≡ []) (Contains (placed_keys self.old)) }
        ensures ok { OnOk result (self.new ≡ self.old ++ (parent, key) ∷ []) }
        ensures err { OnErr result (self.new ≡ self.old) }
        ensures step { OnOk result (steps.new ≡ steps.old + 1) }
        ensures no_step { OnErr result (steps.new ≡ steps.old) }
    {
        self.placements.push((parent, key))?;
        steps.tick();
        Ok(())
    }

    /// The tree with the first key as its root, and with these edges.
    pub fn finish(&self) -> Result<Tree, AllocError>
        requires { 0 < length self.now }
        ensures { IfOk result (λ tree. built self.now ≡ Some tree) }
    {
        let root = self.placements[0].1;
        let edges = edges_of(*self.placements.allocator(), &self.placements)?;
        Tree::from_edges(root, edges)
    }
}
