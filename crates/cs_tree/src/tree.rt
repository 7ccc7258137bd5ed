ghost use Rattle.std.specs.Prelude.{◌≡◌, ◌≢◌, ◌≤◌, ◌==◌, ◌↔◌, length, map, slice_range, IsSorted, IsNone, IfOk, All};
ghost use Rattle.std.specs.List.{filter, find};
ghost use Rattle.std.specs.List.Sorted.{IsNonDecreasing, IsNonDecreasingBy};
ghost use Rattle.cs_tree.specs.Order.{sorted_by};
ghost use Rattle.cs_tree.specs.Tree.{edge_cmp, children_of, has_children, parent_of};

use crate::edge::Edge;
use std::alloc::{AllocError, Global};
use std::marker::Model;

/// A tree of keys, as ids or regions are: its root, and its edges, ascending by parent and then by child.
#[derive(Debug, Drop)]
pub struct Tree {
    root: u32,
    edges: Vec<Edge>,
    // their children, in the same order
    children: Vec<u32>,
}

impl Model for Tree {
    ghost use Rattle.cs_tree.specs.Tree.{RootedTree, IsIndexed};

    ghost Value = { RootedTree };

    ghost view = { λ tree. record { root = tree.root; edges = tree.edges.items } };

    ghost invariant = { λ tree. IsIndexed tree.edges.items tree.children.items };
}

// The edges ascending by parent, and of one parent by child.
fn sort_edges(edges: &mut Vec<Edge>)
    ensures value { edges.new.items ≡ sorted_by edge_cmp edges.old.items }
    ensures sorted { IsSorted edge_cmp edges.new.items }
{
    edges.sort_unstable_by_key(|e| (e.parent, e.child));
}

// The children of edges.
fn children(alloc: Global, edges: &[Edge]) -> Result<Vec<u32>, AllocError>
    ensures { IfOk result (λ children. children.items ≡ map (λ e. e.child) edges.now) }
{
    let mut children = Vec::with_capacity(alloc, edges.len())?;
    children.extend(edges.iter().map(|e| e.child))?;
    Ok(children)
}

// Where the edges begin whose parent isn't below a key, and where those begin whose parent is above it.
fn below_parent(edges: &[Edge], key: u32) -> (usize, usize)
    requires { IsNonDecreasingBy (λ e. e.parent) edges.now }
    ensures order { result.0 ≤ result.1 }
    ensures within { result.1 ≤ length edges.now }
    ensures value { filter (λ e. e.parent == key) edges.now ≡ slice_range edges.now result.0 result.1 }
{
    let from = edges.partition_point(|e| e.parent < key);
    let to = edges.partition_point(|e| e.parent <= key);
    (from, to)
}

// The parent of a key. A tree is built far more often than asked, so its edges have no index by child.
fn parent_in(edges: &[Edge], key: u32) -> Option<u32>
    ensures { result ≡ parent_of key edges.now }
{
    let edge = edges.iter().find(|e| e.child == key)?;
    Some(edge.parent)
}

impl Tree {
    // The tree with this root and these edges.
    pub(crate) fn from_edges(root: u32, edges: Vec<Edge>) -> Result<Self, AllocError>
        ensures { IfOk result (λ tree. tree ≡ record { root = root; edges = sorted_by edge_cmp edges.items }) }
    {
        let mut edges = edges;
        sort_edges(&mut edges);
        let alloc = *edges.allocator();
        let children = children(alloc, &edges)?;
        Ok(Tree {
            root,
            edges,
            children,
        })
    }

    pub fn root(&self) -> u32
        ensures { result ≡ self.now.root }
    {
        self.root
    }

    /// The children of a key, ascending.
    pub fn children(&self, key: u32) -> &[u32]
        ensures value { result.now ≡ children_of key self.now.edges }
        ensures ascending { IsNonDecreasing result.now }
    {
        let (from, to) = below_parent(&self.edges, key);
        &self.children[from..to]
    }

    /// Whether a key has children.
    pub fn is_interior(&self, key: u32) -> bool
        ensures { result ≡ has_children key self.now.edges }
    {
        !self.children(key).is_empty()
    }

    pub fn parent(&self, key: u32) -> Option<u32>
        ensures value { result ≡ parent_of key self.now.edges }
        ensures none { IsNone result ↔ All (λ e. e.child ≢ key) self.now.edges }
    {
        parent_in(&self.edges, key)
    }

    pub fn copy(&self) -> Result<Self, AllocError>
        ensures { IfOk result (λ copy. copy ≡ self.now) }
    {
        let alloc = *self.edges.allocator();
        Ok(Tree {
            root: self.root,
            edges: Vec::from_slice(alloc, &self.edges)?,
            children: Vec::from_slice(alloc, &self.children)?,
        })
    }
}
