//! Edits of a tree in order, each of which makes a further tree.
ghost use Rattle.std.specs.Prelude.{◌≡◌, [], ◌∷◌, ◌++◌, IfOk, MatchOption};
ghost use Rattle.cs_base.specs.Ascending.{IsAscendingBy, placed_by, without_key};
ghost use Rattle.cs_shared.specs.Tree.{elements};

use crate::Ranked;
use crate::balance::balanced;
use crate::tree::Tree;
use std::alloc::{AllocError, Global};
use std::cmp::Ordering;

impl<T: Copy> Tree<T> {
    // The first element and the tree of the others, where there is one.
    fn first_and_rest(&self, alloc: Global) -> Result<Option<(T, Self)>, AllocError>
        ensures { IfOk result (λ parts. MatchOption parts (elements self.now ≡ [])
            (λ pair. elements self.now ≡ pair.0 ∷ elements pair.1)) }
    {
        let Tree::Fork(node) = self else {
            return Ok(None);
        };
        match node.left.first_and_rest(alloc)? {
            None => Ok(Some((node.value, node.right.share()?))),
            Some((first, rest)) => {
                let rest = balanced(alloc, rest, node.value, node.right.share()?)?;
                Ok(Some((first, rest)))
            }
        }
    }

    // The tree of two trees, one behind the other.
    fn behind(&self, alloc: Global, later: &Self) -> Result<Self, AllocError>
        ensures { IfOk result (λ tree. elements tree ≡ elements self.now ++ elements later.now) }
    {
        match later.first_and_rest(alloc)? {
            None => self.share(),
            Some((first, rest)) => balanced(alloc, self.share()?, first, rest),
        }
    }
}

impl<T: Ranked + Copy> Tree<T> {
    // The tree with the element in its place, instead of one of the same rank.
    pub(crate) fn with(&self, alloc: Global, x: T) -> Result<Self, AllocError>
        requires ascending { IsAscendingBy T.rank_of (elements self.now) }
        ensures { IfOk result (λ tree. elements tree ≡ placed_by T.rank_of x (elements self.now)) }
    {
        let Tree::Fork(node) = self else {
            return Tree::fork(alloc, Tree::Empty, x, Tree::Empty);
        };
        match x.rank().cmp(&node.value.rank()) {
            Ordering::Less => {
                let left = node.left.with(alloc, x)?;
                balanced(alloc, left, node.value, node.right.share()?)
            }
            Ordering::Equal => Tree::fork(alloc, node.left.share()?, x, node.right.share()?),
            Ordering::Greater => {
                let right = node.right.with(alloc, x)?;
                balanced(alloc, node.left.share()?, node.value, right)
            }
        }
    }

    // The tree without the element of this rank.
    pub(crate) fn without(&self, alloc: Global, rank: u64) -> Result<Self, AllocError>
        requires ascending { IsAscendingBy T.rank_of (elements self.now) }
        ensures { IfOk result (λ tree. elements tree ≡ without_key T.rank_of rank (elements self.now)) }
    {
        let Tree::Fork(node) = self else {
            return Ok(Tree::Empty);
        };
        match rank.cmp(&node.value.rank()) {
            Ordering::Less => {
                let left = node.left.without(alloc, rank)?;
                balanced(alloc, left, node.value, node.right.share()?)
            }
            Ordering::Equal => node.left.behind(alloc, &node.right),
            Ordering::Greater => {
                let right = node.right.without(alloc, rank)?;
                balanced(alloc, node.left.share()?, node.value, right)
            }
        }
    }
}
