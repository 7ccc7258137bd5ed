//! A tree of values in order. It is never written to: an edit makes the nodes on the way to its place anew, and
//! shares the others.
ghost use Rattle.std.specs.Prelude.{◌≡◌, ◌∷◌, ◌++◌, IfOk};
ghost use Rattle.cs_shared.specs.Tree.{elements};

use std::alloc::{AllocError, Global};
use std::rc::Rc;

/// A value with the tree of what stands before it and that of what stands after it, and how many levels they are.
#[cycle(tree)]
#[derive(Debug, Drop)]
pub struct Node<T> {
    pub left: Tree<T>,
    pub value: T,
    pub height: u8,
    pub right: Tree<T>,
}

#[cycle(tree)]
#[derive(Debug, Drop)]
pub enum Tree<T> {
    Empty,
    Fork(Rc<Node<T>>),
}

impl<T: Copy> Tree<T> {
    // How many levels there are.
    pub(crate) fn height(&self) -> u8 {
        match self {
            Tree::Empty => 0,
            Tree::Fork(node) => node.height,
        }
    }

    // The same tree, which is shared.
    pub(crate) fn share(&self) -> Result<Self, AllocError>
        ensures { IfOk result (λ tree. elements tree ≡ elements self.now) }
    {
        match self {
            Tree::Empty => Ok(Tree::Empty),
            Tree::Fork(node) => Ok(Tree::Fork(node.clone()?)),
        }
    }

    // The tree of a value between two trees.
    pub(crate) fn fork(alloc: Global, left: Self, value: T, right: Self) -> Result<Self, AllocError>
        ensures { IfOk result (λ tree. elements tree ≡ elements left ++ value ∷ elements right) }
    {
        let height = left.height().max(right.height()).saturating_add(1);
        let node = Node {
            left,
            value,
            height,
            right,
        };
        Ok(Tree::Fork(Rc::new(alloc, node)?))
    }
}
