//! Trees that are made so that of two neighbours neither is higher than the other by more than a level.
ghost use Rattle.std.specs.Prelude.{◌≡◌, [], ◌∷◌, ◌++◌, IfOk, MatchOption};
ghost use Rattle.cs_shared.specs.Tree.{elements};

use crate::tree::{Node, Tree};
use std::alloc::{AllocError, Global};

// Whether the first is higher by two levels.
fn is_too_high<T: Copy>(tree: &Tree<T>, other: &Tree<T>) -> bool {
    tree.height() > other.height().saturating_add(1)
}

// The node's tree with a value and a tree behind it, where the node's is too high and low on the right: it goes down
// to the right.
fn turned_right<T: Copy>(
    alloc: Global,
    high: &Node<T>,
    value: T,
    right: Tree<T>,
) -> Result<Tree<T>, AllocError>
    ensures { IfOk result (λ tree. elements tree
        ≡ (elements high.now.left ++ high.now.value ∷ elements high.now.right) ++ value ∷ elements right) }
{
    let top = Tree::fork(alloc, high.right.share()?, value, right)?;
    Tree::fork(alloc, high.left.share()?, high.value, top)
}

// The same where it is high on the right: what is between there comes up.
fn turned_right_twice<T: Copy>(
    alloc: Global,
    high: &Node<T>,
    middle: &Node<T>,
    value: T,
    right: Tree<T>,
) -> Result<Tree<T>, AllocError>
    ensures { IfOk result (λ tree. elements tree
        ≡ (elements high.now.left
        ++ high.now.value ∷ (elements middle.now.left ++ middle.now.value ∷ elements middle.now.right))
        ++ value ∷ elements right) }
{
    let low = Tree::fork(alloc, high.left.share()?, high.value, middle.left.share()?)?;
    let top = Tree::fork(alloc, middle.right.share()?, value, right)?;
    Tree::fork(alloc, low, middle.value, top)
}

// The node's tree with a tree and a value before it, where the node's is too high and low on the left: it goes down
// to the left.
fn turned_left<T: Copy>(
    alloc: Global,
    left: Tree<T>,
    value: T,
    high: &Node<T>,
) -> Result<Tree<T>, AllocError>
    ensures { IfOk result (λ tree. elements tree
        ≡ elements left ++ value ∷ (elements high.now.left ++ high.now.value ∷ elements high.now.right)) }
{
    let low = Tree::fork(alloc, left, value, high.left.share()?)?;
    Tree::fork(alloc, low, high.value, high.right.share()?)
}

// The same where it is high on the left.
fn turned_left_twice<T: Copy>(
    alloc: Global,
    left: Tree<T>,
    value: T,
    middle: &Node<T>,
    high: &Node<T>,
) -> Result<Tree<T>, AllocError>
    ensures { IfOk result (λ tree. elements tree
        ≡ elements left
        ++ value ∷ ((elements middle.now.left ++ middle.now.value ∷ elements middle.now.right)
        ++ high.now.value ∷ elements high.now.right)) }
{
    let low = Tree::fork(alloc, left, value, middle.left.share()?)?;
    let top = Tree::fork(
        alloc,
        middle.right.share()?,
        high.value,
        high.right.share()?,
    )?;
    Tree::fork(alloc, low, middle.value, top)
}

// A node's tree with a value and a tree behind it, where the node's is too high.
fn lowered_left<T: Copy>(
    alloc: Global,
    high: &Node<T>,
    value: T,
    right: Tree<T>,
) -> Result<Tree<T>, AllocError>
    ensures { IfOk result (λ tree. elements tree
        ≡ (elements high.now.left ++ high.now.value ∷ elements high.now.right) ++ value ∷ elements right) }
{
    match &high.right {
        Tree::Fork(middle) if middle.height > high.left.height() => {
            turned_right_twice(alloc, high, middle, value, right)
        }
        _ => turned_right(alloc, high, value, right),
    }
}

// A node's tree with a tree and a value before it, where the node's is too high.
fn lowered_right<T: Copy>(
    alloc: Global,
    left: Tree<T>,
    value: T,
    high: &Node<T>,
) -> Result<Tree<T>, AllocError>
    ensures { IfOk result (λ tree. elements tree
        ≡ elements left ++ value ∷ (elements high.now.left ++ high.now.value ∷ elements high.now.right)) }
{
    match &high.left {
        Tree::Fork(middle) if middle.height > high.right.height() => {
            turned_left_twice(alloc, left, value, middle, high)
        }
        _ => turned_left(alloc, left, value, high),
    }
}

// The tree of a value between two trees, of which one may be too high by a level.
pub(crate) fn balanced<T: Copy>(
    alloc: Global,
    left: Tree<T>,
    value: T,
    right: Tree<T>,
) -> Result<Tree<T>, AllocError>
    ensures { IfOk result (λ tree. elements tree ≡ elements left ++ value ∷ elements right) }
{
    if is_too_high(&left, &right) {
        if let Tree::Fork(high) = &left {
            return lowered_left(alloc, high, value, right);
        }
    }
    if is_too_high(&right, &left) {
        if let Tree::Fork(high) = &right {
            return lowered_right(alloc, left, value, high);
        }
    }
    Tree::fork(alloc, left, value, right)
}
