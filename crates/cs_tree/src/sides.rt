//! What is left and right below the root of some elements.
ghost use Rattle.std.specs.Prelude.{◌≡◌, ℕ, ◌+◌, ◌≤◌, ◌∷◌, length, map, take, drop, Contains};
ghost use Rattle.cs_base.specs.Ascending.{without_key};
ghost use Rattle.cs_base.specs.Limits.{most_summed};
ghost use Rattle.cs_near.specs.Widest.{widest_axis};
ghost use Rattle.cs_tree.specs.Building.{times};
ghost use Rattle.cs_tree.specs.Skeleton.{fork_at, ordered_on};

use crate::placed::Placed;
use cs_base::Keyed;
use cs_near::{put_in_order, widest_of};

/// What is left and right below a root, and the root's leaves.
#[derive(Drop)]
pub(crate) struct Sides<'a, P> {
    pub(crate) left: &'a mut [P],
    pub(crate) left_others: &'a mut [P],
    pub(crate) leaves: &'a mut [P],
    pub(crate) right: &'a mut [P],
    pub(crate) right_others: &'a mut [P],
}

// Puts the element with a key before the others, which stay in their order.
fn put_first<P: Keyed + Copy>(own: &mut [P], root: P)
    requires there { Contains own.old root }
    requires once { (k : ℕ) → times k (map P.key_of own.old) ≤ 1 }
    requires distinct { (t u : P) → Contains own.old t → Contains own.old u → P.key_of t ≡ P.key_of u → t ≡ u }
    ensures { own.new ≡ root ∷ without_key P.key_of (P.key_of root) own.old }
{
    if let Some(place) = own.iter().position(|p| p.key() == root.key()) {
        own[..=place].rotate_right(1);
    }
}

// The own elements behind the root, and the others, both in order on the widest axis of the first.
fn put_in_line<P: Placed>(rest: &mut [P], others: &mut [P])
    requires own_distinct { (t u : P) → Contains rest.old t → Contains rest.old u → P.key_of t ≡ P.key_of u → t ≡ u }
    requires others_distinct { (t u : P) → Contains others.old t → Contains others.old u
        → P.key_of t ≡ P.key_of u → t ≡ u }
    ensures own { rest.new ≡ ordered_on P.key_of P.point_of (widest_axis P.point_of rest.old) rest.old }
    ensures others { others.new ≡ ordered_on P.key_of P.point_of (widest_axis P.point_of rest.old) others.old }
{
    let axis = widest_of(rest);
    put_in_order(rest, axis);
    put_in_order(others, axis);
}

// The first so many, or all where there are fewer, and those that remain.
fn front_and_rest<P>(ps: &mut [P], count: usize) -> (&mut [P], &mut [P])
    ensures front { result.0.now ≡ take count ps.old }
    ensures rest { result.1.now ≡ drop count ps.old }
{
    let count = count.min(ps.len());
    ps.split_at_mut(count)
}

impl<'a, P: Placed + Copy> Sides<'a, P> {
    /// What is left and right below a root. The elements are put in line for it.
    pub(crate) fn new(root: P, own: &'a mut [P], others: &'a mut [P]) -> Self
        requires root { Contains own.old root }
        requires few { length own.old + length others.old ≤ most_summed }
        requires once { (k : ℕ) → times k (map P.key_of own.old) ≤ 1 }
        requires own_distinct { (t u : P) → Contains own.old t → Contains own.old u
            → P.key_of t ≡ P.key_of u → t ≡ u }
        requires others_distinct { (t u : P) → Contains others.old t → Contains others.old u
            → P.key_of t ≡ P.key_of u → t ≡ u }
        ensures left { let fork = fork_at P.key_of P.point_of (record { own = own.old; others = others.old }) root in
            result.left.now ≡ fork.left.own }
        ensures left_others { let fork = fork_at P.key_of P.point_of (record { own = own.old; others = others.old }) root
            in result.left_others.now ≡ fork.left.others }
        ensures leaves { let fork = fork_at P.key_of P.point_of (record { own = own.old; others = others.old }) root in
            result.leaves.now ≡ fork.leaves }
        ensures right { let fork = fork_at P.key_of P.point_of (record { own = own.old; others = others.old }) root in
            result.right.now ≡ fork.right.own }
        ensures right_others { let fork = fork_at P.key_of P.point_of (record { own = own.old; others = others.old }) root
            in result.right_others.now ≡ fork.right.others }
    {
        let size = own.len();
        put_first(own, root);
        let (_, rest) = own.split_at_mut(1);
        put_in_line(rest, others);
        let half = rest.len().div_ceil(2);
        let each = others.len().div_ceil(size);
        let (left, right) = rest.split_at_mut(half);
        let (left_others, later) = front_and_rest(others, each * half);
        let (leaves, right_others) = front_and_rest(later, each);
        Sides {
            left,
            left_others,
            leaves,
            right,
            right_others,
        }
    }
}
