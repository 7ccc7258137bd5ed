//! What is looked up in a tree in order.
ghost use Rattle.std.specs.Prelude.{◌≡◌, ◌++◌, OnOk};
ghost use Rattle.std.specs.List.{filter};
ghost use Rattle.std.specs.Option.{option_copied};
ghost use Rattle.cs_base.specs.Ascending.{IsAscendingBy, at_key};
ghost use Rattle.cs_shared.specs.Tree.{elements, is_from_to};

use crate::Ranked;
use crate::tree::Tree;
use std::alloc::AllocError;
use std::cmp::Ordering;

impl<T: Copy> Tree<T> {
    // Pushes each element.
    pub(crate) fn push_all(&self, list: &mut Vec<T>) -> Result<(), AllocError>
        ensures { OnOk result (list.new.items ≡ list.old.items ++ elements self.now) }
    {
        let Tree::Fork(node) = self else {
            return Ok(());
        };
        node.left.push_all(list)?;
        list.push(node.value)?;
        node.right.push_all(list)
    }
}

impl<T: Ranked + Copy> Tree<T> {
    // The element of this rank.
    pub(crate) fn get(&self, rank: u64) -> Option<&T>
        requires ascending { IsAscendingBy T.rank_of (elements self.now) }
        ensures { option_copied result ≡ at_key T.rank_of rank (elements self.now) }
    {
        let Tree::Fork(node) = self else {
            return None;
        };
        match rank.cmp(&node.value.rank()) {
            Ordering::Less => node.left.get(rank),
            Ordering::Equal => Some(&node.value),
            Ordering::Greater => node.right.get(rank),
        }
    }

    // Pushes each element whose rank is from `low` to `high`.
    pub(crate) fn push_from_to(
        &self,
        low: u64,
        high: u64,
        list: &mut Vec<T>,
    ) -> Result<(), AllocError>
        requires ascending { IsAscendingBy T.rank_of (elements self.now) }
        ensures { OnOk result
            (list.new.items ≡ list.old.items ++ filter (is_from_to T.rank_of low high) (elements self.now)) }
    {
        let Tree::Fork(node) = self else {
            return Ok(());
        };
        let rank = node.value.rank();
        if rank < low {
            return node.right.push_from_to(low, high, list);
        }
        if high < rank {
            return node.left.push_from_to(low, high, list);
        }
        node.left.push_from_to(low, high, list)?;
        list.push(node.value)?;
        node.right.push_from_to(low, high, list)
    }
}
