ghost use Rattle.std.specs.Prelude.{◌≡◌, [], IfOk};
ghost use Rattle.std.specs.List.{filter};
ghost use Rattle.std.specs.Option.{option_copied};
ghost use Rattle.cs_base.specs.Ascending.{IsAscendingBy, at_key, placed_by, without_key};
ghost use Rattle.cs_shared.specs.Tree.{is_from_to};

use crate::Ranked;
use crate::tree::Tree;
use std::alloc::{AllocError, Global};
use std::marker::Model;

/// A list that ascends by the ranks of its elements, and shares what it can with the lists that are made of it.
#[derive(Debug, Drop)]
pub struct Shared<T: Ranked + Copy> {
    alloc: Global,
    tree: Tree<T>,
}

impl<T: Ranked + Copy> Model for Shared<T> {
    ghost use Rattle.std.specs.Prelude.{List};
    ghost use Rattle.cs_base.specs.Ascending.{IsAscendingBy};
    ghost use Rattle.cs_shared.specs.Tree.{elements};

    ghost Value = { List T };

    ghost view = { λ list. elements list.tree };

    ghost invariant = { λ list. IsAscendingBy T.rank_of (elements list.tree) };
}

impl<T: Ranked + Copy> Shared<T> {
    pub fn new(alloc: Global) -> Self
        ensures { result ≡ [] }
    {
        Shared {
            alloc,
            tree: Tree::Empty,
        }
    }

    /// Where the list has its memory from.
    pub fn allocator(&self) -> Global {
        self.alloc
    }

    // How many levels its tree has.
    #[cfg(test)]
    pub(crate) fn height(&self) -> u8 {
        self.tree.height()
    }

    /// The element of this rank.
    pub fn get(&self, rank: u64) -> Option<&T>
        ensures { option_copied result ≡ at_key T.rank_of rank self.now }
    {
        self.tree.get(rank)
    }

    /// The list with the element in its place, instead of one of the same rank.
    pub fn with(&self, x: T) -> Result<Self, AllocError>
        ensures { IfOk result (λ list. list ≡ placed_by T.rank_of x self.now) }
    {
        Ok(Shared {
            alloc: self.alloc,
            tree: self.tree.with(self.alloc, x)?,
        })
    }

    /// The list without the element of this rank.
    pub fn without(&self, rank: u64) -> Result<Self, AllocError>
        ensures { IfOk result (λ list. list ≡ without_key T.rank_of rank self.now) }
    {
        Ok(Shared {
            alloc: self.alloc,
            tree: self.tree.without(self.alloc, rank)?,
        })
    }

    /// The same list, which shares all.
    pub fn copy(&self) -> Result<Self, AllocError>
        ensures { IfOk result (λ copy. copy ≡ self.now) }
    {
        Ok(Shared {
            alloc: self.alloc,
            tree: self.tree.share()?,
        })
    }

    /// The elements.
    pub fn to_vec(&self) -> Result<Vec<T>, AllocError>
        ensures value { IfOk result (λ list. list.items ≡ self.now) }
        ensures ascending { IsAscendingBy T.rank_of self.now }
    {
        let mut list = Vec::new(self.alloc);
        self.tree.push_all(&mut list)?;
        Ok(list)
    }

    /// The elements whose rank is from `low` to `high`.
    pub fn from_to(&self, low: u64, high: u64) -> Result<Vec<T>, AllocError>
        ensures { IfOk result (λ list. list.items ≡ filter (is_from_to T.rank_of low high) self.now) }
    {
        let mut list = Vec::new(self.alloc);
        self.tree.push_from_to(low, high, &mut list)?;
        Ok(list)
    }
}
