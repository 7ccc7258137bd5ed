ghost use Rattle.std.specs.Prelude.{◌≡◌, ℕ, [], ◌∷◌, ◌++◌, length, take, IsTrue, ◌↔◌, IfOk, IfErr, OnOk, OnErr};
ghost use Rattle.std.specs.List.{AllByRecursion};
ghost use Rattle.std.specs.Option.{option_copied};
ghost use Rattle.cs_base.specs.Ascending.{IsAscendingBy, IsOrderedBy, IsAt, IsGap, at_key, placed_by, without_key};

use crate::Copied;
use crate::items::copy_each;
use std::alloc::{AllocError, Global};
use std::marker::Model;
use std::mem;

/// A value with a number, its key, by which an ordered list of such values ascends.
pub trait Keyed {
    ghost key_of: { Self → ℕ };

    /// What is allowed as such a value.
    ghost IsAllowed: { Self → Type 0 };

    fn key(&self) -> u32
        ensures value { result ≡ key_of self.now }
        ensures allowed { IsAllowed self.now };
}

/// A list that ascends by the keys of its elements.
#[derive(Debug, Drop)]
pub struct Ordered<T: Keyed> {
    items: Vec<T>,
}

impl<T: Keyed> Model for Ordered<T> {
    ghost use Rattle.std.specs.Prelude.{List};
    ghost use Rattle.cs_base.specs.Ascending.{IsOrderedBy};

    ghost Value = { List T };

    ghost view = { λ list. list.items.items };

    ghost invariant = { λ list. IsOrderedBy T.key_of T.IsAllowed list.items.items };
}

impl<T: Keyed> Ordered<T> {
    pub fn new(alloc: Global) -> Self
        ensures { result ≡ [] }
    {
        Ordered {
            items: Vec::new(alloc),
        }
    }

    pub fn len(&self) -> usize
        ensures { result ≡ length self.now }
    {
        self.items.len()
    }

    pub fn is_empty(&self) -> bool
        ensures { IsTrue result ↔ (self.now ≡ []) }
    {
        self.items.is_empty()
    }

    pub fn as_slice(&self) -> &[T]
        ensures value { result.now ≡ self.now }
        ensures ascending { IsAscendingBy T.key_of self.now }
        ensures allowed { AllByRecursion T.IsAllowed self.now }
    {
        &self.items
    }

    /// The list of these elements.
    pub fn from_vec(items: Vec<T>) -> Self
        requires { IsOrderedBy T.key_of T.IsAllowed items.items }
        ensures { result ≡ items.items }
    {
        Ordered { items }
    }

    /// Where the list has its memory from.
    pub fn allocator(&self) -> Global {
        *self.items.allocator()
    }

    // Where the key is, or where it would go.
    pub(crate) fn search(&self, key: u32) -> Result<usize, usize>
        ensures ascending { IsAscendingBy T.key_of self.now }
        ensures found { IfOk result (IsAt T.key_of key self.now) }
        ensures absent { IfErr result (IsGap T.key_of key self.now) }
    {
        self.items.binary_search_by_key(&key, |x| x.key())
    }

    /// The element with this key.
    pub fn get(&self, key: u32) -> Option<&T>
        ensures { option_copied result ≡ at_key T.key_of key self.now }
    {
        match self.search(key) {
            Ok(place) => Some(&self.items[place]),
            Err(_) => None,
        }
    }
}

impl<T: Keyed + Drop> Ordered<T> {
    /// Puts the element in its place, and gives the element of its key that was there before.
    pub fn put(&mut self, x: T) -> Result<Option<T>, AllocError>
        ensures placed { OnOk result (self.new ≡ placed_by T.key_of x self.old) }
        ensures before { IfOk result (λ before. before ≡ at_key T.key_of (T.key_of x) self.old) }
        ensures err { OnErr result (self.new ≡ self.old) }
    {
        match self.search(x.key()) {
            Ok(place) => Ok(Some(mem::replace(&mut self.items[place], x))),
            Err(place) => {
                self.items.insert(place, x)?;
                Ok(None)
            }
        }
    }

    /// Takes out the element with this key.
    pub fn remove(&mut self, key: u32) -> Option<T>
        ensures removed { self.new ≡ without_key T.key_of key self.old }
        ensures found { result ≡ at_key T.key_of key self.old }
    {
        match self.search(key) {
            Ok(place) => Some(self.items.remove(place)),
            Err(_) => None,
        }
    }

    pub fn push(&mut self, x: T) -> Result<(), AllocError>
        requires { IsAscendingBy T.key_of (self.old ++ x ∷ []) }
        ensures ok { OnOk result (self.new ≡ self.old ++ x ∷ []) }
        ensures err { OnErr result (self.new ≡ self.old) }
    {
        // The list keeps that each element is allowed, which its key tells.
        let _key = x.key();
        self.items.push(x)?;
        Ok(())
    }
}

impl<T: Keyed + Copied + Drop> Ordered<T> {
    pub fn copy(&self) -> Result<Self, AllocError>
        ensures { IfOk result (λ copy. copy ≡ self.now) }
    {
        Ok(Ordered {
            items: copy_each(*self.items.allocator(), &self.items)?,
        })
    }

    /// The first `count` elements, or all where there are fewer.
    pub fn first(&self, count: usize) -> Result<Self, AllocError>
        ensures { IfOk result (λ front. front ≡ take count self.now) }
    {
        let count = count.min(self.items.len());
        Ok(Ordered {
            items: copy_each(*self.items.allocator(), &self.items[..count])?,
        })
    }
}
