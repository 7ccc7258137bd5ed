ghost use Rattle.std.specs.Prelude.{IsTrue, ◌↔◌, ◌≡◌, IfOk, OnOk, OnErr, Contains};
ghost use Rattle.cs_base.specs.Ascending.{placed_by};

use crate::{Copied, Keyed, Ordered};
use std::alloc::AllocError;

impl Copied for u32 {
    fn copied(&self) -> Result<Self, AllocError> {
        Ok(*self)
    }
}

/// A number is its own key.
impl Keyed for u32 {
    ghost use Rattle.std.specs.Prelude.{◌<◌, ◌^◌};

    ghost key_of = { λ n. n };

    ghost IsAllowed = { λ n. n < 2 ^ 32 };

    fn key(&self) -> u32 {
        *self
    }
}

/// An ascending list of numbers.
pub type Ids = Ordered<u32>;

impl Ordered<u32> {
    /// Puts the number in its place, and says whether it is new.
    pub fn insert(&mut self, n: u32) -> Result<bool, AllocError>
        ensures placed { OnOk result (self.new ≡ placed_by (λ m. m) n self.old) }
        ensures is_new { IfOk result (λ is_new. IsTrue is_new ↔ ¬ (Contains self.old n)) }
        ensures err { OnErr result (self.new ≡ self.old) }
    {
        match self.search(n) {
            Ok(_) => Ok(false),
            Err(_) => {
                self.put(n)?;
                Ok(true)
            }
        }
    }

    pub fn has(&self, n: u32) -> bool
        ensures { IsTrue result ↔ Contains self.now n }
    {
        self.search(n).is_ok()
    }
}
