ghost use Rattle.std.specs.Prelude.{◌≡◌, ℕ, ◌+◌, ◌<◌, Some, SomeIff, decimal};
ghost use Rattle.cs_base.specs.Limits.{last_number};

use crate::LAST_NUMBER;
use std::fmt;
use std::marker::Model;

/// The id of a region, which isn't the last number of 32 bits.
#[derive(Clone, Copy, Debug, PartialEq, Eq, PartialOrd, Ord, Hash)]
pub struct RegionId {
    number: u32,
}

impl Model for RegionId {
    ghost Value = { ℕ };

    ghost view = { λ region. region.number };

    ghost invariant = { λ region. region.number < last_number + 1 };

    ghost inverse = { λ n. record { number = n } };
}

impl RegionId {
    pub fn new(n: u32) -> Option<Self>
        ensures { SomeIff result (n < last_number + 1) n }
    {
        if n > LAST_NUMBER {
            None
        } else {
            Some(RegionId { number: n })
        }
    }

    pub fn get(self) -> u32
        ensures value { result ≡ self }
        ensures not_last { result < last_number + 1 }
    {
        self.number
    }
}

impl fmt::Display for RegionId {
    ghost output = { λ region. Some (decimal region) };

    fn fmt<W: fmt::Write>(&self, f: &mut fmt::Formatter<W>) -> fmt::Result {
        let number = self.get();
        write!(f, "{number}")
    }
}
