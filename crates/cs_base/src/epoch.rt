ghost use Rattle.std.specs.Prelude.{◌≡◌, ℕ, ◌+◌, ◌<◌, Some, SomeIff, decimal};
ghost use Rattle.cs_base.specs.Limits.{last_number};

use crate::LAST_NUMBER;
use std::fmt;
use std::marker::Model;

/// The number of an epoch, which isn't the last one of 32 bits.
#[derive(Clone, Copy, Debug, PartialEq, Eq, PartialOrd, Ord, Hash)]
pub struct Epoch {
    number: u32,
}

impl Model for Epoch {
    ghost Value = { ℕ };

    ghost view = { λ epoch. epoch.number };

    ghost invariant = { λ epoch. epoch.number < last_number + 1 };

    ghost inverse = { λ n. record { number = n } };
}

impl Epoch {
    pub fn new(n: u32) -> Option<Self>
        ensures { SomeIff result (n < last_number + 1) n }
    {
        if n > LAST_NUMBER {
            None
        } else {
            Some(Epoch { number: n })
        }
    }

    pub fn get(self) -> u32
        ensures value { result ≡ self }
        ensures not_last { result < last_number + 1 }
    {
        self.number
    }

    /// The epoch after this one, where this isn't the last.
    pub fn next(self) -> Option<Self>
        ensures { SomeIff result (self + 1 < last_number + 1) (self + 1) }
    {
        Epoch::new(self.number + 1)
    }
}

impl fmt::Display for Epoch {
    ghost output = { λ epoch. Some (decimal epoch) };

    fn fmt<W: fmt::Write>(&self, f: &mut fmt::Formatter<W>) -> fmt::Result {
        let number = self.get();
        write!(f, "{number}")
    }
}
