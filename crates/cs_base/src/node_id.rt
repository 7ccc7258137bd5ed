ghost use Rattle.std.specs.Prelude.{◌≡◌, ℕ, ◌<◌, Some, SomeIff, decimal};

use std::fmt;
use std::marker::Model;

/// The id of a node, which isn't 0.
#[derive(Clone, Copy, Debug, PartialEq, Eq, PartialOrd, Ord, Hash)]
pub struct NodeId {
    number: u32,
}

impl Model for NodeId {
    ghost Value = { ℕ };

    ghost view = { λ id. id.number };

    ghost invariant = { λ id. 0 < id.number };

    ghost inverse = { λ n. record { number = n } };
}

impl NodeId {
    pub fn new(n: u32) -> Option<Self>
        ensures { SomeIff result (0 < n) n }
    {
        if n == 0 {
            None
        } else {
            Some(NodeId { number: n })
        }
    }

    pub fn get(self) -> u32
        ensures value { result ≡ self }
        ensures not_zero { 0 < result }
    {
        self.number
    }
}

impl fmt::Display for NodeId {
    ghost output = { λ id. Some (decimal id) };

    fn fmt<W: fmt::Write>(&self, f: &mut fmt::Formatter<W>) -> fmt::Result {
        let number = self.get();
        write!(f, "{number}")
    }
}
