ghost use Rattle.std.specs.Prelude.{◌≡◌, [], length, IsTrue, ◌↔◌};

use cs_script::Event;
use std::marker::Model;

/// A step of a plan.
#[derive(Debug, PartialEq, Eq, Drop)]
pub enum Planned {
    /// The event happens.
    Event(Event),
    /// All nodes receive what came to them, until nothing more comes.
    Poll,
}

/// Events and polls, in order.
#[derive(Debug, Drop)]
pub struct Plan {
    items: Vec<Planned>,
}

impl Model for Plan {
    ghost use Rattle.std.specs.Prelude.{List};
    ghost use Rattle.cs_drill.specs.declared.plan.Planned.{Planned};

    ghost Value = { List Planned };

    ghost view = { λ plan. plan.items.items };
}

impl From<Vec<Planned>> for Plan {
    fn from(items: Vec<Planned>) -> Self
        ensures { result ≡ items.items }
    {
        Plan { items }
    }
}

impl Plan {
    pub fn len(&self) -> usize
        ensures { result ≡ length self.now }
    {
        self.items.len()
    }

    pub fn is_empty(&self) -> bool
        ensures { IsTrue result ↔ (self.now ≡ []) }
    {
        self.items.is_empty()
    }

    pub fn as_slice(&self) -> &[Planned]
        ensures { result.now ≡ self.now }
    {
        &self.items
    }
}
