ghost use Rattle.std.specs.Prelude.{◌≡◌, [], length, IsTrue, ◌↔◌};

use cs_script::Event;
use std::marker::Model;

/// Events, in order.
#[derive(Debug, Drop)]
pub struct Events {
    items: Vec<Event>,
}

impl Model for Events {
    ghost use Rattle.std.specs.Prelude.{List};
    ghost use Rattle.cs_script.specs.declared.event.Event.{Event};

    ghost Value = { List Event };

    ghost view = { λ events. events.items.items };
}

impl From<Vec<Event>> for Events {
    fn from(items: Vec<Event>) -> Self
        ensures { result ≡ items.items }
    {
        Events { items }
    }
}

impl Events {
    pub fn len(&self) -> usize
        ensures { result ≡ length self.now }
    {
        self.items.len()
    }

    pub fn is_empty(&self) -> bool
        ensures { IsTrue result ↔ (self.now ≡ []) }
    {
        self.items.is_empty()
    }

    pub fn as_slice(&self) -> &[Event]
        ensures { result.now ≡ self.now }
    {
        &self.items
    }
}
