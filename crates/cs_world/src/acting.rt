//! Actions on the nodes in their seats.

ghost use Rattle.std.specs.Prelude.{◌≡◌};
ghost use Rattle.cs_world.specs.Acting.{ActsAt};
ghost use Rattle.cs_world.specs.Receiving.{received_of};
ghost use Rattle.cs_world.specs.Seats.{ids_of, seats_of};
ghost use Rattle.cs_world.specs.declared.action.Action.TheVariants as actions;
ghost use Rattle.cs_world.specs.declared.call.Call.TheVariants as calls;

use crate::action::{Action, Changed, act_on, deliver};
use crate::call::{Answer, Call};
use crate::seat::Seat;
use crate::seats::Seats;
use crate::tap::Tapped;
use cs_base::NodeId;
use cs_core::ViewPool;
use cs_log::Armed;
use cs_node::Process;
use std::alloc::Global;

/// What a node answered, and how many packets it had sent before.
#[derive(Debug, Drop)]
pub struct Acted {
    pub earlier: usize,
    pub answer: Answer,
}

impl<L: Tapped, G: Armed> Seats<Process<L, G>> {
    /// The action on the node with this id, where there is one. Bytes come to a node in its seat; for any other action
    /// it is taken out and put back.
    pub fn act(
        &mut self,
        alloc: Global,
        pool: &ViewPool,
        id: NodeId,
        action: &Action<'_>,
    ) -> Option<Acted>
        ensures acts { ActsAt L.Link G.Log id action.now result self.old self.new }
        ensures ids { ids_of self.new ≡ ids_of self.old }
        // An action receives nothing.
        ensures received { received_of (seats_of L.Link G.Log self.new)
            ≡ received_of (seats_of L.Link G.Log self.old) }
    {
        match action {
            Action::Call(Call::Deliver(bytes)) => self.deliver(id, bytes),
            action => self.act_as_state(alloc, pool, id, action),
        }
    }

    /// Bytes come to the node with this id, where there is one.
    pub fn deliver(&mut self, id: NodeId, bytes: &[u8]) -> Option<Acted>
        ensures acts { ActsAt L.Link G.Log id (actions.Call (calls.Deliver bytes.entry)) result self.old self.new }
        ensures ids { ids_of self.new ≡ ids_of self.old }
        ensures received { received_of (seats_of L.Link G.Log self.new)
            ≡ received_of (seats_of L.Link G.Log self.old) }
    {
        let place = self.place(id)?;
        let earlier = self.items[place].state.link().count();
        let answer = deliver(&mut self.items[place].state, bytes);
        Some(Acted { earlier, answer })
    }

    // The action on the node with this id, where there is one: it acts as a state, and is put back as it is then.
    fn act_as_state(
        &mut self,
        alloc: Global,
        pool: &ViewPool,
        id: NodeId,
        action: &Action<'_>,
    ) -> Option<Acted>
        ensures acts { ActsAt L.Link G.Log id action.now result self.old self.new }
        ensures ids { ids_of self.new ≡ ids_of self.old }
        ensures received { received_of (seats_of L.Link G.Log self.new)
            ≡ received_of (seats_of L.Link G.Log self.old) }
    {
        let place = self.place(id)?;
        let last = self.items.len() - 1;
        let Seat { id, state } = self.items.swap_remove(place);
        let earlier = state.link().count();
        let Changed { process, answer } = act_on(alloc, pool, state, action);
        self.items.push_reserved(Seat { id, state: process });
        self.items.swap(place, last);
        Some(Acted { earlier, answer })
    }
}
