//! Nodes have their seats.

ghost use Rattle.std.specs.Prelude.{◌≡◌, ◌==◌, ◌<◌, [], ◌∷◌, ◌++◌, ℕ, None, Some, MatchOption, OnOk, if◌then◌else◌};
ghost use Rattle.std.specs.Prelude.{slice_get, vec_len, vec_capacity};
ghost use Rattle.std.specs.Option.{option_copied, option_map};
ghost use Rattle.cs_world.specs.Seats.{place_at, state_at};

use crate::seat::Seat;
use crate::seats::Seats;
use cs_base::NodeId;
use std::alloc::{AllocError, Global};
use std::collections::BTreeMap;

impl<S> Seats<S> {
    pub fn new(alloc: Global) -> Self
        ensures items { result.items.items ≡ [] }
        ensures none { (id : ℕ) → state_at result id ≡ None }
    {
        Seats {
            items: Vec::new(alloc),
            places: BTreeMap::new(alloc),
        }
    }

    /// The place of the node with this id.
    pub fn place(&self, id: NodeId) -> Option<usize>
        ensures { MatchOption result (state_at self.now id ≡ None)
            (λ place. (place < vec_len self.now.items) × (place_at self.now id ≡ Some place)
            × (option_map (λ seat. seat.id) (slice_get self.now.items.items place) ≡ Some id)) }
    {
        let place = self.places.get(&id).copied()?;
        // A place that was noted for a node that never came may be another node's.
        if place < self.items.len() && self.items[place].id == id {
            Some(place)
        } else {
            None
        }
    }

    /// The state of the node with this id.
    pub fn get(&self, id: NodeId) -> Option<&S>
        ensures { option_copied result ≡ state_at self.now id }
    {
        let place = self.place(id)?;
        Some(&self.items[place].state)
    }

    /// Makes room for a node that isn't there.
    pub fn make_room(&mut self, id: NodeId) -> Result<(), AllocError>
        requires { state_at self.old id ≡ None }
        ensures room { OnOk result (vec_len self.new.items < vec_capacity self.new.items) }
        ensures place { OnOk result (place_at self.new id ≡ Some (vec_len self.new.items)) }
        ensures items { self.new.items.items ≡ self.old.items.items }
        ensures states { (other : ℕ) → state_at self.new other ≡ state_at self.old other }
    {
        self.items.reserve(1)?;
        self.places.insert(id, self.items.len())?;
        Ok(())
    }

    /// The node has a seat from now on, for which there is room.
    pub fn push(&mut self, id: NodeId, state: S)
        requires room { vec_len self.old.items < vec_capacity self.old.items }
        requires place { place_at self.old id ≡ Some (vec_len self.old.items) }
        ensures items { self.new.items.items ≡ self.old.items.items ++ record { id = id; state = state } ∷ [] }
        ensures states { (other : ℕ) → state_at self.new other
            ≡ if id == other then Some state else state_at self.old other }
    {
        self.items.push_reserved(Seat { id, state });
    }
}
