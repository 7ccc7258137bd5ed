ghost use Rattle.std.specs.Prelude.{map};
ghost use Rattle.std.specs.BTreeMap.{get};
ghost use Rattle.std.specs.Ordering.{nat_cmp};
ghost use Rattle.cs_world.specs.Places.{ArePlaced};
ghost use Rattle.std.proofs.Props.{props};

use crate::seat::Seat;
use cs_base::NodeId;
use std::collections::BTreeMap;

/// The seats in the order in which the nodes were started, and the place of each by its id.
// The types of states are linear, so one is taken out and put back, and never replaced.
pub struct Seats<S> {
    pub items: Vec<Seat<S>>,
    pub places: BTreeMap<NodeId, usize>,
    ghost placed: { ArePlaced (map (λ seat. seat.id) items.items) (get nat_cmp places) } by { Prim.hlevel props },
}
