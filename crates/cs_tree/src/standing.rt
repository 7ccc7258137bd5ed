//! Which node represents each region, by colour, found without a look at the members.
ghost use Rattle.std.specs.Prelude.{◌≡◌, ℕ, ◌<◌, List, length, Option, Some, false, slice_get, IfOk};
ghost use Rattle.std.specs.Option.{option_map_or};
ghost use Rattle.cs_base.specs.Limits.{colours};
ghost use Rattle.cs_roll.specs.Sight.{IsByRegion, at_region};
ghost use Rattle.cs_tree.specs.Standing.{NodesByRegion, nodes_of, stands, standings};

use crate::colour::representative;
use crate::routes::represents;
use cs_base::{NodeId, RegionId};
use cs_roll::{Sight, Summary};
use std::alloc::{AllocError, Global};
use std::marker::Model;

/// What tells which node represents each region.
pub(crate) trait HasStandings {
    /// The nodes, by region.
    ghost standings: { Self → NodesByRegion };

    /// Whether a node represents the region at a place, from 0.
    fn stands_at(&self, me: NodeId, place: usize, colour: u8) -> bool
        requires colour { colour < colours }
        requires place { place < length (standings self.now) }
        ensures { (pair : ℕ × List (Option ℕ)) → slice_get (standings self.now) place ≡ Some pair →
            result ≡ stands me colour pair.1 };

    /// Whether a node represents a region.
    fn stands_for(&self, me: NodeId, region: RegionId, colour: u8) -> bool
        requires colour { colour < colours }
        requires ascending { IsByRegion (standings self.now) }
        ensures { result ≡ option_map_or (stands me colour) (at_region region (standings self.now)) false };
}

impl<V: Sight> HasStandings for V {
    ghost use Rattle.cs_tree.specs.Standing.{standings};

    ghost standings = { λ sight. standings (V.summaries sight) };

    fn stands_at(&self, me: NodeId, place: usize, colour: u8) -> bool {
        representative(self.summary(place), colour).id == me
    }

    fn stands_for(&self, me: NodeId, region: RegionId, colour: u8) -> bool {
        represents(me, self, region, colour)
    }
}

/// A region, and the node that represents it in the trees of each colour.
#[derive(Drop)]
struct Standing {
    region: RegionId,
    nodes: [NodeId; 4],
}

impl Model for Standing {
    ghost use Rattle.std.specs.Prelude.{ℕ, List, Option, Some, map};

    ghost Value = { ℕ × List (Option ℕ) };

    ghost view = { λ s. (s.region, map (λ (node : ℕ). Some node) s.nodes) };
}

impl Standing {
    fn new(region: RegionId, summary: &Summary) -> Self
        ensures { result ≡ (region, nodes_of summary.now) }
    {
        let zero = representative(summary, 0).id;
        let one = representative(summary, 1).id;
        let two = representative(summary, 2).id;
        let three = representative(summary, 3).id;
        Standing {
            region,
            nodes: [zero, one, two, three],
        }
    }

    // Whether a node is the one of the colour.
    fn is_of(&self, me: NodeId, colour: u8) -> bool
        requires { colour < colours }
        ensures { result ≡ stands me colour self.now.1 }
    {
        self.nodes[usize::from(colour)] == me
    }
}

/// The same of each region of a sight, ascending by region.
#[derive(Drop)]
pub(crate) struct Standings {
    regions: Vec<Standing>,
}

impl Model for Standings {
    ghost use Rattle.cs_tree.specs.Standing.{NodesByRegion};

    ghost Value = { NodesByRegion };

    ghost view = { λ list. list.regions.items };
}

impl Standings {
    pub(crate) fn new<V: Sight>(alloc: Global, sight: &V) -> Result<Self, AllocError>
        ensures { IfOk result (λ list. list ≡ standings (V.summaries sight.now)) }
    {
        let mut regions = Vec::with_capacity(alloc, sight.count())?;
        for i in 0..sight.count() {
            regions.push(Standing::new(sight.region(i), sight.summary(i)))?;
        }
        Ok(Standings { regions })
    }
}

impl HasStandings for Standings {
    ghost standings = { λ list. list };

    fn stands_at(&self, me: NodeId, place: usize, colour: u8) -> bool {
        self.regions[place].is_of(me, colour)
    }

    fn stands_for(&self, me: NodeId, region: RegionId, colour: u8) -> bool {
        match self
            .regions
            .binary_search_by_key(&region.get(), |s| s.region.get())
        {
            Ok(place) => self.regions[place].is_of(me, colour),
            Err(_) => false,
        }
    }
}
