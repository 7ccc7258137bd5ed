//! The inter-region trees of as many regions as a group can have, in a line.
ghost use Rattle.std.specs.Prelude.{◌≤◌, [], length};
ghost use Rattle.cs_base.specs.Limits.{most_regions};

use crate::tests::summary_at;
use crate::{Tree, inter_uncounted};
use cs_base::{Keyed, MOST_REGIONS, Ordered, RegionId};
use cs_roll::{Roll, Sight, Summary};
use std::marker::Model;
use std::process::Abort;

// A region with its summary.
#[derive(Debug, Drop)]
struct Listed {
    region: RegionId,
    summary: Summary,
}

impl Model for Listed {
    ghost use Rattle.std.specs.Prelude.{ℕ};
    ghost use Rattle.cs_roll.specs.Summary.{RegionSummary};

    ghost Value = { ℕ × RegionSummary };

    ghost view = { λ listed. (listed.region, listed.summary) };
}

impl Keyed for Listed {
    ghost use Rattle.cs_roll.specs.Summary.{IsSummary};

    ghost key_of = { λ pair. pair.0 };

    ghost IsAllowed = { λ pair. IsSummary pair.1 };

    fn key(&self) -> u32 {
        let _size = self.summary.size;
        self.region.get()
    }
}

// Regions of which no roll is known.
#[derive(Drop)]
struct Line {
    regions: Ordered<Listed>,
    ghost few: { length regions ≤ most_regions },
}

impl Sight for Line {
    ghost summaries = { λ s. s.regions };

    ghost rolls = { λ _. [] };

    fn count(&self) -> usize {
        self.regions.as_slice().len()
    }

    fn region(&self, i: usize) -> RegionId {
        let listed = &self.regions.as_slice()[i];
        listed.region
    }

    fn summary(&self, i: usize) -> &Summary {
        let listed = &self.regions.as_slice()[i];
        &listed.summary
    }

    fn roll(&self, _r: RegionId) -> Option<&Roll> {
        None
    }
}

// A region of one member, as far along the first axis as the region's number.
fn alone<R: AllocGlobal + Abort>(rt: &R, number: u32) -> Listed {
    let x = i32::try_from(number).ok().expect(rt, "coordinate");
    Listed {
        region: RegionId::new(number).expect(rt, "region"),
        summary: summary_at(rt, &[[x, 0, 0]]),
    }
}

// The regions from 0 to 63.
fn sixty_four<R: AllocGlobal + Abort>(rt: &R) -> Line {
    let mut regions = Ordered::new(rt.alloc());
    for number in 0..64 {
        regions.put(alone(rt, number)).expect(rt, "memory");
    }
    assert!(rt; regions.len() <= MOST_REGIONS);
    Line { regions }
}

// The parents of the regions from 0 on. The centroid of a line lies in its middle, and of the two regions there the
// left one is nearer or as near: so 31 is the root, and what remains is parted into 0 to 30 with 32, and 33 to 63.
const PARENTS: &str =
    "1 4 0 1 7 6 4 16 6 10 12 10 7 14 12 14 31 18 20 18 24 22 20 22 16 26 28 26 24 30 28 - \
    30 34 36 34 40 38 36 38 48 42 44 42 40 46 44 46 31 50 52 50 56 54 52 54 48 58 60 58 56 62 60 62";

// Asserts that each region hangs where the list says, and that none has a further child.
fn check_parents(rt: &impl Abort, tree: &Tree) {
    let mut below: usize = 0;
    let mut region = 0;
    for word in PARENTS.split(" ") {
        assert_eq!(rt; tree.parent(region), word.parse().ok());
        below = below.wrapping_add(tree.children(region).len());
        region = region.wrapping_add(1);
    }
    assert_eq!(rt; (region, below), (64, 63));
}

#[test]
fn sixty_four_regions_in_a_line(rt: HostRuntime) {
    let sight = sixty_four(&rt);
    assert!(rt; sight.count() == 64);
    for colour in 0..4 {
        let tree = inter_uncounted(rt.alloc(), &sight, colour).expect(&rt, "memory");
        assert_eq!(rt; tree.root(), 31);
        check_parents(&rt, &tree);
    }
}
