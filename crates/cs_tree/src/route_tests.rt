ghost use Rattle.std.specs.Prelude.{◌≡◌, ◌<◌, ◌∷◌, [], length};
ghost use Rattle.cs_base.specs.Limits.{colours};
ghost use Rattle.cs_roll.specs.Summary.{summary_of};

use crate::{
    Targets, WithTrees, inter_trees_are_good, inter_uncounted, local_trees_are_good, route, start,
    targets_are_seen,
};
use cs_base::{Addr, Member, NodeId, Point, RegionId};
use cs_roll::{Roll, Sight, Summary};
use std::process::Abort;

// A node with this id and port.
fn node(rt: &impl Abort, id: u32, port: u16) -> (NodeId, Addr) {
    let id = NodeId::new(id).expect(rt, "id");
    let addr = Addr::new([127, 0, 0, 1], port).expect(rt, "address");
    (id, addr)
}

// A member with this id and port, on the first axis.
fn member_at(rt: &impl Abort, id: u32, port: u16, x: i32) -> Member {
    let (id, addr) = node(rt, id, port);
    let at = Point::new(x, 0, 0).expect(rt, "point");
    Member { id, addr, at }
}

// A roll of such members.
pub(crate) fn roll_of<R: AllocGlobal + Abort>(rt: &R, members: &[(u32, u16, i32)]) -> Roll {
    let mut roll = Roll::new(rt.alloc());
    for (id, port, x) in members {
        let member = member_at(rt, *id, *port, *x);
        roll.insert(member).expect(rt, "memory");
    }
    roll
}

// The summary of a roll, which has 1 to 10,000 members.
pub(crate) fn summed(rt: &impl Abort, roll: &Roll) -> Summary
    ensures { result ≡ summary_of roll.now }
{
    assert!(rt; !roll.is_empty());
    assert!(rt; roll.len() <= 10_000);
    roll.summary().expect(rt, "memory")
}

// The summary of one member.
fn summed_alone<R: AllocGlobal + Abort>(rt: &R, id: u32, port: u16, x: i32) -> Summary {
    summed(rt, &roll_of(rt, &[(id, port, x)]))
}

// Looks at whom a node passes a piece on to that is of the region at a place of the sight.
fn check_route<R: AllocGlobal + Abort, V: Sight>(
    rt: &R,
    me: NodeId,
    sight: &V,
    place: usize,
    colour: u8,
    nodes: &[(NodeId, Addr)],
)
    requires colour { colour < colours }
    requires place { place < length (V.summaries sight.now) }
{
    let region = sight.region(place);
    let targets = route(rt.alloc(), me, sight, region, colour).expect(rt, "memory");
    assert_eq!(rt; targets.as_slice(), nodes);
}

// The same, where the trees of the sight are beside it.
fn check_beside<R: AllocGlobal + Abort, V: Sight + Drop>(
    rt: &R,
    me: NodeId,
    both: &WithTrees<V>,
    place: usize,
    colour: u8,
    nodes: &[(NodeId, Addr)],
)
    requires colour { colour < colours }
    requires place { place < length (V.summaries both.now) }
{
    let region = both.sight().region(place);
    let targets = both.route(me, region, colour).expect(rt, "memory");
    assert_eq!(rt; targets.as_slice(), nodes);
}

// Looks at whom a node sends a piece to that it made, of the region at a place of the sight.
fn check_start<R: AllocGlobal + Abort, V: Sight>(
    rt: &R,
    me: NodeId,
    sight: &V,
    place: usize,
    colour: u8,
    nodes: &[(NodeId, Addr)],
)
    requires colour { colour < colours }
    requires place { place < length (V.summaries sight.now) }
{
    let region = sight.region(place);
    let tree = inter_uncounted(rt.alloc(), sight, colour).expect(rt, "memory");
    let targets = start(rt.alloc(), me, sight, &tree, region, colour).expect(rt, "memory");
    assert_eq!(rt; targets.as_slice(), nodes);
}

// Region 0 alone, whose roll is known.
#[derive(Drop)]
pub(crate) struct OneRegion {
    pub roll: Roll,
    pub summary: Summary,
    ghost sums_up: { summary ≡ summary_of roll },
}

impl Sight for OneRegion {
    ghost summaries = { λ s. (0, s.summary) ∷ [] };

    ghost rolls = { λ s. (0, s.roll) ∷ [] };

    fn count(&self) -> usize {
        let _size = self.summary.size;
        let _members = self.roll.as_slice();
        1
    }

    fn region(&self, _i: usize) -> RegionId {
        RegionId::new(0).unwrap()
    }

    fn summary(&self, _i: usize) -> &Summary {
        &self.summary
    }

    fn roll(&self, r: RegionId) -> Option<&Roll> {
        if r.get() == 0 { Some(&self.roll) } else { None }
    }
}

// Regions 0, 1, 2 and 3, of which the roll of region 2 is known.
#[derive(Drop)]
struct FourRegions {
    zero: Summary,
    one: Summary,
    two: Summary,
    three: Summary,
    roll: Roll,
    ghost sums_up: { two ≡ summary_of roll },
}

impl Sight for FourRegions {
    ghost summaries = { λ s. (0, s.zero) ∷ (1, s.one) ∷ (2, s.two) ∷ (3, s.three) ∷ [] };

    ghost rolls = { λ s. (2, s.roll) ∷ [] };

    fn count(&self) -> usize {
        let _zero = self.zero.size;
        let _one = self.one.size;
        let _two = self.two.size;
        let _three = self.three.size;
        let _members = self.roll.as_slice();
        4
    }

    fn region(&self, i: usize) -> RegionId {
        RegionId::new(i as u32).unwrap()
    }

    fn summary(&self, i: usize) -> &Summary {
        match i {
            0 => &self.zero,
            1 => &self.one,
            2 => &self.two,
            _ => &self.three,
        }
    }

    fn roll(&self, r: RegionId) -> Option<&Roll> {
        if r.get() == 2 { Some(&self.roll) } else { None }
    }
}

// The regions at x = 0, 10, 20 and 30, so that the edges of each inter-region tree are 0>2, 1>0 and 1>3. The members
// of region 2 are 4 and 5, that of region 1 is 4 again, and that of region 0 has an id of its own choice.
fn strange<R: AllocGlobal + Abort>(rt: &R, zero: u32) -> FourRegions {
    let roll = roll_of(rt, &[(4, 9004, 20), (5, 9005, 20)]);
    FourRegions {
        zero: summed_alone(rt, zero, 9500, 0),
        one: summed_alone(rt, 4, 9400, 10),
        two: summed(rt, &roll),
        three: summed_alone(rt, 7, 9007, 30),
        roll,
    }
}

#[test]
fn three_members(rt: HostRuntime) {
    let roll = roll_of(&rt, &[(1, 9001, 0), (2, 9002, 10), (3, 9003, 20)]);
    let summary = summed(&rt, &roll);
    let sight = OneRegion { roll, summary };
    let me = node(&rt, 1, 9001).0;
    let others = [node(&rt, 2, 9002), node(&rt, 3, 9003)];
    check_route(&rt, me, &sight, 0, 3, &others);
}

#[test]
fn the_earlier_rule_and_a_repeated_id(rt: HostRuntime) {
    // Node 4 represents region 1, and offers 5 as the representative of region 0; and it has the child 5 in region 2.
    let sight = strange(&rt, 5);
    let four = node(&rt, 4, 9004).0;
    let zero = [node(&rt, 5, 9500)];
    check_route(&rt, four, &sight, 2, 0, &zero);

    // The roll of region 0 isn't known.
    check_route(&rt, four, &sight, 0, 0, &zero);
    check_route(&rt, zero[0].0, &sight, 0, 0, &[]);
}

#[test]
fn a_node_may_send_to_itself(rt: HostRuntime) {
    // Node 4 represents regions 1 and 0.
    let sight = strange(&rt, 4);
    let nodes = [node(&rt, 4, 9500), node(&rt, 5, 9005)];
    check_route(&rt, nodes[0].0, &sight, 0, 0, &nodes[..1]);
    check_route(&rt, nodes[0].0, &sight, 2, 1, &nodes);
}

#[test]
fn a_route_beside_the_trees(rt: HostRuntime) {
    // The targets are those that `route` finds.
    let both = WithTrees::new(rt.alloc(), strange(&rt, 5)).expect(&rt, "memory");
    let zero = [node(&rt, 5, 9500)];
    let four = node(&rt, 4, 9004).0;
    check_beside(&rt, four, &both, 2, 0, &zero);
    check_beside(&rt, four, &both, 0, 0, &zero);
    check_beside(&rt, zero[0].0, &both, 0, 0, &[]);
}

#[test]
fn a_piece_starts_at_the_root_of_its_colour(rt: HostRuntime) {
    let roll = roll_of(&rt, &[(1, 9001, 0), (2, 9002, 10), (3, 9003, 20)]);
    let summary = summed(&rt, &roll);
    let sight = OneRegion { roll, summary };
    let three = node(&rt, 3, 9003).0;
    check_start(&rt, three, &sight, 0, 0, &[node(&rt, 1, 9001)]);
    check_start(&rt, three, &sight, 0, 1, &[node(&rt, 2, 9002)]);

    // Node 1 represents the region for colour 0.
    let one = node(&rt, 1, 9001).0;
    let others = [node(&rt, 2, 9002), node(&rt, 3, 9003)];
    check_start(&rt, one, &sight, 0, 0, &others);
}

#[test]
fn the_address_of_the_root_stays(rt: HostRuntime) {
    // Node 5 represents region 0, the parent of region 2, and has 4 and 5 on its route in region 2.
    let sight = strange(&rt, 5);
    let nodes = [node(&rt, 4, 9400), node(&rt, 5, 9005)];
    check_start(&rt, nodes[1].0, &sight, 2, 1, &nodes);

    // Node 4 represents region 1, which is the root.
    check_start(&rt, nodes[0].0, &sight, 2, 0, &[node(&rt, 5, 9500)]);
}

#[test]
fn targets_are_a_list(rt: HostRuntime) {
    let mut targets = Targets::new(rt.alloc());
    assert!(rt; targets.is_empty());
    let five = [node(&rt, 5, 9005)];
    targets.push(five[0]).expect(&rt, "memory");
    assert_eq!(rt; targets.len(), 1);
    let copy = targets.copy().expect(&rt, "memory");
    assert_eq!(rt; copy.as_slice(), five.as_slice());
    local_trees_are_good();
    inter_trees_are_good();
    targets_are_seen();
}
