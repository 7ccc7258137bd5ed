ghost use Rattle.std.specs.Prelude.{◌≡◌, ◌<◌, ◌≤◌, ◌∷◌, [], length};
ghost use Rattle.cs_base.specs.Limits.{most_summed};

use crate::{Steps, Tree, inter_uncounted, local};
use cs_base::{Addr, Member, NodeId, Point, RegionId};
use cs_roll::{Roll, Sight, Summary};
use std::marker::Brand;
use std::process::Abort;
use std::sync::ledger::{Blank, Ledger};

// A member with this id at this point.
fn member_at(rt: &impl Abort, id: u32, at: [i32; 3]) -> Member {
    Member {
        id: NodeId::new(id).expect(rt, "id"),
        addr: Addr::new([127, 0, 0, 1], 9000).expect(rt, "address"),
        at: Point::new(at[0], at[1], at[2]).expect(rt, "point"),
    }
}

// The roll of members with the ids from 1 on, at these points.
fn roll_at<R: AllocGlobal + Abort>(rt: &R, points: &[[i32; 3]]) -> Roll {
    let mut roll = Roll::new(rt.alloc());
    let mut id = 1;
    for at in points {
        roll.insert(member_at(rt, id, *at)).expect(rt, "memory");
        id = id.wrapping_add(1);
    }
    roll
}

// The local tree of a colour, where there is one, by a counter of steps.
fn counted<R: AllocGlobal + Abort, L: Ledger>(
    rt: &R,
    roll: &Roll,
    colour: u8,
    blank: Blank,
) -> Option<Tree>
    requires name { blank.name ≡ L.name }
    requires parts { blank.parts ≡ L.parts }
    requires some { 0 < blank.parts }
    requires few { length roll.now ≤ most_summed }
{
    let mut steps = Steps::<L>::new(blank);
    local(rt.alloc(), roll, colour, &mut steps).expect(rt, "memory")
}

// The same of members at these points.
fn local_of<R: AllocGlobal + Abort>(rt: &R, points: &[[i32; 3]], colour: u8) -> Option<Tree> {
    let roll = roll_at(rt, points);
    assert!(rt; roll.len() <= 10_000);
    counted::<R, Brand>(rt, &roll, colour, Blank::new(1))
}

// Puts the edges from a key to its children behind the others.
fn append_edges(rt: &impl Abort, found: &mut Vec<(u32, u32)>, tree: &Tree, key: u32) {
    let children = tree.children(key);
    assert_eq!(rt; tree.is_interior(key), !children.is_empty());
    for child in children {
        assert_eq!(rt; tree.parent(*child), Some(key));
        found.push((key, *child)).expect(rt, "memory");
    }
}

// Asserts that a tree of some of the keys from 0 to 20 has this root and these edges.
fn assert_tree<R: AllocGlobal + Abort>(rt: &R, tree: &Tree, root: u32, edges: &[(u32, u32)]) {
    let mut found = Vec::new(rt.alloc());
    for key in 0..=20 {
        append_edges(rt, &mut found, tree, key);
    }
    assert_eq!(rt; tree.root(), root);
    assert_eq!(rt; tree.parent(root), None);
    assert_eq!(rt; found.as_slice(), edges);
}

// Asserts that the local tree of a colour has this root and these edges.
fn assert_local<R: AllocGlobal + Abort>(
    rt: &R,
    points: &[[i32; 3]],
    colour: u8,
    root: u32,
    edges: &[(u32, u32)],
) {
    let tree = local_of(rt, points, colour).expect(rt, "tree");
    assert_tree(rt, &tree, root, edges);
}

const IN_A_ROW: [[i32; 3]; 7] = [
    [0, 0, 0],
    [10, 0, 0],
    [20, 0, 0],
    [30, 0, 0],
    [40, 0, 0],
    [50, 0, 0],
    [60, 0, 0],
];

#[test]
fn members_in_a_row(rt: HostRuntime) {
    for (count, colour, root, edges) in [
        (1, 0, 1, [].as_slice()),
        (2, 0, 1, [(1, 2)].as_slice()),
        (2, 1, 2, [(2, 1)].as_slice()),
        (3, 0, 1, [(1, 2), (1, 3)].as_slice()),
        (3, 1, 2, [(2, 1), (2, 3)].as_slice()),
        (3, 2, 3, [(3, 1), (3, 2)].as_slice()),
        (5, 0, 1, [(1, 4), (1, 5), (5, 2), (5, 3)].as_slice()),
        (5, 1, 2, [(2, 1), (2, 3), (2, 4), (2, 5)].as_slice()),
        (
            7,
            3,
            4,
            [(4, 1), (4, 2), (4, 3), (4, 5), (4, 6), (4, 7)].as_slice(),
        ),
    ] {
        let points = IN_A_ROW.get(..count).expect(&rt, "count");
        assert_local(&rt, points, colour, root, edges);
    }
    assert!(rt; local_of(&rt, &IN_A_ROW[..3], 3).is_none());
    assert!(rt; local_of(&rt, &IN_A_ROW, 4).is_none());
}

#[test]
fn members_at_one_point(rt: HostRuntime) {
    let edges = [
        (1, 4),
        (1, 5),
        (1, 6),
        (1, 9),
        (5, 2),
        (5, 3),
        (9, 7),
        (9, 8),
    ];
    assert_local(&rt, &[[1, 1, 1]; 9], 0, 1, &edges);
}

#[test]
fn members_at_the_greatest_coordinates(rt: HostRuntime) {
    let far = 1_000_000;
    let corners = [
        [-far, -far, -far],
        [-far, -far, far],
        [-far, far, -far],
        [-far, far, far],
        [far, -far, -far],
        [far, -far, far],
        [far, far, -far],
        [far, far, far],
        [-far, -far, -far],
    ];
    let edges = [
        (1, 4),
        (1, 5),
        (1, 6),
        (1, 9),
        (5, 7),
        (5, 8),
        (9, 2),
        (9, 3),
    ];
    assert_local(&rt, &corners, 0, 1, &edges);
}

#[test]
fn of_equal_coordinates_the_id_decides(rt: HostRuntime) {
    // Of colour 0 are 1, 5, 9 and 13, of which 5 and 13 are as far up, and of colour 3 are 4, 8 and 12.
    let up = [0, 9, 9, 1, 50, 9, 9, 9, -50, 9, 9, 9, 50];
    let points = up.map(|y| [0, y, 0]);
    let edges = [
        (1, 5),
        (1, 10),
        (1, 11),
        (1, 12),
        (1, 13),
        (5, 6),
        (5, 7),
        (5, 8),
        (5, 9),
        (9, 2),
        (9, 3),
        (9, 4),
    ];
    assert_local(&rt, &points, 0, 1, &edges);
}

// Three regions, 0 to 2, of which no roll is known.
#[derive(Drop)]
struct Three {
    first: Summary,
    second: Summary,
    third: Summary,
}

impl Sight for Three {
    ghost summaries = { λ s. (0, s.first) ∷ (1, s.second) ∷ (2, s.third) ∷ [] };

    ghost rolls = { λ _. [] };

    fn count(&self) -> usize {
        let _sizes = [self.first.size, self.second.size, self.third.size];
        3
    }

    fn region(&self, i: usize) -> RegionId {
        RegionId::new(i as u32).unwrap()
    }

    fn summary(&self, i: usize) -> &Summary {
        match i {
            0 => &self.first,
            1 => &self.second,
            _ => &self.third,
        }
    }

    fn roll(&self, _r: RegionId) -> Option<&Roll> {
        None
    }
}

// The summary of the roll of members at these points.
pub(crate) fn summary_at<R: AllocGlobal + Abort>(rt: &R, points: &[[i32; 3]]) -> Summary {
    let roll = roll_at(rt, points);
    assert!(rt; !roll.is_empty());
    assert!(rt; roll.len() <= 10_000);
    roll.summary().expect(rt, "memory")
}

// Asserts that a copy of the inter-region tree of a colour has this root and these edges.
fn assert_inter<R: AllocGlobal + Abort>(
    rt: &R,
    sight: &Three,
    colour: u8,
    root: u32,
    edges: &[(u32, u32)],
) {
    assert!(rt; colour < 4);
    let tree = inter_uncounted(rt.alloc(), sight, colour).expect(rt, "memory");
    let copy = tree.copy().expect(rt, "memory");
    assert_tree(rt, &copy, root, edges);
}

#[test]
fn regions_stand_at_their_representatives(rt: HostRuntime) {
    let sight = Three {
        first: summary_at(&rt, &[[0, 0, 0], [10, 0, 0]]),
        second: summary_at(&rt, &[[10, 0, 0], [0, 0, 0]]),
        third: summary_at(&rt, &[[20, 0, 0], [20, 0, 0]]),
    };
    for (colour, root, edges) in [
        (0, 1, [(1, 0), (1, 2)]),
        (1, 0, [(0, 1), (0, 2)]),
        (2, 1, [(1, 0), (1, 2)]),
        (3, 0, [(0, 1), (0, 2)]),
    ] {
        assert_inter(&rt, &sight, colour, root, &edges);
    }
}
