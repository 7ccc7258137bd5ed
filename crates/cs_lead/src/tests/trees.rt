// The trees that the leader keeps of its view. Its members stand in a row, in region 0 alone.
use super::fields::{JOIN_2, JOIN_3, JOIN_4, JOIN_5};
use super::steps::{Came, Row, after_all, leader_1};
use crate::Leader;
use cs_base::RegionId;
use cs_tree::Tree;
use std::process::Abort;

// Keys of a tree, each with its children.
type Children<'a> = &'a [(u32, &'a [u32])];

fn check_tree(rt: &impl Abort, tree: &Tree, root: u32, children: Children) {
    assert_eq!(rt; tree.root(), root);
    for (key, below) in children {
        assert_eq!(rt; tree.children(*key), *below);
    }
}

fn check_between(rt: &impl Abort, leader: &Leader) {
    for colour in 0..4 {
        check_tree(rt, leader.kept().inter_tree(colour), 0, &[(0, &[])]);
    }
}

fn check_within(rt: &impl Abort, leader: &Leader, colour: u8, root: u32, children: Children) {
    let region = RegionId::new(0).expect(rt, "region");
    let tree = leader.kept().local_tree(region, colour).expect(rt, "tree");
    check_tree(rt, tree, root, children);
}

#[test]
fn trees_are_those_of_the_view(rt: HostRuntime) {
    const JOINS: &[Row] = &[
        Row(
            Came::Packet(1, 2, &["04", JOIN_2, JOIN_3, JOIN_4, JOIN_5]),
            "noted 4 0 0 0",
            "",
        ),
        Row(
            Came::Close,
            "closed 1 4",
            "log item 1 4, 1>2@9002 snap 1 0, 1>3@9003 snap 1 0, 1>4@9004 snap 1 0, 1>5@9005 snap 1 0",
        ),
    ];
    let leader = leader_1(&rt);
    check_between(&rt, &leader);
    check_within(&rt, &leader, 0, 1, &[(1, &[])]);
    let leader = after_all(&rt, leader, JOINS);
    check_between(&rt, &leader);
    check_within(
        &rt,
        &leader,
        0,
        1,
        &[(1, &[4, 5]), (2, &[]), (3, &[]), (4, &[]), (5, &[2, 3])],
    );
    check_within(
        &rt,
        &leader,
        1,
        2,
        &[(1, &[]), (2, &[1, 3, 4, 5]), (3, &[]), (4, &[]), (5, &[])],
    );
}
