// The trees that a node keeps.
use super::fields::{Fields, JOINED, MOVED, REGIONS_MOVED, ROLL_1_MOVED, ROLL_OF_TRIO, TRIO};
use super::steps::{Came, Note, Row, after_all, at_5, joined, node_2, region_of};
use crate::{Follower, ViewPool};
use cs_base::Mode;
use cs_item::{Head, decode_slice};
use cs_roll::{Roll, Sight};
use cs_tree::{Kept, Tree, inter_uncounted, local_uncounted};
use cs_view::View;
use std::alloc::AllocError;
use std::process::Abort;

/// The inter-region tree, which is the same for each colour, a known region, and its local trees by colour: the root,
/// and then the edges.
struct Trees<'a>(&'a str, u32, &'a [&'a str]);

fn put_tree(text: &mut String, tree: &Tree) -> Result<(), AllocError> {
    write!(text, "{}", tree.root())?;
    for key in 0..=6 {
        put_children(text, key, tree.children(key))?;
    }
    Ok(())
}

fn put_children(text: &mut String, key: u32, children: &[u32]) -> Result<(), AllocError> {
    for child in children {
        write!(text, " {key}>{child}")?;
    }
    Ok(())
}

fn text_of<R: AllocGlobal + Abort>(rt: &R, tree: Option<&Tree>) -> String {
    let mut text = String::new(rt.alloc());
    match tree {
        Some(tree) => put_tree(&mut text, tree).expect(rt, "memory"),
        None => write!(text, "none").expect(rt, "memory"),
    }
    text
}

// The kept tree is the one that is built, and as it has to be.
fn check_tree<R: AllocGlobal + Abort>(
    rt: &R,
    kept: Option<&Tree>,
    built: Option<&Tree>,
    tree: &str,
) {
    let kept = text_of(rt, kept);
    let built = text_of(rt, built);
    assert_eq!(rt; kept.as_str(), built.as_str());
    assert_eq!(rt; kept.as_str(), tree);
}

fn check_between<R: AllocGlobal + Abort>(rt: &R, kept: &Kept, view: &View, tree: &str) {
    assert!(rt; view.count() > 0);
    for colour in 0..4 {
        let built = inter_uncounted(rt.alloc(), view, colour).expect(rt, "memory");
        check_tree(rt, Some(kept.inter_tree(colour)), Some(&built), tree);
    }
}

fn check_within<R: AllocGlobal + Abort>(
    rt: &R,
    kept: &Kept,
    roll: &Roll,
    region: u32,
    trees: &[&str],
) {
    assert!(rt; roll.len() <= 3);
    for colour in 0..4 {
        let built = local_uncounted(rt.alloc(), roll, colour).expect(rt, "memory");
        let tree = trees.get(usize::from(colour)).unwrap_or(&"none");
        let kept = kept.local_tree(region_of(rt, region), colour);
        check_tree(rt, kept, built.as_ref(), tree);
    }
}

// Of the regions 0 to 2 one is known.
fn check_trees<R: AllocGlobal + Abort>(rt: &R, node: &Follower, trees: &Trees) {
    let Trees(between, known, within) = *trees;
    let view = node.view().expect(rt, "view");
    let kept = node.kept().expect(rt, "trees");
    check_between(rt, kept, view, between);
    for region in 0..3 {
        match view.roll(region_of(rt, region)) {
            Some(roll) => check_within(rt, kept, roll, region, within),
            None => assert!(rt; kept.local_tree(region_of(rt, region), 0).is_none()),
        }
        assert_eq!(rt; view.roll(region_of(rt, region)).is_some(), region == known);
    }
}

const OF_1_AND_2: Trees = Trees("0 0>1 0>2", 0, &["1 1>2", "2 2>1"]);

// At epoch 6 node 6 is in region 0.
const JOIN: &[Row] = &[
    Row(Came::Piece(6, 0, 0, JOINED), Note::Held, ""),
    Row(
        Came::Piece(6, 0, 1, JOINED),
        Note::Held,
        "2>1@9001 piece 6 0 1",
    ),
    Row(
        Came::Piece(6, 0, 2, JOINED),
        Note::Advanced(6),
        "log step 0, 2>1@9001 piece 6 0 3",
    ),
];

const OF_1_2_AND_6: Trees = Trees("0 0>1 0>2", 0, &["1 1>2 1>6", "2 2>1 2>6", "6 6>1 6>2"]);

// At epoch 7 there is one region, with node 3.
const ONE_REGION: &[Row] = &[Row(
    Came::Snap(7, TRIO, ROLL_OF_TRIO),
    Note::Jumped(7),
    "log view 7",
)];

const OF_1_2_AND_3: Trees = Trees("0", 0, &["1 1>2 1>3", "2 2>1 2>3", "3 3>1 3>2"]);

// At epoch 8 node 2 is in region 1.
const OTHER_REGION: &[Row] = &[Row(
    Came::Snap(8, REGIONS_MOVED, ROLL_1_MOVED),
    Note::Jumped(8),
    "log view 8",
)];

const OF_2_3_AND_4: Trees = Trees("0 0>1 0>2", 1, &["2 2>3 2>4", "3 3>2 3>4", "4 4>2 4>3"]);

#[test]
fn a_member_keeps_the_trees_of_its_view(rt: HostRuntime) {
    assert!(&rt; node_2(&rt, Mode::Partial).kept().is_none());
    let node = at_5(&rt, Mode::Partial);
    check_trees(&rt, &node, &OF_1_AND_2);
    let node = after_all(&rt, node, JOIN);
    check_trees(&rt, &node, &OF_1_2_AND_6);
    let node = after_all(&rt, node, ONE_REGION);
    check_trees(&rt, &node, &OF_1_2_AND_3);
    let node = after_all(&rt, node, OTHER_REGION);
    check_trees(&rt, &node, &OF_2_3_AND_4);
}

#[test]
fn nodes_with_a_pool_in_common_go_by_one_view(rt: HostRuntime) {
    let pool = ViewPool::new(rt.alloc());
    let node = at_5(&rt, Mode::Partial).sharing(pool.share());
    let late = at_5(&rt, Mode::Partial).sharing(pool.share());
    let node = after_all(&rt, node, JOIN);
    assert!(&rt; !node.shares_view(&late));
    let late = after_all(&rt, late, JOIN);
    assert!(&rt; node.shares_view(&late));
    check_trees(&rt, &late, &OF_1_2_AND_6);
    let node = after_all(&rt, node, ONE_REGION);
    check_trees(&rt, &node, &OF_1_2_AND_3);
    let late = after_all(&rt, late, ONE_REGION);
    assert!(&rt; node.shares_view(&late));
}

fn head_of<R: AllocGlobal + Abort>(rt: &R, slice: Fields) -> Head {
    let bytes = joined(rt, slice);
    let slice = decode_slice(rt.alloc(), &bytes).expect(rt, "slice");
    slice.head.copy().expect(rt, "memory")
}

#[test]
fn the_last_step_of_the_summaries_is_found_again(rt: HostRuntime) {
    let pool = ViewPool::new(rt.alloc());
    let late = at_5(&rt, Mode::Partial);
    let before = late.view().expect(&rt, "view").regions();
    let by_join = head_of(&rt, JOINED);
    assert!(&rt; !pool.has_step(before, &by_join));
    let node = after_all(&rt, at_5(&rt, Mode::Partial).sharing(pool.share()), JOIN);
    assert!(&rt; pool.has_step(before, &by_join));
    assert!(&rt; !pool.has_step(before, &head_of(&rt, MOVED)));
    let after = node.view().expect(&rt, "view").regions();
    assert!(&rt; !pool.has_step(after, &by_join));
    assert!(&rt; !ViewPool::none().has_step(before, &by_join));
}

#[test]
fn nodes_without_a_pool_go_by_views_of_their_own(rt: HostRuntime) {
    let node = after_all(&rt, at_5(&rt, Mode::Partial), JOIN);
    let other = after_all(&rt, at_5(&rt, Mode::Partial), JOIN);
    assert!(&rt; !node.shares_view(&other));
    check_trees(&rt, &other, &OF_1_2_AND_6);
}
