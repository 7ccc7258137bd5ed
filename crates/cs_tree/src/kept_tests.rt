//! Kept trees, renewed from view to view, against trees that are built anew.
ghost use Rattle.std.specs.Prelude.{◌≡◌, ◌+◌, ◌<◌, ◌≤◌, ◌∷◌, [], length};
ghost use Rattle.std.specs.Option.{ForSome};
ghost use Rattle.cs_base.specs.Limits.{colours};
ghost use Rattle.cs_roll.specs.Summary.{summary_of};
ghost use Rattle.cs_tree.specs.Inter.{region_points};
ghost use Rattle.cs_tree.specs.Kept.{kept_trees};

use crate::kept::are_same_points;
use crate::route_tests::{OneRegion, roll_of, summed};
use crate::{Builder, Kept, Steps, Tree, renewals_build_what_changed};
use cs_base::{NodeId, RegionId};
use cs_roll::{Roll, Sight, Summary};
use std::marker::Brand;
use std::process::Abort;
use std::sync::ledger::{Blank, Ledger};

// Regions 0 and 1, of which the roll of region 1 may be known.
#[derive(Drop)]
struct TwoRegions {
    zero: Summary,
    one: Summary,
    roll: Option<Roll>,
    ghost sums_up: { ForSome roll (λ known. one ≡ summary_of known) },
}

impl Sight for TwoRegions {
    ghost use Rattle.std.specs.Option.{option_map, option_to_list};

    ghost summaries = { λ s. (0, s.zero) ∷ (1, s.one) ∷ [] };

    ghost rolls = { λ s. option_to_list (option_map (λ known. (1, known)) s.roll) };

    fn count(&self) -> usize {
        let _sizes = (self.zero.size, self.one.size);
        if let Some(roll) = &self.roll {
            let _members = roll.as_slice();
        }
        2
    }

    fn region(&self, i: usize) -> RegionId {
        RegionId::new(i as u32).unwrap()
    }

    fn summary(&self, i: usize) -> &Summary {
        match i {
            0 => &self.zero,
            _ => &self.one,
        }
    }

    fn roll(&self, r: RegionId) -> Option<&Roll> {
        if r.get() == 1 {
            self.roll.as_ref()
        } else {
            None
        }
    }
}

// Looks whether two trees of keys up to 64 are the same.
fn check_same(rt: &impl Abort, tree: &Tree, other: &Tree) {
    assert_eq!(rt; tree.root(), other.root());
    for key in 0..=64 {
        assert_eq!(rt; tree.children(key), other.children(key));
    }
}

// Looks whether both keep the same local trees of a region.
fn check_within(rt: &impl Abort, kept: &Kept, other: &Kept, region: RegionId) {
    for colour in 0..=4 {
        match (
            kept.local_tree(region, colour),
            other.local_tree(region, colour),
        ) {
            (Some(tree), Some(same)) => check_same(rt, tree, same),
            (None, None) => (),
            _ => assert!(rt; false),
        }
    }
}

// Looks whether the kept trees are those that are built anew.
fn check_kept<R: AllocGlobal + Abort, V: Sight>(rt: &R, kept: &Kept, sight: &V)
    requires { 0 < length (V.summaries sight.now) }
{
    let other = Kept::new(rt.alloc(), sight).expect(rt, "memory");
    for colour in 0..4 {
        check_same(rt, kept.inter_tree(colour), other.inter_tree(colour));
    }
    for i in 0..sight.count() {
        check_within(rt, kept, &other, sight.region(i));
    }
}

// Renews the trees of one view to those of another, and looks at what comes out.
fn renew_counted<R: AllocGlobal + Abort, V: Sight, L: Ledger>(
    rt: &R,
    old: &V,
    new: &V,
    blank: Blank,
) -> Kept
    requires name { blank.name ≡ L.name }
    requires parts { blank.parts ≡ L.parts }
    requires some_part { 0 < blank.parts }
    requires some_old { 0 < length (V.summaries old.now) }
    requires some_new { 0 < length (V.summaries new.now) }
    ensures { result ≡ kept_trees (V.summaries new.now) (V.rolls new.now) }
{
    let mut steps = Steps::<L>::new(blank);
    let mut kept = Kept::new(rt.alloc(), old).expect(rt, "memory");
    let copy = kept.copy().expect(rt, "memory");
    kept.renew(old, new, &mut steps).expect(rt, "memory");
    check_kept(rt, &kept, new);
    check_kept(rt, &copy, old);
    kept
}

fn renew<R: AllocGlobal + Abort, V: Sight>(rt: &R, old: &V, new: &V) -> Kept
    requires some_old { 0 < length (V.summaries old.now) }
    requires some_new { 0 < length (V.summaries new.now) }
    ensures { result ≡ kept_trees (V.summaries new.now) (V.rolls new.now) }
{
    renew_counted::<R, V, Brand>(rt, old, new, Blank::new(1))
}

// Region 0 alone, with as many members in a row, and the last of them at this place.
fn row<R: AllocGlobal + Abort>(rt: &R, size: u32, last: i32) -> OneRegion {
    let mut members = Vec::new(rt.alloc());
    for id in 1..=size {
        let x = if id == size {
            last
        } else {
            i32::try_from(id)
                .ok()
                .expect(rt, "place")
                .wrapping_mul(10)
                .wrapping_sub(10)
        };
        members.push((id, 9000, x)).expect(rt, "memory");
    }
    let roll = roll_of(rt, &members);
    let summary = summed(rt, &roll);
    OneRegion { roll, summary }
}

#[test]
fn rows_of_three_five_and_seven(rt: HostRuntime) {
    for (size, last) in [(3, 20), (5, 40), (7, 60)] {
        let old = row(&rt, size, last);
        let new = row(&rt, size, last.wrapping_add(1));
        renew(&rt, &old, &old);
        renew(&rt, &old, &new);
        renew(&rt, &new, &old);
    }
}

#[test]
fn a_kept_route(rt: HostRuntime) {
    let sight = row(&rt, 3, 20);
    let kept = Kept::new(rt.alloc(), &sight).expect(&rt, "memory");
    let me = NodeId::new(1).expect(&rt, "id");
    let region = RegionId::new(0).expect(&rt, "region");
    let targets = kept.route(me, &sight, region, 3).expect(&rt, "memory");
    let mut ids = Vec::new(rt.alloc());
    for target in targets.as_slice() {
        ids.push(target.0.get()).expect(&rt, "memory");
    }
    assert_eq!(rt; ids.as_slice(), [2, 3].as_slice());
}

// Renews the trees to those of the same view: no step.
fn renew_quietly<R: AllocGlobal + Abort, V: Sight, L: Ledger>(
    rt: &R,
    sight: &V,
    steps: &mut Steps<L>,
)
    requires { 0 < length (V.summaries sight.now) }
    ensures { steps.new ≤ steps.old }
{
    // The count tells what holds of the sight.
    let _count = sight.count();
    renewals_build_what_changed();
    let mut kept = Kept::new(rt.alloc(), sight).expect(rt, "memory");
    kept.renew(sight, sight, steps).expect(rt, "memory");
}

// Looks whether the representative of a colour stands where it stood.
fn check_points<R: AllocGlobal + Abort>(rt: &R, old: &OneRegion, new: &OneRegion, colour: u8)
    requires { colour < colours }
    ensures { region_points colour ((0, old.now.summary) ∷ []) ≡ region_points colour ((0, new.now.summary) ∷ []) }
{
    let same = are_same_points(old, new, colour);
    assert!(rt; same);
}

// Renews the trees of five members, whose representatives stand where they stood: at most 20 steps.
fn renew_five<R: AllocGlobal + Abort, L: Ledger>(
    rt: &R,
    old: &OneRegion,
    new: &OneRegion,
    steps: &mut Steps<L>,
)
    ensures { steps.new ≤ steps.old + 20 }
{
    assert!(rt; new.roll.len() == 5);
    check_points(rt, old, new, 0);
    check_points(rt, old, new, 1);
    check_points(rt, old, new, 2);
    check_points(rt, old, new, 3);
    renewals_build_what_changed();
    let mut kept = Kept::new(rt.alloc(), old).expect(rt, "memory");
    kept.renew(old, new, steps).expect(rt, "memory");
}

// Both, with steps counted from none on.
fn renew_row<R: AllocGlobal + Abort, L: Ledger>(rt: &R, blank: Blank)
    requires name { blank.name ≡ L.name }
    requires parts { blank.parts ≡ L.parts }
    requires some_part { 0 < blank.parts }
{
    let mut steps = Steps::<L>::new(blank);
    let old = row(rt, 5, 40);
    renew_quietly(rt, &old, &mut steps);
    renew_five(rt, &old, &row(rt, 5, 41), &mut steps);
}

#[test]
fn the_last_of_five_moves(rt: HostRuntime) {
    renew_row::<HostRuntime, Brand>(&rt, Blank::new(1));
}

// The members from one id to another, each as far along the first axis as its id says, and one at another place.
fn roll_between<R: AllocGlobal + Abort>(rt: &R, first: u32, last: u32, mover: u32) -> Roll {
    let mut members = Vec::new(rt.alloc());
    for id in first..=last {
        let x = i32::try_from(id).ok().expect(rt, "place").wrapping_sub(1);
        let x = if id == mover { x.wrapping_neg() } else { x };
        members.push((id, 9000, x)).expect(rt, "memory");
    }
    roll_of(rt, &members)
}

// 49 members in two regions, as one of the second sees them or, without its roll, a mover.
fn forty_nine<R: AllocGlobal + Abort>(rt: &R, mover: u32, is_known: bool) -> TwoRegions {
    let zero = summed(rt, &roll_between(rt, 1, 25, mover));
    let roll = roll_between(rt, 26, 49, mover);
    let one = summed(rt, &roll);
    if is_known {
        TwoRegions {
            zero,
            one,
            roll: Some(roll),
        }
    } else {
        TwoRegions {
            zero,
            one,
            roll: None,
        }
    }
}

#[test]
fn forty_nine_members(rt: HostRuntime) {
    for mover in [0, 1, 9, 26, 30, 49] {
        let old = forty_nine(&rt, 0, true);
        renew(&rt, &old, &forty_nine(&rt, mover, true));
        renew(&rt, &old, &forty_nine(&rt, mover, false));
        renew(&rt, &forty_nine(&rt, mover, false), &old);
    }
}

// The next of some numbers that look random.
fn next_of(seed: &mut u32) -> u32 {
    *seed = seed.wrapping_mul(1_664_525).wrapping_add(1_013_904_223);
    *seed >> 16
}

// A view of two regions with a few members, of which each stands at one of three places.
fn view_of<R: AllocGlobal + Abort>(rt: &R, seed: &mut u32) -> TwoRegions {
    let zero = summed(rt, &roll_by(rt, 1, seed));
    let roll = roll_by(rt, 20, seed);
    let one = summed(rt, &roll);
    if next_of(seed) % 3 == 0 {
        TwoRegions {
            zero,
            one,
            roll: None,
        }
    } else {
        TwoRegions {
            zero,
            one,
            roll: Some(roll),
        }
    }
}

// One to nine members from an id on.
fn roll_by<R: AllocGlobal + Abort>(rt: &R, first: u32, seed: &mut u32) -> Roll {
    let mut members = Vec::new(rt.alloc());
    let mut id = first;
    for _member in 0..=next_of(seed) % 9 {
        id = id.wrapping_add(1).wrapping_add(next_of(seed) % 2);
        let x = i32::try_from(next_of(seed) % 3).ok().expect(rt, "place");
        members.push((id, 9000, x)).expect(rt, "memory");
    }
    roll_of(rt, &members)
}

#[test]
fn random_pairs_of_views(rt: HostRuntime) {
    let mut seed = 1;
    for _pair in 0..60 {
        let old = view_of(&rt, &mut seed);
        let new = view_of(&rt, &mut seed);
        renew(&rt, &old, &new);
        renew(&rt, &old, &old);
    }
}

// Builds the tree of five members in a row, for the first colour.
fn build<R: AllocGlobal + Abort, L: Ledger>(rt: &R, blank: Blank) -> Tree
    requires name { blank.name ≡ L.name }
    requires parts { blank.parts ≡ L.parts }
    requires some_part { 0 < blank.parts }
{
    let mut steps = Steps::<L>::new(blank);
    let mut builder = Builder::new(rt.alloc());
    builder.place(None, 1, &mut steps).expect(rt, "memory");
    builder.place(Some(1), 5, &mut steps).expect(rt, "memory");
    builder.place(Some(5), 3, &mut steps).expect(rt, "memory");
    builder.place(Some(5), 2, &mut steps).expect(rt, "memory");
    builder.place(Some(1), 4, &mut steps).expect(rt, "memory");
    builder.finish().expect(rt, "memory")
}

#[test]
fn a_tree_is_built(rt: HostRuntime) {
    let tree = build::<HostRuntime, Brand>(&rt, Blank::new(1));
    assert_eq!(rt; tree.root(), 1);
    assert_eq!(rt; tree.children(1), [4, 5].as_slice());
    assert_eq!(rt; tree.children(5), [2, 3].as_slice());
}
