ghost use Rattle.std.specs.Prelude.{◌≡◌, IfOk};

use crate::{BlockMemo, digest, digest_by, show, show_kept, show_kept_by};
use cs_base::{Addr, Epoch, Member, Mode, NodeId, Point, RegionId};
use cs_item::{Picture, Regions, Rolls};
use cs_roll::{Roll, Summary};
use cs_tree::WithTrees;
use cs_view::View;
use std::alloc::{AllocError, Global};
use std::test::Fail;

const LEADER_ALONE: &[u8] = b"epoch 0
region 0 1 0 0 0 0 0 0 0 0 0
global 0 1 127.0.0.1:9001 0 0 0
member 0 1 127.0.0.1:9001 0 0 0
inter 0 0
inter 1 0
inter 2 0
inter 3 0
local 0 0 1
digest a9d1918a6e3b2d76294afc029d43e1aeecfeff4be8e315c234018ddf4c869733
end
";

const LEADER_AND_JOINER: &[u8] = b"epoch 1
region 0 2 10 0 0 0 0 0 10 0 0
global 0 1 127.0.0.1:9001 0 0 0
global 0 2 127.0.0.1:9002 10 0 0
member 0 1 127.0.0.1:9001 0 0 0
member 0 2 127.0.0.1:9002 10 0 0
inter 0 0
inter 1 0
inter 2 0
inter 3 0
local 0 0 1 1>2
local 0 1 2 2>1
digest 511cc065f39486adabd8e88db71614e09b8bec2d83e31688b2cb84208faac7dc
end
";

const ONE_OF_TWO_KNOWN: &[u8] = b"epoch 1
region 0 2 10 0 0 0 0 0 10 0 0
global 0 1 127.0.0.1:9001 0 0 0
global 0 2 127.0.0.1:9002 10 0 0
region 1 1 100 0 0 100 0 0 100 0 0
global 1 3 127.0.0.1:9003 100 0 0
member 0 1 127.0.0.1:9001 0 0 0
member 0 2 127.0.0.1:9002 10 0 0
inter 0 0 0>1
inter 1 0 0>1
inter 2 0 0>1
inter 3 0 0>1
local 0 0 1 1>2
local 0 1 2 2>1
digest bcefb81a7b070b49dd999341b53d862e03992c8fb51cb2fa985f0efb1b1dff9d
end
";

const TWO_KNOWN: &[u8] = b"epoch 1
region 0 2 10 0 0 0 0 0 10 0 0
global 0 1 127.0.0.1:9001 0 0 0
global 0 2 127.0.0.1:9002 10 0 0
region 1 1 100 0 0 100 0 0 100 0 0
global 1 3 127.0.0.1:9003 100 0 0
member 0 1 127.0.0.1:9001 0 0 0
member 0 2 127.0.0.1:9002 10 0 0
member 1 3 127.0.0.1:9003 100 0 0
inter 0 0 0>1
inter 1 0 0>1
inter 2 0 0>1
inter 3 0 0>1
local 0 0 1 1>2
local 0 1 2 2>1
local 1 0 3
digest bcefb81a7b070b49dd999341b53d862e03992c8fb51cb2fa985f0efb1b1dff9d
end
";

const AFTER_A_MOVE: &[u8] = b"epoch 2
region 0 5 101 0 0 0 0 0 41 0 0
global 0 1 127.0.0.1:9001 0 0 0
global 0 2 127.0.0.1:9002 10 0 0
global 0 3 127.0.0.1:9003 20 0 0
global 0 4 127.0.0.1:9004 30 0 0
global 0 5 127.0.0.1:9005 41 0 0
member 0 1 127.0.0.1:9001 0 0 0
member 0 2 127.0.0.1:9002 10 0 0
member 0 3 127.0.0.1:9003 20 0 0
member 0 4 127.0.0.1:9004 30 0 0
member 0 5 127.0.0.1:9005 41 0 0
inter 0 0
inter 1 0
inter 2 0
inter 3 0
local 0 0 1 1>4 1>5 5>2 5>3
local 0 1 2 2>1 2>3 2>4 2>5
local 0 2 3 3>1 3>2 3>4 3>5
local 0 3 4 4>1 4>2 4>3 4>5
digest 960e507bafbe6fa2bc5afbdc75943631d3b320018088223562e0ab7cc3876227
end
";

// What stands before a block.
const CALL: &[u8] = b"> print 1\n";

// The digest of the two blocks of two regions.
const DIGEST: &str = "bcefb81a7b070b49dd999341b53d862e03992c8fb51cb2fa985f0efb1b1dff9d";

fn region(number: u32) -> Result<RegionId, Fail>
    ensures { IfOk result (λ region. region ≡ number) }
{
    Ok(RegionId::new(number).ok_or("region")?)
}

// The member at 127.0.0.1 with this id, port and coordinate.
fn member(id: u32, port: u16, x: i32) -> Result<Member, Fail> {
    Ok(Member {
        id: NodeId::new(id).ok_or("id")?,
        addr: Addr::new([127, 0, 0, 1], port).ok_or("address")?,
        at: Point::new(x, 0, 0).ok_or("point")?,
    })
}

// The leader alone.
fn leader(alloc: Global) -> Result<Roll, Fail> {
    let mut roll = Roll::new(alloc);
    roll.insert(member(1, 9001, 0)?)?;
    Ok(roll)
}

// The leader and a joiner.
fn leader_and_joiner(alloc: Global) -> Result<Roll, Fail> {
    let mut roll = leader(alloc)?;
    roll.insert(member(2, 9002, 10)?)?;
    Ok(roll)
}

// The leader and four joiners, of whom the last stands at this coordinate.
fn five(alloc: Global, last: i32) -> Result<Roll, Fail> {
    let mut roll = leader_and_joiner(alloc)?;
    roll.insert(member(3, 9003, 20)?)?;
    roll.insert(member(4, 9004, 30)?)?;
    roll.insert(member(5, 9005, last)?)?;
    Ok(roll)
}

fn summed(roll: &Roll) -> Result<Summary, Fail> {
    if roll.is_empty() || roll.len() > 10_000 {
        return Err(Fail::new("members"));
    }
    Ok(roll.summary()?)
}

// A view of region 0 alone.
fn one_region(alloc: Global, epoch: u32, roll: Roll) -> Result<View, Fail> {
    let mut summaries = Regions::new(alloc);
    summaries.push((region(0)?, summed(&roll)?))?;
    let mut rolls = Rolls::new(alloc);
    rolls.push((region(0)?, roll))?;
    let epoch = Epoch::new(epoch).ok_or("epoch")?;
    let picture = Picture {
        epoch,
        summaries,
        rolls,
    };
    Ok(View::take(alloc, NodeId::new(1).ok_or("id")?, Mode::Full, &picture)?)
}

// The picture of epoch 1 with the leader and the joiner in region 0, and member 3 in region 1.
fn two_regions(alloc: Global) -> Result<Picture, Fail> {
    let first = leader_and_joiner(alloc)?;
    let mut second = Roll::new(alloc);
    second.insert(member(3, 9003, 100)?)?;
    let mut summaries = Regions::new(alloc);
    summaries.push((region(0)?, summed(&first)?))?;
    summaries.push((region(1)?, summed(&second)?))?;
    let mut rolls = Rolls::new(alloc);
    rolls.push((region(0)?, first))?;
    rolls.push((region(1)?, second))?;
    let epoch = Epoch::new(1).ok_or("epoch")?;
    Ok(Picture {
        epoch,
        summaries,
        rolls,
    })
}

// What the first member sees of them in this mode.
fn view_of_two(alloc: Global, mode: Mode) -> Result<View, Fail> {
    let me = NodeId::new(1).ok_or("id")?;
    Ok(View::take(alloc, me, mode, &two_regions(alloc)?)?)
}

fn shown(alloc: Global, view: &View) -> Result<Vec<u8>, Fail> {
    let mut out = Vec::new(alloc);
    show(view, &mut out)?;
    Ok(out)
}

// The view with its trees.
fn with_trees(alloc: Global, view: View) -> Result<WithTrees<View>, Fail> {
    // What every view keeps says that it lists some region.
    let _known = view.known();
    Ok(WithTrees::new(alloc, view)?)
}

// The view that comes next, with its trees.
fn followed_by(before: &WithTrees<View>, view: View) -> Result<WithTrees<View>, Fail> {
    // What every view keeps says that it lists some region.
    let _known = view.known();
    Ok(before.followed_by(view)?)
}

fn leader_shown(alloc: Global) -> Result<WithTrees<View>, Fail> {
    with_trees(alloc, one_region(alloc, 0, leader(alloc)?)?)
}

fn leader_and_joiner_shown(alloc: Global) -> Result<WithTrees<View>, Fail> {
    with_trees(alloc, one_region(alloc, 1, leader_and_joiner(alloc)?)?)
}

// The leader and four joiners, of whom the last has moved, with the trees that were renewed.
fn five_after_a_move(alloc: Global) -> Result<WithTrees<View>, Fail> {
    let before = with_trees(alloc, one_region(alloc, 1, five(alloc, 40)?)?)?;
    followed_by(&before, one_region(alloc, 2, five(alloc, 41)?)?)
}

// Appends the block of a view by the trees that are kept beside it.
fn append_kept(both: &WithTrees<View>, out: &mut Vec<u8>) -> Result<(), AllocError> {
    show_kept(both.sight(), both.kept(), out)
}

// Appends the same, with a digest of the memo where it has it.
fn append_kept_by(
    memo: &BlockMemo,
    both: &WithTrees<View>,
    out: &mut Vec<u8>,
) -> Result<(), AllocError> {
    show_kept_by(memo, both.sight(), both.kept(), out)
}

// The same alone.
fn shown_by(memo: &BlockMemo, alloc: Global, both: &WithTrees<View>) -> Result<Vec<u8>, Fail> {
    let mut out = Vec::new(alloc);
    append_kept_by(memo, both, &mut out)?;
    Ok(out)
}

// A memo that has made the digest of the two regions.
fn memo_of_two(alloc: Global) -> Result<BlockMemo, Fail> {
    let memo = BlockMemo::new();
    digest_by(&memo, alloc, &view_of_two(alloc, Mode::Full)?)?;
    Ok(memo)
}

#[test]
fn a_leader_alone(rt: HostRuntime) -> Result<(), Fail> {
    let view = one_region(rt.alloc(), 0, leader(rt.alloc())?)?;
    assert_eq!(rt; shown(rt.alloc(), &view)?.as_slice(), LEADER_ALONE);
    Ok(())
}

#[test]
fn a_leader_and_a_joiner(rt: HostRuntime) -> Result<(), Fail> {
    let view = one_region(rt.alloc(), 1, leader_and_joiner(rt.alloc())?)?;
    assert_eq!(rt; shown(rt.alloc(), &view)?.as_slice(), LEADER_AND_JOINER);
    Ok(())
}

#[test]
fn a_region_that_is_not_known(rt: HostRuntime) -> Result<(), Fail> {
    let view = view_of_two(rt.alloc(), Mode::Partial)?;
    assert_eq!(rt; shown(rt.alloc(), &view)?.as_slice(), ONE_OF_TWO_KNOWN);
    Ok(())
}

#[test]
fn two_known_regions(rt: HostRuntime) -> Result<(), Fail> {
    let view = view_of_two(rt.alloc(), Mode::Full)?;
    assert_eq!(rt; shown(rt.alloc(), &view)?.as_slice(), TWO_KNOWN);
    let digits = hex::encode(rt.alloc(), digest(rt.alloc(), &view)?)?;
    assert_eq!(rt; digits.as_str(), DIGEST);
    Ok(())
}

#[test]
fn a_digest_is_made_once_and_found_again(rt: HostRuntime) -> Result<(), Fail> {
    let view = view_of_two(rt.alloc(), Mode::Full)?;
    let memo = BlockMemo::new();
    for _ in 0..2 {
        let digits = hex::encode(rt.alloc(), digest_by(&memo, rt.alloc(), &view)?)?;
        assert_eq!(rt; digits.as_str(), DIGEST);
    }
    Ok(())
}

#[test]
fn by_the_kept_trees(rt: HostRuntime) -> Result<(), Fail> {
    let both = five_after_a_move(rt.alloc())?;
    let mut out = Vec::new(rt.alloc());
    append_kept(&both, &mut out)?;
    assert_eq!(rt; out.as_slice(), AFTER_A_MOVE);
    assert_eq!(rt; shown(rt.alloc(), both.sight())?.as_slice(), AFTER_A_MOVE);
    Ok(())
}

#[test]
fn one_memo_serves_many_blocks(rt: HostRuntime) -> Result<(), Fail> {
    let memo = BlockMemo::new();
    let alone = leader_shown(rt.alloc())?;
    let two = leader_and_joiner_shown(rt.alloc())?;
    for (both, text) in [
        (&alone, LEADER_ALONE),
        (&two, LEADER_AND_JOINER),
        (&two, LEADER_AND_JOINER),
        (&alone, LEADER_ALONE),
    ] {
        let out = shown_by(&memo, rt.alloc(), both)?;
        assert_eq!(rt; out.as_slice(), text);
    }
    Ok(())
}

#[test]
fn a_memo_has_the_digest_of_the_last_epoch(rt: HostRuntime) -> Result<(), Fail> {
    let memo = memo_of_two(rt.alloc())?;
    let view = view_of_two(rt.alloc(), Mode::Partial)?;
    let found = memo.find(&view).ok_or("digest")?;
    let digits = hex::encode(rt.alloc(), found.digest)?;
    assert_eq!(rt; digits.as_str(), DIGEST);
    Ok(())
}

#[test]
fn a_memo_has_nothing_at_first(rt: HostRuntime) -> Result<(), Fail> {
    let view = view_of_two(rt.alloc(), Mode::Full)?;
    assert!(rt; BlockMemo::new().find(&view).is_none());
    Ok(())
}

#[test]
fn a_memo_has_no_digest_of_other_regions(rt: HostRuntime) -> Result<(), Fail> {
    let memo = memo_of_two(rt.alloc())?;
    let view = one_region(rt.alloc(), 1, leader_and_joiner(rt.alloc())?)?;
    assert!(rt; memo.find(&view).is_none());
    Ok(())
}

#[test]
fn a_memo_has_no_digest_of_another_epoch(rt: HostRuntime) -> Result<(), Fail> {
    let memo = memo_of_two(rt.alloc())?;
    let view = one_region(rt.alloc(), 0, leader(rt.alloc())?)?;
    assert!(rt; memo.find(&view).is_none());
    Ok(())
}

#[test]
fn what_stands_stays_where_memory_runs_out(rt: HostRuntime) -> Result<(), Fail> {
    let both = with_trees(rt.alloc(), one_region(rt.alloc(), 0, leader(rt.alloc())?)?)?;
    let mut out = Vec::new(rt.alloc());
    out.extend_from_slice(CALL)?;
    if append_kept(&both, &mut out).is_err() {
        assert_eq!(rt; out.as_slice(), CALL);
        append_kept(&both, &mut out)?;
    }
    assert_eq!(rt; out.as_slice().strip_prefix(CALL), Some(LEADER_ALONE));
    Ok(())
}
