ghost use Rattle.std.specs.Prelude.{◌≡◌, length, IfOk};

use crate::{Picture, Regions, Rolls};
use cs_base::{Addr, Epoch, Member, NodeId, Point, RegionId};
use cs_roll::Roll;
use std::alloc::Global;
use std::test::Fail;

fn region(number: u32) -> Result<RegionId, Fail>
    ensures { IfOk result (λ region. region ≡ number) }
{
    Ok(RegionId::new(number).ok_or("region")?)
}

// The roll of the member with this id, at the point (10 id, 0, 0).
fn roll_of(alloc: Global, id: u32) -> Result<Roll, Fail>
    ensures { IfOk result (λ roll. length roll ≡ 1) }
{
    let mut roll = Roll::new(alloc);
    let x = if id < 1000 { 10 * id as i32 } else { 0 };
    roll.insert(Member {
        id: NodeId::new(id).ok_or("id")?,
        addr: Addr::new([127, 0, 0, 1], 9000).ok_or("address")?,
        at: Point::new(x, 0, 0).ok_or("point")?,
    })?;
    Ok(roll)
}

// The summaries of the regions 1 and 5.
fn two_regions(alloc: Global) -> Result<Regions, Fail> {
    let mut regions = Regions::new(alloc);
    regions.push((region(1)?, roll_of(alloc, 1)?.summary()?))?;
    regions.push((region(5)?, roll_of(alloc, 2)?.summary()?))?;
    Ok(regions)
}

// The rolls of the regions 1 and 5.
fn two_rolls(alloc: Global) -> Result<Rolls, Fail> {
    let mut rolls = Rolls::new(alloc);
    rolls.push((region(1)?, roll_of(alloc, 1)?))?;
    rolls.push((region(5)?, roll_of(alloc, 2)?))?;
    Ok(rolls)
}

#[test]
fn summaries_are_found_by_region(rt: HostRuntime) -> Result<(), Fail> {
    assert!(rt; Regions::new(rt.alloc()).is_empty());
    let regions = two_regions(rt.alloc())?.copy()?;
    assert_eq!(rt; regions.len(), 2);
    assert_eq!(rt; regions.find(region(1)?).ok_or("1")?.sum, [10, 0, 0]);
    assert_eq!(rt; regions.find(region(5)?).ok_or("5")?.sum, [20, 0, 0]);
    assert!(rt; regions.find(region(3)?).is_none());
    let pairs = regions.as_slice();
    assert_eq!(rt; pairs.len(), 2);
    assert_eq!(rt; pairs[0].0, region(1)?);
    assert_eq!(rt; pairs[1].0, region(5)?);
    Ok(())
}

#[test]
fn rolls_are_found_by_region(rt: HostRuntime) -> Result<(), Fail> {
    assert!(rt; Rolls::new(rt.alloc()).is_empty());
    let rolls = two_rolls(rt.alloc())?.copy()?;
    assert_eq!(rt; rolls.len(), 2);
    let one = NodeId::new(1).ok_or("id")?;
    let two = NodeId::new(2).ok_or("id")?;
    assert!(rt; rolls.find(region(1)?).ok_or("1")?.find(one).is_some());
    assert!(rt; rolls.find(region(5)?).ok_or("5")?.find(two).is_some());
    assert!(rt; rolls.find(region(3)?).is_none());
    let pairs = rolls.as_slice();
    assert_eq!(rt; pairs.len(), 2);
    assert_eq!(rt; pairs[0].0, region(1)?);
    assert_eq!(rt; pairs[1].0, region(5)?);
    Ok(())
}

#[test]
fn a_picture_is_copied(rt: HostRuntime) -> Result<(), Fail> {
    let picture = Picture {
        epoch: Epoch::new(7).ok_or("epoch")?,
        summaries: two_regions(rt.alloc())?,
        rolls: two_rolls(rt.alloc())?,
    };
    let copy = picture.copy()?;
    assert_eq!(rt; copy.epoch.get(), 7);
    assert_eq!(rt; copy.summaries.len(), 2);
    assert_eq!(rt; copy.rolls.len(), 2);
    Ok(())
}
