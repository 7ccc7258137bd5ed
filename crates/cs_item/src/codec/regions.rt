ghost use Rattle.std.specs.Prelude.{◌≡◌, ◌+◌, ◌*◌, ◌^◌, ◌<◌, ◌≤◌, length};
ghost use Rattle.cs_base.specs.Limits.{most_regions};
ghost use Rattle.cs_fields.specs.Counted.{above, elements_at};
ghost use Rattle.cs_fields.specs.Reading.{Gives, HasRoom, IsTaken};
ghost use Rattle.cs_fields.specs.Writing.{Appends, Extends};
ghost use Rattle.cs_item.specs.Beside.{beside_bytes, beside_from, IsBeside};
ghost use Rattle.cs_item.specs.RegionsField.{IsRegions, regions_at, regions_bytes, regions_len};
ghost use Rattle.cs_item.specs.SummaryField.{IsShortSummary, summary_at, summary_bytes, summary_len};

use crate::Regions;
use crate::codec::summary::{put_summary, take_summary};
use cs_base::{MOST_REGIONS, RegionId};
use cs_fields::{PacketFault, put_region, put_u8, take_region_from, take_u8_in, undone};
use cs_roll::Summary;
use std::alloc::{AllocError, Global};

pub fn take_regions(alloc: Global, bytes: &[u8], at: u32) -> Result<(Regions, u32), PacketFault>
    requires { HasRoom bytes.now at regions_len }
    ensures exact { Gives result (regions_at 0 bytes.now at) }
    ensures spelt { IsTaken regions_bytes (IsRegions 0) regions_len bytes.now at result }
{
    take_some_regions(alloc, bytes, at, 0)
}

/// Regions, at least so many.
pub fn take_some_regions(
    alloc: Global,
    bytes: &[u8],
    at: u32,
    least: u8,
) -> Result<(Regions, u32), PacketFault>
    requires { HasRoom bytes.now at regions_len }
    ensures exact { Gives result (regions_at least bytes.now at) }
    ensures spelt { IsTaken regions_bytes (IsRegions least) regions_len bytes.now at result }
{
    read_regions(alloc, bytes, at, least)
}

#[tactic(auto, unfolding(crate::specs::RegionsField::regions_at, cs_fields::specs::Counted::counted_at))]
fn read_regions(
    alloc: Global,
    bytes: &[u8],
    at: u32,
    least: u8,
) -> Result<(Regions, u32), PacketFault>
    requires { HasRoom bytes.now at regions_len }
    ensures { Gives result (regions_at least bytes.now at) }
{
    let (count, behind) = take_u8_in(bytes, at, least, MOST_REGIONS as u8)?;
    take_each_region(alloc, bytes, behind, count)
}

fn take_each_region(
    alloc: Global,
    bytes: &[u8],
    at: u32,
    count: u8,
) -> Result<(Regions, u32), PacketFault>
    requires place { HasRoom bytes.now at ((4 + summary_len) * most_regions) }
    requires few { count ≤ most_regions }
    ensures { Gives result (elements_at (beside_from summary_at) (above (λ pair. pair.0)) count 0 bytes.now at) }
{
    let mut regions = Regions::new(alloc);
    let mut place = at;
    let mut least = 0;
    for _ in 0..count {
        let ((region, summary), behind) = take_region_summary(alloc, bytes, place, least)?;
        regions.push((region, summary))?;
        least = u64::from(region.get()) + 1;
        place = behind;
    }
    Ok((regions.shared()?, place))
}

// A region that is at least `least`, and its summary.
fn take_region_summary(
    alloc: Global,
    bytes: &[u8],
    at: u32,
    least: u64,
) -> Result<((RegionId, Summary), u32), PacketFault>
    requires { HasRoom bytes.now at (4 + summary_len) }
    ensures exact { Gives result (beside_from summary_at least bytes.now at) }
    ensures spelt { IsTaken (beside_bytes summary_bytes) (IsBeside IsShortSummary least) (4 + summary_len)
        bytes.now at result }
{
    read_region_summary(alloc, bytes, at, least)
}

#[tactic(auto, unfolding(crate::specs::Beside::beside_from))]
fn read_region_summary(
    alloc: Global,
    bytes: &[u8],
    at: u32,
    least: u64,
) -> Result<((RegionId, Summary), u32), PacketFault>
    requires { HasRoom bytes.now at (4 + summary_len) }
    ensures { Gives result (beside_from summary_at least bytes.now at) }
{
    let (region, behind) = take_region_from(bytes, at, least)?;
    let (summary, behind) = take_summary(alloc, bytes, behind)?;
    Ok(((region, summary), behind))
}

pub fn put_regions(out: &mut Vec<u8>, v: &Regions) -> Result<(), AllocError>
    requires { length v.now ≤ most_regions }
    ensures { Appends result out.old.items out.new.items (regions_bytes v.now) }
{
    undone!(out, append_regions(out, v))
}

#[tactic(auto, unfolding(crate::specs::RegionsField::regions_bytes))]
fn append_regions(out: &mut Vec<u8>, v: &Regions) -> Result<(), AllocError>
    requires { length v.now ≤ most_regions }
    ensures { Extends result out.old.items out.new.items (regions_bytes v.now) }
{
    put_u8(out, &(v.len() as u8))?;
    for (region, summary) in v.as_slice() {
        put_region_summary(out, *region, summary)?;
    }
    Ok(())
}

fn put_region_summary(
    out: &mut Vec<u8>,
    region: RegionId,
    summary: &Summary,
) -> Result<(), AllocError>
    ensures { Appends result out.old.items out.new.items (beside_bytes summary_bytes (region, summary.now)) }
{
    undone!(out, append_region_summary(out, region, summary))
}

#[tactic(auto, unfolding(crate::specs::Beside::beside_bytes))]
fn append_region_summary(
    out: &mut Vec<u8>,
    region: RegionId,
    summary: &Summary,
) -> Result<(), AllocError>
    ensures { Extends result out.old.items out.new.items (beside_bytes summary_bytes (region, summary.now)) }
{
    put_region(out, &region)?;
    put_summary(out, summary)
}
