//! Lists of ids and of regions, each ascending.

ghost use Rattle.std.specs.Prelude.{◌≡◌, ◌+◌, ◌*◌, ◌≤◌, length};
ghost use Rattle.std.specs.List.{flat_map};
ghost use Rattle.cs_base.specs.Limits.{most_changes, most_regions, most_together};
ghost use Rattle.cs_fields.specs.Counted.{above, elements_at};
ghost use Rattle.cs_fields.specs.Fields.{id_bytes, IsIds, ids_at, ids_bytes, ids_len, IsManyIds, IsRegionList};
ghost use Rattle.cs_fields.specs.Fields.{many_ids_at, many_ids_bytes, many_ids_len, numbers_at, region_list_at};
ghost use Rattle.cs_fields.specs.Fields.{region_list_len};
ghost use Rattle.cs_fields.specs.Numbers.{number_in};
ghost use Rattle.cs_fields.specs.Reading.{Gives, HasRoom, IsTaken};
ghost use Rattle.cs_fields.specs.Writing.{Appends, Extends};

use crate::number::{put_u8, put_u16, put_u32, take_u8_in, take_u16_in, take_u32_in};
use crate::{PacketFault, undone};
use cs_base::{Ids, LAST_ID, LAST_NUMBER, MOST_CHANGES, MOST_REGIONS, MOST_TOGETHER};
use std::alloc::{AllocError, Global};

pub fn take_ids(alloc: Global, bytes: &[u8], at: u32) -> Result<(Ids, u32), PacketFault>
    requires { HasRoom bytes.now at ids_len }
    ensures exact { Gives result (ids_at bytes.now at) }
    ensures spelt { IsTaken ids_bytes IsIds ids_len bytes.now at result }
{
    take_numbers(alloc, bytes, at, MOST_CHANGES as u8, 1, LAST_ID)
}

/// Ids with a count of two bytes.
pub fn take_many_ids(alloc: Global, bytes: &[u8], at: u32) -> Result<(Ids, u32), PacketFault>
    requires { HasRoom bytes.now at many_ids_len }
    ensures exact { Gives result (many_ids_at bytes.now at) }
    ensures spelt { IsTaken many_ids_bytes IsManyIds many_ids_len bytes.now at result }
{
    read_many_ids(alloc, bytes, at)
}

#[tactic(auto, unfolding(crate::specs::Fields::numbers_at, crate::specs::Counted::counted_at))]
fn read_many_ids(alloc: Global, bytes: &[u8], at: u32) -> Result<(Ids, u32), PacketFault>
    requires { HasRoom bytes.now at many_ids_len }
    ensures { Gives result (many_ids_at bytes.now at) }
{
    let (count, behind) = take_u16_in(bytes, at, 0, MOST_TOGETHER as u16)?;
    take_each_number(alloc, bytes, behind, count, 1, LAST_ID)
}

pub fn take_region_list(alloc: Global, bytes: &[u8], at: u32) -> Result<(Ids, u32), PacketFault>
    requires { HasRoom bytes.now at region_list_len }
    ensures exact { Gives result (region_list_at bytes.now at) }
    ensures spelt { IsTaken ids_bytes IsRegionList region_list_len bytes.now at result }
{
    take_numbers(alloc, bytes, at, MOST_REGIONS as u8, 0, LAST_NUMBER)
}

// Numbers from `first` to `last`, with a count of one byte.
#[tactic(auto, unfolding(crate::specs::Fields::numbers_at, crate::specs::Counted::counted_at))]
fn take_numbers(
    alloc: Global,
    bytes: &[u8],
    at: u32,
    most: u8,
    first: u32,
    last: u32,
) -> Result<(Ids, u32), PacketFault>
    requires { HasRoom bytes.now at (1 + 4 * most) }
    ensures { Gives result (numbers_at 1 most first last bytes.now at) }
{
    let (count, behind) = take_u8_in(bytes, at, 0, most)?;
    take_each_number(alloc, bytes, behind, u16::from(count), first, last)
}

fn take_each_number(
    alloc: Global,
    bytes: &[u8],
    at: u32,
    count: u16,
    first: u32,
    last: u32,
) -> Result<(Ids, u32), PacketFault>
    requires { HasRoom bytes.now at (4 * count) }
    ensures { Gives result (elements_at (λ least. number_in 4 least last) (above (λ n. n)) count first bytes.now at) }
{
    let mut numbers = Ids::new(alloc);
    let mut place = at;
    let mut least = u64::from(first);
    for _ in 0..count {
        let (n, behind) = take_u32_in(bytes, place, least, last)?;
        numbers.push(n)?;
        least = u64::from(n) + 1;
        place = behind;
    }
    Ok((numbers, place))
}

pub fn put_ids(out: &mut Vec<u8>, v: &Ids) -> Result<(), AllocError>
    requires { length v.now ≤ most_changes }
    ensures { Appends result out.old.items out.new.items (ids_bytes v.now) }
{
    undone!(out, append_numbers(out, v.as_slice()))
}

pub fn put_many_ids(out: &mut Vec<u8>, v: &Ids) -> Result<(), AllocError>
    requires { length v.now ≤ most_together }
    ensures { Appends result out.old.items out.new.items (many_ids_bytes v.now) }
{
    undone!(out, append_many_ids(out, v.as_slice()))
}

pub fn put_region_list(out: &mut Vec<u8>, v: &Ids) -> Result<(), AllocError>
    requires { length v.now ≤ most_regions }
    ensures { Appends result out.old.items out.new.items (ids_bytes v.now) }
{
    undone!(out, append_numbers(out, v.as_slice()))
}

fn append_numbers(out: &mut Vec<u8>, numbers: &[u32]) -> Result<(), AllocError>
    requires { length numbers.now ≤ 255 }
    ensures { Extends result out.old.items out.new.items (ids_bytes numbers.now) }
{
    put_u8(out, &(numbers.len() as u8))?;
    append_each_number(out, numbers)
}

fn append_many_ids(out: &mut Vec<u8>, ids: &[u32]) -> Result<(), AllocError>
    requires { length ids.now ≤ most_together }
    ensures { Extends result out.old.items out.new.items (many_ids_bytes ids.now) }
{
    put_u16(out, &(ids.len() as u16))?;
    append_each_number(out, ids)
}

fn append_each_number(out: &mut Vec<u8>, numbers: &[u32]) -> Result<(), AllocError>
    ensures { Extends result out.old.items out.new.items (flat_map id_bytes numbers.now) }
{
    for n in numbers {
        put_u32(out, n)?;
    }
    Ok(())
}
