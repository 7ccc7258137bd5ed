//! The lines of a block that need no tree: regions with their globals, and members.

ghost use Rattle.std.specs.Prelude.{◌≡◌, ◌<◌, ◌∷◌, ◌++◌, OnOk, codes, map};
ghost use Rattle.std.specs.List.{flat_map};
ghost use Rattle.std.specs.String.{string_bytes};
ghost use Rattle.cs_base.specs.Axes.{axes_text, from_row};
ghost use Rattle.cs_base.specs.Canonical.{address_text};
ghost use Rattle.cs_show.specs.Block.{member_line, region_line, region_lines, roll_lines};
ghost use Rattle.cs_show.specs.Text.{ended, text_of};

use cs_base::{Addr, Axis, Member, Point, RegionId};
use cs_roll::{Roll, Sight, Summary};
use cs_view::View;
use itoa::{Buffer, Integer};
use std::alloc::AllocError;

/// Each region, with its globals.
pub(crate) fn put_regions(out: &mut String, view: &View) -> Result<(), AllocError>
    ensures { OnOk result (string_bytes out.new
        ≡ string_bytes out.old ++ text_of (flat_map region_lines view.now.summaries)) }
{
    for place in 0..view.count() {
        put_region(out, view.region(place), view.summary(place))?;
    }
    Ok(())
}

/// The members of the known regions.
pub(crate) fn put_rolls(out: &mut String, rolls: &[(RegionId, Roll)]) -> Result<(), AllocError>
    ensures { OnOk result (string_bytes out.new ≡ string_bytes out.old ++ text_of (flat_map roll_lines rolls.now)) }
{
    for (region, roll) in rolls {
        put_members(out, "member", *region, roll)?;
    }
    Ok(())
}

// A number for each axis.
#[derive(Clone, Copy)]
struct Spread {
    x: i64,
    y: i64,
    z: i64,
}

// The numbers of a point.
fn coordinates(at: Point) -> Spread
    ensures { record { x = result.x; y = result.y; z = result.z } ≡ at }
{
    Spread {
        x: i64::from(at.axis(Axis::X)),
        y: i64::from(at.axis(Axis::Y)),
        z: i64::from(at.axis(Axis::Z)),
    }
}

// The numbers of a sum.
fn totals(row: &[i64; 3]) -> Spread
    ensures { record { x = result.x; y = result.y; z = result.z } ≡ from_row row.now }
{
    let [x, y, z] = *row;
    Spread { x, y, z }
}

// The numbers of a bound.
fn bounds(row: &[i32; 3]) -> Spread
    ensures { record { x = result.x; y = result.y; z = result.z } ≡ from_row row.now }
{
    let [x, y, z] = *row;
    Spread {
        x: i64::from(x),
        y: i64::from(y),
        z: i64::from(z),
    }
}

// A region's line, and those of its globals.
fn put_region(out: &mut String, region: RegionId, summary: &Summary) -> Result<(), AllocError>
    ensures { OnOk result (string_bytes out.new
        ≡ string_bytes out.old ++ text_of (region_lines (region, summary.now))) }
{
    put_region_line(out, region, summary)?;
    put_members(out, "global", region, &summary.globals)
}

// A region's line.
fn put_region_line(out: &mut String, region: RegionId, summary: &Summary) -> Result<(), AllocError>
    ensures { OnOk result (string_bytes out.new
        ≡ string_bytes out.old ++ ended (region_line region summary.now)) }
{
    out.push_str("region")?;
    put_number(out, ' ', region.get())?;
    put_number(out, ' ', summary.size)?;
    put_spread(out, totals(&summary.sum))?;
    put_spread(out, bounds(&summary.low))?;
    put_spread(out, bounds(&summary.high))?;
    out.push('\n')
}

// A line for each member, after the word.
fn put_members(
    out: &mut String,
    word: &str,
    region: RegionId,
    roll: &Roll,
) -> Result<(), AllocError>
    ensures { OnOk result (string_bytes out.new
        ≡ string_bytes out.old ++ text_of (map (member_line word.now region) roll.now)) }
{
    for member in roll.as_slice() {
        put_member(out, word, region, member)?;
    }
    Ok(())
}

fn put_member(
    out: &mut String,
    word: &str,
    region: RegionId,
    member: &Member,
) -> Result<(), AllocError>
    ensures { OnOk result (string_bytes out.new
        ≡ string_bytes out.old ++ ended (member_line word.now region member.now)) }
{
    out.push_str(word)?;
    put_number(out, ' ', region.get())?;
    put_number(out, ' ', member.id.get())?;
    put_address(out, member.addr)?;
    put_spread(out, coordinates(member.at))?;
    out.push('\n')
}

// A space and an address.
fn put_address(out: &mut String, addr: Addr) -> Result<(), AllocError>
    ensures { OnOk result (string_bytes out.new ≡ string_bytes out.old ++ (codes " " ++ address_text addr)) }
{
    let [a, b, c, d] = addr.ip();
    put_number(out, ' ', a)?;
    put_number(out, '.', b)?;
    put_number(out, '.', c)?;
    put_number(out, '.', d)?;
    put_number(out, ':', addr.port())
}

// A space and the number of each axis.
fn put_spread(out: &mut String, spread: Spread) -> Result<(), AllocError>
    ensures { OnOk result (string_bytes out.new ≡ string_bytes out.old
        ++ (codes " " ++ axes_text (record { x = spread.x; y = spread.y; z = spread.z }))) }
{
    put_number(out, ' ', spread.x)?;
    put_number(out, ' ', spread.y)?;
    put_number(out, ' ', spread.z)
}

/// A character of ASCII and a number.
pub(crate) fn put_number<I: Integer>(
    out: &mut String,
    before: char,
    number: I,
) -> Result<(), AllocError>
    requires { before < 128 }
    ensures { OnOk result (string_bytes out.new ≡ string_bytes out.old ++ before ∷ I.text number) }
{
    let mut digits = Buffer::new();
    out.push(before)?;
    out.push_str(digits.format(number))
}
