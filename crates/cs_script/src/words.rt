//! What one word of a line says: a number, an address, an axis, a mode, or bytes.

ghost use Rattle.std.specs.Prelude.{◌≡◌, ◌⊎◌, IfOk};
ghost use Rattle.std.specs.List.{list_all};
ghost use Rattle.cs_base.specs.Axes.{IsNear};
ghost use Rattle.cs_base.specs.Limits.{farthest};
ghost use Rattle.cs_base.specs.Ranges.{IsFromTo};
ghost use Rattle.cs_script.specs.Parts.{point_words};
ghost use Rattle.cs_script.specs.Kinds.{value_of, AnAddress, AnAxis, AMode, SomeBytes, ANumber};
ghost use Rattle.cs_script.specs.Kinds.{digits_word, is_lower_digit};
ghost use Rattle.cs_script.specs.Rows.{AnId, ARegion};

use crate::{Line, LineFault, MOST_SHOWN};
use cs_base::{
    Addr, FARTHEST, LAST_ID, LAST_NUMBER, Mode, NodeId, Point, RegionId, read_addr, read_i32,
    read_u32,
};
use hex::FromHexError;
use std::alloc::Global;

/// A number from the least to the most.
pub(crate) fn read_number(word: &[u8], least: u32, most: u32) -> Result<u32, LineFault>
    ensures value { result ≡ value_of (ANumber least most) word.now }
    ensures range { IfOk result (λ n. IsFromTo least most n) }
{
    let number = read_u32(word).ok_or(LineFault::Number)?;
    if (least..=most).contains(&number) {
        Ok(number)
    } else {
        Err(LineFault::Number)
    }
}

pub(crate) fn read_id(word: &[u8]) -> Result<NodeId, LineFault>
    ensures { result ≡ value_of AnId word.now }
{
    NodeId::new(read_number(word, 1, LAST_ID)?).ok_or(LineFault::Number)
}

pub(crate) fn read_region(word: &[u8]) -> Result<RegionId, LineFault>
    ensures { result ≡ value_of ARegion word.now }
{
    RegionId::new(read_number(word, 0, LAST_NUMBER)?).ok_or(LineFault::Number)
}

pub(crate) fn read_address(word: &[u8]) -> Result<Addr, LineFault>
    ensures { result ≡ value_of AnAddress word.now }
{
    read_addr(word).ok_or(LineFault::Address)
}

fn read_axis(word: &[u8]) -> Result<i32, LineFault>
    ensures value { result ≡ value_of AnAxis word.now }
    ensures near { IfOk result (λ n. IsNear farthest n) }
{
    let number = read_i32(word).ok_or(LineFault::Number)?;
    if (-FARTHEST..=FARTHEST).contains(&number) {
        Ok(number)
    } else {
        Err(LineFault::Point)
    }
}

/// A point, by three words.
pub(crate) fn read_point(x: &[u8], y: &[u8], z: &[u8]) -> Result<Point, LineFault>
    ensures { result ≡ point_words x.now y.now z.now }
{
    let x = read_axis(x)?;
    let y = read_axis(y)?;
    let z = read_axis(z)?;
    Point::new(x, y, z).ok_or(LineFault::Point)
}

pub(crate) fn read_mode(word: &[u8]) -> Result<Mode, LineFault>
    ensures { result ≡ value_of AMode word.now }
{
    if word == b"partial".as_slice() {
        Ok(Mode::Partial)
    } else if word == b"full".as_slice() {
        Ok(Mode::Full)
    } else {
        Err(LineFault::Word)
    }
}

/// The bytes of a packet.
pub(crate) fn read_bytes(alloc: Global, word: &[u8]) -> Result<Line, LineFault>
    ensures { (result ≡ Err LineFault.Memory) ⊎ (result ≡ value_of SomeBytes word.now) }
{
    if word == b"-".as_slice() {
        Ok(Line::new(alloc))
    } else {
        read_digits(alloc, word)
    }
}

// Two digits for each byte.
fn read_digits(alloc: Global, word: &[u8]) -> Result<Line, LineFault>
    ensures { (result ≡ Err LineFault.Memory) ⊎ (result ≡ digits_word word.now) }
{
    if word.is_empty() || word.len() > 2 * MOST_SHOWN || !is_lower(word) {
        return Err(LineFault::Bytes);
    }
    match hex::decode(alloc, word) {
        Ok(bytes) => Ok(Line::from_vec(bytes)),
        Err(FromHexError::OutOfMemory) => Err(LineFault::Memory),
        Err(_) => Err(LineFault::Bytes),
    }
}

// Whether each byte is a digit in lower case, as `hex` takes capital letters too.
fn is_lower(word: &[u8]) -> bool
    ensures { result ≡ list_all is_lower_digit word.now }
{
    word.iter()
        .all(|byte| matches!(*byte, b'0'..=b'9' | b'a'..=b'f'))
}
