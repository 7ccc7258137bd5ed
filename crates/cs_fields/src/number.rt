//! Numbers of 1, 2, 4 and 8 bytes, the highest byte first.

ghost use Rattle.std.specs.Prelude.{◌≡◌, ◌^◌, ◌<◌};
ghost use Rattle.cs_base.specs.Ranges.{IsFromTo};
ghost use Rattle.cs_fields.specs.Numbers.{AreBytes, raw_at, number_at, number_bytes, number_in};
ghost use Rattle.cs_fields.specs.Reading.{HasRoom, IsTaken};
ghost use Rattle.cs_fields.specs.Writing.{Appends};

use crate::PacketFault;
use byteorder::{BigEndian, ByteOrder};
use std::alloc::AllocError;

/// So many bytes as they are.
pub fn take_raw<const N: usize>(bytes: &[u8], at: u32) -> Result<([u8; N], u32), PacketFault>
    requires place { HasRoom bytes.now at N }
    requires some { 0 < N }
    ensures exact { result ≡ raw_at N bytes.now at }
    ensures spelt { IsTaken (λ text. text) (AreBytes N) N bytes.now at result }
{
    let rest = &bytes[at as usize..];
    if rest.len() < N {
        return Err(PacketFault::Short(at));
    }
    let mut text = [0; N];
    text.copy_from_slice(&rest[..N]);
    Ok((text, at + N as u32))
}

#[tactic(auto, unfolding(crate::specs::Numbers::number_at))]
pub fn take_u8(bytes: &[u8], at: u32) -> Result<(u8, u32), PacketFault>
    requires { HasRoom bytes.now at 1 }
    ensures exact { result ≡ number_at 1 bytes.now at }
    ensures spelt { IsTaken (number_bytes 1) (λ n. n < 2 ^ 8) 1 bytes.now at result }
{
    let (text, behind) = take_raw::<1>(bytes, at)?;
    Ok((text[0], behind))
}

#[tactic(auto, unfolding(crate::specs::Numbers::number_at))]
pub fn take_u16(bytes: &[u8], at: u32) -> Result<(u16, u32), PacketFault>
    requires { HasRoom bytes.now at 2 }
    ensures exact { result ≡ number_at 2 bytes.now at }
    ensures spelt { IsTaken (number_bytes 2) (λ n. n < 2 ^ 16) 2 bytes.now at result }
{
    let (text, behind) = take_raw::<2>(bytes, at)?;
    Ok((BigEndian::read_u16(&text), behind))
}

#[tactic(auto, unfolding(crate::specs::Numbers::number_at))]
pub fn take_u32(bytes: &[u8], at: u32) -> Result<(u32, u32), PacketFault>
    requires { HasRoom bytes.now at 4 }
    ensures exact { result ≡ number_at 4 bytes.now at }
    ensures spelt { IsTaken (number_bytes 4) (λ n. n < 2 ^ 32) 4 bytes.now at result }
{
    let (text, behind) = take_raw::<4>(bytes, at)?;
    Ok((BigEndian::read_u32(&text), behind))
}

#[tactic(auto, unfolding(crate::specs::Numbers::number_at))]
pub fn take_u64(bytes: &[u8], at: u32) -> Result<(u64, u32), PacketFault>
    requires { HasRoom bytes.now at 8 }
    ensures exact { result ≡ number_at 8 bytes.now at }
    ensures spelt { IsTaken (number_bytes 8) (λ n. n < 2 ^ 64) 8 bytes.now at result }
{
    let (text, behind) = take_raw::<8>(bytes, at)?;
    Ok((BigEndian::read_u64(&text), behind))
}

/// A number that has to be from `least` to `most`.
pub fn take_u8_in(bytes: &[u8], at: u32, least: u8, most: u8) -> Result<(u8, u32), PacketFault>
    requires { HasRoom bytes.now at 1 }
    ensures exact { result ≡ number_in 1 least most bytes.now at }
    ensures spelt { IsTaken (number_bytes 1) (IsFromTo least most) 1 bytes.now at result }
{
    let (n, behind) = take_u8(bytes, at)?;
    if n < least || n > most {
        return Err(PacketFault::Value(at));
    }
    Ok((n, behind))
}

/// A number that has to be from `least` to `most`.
pub fn take_u16_in(bytes: &[u8], at: u32, least: u16, most: u16) -> Result<(u16, u32), PacketFault>
    requires { HasRoom bytes.now at 2 }
    ensures exact { result ≡ number_in 2 least most bytes.now at }
    ensures spelt { IsTaken (number_bytes 2) (IsFromTo least most) 2 bytes.now at result }
{
    let (n, behind) = take_u16(bytes, at)?;
    if n < least || n > most {
        return Err(PacketFault::Value(at));
    }
    Ok((n, behind))
}

/// A number that has to be from `least` to `most`.
pub fn take_u32_in(bytes: &[u8], at: u32, least: u64, most: u32) -> Result<(u32, u32), PacketFault>
    requires { HasRoom bytes.now at 4 }
    ensures exact { result ≡ number_in 4 least most bytes.now at }
    ensures spelt { IsTaken (number_bytes 4) (IsFromTo least most) 4 bytes.now at result }
{
    let (n, behind) = take_u32(bytes, at)?;
    if u64::from(n) < least || n > most {
        return Err(PacketFault::Value(at));
    }
    Ok((n, behind))
}

#[tactic(auto, unfolding(crate::specs::Numbers::number_bytes))]
pub fn put_u8(out: &mut Vec<u8>, v: &u8) -> Result<(), AllocError>
    ensures { Appends result out.old.items out.new.items (number_bytes 1 v.now) }
{
    out.push(*v)?;
    Ok(())
}

#[tactic(auto, unfolding(crate::specs::Numbers::number_bytes))]
pub fn put_u16(out: &mut Vec<u8>, v: &u16) -> Result<(), AllocError>
    ensures { Appends result out.old.items out.new.items (number_bytes 2 v.now) }
{
    let mut text = [0; 2];
    BigEndian::write_u16(&mut text, *v);
    out.extend_from_slice(&text)
}

#[tactic(auto, unfolding(crate::specs::Numbers::number_bytes))]
pub fn put_u32(out: &mut Vec<u8>, v: &u32) -> Result<(), AllocError>
    ensures { Appends result out.old.items out.new.items (number_bytes 4 v.now) }
{
    let mut text = [0; 4];
    BigEndian::write_u32(&mut text, *v);
    out.extend_from_slice(&text)
}

#[tactic(auto, unfolding(crate::specs::Numbers::number_bytes))]
pub fn put_u64(out: &mut Vec<u8>, v: &u64) -> Result<(), AllocError>
    ensures { Appends result out.old.items out.new.items (number_bytes 8 v.now) }
{
    let mut text = [0; 8];
    BigEndian::write_u64(&mut text, *v);
    out.extend_from_slice(&text)
}
