use crate::*;
use cs_base::{Addr, Axis, Change, Member, Mode, NodeId, Point};
use std::alloc::Global;
use std::process::Abort;
use std::test::Fail;

// Member 2 at 127.0.0.1:9002 and at the point (10, -10, 0), field by field.
const MEMBER: &str = "00000002 7f000001 232a 0000000a fffffff6 00000000";

// In each line a field, and its bytes in hexadecimal digits. Numbers are at either end of their ranges.
const SPELLINGS: &str = "u8: 01
u16: 0203
u32: 04050607
u64: 0102030405060708
id: 00000001
id: ffffffff
region: 00000000
region: fffffffe
epoch: 00000000
epoch: fffffffe
later: 00000001
later: fffffffe
address: 00000000 0001
address: ffffffff ffff
point: 000f4240 fff0bdc0 00000000
member: 00000002 7f000001 232a 0000000a fffffff6 00000000
mode: 00
mode: 01
cut: 00 00000009 00000007 00000003
cut: 01 fff0bdc0 ffffffff fffffffe
cut: 02 000f4240 00000001 00000000
ids: 00
ids: 02 00000005 00000006
ids: 01 ffffffff
many: 0000
many: 0002 00000005 ffffffff
regions: 02 00000000 fffffffe
change: 03 00000007
changes: 00
changes: 02 01 00000002 7f000001 232a 0000000a fffffff6 00000000 02 00000007 00000103 0000000a fffffff6 00000000
changes: 02 03 00000007 03 00000006";

// In each line a field, its first fault, and its bytes.
const FAULTS: &str = "u16 short 0: 01
u32 short 0: 010203
u64 short 0: 01020304050607
id short 0: 000000
id value 0: 00000000
region value 0: ffffffff
epoch value 0: ffffffff
later value 0: 00000000
later value 0: ffffffff
address value 4: 7f000001 0000
point value 0: 000f4241 000f4241 00000000
point value 8: 00000000 00000000 fff0bdbf
mode value 0: 02
cut value 0: 03 00000009 00000007 00000003
cut value 5: 02 00000009 00000000 ffffffff
cut value 9: 02 00000009 00000007 ffffffff
ids value 5: 02 00000005 00000005
ids value 5: 02 00000005 00000004
ids value 5: 02 fffffffe 00000001
ids value 5: 02 ffffffff 00000001
ids short 5: 02 00000005 000000
ids short 9: 03 00000005 00000006
ids short 9: 40 00000005 00000006
ids value 0: 41 00000005 00000006
ids value 1: 01 00000000
many short 0: 00
many short 6: 0002 00000005 000000
many short 6: 4000 00000005
many value 0: 4001 00000005
many value 2: 0001 00000000
many value 6: 0002 00000005 00000005
regions value 5: 02 00000005 00000005
regions short 9: 40 00000005 00000006
regions value 0: 41 00000005 00000006
regions value 1: 01 ffffffff
change value 1: 03 00000000
change value 5: 02 00000007 00000000
changes value 7: 02 03 00000007 03 00000007
changes value 7: 02 03 00000007 03 00000000
changes value 6: 02 03 00000007 04 00000006
changes value 1: 02 00 00000007 03 00000006
changes short 11: 02 03 00000007 01 00000006
changes value 7: 02 03 00000007 01 00000007
changes value 0: 41 03 00000007 03 00000006";

// The bytes of all fields, each written in hexadecimal digits.
fn bytes_of(alloc: Global, fields: &str) -> Result<Vec<u8>, Fail> {
    let mut bytes = Vec::new(alloc);
    for field in fields.split(" ") {
        put_digits(&mut bytes, field)?;
    }
    Ok(bytes)
}

// Two digits for each byte.
fn put_digits(bytes: &mut Vec<u8>, digits: &str) -> Result<(), Fail> {
    for pair in digits.as_bytes().chunks(2) {
        let [high, low] = pair else {
            continue;
        };
        let high = char::from(*high).to_digit(16).ok_or("digit")?;
        let low = char::from(*low).to_digit(16).ok_or("digit")?;
        bytes.push((16 * high + low) as u8)?;
    }
    Ok(())
}

// The fault that is named as `value 12` or `short 12`.
fn fault_of(name: &str) -> Result<PacketFault, Fail> {
    let (kind, place) = name.split_once(" ").ok_or("fault")?;
    let place = u32::from_str_radix(place, 10).ok().ok_or("place")?;
    Ok(match kind {
        "short" => PacketFault::Short(place),
        _ => PacketFault::Value(place),
    })
}

macro_rules! again {
    ($take:expr, $put:ident, $out:ident) => {{
        let (value, behind) = $take?;
        $put($out, &value)?;
        Ok(behind)
    }};
}

// Puts again what it takes, and tells the place behind it.
fn again(alloc: Global, field: &str, bytes: &[u8], out: &mut Vec<u8>) -> Result<u32, PacketFault> {
    match field {
        "u8" => again!(take_u8(bytes, 0), put_u8, out),
        "u16" => again!(take_u16(bytes, 0), put_u16, out),
        "u32" => again!(take_u32(bytes, 0), put_u32, out),
        "u64" => again!(take_u64(bytes, 0), put_u64, out),
        "id" => again!(take_id(bytes, 0), put_id, out),
        "region" => again!(take_region(bytes, 0), put_region, out),
        "epoch" => again!(take_epoch(bytes, 0), put_epoch, out),
        "later" => again!(take_later_epoch(bytes, 0), put_epoch, out),
        "address" => again!(take_address(bytes, 0), put_address, out),
        "point" => again!(take_point(bytes, 0), put_point, out),
        "member" => again!(take_member(bytes, 0), put_member, out),
        "mode" => again!(take_mode(bytes, 0), put_mode, out),
        "cut" => again!(take_cut(bytes, 0), put_cut, out),
        "ids" => again!(take_ids(alloc, bytes, 0), put_ids, out),
        "many" => again!(take_many_ids(alloc, bytes, 0), put_many_ids, out),
        "regions" => again!(take_region_list(alloc, bytes, 0), put_region_list, out),
        "change" => again!(take_change(bytes, 0), put_change, out),
        _ => again!(take_changes(alloc, bytes, 0), put_changes, out),
    }
}

#[test]
fn what_is_taken_is_put_again(rt: HostRuntime) -> Result<(), Fail> {
    for line in SPELLINGS.split("\n") {
        let (field, digits) = line.split_once(": ").ok_or("line")?;
        let bytes = bytes_of(rt.alloc(), digits)?;
        let mut out = Vec::new(rt.alloc());
        let behind = again(rt.alloc(), field, &bytes, &mut out)?;
        assert_eq!(rt; behind as usize, bytes.len(), "{line}");
        assert_eq!(rt; out.as_slice(), bytes.as_slice(), "{line}");
    }
    Ok(())
}

#[test]
fn fields_have_their_first_fault(rt: HostRuntime) -> Result<(), Fail> {
    for line in FAULTS.split("\n") {
        let (name, digits) = line.split_once(": ").ok_or("line")?;
        let (field, fault) = name.split_once(" ").ok_or("field")?;
        let bytes = bytes_of(rt.alloc(), digits)?;
        let found = again(rt.alloc(), field, &bytes, &mut Vec::new(rt.alloc())).err();
        assert_eq!(rt; found, Some(fault_of(fault)?), "{line}");
    }
    Ok(())
}

#[test]
fn numbers_have_their_highest_byte_first(rt: HostRuntime) {
    let bytes = [1, 2, 3, 4, 5, 6, 7, 8];
    assert_eq!(rt; take_u8(&bytes, 0), Ok((1, 1)));
    assert_eq!(rt; take_u16(&bytes, 1), Ok((515, 3)));
    assert_eq!(rt; take_u32(&bytes, 4), Ok((84_281_096, 8)));
    assert_eq!(rt; take_u64(&bytes, 0), Ok((72_623_859_790_382_856, 8)));
    assert_eq!(rt; take_u8(&bytes, 8), Err(PacketFault::Short(8)));
}

#[test]
fn numbers_stay_within_bounds(rt: HostRuntime) {
    for (n, fault) in [(2, true), (3, false), (5, false), (6, true)] {
        let fault = fault.then_some(PacketFault::Value(0));
        assert_eq!(rt; take_u8_in(&[n], 0, 3, 5).err(), fault, "at {n}");
        assert_eq!(rt; take_u16_in(&[0, n], 0, 3, 5).err(), fault, "at {n}");
        assert_eq!(rt; take_u32_in(&[0, 0, 0, n], 0, 3, 5).err(), fault, "at {n}");
        assert_eq!(rt;
            take_id_from(&[0, 0, 0, n], 0, 3).is_err(),
            n == 2,
            "at {n}"
        );
        assert_eq!(rt;
            take_region_from(&[0, 0, 0, n], 0, 3).is_err(),
            n == 2,
            "at {n}"
        );
        assert_eq!(rt;
            take_axis_from(&[0, 0, 0, n], 0, 3).is_err(),
            n == 2,
            "at {n}"
        );
    }
    let none = take_some_changes(rt.alloc(), &[0], 0, 1).err();
    assert_eq!(rt; none, Some(PacketFault::Value(0)));
}

#[test]
fn fields_have_their_values(rt: HostRuntime) -> Result<(), Fail> {
    let member = Member {
        id: NodeId::new(2).ok_or("id")?,
        addr: Addr::new([127, 0, 0, 1], 9002).ok_or("address")?,
        at: Point::new(10, -10, 0).ok_or("point")?,
    };
    let bytes = bytes_of(rt.alloc(), MEMBER)?;
    assert_eq!(rt; take_member(&bytes, 0), Ok((member, 22)));
    let fault = take_member_from(&bytes, 0, 3).err();
    assert_eq!(rt; fault, Some(PacketFault::Value(0)));
    assert_eq!(rt; take_mode(&[1], 0), Ok((Mode::Full, 1)));
    let cut = [2, 0, 0, 0, 9, 0, 0, 0, 7, 0, 0, 0, 3];
    assert_eq!(rt; take_cut(&cut, 0).map(|x| x.0.split.axis), Ok(Axis::Z));
    let leave = Change::Leave { id: member.id };
    assert_eq!(rt; take_change(&[3, 0, 0, 0, 2], 0), Ok((leave, 5)));
    Ok(())
}

#[test]
fn a_member_is_cut_anywhere(rt: HostRuntime) -> Result<(), Fail> {
    let mut bytes = Vec::new(rt.alloc());
    for field in MEMBER.split(" ") {
        is_short(&rt, rt.alloc(), &mut bytes, field)?;
    }
    assert!(rt; take_member(&bytes, 0).is_ok());
    Ok(())
}

// The bytes end before each byte of the field in turn, and the field is short.
fn is_short(rt: &impl Abort, alloc: Global, bytes: &mut Vec<u8>, field: &str) -> Result<(), Fail> {
    let place = u32::try_from(bytes.len()).ok().ok_or("length")?;
    for byte in &bytes_of(alloc, field)? {
        let fault = take_member(bytes, 0).err();
        assert_eq!(rt; fault, Some(PacketFault::Short(place)));
        bytes.push(*byte)?;
    }
    Ok(())
}

#[test]
fn faults_have_their_texts(rt: HostRuntime) -> Result<(), Fail> {
    for (fault, text) in [
        (PacketFault::Short(1), "the bytes end within a field"),
        (
            PacketFault::Extra(1),
            "bytes are left behind the last field",
        ),
        (PacketFault::Version(2), "another version"),
        (PacketFault::Kind(8), "another kind"),
        (
            PacketFault::Value(1),
            "a field has a value that isn't allowed",
        ),
        (PacketFault::Memory, "out of memory"),
    ] {
        assert_eq!(rt; format!(in rt.alloc(); "{fault}")?.as_str(), text);
    }
    Ok(())
}
