use crate::{
    PartKind, decode_slice, encode_slice, put_picture, put_regions, put_roll, put_slice,
    put_summary, take_picture, take_regions, take_roll, take_slice, take_some_regions,
    take_summary,
};
use cs_fields::PacketFault;
use std::alloc::Global;
use std::ops::Range;
use std::process::Abort;
use std::test::Fail;

// Epoch 7, with members 1 and 2 in region 0 at x = 0 and -10, and member 3 in region 5 at x = 50.
const PICTURE: &str =
    "00000007 02 00000000 00000002 fffffffffffffff6 0000000000000000 0000000000000000 fffffff6 00000000 \
    00000000 00000000 00000000 00000000 02 00000001 7f000001 2329 00000000 00000000 00000000 00000002 7f000001 \
    232a fffffff6 00000000 00000000 00000005 00000001 0000000000000032 0000000000000000 0000000000000000 \
    00000032 00000000 00000000 00000032 00000000 00000000 01 00000003 7f000001 232b 00000032 00000000 00000000 \
    02 00000000 0002 00000001 7f000001 2329 00000000 00000000 00000000 00000002 7f000001 232a fffffff6 \
    00000000 00000000 00000005 0001 00000003 7f000001 232b 00000032 00000000 00000000";

// To region 0 at epoch 2: 26 left, region 2 is gone; 4 and 9 go out, 3 comes in, and region 3 is cut off.
const SLICE: &str =
    "00000002 00000000 01 0000001a 01 00000002 01 00000000 00000001 0000000000000032 0000000000000000 \
    0000000000000000 00000032 00000000 00000000 00000032 00000000 00000000 01 00000003 7f000001 232b 00000032 \
    00000000 00000000 02 00000000 00000002 01 02 00000004 00000009 0001 00000003 7f000001 232b 00000032 \
    00000000 00000000 01 00 0000001a 0000001b 00000003";

// Members 1 to 8, each at x = 10 times its id.
const SUMMARY: &str =
    "00000008 0000000000000168 0000000000000000 0000000000000000 0000000a 00000000 00000000 00000050 00000000 \
    00000000 08 00000001 7f000001 2329 0000000a 00000000 00000000 00000002 7f000001 232a 00000014 00000000 \
    00000000 00000003 7f000001 232b 0000001e 00000000 00000000 00000004 7f000001 232c 00000028 00000000 \
    00000000 00000005 7f000001 232d 00000032 00000000 00000000 00000006 7f000001 232e 0000003c 00000000 \
    00000000 00000007 7f000001 232f 00000046 00000000 00000000 00000008 7f000001 2330 00000050 00000000 \
    00000000";

// Member 3 at x = 50.
const ROLL: &str = "0001 00000003 7f000001 232b 00000032 00000000 00000000";

// In each case the place of the value at fault, and the bytes that are changed for it, in hexadecimal digits behind
// their places. In a slice: epoch 0; 65 ids that left; the id 0; a count of 65 regions; a fall and a repeat in
// `touched`, and in `gone`; a coordinate beyond the limit; a flag 2; a fourth axis.
const SLICE_FAULTS: &str =
    "0: 3=00 8=41; 8: 8=41 12=00; 9: 12=00 13=41; 18: 18=41 108=03; 103: 102=09 142=03; 103: 106=00 \
    142=03; 113: 112=09 142=03; 113: 116=04 142=03; 129: 129=01 141=02; 141: 141=02 142=03; 142: 142=03";

// In a summary: no member and 2,001; sums of 641 and 79 of eight members from 10 to 80; a sum on another axis, where
// all coordinates are 0; a high below its low; seven and nine globals of eight members; a repeated id and the id 0,
// though a sum before it is wrong too.
const SUMMARY_FAULTS: &str =
    "0: 3=00; 0: 2=07 3=d1; 4: 10=02 11=81; 4: 10=00 11=4f; 12: 19=01; 20: 27=01; 40: 43=09 11=81; 52: \
    52=07 11=81; 52: 52=09 11=81; 75: 78=01 19=01; 75: 78=00 19=01";

// Sums of 640 and 80.
const SUMMARY_LIMITS: &str = "10=02 11=80; 10=00 11=50";

// In a picture: no region and 65; a repeated region; 65 rolls; a repeated region of a roll; 1,999 members beside the
// two of the first roll.
const PICTURE_FAULTS: &str =
    "4: 4=00; 4: 4=41; 106: 109=00 185=41; 185: 185=41 239=00; 236: 239=00 241=00; 240: 240=07 241=cf";

// What the bytes of a test are read as.
#[derive(Clone, Copy)]
enum Field {
    Slice,
    Summary,
    Picture,
    Roll,
}

impl Field {
    fn text(self) -> &'static str {
        match self {
            Field::Slice => SLICE,
            Field::Summary => SUMMARY,
            Field::Picture => PICTURE,
            Field::Roll => ROLL,
        }
    }
}

fn first_fault(alloc: Global, field: Field, bytes: &[u8]) -> Option<PacketFault> {
    match field {
        Field::Slice => decode_slice(alloc, bytes).err(),
        Field::Summary => take_summary(alloc, bytes, 0).err(),
        Field::Picture => take_picture(alloc, bytes, 0).err(),
        Field::Roll => take_roll(alloc, bytes, 0).err(),
    }
}

// The bytes that are written in hexadecimal digits, two of them for each.
fn bytes_of(alloc: Global, digits: &str) -> Result<Vec<u8>, Fail> {
    let mut bytes = Vec::new(alloc);
    for pair in digits.as_bytes().chunks(2) {
        let [high, low] = pair else {
            continue;
        };
        let high = char::from(*high).to_digit(16).ok_or("digit")?;
        let low = char::from(*low).to_digit(16).ok_or("digit")?;
        bytes.push((16 * high + low) as u8)?;
    }
    Ok(bytes)
}

// The bytes of all fields.
fn joined(alloc: Global, fields: &str) -> Result<Vec<u8>, Fail> {
    let mut bytes = Vec::new(alloc);
    for field in fields.split(" ") {
        bytes.extend_from_slice(&bytes_of(alloc, field)?)?;
    }
    Ok(bytes)
}

fn number(digits: &str) -> Result<u32, Fail> {
    Ok(u32::from_str_radix(digits, 10).ok().ok_or("number")?)
}

// Puts 10 at place 12 where the change is `12=0a`.
fn put_change(bytes: &mut Vec<u8>, change: &str) -> Result<(), Fail> {
    let (place, digits) = change.split_once("=").ok_or("change")?;
    let byte = u8::from_str_radix(digits, 16).ok().ok_or("byte")?;
    if let Some(old) = bytes.get_mut(number(place)? as usize) {
        *old = byte;
    }
    Ok(())
}

// The bytes of all fields, with these changes.
fn changed(alloc: Global, fields: &str, changes: &str) -> Result<Vec<u8>, Fail> {
    let mut bytes = joined(alloc, fields)?;
    for change in changes.split(" ") {
        put_change(&mut bytes, change)?;
    }
    Ok(bytes)
}

// With the changes of each case the value at its place is the first fault.
fn have_faults(rt: &impl Abort, alloc: Global, field: Field, table: &str) -> Result<(), Fail> {
    for case in table.split("; ") {
        let (place, changes) = case.split_once(": ").ok_or("case")?;
        let found = first_fault(alloc, field, &changed(alloc, field.text(), changes)?);
        assert_eq!(rt; found, Some(PacketFault::Value(number(place)?)), "{case}");
    }
    Ok(())
}

// The bytes end before each byte of the part in turn, and the part is short.
fn is_short(rt: &impl Abort, field: Field, bytes: &mut Vec<u8>, part: &str) -> Result<(), Fail> {
    let alloc = *bytes.allocator();
    let place = u32::try_from(bytes.len()).ok().ok_or("length")?;
    let short = Some(PacketFault::Short(place));
    for byte in &bytes_of(alloc, part)? {
        assert_eq!(rt; first_fault(alloc, field, bytes), short);
        bytes.push(*byte)?;
    }
    Ok(())
}

// The same for each of the fields, and then they are read. The bytes of them all.
fn are_short(rt: &impl Abort, alloc: Global, field: Field) -> Result<Vec<u8>, Fail> {
    let mut bytes = Vec::new(alloc);
    for part in field.text().split(" ") {
        is_short(rt, field, &mut bytes, part)?;
    }
    assert_eq!(rt; first_fault(alloc, field, &bytes), None);
    Ok(bytes)
}

#[test]
fn a_picture_is_cut_anywhere(rt: HostRuntime) -> Result<(), Fail> {
    are_short(&rt, rt.alloc(), Field::Picture)?;
    Ok(())
}

#[test]
fn a_slice_is_cut_anywhere(rt: HostRuntime) -> Result<(), Fail> {
    let mut bytes = are_short(&rt, rt.alloc(), Field::Slice)?;
    bytes.push(0)?;
    let extra = Some(PacketFault::Extra(155));
    assert_eq!(rt; first_fault(rt.alloc(), Field::Slice, &bytes), extra);
    Ok(())
}

#[test]
fn a_slice_has_its_first_fault(rt: HostRuntime) -> Result<(), Fail> {
    have_faults(&rt, rt.alloc(), Field::Slice, SLICE_FAULTS)
}

#[test]
fn a_summary_has_its_first_fault(rt: HostRuntime) -> Result<(), Fail> {
    have_faults(&rt, rt.alloc(), Field::Summary, SUMMARY_FAULTS)
}

#[test]
fn a_picture_has_its_first_fault(rt: HostRuntime) -> Result<(), Fail> {
    have_faults(&rt, rt.alloc(), Field::Picture, PICTURE_FAULTS)?;
    // one member fewer may be there, but isn't
    let bytes = changed(rt.alloc(), PICTURE, "240=07 241=ce")?;
    let short = Some(PacketFault::Short(264));
    assert_eq!(rt; first_fault(rt.alloc(), Field::Picture, &bytes), short);
    Ok(())
}

#[test]
fn a_sum_may_be_at_its_bounds(rt: HostRuntime) -> Result<(), Fail> {
    for changes in SUMMARY_LIMITS.split("; ") {
        let bytes = changed(rt.alloc(), SUMMARY, changes)?;
        assert_eq!(rt; first_fault(rt.alloc(), Field::Summary, &bytes), None);
    }
    Ok(())
}

fn slice_again(alloc: Global, bytes: &[u8], out: &mut Vec<u8>) -> Result<u32, Fail> {
    let (slice, behind) = take_slice(alloc, bytes, 0)?;
    put_slice(out, &slice)?;
    Ok(behind)
}

fn summary_again(alloc: Global, bytes: &[u8], out: &mut Vec<u8>) -> Result<u32, Fail> {
    let (summary, behind) = take_summary(alloc, bytes, 0)?;
    put_summary(out, &summary)?;
    Ok(behind)
}

fn picture_again(alloc: Global, bytes: &[u8], out: &mut Vec<u8>) -> Result<u32, Fail> {
    let (picture, behind) = take_picture(alloc, bytes, 0)?;
    put_picture(out, &picture)?;
    Ok(behind)
}

fn roll_again(alloc: Global, bytes: &[u8], out: &mut Vec<u8>) -> Result<u32, Fail> {
    let (roll, behind) = take_roll(alloc, bytes, 0)?;
    put_roll(out, &roll)?;
    Ok(behind)
}

// What is read from the bytes of these fields is put so again.
fn is_put_again(rt: &impl Abort, alloc: Global, field: Field, end: u32) -> Result<(), Fail> {
    let bytes = joined(alloc, field.text())?;
    let mut out = Vec::new(alloc);
    let behind = match field {
        Field::Slice => slice_again(alloc, &bytes, &mut out)?,
        Field::Summary => summary_again(alloc, &bytes, &mut out)?,
        Field::Picture => picture_again(alloc, &bytes, &mut out)?,
        Field::Roll => roll_again(alloc, &bytes, &mut out)?,
    };
    assert_eq!(rt; behind, end);
    assert_eq!(rt; out.as_slice(), bytes.as_slice());
    Ok(())
}

#[test]
fn what_was_taken_is_put_again(rt: HostRuntime) -> Result<(), Fail> {
    is_put_again(&rt, rt.alloc(), Field::Slice, 155)?;
    is_put_again(&rt, rt.alloc(), Field::Summary, 229)?;
    is_put_again(&rt, rt.alloc(), Field::Picture, 264)?;
    is_put_again(&rt, rt.alloc(), Field::Roll, 24)
}

#[test]
fn a_slice_is_encoded_again(rt: HostRuntime) -> Result<(), Fail> {
    let bytes = joined(rt.alloc(), SLICE)?;
    let slice = decode_slice(rt.alloc(), &bytes)?.copy()?;
    assert_eq!(rt; slice.head.left.as_slice(), [26].as_slice());
    assert!(rt; matches!(slice.part.kind, PartKind::Diff { .. }));
    let piece = encode_slice(rt.alloc(), &slice)?;
    assert_eq!(rt; piece.as_slice(), bytes.as_slice());
    Ok(())
}

// The summaries of a picture begin behind its epoch.
fn regions_again(alloc: Global, bytes: &[u8], out: &mut Vec<u8>) -> Result<u32, Fail> {
    if bytes.len() < 4 {
        return Ok(0);
    }
    let (regions, behind) = take_regions(alloc, bytes, 4)?;
    put_regions(out, &regions)?;
    Ok(behind)
}

#[test]
fn summaries_of_a_picture_are_put_again(rt: HostRuntime) -> Result<(), Fail> {
    let bytes = joined(rt.alloc(), PICTURE)?;
    let mut out = Vec::new(rt.alloc());
    assert_eq!(rt; regions_again(rt.alloc(), &bytes, &mut out)?, 185);
    let fault = take_some_regions(rt.alloc(), &out, 0, 3).err();
    assert_eq!(rt; fault, Some(PacketFault::Value(0)));
    Ok(())
}

// Members of these ids at 127.0.0.1:9001, all at x = 0.
fn push_members(bytes: &mut Vec<u8>, ids: Range<u32>) -> Result<(), Fail> {
    for id in ids {
        bytes.extend_from_slice(&id.to_be_bytes())?;
        bytes.extend_from_slice(&[127, 0, 0, 1, 0x23, 0x29])?;
        bytes.extend_from_slice(&[0; 12])?;
    }
    Ok(())
}

// A region and its summary, of so many members from the first id on.
fn push_summary(bytes: &mut Vec<u8>, region: u32, first: u32, size: u16) -> Result<(), Fail> {
    bytes.extend_from_slice(&region.to_be_bytes())?;
    bytes.extend_from_slice(&u32::from(size).to_be_bytes())?;
    bytes.extend_from_slice(&[0; 48])?;
    bytes.push(8)?;
    push_members(bytes, first..first.saturating_add(8))
}

// A region and the roll of these members.
fn push_roll(bytes: &mut Vec<u8>, region: u32, first: u32, size: u16) -> Result<(), Fail> {
    bytes.extend_from_slice(&region.to_be_bytes())?;
    bytes.extend_from_slice(&size.to_be_bytes())?;
    push_members(bytes, first..first.saturating_add(u32::from(size)))
}

// The picture of 64 regions with their rolls: 31 members in each, and 47 in the last, 2,000 in all.
fn greatest_picture(alloc: Global) -> Result<Vec<u8>, Fail> {
    let mut bytes = joined(alloc, "00000007 40")?;
    for region in 0..64 {
        push_summary(
            &mut bytes,
            region,
            1 + 100 * region,
            if region < 63 { 31 } else { 47 },
        )?;
    }
    bytes.push(64)?;
    for region in 0..64 {
        push_roll(
            &mut bytes,
            region,
            1 + 100 * region,
            if region < 63 { 31 } else { 47 },
        )?;
    }
    Ok(bytes)
}

// 59,302 bytes are the most that a picture has.
#[test]
fn a_picture_has_room_for_2000_members_in_64_regions(rt: HostRuntime) -> Result<(), Fail> {
    let mut bytes = greatest_picture(rt.alloc())?;
    assert_eq!(rt; bytes.len(), 59_302);
    let mut out = Vec::new(rt.alloc());
    assert_eq!(rt; picture_again(rt.alloc(), &bytes, &mut out)?, 59_302);
    assert_eq!(rt; out.as_slice(), bytes.as_slice());
    // One more region, and one more member in the last roll.
    bytes[4] = 65;
    assert_eq!(rt;
        first_fault(rt.alloc(), Field::Picture, &bytes),
        Some(PacketFault::Value(4))
    );
    bytes[4] = 64;
    bytes[58_267] = 48;
    assert_eq!(rt;
        first_fault(rt.alloc(), Field::Picture, &bytes),
        Some(PacketFault::Value(58_266))
    );
    Ok(())
}
