use crate::tests::{changed, joined, own};
use crate::{Entry, Own, decode_entry, encode_entry};
use cs_base::{Keyed, Point};
use cs_fields::PacketFault;
use std::process::Abort;

// Node 2 at 127.0.0.1:9002 and at the point (10, 0, 0), which node 1 at 127.0.0.1:9001 leads.
const BOOT: &str =
    "01 00 00000002 7f000001 232a 0000000a 00000000 00000000 00 00000001 7f000001 2329";
// Node 1 leads itself.
const LEAD: &str =
    "01 01 00000001 7f000001 2329 00000000 00000000 00000000 01 00000001 7f000001 2329";
// The first move, to (10, 0, 0).
const SEQ: &str = "02 00000001 0000000a 00000000 00000000";
// Epoch 1, with member 1 alone, at (0, 0, 0).
const VIEW: &str = "03 00000001 01 00000000 00000001 \
    0000000000000000 0000000000000000 0000000000000000 00000000 00000000 00000000 \
    00000000 00000000 00000000 01 00000001 7f000001 2329 00000000 00000000 00000000 \
    01 00000000 0001 00000001 7f000001 2329 00000000 00000000 00000000";
// At epoch 2 the regions 0 and 3 stay the same.
const STEP: &str = "04 02 0000000d 00000002000000000000000000 0000000d 00000002000000030000000000";

const GONE: &str = "05 00000005";
// Node 2 joins at 127.0.0.1:9002 and at the point (10, 0, 0).
const ITEM: &str = "06 00000001 01 01 00000002 7f000001 232a 0000000a 00000000 00000000";
// Epoch 17, at which 2 leaves. Before it 5 had left, and 1 stood in region 0 and 2, which had moved thrice, in
// region 1.
const BASE: &str = "07 00000011 00000002 0001 00000005 0002 \
    00000000 00000001 7f000001 2329 00000000 00000000 00000000 00000000 \
    00000001 00000002 7f000001 232a 0000000a 00000000 00000000 00000003 01 03 00000002";

fn entry_of<R: AllocGlobal + Abort>(rt: &R, fields: &str) -> Entry {
    decode_entry(rt.alloc(), &joined(rt, fields)).expect(rt, "entry")
}

// Looks at the fault of bytes that spell no entry.
fn check_fault<R: AllocGlobal + Abort>(rt: &R, bytes: &[u8], fault: PacketFault) {
    assert_eq!(rt; decode_entry(rt.alloc(), bytes).err(), Some(fault));
}

// Puts the bytes of a field behind the others. Before each of them the field is short.
fn check_field<R: AllocGlobal + Abort>(rt: &R, bytes: &mut Vec<u8>, field: &str) {
    let start = u32::try_from(bytes.len()).ok().expect(rt, "length");
    for byte in &joined(rt, field) {
        check_fault(rt, bytes, PacketFault::Short(start));
        bytes.push(*byte).expect(rt, "memory");
    }
}

// Looks at the bytes of a copy of the entry that the bytes spell.
fn check_copy<R: AllocGlobal + Abort>(rt: &R, bytes: &[u8]) {
    let entry = decode_entry(rt.alloc(), bytes).expect(rt, "entry");
    let copy = entry.copy().expect(rt, "memory");
    let spelling = encode_entry(rt.alloc(), &copy).expect(rt, "memory");
    assert_eq!(rt; spelling.as_slice(), bytes);
}

// The bytes end before each byte in turn, and the field that has it is short. Whole they are read, and written again.
#[test]
fn each_entry_is_read_and_written(rt: HostRuntime) {
    for fields in [BOOT, LEAD, SEQ, VIEW, STEP, GONE, ITEM, BASE] {
        let mut bytes = Vec::new(rt.alloc());
        for field in fields.split(" ") {
            check_field(&rt, &mut bytes, field);
        }
        check_copy(&rt, &bytes);
    }
}

#[test]
fn an_entry_has_its_first_fault(rt: HostRuntime) {
    for (fields, changes, fault) in [
        (GONE, [(0, 0), (1, 255)], PacketFault::Kind(0)),
        (GONE, [(0, 8), (1, 255)], PacketFault::Kind(8)),
        // a third flag; no id; port 0; a third mode
        (BOOT, [(1, 2), (5, 0)], PacketFault::Value(1)),
        (BOOT, [(5, 0), (5, 0)], PacketFault::Value(2)),
        (BOOT, [(10, 0), (11, 0)], PacketFault::Value(10)),
        (BOOT, [(24, 2), (24, 2)], PacketFault::Value(24)),
        // led by itself; no leader; the leader's port 0
        (BOOT, [(28, 2), (28, 2)], PacketFault::Value(25)),
        (BOOT, [(28, 0), (28, 0)], PacketFault::Value(25)),
        (BOOT, [(33, 0), (34, 0)], PacketFault::Value(33)),
        // it leads and wants to know its own region alone; another leader; two other addresses; port 0
        (LEAD, [(24, 0), (28, 2)], PacketFault::Value(24)),
        (LEAD, [(28, 2), (34, 42)], PacketFault::Value(25)),
        (LEAD, [(29, 126), (29, 126)], PacketFault::Value(29)),
        (LEAD, [(34, 42), (34, 42)], PacketFault::Value(29)),
        (LEAD, [(33, 0), (34, 0)], PacketFault::Value(33)),
        // the number 0; a point too far away
        (SEQ, [(4, 0), (4, 0)], PacketFault::Value(1)),
        (SEQ, [(5, 1), (5, 1)], PacketFault::Value(5)),
        // a picture of no region
        (VIEW, [(5, 0), (5, 0)], PacketFault::Value(5)),
        // epoch 0; 65 changes; a fourth tag; no id; a change left over
        (ITEM, [(4, 0), (4, 0)], PacketFault::Value(1)),
        (ITEM, [(5, 65), (5, 65)], PacketFault::Value(5)),
        (ITEM, [(6, 4), (10, 0)], PacketFault::Value(6)),
        (ITEM, [(10, 0), (10, 0)], PacketFault::Value(7)),
        (ITEM, [(5, 0), (5, 0)], PacketFault::Extra(6)),
    ] {
        check_fault(&rt, &changed(&rt, fields, changes), fault);
    }
}

// What is wrong with a field comes before that the bytes end behind it.
#[test]
fn a_cut_entry_has_its_first_fault(rt: HostRuntime) {
    for (fields, fault) in [
        // a departure without its epoch; a tenth flag, and no node; no number of a move
        ("05", PacketFault::Short(1)),
        ("01 09", PacketFault::Value(1)),
        ("02 00000000", PacketFault::Value(1)),
    ] {
        check_fault(&rt, &joined(&rt, fields), fault);
    }
}

#[test]
fn a_base_has_its_first_fault(rt: HostRuntime) {
    for (changes, fault) in [
        // epoch 0; 16,385 ids; no id; a second id, and no row behind it
        ([(4, 0), (4, 0)], PacketFault::Value(1)),
        ([(9, 64), (10, 1)], PacketFault::Value(9)),
        ([(14, 0), (14, 0)], PacketFault::Value(11)),
        ([(10, 2), (10, 2)], PacketFault::Value(19)),
        // no row; 2,048 rows; no id; port 0
        ([(16, 0), (16, 0)], PacketFault::Value(15)),
        ([(15, 8), (16, 0)], PacketFault::Value(15)),
        ([(24, 0), (24, 0)], PacketFault::Value(21)),
        ([(29, 0), (30, 0)], PacketFault::Value(29)),
        // a region that falls; the same row again; no id, in the same region and in one that falls
        ([(20, 2), (20, 2)], PacketFault::Value(47)),
        ([(50, 0), (54, 1)], PacketFault::Value(47)),
        ([(50, 0), (54, 0)], PacketFault::Value(51)),
        ([(20, 2), (54, 0)], PacketFault::Value(47)),
        // 65 changes; a change left over
        ([(77, 65), (77, 65)], PacketFault::Value(77)),
        ([(77, 0), (77, 0)], PacketFault::Extra(78)),
    ] {
        check_fault(&rt, &changed(&rt, BASE, changes), fault);
    }
}

#[test]
fn a_step_has_its_first_fault(rt: HostRuntime) {
    for (changes, fault) in [
        // no slice; 65 slices; a third slice; a slice left over
        ([(1, 0), (1, 0)], PacketFault::Value(1)),
        ([(1, 65), (1, 65)], PacketFault::Value(1)),
        ([(1, 3), (1, 3)], PacketFault::Short(36)),
        ([(1, 1), (1, 1)], PacketFault::Extra(19)),
        // a slice that is longer and one that is shorter than its length says; epoch 0; a fourth kind of a part
        ([(5, 12), (5, 12)], PacketFault::Value(2)),
        ([(5, 14), (5, 14)], PacketFault::Value(2)),
        ([(9, 0), (9, 0)], PacketFault::Value(2)),
        ([(18, 3), (18, 3)], PacketFault::Value(2)),
        // the region again; one that falls; lengths 0, 12 and 14, and a very great one
        ([(13, 3), (13, 3)], PacketFault::Value(19)),
        ([(13, 4), (13, 4)], PacketFault::Value(19)),
        ([(22, 0), (22, 0)], PacketFault::Value(19)),
        ([(22, 12), (22, 12)], PacketFault::Value(19)),
        ([(22, 14), (22, 14)], PacketFault::Short(23)),
        ([(19, 255), (20, 255)], PacketFault::Short(23)),
    ] {
        check_fault(&rt, &changed(&rt, STEP, changes), fault);
    }
}

// Whether the node leads, and who it is.
fn boot_of(entry: &Entry) -> Option<(bool, Own)> {
    match entry {
        Entry::Boot { leader, own } => Some((*leader, *own)),
        _ => None,
    }
}

fn move_of(entry: &Entry) -> Option<(u32, Point)> {
    match entry {
        Entry::Seq { seq, at } => Some((*seq, *at)),
        _ => None,
    }
}

// The region of the last slice.
fn last_region(entry: &Entry) -> Option<u32> {
    match entry {
        Entry::Step(slices) => Some(slices.as_slice().last()?.key()),
        _ => None,
    }
}

fn epoch_of(entry: &Entry) -> Option<u32> {
    match entry {
        Entry::View(picture) => Some(picture.epoch.get()),
        Entry::Gone { epoch } | Entry::Item { epoch, .. } | Entry::Base { epoch, .. } => {
            Some(epoch.get())
        }
        _ => None,
    }
}

// The region, the id and the seq of the last row.
fn last_row_of(entry: &Entry) -> Option<(u32, u32, u32)> {
    match entry {
        Entry::Base { rows, .. } => {
            let row = rows.as_slice().last()?;
            Some((row.region.get(), row.member.id.get(), row.seq))
        }
        _ => None,
    }
}

#[test]
fn entries_have_their_values(rt: HostRuntime) {
    let boot = entry_of(&rt, BOOT);
    assert_eq!(rt; boot_of(&boot), Some((false, own(&rt, 2))));
    let ten = Point::new(10, 0, 0).expect(&rt, "point");
    assert_eq!(rt; move_of(&entry_of(&rt, SEQ)), Some((1, ten)));
    assert_eq!(rt; last_region(&entry_of(&rt, STEP)), Some(3));
    assert_eq!(rt; epoch_of(&entry_of(&rt, VIEW)), Some(1));
    assert_eq!(rt; epoch_of(&entry_of(&rt, GONE)), Some(5));
    assert_eq!(rt; epoch_of(&entry_of(&rt, ITEM)), Some(1));
    assert_eq!(rt; epoch_of(&entry_of(&rt, BASE)), Some(17));
    assert_eq!(rt; last_row_of(&entry_of(&rt, BASE)), Some((1, 2, 3)));
}
