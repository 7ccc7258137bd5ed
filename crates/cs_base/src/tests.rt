use crate::*;
use std::test::Fail;

#[test]
fn reads_numbers(rt: HostRuntime) {
    for (text, want) in [
        ("0", Some(0)),
        ("7", Some(7)),
        ("4294967295", Some(4_294_967_295)),
        ("", None),
        ("00", None),
        ("01", None),
        ("+1", None),
        ("-1", None),
        (" 1", None),
        ("4294967296", None),
        ("99999999999999999999", None),
        ("1a", None),
    ] {
        assert_eq!(rt; read_u32(text.as_bytes()), want, "at {text}");
    }
}

#[test]
fn reads_numbers_with_a_sign(rt: HostRuntime) {
    for (text, want) in [
        ("0", Some(0)),
        ("-1", Some(-1)),
        ("2147483647", Some(2_147_483_647)),
        ("-2147483648", Some(-2_147_483_648)),
        ("5", Some(5)),
        ("-0", None),
        ("2147483648", None),
        ("-2147483649", None),
        ("+1", None),
        ("--1", None),
        ("-", None),
        ("", None),
        ("01", None),
        ("-01", None),
    ] {
        assert_eq!(rt; read_i32(text.as_bytes()), want, "at {text}");
    }
}

#[test]
fn reads_addresses(rt: HostRuntime) {
    for (text, ip, port) in [
        ("127.0.0.1:9001", [127, 0, 0, 1], 9001),
        ("0.0.0.0:1", [0, 0, 0, 0], 1),
        ("255.255.255.255:65535", [255, 255, 255, 255], 65535),
        ("1.2.3.4:5", [1, 2, 3, 4], 5),
    ] {
        let addr = read_addr(text.as_bytes()).expect(&rt, text);
        assert_eq!(rt; addr.ip(), ip, "at {text}");
        assert_eq!(rt; addr.port(), port, "at {text}");
    }
}

#[test]
fn refuses_other_addresses(rt: HostRuntime) {
    for text in [
        "127.0.0:1",
        "127.0.0.01:9",
        "256.0.0.1:9",
        "1.2.3.4:0",
        "1.2.3.4:65536",
        "1.2.3.4",
        "1.2.3.4.5:6",
        "1.2.3.4:5:6",
        ".1.2.3:4",
        "",
    ] {
        assert_eq!(rt; read_addr(text.as_bytes()), None, "at {text}");
    }
}

#[test]
fn makes_ids_and_epochs(rt: HostRuntime) {
    for (n, node, region) in [
        (0, None, Some(0)),
        (1, Some(1), Some(1)),
        (4_294_967_294, Some(4_294_967_294), Some(4_294_967_294)),
        (4_294_967_295, Some(4_294_967_295), None),
    ] {
        assert_eq!(rt; NodeId::new(n).map(NodeId::get), node, "at {n}");
        assert_eq!(rt; RegionId::new(n).map(RegionId::get), region, "at {n}");
        assert_eq!(rt; Epoch::new(n).map(Epoch::get), region, "at {n}");
    }
    for (n, want) in [
        (0, Some(1)),
        (4_294_967_293, Some(4_294_967_294)),
        (4_294_967_294, None),
    ] {
        let epoch = Epoch::new(n).expect(&rt, "an epoch");
        assert_eq!(rt; epoch.next().map(Epoch::get), want, "at {n}");
    }
}

#[test]
fn makes_addresses(rt: HostRuntime) {
    assert_eq!(rt; Addr::new([1, 2, 3, 4], 0), None);
    let addr = Addr::new([1, 2, 3, 4], 1).expect(&rt, "an address");
    assert_eq!(rt; addr.ip(), [1, 2, 3, 4]);
    assert_eq!(rt; addr.port(), 1);
}

#[test]
fn makes_points(rt: HostRuntime) {
    let point = Point::new(-1_000_000, 1_000_000, 7).expect(&rt, "a point");
    assert_eq!(rt; point.axis(Axis::X), -1_000_000);
    assert_eq!(rt; point.axis(Axis::Y), 1_000_000);
    assert_eq!(rt; point.axis(Axis::Z), 7);
    for (x, y, z) in [(1_000_001, 0, 0), (0, -1_000_001, 0), (0, 0, 1_000_001)] {
        assert_eq!(rt; Point::new(x, y, z), None, "at {x} {y} {z}");
    }
}

#[test]
fn makes_sums(rt: HostRuntime) {
    for (n, sums) in [
        (1, [1_000_000, -1_000_000, 0]),
        (10_000, [10_000_000_000, -10_000_000_000, 3]),
    ] {
        let sum = Sum::new(n, sums).expect(&rt, "a sum");
        assert_eq!(rt; sum.count(), n);
        assert_eq!(rt; sum.sums(), sums);
    }
    for (n, sums) in [
        (0, [0, 0, 0]),
        (10_001, [0, 0, 0]),
        (1, [1_000_001, 0, 0]),
        (1, [0, -1_000_001, 0]),
        (10_000, [0, 0, 10_000_000_001]),
    ] {
        assert_eq!(rt; Sum::new(n, sums), None, "at {n}");
    }
}

#[test]
fn keeps_numbers_in_order(rt: HostRuntime) -> Result<(), Fail> {
    let mut ids = Ids::new(rt.alloc());
    assert!(rt; ids.is_empty());
    for (n, is_new) in [(5, true), (1, true), (5, false), (9, true)] {
        assert_eq!(rt; ids.insert(n)?, is_new, "at {n}");
    }
    assert_eq!(rt; ids.as_slice(), [1, 5, 9].as_slice());
    assert_eq!(rt; ids.len(), 3);
    for (n, want) in [
        (0, false),
        (1, true),
        (5, true),
        (6, false),
        (9, true),
        (10, false),
    ] {
        assert_eq!(rt; ids.has(n), want, "at {n}");
    }
    assert_eq!(rt; ids.copy()?.as_slice(), [1, 5, 9].as_slice());
    let mut pushed = Ids::new(rt.alloc());
    pushed.push(4)?;
    assert_eq!(rt; pushed.as_slice(), [4].as_slice());
    Ok(())
}

#[test]
fn keeps_changes(rt: HostRuntime) -> Result<(), Fail> {
    let id = NodeId::new(7).expect(&rt, "an id");
    let addr = Addr::new([127, 0, 0, 1], 9007).expect(&rt, "an address");
    let at = Point::new(10, 0, 0).expect(&rt, "a point");
    let join = Change::Join(Member { id, addr, at });
    let change = Change::Move {
        id,
        seq: 4_294_967_295,
        at,
    };
    let leave = Change::Leave { id };
    let mut changes = Changes::new(rt.alloc());
    assert!(rt; changes.is_empty());
    for (x, rank) in [(join, 0), (change, 4_294_967_295), (leave, 4_294_967_296)] {
        assert_eq!(rt; x.id(), id);
        assert_eq!(rt; x.rank(), rank);
        changes.push(x)?;
    }
    assert_eq!(rt; changes.len(), 3);
    assert_eq!(rt;
        changes.copy()?.as_slice(),
        [join, change, leave].as_slice()
    );
    Ok(())
}

#[test]
fn prints_values(rt: HostRuntime) -> Result<(), Fail> {
    let id = NodeId::new(4_294_967_295).expect(&rt, "an id");
    let region = RegionId::new(0).expect(&rt, "a region");
    let epoch = Epoch::new(12).expect(&rt, "an epoch");
    let addr = Addr::new([127, 0, 0, 1], 9007).expect(&rt, "an address");
    let at = Point::new(10, -1_000_000, 0).expect(&rt, "a point");
    let text = format!(in rt.alloc(); "{id} {region} {epoch} {addr} {at}")?;
    assert_eq!(rt;
        text.as_str(),
        "4294967295 0 12 127.0.0.1:9007 10 -1000000 0"
    );
    Ok(())
}
