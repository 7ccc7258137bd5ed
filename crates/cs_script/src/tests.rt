//! Each line with the event that it says, and each fault before the one behind it. The expected events and faults are
//! those of another program of the same specification.

use crate::{Event, Line, LineFault, print_event, read_line};
use cs_base::{Addr, Mode, NodeId, Point, RegionId};
use std::process::Abort;

// The line says this event, and the event is printed as the line.
fn check_line<R: AllocGlobal + Abort>(rt: &R, line: &[u8], said: Event) {
    let event = read_line(rt.alloc(), line).expect(rt, "a line");
    let printed = print_event(rt.alloc(), &event).expect(rt, "memory");
    assert_eq!(rt; event, said);
    assert_eq!(rt; printed.as_slice(), line);
}

// A line that says some event is printed as it was.
fn check_both_ways<R: AllocGlobal + Abort>(rt: &R, line: &[u8]) {
    let event = read_line(rt.alloc(), line).expect(rt, "a line");
    let printed = print_event(rt.alloc(), &event).expect(rt, "memory");
    assert_eq!(rt; printed.as_slice(), line);
}

#[test]
fn lines_of_nodes_that_start(rt: HostRuntime) {
    let id = NodeId::new(4_294_967_295).expect(&rt, "id");
    let addr = Addr::new([127, 0, 0, 1], 65_535).expect(&rt, "address");
    let at = Point::new(-1_000_000, 0, 1_000_000).expect(&rt, "point");
    let rows: [(&[u8], Event); 5] = [
        (
            b"lead 4294967295 127.0.0.1:65535 -1000000 0 1000000",
            Event::Lead(id, addr, at),
        ),
        (
            b"boot 4294967295 127.0.0.1:65535 -1000000 0 1000000 partial",
            Event::Boot(id, addr, at, Mode::Partial),
        ),
        (
            b"boot 4294967295 127.0.0.1:65535 -1000000 0 1000000 full",
            Event::Boot(id, addr, at, Mode::Full),
        ),
        (b"home 4294967295 127.0.0.1:65535", Event::Home(id, addr)),
        (b"move 4294967295 -1000000 0 1000000", Event::Move(id, at)),
    ];
    for (line, event) in rows {
        check_line(&rt, line, event);
    }
}

#[test]
fn lines_of_ids_and_numbers(rt: HostRuntime) {
    let id = NodeId::new(7).expect(&rt, "id");
    let to = NodeId::new(1).expect(&rt, "id");
    let region = RegionId::new(3).expect(&rt, "region");
    let rows: [(&[u8], Event); 14] = [
        (b"join 7", Event::Join(id)),
        (b"leave 7", Event::Leave(id)),
        (b"flush 7", Event::Flush(id)),
        (b"close", Event::Close),
        (b"ask 7 1", Event::Ask(id, to)),
        (b"need 7 1 3", Event::Need(id, to, region)),
        (b"deliver 4", Event::Deliver(4)),
        (b"lose 5", Event::Lose(5)),
        (b"settle 6", Event::Settle(6)),
        (b"noise 7 8", Event::Noise(id, 8)),
        (b"crash 7", Event::Crash(id)),
        (b"restart 7", Event::Restart(id)),
        (b"tear 7 9", Event::Tear(id, 9)),
        (b"print 7", Event::Print(id)),
    ];
    for (line, event) in rows {
        check_line(&rt, line, event);
    }
}

#[test]
fn bytes_of_a_packet(rt: HostRuntime) {
    let id = NodeId::new(2).expect(&rt, "id");
    let none = Line::new(rt.alloc());
    check_line(&rt, b"packet 2 -", Event::Packet(id, none));
    let some = Line::from_slice(rt.alloc(), &[0, 9, 175, 255]).expect(&rt, "memory");
    check_line(&rt, b"packet 2 0009afff", Event::Packet(id, some));
    let mut most = Vec::from_slice(rt.alloc(), b"packet 2 ").expect(&rt, "memory");
    for _ in 0..65_535 {
        most.extend_from_slice(b"c0").expect(&rt, "memory");
    }
    check_both_ways(&rt, &most);
    most.extend_from_slice(b"c0").expect(&rt, "memory");
    assert_eq!(rt; read_line(rt.alloc(), &most), Err(LineFault::Bytes));
}

#[test]
fn a_line_is_a_list_of_bytes(rt: HostRuntime) {
    let mut line = Line::new(rt.alloc());
    assert!(rt; line.is_empty());
    line.push(b'o').expect(&rt, "memory");
    line.push(b'k').expect(&rt, "memory");
    let copy = line.copy().expect(&rt, "memory");
    line.push(b'!').expect(&rt, "memory");
    assert_eq!(rt; copy.as_slice(), b"ok".as_slice());
    assert_eq!(rt; line.len(), 3);
    assert!(rt; copy != line);
}

#[test]
fn numbers_at_both_ends(rt: HostRuntime) {
    let lines: [&[u8]; 18] = [
        b"join 1",
        b"join 4294967295",
        b"home 1 0.0.0.0:1",
        b"home 1 255.255.255.255:65535",
        b"move 1 -1000000 1000000 0",
        b"need 1 1 0",
        b"need 1 1 4294967294",
        b"deliver 1",
        b"deliver 4294967295",
        b"lose 1",
        b"lose 4294967295",
        b"settle 1",
        b"settle 1000",
        b"noise 1 0",
        b"noise 1 65535",
        b"tear 1 0",
        b"tear 1 4294967295",
        b"packet 1 00",
    ];
    for line in lines {
        check_both_ways(&rt, line);
    }
}

// Each of the lines has this fault.
fn check_faults<R: AllocGlobal + Abort>(rt: &R, lines: &[&[u8]], fault: LineFault) {
    for (place, line) in lines.iter().enumerate() {
        assert_eq!(rt; read_line(rt.alloc(), line), Err(fault), "at {place}");
    }
}

#[test]
fn the_first_word_is_told_before_all(rt: HostRuntime) {
    let lines: [&[u8]; 8] = [
        b"",
        b" ",
        b" print 1",
        b"Print 1",
        b"leed",
        b"print\t1",
        b"close\r",
        b"stop x y",
    ];
    check_faults(&rt, &lines, LineFault::Word);
}

#[test]
fn the_count_is_told_before_what_is_counted(rt: HostRuntime) {
    let lines: [&[u8]; 14] = [
        b"close ",
        b"close 1",
        b"deliver  1",
        b"join 0 x",
        b"print",
        b"move 1 0 0",
        b"boot 0 x 0 0 0",
        b"lead 0 x 0 0 0 full",
        b"home 0",
        b"ask 0",
        b"need 0 0",
        b"packet 0",
        b"tear 0",
        b"noise 0 0 0",
    ];
    check_faults(&rt, &lines, LineFault::Count);
}

// A number one past its range, and each way not to be canonical.
#[test]
fn numbers_beyond_their_ends(rt: HostRuntime) {
    let lines: [&[u8]; 21] = [
        b"join 0",
        b"join 4294967296",
        b"join 01",
        b"join +1",
        b"join -1",
        b"join ",
        b"join 1\r",
        b"ask 1 0",
        b"need 1 1 4294967295",
        b"deliver 0",
        b"lose 0",
        b"lose 4294967296",
        b"settle 0",
        b"settle 1001",
        b"noise 1 65536",
        b"noise 1 -0",
        b"tear 1 4294967296",
        b"tear 1 00",
        b"move 1 -0 0 0",
        b"move 1 2147483648 0 0",
        b"move 1 -2147483649 0 0",
    ];
    check_faults(&rt, &lines, LineFault::Number);
}

// Where two faults fit, the one further left is told.
#[test]
fn the_first_fault_is_told(rt: HostRuntime) {
    let rows: [(&[u8], LineFault); 21] = [
        (b"move 0 1000001 0 0", LineFault::Number),
        (b"move 1 1000001 0 x", LineFault::Point),
        (b"move 1 x 1000001 0", LineFault::Number),
        (b"move 1 -1000001 0 0", LineFault::Point),
        (b"move 1 -2147483648 0 0", LineFault::Point),
        (b"move 1 0 0 2147483647", LineFault::Point),
        (b"boot 0 127.0.0.01:1 1000001 0 0 half", LineFault::Number),
        (b"boot 1 127.0.0.01:1 1000001 0 0 half", LineFault::Address),
        (b"boot 1 127.0.0.1:1 1000001 +0 0 half", LineFault::Point),
        (b"boot 1 127.0.0.1:1 1000000 0 0 half", LineFault::Word),
        (b"boot 1 127.0.0.1:1 1000000 0 0 ", LineFault::Word),
        (b"lead 1 127.0.0.1:0 x 0 0", LineFault::Address),
        (b"home 1 127.0.0.1:65536", LineFault::Address),
        (b"home 0 127.0.0.1", LineFault::Number),
        (b"packet 0 x", LineFault::Number),
        (b"packet 1 ", LineFault::Bytes),
        (b"packet 1 0", LineFault::Bytes),
        (b"packet 1 AB", LineFault::Bytes),
        (b"packet 1 0g", LineFault::Bytes),
        (b"packet 1 --", LineFault::Bytes),
        (b"need 1 0 x", LineFault::Number),
    ];
    for (place, (line, fault)) in rows.into_iter().enumerate() {
        assert_eq!(rt; read_line(rt.alloc(), line), Err(fault), "at {place}");
    }
}
