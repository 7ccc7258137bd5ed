// Groups in line: the leader at x = 0, and then the nodes 2, 3 and so on, each so far from the one before.
use super::{REPLAY, copy, told};
use crate::memory::CleanSink;
use crate::status::Status;
use std::fmt::Write;
use std::process::Abort;
use std::str::from_utf8;

const THREE: &str = "\
> print 1
epoch 1
region 0 3 30 0 0 0 0 0 20 0 0
global 0 1 127.0.0.1:9001 0 0 0
global 0 2 127.0.0.1:9002 10 0 0
global 0 3 127.0.0.1:9003 20 0 0
member 0 1 127.0.0.1:9001 0 0 0
member 0 2 127.0.0.1:9002 10 0 0
member 0 3 127.0.0.1:9003 20 0 0
inter 0 0
inter 1 0
inter 2 0
inter 3 0
local 0 0 1 1>2 1>3
local 0 1 2 2>1 2>3
local 0 2 3 3>1 3>2
digest 5afa3cc269e8afbd3bd43d701db2a463d0441cc6cca0a98e9c0f6ed9b90c5ba5
end
";

const FIVE: &str = "\
> print 1
epoch 1
region 0 5 100 0 0 0 0 0 40 0 0
global 0 1 127.0.0.1:9001 0 0 0
global 0 2 127.0.0.1:9002 10 0 0
global 0 3 127.0.0.1:9003 20 0 0
global 0 4 127.0.0.1:9004 30 0 0
global 0 5 127.0.0.1:9005 40 0 0
member 0 1 127.0.0.1:9001 0 0 0
member 0 2 127.0.0.1:9002 10 0 0
member 0 3 127.0.0.1:9003 20 0 0
member 0 4 127.0.0.1:9004 30 0 0
member 0 5 127.0.0.1:9005 40 0 0
inter 0 0
inter 1 0
inter 2 0
inter 3 0
local 0 0 1 1>4 1>5 5>2 5>3
local 0 1 2 2>1 2>3 2>4 2>5
local 0 2 3 3>1 3>2 3>4 3>5
local 0 3 4 4>1 4>2 4>3 4>5
digest 082d04b2f83efac0763b7808c088f4049d206937d23026b18aaf200755dc9a2c
end
";

const SEVEN: &str = "\
> print 1
epoch 1
region 0 7 21 0 0 0 0 0 6 0 0
global 0 1 127.0.0.1:9001 0 0 0
global 0 2 127.0.0.1:9002 1 0 0
global 0 3 127.0.0.1:9003 2 0 0
global 0 4 127.0.0.1:9004 3 0 0
global 0 5 127.0.0.1:9005 4 0 0
global 0 6 127.0.0.1:9006 5 0 0
global 0 7 127.0.0.1:9007 6 0 0
member 0 1 127.0.0.1:9001 0 0 0
member 0 2 127.0.0.1:9002 1 0 0
member 0 3 127.0.0.1:9003 2 0 0
member 0 4 127.0.0.1:9004 3 0 0
member 0 5 127.0.0.1:9005 4 0 0
member 0 6 127.0.0.1:9006 5 0 0
member 0 7 127.0.0.1:9007 6 0 0
inter 0 0
inter 1 0
inter 2 0
inter 3 0
local 0 0 1 1>5 1>6 1>7 5>2 5>3 5>4
local 0 1 2 2>5 2>6 2>7 6>1 6>3 6>4
local 0 2 3 3>5 3>6 3>7 7>1 7>2 7>4
local 0 3 4 4>1 4>2 4>3 4>5 4>6 4>7
digest 7995c12661cb136f248dd3f44b62c34d572a64f3c7e58ff2c341dbc6bb384e93
end
";

// The lines of a block between its last `member` line and its second `local` line.
const TREES_OF_48: &str = "
inter 0 0
inter 1 0
inter 2 0
inter 3 0
local 0 0 21 1>2 1>3 1>4 5>1 5>6 5>7 5>8 5>9 9>10 9>11 9>12 13>5 13>14 13>15 13>16 13>17 17>22 17>23 17>24 17>25 \
21>13 21>26 21>27 21>28 21>37 25>18 25>19 25>20 29>33 29>34 29>35 29>36 33>30 33>31 33>32 37>29 37>38 37>39 37>40 \
37>41 41>45 41>46 41>47 41>48 45>42 45>43 45>44
";

const TREES_OF_49: &str = "
inter 0 0 0>1
inter 1 0 0>1
inter 2 0 0>1
inter 3 0 0>1
local 0 0 13 1>2 1>3 1>4 5>1 5>6 5>7 5>8 5>9 9>10 9>11 9>12 13>5 13>14 13>15 13>16 13>21 17>18 17>19 21>17 21>20 \
21>22 21>25 25>23 25>24
";

// Node 2 knows no region at epoch 2, since it moved. Nothing changes at the next close.
const MOVED: &str = "\
> print 2
epoch 2
region 0 24 299 0 0 0 0 0 24 0 0
global 0 1 127.0.0.1:9001 0 0 0
global 0 3 127.0.0.1:9003 2 0 0
global 0 4 127.0.0.1:9004 3 0 0
global 0 5 127.0.0.1:9005 4 0 0
global 0 6 127.0.0.1:9006 5 0 0
global 0 7 127.0.0.1:9007 6 0 0
global 0 8 127.0.0.1:9008 7 0 0
global 0 9 127.0.0.1:9009 8 0 0
region 1 25 924 0 0 25 0 0 48 0 0
global 1 2 127.0.0.1:9002 48 0 0
global 1 26 127.0.0.1:9026 25 0 0
global 1 27 127.0.0.1:9027 26 0 0
global 1 28 127.0.0.1:9028 27 0 0
global 1 29 127.0.0.1:9029 28 0 0
global 1 30 127.0.0.1:9030 29 0 0
global 1 31 127.0.0.1:9031 30 0 0
global 1 32 127.0.0.1:9032 31 0 0
inter 0 0 0>1
inter 1 0 0>1
inter 2 0 0>1
inter 3 0 0>1
digest 98c52153e971f294cc04c3fa9cf37a55e2e253acdad98ba90f050562fd8e3633
end
> close
closed 3
#304 1>3 piece 3 0 0
#305 1>4 piece 3 0 0
#306 1>5 piece 3 0 0
#307 1>10 piece 3 0 0
#308 1>3 piece 3 0 1
#309 1>4 piece 3 0 2
#310 1>5 piece 3 0 3
#311 1>2 piece 3 1 0
#312 1>3 piece 3 1 1
#313 1>4 piece 3 1 2
#314 1>5 piece 3 1 3
";

// It comes to epoch 3 by the slice of some region.
const MOVED_ON: &str = "\
> print 2
epoch 3
region 0 24 299 0 0 0 0 0 24 0 0
global 0 1 127.0.0.1:9001 0 0 0
global 0 3 127.0.0.1:9003 2 0 0
global 0 4 127.0.0.1:9004 3 0 0
global 0 5 127.0.0.1:9005 4 0 0
global 0 6 127.0.0.1:9006 5 0 0
global 0 7 127.0.0.1:9007 6 0 0
global 0 8 127.0.0.1:9008 7 0 0
global 0 9 127.0.0.1:9009 8 0 0
region 1 25 924 0 0 25 0 0 48 0 0
global 1 2 127.0.0.1:9002 48 0 0
global 1 26 127.0.0.1:9026 25 0 0
global 1 27 127.0.0.1:9027 26 0 0
global 1 28 127.0.0.1:9028 27 0 0
global 1 29 127.0.0.1:9029 28 0 0
global 1 30 127.0.0.1:9030 29 0 0
global 1 31 127.0.0.1:9031 30 0 0
global 1 32 127.0.0.1:9032 31 0 0
inter 0 0 0>1
inter 1 0 0>1
inter 2 0 0>1
inter 3 0 0>1
digest 7d16006378c13c0063f2a2ad172cd0be8f9b89b26c3e61a4d70c64d9e6ae8c70
end
";

// It asks the leader for the roll that it lacks.
const ASKED: &str = "\
> ask 2 1
told
#505 2>1 ask 3
> deliver 505
answered
#506 1>2 snap 3 1
> deliver 506
jumped 3
> print 2
epoch 3
";

// Node 49 is full, and its first snapshot had the roll of its own region alone.
const ASKED_FOR_ALL: &str = "\
> ask 49 1
told
#97 49>1 ask 1
> deliver 97
answered
#98 1>49 snap 1 0,1
> deliver 98
jumped 1
> print 49
epoch 1
";

// The last lines of node 49 at epoch 3, to whose region node 2 moved.
const REGION_1: &str = "
local 1 3 36 28>26 28>27 28>29 28>30 32>28 32>31 32>33 32>34 32>35 32>40 36>32 36>42 36>43 36>44 36>45 36>46 \
40>37 40>38 40>39 40>41 44>48 44>49 48>2 48>47
digest 7d16006378c13c0063f2a2ad172cd0be8f9b89b26c3e61a4d70c64d9e6ae8c70
end
";

// The schedule by which all others are let in at one close, where the last has a mode of its own.
fn group_with<R: AllocGlobal + Abort>(rt: &R, joiners: u32, apart: u32, last: &str) -> String {
    let mut text = String::new(rt.alloc());
    writeln!(text, "lead 1 127.0.0.1:9001 0 0 0").expect(rt, "memory");
    let mut x: u32 = 0;
    for before in 1..joiners.saturating_add(1) {
        x = x.saturating_add(apart);
        let (id, port) = (before.saturating_add(1), before.saturating_add(9_001));
        let mode = if before == joiners { last } else { "partial" };
        writeln!(text, "boot {id} 127.0.0.1:{port} {x} 0 0 {mode}").expect(rt, "memory");
        writeln!(text, "join {id}").expect(rt, "memory");
        writeln!(text, "deliver {before}").expect(rt, "memory");
    }
    writeln!(text, "close").expect(rt, "memory");
    text
}

// The same, where all have one mode.
fn group_of<R: AllocGlobal + Abort>(rt: &R, joiners: u32, apart: u32) -> String {
    group_with(rt, joiners, apart, "partial")
}

// What the group is told, where the leader prints in the end.
fn group_told<R: AllocGlobal + Abort>(rt: &R, name: &str, joiners: u32, apart: u32) -> CleanSink {
    let mut text = group_of(rt, joiners, apart);
    writeln!(text, "print 1").expect(rt, "memory");
    told(rt, REPLAY, name, copy(rt, text.as_bytes()), Status::Done)
}

#[test]
fn whole_blocks(rt: HostRuntime) {
    let rows: [(&str, u32, u32, &str); 3] = [
        ("three members", 2, 10, THREE),
        ("five members", 4, 10, FIVE),
        ("seven members", 6, 1, SEVEN),
    ];
    for (name, joiners, apart, output) in rows {
        let sink = group_told(&rt, name, joiners, apart);
        assert!(rt; sink.written().ends_with(output.as_bytes()), "at {name}");
    }
}

#[test]
fn a_region_of_49_is_cut(rt: HostRuntime) {
    let whole = "\nregion 0 48 1128 0 0 0 0 0 47 0 0\n";
    let lower = "\nregion 0 25 300 0 0 0 0 0 24 0 0\n";
    let upper = "\nregion 1 24 876 0 0 25 0 0 48 0 0\n";
    let rows: [(&str, u32, &[&str]); 2] = [
        ("48 members", 47, &[whole, TREES_OF_48]),
        ("49 members", 48, &[lower, upper, TREES_OF_49]),
    ];
    for (name, joiners, parts) in rows {
        let sink = group_told(&rt, name, joiners, 1);
        let text = from_utf8(sink.written()).expect(&rt, "text");
        for part in parts {
            assert!(rt; text.contains(*part), "at {name}");
        }
    }
}

// Packets with these numbers come.
fn deliver<R: AllocGlobal + Abort>(rt: &R, text: &mut String, first: u32, last: u32) {
    for number in first..last.saturating_add(1) {
        writeln!(text, "deliver {number}").expect(rt, "memory");
    }
}

#[test]
fn a_member_moves_to_another_region(rt: HostRuntime) {
    let mut text = group_of(&rt, 48, 1);
    // Their snapshots, and the report of the move.
    deliver(&rt, &mut text, 49, 96);
    writeln!(text, "move 2 48 0 0").expect(&rt, "memory");
    deliver(&rt, &mut text, 97, 97);
    writeln!(text, "close").expect(&rt, "memory");
    deliver(&rt, &mut text, 98, 303);
    writeln!(text, "print 2").expect(&rt, "memory");
    writeln!(text, "close").expect(&rt, "memory");
    deliver(&rt, &mut text, 304, 504);
    writeln!(text, "print 49").expect(&rt, "memory");
    writeln!(text, "print 2").expect(&rt, "memory");
    writeln!(text, "ask 2 1").expect(&rt, "memory");
    deliver(&rt, &mut text, 505, 506);
    writeln!(text, "print 2").expect(&rt, "memory");
    let sink = told(
        &rt,
        REPLAY,
        "a move",
        copy(&rt, text.as_bytes()),
        Status::Done,
    );
    let output = from_utf8(sink.written()).expect(&rt, "text");
    for part in [MOVED, "\n> print 49\nepoch 3\n", REGION_1, MOVED_ON, ASKED] {
        assert!(rt; output.contains(part));
    }
    // Then it knows the roll of its region.
    assert!(rt; output.contains("\nmember 1 2 127.0.0.1:9002 48 0 0\n"));
    assert!(rt; output.ends_with(REGION_1));
}

#[test]
fn a_full_node_knows_each_roll(rt: HostRuntime) {
    let mut text = group_with(&rt, 48, 1, "full");
    deliver(&rt, &mut text, 49, 96);
    writeln!(text, "ask 49 1").expect(&rt, "memory");
    deliver(&rt, &mut text, 97, 98);
    writeln!(text, "print 49").expect(&rt, "memory");
    let sink = told(
        &rt,
        REPLAY,
        "a full node",
        copy(&rt, text.as_bytes()),
        Status::Done,
    );
    let output = from_utf8(sink.written()).expect(&rt, "text");
    assert!(rt; output.contains(ASKED_FOR_ALL));
    let members = output
        .lines()
        .filter(|line| line.starts_with("member "))
        .count();
    assert_eq!(rt; members, 49);
}
