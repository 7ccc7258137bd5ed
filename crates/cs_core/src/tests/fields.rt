// What the tests use, as fields in hexadecimal digits: nodes 1 to 6 at the addresses 127.0.0.1:9001 to 9006.

/// Fields, of which one or more stand in each text, with a space between two.
pub(crate) type Fields<'a> = &'a [&'a str];

pub(crate) const R0: &str = "00000000";

pub(crate) const R1: &str = "00000001";

pub(crate) const R2: &str = "00000002";

pub(crate) const R3: &str = "00000003";

pub(crate) const R9: &str = "00000009";

// Members on the first axis: 1 at 0, 2 at 10, 3 at 100, 4 at 110, 5 at -100, 6 at 20.
pub(crate) const M1: &str = "00000001 7f000001 2329 00000000 00000000 00000000";

pub(crate) const M2: &str = "00000002 7f000001 232a 0000000a 00000000 00000000";

pub(crate) const M3: &str = "00000003 7f000001 232b 00000064 00000000 00000000";

pub(crate) const M4: &str = "00000004 7f000001 232c 0000006e 00000000 00000000";

pub(crate) const M5: &str = "00000005 7f000001 232d ffffff9c 00000000 00000000";

pub(crate) const M6: &str = "00000006 7f000001 232e 00000014 00000000 00000000";
// Member 2 at 105, and member 3 at 20.
pub(crate) const M2_AT_105: &str = "00000002 7f000001 232a 00000069 00000000 00000000";

pub(crate) const M3_AT_20: &str = "00000003 7f000001 232b 00000014 00000000 00000000";

// Summaries up to the number of global members: the size, three sums, three lows and three highs.
pub(crate) const OF_1: &str = "00000001 0000000000000000 0000000000000000 0000000000000000 \
    00000000 00000000 00000000 00000000 00000000 00000000 01";

pub(crate) const OF_1_2: &str = "00000002 000000000000000a 0000000000000000 0000000000000000 \
    00000000 00000000 00000000 0000000a 00000000 00000000 02";

pub(crate) const OF_1_2_3: &str = "00000003 000000000000001e 0000000000000000 0000000000000000 \
    00000000 00000000 00000000 00000014 00000000 00000000 03";

pub(crate) const OF_1_2_6: &str = OF_1_2_3;

pub(crate) const OF_3_4: &str = "00000002 00000000000000d2 0000000000000000 0000000000000000 \
    00000064 00000000 00000000 0000006e 00000000 00000000 02";

pub(crate) const OF_2_3_4: &str = "00000003 000000000000013b 0000000000000000 0000000000000000 \
    00000064 00000000 00000000 0000006e 00000000 00000000 03";

pub(crate) const OF_5: &str = "00000001 ffffffffffffff9c 0000000000000000 0000000000000000 \
    ffffff9c 00000000 00000000 ffffff9c 00000000 00000000 01";

// Three regions: 0 with the members 1 and 2, 1 with 3 and 4, 2 with 5.
pub(crate) const REGIONS: Fields = &["03", R0, OF_1_2, M1, M2, R1, OF_3_4, M3, M4, R2, OF_5, M5];
// The rolls of some of them.
pub(crate) const ROLL_0: Fields = &["01", R0, "0002", M1, M2];

pub(crate) const ROLL_1: Fields = &["01", R1, "0002", M3, M4];

pub(crate) const ROLLS_0_1: Fields = &["02", R0, "0002", M1, M2, R1, "0002", M3, M4];

pub(crate) const ROLLS_0_2: Fields = &["02", R0, "0002", M1, M2, R2, "0001", M5];

pub(crate) const ROLLS: Fields = &["03", R0, "0002", M1, M2, R1, "0002", M3, M4, R2, "0001", M5];
// The rolls of 0 and of region 3, which isn't listed.
pub(crate) const ROLLS_0_3: Fields = &["02", R0, "0002", M1, M2, R3, "0001", M5];

// One region, with the members 1 and 2, and with 1, 2 and 3.
pub(crate) const PAIR: Fields = &["01", R0, OF_1_2, M1, M2];

pub(crate) const TRIO: Fields = &["01", R0, OF_1_2_3, M1, M2, M3_AT_20];

pub(crate) const ROLL_OF_TRIO: Fields = &["01", R0, "0003", M1, M2, M3_AT_20];

// The end of a slice in whose epoch nothing changes: four empty lists, and the part of a region that stays the same.
pub(crate) const SAME: &str = "00 00 00 00 00";
// Such slices of epoch 6.
pub(crate) const SAME_0: Fields = &["00000006", R0, SAME];

pub(crate) const SAME_1: Fields = &["00000006", R1, SAME];
// The same part, where the head calls region 0 touched, or 0 and 1.
pub(crate) const SAME_1_OF_0: Fields = &["00000006", R1, "00 00 00 01", R0, "00"];

pub(crate) const SAME_0_OF_0_1: Fields = &["00000006", R0, "00 00 00 02", R0, R1, "00"];

pub(crate) const SAME_1_OF_0_1: Fields = &["00000006", R1, "00 00 00 02", R0, R1, "00"];
// And with another head, by which 9 left.
pub(crate) const OTHER_0_OF_0_1: Fields = &["00000006", R0, "01 00000009 00 00 02", R0, R1, "00"];

// At epoch 6 node 6 joins region 0.
pub(crate) const JOINED: Fields = &[
    "00000006",
    R0,
    "00 00 01",
    R0,
    OF_1_2_6,
    M1,
    M2,
    M6,
    "01",
    R0,
    "01 00 0001",
    M6,
    "00",
];
// At epoch 6 node 2 moves to region 1, where it stands at 105.
pub(crate) const MOVED: Fields = &[
    "00000006",
    R0,
    "00 00 02",
    R0,
    OF_1,
    M1,
    R1,
    OF_2_3_4,
    M2_AT_105,
    M3,
    M4,
    "02",
    R0,
    R1,
    "01 01 00000002 0000 00",
];

pub(crate) const REGIONS_MOVED: Fields = &[
    "03", R0, OF_1, M1, R1, OF_2_3_4, M2_AT_105, M3, M4, R2, OF_5, M5,
];

pub(crate) const ROLL_1_MOVED: Fields = &["01", R1, "0003", M2_AT_105, M3, M4];
// At epoch 2 node 2 leaves, of a group of the members 1 and 2.
pub(crate) const LEFT: Fields = &[
    "00000002",
    R0,
    "01 00000002 00 01",
    R0,
    OF_1,
    M1,
    "01",
    R0,
    "01 01 00000002 0000 00",
];
