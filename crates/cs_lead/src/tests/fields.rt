// What the tests use, as fields in hexadecimal digits: node N has the address 127.0.0.1 and the port 9000 + N.

/// Fields, of which one or more stand in each text, with a space between two.
pub(crate) type Fields<'a> = &'a [&'a str];

pub(crate) const R0: &str = "00000000";

pub(crate) const R1: &str = "00000001";

pub(crate) const R2: &str = "00000002";

pub(crate) const R9: &str = "00000009";

// Joins on the first axis: of 2 at 10, 3 at 20, 4 at 30 and 5 at 40.
pub(crate) const JOIN_2: &str = "01 00000002 7f000001 232a 0000000a 00000000 00000000";

pub(crate) const JOIN_3: &str = "01 00000003 7f000001 232b 00000014 00000000 00000000";

pub(crate) const JOIN_4: &str = "01 00000004 7f000001 232c 0000001e 00000000 00000000";

pub(crate) const JOIN_5: &str = "01 00000005 7f000001 232d 00000028 00000000 00000000";

pub(crate) const LEAVE_2: &str = "03 00000002";

pub(crate) const LEAVE_3: &str = "03 00000003";

pub(crate) const LEAVE_4: &str = "03 00000004";
