//! The limits of the service, each named once. Sizes that follow from them are computed where they are used.

/// The last id of a node.
pub const LAST_ID: u32 = 4_294_967_295;

/// The last number of a region and of an epoch.
pub const LAST_NUMBER: u32 = 4_294_967_294;

/// Microseconds from 0 to either end of an axis.
pub const FARTHEST: i32 = 1_000_000;

/// Members whose points one sum can have.
pub const MOST_SUMMED: u32 = 10_000;

/// Members of the group.
pub const MOST_MEMBERS: usize = 2000;

/// Members and ids that left together.
pub const MOST_TOGETHER: usize = 16_384;

/// Regions.
pub const MOST_REGIONS: usize = 64;

/// A region with more members than this is cut.
pub const CUT_ABOVE: usize = 48;

/// A region with fewer members than this is merged.
pub const MERGE_BELOW: usize = 6;

/// Members that a summary names.
pub const MOST_GLOBALS: usize = 8;

/// Colours, and so trees within a region.
pub const COLOURS: usize = 4;

/// Members without children for each member with children.
pub const LEAVES_EACH: usize = 6;

/// Children of a member in the tree of a region.
pub const MOST_CHILDREN: usize = 8;

/// Children of a region in a tree of regions.
pub const MOST_REGION_CHILDREN: usize = 2;

/// Changes of a report, and of one close.
pub const MOST_CHANGES: usize = 64;

/// Pending changes of a node.
pub const MOST_PENDING: usize = 256;

/// Bytes that are cut into pieces.
pub const MOST_PIECE_TOTAL: usize = 65_000;

/// Bytes of the greatest slice: those of every member, and of all else.
pub const MOST_SLICE_BYTES: usize = 22 * MOST_MEMBERS + 15_966;

/// Bytes of the greatest picture, likewise.
pub const MOST_PICTURE_BYTES: usize = 22 * MOST_MEMBERS + 15_302;

/// Bytes of a schedule.
pub const MOST_TEXT: usize = 4_194_304;

/// Bytes of all packets that are sent in a run.
pub const MOST_SENT: usize = 268_435_456;

/// Bytes that a run writes.
pub const MOST_OUTPUT: usize = 268_435_456;
