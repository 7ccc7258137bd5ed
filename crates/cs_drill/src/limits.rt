/// The least number of nodes of a drill.
pub const FEWEST_NODES: u32 = 2;

/// The greatest number of nodes of a drill.
pub const MOST_NODES: u32 = 1000;

/// Nodes that join between two closes.
pub const TOGETHER: usize = 64;

/// Rounds of changes.
pub const ROUNDS: u32 = 8;

/// Moves in one of them.
pub const MOVES: usize = 8;

/// Rounds of deliveries of one `settle`.
pub const SETTLING: u32 = 40;

/// The greatest number of nodes of a live run.
pub const MOST_LIVE: u32 = 64;

/// The least port behind which the ports of a live run come.
pub const FIRST_PORT: u32 = 1;

/// The greatest such port.
pub const LAST_PORT: u32 = 65_000;
