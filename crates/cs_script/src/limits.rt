/// Rounds of one `settle`.
pub const MOST_ROUNDS: u32 = 1000;

/// Bytes of a packet that a line shows.
pub const MOST_SHOWN: usize = 65_535;

/// Bytes of a datagram that is noise.
pub const MOST_NOISE: u32 = 65_535;
