//! The values of the membership service: ids, epochs, addresses, points, members and changes, the lists of
//! them, and the one text of a number and of an address.
//!
//! A value here is always in its range: a `NodeId` isn't 0, an axis of a `Point` is at most 1,000,000
//! microseconds away from 0, an `Ids` is ascending. Other crates read the values by `get`, `axis`,
//! `as_slice` and the like, and learn their ranges from these calls.
//!
//! A list of values is `Items`, and one that ascends by a key is `Ordered`, which keeps what `Keyed` allows of its
//! elements; both are generic, so that a further list is a few lines. What has a point is summed and bounded by
//! `total_on`, `lowest_on` and `highest_on`. Each limit of the service stands once, in `limits` and in
//! `specs/Limits`.
//!
//! ```text
//! let id = NodeId::new(7)?;
//! let addr = read_addr(b"127.0.0.1:9007")?;
//! let at = Point::new(10, 0, 0)?;
//! let change = Change::Join(Member { id, addr, at });
//! ```
#![tactic(auto)]

mod address;
mod canonical;
mod change;
mod changes;
mod epoch;
mod ids;
mod items;
mod limits;
mod member;
mod node_id;
mod ordered;
mod point;
mod points;
mod region_id;
mod split;
mod sum;
#[cfg(test)]
mod tests;

pub use address::Addr;
pub use canonical::{read_addr, read_i32, read_u32};
pub use change::{Change, Mode};
pub use changes::Changes;
pub use epoch::Epoch;
pub use ids::Ids;
pub use items::{Copied, Items};
pub use limits::{
    COLOURS, CUT_ABOVE, FARTHEST, LAST_ID, LAST_NUMBER, LEAVES_EACH, MERGE_BELOW, MOST_CHANGES,
    MOST_CHILDREN, MOST_GLOBALS, MOST_MEMBERS, MOST_OUTPUT, MOST_PENDING, MOST_PICTURE_BYTES,
    MOST_PIECE_TOTAL, MOST_REGION_CHILDREN, MOST_REGIONS, MOST_SENT, MOST_SLICE_BYTES, MOST_SUMMED,
    MOST_TEXT, MOST_TOGETHER,
};
pub use member::Member;
pub use node_id::NodeId;
pub use ordered::{Keyed, Ordered};
pub use point::{Axis, Point};
pub use points::{HasPoint, highest_on, lowest_on, total_on};
pub use region_id::RegionId;
pub use split::{Cut, Split};
pub use sum::Sum;
