//! The fields of packets and log entries as bytes, both ways.
//!
//! For each field there are two calls. `take_id` reads an id from a place on, and gives it with the place behind
//! it, or the first fault; `put_id` appends the bytes of an id. A value has one spelling and a spelling has one
//! value: what is taken is spelled so, and what is spelled so is taken, whatever follows. Numbers have their
//! highest byte first.
//!
//! The layers above put longer fields together from these, by the readers of `specs/` and their laws: `Reading`
//! has the step from one field to the next, and `Counted` a count and so many elements, each of which goes by
//! those before.
//!
//! ```text
//! let (id, behind) = take_id(bytes, 0)?;
//! let (addr, behind) = take_address(bytes, behind)?;
//! put_id(&mut out, &id)?;
//! ```
#![tactic(auto)]

mod address;
mod change;
mod cut;
mod fault;
mod ids;
mod member;
mod number;
#[cfg(test)]
mod tests;
mod undo;

pub use address::{put_address, put_axis, put_point, take_address, take_axis_from, take_point};
pub use change::{put_change, put_changes, take_change, take_changes, take_some_changes};
pub use cut::{put_cut, put_mode, take_cut, take_mode};
pub use fault::PacketFault;
pub use ids::{put_ids, put_many_ids, put_region_list, take_ids, take_many_ids, take_region_list};
pub use member::{
    put_epoch, put_id, put_member, put_region, take_epoch, take_id, take_id_from, take_later_epoch,
    take_member, take_member_from, take_region, take_region_from,
};
pub use number::{
    put_u8, put_u16, put_u32, put_u64, take_raw, take_u8, take_u8_in, take_u16, take_u16_in,
    take_u32, take_u32_in, take_u64,
};
pub use undo::undone;
