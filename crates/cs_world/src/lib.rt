//! The nodes of a schedule, each with a link and a log, and what they sent.
//!
//! A `World` starts nodes by `boot` and `boot_leader` of cs_node, each with a link and a log that a desk grants.
//! `step` takes one event and appends the lines that tell what it led to. Its contract ties it to the machine of
//! cs_machine: as long as the world stands for a world of the machine, by `specs/Stands`, it tells what the machine
//! tells, and stands for the machine's next world. `finish` hands every link and log back. A `WorldFault` says why an
//! event has no place in a run; after one a world can only be finished.
//!
//! A world can receive too. `receive` takes a datagram that came to the link of a node, and names it: as a packet that
//! was sent, or as noise. To deliver it is an event of its own, which happens by `step`. For a run in which no node
//! receives there is `World::replaying`, a world that keeps no index of its packets.
//!
//! A `Single` is one node alone, over a link and a log of a desk. The line `home` says who leads, and the bytes that
//! come to it stand in lines `packet`. It has the same three calls. What it tells is defined over values alone, by
//! `specs/AloneEvents`, and its contract ties it to that by `specs/AloneStands`.
//!
//! ```text
//! let mut world = World::new(alloc);
//! world.step(&mut desk, &Event::Lead(id, addr, at), &mut out)?;      // "up 1\n"
//! world.finish(&mut desk);
//! ```
#![tactic(auto)]

mod acting;
mod action;
mod action_of;
mod addresses;
mod call;
mod datagram;
mod fault;
mod finding;
mod handing;
mod home;
mod index;
mod launch;
mod lines;
mod nodes;
mod piece_names;
#[cfg(test)]
mod piece_names_tests;
mod posting;
mod receiving;
#[cfg(test)]
mod receiving_tests;
mod seat;
mod seating;
mod seats;
mod settling;
mod single;
mod tap;
mod telling;
#[cfg(test)]
mod tests;
mod traffic;
mod world;

pub use fault::WorldFault;
pub use single::Single;
pub use tap::{Tap, Tapped};
pub use world::World;
