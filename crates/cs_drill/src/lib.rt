//! Schedules, each out of two numbers: that of a drill, and the plan of a live run.
//!
//! In the schedule of `generate`, out of a number of nodes and a seed, all nodes start and join; then they move,
//! leave, crash and come back in eight rounds, and at the end each asks the leader and prints. Who does so and where
//! the nodes are is drawn by the generator of `specs/Draws`. `specs/Schedule` has the events in order, as the draws
//! with which numbers each of them is made of.
//!
//! In the plan of `live_plan`, out of a number of nodes and a port, all nodes start and join, two epochs are closed,
//! and all print. Between them it has polls, at which the nodes receive what came to them. `specs/Plan` has it in
//! order.
//!
//! ```text
//! let events = generate(alloc, 300, 7)?;      // the same events for the same two numbers
//! for event in events.as_slice() { world.step(desk, event, &mut text)?; }
//! ```
#![tactic(auto)]

mod draws;
mod events;
mod fault;
mod generating;
mod limits;
mod parts;
mod plan;
mod planning;
#[cfg(test)]
mod tests;

pub use events::Events;
pub use fault::DrillFault;
pub use generating::generate;
pub use limits::{FEWEST_NODES, FIRST_PORT, LAST_PORT, MOST_LIVE, MOST_NODES};
pub use plan::{Plan, Planned};
pub use planning::live_plan;
