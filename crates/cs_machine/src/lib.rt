//! The membership machine: the definition that a schedule's transcript is held to.
//!
//! The machine has nodes and packets. What a node holds, what it logs and what it sends are names: epochs, regions,
//! colours, changes (`specs/Names`, `specs/Entries`). What a name stands for, as the group of an epoch, a view, a
//! slice or the bytes of a packet, is computed from the items, the changes that the leader's log accepts
//! (`specs/Contents`, `specs/Packets`). `specs/Machine` is one step of one node, with a file for each kind of packet
//! and call, `specs/Outcome` is how it becomes part of the world, `specs/Happens` is what an event does to the world
//! and which lines tell it, with `specs/Delivering` and `specs/Settling` for packets on their way, and
//! `specs/Reached` is what every world keeps that is reached from the empty one. `specs/Values` is the node that a
//! state stands for, and the entry that the name of an entry stands for, and `specs/Squares` says when what such a
//! node decides is the machine's step.
//!
//! The crate does nothing when it runs: its functions are laws, and who calls one has its clauses.
#![tactic(auto)]

mod laws;

pub use laws::{
    contents_stay, decisions_are_steps, logged_entries_fit, reached_worlds, sent_packets_fit,
    who_left_is_told_so, whole_slices_move_members_on,
};
