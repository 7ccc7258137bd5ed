use crate::{Note, State};
use cs_link::Link;
use cs_log::Log;

/// What became of a node by a call, and what it answers.
#[derive(Drop)]
pub struct After<L: Link, G: Log> {
    pub node: State<L, G>,
    pub note: Note,
}
