/// What the program does.
#[derive(Clone, Copy, Debug, PartialEq, Eq)]
pub enum Form {
    /// It runs a leader and all other nodes of a schedule.
    Replay,
    /// It runs one node over the bytes that this receives.
    Node,
}
