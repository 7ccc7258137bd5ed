use cs_base::NodeId;

/// A node that was started, in whatever state it is.
pub struct Seat<S> {
    pub id: NodeId,
    pub state: S,
}
