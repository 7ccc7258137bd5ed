use cs_base::NodeId;

/// A link and a log that were handed back, and of which node.
#[derive(Debug, Drop)]
pub(crate) struct Kept<L, G> {
    pub id: NodeId,
    pub link: L,
    pub log: G,
}
