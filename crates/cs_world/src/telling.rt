/// How a packet that was sent is told.
#[derive(Clone, Copy, Debug, PartialEq, Eq)]
pub enum Telling {
    /// From whom, to whom, and what it says: in a world, which knows all nodes.
    Names,
    /// Where it goes, and its bytes: of a node alone.
    Bytes,
}
