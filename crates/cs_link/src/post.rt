use bytes::Bytes;
use cs_base::Addr;

/// Where a datagram was sent, and its bytes.
#[derive(Debug, Drop)]
pub struct Post {
    pub to: Addr,
    pub bytes: Stored,
}

/// The bytes of a datagram: they are shared, or stand in the room of its outbox, from one place to another.
#[derive(Debug, Drop)]
pub enum Stored {
    Shared(Bytes),
    InRoom { start: usize, end: usize },
}
