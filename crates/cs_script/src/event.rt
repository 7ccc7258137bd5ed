use crate::Line;
use cs_base::{Addr, Mode, NodeId, Point, RegionId};

/// What a line of a schedule says.
#[derive(Debug, PartialEq, Eq, Drop)]
pub enum Event {
    /// `lead ID ADDR X Y Z`: the leader starts.
    Lead(NodeId, Addr, Point),
    /// `boot ID ADDR X Y Z MODE`: another node starts.
    Boot(NodeId, Addr, Point, Mode),
    /// `home ID ADDR`: who the leader is, and where.
    Home(NodeId, Addr),
    /// `join ID`: the node asks the leader to let it in.
    Join(NodeId),
    /// `leave ID`: the member wants to leave.
    Leave(NodeId),
    /// `flush ID`: the member hands its pending changes on to the leader.
    Flush(NodeId),
    /// `move ID X Y Z`: the member's point is another one from now on.
    Move(NodeId, Point),
    /// `close`: the leader closes the epoch.
    Close,
    /// `ask ID TO`: the node asks another for a snapshot.
    Ask(NodeId, NodeId),
    /// `need ID TO REGION`: the member asks another for the slice of a region.
    Need(NodeId, NodeId, RegionId),
    /// `deliver K`: the packet with this number comes to its node.
    Deliver(u32),
    /// `lose K`: the packet with this number isn't delivered by settling.
    Lose(u32),
    /// `settle R`: what was sent is delivered, in at most so many rounds.
    Settle(u32),
    /// `packet ID HEX`: these bytes come to the node.
    Packet(NodeId, Line),
    /// `noise ID N`: so many bytes came to the node, and it doesn't get them.
    Noise(NodeId, u32),
    /// `crash ID`: the node stops, and its log stays.
    Crash(NodeId),
    /// `restart ID`: the node starts again from its log.
    Restart(NodeId),
    /// `tear ID B`: the node's log fails once it has got so many bytes more.
    Tear(NodeId, u32),
    /// `print ID`: the node prints its view.
    Print(NodeId),
}
