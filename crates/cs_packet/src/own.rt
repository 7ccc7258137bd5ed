ghost use Rattle.std.specs.Prelude.{◌≡◌};
ghost use Rattle.cs_base.specs.Ranges.{IsMember};
ghost use Rattle.cs_packet.specs.Own.{member_of_own};

use cs_base::{Addr, Keyed, Member, Mode, NodeId, Point};

/// Who a node is, how much it wants to know, and who leads its group.
#[derive(Clone, Copy, Debug, PartialEq, Eq)]
pub struct Own {
    pub id: NodeId,
    pub addr: Addr,
    pub at: Point,
    pub mode: Mode,
    pub leader: NodeId,
    pub leader_addr: Addr,
}

impl Own {
    /// The node as a member of the group.
    pub fn member(&self) -> Member
        ensures value { result ≡ member_of_own self.now }
        // It can stand in a packet.
        ensures allowed { IsMember result }
    {
        let member = Member {
            id: self.id,
            addr: self.addr,
            at: self.at,
        };
        // Its key says what the types keep.
        let _key = member.key();
        member
    }
}
