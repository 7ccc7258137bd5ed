ghost use Rattle.std.specs.Prelude.{◌≡◌};

use cs_base::{Addr, Member, Mode, NodeId};
use cs_packet::Own;

/// Who leads, and where.
#[derive(Clone, Copy, Debug)]
pub struct Home {
    pub id: NodeId,
    pub addr: Addr,
}

impl Home {
    /// Who a member is under this leader.
    pub fn own_of(self, me: Member, mode: Mode) -> Own
        ensures { result ≡ record {
          id = me.id;
          addr = me.addr;
          at = me.at;
          mode = mode;
          leader = self.id;
          leader_addr = self.addr;
        } }
    {
        Own {
            id: me.id,
            addr: me.addr,
            at: me.at,
            mode,
            leader: self.id,
            leader_addr: self.addr,
        }
    }
}
