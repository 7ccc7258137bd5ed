ghost use Rattle.cs_base.specs.Ranges.{IsMember};

use crate::{Addr, Axis, Copied, Keyed, NodeId, Point};
use std::alloc::AllocError;

/// A member of the group: who it is, where it is reached, and where it stands.
#[derive(Clone, Copy, Debug, PartialEq, Eq)]
pub struct Member {
    pub id: NodeId,
    pub addr: Addr,
    pub at: Point,
}

impl Copied for Member {
    fn copied(&self) -> Result<Self, AllocError> {
        Ok(*self)
    }
}

/// The key of a member is its id.
impl Keyed for Member {
    ghost key_of = { λ m. m.id };

    ghost IsAllowed = { IsMember };

    fn key(&self) -> u32 {
        // An address and a point tell their ranges where they are read.
        let _ip = self.addr.ip();
        let _x = self.at.axis(Axis::X);
        self.id.get()
    }
}
