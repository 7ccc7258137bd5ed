ghost use Rattle.std.specs.Prelude.{◌≡◌, ◌&&◌, not};
ghost use Rattle.cs_world.specs.Sending.{is_for};

use bytes::Bytes;
use cs_base::Addr;

/// The bytes of a packet, which the tap of its sender has too, the address that they were sent to, whether settling
/// still delivers them, and whether they were delivered.
#[derive(Debug, Drop)]
pub struct Datagram {
    pub addr: Addr,
    pub bytes: Bytes,
    pub is_open: bool,
    pub is_delivered: bool,
}

impl Datagram {
    /// Whether it was sent to this address, and has these bytes.
    pub fn is_for(&self, addr: Addr, bytes: &[u8]) -> bool
        ensures { result ≡ is_for addr bytes.now self.now }
    {
        self.addr == addr && self.bytes.as_slice() == bytes
    }

    /// Whether it was sent to this address, has these bytes, and wasn't delivered.
    pub fn is_fresh_for(&self, addr: Addr, bytes: &[u8]) -> bool
        ensures { result ≡ (is_for addr bytes.now self.now && not self.now.is_delivered) }
    {
        self.is_for(addr, bytes) && !self.is_delivered
    }
}
