ghost use Rattle.std.specs.Prelude.{◌≡◌, ◌≢◌, ℕ, ◌≤◌, List, length, Option, Ok, Err, None, IfOk, OnOk, OnErr, IfSome};
ghost use Rattle.cs_log.specs.Faults.{HasRisen};
ghost use Rattle.cs_link.specs.Received.{AreSmall, IsNext, IsNothing, dry_after, left_waiting, most_datagram};
ghost use Rattle.cs_link.specs.Received.{taken_after};
ghost use Rattle.cs_link.specs.Room.{FallsAtMost, HasRoom, Room};
ghost use Rattle.cs_link.specs.Sent.{Datagram, posted};

use cs_base::Addr;
use std::alloc::AllocError;

/// Bytes that a datagram has at most.
pub const MOST_DATAGRAM: usize = 65_535;

/// A datagram couldn't be sent or received.
#[derive(Clone, Copy, Debug, PartialEq, Eq)]
pub struct LinkFailed;

/// What a node sends datagrams through, and receives them from. A datagram is at most 65,535 bytes.
pub trait Link {
    /// The datagrams that were sent, in order, where the link tells.
    ghost sent: { Self → Option (List Datagram) };

    /// The bytes of the datagrams that wait, the next one first, where the link tells.
    ghost waiting: { Self → Option (List (List ℕ)) };

    /// The room for datagrams to send.
    ghost spare: { Self → Room };

    /// How often a call failed.
    ghost faults: { Self → ℕ };

    /// How many datagrams were received.
    ghost taken: { Self → ℕ };

    /// How often nothing was waiting.
    ghost dry: { Self → ℕ };

    /// Makes room for so many datagrams, and for so many bytes of them together.
    fn ready(&mut self, pieces: u32, bytes: u64) -> Result<(), AllocError>
        ensures room { OnOk result (HasRoom pieces bytes (spare self.new)) }
        ensures spare { FallsAtMost 0 0 (spare self.old) (spare self.new) }
        ensures sent { sent self.new ≡ sent self.old }
        ensures waiting { waiting self.new ≡ waiting self.old }
        ensures faults { faults self.new ≡ faults self.old }
        ensures taken { taken self.new ≡ taken self.old }
        ensures dry { dry self.new ≡ dry self.old };

    /// Sends a datagram, for which there is room.
    fn send(&mut self, to: Addr, bytes: &[u8]) -> Result<(), LinkFailed>
        requires { HasRoom 1 (length bytes.now) (spare self.old) }
        ensures ok { OnOk result (sent self.new ≡ posted (to, bytes.now) (sent self.old)) }
        ensures err { OnErr result (sent self.new ≡ sent self.old) }
        ensures spare { FallsAtMost 1 (length bytes.now) (spare self.old) (spare self.new) }
        ensures waiting { waiting self.new ≡ waiting self.old }
        ensures counts { faults self.old ≤ faults self.new }
        ensures quiet { OnOk result (faults self.new ≡ faults self.old) }
        ensures failed { OnErr result (HasRisen (faults self.old) (faults self.new)) }
        ensures taken { taken self.new ≡ taken self.old }
        ensures dry { dry self.new ≡ dry self.old };

    /// Receives the next datagram into the front of the buffer, and gives its size; nothing where none is waiting.
    fn recv(&mut self, buf: &mut [u8]) -> Result<Option<usize>, LinkFailed>
        requires { most_datagram ≤ length buf.old }
        ensures size { IfOk result (λ got. IfSome got (λ n. n ≤ most_datagram)) }
        ensures next { IfOk result (λ got. IfSome got (λ n. IsNext n buf.new (waiting self.old))) }
        ensures none { result ≡ Ok None → IsNothing (waiting self.old) }
        ensures waiting { waiting self.new ≡ left_waiting result (waiting self.old) }
        ensures small { AreSmall (waiting self.old) }
        ensures sent { sent self.new ≡ sent self.old }
        ensures spare { FallsAtMost 0 0 (spare self.old) (spare self.new) }
        ensures counts { faults self.old ≤ faults self.new }
        ensures quiet { OnOk result (faults self.new ≡ faults self.old) }
        ensures failed { OnErr result (HasRisen (faults self.old) (faults self.new)) }
        ensures taken { taken self.new ≡ taken_after result (taken self.old) }
        ensures dry { dry self.new ≡ dry_after result (dry self.old) };
}
