//! A link over a UDP socket, which tells its counts alone.

ghost use Rattle.std.specs.Prelude.{◌≡◌, ◌-◌, ◌^◌, ◌≤◌, ◌↔◌, None, IfOk, IsOk, OnOk, OnErr};
ghost use Rattle.std.specs.Net.Addr.{ipv4_octets};
ghost use Rattle.std.specs.Net.Socket.{v4_ip, v4_port};
ghost use Rattle.cs_log.specs.Faults.{HasRisen};

use crate::{Link, LinkFailed, MOST_DATAGRAM};
use cs_base::Addr;
use std::alloc::AllocError;
use std::io;
use std::io::ErrorKind;
use std::net::{Ipv4Addr, Net, SocketAddrV4, UdpSocket};

/// A UDP socket of the system as a link. It tells neither what was sent nor what waits, since no contract can say
/// what a network does with datagrams.
///
/// No call waits: where nothing has come `recv` gives nothing, and where the system has no room a `send` fails. Over
/// IPv4 a datagram has at most 65,507 bytes: its 16-bit length has the 8 bytes of the header too (RFC 768), and that
/// of its packet, of 20 bytes and more, likewise (RFC 791). A longer one isn't sent.
#[derive(Debug, Drop)]
pub struct UdpLink {
    socket: UdpSocket,
    faults: u64,
    taken: u64,
    dry: u64,
}

// The address in the form of std.
fn socket_addr(addr: Addr) -> SocketAddrV4
    ensures ip { ipv4_octets (v4_ip result) ≡ addr.ip }
    ensures port { v4_port result ≡ addr.port }
{
    SocketAddrV4::new(Ipv4Addr::from_octets(addr.ip()), addr.port())
}

impl UdpLink {
    /// A link that is bound to this address of the system. It fails where the address is in use, or isn't the
    /// system's own.
    pub fn bind<R: Net>(net: &R, addr: Addr) -> io::Result<UdpLink>
        ensures sent { IfOk result (λ link. ⟦<UdpLink as Link>⟧.sent link ≡ None) }
        ensures waiting { IfOk result (λ link. ⟦<UdpLink as Link>⟧.waiting link ≡ None) }
        ensures faults { IfOk result (λ link. ⟦<UdpLink as Link>⟧.faults link ≡ 0) }
        ensures taken { IfOk result (λ link. ⟦<UdpLink as Link>⟧.taken link ≡ 0) }
        ensures dry { IfOk result (λ link. ⟦<UdpLink as Link>⟧.dry link ≡ 0) }
    {
        let socket = UdpSocket::bind(net, socket_addr(addr))?;
        socket.set_nonblocking(true)?;
        Ok(UdpLink {
            socket,
            faults: 0,
            taken: 0,
            dry: 0,
        })
    }

    /// How often a call failed.
    pub fn faults(&self) -> u64
        ensures { result ≡ ⟦<UdpLink as Link>⟧.faults self.now }
    {
        self.faults
    }

    /// How many datagrams were received.
    pub fn taken(&self) -> u64
        ensures { result ≡ ⟦<UdpLink as Link>⟧.taken self.now }
    {
        self.taken
    }

    /// How often nothing was waiting.
    pub fn dry(&self) -> u64
        ensures { result ≡ ⟦<UdpLink as Link>⟧.dry self.now }
    {
        self.dry
    }
}

impl Link for UdpLink {
    ghost use Rattle.cs_link.specs.Counts.{last_count};

    ghost sent = { λ link. None };

    ghost waiting = { λ link. None };

    ghost spare = { λ link. record { pieces = last_count; bytes = last_count } };

    ghost faults = { λ link. link.faults };

    ghost taken = { λ link. link.taken };

    ghost dry = { λ link. link.dry };

    fn ready(&mut self, _pieces: u32, _bytes: u64) -> Result<(), AllocError> {
        Ok(())
    }

    fn send(&mut self, to: Addr, bytes: &[u8]) -> Result<(), LinkFailed> {
        match self.socket.send_to(bytes, socket_addr(to)) {
            Ok(size) if size == bytes.len() => Ok(()),
            Ok(_) | Err(_) => {
                self.faults = self.faults.saturating_add(1);
                Err(LinkFailed)
            }
        }
    }

    fn recv(&mut self, buf: &mut [u8]) -> Result<Option<usize>, LinkFailed> {
        match self.socket.recv(&mut buf[..MOST_DATAGRAM]) {
            Ok(size) => {
                self.taken = self.taken.saturating_add(1);
                Ok(Some(size))
            }
            Err(e) if e.kind() == ErrorKind::WouldBlock => {
                self.dry = self.dry.saturating_add(1);
                Ok(None)
            }
            Err(_) => {
                self.faults = self.faults.saturating_add(1);
                Err(LinkFailed)
            }
        }
    }
}
