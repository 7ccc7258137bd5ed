ghost use Rattle.std.specs.Prelude.{◌≡◌, ◌<◌, length, Some, SomeIff};
ghost use Rattle.std.specs.List.{AllByRecursion};
ghost use Rattle.cs_base.specs.Address.{IsAddress};
ghost use Rattle.cs_base.specs.Canonical.{address_text};

use crate::Copied;
use std::alloc::AllocError;
use std::fmt;
use std::marker::Model;

/// An IPv4 address and a port, which isn't 0.
#[derive(Clone, Copy, Debug, PartialEq, Eq, PartialOrd, Ord)]
pub struct Addr {
    ip: [u8; 4],
    port: u16,
}

impl Model for Addr {
    ghost use Rattle.std.specs.Prelude.{◌<◌};
    ghost use Rattle.cs_base.specs.Address.{Address};

    ghost Value = { Address };

    ghost view = { λ a. record { ip = a.ip; port = a.port } };

    ghost invariant = { λ a. 0 < a.port };

    ghost inverse = { λ v. record { ip = v.ip; port = v.port } };
}

// The four bytes of a slice.
fn four(bytes: &[u8]) -> [u8; 4]
    requires { length bytes.now ≡ 4 }
    ensures value { result ≡ bytes.now }
    ensures below { AllByRecursion (λ b. b < 256) bytes.now }
{
    [bytes[0], bytes[1], bytes[2], bytes[3]]
}

impl Addr {
    pub fn new(ip: [u8; 4], port: u16) -> Option<Self>
        ensures { SomeIff result (0 < port) (record { ip = ip; port = port }) }
    {
        if port == 0 {
            None
        } else {
            Some(Addr { ip, port })
        }
    }

    /// The four bytes of the address, in the order in which they are written.
    pub fn ip(self) -> [u8; 4]
        ensures value { result ≡ self.ip }
        ensures four { length result ≡ 4 }
        ensures allowed { IsAddress self }
    {
        four(&self.ip)
    }

    pub fn port(self) -> u16
        ensures value { result ≡ self.port }
        ensures not_zero { 0 < result }
    {
        self.port
    }
}

impl Copied for Addr {
    fn copied(&self) -> Result<Self, AllocError> {
        Ok(*self)
    }
}

impl fmt::Display for Addr {
    ghost output = { λ a. Some (address_text a) };

    fn fmt<W: fmt::Write>(&self, f: &mut fmt::Formatter<W>) -> fmt::Result {
        let [a, b, c, d] = self.ip();
        let port = self.port();
        write!(f, "{a}.{b}.{c}.{d}:{port}")
    }
}
