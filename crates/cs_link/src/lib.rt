//! Links, through which nodes send and receive datagrams, and grounds, which grant a link and a log to each node.
//!
//! A `Link` tells what was sent and what waits, where it can, and counts its failures, what was received and how often
//! nothing was waiting. `CleanLink` and `MemLink` are links in memory: the one never fails, the other fails at the
//! calls that it is told to. `UdpLink` is a UDP socket as a link. A `Ground` hands out links and logs and keeps by id
//! what comes back: `CleanGround` and `MemDesk` have those in memory. `UdpGround` hands out links over sockets, and
//! lets go what comes back.
//!
//! ```text
//! let mut desk = MemDesk::new(alloc);
//! let (mut link, log) = desk.grant(id, addr)?;
//! link.ready(1, 4)?;
//! link.send(to, b"seed")?;
//! let got = link.recv(&mut buf)?;
//! desk.keep(id, link, log);
//! ```
#![tactic(auto)]

mod clean_ground;
mod clean_link;
mod failing;
mod fault;
mod grounds;
mod inbox;
mod kept;
mod link;
mod mem_desk;
mod mem_link;
mod outbox;
mod post;
mod shelf;
#[cfg(test)]
mod tests;
mod udp_ground;
mod udp_link;

pub use clean_ground::CleanGround;
pub use clean_link::CleanLink;
pub use fault::GroundFault;
pub use grounds::Ground;
pub use link::{Link, LinkFailed, MOST_DATAGRAM};
pub use mem_desk::MemDesk;
pub use mem_link::MemLink;
pub use udp_ground::UdpGround;
pub use udp_link::UdpLink;
