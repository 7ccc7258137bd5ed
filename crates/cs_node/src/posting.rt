//! Packets go out as datagrams.

ghost use Rattle.std.specs.Prelude.{◌≡◌, ◌^◌, ◌<◌, length, IfOk, IfErr, OnOk};
ghost use Rattle.cs_link.specs.Room.{HasRoom};
ghost use Rattle.cs_packet.specs.PacketField.{AreSends};
ghost use Rattle.cs_node.specs.Posting.{AreSent, bytes_in, datagrams_of, SendsFront};
ghost use Rattle.cs_node.specs.Told.{link_told};

use cs_base::Addr;
use cs_link::Link;
use cs_packet::{Sends, encode};
use cs_piece::Piece;
use std::alloc::{AllocError, Global};

/// The datagrams of packets, in order.
pub(crate) fn datagrams(alloc: Global, sends: &Sends) -> Result<Vec<(Addr, Piece)>, AllocError>
    requires { AreSends sends.now }
    ensures { IfOk result (λ list. list.items ≡ datagrams_of sends.now) }
{
    let mut list = Vec::with_capacity(alloc, sends.len())?;
    for (addr, packet) in sends.as_slice() {
        list.push((*addr, encode(alloc, packet)?))?;
    }
    Ok(list)
}

// How many bytes datagrams have together, where a u64 counts them.
fn bytes_in(datagrams: &[(Addr, Piece)]) -> Result<u64, AllocError>
    ensures { IfOk result (λ size. size ≡ bytes_in datagrams.now) }
{
    let mut size = 0u64;
    for (_, bytes) in datagrams {
        size = size.checked_add(bytes.len() as u64).ok_or(AllocError)?;
    }
    Ok(size)
}

/// Makes room on a link for datagrams. Nothing else of it changes. More of them than a u32 counts find no memory.
pub(crate) fn ready_link<L: Link>(
    link: &mut L,
    datagrams: &[(Addr, Piece)],
) -> Result<(), AllocError>
    ensures room { OnOk result (HasRoom (length datagrams.now) (bytes_in datagrams.now) (L.spare link.new)) }
    ensures counted { OnOk result (length datagrams.now < 2 ^ 32) }
    ensures same { link_told L.Link link.new ≡ link_told L.Link link.old }
{
    let count = u32::try_from(datagrams.len()).map_err(|_| AllocError)?;
    link.ready(count, bytes_in(datagrams)?)
}

/// Sends datagrams in order. Where the link fails, the error says how many were sent.
pub(crate) fn send_all<L: Link>(link: &mut L, datagrams: &[(Addr, Piece)]) -> Result<(), u32>
    requires room { HasRoom (length datagrams.now) (bytes_in datagrams.now) (L.spare link.old) }
    requires counted { length datagrams.now < 2 ^ 32 }
    ensures ok { OnOk result (AreSent datagrams.now (link_told L.Link link.old) (link_told L.Link link.new)) }
    ensures err { IfErr result (λ n.
        SendsFront n datagrams.now (link_told L.Link link.old) (link_told L.Link link.new)) }
{
    let mut sent = 0;
    for (addr, bytes) in datagrams {
        if link.send(*addr, bytes.as_slice()).is_err() {
            return Err(sent);
        }
        sent += 1;
    }
    Ok(())
}
