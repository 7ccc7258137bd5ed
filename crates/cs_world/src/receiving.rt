//! Datagrams come to nodes, and are named: as packets that were sent, or as noise.

ghost use Rattle.std.specs.Prelude.{◌≡◌, ◌≤◌, ◌+◌, ◌-◌, ℕ, length, IsSome, IfOk, IfErr, IfSome, MatchOption};
ghost use Rattle.cs_base.specs.Limits.{most_sent};
ghost use Rattle.cs_base.specs.Ranges.{IsFromTo};
ghost use Rattle.cs_link.specs.Received.{most_datagram};
ghost use Rattle.cs_machine.specs.Names.{World as Machine};
ghost use Rattle.cs_script.specs.Event.{IsEvent};

use crate::WorldFault;
use crate::nodes::Nodes;
use crate::seats::Seats;
use cs_base::NodeId;
use cs_link::{Link, LinkFailed};
use cs_log::Log;
use cs_node::Process;
use cs_script::Event;

impl<L: Link, G: Log> Seats<Process<L, G>> {
    ghost use Rattle.cs_world.specs.Receiving.{ReceivesAt};
    ghost use Rattle.cs_world.specs.Seats.{state_at};

    /// The node with this id, which is there, receives the next datagram into the front of the buffer.
    pub fn recv(&mut self, id: NodeId, buf: &mut [u8]) -> Result<Option<usize>, LinkFailed>
        requires there { IsSome (state_at self.old id) }
        requires room { most_datagram ≤ length buf.old }
        ensures { ReceivesAt L.Link G.Log id buf.new result self.old self.new }
    {
        let place = self.place(id).unwrap();
        self.items[place].state.recv(buf)
    }
}

impl<L: Link, G: Log> Nodes<L, G> {
    ghost use Rattle.cs_world.specs.Receiving.{IsReceipt, Receives, event_for, number_for};
    ghost use Rattle.cs_world.specs.Seats.{seats_of, state_at};
    ghost use Rattle.cs_world.specs.Stands.{IsCounted, Stands};

    /// The node with this id, which is there, receives the next datagram into the front of the buffer: it is named.
    pub fn receive(&mut self, id: NodeId, buf: &mut [u8]) -> Result<Option<Event>, WorldFault>
        requires there { IsSome (state_at self.old.seats id) }
        requires room { most_datagram ≤ length buf.old }
        ensures received { Receives L.Link G.Log (λ bytes event. (world : Machine)
            → Stands L.Link G.Log self.old world → event ≡ event_for world id bytes)
            id buf.new result self.old self.new }
        ensures allowed { IfOk result (λ got. IfSome got IsEvent) }
        ensures receipt { IfOk result (λ got. IfSome got IsReceipt) }
        ensures stands { (world : Machine) → Stands L.Link G.Log self.old world
            → IfOk result (λ got. Stands L.Link G.Log self.new world) }
        ensures counted { IfErr result (IsCounted ⊥ (seats_of L.Link G.Log self.new.seats)) }
    {
        let Some(size) = self.seats.recv(id, buf)? else {
            return Ok(None);
        };
        Ok(Some(self.event_for(id, &buf[..size])))
    }

    // The event that bytes are which came to the node.
    fn event_for(&self, id: NodeId, bytes: &[u8]) -> Event
        requires { length bytes.now ≤ most_datagram }
        ensures named { (world : Machine) → Stands L.Link G.Log self.now world
            → result ≡ event_for world id bytes.now }
        ensures allowed { IsEvent result }
        ensures receipt { IsReceipt result }
    {
        match self.number_for(id, bytes) {
            Some(number) => Event::Deliver(number as u32),
            None => Event::Noise(id, bytes.len() as u32),
        }
    }

    // The number of the packet that bytes are which came to the node: of those that were sent to it so, the least that
    // wasn't delivered yet, and the least of all where each was.
    fn number_for(&self, id: NodeId, bytes: &[u8]) -> Option<usize>
        ensures named { (world : Machine) → Stands L.Link G.Log self.now world
            → result ≡ number_for world id bytes.now }
        ensures allowed { IfSome result (IsFromTo 1 most_sent) }
    {
        let addr = self.addresses.address_of(id)?;
        self.traffic.number_for(addr, bytes)
    }
}
