//! Packets come to their nodes, one by one or in rounds, or are lost.

ghost use Rattle.std.specs.Prelude.{◌≡◌, ◌≤◌, ◌+◌, length, OnOk, IfOk, IfErr};
ghost use Rattle.std.specs.String.{string_bytes};
ghost use Rattle.cs_machine.specs.Delivering.{deliver_at, lost, sent_at};
ghost use Rattle.cs_machine.specs.Names.{World as Machine};
ghost use Rattle.cs_machine.specs.Settling.{round, settled, told_delivery};

use crate::WorldFault;
use crate::lines::{line, put_number_line};
use crate::nodes::Nodes;
use crate::tap::Tapped;
use crate::telling::Telling;
use cs_log::Armed;
use std::fmt::Write;

impl<L: Tapped, G: Armed> Nodes<L, G> {
    ghost use Rattle.cs_world.specs.Receiving.{received_of};
    ghost use Rattle.cs_world.specs.Seats.{ids_of, seats_of};
    ghost use Rattle.cs_world.specs.Settles.{Settles};
    ghost use Rattle.cs_world.specs.Stands.{Answers, IsCounted, IsLimitOf, Stands, Tells};

    /// The packet with this number comes to its node.
    pub fn deliver(&mut self, number: usize) -> Result<String, WorldFault>
        ensures answers { (world : Machine) → Stands L.Link G.Log self.old world
            → Answers L.Link G.Log self.new (deliver_at world number) result }
        ensures counted { IfErr result (IsCounted ⊥ (seats_of L.Link G.Log self.new.seats)) }
        ensures front { OnOk result (self.new.traffic.front ≡ self.old.traffic.front) }
        ensures longer { OnOk result (length self.old.traffic.datagrams.items
            ≤ length self.new.traffic.datagrams.items) }
        ensures ids { ids_of self.new.seats ≡ ids_of self.old.seats }
        ensures received { received_of (seats_of L.Link G.Log self.new.seats)
            ≡ received_of (seats_of L.Link G.Log self.old.seats) }
    {
        let Some(datagram) = self.traffic.get(number) else {
            return line(self.alloc, "no packet");
        };
        let Some(to) = self.addresses.id_at(datagram.addr) else {
            return line(self.alloc, "no node");
        };
        let acted = self.seats.deliver(to, datagram.bytes.as_slice());
        let text = self.tell_acted(Telling::Names, to, acted)?;
        self.traffic.pass_over(number);
        self.traffic.note_delivery(number);
        Ok(text)
    }

    /// The packet with this number is lost.
    pub fn lose(&mut self, number: usize) -> Result<String, WorldFault>
        ensures answers { (world : Machine) → Stands L.Link G.Log self.old world
            → Answers L.Link G.Log self.new (lost world number (sent_at world number)) result }
        ensures memory { IfErr result (λ fault. fault ≡ WorldFault.Memory) }
        ensures ids { ids_of self.new.seats ≡ ids_of self.old.seats }
        ensures received { received_of (seats_of L.Link G.Log self.new.seats)
            ≡ received_of (seats_of L.Link G.Log self.old.seats) }
    {
        if self.traffic.get(number).is_none() {
            return line(self.alloc, "no packet");
        }
        self.traffic.pass_over(number);
        line(self.alloc, "lost")
    }

    /// Delivers what was sent and is still open, in so many rounds at most.
    pub fn settle(&mut self, most: u32) -> Result<String, WorldFault>
        ensures answers { (world : Machine) → Stands L.Link G.Log self.old world
            → Answers L.Link G.Log self.new (settled world most) result }
        ensures counted { IfErr result (IsCounted ⊥ (seats_of L.Link G.Log self.new.seats)) }
        ensures ids { ids_of self.new.seats ≡ ids_of self.old.seats }
        ensures received { received_of (seats_of L.Link G.Log self.new.seats)
            ≡ received_of (seats_of L.Link G.Log self.old.seats) }
    {
        let mut text = String::new(self.alloc);
        let mut rounds = 0;
        let mut count = 0;
        while rounds < most && self.traffic.front < self.traffic.len() {
            count += self.settle_round(&mut text)?;
            rounds += 1;
        }
        writeln!(text, "settled {count}")?;
        Ok(text)
    }

    // Delivers what is open now, and says how many packets it was.
    fn settle_round(&mut self, out: &mut String) -> Result<usize, WorldFault>
        ensures told { (world : Machine) → Stands L.Link G.Log self.old world → IfOk result
            (λ count. Settles L.Link G.Log self.new (string_bytes out.old) (string_bytes out.new) count
            (round world)) }
        ensures fault { (world : Machine) → Stands L.Link G.Log self.old world
            → IfErr result (IsLimitOf (round world).world) }
        ensures counted { IfErr result (IsCounted ⊥ (seats_of L.Link G.Log self.new.seats)) }
        ensures few { IfOk result (λ count. count + self.old.traffic.front ≤ self.new.traffic.front) }
        ensures ids { ids_of self.new.seats ≡ ids_of self.old.seats }
        ensures received { received_of (seats_of L.Link G.Log self.new.seats)
            ≡ received_of (seats_of L.Link G.Log self.old.seats) }
    {
        let end = self.traffic.len();
        let mut count = 0;
        for place in self.traffic.front..end {
            if self.traffic.is_open(place) {
                self.settle_one(place + 1, out)?;
                count += 1;
            }
        }
        self.traffic.front = end;
        Ok(count)
    }

    fn settle_one(&mut self, number: usize, out: &mut String) -> Result<(), WorldFault>
        ensures told { (world : Machine) → Stands L.Link G.Log self.old world → OnOk result
            (Tells L.Link G.Log self.new (string_bytes out.old) (string_bytes out.new)
            (told_delivery world number)) }
        ensures fault { (world : Machine) → Stands L.Link G.Log self.old world
            → IfErr result (IsLimitOf (told_delivery world number).world) }
        ensures counted { IfErr result (IsCounted ⊥ (seats_of L.Link G.Log self.new.seats)) }
        ensures front { OnOk result (self.new.traffic.front ≡ self.old.traffic.front) }
        ensures longer { OnOk result (length self.old.traffic.datagrams.items
            ≤ length self.new.traffic.datagrams.items) }
        ensures ids { ids_of self.new.seats ≡ ids_of self.old.seats }
        ensures received { received_of (seats_of L.Link G.Log self.new.seats)
            ≡ received_of (seats_of L.Link G.Log self.old.seats) }
    {
        put_number_line(out, "- deliver ", number as u64)?;
        let text = self.deliver(number)?;
        out.push_str(&text)?;
        Ok(())
    }
}
