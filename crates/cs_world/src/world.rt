//! The nodes of a schedule over the links and logs of a desk.

ghost use Rattle.std.specs.Prelude.{◌≡◌, ◌≤◌, ℕ, [], length, Some, None};
ghost use Rattle.std.specs.Prelude.{IfOk, IfErr, OnOk, OnErr, IfSome, IsSome, IsSomeAnd, is_some};
ghost use Rattle.std.specs.Option.{option_copied, option_map};
ghost use Rattle.cs_base.specs.Ranges.{IsMember};
ghost use Rattle.cs_link.specs.Counts.{RisesWith, counted};
ghost use Rattle.cs_link.specs.Received.{most_datagram};
ghost use Rattle.cs_log.specs.Faults.{HasRisen};
ghost use Rattle.cs_script.specs.Event.{IsEvent};
ghost use Rattle.cs_script.specs.declared.event.Event.TheVariants as events;
ghost use Rattle.cs_show.specs.Block.{digest_of};
ghost use Rattle.cs_machine.specs.Happens.{happens};
ghost use Rattle.cs_machine.specs.Names.{World as Machine, empty_world, node_of};
ghost use Rattle.cs_machine.specs.Packets.{bytes_sent};
ghost use Rattle.cs_world.specs.Desk.{OnlyGrants, desk_told};
ghost use Rattle.cs_world.specs.Kept.{AreLogsOf, AreTrafficOf};
ghost use Rattle.cs_world.specs.Receiving.{IsReceipt, Receives, dry_of, event_for, received_of, taken_of};
ghost use Rattle.cs_world.specs.Seats.{AreOut, parts_at, link_faults_of, log_faults_of, seats_of, state_at};
ghost use Rattle.cs_world.specs.Shown.{shown_at};
ghost use Rattle.cs_world.specs.Stands.{Answers, AnswersBytes, CanTell, IsCounted, IsLimitOf, Stands, Tells};
ghost use Rattle.cs_world.specs.Events.{action_for};

use crate::WorldFault;
use crate::action_of::action_of;
use crate::handing::hand_back;
use crate::launch::start;
use crate::lines::line;
use crate::nodes::Nodes;
use crate::tap::Tap;
use crate::telling::Telling;
use cs_base::{Addr, Epoch, Mode, NodeId, Point};
use cs_link::{Ground, Link};
use cs_log::{Arming, Log};
use cs_packet::Own;
use cs_script::Event;
use cs_show::digest_by;
use cs_view::View;
use std::alloc::{AllocError, Global};

/// The nodes that a schedule started, each with a link and a log of a desk, and every packet that they sent.
// Linear: `finish` alone ends it, and hands every link and log back.
pub struct World<D: Ground> {
    nodes: Nodes<Tap<D::Wire>, Arming<D::Store>>,
}

impl<D: Ground> World<D> {
    /// A world without nodes.
    pub fn new(alloc: Global) -> Self
        ensures stands { Stands ⟦<Tap<D::Wire> as Link>⟧ ⟦<Arming<D::Store> as Log>⟧ result.nodes empty_world }
        ensures items { result.nodes.seats.items.items ≡ [] }
    {
        World {
            nodes: Nodes::receiving(alloc),
        }
    }

    /// A world without nodes, for a run in which no node receives: it keeps no index of its packets, so `receive` goes
    /// through all of them.
    pub fn replaying(alloc: Global) -> Self
        ensures stands { Stands ⟦<Tap<D::Wire> as Link>⟧ ⟦<Arming<D::Store> as Log>⟧ result.nodes empty_world }
        ensures items { result.nodes.seats.items.items ≡ [] }
    {
        World {
            nodes: Nodes::new(alloc),
        }
    }

    /// Appends the lines of an event. After an error the bytes are as before, and the world can only be finished.
    pub fn step(&mut self, desk: &mut D, event: &Event, out: &mut Vec<u8>) -> Result<(), WorldFault>
        requires ranges { IsEvent event.now }
        requires out { AreOut (D.out desk.old) self.old.nodes.seats }
        ensures ok { (world : Machine)
            → Stands ⟦<Tap<D::Wire> as Link>⟧ ⟦<Arming<D::Store> as Log>⟧ self.old.nodes world
            → CanTell event.now (parts_at ⟦<Tap<D::Wire> as Link>⟧ ⟦<Arming<D::Store> as Log>⟧ self.old.nodes.seats)
            → OnOk result (Tells ⟦<Tap<D::Wire> as Link>⟧ ⟦<Arming<D::Store> as Log>⟧ self.new.nodes
            out.old.items out.new.items (happens world event.now)) }
        ensures limit { (world : Machine)
            → Stands ⟦<Tap<D::Wire> as Link>⟧ ⟦<Arming<D::Store> as Log>⟧ self.old.nodes world
            → CanTell event.now (parts_at ⟦<Tap<D::Wire> as Link>⟧ ⟦<Arming<D::Store> as Log>⟧ self.old.nodes.seats)
            → IfErr result (IsLimitOf (happens world event.now).world) }
        ensures counted { IfErr result (IsCounted (HasRisen (D.faults desk.old) (D.faults desk.new))
            (seats_of ⟦<Tap<D::Wire> as Link>⟧ ⟦<Arming<D::Store> as Log>⟧ self.new.nodes.seats)) }
        // Who is there stays.
        ensures stay { (id : ℕ) → IsSome (state_at self.old.nodes.seats id)
            → IsSome (state_at self.new.nodes.seats id) }
        // Only `receive` receives.
        ensures taken { taken_of
            (seats_of ⟦<Tap<D::Wire> as Link>⟧ ⟦<Arming<D::Store> as Log>⟧ self.new.nodes.seats) ≡ taken_of
            (seats_of ⟦<Tap<D::Wire> as Link>⟧ ⟦<Arming<D::Store> as Log>⟧ self.old.nodes.seats) }
        ensures dry { dry_of
            (seats_of ⟦<Tap<D::Wire> as Link>⟧ ⟦<Arming<D::Store> as Log>⟧ self.new.nodes.seats) ≡ dry_of
            (seats_of ⟦<Tap<D::Wire> as Link>⟧ ⟦<Arming<D::Store> as Log>⟧ self.old.nodes.seats) }
        ensures err { OnErr result (out.new.items ≡ out.old.items) }
        ensures out { AreOut (D.out desk.new) self.new.nodes.seats }
        ensures desk { OnlyGrants (desk_told D.Ground desk.old) (desk_told D.Ground desk.new) }
    {
        let text = self.answer(desk, event)?;
        out.extend_from_slice(&text)?;
        Ok(())
    }

    // What an event is answered.
    fn answer(&mut self, desk: &mut D, event: &Event) -> Result<Vec<u8>, WorldFault>
        requires ranges { IsEvent event.now }
        requires out { AreOut (D.out desk.old) self.old.nodes.seats }
        ensures answers { (world : Machine)
            → Stands ⟦<Tap<D::Wire> as Link>⟧ ⟦<Arming<D::Store> as Log>⟧ self.old.nodes world
            → CanTell event.now (parts_at ⟦<Tap<D::Wire> as Link>⟧ ⟦<Arming<D::Store> as Log>⟧ self.old.nodes.seats)
            → AnswersBytes ⟦<Tap<D::Wire> as Link>⟧ ⟦<Arming<D::Store> as Log>⟧
            self.new.nodes (happens world event.now) result }
        ensures counted { IfErr result (IsCounted (HasRisen (D.faults desk.old) (D.faults desk.new))
            (seats_of ⟦<Tap<D::Wire> as Link>⟧ ⟦<Arming<D::Store> as Log>⟧ self.new.nodes.seats)) }
        ensures received { received_of
            (seats_of ⟦<Tap<D::Wire> as Link>⟧ ⟦<Arming<D::Store> as Log>⟧ self.new.nodes.seats) ≡ received_of
            (seats_of ⟦<Tap<D::Wire> as Link>⟧ ⟦<Arming<D::Store> as Log>⟧ self.old.nodes.seats) }
        ensures stay { (id : ℕ) → IsSome (state_at self.old.nodes.seats id)
            → IsSome (state_at self.new.nodes.seats id) }
        ensures out { AreOut (D.out desk.new) self.new.nodes.seats }
        ensures desk { OnlyGrants (desk_told D.Ground desk.old) (desk_told D.Ground desk.new) }
    {
        let text = match action_of(event) {
            Some(on) => self.nodes.act(Telling::Names, on.id, &on.action),
            None => return self.answer_else(desk, event),
        }?;
        Ok(text.into_bytes())
    }

    // What one is answered that is no action on a node.
    fn answer_else(&mut self, desk: &mut D, event: &Event) -> Result<Vec<u8>, WorldFault>
        requires ranges { IsEvent event.now }
        requires none { action_for event.now ≡ None }
        requires out { AreOut (D.out desk.old) self.old.nodes.seats }
        ensures answers { (world : Machine)
            → Stands ⟦<Tap<D::Wire> as Link>⟧ ⟦<Arming<D::Store> as Log>⟧ self.old.nodes world
            → CanTell event.now (parts_at ⟦<Tap<D::Wire> as Link>⟧ ⟦<Arming<D::Store> as Log>⟧ self.old.nodes.seats)
            → AnswersBytes ⟦<Tap<D::Wire> as Link>⟧ ⟦<Arming<D::Store> as Log>⟧
            self.new.nodes (happens world event.now) result }
        ensures counted { IfErr result (IsCounted (HasRisen (D.faults desk.old) (D.faults desk.new))
            (seats_of ⟦<Tap<D::Wire> as Link>⟧ ⟦<Arming<D::Store> as Log>⟧ self.new.nodes.seats)) }
        ensures received { received_of
            (seats_of ⟦<Tap<D::Wire> as Link>⟧ ⟦<Arming<D::Store> as Log>⟧ self.new.nodes.seats) ≡ received_of
            (seats_of ⟦<Tap<D::Wire> as Link>⟧ ⟦<Arming<D::Store> as Log>⟧ self.old.nodes.seats) }
        ensures stay { (id : ℕ) → IsSome (state_at self.old.nodes.seats id)
            → IsSome (state_at self.new.nodes.seats id) }
        ensures out { AreOut (D.out desk.new) self.new.nodes.seats }
        ensures desk { OnlyGrants (desk_told D.Ground desk.old) (desk_told D.Ground desk.new) }
    {
        let text = match event {
            Event::Lead(id, addr, at) => self.lead(desk, *id, *addr, *at),
            Event::Boot(id, addr, at, mode) => self.boot(desk, *id, *addr, *at, *mode),
            Event::Close => self.nodes.close(),
            Event::Ask(id, to) => self.nodes.ask(*id, *to),
            Event::Deliver(number) => self.nodes.deliver(*number as usize),
            Event::Lose(number) => self.nodes.lose(*number as usize),
            Event::Settle(most) => self.nodes.settle(*most),
            Event::Noise(id, _) => self.nodes.noise(*id),
            Event::Print(id) => return self.nodes.print(*id),
            _ => self.nodes.not_here(),
        }?;
        Ok(text.into_bytes())
    }

    fn lead(
        &mut self,
        desk: &mut D,
        id: NodeId,
        addr: Addr,
        at: Point,
    ) -> Result<String, WorldFault>
        requires allowed { IsMember (record { id = id; addr = addr; at = at }) }
        requires out { AreOut (D.out desk.old) self.old.nodes.seats }
        ensures answers { (world : Machine)
            → Stands ⟦<Tap<D::Wire> as Link>⟧ ⟦<Arming<D::Store> as Log>⟧ self.old.nodes world
            → Answers ⟦<Tap<D::Wire> as Link>⟧ ⟦<Arming<D::Store> as Log>⟧ self.new.nodes
            (happens world (events.Lead id addr at)) result }
        ensures counted { IfErr result (IsCounted (HasRisen (D.faults desk.old) (D.faults desk.new))
            (seats_of ⟦<Tap<D::Wire> as Link>⟧ ⟦<Arming<D::Store> as Log>⟧ self.new.nodes.seats)) }
        ensures received { received_of
            (seats_of ⟦<Tap<D::Wire> as Link>⟧ ⟦<Arming<D::Store> as Log>⟧ self.new.nodes.seats) ≡ received_of
            (seats_of ⟦<Tap<D::Wire> as Link>⟧ ⟦<Arming<D::Store> as Log>⟧ self.old.nodes.seats) }
        ensures stay { (id : ℕ) → IsSome (state_at self.old.nodes.seats id)
            → IsSome (state_at self.new.nodes.seats id) }
        ensures out { AreOut (D.out desk.new) self.new.nodes.seats }
        ensures desk { OnlyGrants (desk_told D.Ground desk.old) (desk_told D.Ground desk.new) }
    {
        if self.nodes.is_used(id, addr) {
            return line(self.nodes.alloc, "taken");
        }
        if self.nodes.leader.is_some() {
            return line(self.nodes.alloc, "second leader");
        }
        let own = Own {
            id,
            addr,
            at,
            mode: Mode::Full,
            leader: id,
            leader_addr: addr,
        };
        let text = start(&mut self.nodes, desk, &own)?;
        self.nodes.leader = Some(own);
        Ok(text)
    }

    fn boot(
        &mut self,
        desk: &mut D,
        id: NodeId,
        addr: Addr,
        at: Point,
        mode: Mode,
    ) -> Result<String, WorldFault>
        requires allowed { IsMember (record { id = id; addr = addr; at = at }) }
        requires out { AreOut (D.out desk.old) self.old.nodes.seats }
        ensures answers { (world : Machine)
            → Stands ⟦<Tap<D::Wire> as Link>⟧ ⟦<Arming<D::Store> as Log>⟧ self.old.nodes world
            → Answers ⟦<Tap<D::Wire> as Link>⟧ ⟦<Arming<D::Store> as Log>⟧ self.new.nodes
            (happens world (events.Boot id addr at mode)) result }
        ensures counted { IfErr result (IsCounted (HasRisen (D.faults desk.old) (D.faults desk.new))
            (seats_of ⟦<Tap<D::Wire> as Link>⟧ ⟦<Arming<D::Store> as Log>⟧ self.new.nodes.seats)) }
        ensures received { received_of
            (seats_of ⟦<Tap<D::Wire> as Link>⟧ ⟦<Arming<D::Store> as Log>⟧ self.new.nodes.seats) ≡ received_of
            (seats_of ⟦<Tap<D::Wire> as Link>⟧ ⟦<Arming<D::Store> as Log>⟧ self.old.nodes.seats) }
        ensures stay { (id : ℕ) → IsSome (state_at self.old.nodes.seats id)
            → IsSome (state_at self.new.nodes.seats id) }
        ensures out { AreOut (D.out desk.new) self.new.nodes.seats }
        ensures desk { OnlyGrants (desk_told D.Ground desk.old) (desk_told D.Ground desk.new) }
    {
        if self.nodes.is_used(id, addr) {
            return line(self.nodes.alloc, "taken");
        }
        let Some(leader) = self.nodes.leader else {
            return line(self.nodes.alloc, "no leader");
        };
        let own = Own {
            id,
            addr,
            at,
            mode,
            leader: leader.id,
            leader_addr: leader.addr,
        };
        start(&mut self.nodes, desk, &own)
    }

    /// Whether a node with this id was started.
    pub fn has(&self, id: NodeId) -> bool
        ensures { result ≡ is_some (state_at self.now.nodes.seats id) }
    {
        self.nodes.seats.get(id).is_some()
    }

    /// A node that was started receives the next datagram into the front of the buffer, and that is named: it is the
    /// delivery of a packet with these bytes that was sent to the node's address, of the least that wasn't delivered
    /// yet, and of the least where each was; or noise, where there is none. This takes no memory. After an error the
    /// world can only be finished.
    pub fn receive(&mut self, id: NodeId, buf: &mut [u8]) -> Result<Option<Event>, WorldFault>
        requires started { IsSome (state_at self.old.nodes.seats id) }
        requires room { most_datagram ≤ length buf.old }
        ensures received { Receives ⟦<Tap<D::Wire> as Link>⟧ ⟦<Arming<D::Store> as Log>⟧
            (λ bytes event. (world : Machine)
            → Stands ⟦<Tap<D::Wire> as Link>⟧ ⟦<Arming<D::Store> as Log>⟧ self.old.nodes world
            → event ≡ event_for world id bytes) id buf.new result self.old.nodes self.new.nodes }
        ensures allowed { IfOk result (λ got. IfSome got IsEvent) }
        ensures receipt { IfOk result (λ got. IfSome got IsReceipt) }
        // The machine's world is as it was, until the event happens.
        ensures stands { (world : Machine)
            → Stands ⟦<Tap<D::Wire> as Link>⟧ ⟦<Arming<D::Store> as Log>⟧ self.old.nodes world
            → OnOk result (Stands ⟦<Tap<D::Wire> as Link>⟧ ⟦<Arming<D::Store> as Log>⟧ self.new.nodes world) }
        ensures counted { IfErr result (IsCounted ⊥
            (seats_of ⟦<Tap<D::Wire> as Link>⟧ ⟦<Arming<D::Store> as Log>⟧ self.new.nodes.seats)) }
        ensures link { IfErr result (λ fault. fault ≡ WorldFault.Link) }
    {
        self.nodes.receive(id, buf)
    }

    /// The view of a member and of the leader; none of a node that is no member, or isn't there.
    pub fn view(&self, id: NodeId) -> Option<&View>
        ensures { (world : Machine) → Stands ⟦<Tap<D::Wire> as Link>⟧ ⟦<Arming<D::Store> as Log>⟧ self.now.nodes world
            → option_copied result ≡ shown_at world (node_of world id) }
    {
        self.nodes.view(id)
    }

    /// The epoch of the view that a node has, and the SHA-256 of what all blocks of that epoch share.
    pub fn digest(&self, id: NodeId) -> Result<Option<(Epoch, [u8; 32])>, AllocError>
        ensures { (world : Machine) → Stands ⟦<Tap<D::Wire> as Link>⟧ ⟦<Arming<D::Store> as Log>⟧ self.now.nodes world
            → IfOk result (λ told. told
            ≡ option_map (λ view. (view.epoch, digest_of view)) (shown_at world (node_of world id))) }
    {
        let Some(view) = self.view(id) else {
            return Ok(None);
        };
        Ok(Some((
            view.epoch(),
            digest_by(&self.nodes.memo, self.nodes.alloc, view)?,
        )))
    }

    /// How many packets were sent so far, and how many bytes they have together.
    pub fn sent(&self) -> (u32, u64)
        ensures { (world : Machine) → Stands ⟦<Tap<D::Wire> as Link>⟧ ⟦<Arming<D::Store> as Log>⟧ self.now.nodes world
            → result ≡ (length world.sent, bytes_sent world) }
    {
        let traffic = &self.nodes.traffic;
        (traffic.len() as u32, traffic.bytes as u64)
    }

    /// Hands every link and log back to the desk. This takes no memory.
    pub fn finish(self, desk: &mut D)
        requires { AreOut (D.out desk.old) self.nodes.seats }
        ensures out { D.out desk.new ≡ [] }
        // Where the desk tells, it has the log of each node, and what each sent.
        ensures logs { (world : Machine)
            → Stands ⟦<Tap<D::Wire> as Link>⟧ ⟦<Arming<D::Store> as Log>⟧ self.nodes world
            → IfSome (D.logs desk.old) (λ before. IsSomeAnd (D.logs desk.new) (AreLogsOf world)) }
        ensures traffic { (world : Machine)
            → Stands ⟦<Tap<D::Wire> as Link>⟧ ⟦<Arming<D::Store> as Log>⟧ self.nodes world
            → IfSome (D.traffic desk.old) (λ before. IsSomeAnd (D.traffic desk.new) (AreTrafficOf world)) }
        ensures faults { D.faults desk.new ≡ D.faults desk.old }
        ensures link_faults { RisesWith (link_faults_of (seats_of ⟦<Tap<D::Wire> as Link>⟧ ⟦<Arming<D::Store> as Log>⟧
            self.nodes.seats)) (D.link_faults desk.old) (D.link_faults desk.new) }
        ensures log_faults { RisesWith (log_faults_of (seats_of ⟦<Tap<D::Wire> as Link>⟧ ⟦<Arming<D::Store> as Log>⟧
            self.nodes.seats)) (D.log_faults desk.old) (D.log_faults desk.new) }
        // The counts of its links are added, where there is one.
        ensures taken { (id : ℕ) → IsSome (state_at self.nodes.seats id) → D.taken desk.new ≡ counted
            (D.taken desk.old) (taken_of (seats_of ⟦<Tap<D::Wire> as Link>⟧ ⟦<Arming<D::Store> as Log>⟧
            self.nodes.seats)) }
        ensures dry { (id : ℕ) → IsSome (state_at self.nodes.seats id) → D.dry desk.new ≡ counted
            (D.dry desk.old) (dry_of (seats_of ⟦<Tap<D::Wire> as Link>⟧ ⟦<Arming<D::Store> as Log>⟧
            self.nodes.seats)) }
        ensures idle { self.nodes.seats.items.items ≡ []
            → (D.taken desk.new ≡ D.taken desk.old) × (D.dry desk.new ≡ D.dry desk.old) }
    {
        let World { nodes } = self;
        let Nodes {
            alloc: _,
            seats,
            addresses: _,
            leader: _,
            traffic: _,
            pool: _,
            memo: _,
        } = nodes;
        hand_back(seats, desk);
    }
}
