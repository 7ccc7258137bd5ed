//! The nodes that were started, and what they sent.

ghost use Rattle.std.specs.Prelude.{◌≡◌, ◌≢◌, ◌<◌, ◌≤◌, ◌⊎◌, ◌++◌, [], ℕ, List, codes, length, false};
ghost use Rattle.std.specs.Prelude.{Ok, Err, Some, None, IfOk, IfErr, OnOk, vec_len, vec_capacity};
ghost use Rattle.std.specs.Prelude.{◌==◌, if◌then◌else◌, IsSome, MatchOption, is_some, slice_get};
ghost use Rattle.std.specs.Option.{option_and_then, option_copied, option_map};
ghost use Rattle.std.specs.String.{string_bytes};
ghost use Rattle.cs_base.specs.Address.{Address};
ghost use Rattle.cs_node.specs.declared.node.Node.{Node as NodeValues};
ghost use Rattle.cs_packet.specs.declared.packet.Packet.{Packet};
ghost use Rattle.cs_script.specs.Event.{IsEvent};
ghost use Rattle.cs_script.specs.declared.event.Event.TheVariants as events;
ghost use Rattle.cs_node.specs.declared.stopped.Why.TheVariants as whys;
ghost use Rattle.cs_show.specs.Text.{ended, text_of};
ghost use Rattle.cs_machine.specs.Happens.{happens, is_used, noise_at, print_at};
ghost use Rattle.cs_machine.specs.Lines.{note_lines};
ghost use Rattle.cs_machine.specs.Names.{World as Machine, empty_world, node_of};
ghost use Rattle.cs_machine.specs.Outcome.{After, answer};
ghost use Rattle.cs_world.specs.Addresses.{AreNoted};
ghost use Rattle.cs_world.specs.Alone.{Alone, node_named};
ghost use Rattle.cs_world.specs.AloneEvents.{back_word, printed, prints};
ghost use Rattle.cs_world.specs.Posting.{ArePackets, IsPostFault, IsSentBehind, Posts};
ghost use Rattle.cs_world.specs.Processes.{Parts};
ghost use Rattle.cs_world.specs.Shown.{shown_at, viewless_word};

use crate::WorldFault;
use crate::acting::Acted;
use crate::action::Action;
use crate::addresses::Addresses;
use crate::call::{Answer, Call};
use crate::lines::{line, number_line, put_note};
use crate::posting::post_all;
use crate::seats::Seats;
use crate::tap::Tapped;
use crate::telling::Telling;
use crate::traffic::Traffic;
use cs_base::{Addr, NodeId};
use cs_core::ViewPool;
use cs_link::Link;
use cs_log::{Armed, Log};
use cs_node::{Node, Note, Process, Why};
use cs_packet::Own;
use cs_show::{BlockMemo, show_kept_by};
use cs_view::View;
use std::alloc::{AllocError, Global};

// So many bytes are set aside for what a node tells. Most answers fit them.
const LEAST_TEXT: usize = 256;

/// The seats of the nodes, their ids and addresses, who leads, and every packet that was ever sent. A packet comes to
/// the node that has its address. What the nodes have in common saves time: their views, and the lines and the digest
/// that were shown last.
pub struct Nodes<L: Link, G: Log> {
    pub alloc: Global,
    pub seats: Seats<Process<L, G>>,
    pub addresses: Addresses,
    pub leader: Option<Own>,
    pub traffic: Traffic,
    pub pool: ViewPool,
    pub memo: BlockMemo,
}

impl<L: Link, G: Log> Nodes<L, G> {
    ghost use Rattle.cs_world.specs.Seats.{parts_at, place_at, state_at};
    ghost use Rattle.cs_world.specs.AloneStands.{AreAlone};
    ghost use Rattle.cs_world.specs.Stands.{Answers, AnswersBytes, Stands};

    /// None was started.
    pub fn new(alloc: Global) -> Self
        ensures stands { Stands L.Link G.Log result empty_world }
        ensures items { result.seats.items.items ≡ [] }
        ensures datagrams { result.traffic.datagrams.items ≡ [] }
        ensures bytes { result.traffic.bytes ≡ 0 }
    {
        Nodes {
            alloc,
            seats: Seats::new(alloc),
            addresses: Addresses::new(alloc),
            leader: None,
            traffic: Traffic::new(alloc),
            pool: ViewPool::new(alloc),
            memo: BlockMemo::new(),
        }
    }

    /// None was started, and what they will send is found by an index, since they receive.
    pub fn receiving(alloc: Global) -> Self
        ensures stands { Stands L.Link G.Log result empty_world }
        ensures items { result.seats.items.items ≡ [] }
        ensures datagrams { result.traffic.datagrams.items ≡ [] }
        ensures bytes { result.traffic.bytes ≡ 0 }
    {
        Nodes {
            alloc,
            seats: Seats::new(alloc),
            addresses: Addresses::new(alloc),
            leader: None,
            traffic: Traffic::indexed(alloc),
            pool: ViewPool::new(alloc),
            memo: BlockMemo::new(),
        }
    }

    /// A line that a world doesn't have is answered so.
    pub fn not_here(&self) -> Result<String, WorldFault>
        ensures answers { (world : Machine) → Stands L.Link G.Log self.now world
            → Answers L.Link G.Log self.now (answer world (codes "not here")) result }
        ensures memory { IfErr result (λ fault. fault ≡ WorldFault.Memory) }
    {
        line(self.alloc, "not here")
    }

    /// Whether some node has the id or the address.
    pub fn is_used(&self, id: NodeId, addr: Addr) -> bool
        ensures used { (world : Machine) → Stands L.Link G.Log self.now world → result ≡ is_used id addr world }
        ensures unused { result ≡ false → state_at self.now.seats id ≡ None }
    {
        self.seats.get(id).is_some() || self.addresses.id_at(addr).is_some()
    }

    /// The id of the node that was started first.
    pub fn first(&self) -> Option<NodeId>
        ensures first { result ≡ option_map (λ seat. seat.id) (slice_get self.now.seats.items.items 0) }
        ensures none { result ≡ None → self.now.seats.items.items ≡ [] }
        ensures some { (id : ℕ) → result ≡ Some id → IsSome (state_at self.now.seats id) }
    {
        let seat = self.seats.items.first()?;
        Some(seat.id)
    }

    /// Whether the node with the id is there and isn't down.
    pub fn is_up(&self, id: NodeId) -> bool
        ensures { result ≡ is_some (option_and_then (λ parts. parts.node) (parts_at L.Link G.Log self.now.seats id)) }
    {
        self.seats.get(id).is_some_and(|process| process.is_up())
    }

    // Whether the node with the id leads.
    fn is_leader(&self, id: NodeId) -> bool
        ensures { MatchOption self.now.leader (result ≡ false) (λ own. result ≡ (id == own.id)) }
    {
        self.leader.is_some_and(|own| id == own.id)
    }

    /// Makes room for a node that isn't there, and notes its address.
    pub fn make_room(&mut self, id: NodeId, addr: Addr) -> Result<(), AllocError>
        requires { state_at self.old.seats id ≡ None }
        ensures room { OnOk result (vec_len self.new.seats.items < vec_capacity self.new.seats.items) }
        ensures place { OnOk result (place_at self.new.seats id ≡ Some (vec_len self.new.seats.items)) }
        ensures items { self.new.seats.items.items ≡ self.old.seats.items.items }
        ensures states { (other : ℕ) → state_at self.new.seats other ≡ state_at self.old.seats other }
        ensures addresses { OnOk result (AreNoted id addr self.old.addresses self.new.addresses) }
        ensures leader { self.new.leader ≡ self.old.leader }
        ensures traffic { self.new.traffic ≡ self.old.traffic }
    {
        self.seats.make_room(id)?;
        self.addresses.insert(id, addr)?;
        Ok(())
    }

    /// Bytes came to a node that are none of its packets.
    pub fn noise(&self, id: NodeId) -> Result<String, WorldFault>
        ensures answers { (world : Machine) → Stands L.Link G.Log self.now world
            → Answers L.Link G.Log self.now (noise_at world (node_of world id)) result }
        ensures memory { IfErr result (λ fault. fault ≡ WorldFault.Memory) }
    {
        if self.seats.get(id).is_some() {
            return Ok(String::new(self.alloc));
        }
        line(self.alloc, "no node")
    }

    /// What the node prints.
    pub fn print(&self, id: NodeId) -> Result<Vec<u8>, WorldFault>
        ensures answers { (world : Machine) → Stands L.Link G.Log self.now world
            → AnswersBytes L.Link G.Log self.now (print_at world (node_of world id)) result }
        ensures alone { (alone : Alone) → AreAlone L.Link G.Log self.now alone
            → IfOk result (λ text. text.items ≡ text_of (prints alone (node_named alone id)).lines) }
        ensures memory { IfErr result (λ fault. fault ≡ WorldFault.Memory) }
    {
        let mut text = Vec::new(self.alloc);
        match self.seats.get(id) {
            Some(process) => put_process(&self.memo, process, &mut text)?,
            None => text.extend_from_slice(b"no node\n")?,
        }
        Ok(text)
    }

    /// The view of a member and of the leader.
    pub fn view(&self, id: NodeId) -> Option<&View>
        ensures { (world : Machine) → Stands L.Link G.Log self.now world
            → option_copied result ≡ shown_at world (node_of world id) }
    {
        self.seats.get(id)?.view()
    }
}

impl<L: Tapped, G: Armed> Nodes<L, G> {
    ghost use Rattle.cs_world.specs.AloneEvents.{acts};
    ghost use Rattle.cs_world.specs.AloneStands.{AnswersAlone, AreAlone};
    ghost use Rattle.cs_world.specs.Answered.{AnswersActed, AnswersActedAlone, CountsActed};
    ghost use Rattle.cs_world.specs.Happening.{CanBeTold, IsActed};
    ghost use Rattle.cs_world.specs.Receiving.{received_of};
    ghost use Rattle.cs_world.specs.Seats.{ids_of, parts_at, seats_of};
    ghost use Rattle.cs_world.specs.Stands.{Answers, IsCounted, Stands};

    /// What a line does to the node with the id: what the node answers and sends is told.
    pub fn act(
        &mut self,
        telling: Telling,
        id: NodeId,
        action: &Action<'_>,
    ) -> Result<String, WorldFault>
        ensures answers { telling ≡ Telling.Names → (world : Machine) (after : After)
            → Stands L.Link G.Log self.old world → CanBeTold action.now (parts_at L.Link G.Log self.old.seats id)
            → IsActed world id action.now after
            → Answers L.Link G.Log self.new after result }
        // Of a node alone, what it decided on its values is told.
        ensures alone { telling ≡ Telling.Bytes → (alone : Alone) → AreAlone L.Link G.Log self.old alone
            → CanBeTold action.now (parts_at L.Link G.Log self.old.seats id)
            → AnswersAlone L.Link G.Log self.new (acts alone id action.now) result }
        ensures counted { IfErr result (IsCounted ⊥ (seats_of L.Link G.Log self.new.seats)) }
        ensures front { OnOk result (self.new.traffic.front ≡ self.old.traffic.front) }
        ensures longer { OnOk result (length self.old.traffic.datagrams.items
            ≤ length self.new.traffic.datagrams.items) }
        ensures ids { ids_of self.new.seats ≡ ids_of self.old.seats }
        ensures received { received_of (seats_of L.Link G.Log self.new.seats)
            ≡ received_of (seats_of L.Link G.Log self.old.seats) }
    {
        let acted = self.seats.act(self.alloc, &self.pool, id, action);
        self.tell_acted(telling, id, acted)
    }

    /// Tells what the node with the id answered to an action, and what it sent by it, or that there is no such node.
    pub fn tell_acted(
        &mut self,
        telling: Telling,
        id: NodeId,
        acted: Option<Acted>,
    ) -> Result<String, WorldFault>
        ensures answers { telling ≡ Telling.Names
            → AnswersActed L.Link G.Log id acted self.old self.new result }
        ensures alone { telling ≡ Telling.Bytes
            → AnswersActedAlone L.Link G.Log id acted self.old self.new result }
        ensures counted { CountsActed L.Link G.Log id acted self.old self.new result }
        ensures front { OnOk result (self.new.traffic.front ≡ self.old.traffic.front) }
        ensures longer { OnOk result (length self.old.traffic.datagrams.items
            ≤ length self.new.traffic.datagrams.items) }
        ensures seats { self.new.seats ≡ self.old.seats }
    {
        let Some(Acted { earlier, answer }) = acted else {
            return line(self.alloc, "no node");
        };
        match answer {
            Answer::Noted(note) => match note {
                Note::LinkFault { .. } => Err(WorldFault::Link),
                Note::LogFault => Err(WorldFault::Log),
                Note::Memory => Err(WorldFault::Memory),
                note => self.tell(telling, id, earlier, &note),
            },
            Answer::Refused(refusal) => refusal.line(self.alloc),
            Answer::Torn => line(self.alloc, "stopped log"),
            Answer::Down => number_line(self.alloc, "down", u64::from(id.get())),
            Answer::Back => self.tell_back(id),
            Answer::Stopped(why) => stopped_line(self.alloc, why),
            Answer::Armed(b) => number_line(self.alloc, "armed", b),
        }
    }

    // Tells what a node answered, and what it has sent since it had sent so many packets.
    fn tell(
        &mut self,
        telling: Telling,
        id: NodeId,
        earlier: usize,
        note: &Note,
    ) -> Result<String, WorldFault>
        ensures told { (sends : List (Address × Packet)) (parts : Parts) → ArePackets sends
            → parts_at L.Link G.Log self.old.seats id ≡ Some parts → IsSentBehind earlier sends parts.link.sent
            → IfOk result (λ text. Posts telling sends self.old.traffic self.new.traffic
            (text_of (note_lines note.now)) (string_bytes text)) }
        ensures fault { (sends : List (Address × Packet)) (parts : Parts) → ArePackets sends
            → parts_at L.Link G.Log self.old.seats id ≡ Some parts → IsSentBehind earlier sends parts.link.sent
            → IfErr result (IsPostFault self.old.traffic sends) }
        ensures kind { IfErr result (λ fault. (fault ≡ WorldFault.Limit) ⊎ (fault ≡ WorldFault.Memory)) }
        ensures front { OnOk result (self.new.traffic.front ≡ self.old.traffic.front) }
        ensures longer { OnOk result (length self.old.traffic.datagrams.items
            ≤ length self.new.traffic.datagrams.items) }
        ensures seats { self.new.seats ≡ self.old.seats }
        ensures addresses { self.new.addresses ≡ self.old.addresses }
        ensures leader { self.new.leader ≡ self.old.leader }
    {
        let mut text = String::with_capacity(self.alloc, LEAST_TEXT)?;
        put_note(&mut text, note)?;
        if let Some(process) = self.seats.get(id) {
            let link = process.link();
            post_all(telling, link, earlier, &mut self.traffic, &mut text)?;
        }
        Ok(text)
    }

    // Tells what the node with the id came back as.
    fn tell_back(&self, id: NodeId) -> Result<String, WorldFault>
        ensures word { (parts : Parts) (node : NodeValues) → parts_at L.Link G.Log self.now.seats id ≡ Some parts
            → parts.node ≡ Some node → IfOk result (λ text. string_bytes text ≡ ended (back_word node)) }
        ensures memory { IfErr result (λ fault. fault ≡ WorldFault.Memory) }
    {
        let Some(process) = self.seats.get(id) else {
            return line(self.alloc, "down");
        };
        match process.node() {
            Some(node) => back_line(self.alloc, node),
            None => line(self.alloc, "down"),
        }
    }

    /// A node asks another for a snapshot.
    pub fn ask(&mut self, id: NodeId, to: NodeId) -> Result<String, WorldFault>
        requires { IsEvent (events.Ask id to) }
        ensures answers { (world : Machine) → Stands L.Link G.Log self.old world
            → Answers L.Link G.Log self.new (happens world (events.Ask id to)) result }
        ensures counted { IfErr result (IsCounted ⊥ (seats_of L.Link G.Log self.new.seats)) }
        ensures ids { ids_of self.new.seats ≡ ids_of self.old.seats }
        ensures received { received_of (seats_of L.Link G.Log self.new.seats)
            ≡ received_of (seats_of L.Link G.Log self.old.seats) }
    {
        let leads = self.is_leader(to);
        let action = Action::Call(Call::Ask { to, leads });
        self.act(Telling::Names, id, &action)
    }

    /// The leader closes its epoch.
    pub fn close(&mut self) -> Result<String, WorldFault>
        ensures answers { (world : Machine) → Stands L.Link G.Log self.old world
            → Answers L.Link G.Log self.new (happens world events.Close) result }
        ensures counted { IfErr result (IsCounted ⊥ (seats_of L.Link G.Log self.new.seats)) }
        ensures ids { ids_of self.new.seats ≡ ids_of self.old.seats }
        ensures received { received_of (seats_of L.Link G.Log self.new.seats)
            ≡ received_of (seats_of L.Link G.Log self.old.seats) }
    {
        match self.leader {
            Some(own) => self.act(Telling::Names, own.id, &Action::Call(Call::Close)),
            None => line(self.alloc, "no leader"),
        }
    }
}

// Appends the block of a member and of the leader, and else a word.
fn put_process<L: Link, G: Log>(
    memo: &BlockMemo,
    process: &Process<L, G>,
    out: &mut Vec<u8>,
) -> Result<(), AllocError>
    ensures { OnOk result (out.new.items ≡ out.old.items ++ text_of (printed process.now.node)) }
{
    match process.node() {
        Some(node) => put_node(memo, node, out),
        None => out.extend_from_slice(b"down\n"),
    }
}

// Appends the block of a member and of the leader, and else a word.
fn put_node(memo: &BlockMemo, node: &Node, out: &mut Vec<u8>) -> Result<(), AllocError>
    ensures { OnOk result (out.new.items ≡ out.old.items ++ text_of (printed (Some node.now))) }
{
    match node.view() {
        Some(view) => show_kept_by(memo, view, node.kept().unwrap(), out),
        None => out.extend_from_slice(viewless_line(node)),
    }
}

// What a node without a view prints.
fn viewless_line(node: &Node) -> &'static [u8]
    ensures { result.now ≡ ended (viewless_word (Some node.now)) }
{
    match node {
        Node::Left => b"departed\n",
        _ => b"joining\n",
    }
}

// How a node says what it came back as.
fn back_line(alloc: Global, node: &Node) -> Result<String, WorldFault>
    ensures word { IfOk result (λ text. string_bytes text ≡ ended (back_word node.now)) }
    ensures memory { IfErr result (λ fault. fault ≡ WorldFault.Memory) }
{
    match node {
        Node::Leader(leader) => number_line(
            alloc,
            "leader",
            u64::from(leader.view().epoch().get()),
        ),
        Node::Follower(follower) => match follower.view() {
            Some(view) => number_line(alloc, "member", u64::from(view.epoch().get())),
            None => line(alloc, "joining"),
        },
        Node::Left => line(alloc, "departed"),
    }
}

// A node that its log didn't bring back stays down. Only a log that doesn't tell its bytes is empty or bad.
fn stopped_line(alloc: Global, why: Why) -> Result<String, WorldFault>
    ensures text { IfOk result (λ text. string_bytes text ≡ ended (codes "stopped log")) }
    ensures memory { why ≢ whys.Log → IfErr result (λ fault. fault ≡ WorldFault.Memory) }
    ensures log { why ≡ whys.Log → result ≡ Err WorldFault.Log }
    ensures wanting { why ≡ whys.Memory → result ≡ Err WorldFault.Memory }
{
    match why {
        Why::Log => Err(WorldFault::Log),
        Why::Memory => Err(WorldFault::Memory),
        Why::Empty | Why::Bad(_) => line(alloc, "stopped log"),
    }
}
