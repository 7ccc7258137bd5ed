//! A live run: nodes over the links of a field happen to a plan, and receive at its polls what came to them.

ghost use Rattle.std.specs.Prelude.{◌≡◌, ◌⊎◌, ◌≤◌, [], IfErr, vec_len};
ghost use Rattle.cs_base.specs.Limits.{most_output};
ghost use Rattle.cs_base.specs.Ranges.{IsFromTo};
ghost use Rattle.cs_drill.specs.Limits.{fewest_nodes, first_port, last_port, most_live};
ghost use Rattle.cs_link.specs.Received.{most_datagram};
ghost use Rattle.cs_log.specs.Faults.{HasRisen};
ghost use Rattle.cs_world.specs.Desk.{desk_told};
ghost use Rattle.census.specs.Lived.{FieldRose, WritesLife};
ghost use Rattle.census.specs.Run.{IsLineStop, status_in};

use crate::output::{line_text, write_all};
use crate::sink::Sink;
use crate::status::Status;
use crate::summary::node_id;
use crate::teller::with_output;
use cs_base::NodeId;
use cs_drill::{Planned, live_plan};
use cs_link::{Ground, Link, MOST_DATAGRAM};
use cs_log::{Arming, Log};
use cs_script::{Event, print_event};
use cs_world::{Tap, World};
use std::alloc::Global;

/// Passes of one poll.
const MOST_PASSES: usize = 64;

/// Datagrams that a pass takes from one link.
const MOST_TAKEN: usize = 64;

/// The world of a live run, how many bytes are written, and the room for a datagram.
// Linear, since the world is: `finish` alone ends it.
pub struct LiveRun<F: Ground> {
    alloc: Global,
    nodes: u32,
    world: World<F>,
    written: usize,
    buffer: Vec<u8>,
    ghost few: { written ≤ most_output },
    ghost room: { most_datagram ≤ vec_len buffer },
    ghost some: { IsFromTo fewest_nodes most_live nodes },
}

/// Runs nodes over the links of the field by the plan, and tells each event. Every link and log is handed back.
pub fn live<K: Sink, F: Ground>(
    alloc: Global,
    nodes: u32,
    port: u16,
    sink: &mut K,
    field: &mut F,
) -> Status
    requires nodes { IsFromTo fewest_nodes most_live nodes }
    requires port { IsFromTo first_port last_port port }
    requires out { F.out field.old ≡ [] }
    ensures life { WritesLife result nodes port (K.written sink.old) (K.written sink.new)
        (FieldRose (desk_told F.Ground field.old) (desk_told F.Ground field.new)) }
    ensures handed_back { F.out field.new ≡ [] }
    ensures counts { K.faults sink.old ≤ K.faults sink.new }
    ensures field_counts { (F.faults field.old ≤ F.faults field.new)
        × (F.link_faults field.old ≤ F.link_faults field.new) × (F.log_faults field.old ≤ F.log_faults field.new) }
    ensures write { result ≡ Status.Write → HasRisen (K.faults sink.old) (K.faults sink.new) }
    ensures link { result ≡ Status.Link → HasRisen (F.faults field.old) (F.faults field.new)
        ⊎ HasRisen (F.link_faults field.old) (F.link_faults field.new) }
    ensures log { result ≡ Status.Log → HasRisen (F.log_faults field.old) (F.log_faults field.new) }
{
    match run_plan(alloc, nodes, port, sink, field) {
        Ok(()) => Status::Done,
        Err(status) => status,
    }
}

// The plan happens. Every link and log is handed back.
fn run_plan<K: Sink, F: Ground>(
    alloc: Global,
    nodes: u32,
    port: u16,
    sink: &mut K,
    field: &mut F,
) -> Result<(), Status>
    requires nodes { IsFromTo fewest_nodes most_live nodes }
    requires port { IsFromTo first_port last_port port }
    requires out { F.out field.old ≡ [] }
    ensures life { WritesLife (status_in result) nodes port (K.written sink.old) (K.written sink.new)
        (FieldRose (desk_told F.Ground field.old) (desk_told F.Ground field.new)) }
    ensures handed_back { F.out field.new ≡ [] }
    ensures counts { K.faults sink.old ≤ K.faults sink.new }
    ensures field_counts { (F.faults field.old ≤ F.faults field.new)
        × (F.link_faults field.old ≤ F.link_faults field.new) × (F.log_faults field.old ≤ F.log_faults field.new) }
    ensures stop { IfErr result (IsLineStop (HasRisen (K.faults sink.old) (K.faults sink.new))
        (HasRisen (F.faults field.old) (F.faults field.new)
        ⊎ HasRisen (F.link_faults field.old) (F.link_faults field.new))
        (HasRisen (F.log_faults field.old) (F.log_faults field.new))) }
{
    let buffer = vec![in alloc; 0; MOST_DATAGRAM]?;
    let mut run = LiveRun {
        alloc,
        nodes,
        world: World::new(alloc),
        written: 0,
        buffer,
    };
    let told = run.follow(field, port, sink);
    run.finish(field);
    told
}

impl<F: Ground> LiveRun<F> {
    ghost use Rattle.std.specs.Prelude.{◌<◌, ◌+◌, ℕ, List, ◌∷◌, length, true, false, None, Some, Ok, Err};
    ghost use Rattle.std.specs.Prelude.{IfOk, IfSome, IsSome, OnOk};
    ghost use Rattle.cs_link.specs.Counts.{RisesWith, counted};
    ghost use Rattle.cs_machine.specs.Names.{World as Machine, empty_world};
    ghost use Rattle.cs_script.specs.Event.{IsEvent};
    ghost use Rattle.cs_script.specs.declared.event.Event.{Event};
    ghost use Rattle.cs_world.specs.Desk.{OnlyGrants};
    ghost use Rattle.cs_world.specs.Receiving.{IsReceipt, dry_of, taken_of};
    ghost use Rattle.cs_world.specs.Seats.{AreOut, link_faults_of, log_faults_of, seats_of, state_at};
    ghost use Rattle.cs_world.specs.Stands.{Stands};
    ghost use Rattle.census.specs.Lived.{AreReceipts, AreReceived, AreTold, Happened, IsFrontIn, NodesRose, StopsIn};
    ghost use Rattle.census.specs.Lived.{dry_behind, dry_in_pass, dry_in_poll, most_taken, passes_with};
    ghost use Rattle.census.specs.Restarts.{brings_back};
    ghost use Rattle.census.specs.Run.{IsEventStop};

    // The steps of the plan are taken, one after the other.
    fn follow<K: Sink>(&mut self, field: &mut F, port: u16, sink: &mut K) -> Result<(), Status>
        requires port { IsFromTo first_port last_port port }
        requires stands { Stands ⟦<Tap<F::Wire> as Link>⟧ ⟦<Arming<F::Store> as Log>⟧ self.old.world.nodes empty_world }
        requires written { self.old.written ≡ 0 }
        requires out { AreOut (F.out field.old) self.old.world.nodes.seats }
        ensures life { WritesLife (status_in result) self.old.nodes port (K.written sink.old) (K.written sink.new)
            (NodesRose ⟦<Tap<F::Wire> as Link>⟧ ⟦<Arming<F::Store> as Log>⟧ self.old.world.nodes self.new.world.nodes) }
        ensures there { OnOk result (IsSome (state_at self.new.world.nodes.seats 1)) }
        ensures counts { K.faults sink.old ≤ K.faults sink.new }
        ensures stop { IfErr result (IsLineStop (HasRisen (K.faults sink.old) (K.faults sink.new))
            (HasRisen (F.faults field.old) (F.faults field.new) ⊎ (0 < link_faults_of
            (seats_of ⟦<Tap<F::Wire> as Link>⟧ ⟦<Arming<F::Store> as Log>⟧ self.new.world.nodes.seats)))
            (0 < log_faults_of (seats_of ⟦<Tap<F::Wire> as Link>⟧ ⟦<Arming<F::Store> as Log>⟧
            self.new.world.nodes.seats))) }
        ensures out { AreOut (F.out field.new) self.new.world.nodes.seats }
        ensures field { OnlyGrants (desk_told F.Ground field.old) (desk_told F.Ground field.new) }
    {
        let plan = live_plan(self.alloc, self.nodes, port)?;
        for step in plan.as_slice() {
            match step {
                Planned::Event(event) => self.tell(field, event, sink)?,
                Planned::Poll => self.poll(field, sink)?,
            }
        }
        Ok(())
    }

    // An event happens, and is told, unless it goes beyond a limit.
    fn tell<K: Sink>(&mut self, field: &mut F, event: &Event, sink: &mut K) -> Result<(), Status>
        requires ranges { IsEvent event.now }
        requires quiet { brings_back (Ok event.now) ≡ false }
        requires out { AreOut (F.out field.old) self.old.world.nodes.seats }
        ensures told { (world : Machine)
            → Stands ⟦<Tap<F::Wire> as Link>⟧ ⟦<Arming<F::Store> as Log>⟧ self.old.world.nodes world
            → OnOk result (AreTold (Stands ⟦<Tap<F::Wire> as Link>⟧ ⟦<Arming<F::Store> as Log>⟧ self.new.world.nodes)
            self.old.written self.new.written world (event.now ∷ [])
            (K.written sink.old) (K.written sink.new)) }
        ensures stopped { (world : Machine)
            → Stands ⟦<Tap<F::Wire> as Link>⟧ ⟦<Arming<F::Store> as Log>⟧ self.old.world.nodes world
            → IfErr result (λ status. StopsIn (IsFrontIn (event.now ∷ [])) status self.old.written world
            (K.written sink.old) (K.written sink.new)) }
        ensures taken { taken_of (seats_of ⟦<Tap<F::Wire> as Link>⟧ ⟦<Arming<F::Store> as Log>⟧
            self.new.world.nodes.seats)
            ≡ taken_of (seats_of ⟦<Tap<F::Wire> as Link>⟧ ⟦<Arming<F::Store> as Log>⟧ self.old.world.nodes.seats) }
        ensures dry { dry_of (seats_of ⟦<Tap<F::Wire> as Link>⟧ ⟦<Arming<F::Store> as Log>⟧ self.new.world.nodes.seats)
            ≡ dry_of (seats_of ⟦<Tap<F::Wire> as Link>⟧ ⟦<Arming<F::Store> as Log>⟧ self.old.world.nodes.seats) }
        ensures stay { (id : ℕ) → IsSome (state_at self.old.world.nodes.seats id)
            → IsSome (state_at self.new.world.nodes.seats id) }
        ensures same { self.new.nodes ≡ self.old.nodes }
        ensures counts { K.faults sink.old ≤ K.faults sink.new }
        ensures stop { IfErr result (IsLineStop (HasRisen (K.faults sink.old) (K.faults sink.new))
            (HasRisen (F.faults field.old) (F.faults field.new) ⊎ (0 < link_faults_of
            (seats_of ⟦<Tap<F::Wire> as Link>⟧ ⟦<Arming<F::Store> as Log>⟧ self.new.world.nodes.seats)))
            (0 < log_faults_of (seats_of ⟦<Tap<F::Wire> as Link>⟧ ⟦<Arming<F::Store> as Log>⟧
            self.new.world.nodes.seats))) }
        ensures out { AreOut (F.out field.new) self.new.world.nodes.seats }
        ensures field { OnlyGrants (desk_told F.Ground field.old) (desk_told F.Ground field.new) }
    {
        let text = self.output(field, event)?;
        write_all(sink, &text)
    }

    // The line of an event, and the lines of what it leads to.
    fn output(&mut self, field: &mut F, event: &Event) -> Result<Vec<u8>, Status>
        requires ranges { IsEvent event.now }
        requires quiet { brings_back (Ok event.now) ≡ false }
        requires out { AreOut (F.out field.old) self.old.world.nodes.seats }
        ensures ok { (world : Machine)
            → Stands ⟦<Tap<F::Wire> as Link>⟧ ⟦<Arming<F::Store> as Log>⟧ self.old.world.nodes world
            → IfOk result (λ text. Happened (Stands ⟦<Tap<F::Wire> as Link>⟧ ⟦<Arming<F::Store> as Log>⟧
            self.new.world.nodes)
            self.old.written self.new.written world event.now
            text.items) }
        ensures limit { (world : Machine)
            → Stands ⟦<Tap<F::Wire> as Link>⟧ ⟦<Arming<F::Store> as Log>⟧ self.old.world.nodes world
            → result ≡ Err Status.Limit → passes_with self.old.written world event.now ≡ true }
        ensures taken { taken_of (seats_of ⟦<Tap<F::Wire> as Link>⟧ ⟦<Arming<F::Store> as Log>⟧
            self.new.world.nodes.seats)
            ≡ taken_of (seats_of ⟦<Tap<F::Wire> as Link>⟧ ⟦<Arming<F::Store> as Log>⟧ self.old.world.nodes.seats) }
        ensures dry { dry_of (seats_of ⟦<Tap<F::Wire> as Link>⟧ ⟦<Arming<F::Store> as Log>⟧ self.new.world.nodes.seats)
            ≡ dry_of (seats_of ⟦<Tap<F::Wire> as Link>⟧ ⟦<Arming<F::Store> as Log>⟧ self.old.world.nodes.seats) }
        ensures stay { (id : ℕ) → IsSome (state_at self.old.world.nodes.seats id)
            → IsSome (state_at self.new.world.nodes.seats id) }
        ensures same { self.new.nodes ≡ self.old.nodes }
        ensures stop { IfErr result (IsEventStop (HasRisen (F.faults field.old) (F.faults field.new) ⊎
            (0 < link_faults_of
            (seats_of ⟦<Tap<F::Wire> as Link>⟧ ⟦<Arming<F::Store> as Log>⟧ self.new.world.nodes.seats)))
            (0 < log_faults_of (seats_of ⟦<Tap<F::Wire> as Link>⟧ ⟦<Arming<F::Store> as Log>⟧
            self.new.world.nodes.seats))) }
        ensures out { AreOut (F.out field.new) self.new.world.nodes.seats }
        ensures field { OnlyGrants (desk_told F.Ground field.old) (desk_told F.Ground field.new) }
    {
        let line = print_event(self.alloc, event)?;
        let mut text = line_text(self.alloc, line.as_slice())?;
        self.world.step(field, event, &mut text)?;
        self.written = with_output(self.written, text.len())?;
        Ok(text)
    }

    // All nodes receive in passes, until one takes nothing.
    fn poll<K: Sink>(&mut self, field: &mut F, sink: &mut K) -> Result<(), Status>
        requires started { (id : ℕ) → IsFromTo 1 self.old.nodes id
            → IsSome (state_at self.old.world.nodes.seats id) }
        requires out { AreOut (F.out field.old) self.old.world.nodes.seats }
        ensures polled { OnOk result ((came : ℕ)
            × NodesRose ⟦<Tap<F::Wire> as Link>⟧ ⟦<Arming<F::Store> as Log>⟧ self.old.world.nodes
            self.new.world.nodes came (dry_in_poll self.old.nodes came)
            × ((world : Machine)
            → Stands ⟦<Tap<F::Wire> as Link>⟧ ⟦<Arming<F::Store> as Log>⟧ self.old.world.nodes world
            → AreReceived (Stands ⟦<Tap<F::Wire> as Link>⟧ ⟦<Arming<F::Store> as Log>⟧ self.new.world.nodes)
            self.old.written self.new.written world came (K.written sink.old)
            (K.written sink.new))) }
        ensures stopped { (world : Machine)
            → Stands ⟦<Tap<F::Wire> as Link>⟧ ⟦<Arming<F::Store> as Log>⟧ self.old.world.nodes world
            → IfErr result (λ status. StopsIn AreReceipts status self.old.written world
            (K.written sink.old) (K.written sink.new)) }
        ensures stay { OnOk result ((id : ℕ) → IsSome (state_at self.old.world.nodes.seats id)
            → IsSome (state_at self.new.world.nodes.seats id)) }
        ensures same { self.new.nodes ≡ self.old.nodes }
        ensures counts { K.faults sink.old ≤ K.faults sink.new }
        ensures stop { IfErr result (IsLineStop (HasRisen (K.faults sink.old) (K.faults sink.new))
            (HasRisen (F.faults field.old) (F.faults field.new) ⊎ (0 < link_faults_of
            (seats_of ⟦<Tap<F::Wire> as Link>⟧ ⟦<Arming<F::Store> as Log>⟧ self.new.world.nodes.seats)))
            (0 < log_faults_of (seats_of ⟦<Tap<F::Wire> as Link>⟧ ⟦<Arming<F::Store> as Log>⟧
            self.new.world.nodes.seats))) }
        ensures out { AreOut (F.out field.new) self.new.world.nodes.seats }
        ensures field { OnlyGrants (desk_told F.Ground field.old) (desk_told F.Ground field.new) }
    {
        for _ in 0..MOST_PASSES {
            if self.pass(field, sink)? == 0 {
                return Ok(());
            }
        }
        Ok(())
    }

    // One node after the other receives. This says how many datagrams came.
    fn pass<K: Sink>(&mut self, field: &mut F, sink: &mut K) -> Result<usize, Status>
        requires started { (id : ℕ) → IsFromTo 1 self.old.nodes id
            → IsSome (state_at self.old.world.nodes.seats id) }
        requires out { AreOut (F.out field.old) self.old.world.nodes.seats }
        ensures received { (world : Machine)
            → Stands ⟦<Tap<F::Wire> as Link>⟧ ⟦<Arming<F::Store> as Log>⟧ self.old.world.nodes world
            → IfOk result (λ came. AreReceived (Stands ⟦<Tap<F::Wire> as Link>⟧ ⟦<Arming<F::Store> as Log>⟧
            self.new.world.nodes)
            self.old.written self.new.written world came
            (K.written sink.old) (K.written sink.new)) }
        ensures rose { IfOk result (λ came. NodesRose ⟦<Tap<F::Wire> as Link>⟧ ⟦<Arming<F::Store> as Log>⟧
            self.old.world.nodes self.new.world.nodes came (dry_in_pass self.old.nodes came)) }
        ensures stopped { (world : Machine)
            → Stands ⟦<Tap<F::Wire> as Link>⟧ ⟦<Arming<F::Store> as Log>⟧ self.old.world.nodes world
            → IfErr result (λ status. StopsIn AreReceipts status self.old.written world
            (K.written sink.old) (K.written sink.new)) }
        ensures stay { OnOk result ((id : ℕ) → IsSome (state_at self.old.world.nodes.seats id)
            → IsSome (state_at self.new.world.nodes.seats id)) }
        ensures same { self.new.nodes ≡ self.old.nodes }
        ensures counts { K.faults sink.old ≤ K.faults sink.new }
        ensures stop { IfErr result (IsLineStop (HasRisen (K.faults sink.old) (K.faults sink.new))
            (HasRisen (F.faults field.old) (F.faults field.new) ⊎ (0 < link_faults_of
            (seats_of ⟦<Tap<F::Wire> as Link>⟧ ⟦<Arming<F::Store> as Log>⟧ self.new.world.nodes.seats)))
            (0 < log_faults_of (seats_of ⟦<Tap<F::Wire> as Link>⟧ ⟦<Arming<F::Store> as Log>⟧
            self.new.world.nodes.seats))) }
        ensures out { AreOut (F.out field.new) self.new.world.nodes.seats }
        ensures field { OnlyGrants (desk_told F.Ground field.old) (desk_told F.Ground field.new) }
    {
        let mut came = 0;
        for before in 0..self.nodes {
            came += self.take_from(field, node_id(before + 1), sink)?;
        }
        Ok(came)
    }

    // A node receives until nothing is waiting, or so many datagrams came, and this says how many. Each is told as
    // the event that it is.
    fn take_from<K: Sink>(
        &mut self,
        field: &mut F,
        id: NodeId,
        sink: &mut K,
    ) -> Result<usize, Status>
        requires there { IsSome (state_at self.old.world.nodes.seats id) }
        requires out { AreOut (F.out field.old) self.old.world.nodes.seats }
        ensures received { (world : Machine)
            → Stands ⟦<Tap<F::Wire> as Link>⟧ ⟦<Arming<F::Store> as Log>⟧ self.old.world.nodes world
            → IfOk result (λ came. AreReceived (Stands ⟦<Tap<F::Wire> as Link>⟧ ⟦<Arming<F::Store> as Log>⟧
            self.new.world.nodes)
            self.old.written self.new.written world came
            (K.written sink.old) (K.written sink.new)) }
        ensures few { IfOk result (λ came. came ≤ most_taken) }
        ensures rose { IfOk result (λ came. NodesRose ⟦<Tap<F::Wire> as Link>⟧ ⟦<Arming<F::Store> as Log>⟧
            self.old.world.nodes self.new.world.nodes came (dry_behind came)) }
        ensures stopped { (world : Machine)
            → Stands ⟦<Tap<F::Wire> as Link>⟧ ⟦<Arming<F::Store> as Log>⟧ self.old.world.nodes world
            → IfErr result (λ status. StopsIn AreReceipts status self.old.written world
            (K.written sink.old) (K.written sink.new)) }
        ensures stay { OnOk result ((id : ℕ) → IsSome (state_at self.old.world.nodes.seats id)
            → IsSome (state_at self.new.world.nodes.seats id)) }
        ensures same { self.new.nodes ≡ self.old.nodes }
        ensures counts { K.faults sink.old ≤ K.faults sink.new }
        ensures stop { IfErr result (IsLineStop (HasRisen (K.faults sink.old) (K.faults sink.new))
            (HasRisen (F.faults field.old) (F.faults field.new) ⊎ (0 < link_faults_of
            (seats_of ⟦<Tap<F::Wire> as Link>⟧ ⟦<Arming<F::Store> as Log>⟧ self.new.world.nodes.seats)))
            (0 < log_faults_of (seats_of ⟦<Tap<F::Wire> as Link>⟧ ⟦<Arming<F::Store> as Log>⟧
            self.new.world.nodes.seats))) }
        ensures out { AreOut (F.out field.new) self.new.world.nodes.seats }
        ensures field { OnlyGrants (desk_told F.Ground field.old) (desk_told F.Ground field.new) }
    {
        for came in 0..MOST_TAKEN {
            let Some(event) = self.receive(id)? else {
                return Ok(came);
            };
            self.tell(field, &event, sink)?;
        }
        Ok(MOST_TAKEN)
    }

    // The event that the next datagram is which came to a node, unless nothing was waiting.
    fn receive(&mut self, id: NodeId) -> Result<Option<Event>, Status>
        requires there { IsSome (state_at self.old.world.nodes.seats id) }
        ensures allowed { IfOk result (λ got. IfSome got IsEvent) }
        ensures receipt { IfOk result (λ got. IfSome got IsReceipt) }
        ensures some { (event : Event) → result ≡ Ok (Some event)
            → NodesRose ⟦<Tap<F::Wire> as Link>⟧ ⟦<Arming<F::Store> as Log>⟧ self.old.world.nodes
            self.new.world.nodes 1 0 }
        ensures none { result ≡ Ok None → NodesRose ⟦<Tap<F::Wire> as Link>⟧ ⟦<Arming<F::Store> as Log>⟧
            self.old.world.nodes self.new.world.nodes 0 1 }
        ensures stands { (world : Machine)
            → Stands ⟦<Tap<F::Wire> as Link>⟧ ⟦<Arming<F::Store> as Log>⟧ self.old.world.nodes world
            → OnOk result (Stands ⟦<Tap<F::Wire> as Link>⟧ ⟦<Arming<F::Store> as Log>⟧ self.new.world.nodes world) }
        ensures stay { (id : ℕ) → IsSome (state_at self.old.world.nodes.seats id)
            → IsSome (state_at self.new.world.nodes.seats id) }
        ensures same { self.new.nodes ≡ self.old.nodes }
        ensures written { self.new.written ≡ self.old.written }
        ensures out { (out : List ℕ) → AreOut out self.old.world.nodes.seats → AreOut out self.new.world.nodes.seats }
        ensures stop { IfErr result (λ status. (status ≡ Status.Link)
            × (0 < link_faults_of (seats_of ⟦<Tap<F::Wire> as Link>⟧ ⟦<Arming<F::Store> as Log>⟧
            self.new.world.nodes.seats))) }
    {
        Ok(self.world.receive(id, self.buffer.as_mut_slice())?)
    }

    // Hands every link and log back to the field.
    fn finish(self, field: &mut F)
        requires { AreOut (F.out field.old) self.world.nodes.seats }
        ensures out { F.out field.new ≡ [] }
        ensures faults { F.faults field.new ≡ F.faults field.old }
        ensures link_faults { RisesWith (link_faults_of
            (seats_of ⟦<Tap<F::Wire> as Link>⟧ ⟦<Arming<F::Store> as Log>⟧ self.world.nodes.seats))
            (F.link_faults field.old) (F.link_faults field.new) }
        ensures log_faults { RisesWith (log_faults_of
            (seats_of ⟦<Tap<F::Wire> as Link>⟧ ⟦<Arming<F::Store> as Log>⟧ self.world.nodes.seats))
            (F.log_faults field.old) (F.log_faults field.new) }
        ensures taken { (id : ℕ) → IsSome (state_at self.world.nodes.seats id) → F.taken field.new
            ≡ counted (F.taken field.old) (taken_of (seats_of ⟦<Tap<F::Wire> as Link>⟧ ⟦<Arming<F::Store> as Log>⟧
            self.world.nodes.seats)) }
        ensures dry { (id : ℕ) → IsSome (state_at self.world.nodes.seats id) → F.dry field.new
            ≡ counted (F.dry field.old) (dry_of (seats_of ⟦<Tap<F::Wire> as Link>⟧ ⟦<Arming<F::Store> as Log>⟧
            self.world.nodes.seats)) }
    {
        let LiveRun {
            alloc: _,
            nodes: _,
            world,
            written: _,
            buffer: _,
        } = self;
        world.finish(field);
    }
}
