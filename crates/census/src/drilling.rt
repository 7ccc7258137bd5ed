//! The schedule of a drill over the nodes of a desk.

ghost use Rattle.std.specs.Prelude.{◌≡◌, ◌⊎◌, ◌<◌, ◌≤◌, [], false, true, Err, IfOk, IfErr, IsSome, OnOk};
ghost use Rattle.std.specs.List.{AllByRecursion};
ghost use Rattle.std.specs.String.{string_bytes};
ghost use Rattle.cs_base.specs.Ranges.{IsFromTo};
ghost use Rattle.cs_drill.specs.Limits.{fewest_nodes, most_nodes};
ghost use Rattle.cs_log.specs.Faults.{HasRisen};
ghost use Rattle.cs_machine.specs.Happens.{happens};
ghost use Rattle.cs_machine.specs.Names.{World as Machine};
ghost use Rattle.cs_script.specs.Event.{IsEvent};
ghost use Rattle.cs_show.specs.Text.{text_of};
ghost use Rattle.cs_world.specs.Desk.{OnlyGrants, desk_told};
ghost use Rattle.cs_world.specs.Seats.{AreOut, link_faults_of, log_faults_of, seats_of};
ghost use Rattle.cs_world.specs.Stands.{IsCounted, IsLimitOf, Stands};
ghost use Rattle.census.specs.Drilled.{drill_ends, drill_text, drilled, passes, summary_lines, world_behind};
ghost use Rattle.census.specs.Run.{IsDrillEnd, IsEventStop, TellsLogs, TellsTraffic, WritesSummary};
ghost use Rattle.census.specs.Systems.{Many};

use crate::output::write_all;
use crate::sink::Sink;
use crate::status::Status;
use crate::summary::summary;
use cs_drill::{Events, generate};
use cs_link::{Ground, Link};
use cs_log::{Arming, Log};
use cs_script::Event;
use cs_world::{Tap, World, WorldFault};
use std::alloc::Global;

/// Runs the schedule of a drill, and writes its summary. Every link and log is handed back.
pub fn drill<K: Sink, D: Ground>(
    alloc: Global,
    nodes: u32,
    seed: u64,
    sink: &mut K,
    desk: &mut D,
) -> Status
    requires nodes { IsFromTo fewest_nodes most_nodes nodes }
    requires out { D.out desk.old ≡ [] }
    ensures summary { IsSome (D.logs desk.old)
        → WritesSummary result nodes seed (K.written sink.old) (K.written sink.new) }
    ensures end { IsDrillEnd result (sink.new ≡ sink.old) }
    ensures logs { result ≡ Status.Done
        → TellsLogs (D.logs desk.old) (D.logs desk.new) (Many (drilled nodes seed)) }
    ensures traffic { result ≡ Status.Done → IsSome (D.logs desk.old)
        → TellsTraffic (D.traffic desk.old) (D.traffic desk.new) (Many (drilled nodes seed)) }
    ensures handed_back { D.out desk.new ≡ [] }
    ensures counts { K.faults sink.old ≤ K.faults sink.new }
    ensures desk_counts { (D.faults desk.old ≤ D.faults desk.new)
        × (D.link_faults desk.old ≤ D.link_faults desk.new) × (D.log_faults desk.old ≤ D.log_faults desk.new) }
    ensures write { result ≡ Status.Write → HasRisen (K.faults sink.old) (K.faults sink.new) }
    ensures link { result ≡ Status.Link → HasRisen (D.faults desk.old) (D.faults desk.new)
        ⊎ HasRisen (D.link_faults desk.old) (D.link_faults desk.new) }
    ensures log { result ≡ Status.Log → HasRisen (D.log_faults desk.old) (D.log_faults desk.new) }
{
    let text = match run_schedule(alloc, nodes, seed, desk) {
        Ok(text) => text,
        Err(status) => return status,
    };
    match write_all(sink, text.as_bytes()) {
        Ok(()) => Status::Done,
        Err(status) => status,
    }
}

// The summary behind the schedule. Every link and log is handed back.
fn run_schedule<D: Ground>(
    alloc: Global,
    nodes: u32,
    seed: u64,
    desk: &mut D,
) -> Result<String, Status>
    requires nodes { IsFromTo fewest_nodes most_nodes nodes }
    requires out { D.out desk.old ≡ [] }
    ensures text { IsSome (D.logs desk.old) → IfOk result (λ text. string_bytes text ≡ drill_text nodes seed) }
    ensures done { IsSome (D.logs desk.old) → OnOk result (drill_ends nodes seed ≡ Status.Done) }
    ensures limit { IsSome (D.logs desk.old) → result ≡ Err Status.Limit → drill_ends nodes seed ≡ Status.Limit }
    ensures logs { OnOk result (TellsLogs (D.logs desk.old) (D.logs desk.new) (Many (drilled nodes seed))) }
    ensures traffic { IsSome (D.logs desk.old)
        → OnOk result (TellsTraffic (D.traffic desk.old) (D.traffic desk.new) (Many (drilled nodes seed))) }
    ensures handed_back { D.out desk.new ≡ [] }
    ensures desk_counts { (D.faults desk.old ≤ D.faults desk.new)
        × (D.link_faults desk.old ≤ D.link_faults desk.new) × (D.log_faults desk.old ≤ D.log_faults desk.new) }
    ensures stop { IfErr result (IsEventStop
        (HasRisen (D.faults desk.old) (D.faults desk.new) ⊎ HasRisen (D.link_faults desk.old) (D.link_faults desk.new))
        (HasRisen (D.log_faults desk.old) (D.log_faults desk.new))) }
{
    let events = generate(alloc, nodes, seed)?;
    let mut world = World::replaying(alloc);
    let text = summary_behind(alloc, &mut world, nodes, desk, &events);
    world.finish(desk);
    text
}

// The summary behind events that happen in a world.
fn summary_behind<D: Ground>(
    alloc: Global,
    world: &mut World<D>,
    nodes: u32,
    desk: &mut D,
    events: &Events,
) -> Result<String, Status>
    requires nodes { IsFromTo fewest_nodes most_nodes nodes }
    requires allowed { AllByRecursion IsEvent events.now }
    requires out { AreOut (D.out desk.old) world.old.nodes.seats }
    ensures text { (machine : Machine)
        → Stands ⟦<Tap<D::Wire> as Link>⟧ ⟦<Arming<D::Store> as Log>⟧ world.old.nodes machine
        → IsSome (D.logs desk.old)
        → IfOk result (λ text. string_bytes text ≡ text_of (summary_lines nodes (world_behind machine events.now))) }
    ensures behind { (machine : Machine)
        → Stands ⟦<Tap<D::Wire> as Link>⟧ ⟦<Arming<D::Store> as Log>⟧ world.old.nodes machine
        → IsSome (D.logs desk.old)
        → OnOk result (Stands ⟦<Tap<D::Wire> as Link>⟧ ⟦<Arming<D::Store> as Log>⟧ world.new.nodes
        (world_behind machine events.now)) }
    ensures within { (machine : Machine)
        → Stands ⟦<Tap<D::Wire> as Link>⟧ ⟦<Arming<D::Store> as Log>⟧ world.old.nodes machine
        → IsSome (D.logs desk.old) → OnOk result (passes machine events.now ≡ false) }
    ensures limit { (machine : Machine)
        → Stands ⟦<Tap<D::Wire> as Link>⟧ ⟦<Arming<D::Store> as Log>⟧ world.old.nodes machine
        → IsSome (D.logs desk.old) → result ≡ Err Status.Limit → passes machine events.now ≡ true }
    ensures stop { IfErr result (IsEventStop (HasRisen (D.faults desk.old) (D.faults desk.new) ⊎ (0 < link_faults_of
        (seats_of ⟦<Tap<D::Wire> as Link>⟧ ⟦<Arming<D::Store> as Log>⟧ world.new.nodes.seats)))
        (0 < log_faults_of (seats_of ⟦<Tap<D::Wire> as Link>⟧ ⟦<Arming<D::Store> as Log>⟧ world.new.nodes.seats))) }
    ensures out { AreOut (D.out desk.new) world.new.nodes.seats }
    ensures desk { OnlyGrants (desk_told D.Ground desk.old) (desk_told D.Ground desk.new) }
{
    happen(alloc, world, desk, events)?;
    Ok(summary(alloc, world, nodes)?)
}

// The events happen, one after the other.
fn happen<D: Ground>(
    alloc: Global,
    world: &mut World<D>,
    desk: &mut D,
    events: &Events,
) -> Result<(), WorldFault>
    requires allowed { AllByRecursion IsEvent events.now }
    requires out { AreOut (D.out desk.old) world.old.nodes.seats }
    ensures behind { (machine : Machine)
        → Stands ⟦<Tap<D::Wire> as Link>⟧ ⟦<Arming<D::Store> as Log>⟧ world.old.nodes machine
        → IsSome (D.logs desk.old)
        → OnOk result (Stands ⟦<Tap<D::Wire> as Link>⟧ ⟦<Arming<D::Store> as Log>⟧ world.new.nodes
        (world_behind machine events.now)) }
    ensures within { (machine : Machine)
        → Stands ⟦<Tap<D::Wire> as Link>⟧ ⟦<Arming<D::Store> as Log>⟧ world.old.nodes machine
        → IsSome (D.logs desk.old) → OnOk result (passes machine events.now ≡ false) }
    ensures limit { (machine : Machine)
        → Stands ⟦<Tap<D::Wire> as Link>⟧ ⟦<Arming<D::Store> as Log>⟧ world.old.nodes machine
        → IsSome (D.logs desk.old) → result ≡ Err WorldFault.Limit → passes machine events.now ≡ true }
    ensures counted { IfErr result (IsCounted (HasRisen (D.faults desk.old) (D.faults desk.new))
        (seats_of ⟦<Tap<D::Wire> as Link>⟧ ⟦<Arming<D::Store> as Log>⟧ world.new.nodes.seats)) }
    ensures out { AreOut (D.out desk.new) world.new.nodes.seats }
    ensures desk { OnlyGrants (desk_told D.Ground desk.old) (desk_told D.Ground desk.new) }
{
    for event in events.as_slice() {
        happen_quietly(alloc, world, desk, event)?;
    }
    Ok(())
}

// An event happens, and nobody reads its lines.
fn happen_quietly<D: Ground>(
    alloc: Global,
    world: &mut World<D>,
    desk: &mut D,
    event: &Event,
) -> Result<(), WorldFault>
    requires allowed { IsEvent event.now }
    requires out { AreOut (D.out desk.old) world.old.nodes.seats }
    ensures behind { (machine : Machine)
        → Stands ⟦<Tap<D::Wire> as Link>⟧ ⟦<Arming<D::Store> as Log>⟧ world.old.nodes machine
        → IsSome (D.logs desk.old)
        → OnOk result (Stands ⟦<Tap<D::Wire> as Link>⟧ ⟦<Arming<D::Store> as Log>⟧ world.new.nodes
        (happens machine event.now).world) }
    ensures limit { (machine : Machine)
        → Stands ⟦<Tap<D::Wire> as Link>⟧ ⟦<Arming<D::Store> as Log>⟧ world.old.nodes machine
        → IsSome (D.logs desk.old) → IfErr result (IsLimitOf (happens machine event.now).world) }
    ensures counted { IfErr result (IsCounted (HasRisen (D.faults desk.old) (D.faults desk.new))
        (seats_of ⟦<Tap<D::Wire> as Link>⟧ ⟦<Arming<D::Store> as Log>⟧ world.new.nodes.seats)) }
    ensures out { AreOut (D.out desk.new) world.new.nodes.seats }
    ensures desk { OnlyGrants (desk_told D.Ground desk.old) (desk_told D.Ground desk.new) }
{
    // A block changes nothing.
    if let Event::Print(_) = event {
        return Ok(());
    }
    let mut text = Vec::new(alloc);
    world.step(desk, event, &mut text)
}
