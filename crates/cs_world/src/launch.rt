//! A node starts in its seat.

ghost use Rattle.std.specs.Prelude.{◌≡◌, ◌++◌, ℕ, decimal, codes, Err, Some, None};
ghost use Rattle.std.specs.Prelude.{IfOk, IfErr, IsSome, OnOk, if◌then◌else◌, ◌==◌};
ghost use Rattle.std.specs.String.{string_bytes};
ghost use Rattle.cs_link.specs.Received.{IsNothing};
ghost use Rattle.cs_log.specs.Faults.{HasRisen};
ghost use Rattle.cs_node.specs.Appending.{Keeps, entry_frame};
ghost use Rattle.cs_node.specs.Booting.{HasNotBooted};
ghost use Rattle.cs_node.specs.States.{link_of, log_of, status_of};
ghost use Rattle.cs_node.specs.Told.{log_told};
ghost use Rattle.cs_packet.specs.BootField.{IsLedBy};
ghost use Rattle.cs_packet.specs.EntryField.{IsEntry};
ghost use Rattle.cs_packet.specs.declared.entry.Entry.{Entry};
ghost use Rattle.cs_show.specs.Text.{ended};
ghost use Rattle.cs_world.specs.Addresses.{AreNoted};
ghost use Rattle.cs_world.specs.Desk.{OnlyGrants, desk_told};
ghost use Rattle.cs_world.specs.Processes.{Parts};
ghost use Rattle.cs_world.specs.Receiving.{received_of};
ghost use Rattle.cs_world.specs.Seats.{AreOut, parts_at, seats_of, state_at};
ghost use Rattle.cs_world.specs.Stands.{IsCounted};
ghost use Rattle.cs_world.specs.Starting.{StartsAs, boot_entry, start_fault, started_as};

use crate::WorldFault;
use crate::lines::number_line;
use crate::nodes::Nodes;
use crate::tap::Tap;
use cs_core::ViewPool;
use cs_link::{Ground, Link};
use cs_log::{Arming, Log};
use cs_node::{Process, State, Stopped, Why, boot, boot_leader};
use cs_packet::Own;
use std::alloc::Global;

/// Starts a node that isn't there, with a link and a log of the desk. It has its seat also where it stopped at once.
pub fn start<D: Ground>(
    nodes: &mut Nodes<Tap<D::Wire>, Arming<D::Store>>,
    desk: &mut D,
    own: &Own,
) -> Result<String, WorldFault>
    requires unused { state_at nodes.old.seats own.now.id ≡ None }
    requires out { AreOut (D.out desk.old) nodes.old.seats }
    ensures nodes { IsLedBy (own.now.id == own.now.leader) own.now
        → OnOk result ((parts : Parts) × StartsAs own.now parts × ((id : ℕ)
        → parts_at ⟦<Tap<D::Wire> as Link>⟧ ⟦<Arming<D::Store> as Log>⟧ nodes.new.seats id
        ≡ if own.now.id == id then Some parts
        else parts_at ⟦<Tap<D::Wire> as Link>⟧ ⟦<Arming<D::Store> as Log>⟧ nodes.old.seats id)) }
    ensures formed { IsLedBy (own.now.id == own.now.leader) own.now → IsEntry (boot_entry own.now) }
    ensures addresses { OnOk result (AreNoted own.now.id own.now.addr nodes.old.addresses nodes.new.addresses) }
    ensures leader { nodes.new.leader ≡ nodes.old.leader }
    ensures traffic { nodes.new.traffic ≡ nodes.old.traffic }
    ensures text { IfOk result (λ text. string_bytes text ≡ ended (codes "up " ++ decimal own.now.id)) }
    ensures unlimited { ¬ (result ≡ Err WorldFault.Limit) }
    ensures counted { IfErr result (IsCounted (HasRisen (D.faults desk.old) (D.faults desk.new))
        (seats_of ⟦<Tap<D::Wire> as Link>⟧ ⟦<Arming<D::Store> as Log>⟧ nodes.new.seats)) }
    ensures received { received_of (seats_of ⟦<Tap<D::Wire> as Link>⟧ ⟦<Arming<D::Store> as Log>⟧ nodes.new.seats)
        ≡ received_of (seats_of ⟦<Tap<D::Wire> as Link>⟧ ⟦<Arming<D::Store> as Log>⟧ nodes.old.seats) }
    ensures stay { (id : ℕ) → IsSome (state_at nodes.old.seats id) → IsSome (state_at nodes.new.seats id) }
    ensures out { AreOut (D.out desk.new) nodes.new.seats }
    ensures desk { OnlyGrants (desk_told D.Ground desk.old) (desk_told D.Ground desk.new) }
{
    // The ids, the addresses and the point tell their ranges where they are read.
    let _member = own.member();
    let _leader = own.leader.get();
    let _ip = own.leader_addr.ip();
    let alloc = nodes.alloc;
    nodes.make_room(own.id, own.addr)?;
    let (wire, store) = desk.grant(own.id, own.addr)?;
    let state = booted(
        alloc,
        &nodes.pool,
        own,
        Tap::new(alloc, wire),
        Arming::new(store),
    );
    let fault = fault_of(&state);
    nodes.seats.push(own.id, Process::of(alloc, state));
    match fault {
        Some(fault) => Err(fault),
        None => number_line(alloc, "up", u64::from(own.id.get())),
    }
}

// The leader, or another node, at its start; or stopped, where its first entry couldn't be kept.
fn booted<L: Link, G: Log>(
    alloc: Global,
    pool: &ViewPool,
    own: &Own,
    link: L,
    log: G,
) -> State<L, G>
    requires empty { IsNothing (G.bytes log) }
    ensures link { link_of result ≡ link }
    ensures node { IsLedBy (own.now.id == own.now.leader) own.now
        → IfOk (status_of result) (λ node. node ≡ started_as own.now) }
    ensures kept { IsLedBy (own.now.id == own.now.leader) own.now → OnOk (status_of result)
        (Keeps (entry_frame (boot_entry own.now)) (log_told G.Log log) (log_told G.Log (log_of result))) }
    ensures stopped { IfErr (status_of result) (λ why. (entry : Entry)
        × HasNotBooted entry why (log_told G.Log log) (log_told G.Log (log_of result))) }
{
    if own.id == own.leader {
        match boot_leader(alloc, own.member(), link, log) {
            Ok(node) => State::Leading(node),
            Err(stopped) => State::Stopped(stopped),
        }
    } else {
        match boot(alloc, *own, link, log) {
            Ok(node) => State::Joining(node.sharing(pool.share())),
            Err(stopped) => State::Stopped(stopped),
        }
    }
}

// Why a node stopped at its start.
fn fault_of<L: Link, G: Log>(state: &State<L, G>) -> Option<WorldFault>
    ensures { result ≡ start_fault (status_of state.now) }
{
    match state {
        State::Stopped(Stopped { why: Why::Log, .. }) => Some(WorldFault::Log),
        State::Stopped(_) => Some(WorldFault::Memory),
        _ => None,
    }
}
