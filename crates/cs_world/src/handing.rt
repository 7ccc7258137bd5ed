//! Links and logs are handed back.

ghost use Rattle.std.specs.Prelude.{◌≡◌, ◌<◌, [], length, IfSome, IsSomeAnd};
ghost use Rattle.cs_link.specs.Counts.{RisesWith, counted};
ghost use Rattle.cs_world.specs.Desk.{AreKept};
ghost use Rattle.cs_world.specs.Receiving.{dry_of, taken_of};
ghost use Rattle.cs_world.specs.Seats.{AreOut, link_faults_of, log_faults_of, seats_of};

use crate::seat::Seat;
use crate::seats::Seats;
use crate::tap::Tap;
use cs_link::{Ground, Link};
use cs_log::{Arming, Log};
use cs_node::Process;

/// Hands the link and the log of each seat back to the desk.
pub fn hand_back<D: Ground>(seats: Seats<Process<Tap<D::Wire>, Arming<D::Store>>>, desk: &mut D)
    requires { AreOut (D.out desk.old) seats }
    ensures out { D.out desk.new ≡ [] }
    ensures logs { IfSome (D.logs desk.old) (λ before. IsSomeAnd (D.logs desk.new)
        (AreKept (λ seat. seat.parts.log.bytes)
        (seats_of ⟦<Tap<D::Wire> as Link>⟧ ⟦<Arming<D::Store> as Log>⟧ seats))) }
    ensures traffic { IfSome (D.traffic desk.old) (λ before. IsSomeAnd (D.traffic desk.new)
        (AreKept (λ seat. seat.parts.link.sent)
        (seats_of ⟦<Tap<D::Wire> as Link>⟧ ⟦<Arming<D::Store> as Log>⟧ seats))) }
    ensures faults { D.faults desk.new ≡ D.faults desk.old }
    ensures link_faults { RisesWith
        (link_faults_of (seats_of ⟦<Tap<D::Wire> as Link>⟧ ⟦<Arming<D::Store> as Log>⟧ seats))
        (D.link_faults desk.old) (D.link_faults desk.new) }
    ensures log_faults { RisesWith
        (log_faults_of (seats_of ⟦<Tap<D::Wire> as Link>⟧ ⟦<Arming<D::Store> as Log>⟧ seats))
        (D.log_faults desk.old) (D.log_faults desk.new) }
    ensures taken { 0 < length seats.items.items → D.taken desk.new ≡ counted (D.taken desk.old)
        (taken_of (seats_of ⟦<Tap<D::Wire> as Link>⟧ ⟦<Arming<D::Store> as Log>⟧ seats)) }
    ensures dry { 0 < length seats.items.items → D.dry desk.new ≡ counted (D.dry desk.old)
        (dry_of (seats_of ⟦<Tap<D::Wire> as Link>⟧ ⟦<Arming<D::Store> as Log>⟧ seats)) }
    ensures idle { seats.items.items ≡ [] → (D.taken desk.new ≡ D.taken desk.old) × (D.dry desk.new ≡ D.dry desk.old) }
{
    let Seats {
        mut items,
        places: _,
    } = seats;
    while let Some(Seat { id, state }) = items.pop() {
        let (tap, log) = state.stop();
        desk.keep(id, tap.into_inner(), log.into_inner());
    }
    items.destroy_empty();
}
