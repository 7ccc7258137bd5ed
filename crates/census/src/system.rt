ghost use Rattle.std.specs.Prelude.{◌≡◌, ◌++◌, [], IfErr, OnOk, OnErr};
ghost use Rattle.cs_link.specs.Counts.{RisesWith};
ghost use Rattle.cs_log.specs.Faults.{HasRisen};
ghost use Rattle.cs_script.specs.Event.{IsEvent};
ghost use Rattle.cs_show.specs.Text.{text_of};
ghost use Rattle.cs_world.specs.Desk.{OnlyGrants, desk_told};
ghost use Rattle.cs_world.specs.Seats.{AreOut, link_faults_of, log_faults_of, parts_at, seats_of};
ghost use Rattle.cs_world.specs.Stands.{CanTell, IsCounted};
ghost use Rattle.census.specs.Run.{TellsLogs, TellsTraffic};
ghost use Rattle.census.specs.Standing.{IsLimitIn, StandsFor, nodes_in};
ghost use Rattle.census.specs.Systems.{System as Machine, begun, happens_in};

use crate::form::Form;
use cs_link::{Ground, Link};
use cs_log::{Arming, Log};
use cs_script::Event;
use cs_world::{Single, Tap, World, WorldFault};
use std::alloc::Global;

/// What the lines of a form happen to: a world of nodes, or one node alone.
// Linear, since both are: `finish` alone ends it.
pub enum System<D: Ground> {
    World(World<D>),
    Single(Single<D>),
}

impl<D: Ground> System<D> {
    /// That of a form, in which nothing has happened.
    pub fn new(alloc: Global, form: Form) -> Self
        ensures stands { StandsFor ⟦<Tap<D::Wire> as Link>⟧ ⟦<Arming<D::Store> as Log>⟧ result (begun form) }
        ensures items { (nodes_in result).seats.items.items ≡ [] }
    {
        match form {
            Form::Replay => System::World(World::replaying(alloc)),
            Form::Node => System::Single(Single::new(alloc)),
        }
    }

    /// Appends the lines of an event. After an error the bytes are as before, and the system can only be finished.
    pub fn step(&mut self, desk: &mut D, event: &Event, out: &mut Vec<u8>) -> Result<(), WorldFault>
        requires ranges { IsEvent event.now }
        requires out { AreOut (D.out desk.old) (nodes_in self.old).seats }
        ensures text { (machine : Machine)
            → StandsFor ⟦<Tap<D::Wire> as Link>⟧ ⟦<Arming<D::Store> as Log>⟧ self.old machine
            → CanTell event.now (parts_at ⟦<Tap<D::Wire> as Link>⟧ ⟦<Arming<D::Store> as Log>⟧
            (nodes_in self.old).seats)
            → OnOk result (out.new.items ≡ out.old.items ++ text_of (happens_in machine event.now).lines) }
        ensures stands { (machine : Machine)
            → StandsFor ⟦<Tap<D::Wire> as Link>⟧ ⟦<Arming<D::Store> as Log>⟧ self.old machine
            → CanTell event.now (parts_at ⟦<Tap<D::Wire> as Link>⟧ ⟦<Arming<D::Store> as Log>⟧
            (nodes_in self.old).seats)
            → OnOk result (StandsFor ⟦<Tap<D::Wire> as Link>⟧ ⟦<Arming<D::Store> as Log>⟧ self.new
            (happens_in machine event.now).system) }
        ensures limit { (machine : Machine)
            → StandsFor ⟦<Tap<D::Wire> as Link>⟧ ⟦<Arming<D::Store> as Log>⟧ self.old machine
            → CanTell event.now (parts_at ⟦<Tap<D::Wire> as Link>⟧ ⟦<Arming<D::Store> as Log>⟧
            (nodes_in self.old).seats)
            → IfErr result (IsLimitIn (happens_in machine event.now).system) }
        ensures counted { IfErr result (IsCounted (HasRisen (D.faults desk.old) (D.faults desk.new))
            (seats_of ⟦<Tap<D::Wire> as Link>⟧ ⟦<Arming<D::Store> as Log>⟧ (nodes_in self.new).seats)) }
        ensures err { OnErr result (out.new.items ≡ out.old.items) }
        ensures out { AreOut (D.out desk.new) (nodes_in self.new).seats }
        ensures desk { OnlyGrants (desk_told D.Ground desk.old) (desk_told D.Ground desk.new) }
    {
        match self {
            System::World(world) => world.step(desk, event, out),
            System::Single(single) => single.step(desk, event, out),
        }
    }

    /// Hands every link and log back to the desk. This takes no memory.
    pub fn finish(self, desk: &mut D)
        requires { AreOut (D.out desk.old) (nodes_in self).seats }
        ensures out { D.out desk.new ≡ [] }
        ensures logs { (machine : Machine)
            → StandsFor ⟦<Tap<D::Wire> as Link>⟧ ⟦<Arming<D::Store> as Log>⟧ self machine
            → TellsLogs (D.logs desk.old) (D.logs desk.new) machine }
        ensures traffic { (machine : Machine)
            → StandsFor ⟦<Tap<D::Wire> as Link>⟧ ⟦<Arming<D::Store> as Log>⟧ self machine
            → TellsTraffic (D.traffic desk.old) (D.traffic desk.new) machine }
        ensures faults { D.faults desk.new ≡ D.faults desk.old }
        ensures link_faults { RisesWith (link_faults_of
            (seats_of ⟦<Tap<D::Wire> as Link>⟧ ⟦<Arming<D::Store> as Log>⟧ (nodes_in self).seats))
            (D.link_faults desk.old) (D.link_faults desk.new) }
        ensures log_faults { RisesWith (log_faults_of
            (seats_of ⟦<Tap<D::Wire> as Link>⟧ ⟦<Arming<D::Store> as Log>⟧ (nodes_in self).seats))
            (D.log_faults desk.old) (D.log_faults desk.new) }
    {
        match self {
            System::World(world) => world.finish(desk),
            System::Single(single) => single.finish(desk),
        }
    }
}
