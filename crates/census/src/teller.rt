//! Tells the lines of a schedule, one after the other.

ghost use Rattle.std.specs.Prelude.{◌≡◌, ◌+◌, ◌≤◌, ◌<◌, IfOk, IfErr};
ghost use Rattle.cs_base.specs.Limits.{most_output};
ghost use Rattle.census.specs.Text.{most_lines};

use crate::form::Form;
use crate::output::{fault_line, line_text, write_all};
use crate::sink::Sink;
use crate::status::Status;
use crate::system::System;
use cs_base::MOST_OUTPUT;
use cs_link::{Ground, Link};
use cs_log::{Arming, Log};
use cs_script::{Event, LineFault, read_line};
use cs_world::Tap;
use std::alloc::Global;

/// Lines of a schedule.
const MOST_LINES: usize = 100_000;

/// The number of the next line, and how many bytes are written.
#[derive(Drop)]
pub struct Counts {
    number: usize,
    written: usize,
    ghost counted: { number ≤ most_lines + 1 },
    ghost few: { written ≤ most_output },
}

/// The system to which the lines that were told happened, and how far they go.
// Linear, since the system is: `finish` alone ends it.
pub struct Teller<D: Ground> {
    alloc: Global,
    system: System<D>,
    counts: Counts,
}

impl<D: Ground> Teller<D> {
    ghost use Rattle.std.specs.Prelude.{◌⊎◌, [], ◌∷◌, true, Ok, Err, OnOk};
    ghost use Rattle.cs_link.specs.Counts.{RisesWith};
    ghost use Rattle.cs_log.specs.Faults.{HasRisen};
    ghost use Rattle.cs_script.specs.Event.{IsEvent};
    ghost use Rattle.cs_world.specs.Desk.{OnlyGrants, desk_told};
    ghost use Rattle.cs_world.specs.Seats.{AreOut, link_faults_of, log_faults_of, seats_of};
    ghost use Rattle.census.specs.Restarts.{RestartIsTold, RestartsAreTold};
    ghost use Rattle.census.specs.Run.{IsEventStop, IsLineStop, LineIsRead, LineIsTold, StandsBehind, TellsLogs};
    ghost use Rattle.census.specs.Run.{TellsTraffic, counted_from, event_passes};
    ghost use Rattle.census.specs.Standing.{StandsFor, nodes_in};
    ghost use Rattle.census.specs.Systems.{System as Machine, begun, happens_in};
    ghost use Rattle.census.specs.Transcript.{output};

    /// No line was told.
    pub fn new(alloc: Global, form: Form) -> Self
        ensures stands { StandsFor ⟦<Tap<D::Wire> as Link>⟧ ⟦<Arming<D::Store> as Log>⟧ result.system (begun form) }
        ensures seats { (nodes_in result.system).seats.items.items ≡ [] }
        ensures number { result.counts.number ≡ 1 }
        ensures written { result.counts.written ≡ 0 }
    {
        Teller {
            alloc,
            system: System::new(alloc, form),
            counts: Counts {
                number: 1,
                written: 0,
            },
        }
    }

    /// Tells the next line: the line again, its answer and its packets, or its fault. After an error the teller can
    /// only be finished.
    pub fn tell<K: Sink>(&mut self, desk: &mut D, line: &[u8], sink: &mut K) -> Result<(), Status>
        requires out { AreOut (D.out desk.old) (nodes_in self.old.system).seats }
        ensures told { (machine : Machine)
            → StandsFor ⟦<Tap<D::Wire> as Link>⟧ ⟦<Arming<D::Store> as Log>⟧ self.old.system machine
            → RestartsAreTold (D.logs desk.old) (counted_from self.old.counts.number (line.now ∷ []))
            → LineIsTold (StandsFor ⟦<Tap<D::Wire> as Link>⟧ ⟦<Arming<D::Store> as Log>⟧ self.new.system)
            self.old.counts self.new.counts machine line.now (K.written sink.old) (K.written sink.new) result }
        ensures read { LineIsRead self.old.counts.number self.new.counts.number line.now result }
        ensures counts { K.faults sink.old ≤ K.faults sink.new }
        ensures stop { IfErr result (IsLineStop (HasRisen (K.faults sink.old) (K.faults sink.new))
            (HasRisen (D.faults desk.old) (D.faults desk.new) ⊎ (0 < link_faults_of
            (seats_of ⟦<Tap<D::Wire> as Link>⟧ ⟦<Arming<D::Store> as Log>⟧ (nodes_in self.new.system).seats)))
            (0 < log_faults_of
            (seats_of ⟦<Tap<D::Wire> as Link>⟧ ⟦<Arming<D::Store> as Log>⟧ (nodes_in self.new.system).seats))) }
        ensures out { AreOut (D.out desk.new) (nodes_in self.new.system).seats }
        ensures desk { OnlyGrants (desk_told D.Ground desk.old) (desk_told D.Ground desk.new) }
    {
        if self.counts.number > MOST_LINES {
            return Err(Status::Limit);
        }
        match read_line(self.alloc, line) {
            Err(LineFault::Memory) => Err(Status::Memory),
            Err(fault) => {
                let text = fault_line(self.alloc, self.counts.number, fault)?;
                write_all(sink, text.as_bytes())?;
                Err(Status::Script)
            }
            Ok(event) => {
                let text = self.output(desk, line, &event)?;
                write_all(sink, &text)?;
                self.counts.number += 1;
                Ok(())
            }
        }
    }

    // The line again, and the lines of its event, unless it goes beyond a limit.
    fn output(&mut self, desk: &mut D, line: &[u8], event: &Event) -> Result<Vec<u8>, Status>
        requires out { AreOut (D.out desk.old) (nodes_in self.old.system).seats }
        requires ranges { IsEvent event.now }
        ensures number { self.new.counts.number ≡ self.old.counts.number }
        ensures text { (machine : Machine)
            → StandsFor ⟦<Tap<D::Wire> as Link>⟧ ⟦<Arming<D::Store> as Log>⟧ self.old.system machine
            → RestartIsTold (D.logs desk.old) (Ok event.now)
            → IfOk result (λ text. text.items ≡ output line.now (happens_in machine event.now)) }
        ensures ok { (machine : Machine)
            → StandsFor ⟦<Tap<D::Wire> as Link>⟧ ⟦<Arming<D::Store> as Log>⟧ self.old.system machine
            → RestartIsTold (D.logs desk.old) (Ok event.now)
            → OnOk result (StandsBehind
            (StandsFor ⟦<Tap<D::Wire> as Link>⟧ ⟦<Arming<D::Store> as Log>⟧ self.new.system)
            self.old.counts self.new.counts line.now (happens_in machine event.now)) }
        ensures limit { (machine : Machine)
            → StandsFor ⟦<Tap<D::Wire> as Link>⟧ ⟦<Arming<D::Store> as Log>⟧ self.old.system machine
            → RestartIsTold (D.logs desk.old) (Ok event.now) → result ≡ Err Status.Limit
            → event_passes self.old.counts.written line.now (happens_in machine event.now) ≡ true }
        ensures stop { IfErr result (IsEventStop
            (HasRisen (D.faults desk.old) (D.faults desk.new) ⊎ (0 < link_faults_of
            (seats_of ⟦<Tap<D::Wire> as Link>⟧ ⟦<Arming<D::Store> as Log>⟧ (nodes_in self.new.system).seats)))
            (0 < log_faults_of
            (seats_of ⟦<Tap<D::Wire> as Link>⟧ ⟦<Arming<D::Store> as Log>⟧ (nodes_in self.new.system).seats))) }
        ensures out { AreOut (D.out desk.new) (nodes_in self.new.system).seats }
        ensures desk { OnlyGrants (desk_told D.Ground desk.old) (desk_told D.Ground desk.new) }
    {
        let mut text = line_text(self.alloc, line)?;
        self.system.step(desk, event, &mut text)?;
        self.counts.written = with_output(self.counts.written, text.len())?;
        Ok(text)
    }

    /// Hands every link and log back to the desk.
    pub fn finish(self, desk: &mut D)
        requires { AreOut (D.out desk.old) (nodes_in self.system).seats }
        ensures out { D.out desk.new ≡ [] }
        ensures logs { (machine : Machine)
            → StandsFor ⟦<Tap<D::Wire> as Link>⟧ ⟦<Arming<D::Store> as Log>⟧ self.system machine
            → TellsLogs (D.logs desk.old) (D.logs desk.new) machine }
        ensures traffic { (machine : Machine)
            → StandsFor ⟦<Tap<D::Wire> as Link>⟧ ⟦<Arming<D::Store> as Log>⟧ self.system machine
            → TellsTraffic (D.traffic desk.old) (D.traffic desk.new) machine }
        ensures faults { D.faults desk.new ≡ D.faults desk.old }
        ensures link_faults { RisesWith (link_faults_of
            (seats_of ⟦<Tap<D::Wire> as Link>⟧ ⟦<Arming<D::Store> as Log>⟧ (nodes_in self.system).seats))
            (D.link_faults desk.old) (D.link_faults desk.new) }
        ensures log_faults { RisesWith (log_faults_of
            (seats_of ⟦<Tap<D::Wire> as Link>⟧ ⟦<Arming<D::Store> as Log>⟧ (nodes_in self.system).seats))
            (D.log_faults desk.old) (D.log_faults desk.new) }
    {
        let Teller {
            alloc: _,
            system,
            counts: _,
        } = self;
        system.finish(desk);
    }
}

/// How many bytes are written with so many more, unless a run may not write as many.
pub fn with_output(written: usize, more: usize) -> Result<usize, Status>
    requires { written ≤ most_output }
    ensures sum { IfOk result (λ sum. sum ≡ written + more) }
    ensures few { IfOk result (λ sum. sum ≤ most_output) }
    ensures limit { IfErr result (λ status. (status ≡ Status.Limit) × (most_output < written + more)) }
{
    if more > MOST_OUTPUT - written {
        return Err(Status::Limit);
    }
    Ok(written + more)
}
