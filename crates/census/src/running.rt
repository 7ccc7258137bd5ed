//! The top call: from the words of the program, and the bytes of a schedule, to the bytes that it writes.

ghost use Rattle.std.specs.Prelude.{◌≡◌, ◌==◌, ◌↔◌, ◌+◌, ◌≤◌, ◌<◌, [], length};
ghost use Rattle.std.specs.Prelude.{◌⊎◌, ℕ, Some, IfErr, OnOk, All, IfSome, IsSome};
ghost use Rattle.cs_base.specs.Limits.{most_text};
ghost use Rattle.census.specs.Restarts.{RestartsAreTold, TellsRestarts};
ghost use Rattle.census.specs.Text.{counted_lines, lines_of};
ghost use Rattle.cs_log.specs.Faults.{HasRisen};
ghost use Rattle.census.specs.Streams.{Writes, TakesAtMost};
ghost use Rattle.cs_show.specs.Agreement.{BlocksAgree, EpochsNeverFall, blocks_of};
ghost use Rattle.cs_show.specs.PrintedTrees.{TreesAreGood};
ghost use Rattle.cs_world.specs.Desk.{OnlyGrants, desk_told};
ghost use Rattle.cs_world.specs.Seats.{AreOut, link_faults_of, log_faults_of, seats_of};
ghost use Rattle.census.specs.Commands.{IsAsked, IsLive};
ghost use Rattle.census.specs.Drilled.{drilled};
ghost use Rattle.census.specs.Lived.{FieldRose, WritesLife};
ghost use Rattle.census.specs.Standing.{StandsFor, nodes_in};
ghost use Rattle.census.specs.Systems.{Many, System as Machine, begun};
ghost use Rattle.census.specs.Run.{EndsAsRead, EndsIn, EndsNear, IsDrillEnd, IsTextStop};
ghost use Rattle.census.specs.Run.{LinesEndIn, SourceIsTold, TellsEnded, TellsLogs, TellsTraffic, WritesSummary};
ghost use Rattle.census.specs.Run.{WritesOfLines, WritesTranscript, status_in};
ghost use Rattle.census.specs.Transcript.{last_system};

use crate::command::Command;
use crate::drilling::drill;
use crate::form::Form;
use crate::lines::Lines;
use crate::live_run::live;
use crate::sink::Sink;
use crate::source::Source;
use crate::status::Status;
use crate::teller::Teller;
use crate::words::Words;
use cs_link::{Ground, Link};
use cs_log::{Arming, Log};
use cs_world::Tap;
use std::alloc::Global;

/// Runs what the words ask for: `replay` reads a schedule and runs all its nodes, and `node` runs one node over the
/// bytes that it receives. Both write a transcript. `drill N SEED` runs a generated schedule, and writes a summary.
/// Each node that is started gets its link and its log from the desk. `live N PORT` runs nodes over the links of the
/// field by a plan, and tells it with what they receive. The status says why the run ended.
pub fn run<S: Source, K: Sink, D: Ground, F: Ground>(
    alloc: Global,
    words: &Words,
    source: &mut S,
    sink: &mut K,
    desk: &mut D,
    field: &mut F,
) -> Status
    requires desk { D.out desk.old ≡ [] }
    requires field { F.out field.old ≡ [] }
    ensures usage { (result ≡ Status.Usage) ↔ ((command : Command) → ¬ IsAsked words.now command) }
    ensures untouched { result ≡ Status.Usage
        → (source.new ≡ source.old) × (sink.new ≡ sink.old) × (desk.new ≡ desk.old) × (field.new ≡ field.old) }

    // Where the source tells what it has left, the status and the bytes are those of this text under the form. Where
    // the sink tells, these bytes and no others were written in the call. A node that a line brings back is what its
    // log has; so this is promised where the desk tells its logs, or where no line that counts brings a node back.
    ensures transcript { (form : Form) → IsAsked words.now (Command.Tell form)
        → TellsRestarts (D.logs desk.old) (S.left source.old) → IfSome (S.left source.old)
        (λ text. WritesTranscript form result text (K.written sink.old) (K.written sink.new)) }
    // Where reading failed, exactly those lines are told that had ended within what was read.
    ensures ended { (form : Form) → IsAsked words.now (Command.Tell form)
        → TellsRestarts (D.logs desk.old) (S.left source.old) → result ≡ Status.Read → IfSome (S.left source.old)
        (λ text. TellsEnded (begun form) text (S.left source.new) (K.written sink.old) (K.written sink.new)) }
    // Where a line with a fault, or an event beyond a limit, ended the run, at most a piece behind this line was read.
    ensures near { (form : Form) → IsAsked words.now (Command.Tell form)
        → TellsRestarts (D.logs desk.old) (S.left source.old) → IfSome (S.left source.old)
        (λ text. EndsNear (begun form) text (S.left source.new) result) }
    // Over any desk: at the end of the text each line says an event, and at a line outside the grammar there is one.
    ensures lines { (form : Form) → IsAsked words.now (Command.Tell form)
        → IfSome (S.left source.old) (EndsAsRead result) }
    ensures taken { TakesAtMost (most_text + 1) (S.left source.old) (S.left source.new) }
    ensures done { (form : Form) → IsAsked words.now (Command.Tell form)
        → result ≡ Status.Done → IfSome (S.left source.old) (λ text. S.left source.new ≡ Some []) }

    // Under the same premise, of the whole blocks that a replay writes any two of one epoch agree, the epochs of one
    // node's never fall, and the local trees of each are good.
    ensures agree { IsAsked words.now (Command.Tell Form.Replay)
        → TellsRestarts (D.logs desk.old) (S.left source.old)
        → Writes BlocksAgree (K.written sink.old) (K.written sink.new) }
    ensures epochs { IsAsked words.now (Command.Tell Form.Replay)
        → TellsRestarts (D.logs desk.old) (S.left source.old)
        → Writes EpochsNeverFall (K.written sink.old) (K.written sink.new) }
    ensures trees { IsAsked words.now (Command.Tell Form.Replay)
        → TellsRestarts (D.logs desk.old) (S.left source.old)
        → Writes (λ text. All TreesAreGood (blocks_of text)) (K.written sink.old) (K.written sink.new) }

    // Where the desk tells its logs, they are at last those of the system behind the text's lines. Where it tells its
    // traffic, so is that, if it tells its logs too or no line that counts brings a node back.
    ensures logs { (form : Form) → IsAsked words.now (Command.Tell form)
        → (result ≡ Status.Done) ⊎ (result ≡ Status.Script) → IfSome (S.left source.old)
        (λ text. TellsLogs (D.logs desk.old) (D.logs desk.new) (last_system form text)) }
    ensures traffic { (form : Form) → IsAsked words.now (Command.Tell form)
        → TellsRestarts (D.logs desk.old) (S.left source.old)
        → (result ≡ Status.Done) ⊎ (result ≡ Status.Script) → IfSome (S.left source.old)
        (λ text. TellsTraffic (D.traffic desk.old) (D.traffic desk.new) (last_system form text)) }
    ensures handed_back { D.out desk.new ≡ [] }

    // A drill writes the summary of the world behind its schedule, where the desk tells its logs, and reads nothing.
    // The desk's logs and traffic are those of this world.
    ensures summary { (nodes seed : ℕ) → IsAsked words.now (Command.Drill nodes seed) → IsSome (D.logs desk.old)
        → WritesSummary result nodes seed (K.written sink.old) (K.written sink.new) }
    ensures drill_end { (nodes seed : ℕ) → IsAsked words.now (Command.Drill nodes seed)
        → IsDrillEnd result (sink.new ≡ sink.old) }
    ensures drill_logs { (nodes seed : ℕ) → IsAsked words.now (Command.Drill nodes seed) → result ≡ Status.Done
        → TellsLogs (D.logs desk.old) (D.logs desk.new) (Many (drilled nodes seed)) }
    ensures drill_traffic { (nodes seed : ℕ) → IsAsked words.now (Command.Drill nodes seed) → result ≡ Status.Done
        → IsSome (D.logs desk.old)
        → TellsTraffic (D.traffic desk.old) (D.traffic desk.new) (Many (drilled nodes seed)) }
    ensures unread { (nodes seed : ℕ) → IsAsked words.now (Command.Drill nodes seed) → source.new ≡ source.old }

    // A live run tells the events of its plan, and in the places of its polls those of the datagrams that came, over
    // any field: its links need tell nothing. Just so many datagrams were received, and for each poll in which fewer
    // came than it has passes, nothing was waiting at least as often as there are nodes, all links together. At other
    // ends a front of such events is told. It reads nothing, and leaves the desk alone, and every other form leaves the
    // field alone.
    ensures life { (nodes port : ℕ) → IsAsked words.now (Command.Live nodes port)
        → WritesLife result nodes port (K.written sink.old) (K.written sink.new)
        (FieldRose (desk_told F.Ground field.old) (desk_told F.Ground field.new)) }
    ensures life_agree { IsLive words.now → Writes BlocksAgree (K.written sink.old) (K.written sink.new) }
    ensures life_epochs { IsLive words.now → Writes EpochsNeverFall (K.written sink.old) (K.written sink.new) }
    ensures life_trees { IsLive words.now
        → Writes (λ text. All TreesAreGood (blocks_of text)) (K.written sink.old) (K.written sink.new) }
    ensures life_alone { IsLive words.now → (source.new ≡ source.old) × (desk.new ≡ desk.old) }
    ensures field_alone { ¬ IsLive words.now → field.new ≡ field.old }
    ensures field_handed_back { F.out field.new ≡ [] }

    // A failure is claimed only where the source, the sink, the desk or the field counted one in this call, or where
    // its count is at its last value. Desk and field count a link or a log that failed as they take it back.
    ensures read { result ≡ Status.Read → HasRisen (S.faults source.old) (S.faults source.new) }
    ensures write { result ≡ Status.Write → HasRisen (K.faults sink.old) (K.faults sink.new) }
    ensures link { ¬ IsLive words.now → result ≡ Status.Link → HasRisen (D.faults desk.old) (D.faults desk.new)
        ⊎ HasRisen (D.link_faults desk.old) (D.link_faults desk.new) }
    ensures log { ¬ IsLive words.now → result ≡ Status.Log
        → HasRisen (D.log_faults desk.old) (D.log_faults desk.new) }
    ensures life_link { IsLive words.now → result ≡ Status.Link → HasRisen (F.faults field.old) (F.faults field.new)
        ⊎ HasRisen (F.link_faults field.old) (F.link_faults field.new) }
    ensures life_log { IsLive words.now → result ≡ Status.Log
        → HasRisen (F.log_faults field.old) (F.log_faults field.new) }
    ensures counts { (S.faults source.old ≤ S.faults source.new) × (K.faults sink.old ≤ K.faults sink.new) }
    ensures desk_counts { (D.faults desk.old ≤ D.faults desk.new)
        × (D.link_faults desk.old ≤ D.link_faults desk.new) × (D.log_faults desk.old ≤ D.log_faults desk.new) }
    ensures field_counts { (F.faults field.old ≤ F.faults field.new)
        × (F.link_faults field.old ≤ F.link_faults field.new) × (F.log_faults field.old ≤ F.log_faults field.new) }
{
    let form = match words.command() {
        None => return Status::Usage,
        Some(Command::Drill { nodes, seed }) => return drill(alloc, nodes, seed, sink, desk),
        Some(Command::Live { nodes, port }) => return live(alloc, nodes, port, sink, field),
        Some(Command::Tell(form)) => form,
    };
    match tell_source(alloc, form, source, sink, desk) {
        Ok(()) => Status::Done,
        Err(status) => status,
    }
}

// Writes the transcript of what the source has left, and hands every link and log back.
fn tell_source<S: Source, K: Sink, D: Ground>(
    alloc: Global,
    form: Form,
    source: &mut S,
    sink: &mut K,
    desk: &mut D,
) -> Result<(), Status>
    requires { D.out desk.old ≡ [] }
    ensures told { IfSome (S.left source.old) (λ text. RestartsAreTold (D.logs desk.old) (counted_lines text)
        → SourceIsTold (begun form) text (S.left source.new) (K.written sink.old) (K.written sink.new) result) }
    ensures wrote { TellsRestarts (D.logs desk.old) (S.left source.old)
        → WritesOfLines (begun form) (K.written sink.old) (K.written sink.new) }
    ensures near { IfSome (S.left source.old) (λ text. RestartsAreTold (D.logs desk.old) (counted_lines text)
        → EndsNear (begun form) text (S.left source.new) (status_in result)) }
    ensures read { IfSome (S.left source.old) (EndsAsRead (status_in result)) }
    ensures logs { IfSome (S.left source.old) (λ text. LinesEndIn (begun form)
        (TellsLogs (D.logs desk.old) (D.logs desk.new)) (lines_of text) result) }
    ensures traffic { IfSome (S.left source.old) (λ text. RestartsAreTold (D.logs desk.old) (counted_lines text)
        → LinesEndIn (begun form) (TellsTraffic (D.traffic desk.old) (D.traffic desk.new)) (lines_of text) result) }
    ensures spent { OnOk result (IfSome (S.left source.old) (λ text. S.left source.new ≡ Some [])) }
    ensures taken { TakesAtMost (most_text + 1) (S.left source.old) (S.left source.new) }
    ensures handed_back { D.out desk.new ≡ [] }
    ensures counts { (S.faults source.old ≤ S.faults source.new) × (K.faults sink.old ≤ K.faults sink.new) }
    ensures desk_counts { (D.faults desk.old ≤ D.faults desk.new)
        × (D.link_faults desk.old ≤ D.link_faults desk.new) × (D.log_faults desk.old ≤ D.log_faults desk.new) }
    ensures stop { IfErr result (IsTextStop (HasRisen (S.faults source.old) (S.faults source.new))
        (HasRisen (K.faults sink.old) (K.faults sink.new))
        (HasRisen (D.faults desk.old) (D.faults desk.new)
        ⊎ HasRisen (D.link_faults desk.old) (D.link_faults desk.new))
        (HasRisen (D.log_faults desk.old) (D.log_faults desk.new))) }
{
    let mut teller = Teller::new(alloc, form);
    let told = tell_lines(alloc, &mut teller, source, desk, sink);
    teller.finish(desk);
    told
}

// Tells the lines of a source by a teller that told none before, each before more is read than its piece.
fn tell_lines<S: Source, K: Sink, D: Ground>(
    alloc: Global,
    teller: &mut Teller<D>,
    source: &mut S,
    desk: &mut D,
    sink: &mut K,
) -> Result<(), Status>
    requires number { teller.old.counts.number ≡ 1 }
    requires written { teller.old.counts.written ≡ 0 }
    requires out { AreOut (D.out desk.old) (nodes_in teller.old.system).seats }
    ensures told { (machine : Machine)
        → StandsFor ⟦<Tap<D::Wire> as Link>⟧ ⟦<Arming<D::Store> as Log>⟧ teller.old.system machine
        → IfSome (S.left source.old) (λ text. RestartsAreTold (D.logs desk.old) (counted_lines text)
        → SourceIsTold machine text (S.left source.new) (K.written sink.old) (K.written sink.new) result) }
    ensures wrote { (machine : Machine)
        → StandsFor ⟦<Tap<D::Wire> as Link>⟧ ⟦<Arming<D::Store> as Log>⟧ teller.old.system machine
        → TellsRestarts (D.logs desk.old) (S.left source.old)
        → WritesOfLines machine (K.written sink.old) (K.written sink.new) }
    ensures near { (machine : Machine)
        → StandsFor ⟦<Tap<D::Wire> as Link>⟧ ⟦<Arming<D::Store> as Log>⟧ teller.old.system machine
        → IfSome (S.left source.old) (λ text. RestartsAreTold (D.logs desk.old) (counted_lines text)
        → EndsNear machine text (S.left source.new) (status_in result)) }
    ensures read { IfSome (S.left source.old) (EndsAsRead (status_in result)) }
    ensures last { (machine : Machine)
        → StandsFor ⟦<Tap<D::Wire> as Link>⟧ ⟦<Arming<D::Store> as Log>⟧ teller.old.system machine
        → IfSome (S.left source.old) (λ text. RestartsAreTold (D.logs desk.old) (counted_lines text)
        → LinesEndIn machine (StandsFor ⟦<Tap<D::Wire> as Link>⟧ ⟦<Arming<D::Store> as Log>⟧ teller.new.system)
        (lines_of text) result) }
    ensures spent { OnOk result (IfSome (S.left source.old) (λ text. S.left source.new ≡ Some [])) }
    ensures taken { TakesAtMost (most_text + 1) (S.left source.old) (S.left source.new) }
    ensures counts { (S.faults source.old ≤ S.faults source.new) × (K.faults sink.old ≤ K.faults sink.new) }
    ensures stop { IfErr result (IsTextStop (HasRisen (S.faults source.old) (S.faults source.new))
        (HasRisen (K.faults sink.old) (K.faults sink.new))
        (HasRisen (D.faults desk.old) (D.faults desk.new) ⊎ (0 < link_faults_of
        (seats_of ⟦<Tap<D::Wire> as Link>⟧ ⟦<Arming<D::Store> as Log>⟧ (nodes_in teller.new.system).seats)))
        (0 < log_faults_of
        (seats_of ⟦<Tap<D::Wire> as Link>⟧ ⟦<Arming<D::Store> as Log>⟧ (nodes_in teller.new.system).seats))) }
    ensures out { AreOut (D.out desk.new) (nodes_in teller.new.system).seats }
    ensures desk { OnlyGrants (desk_told D.Ground desk.old) (desk_told D.Ground desk.new) }
{
    let mut lines = Lines::new(alloc);
    while lines.advance(source)? {
        teller.tell(desk, lines.line(), sink)?;
    }
    // The last line may have no LF.
    if lines.rest().is_empty() {
        return Ok(());
    }
    teller.tell(desk, lines.rest(), sink)
}
