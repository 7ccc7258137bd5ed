//! One node alone, over a link and a log of a desk, and the bytes that it receives.

ghost use Rattle.std.specs.Prelude.{◌≡◌, ◌==◌, ◌++◌, [], ℕ, None, true, false, IsSome, IsSomeAnd, MatchOption};
ghost use Rattle.std.specs.Prelude.{IfErr, IfSome, OnErr, OnOk};
ghost use Rattle.cs_base.specs.Ranges.{IsMember};
ghost use Rattle.cs_link.specs.Counts.{RisesWith};
ghost use Rattle.cs_log.specs.Faults.{HasRisen};
ghost use Rattle.cs_script.specs.Event.{IsEvent};
ghost use Rattle.cs_script.specs.declared.event.Event.TheVariants as events;
ghost use Rattle.cs_show.specs.Text.{text_of};
ghost use Rattle.cs_world.specs.Alone.{Alone, nobody};
ghost use Rattle.cs_world.specs.AloneEvents.{happens_alone};
ghost use Rattle.cs_world.specs.AloneStands.{AnswersSingle, AnswersSingleBytes, IsAlone, IsLimitAlone, IsLogAlone};
ghost use Rattle.cs_world.specs.AloneStands.{IsTrafficAlone};
ghost use Rattle.cs_world.specs.Desk.{OnlyGrants, desk_told};
ghost use Rattle.cs_world.specs.Events.{action_for};
ghost use Rattle.cs_world.specs.Seats.{AreOut, ids_of, link_faults_of, log_faults_of, parts_at, seats_of, state_at};
ghost use Rattle.cs_world.specs.Stands.{CanTell, IsCounted};

use crate::WorldFault;
use crate::action::Action;
use crate::action_of::action_of;
use crate::call::Call;
use crate::handing::hand_back;
use crate::home::Home;
use crate::launch::start;
use crate::lines::{line, number_line};
use crate::nodes::Nodes;
use crate::tap::Tap;
use crate::telling::Telling;
use cs_base::{Addr, Member, Mode, NodeId};
use cs_link::{Ground, Link};
use cs_log::{Arming, Log};
use cs_script::{Event, Line};
use std::alloc::Global;

/// The one node of the form `node`, and who leads, as a line said it.
// Linear: `finish` alone ends it, and hands the link and the log back.
pub struct Single<D: Ground> {
    home: Option<Home>,
    nodes: Nodes<Tap<D::Wire>, Arming<D::Store>>,
}

impl<D: Ground> Single<D> {
    /// No node was started, and nobody said who leads.
    pub fn new(alloc: Global) -> Self
        ensures alone { IsAlone ⟦<Tap<D::Wire> as Link>⟧ ⟦<Arming<D::Store> as Log>⟧
            result.home result.nodes nobody }
        ensures items { result.nodes.seats.items.items ≡ [] }
    {
        Single {
            home: None,
            nodes: Nodes::new(alloc),
        }
    }

    /// Appends the lines of an event. After an error the bytes are as before, and the node can only be finished.
    pub fn step(&mut self, desk: &mut D, event: &Event, out: &mut Vec<u8>) -> Result<(), WorldFault>
        requires ranges { IsEvent event.now }
        requires out { AreOut (D.out desk.old) self.old.nodes.seats }
        ensures text { (alone : Alone)
            → IsAlone ⟦<Tap<D::Wire> as Link>⟧ ⟦<Arming<D::Store> as Log>⟧
            self.old.home self.old.nodes alone
            → CanTell event.now (parts_at ⟦<Tap<D::Wire> as Link>⟧ ⟦<Arming<D::Store> as Log>⟧ self.old.nodes.seats)
            → OnOk result (out.new.items ≡ out.old.items ++ text_of (happens_alone alone event.now).lines) }
        ensures alone { (alone : Alone)
            → IsAlone ⟦<Tap<D::Wire> as Link>⟧ ⟦<Arming<D::Store> as Log>⟧
            self.old.home self.old.nodes alone
            → CanTell event.now (parts_at ⟦<Tap<D::Wire> as Link>⟧ ⟦<Arming<D::Store> as Log>⟧ self.old.nodes.seats)
            → OnOk result (IsAlone ⟦<Tap<D::Wire> as Link>⟧ ⟦<Arming<D::Store> as Log>⟧
            self.new.home self.new.nodes (happens_alone alone event.now).alone) }
        ensures limit { (alone : Alone)
            → IsAlone ⟦<Tap<D::Wire> as Link>⟧ ⟦<Arming<D::Store> as Log>⟧
            self.old.home self.old.nodes alone
            → CanTell event.now (parts_at ⟦<Tap<D::Wire> as Link>⟧ ⟦<Arming<D::Store> as Log>⟧ self.old.nodes.seats)
            → IfErr result (IsLimitAlone (happens_alone alone event.now).alone) }
        ensures counted { IfErr result (IsCounted (HasRisen (D.faults desk.old) (D.faults desk.new))
            (seats_of ⟦<Tap<D::Wire> as Link>⟧ ⟦<Arming<D::Store> as Log>⟧ self.new.nodes.seats)) }
        ensures err { OnErr result (out.new.items ≡ out.old.items) }
        ensures out { AreOut (D.out desk.new) self.new.nodes.seats }
        ensures desk { OnlyGrants (desk_told D.Ground desk.old) (desk_told D.Ground desk.new) }
    {
        let text = self.answer(desk, event)?;
        out.extend_from_slice(&text)?;
        Ok(())
    }

    // What an event is answered.
    fn answer(&mut self, desk: &mut D, event: &Event) -> Result<Vec<u8>, WorldFault>
        requires ranges { IsEvent event.now }
        requires out { AreOut (D.out desk.old) self.old.nodes.seats }
        ensures answers { (alone : Alone)
            → IsAlone ⟦<Tap<D::Wire> as Link>⟧ ⟦<Arming<D::Store> as Log>⟧
            self.old.home self.old.nodes alone
            → CanTell event.now (parts_at ⟦<Tap<D::Wire> as Link>⟧ ⟦<Arming<D::Store> as Log>⟧ self.old.nodes.seats)
            → AnswersSingleBytes ⟦<Tap<D::Wire> as Link>⟧ ⟦<Arming<D::Store> as Log>⟧ self.new.home
            self.new.nodes (happens_alone alone event.now) result }
        ensures counted { IfErr result (IsCounted (HasRisen (D.faults desk.old) (D.faults desk.new))
            (seats_of ⟦<Tap<D::Wire> as Link>⟧ ⟦<Arming<D::Store> as Log>⟧ self.new.nodes.seats)) }
        ensures out { AreOut (D.out desk.new) self.new.nodes.seats }
        ensures desk { OnlyGrants (desk_told D.Ground desk.old) (desk_told D.Ground desk.new) }
    {
        let text = match action_of(event) {
            Some(on) => self.nodes.act(Telling::Bytes, on.id, &on.action),
            None => return self.answer_else(desk, event),
        }?;
        Ok(text.into_bytes())
    }

    // What one is answered that is no action on the node.
    fn answer_else(&mut self, desk: &mut D, event: &Event) -> Result<Vec<u8>, WorldFault>
        requires ranges { IsEvent event.now }
        requires none { action_for event.now ≡ None }
        requires out { AreOut (D.out desk.old) self.old.nodes.seats }
        ensures answers { (alone : Alone)
            → IsAlone ⟦<Tap<D::Wire> as Link>⟧ ⟦<Arming<D::Store> as Log>⟧
            self.old.home self.old.nodes alone
            → CanTell event.now (parts_at ⟦<Tap<D::Wire> as Link>⟧ ⟦<Arming<D::Store> as Log>⟧ self.old.nodes.seats)
            → AnswersSingleBytes ⟦<Tap<D::Wire> as Link>⟧ ⟦<Arming<D::Store> as Log>⟧ self.new.home
            self.new.nodes (happens_alone alone event.now) result }
        ensures counted { IfErr result (IsCounted (HasRisen (D.faults desk.old) (D.faults desk.new))
            (seats_of ⟦<Tap<D::Wire> as Link>⟧ ⟦<Arming<D::Store> as Log>⟧ self.new.nodes.seats)) }
        ensures out { AreOut (D.out desk.new) self.new.nodes.seats }
        ensures desk { OnlyGrants (desk_told D.Ground desk.old) (desk_told D.Ground desk.new) }
    {
        let text = match event {
            Event::Home(id, addr) => self.home(*id, *addr),
            Event::Lead(id, addr, at) => self.lead(
                desk,
                Member {
                    id: *id,
                    addr: *addr,
                    at: *at,
                },
            ),
            Event::Boot(id, addr, at, mode) => {
                self.boot(
                    desk,
                    Member {
                        id: *id,
                        addr: *addr,
                        at: *at,
                    },
                    *mode,
                )
            }
            Event::Close => self.close(),
            Event::Ask(id, to) => self.ask(*id, *to),
            Event::Packet(id, bytes) => self.receive(*id, bytes),
            Event::Print(id) => return self.nodes.print(*id),
            _ => line(self.nodes.alloc, "not here"),
        }?;
        Ok(text.into_bytes())
    }

    // Whether the node was started.
    fn is_started(&self) -> bool
        ensures none { result ≡ false → self.now.nodes.seats.items.items ≡ [] }
        ensures some { result ≡ true → (id : ℕ) × IsSome (state_at self.now.nodes.seats id) }
    {
        self.nodes.first().is_some()
    }

    // A line says who leads, before there is a node.
    fn home(&mut self, id: NodeId, addr: Addr) -> Result<String, WorldFault>
        ensures answers { (alone : Alone)
            → IsAlone ⟦<Tap<D::Wire> as Link>⟧ ⟦<Arming<D::Store> as Log>⟧
            self.old.home self.old.nodes alone
            → AnswersSingle ⟦<Tap<D::Wire> as Link>⟧ ⟦<Arming<D::Store> as Log>⟧ self.new.home
            self.new.nodes (happens_alone alone (events.Home id addr)) result }
        ensures memory { IfErr result (λ fault. fault ≡ WorldFault.Memory) }
        ensures nodes { self.new.nodes ≡ self.old.nodes }
    {
        let alloc = self.nodes.alloc;
        if self.home.is_some() || self.is_started() {
            return line(alloc, "taken");
        }
        self.home = Some(Home { id, addr });
        number_line(alloc, "home", u64::from(id.get()))
    }

    // The node starts as a leader, whoever leads elsewhere.
    fn lead(&mut self, desk: &mut D, me: Member) -> Result<String, WorldFault>
        requires allowed { IsMember me }
        requires out { AreOut (D.out desk.old) self.old.nodes.seats }
        ensures answers { (alone : Alone)
            → IsAlone ⟦<Tap<D::Wire> as Link>⟧ ⟦<Arming<D::Store> as Log>⟧
            self.old.home self.old.nodes alone
            → AnswersSingle ⟦<Tap<D::Wire> as Link>⟧ ⟦<Arming<D::Store> as Log>⟧ self.new.home
            self.new.nodes (happens_alone alone (events.Lead me.id me.addr me.at)) result }
        ensures counted { IfErr result (IsCounted (HasRisen (D.faults desk.old) (D.faults desk.new))
            (seats_of ⟦<Tap<D::Wire> as Link>⟧ ⟦<Arming<D::Store> as Log>⟧ self.new.nodes.seats)) }
        ensures out { AreOut (D.out desk.new) self.new.nodes.seats }
        ensures desk { OnlyGrants (desk_told D.Ground desk.old) (desk_told D.Ground desk.new) }
    {
        if self.is_started() {
            return line(self.nodes.alloc, "taken");
        }
        let leader = Home {
            id: me.id,
            addr: me.addr,
        };
        start(&mut self.nodes, desk, &leader.own_of(me, Mode::Full))
    }

    // The node starts under the leader that `home` named.
    fn boot(&mut self, desk: &mut D, me: Member, mode: Mode) -> Result<String, WorldFault>
        requires allowed { IsMember me }
        requires out { AreOut (D.out desk.old) self.old.nodes.seats }
        ensures answers { (alone : Alone)
            → IsAlone ⟦<Tap<D::Wire> as Link>⟧ ⟦<Arming<D::Store> as Log>⟧
            self.old.home self.old.nodes alone
            → AnswersSingle ⟦<Tap<D::Wire> as Link>⟧ ⟦<Arming<D::Store> as Log>⟧ self.new.home
            self.new.nodes (happens_alone alone (events.Boot me.id me.addr me.at mode)) result }
        ensures counted { IfErr result (IsCounted (HasRisen (D.faults desk.old) (D.faults desk.new))
            (seats_of ⟦<Tap<D::Wire> as Link>⟧ ⟦<Arming<D::Store> as Log>⟧ self.new.nodes.seats)) }
        ensures out { AreOut (D.out desk.new) self.new.nodes.seats }
        ensures desk { OnlyGrants (desk_told D.Ground desk.old) (desk_told D.Ground desk.new) }
    {
        if self.is_started() {
            return line(self.nodes.alloc, "taken");
        }
        let Some(home) = self.home else {
            return line(self.nodes.alloc, "no leader");
        };
        if home.id == me.id {
            return line(self.nodes.alloc, "taken");
        }
        start(&mut self.nodes, desk, &home.own_of(me, mode))
    }

    // The node closes its epoch, where it is up and leads.
    fn close(&mut self) -> Result<String, WorldFault>
        ensures answers { (alone : Alone)
            → IsAlone ⟦<Tap<D::Wire> as Link>⟧ ⟦<Arming<D::Store> as Log>⟧
            self.old.home self.old.nodes alone
            → AnswersSingle ⟦<Tap<D::Wire> as Link>⟧ ⟦<Arming<D::Store> as Log>⟧ self.new.home
            self.new.nodes (happens_alone alone (events.Close)) result }
        ensures counted { IfErr result (IsCounted ⊥
            (seats_of ⟦<Tap<D::Wire> as Link>⟧ ⟦<Arming<D::Store> as Log>⟧ self.new.nodes.seats)) }
        ensures ids { ids_of self.new.nodes.seats ≡ ids_of self.old.nodes.seats }
    {
        let Some(id) = self.nodes.first() else {
            return line(self.nodes.alloc, "no leader");
        };
        if !self.nodes.is_up(id) {
            return line(self.nodes.alloc, "no leader");
        }
        let action = Action::Call(Call::Close);
        self.nodes.act(Telling::Bytes, id, &action)
    }

    // Whether this is who leads.
    fn is_home(&self, id: NodeId) -> bool
        ensures { MatchOption self.now.home (result ≡ false) (λ home. result ≡ (home.id == id)) }
    {
        self.home.is_some_and(|home| home.id == id)
    }

    // The node asks another for a snapshot.
    fn ask(&mut self, id: NodeId, to: NodeId) -> Result<String, WorldFault>
        ensures answers { (alone : Alone)
            → IsAlone ⟦<Tap<D::Wire> as Link>⟧ ⟦<Arming<D::Store> as Log>⟧
            self.old.home self.old.nodes alone
            → AnswersSingle ⟦<Tap<D::Wire> as Link>⟧ ⟦<Arming<D::Store> as Log>⟧ self.new.home
            self.new.nodes (happens_alone alone (events.Ask id to)) result }
        ensures counted { IfErr result (IsCounted ⊥
            (seats_of ⟦<Tap<D::Wire> as Link>⟧ ⟦<Arming<D::Store> as Log>⟧ self.new.nodes.seats)) }
        ensures ids { ids_of self.new.nodes.seats ≡ ids_of self.old.nodes.seats }
    {
        let leads = self.is_home(to);
        let action = Action::Call(Call::Ask { to, leads });
        self.nodes.act(Telling::Bytes, id, &action)
    }

    // Bytes come to the node.
    fn receive(&mut self, id: NodeId, bytes: &Line) -> Result<String, WorldFault>
        ensures answers { (alone : Alone)
            → IsAlone ⟦<Tap<D::Wire> as Link>⟧ ⟦<Arming<D::Store> as Log>⟧
            self.old.home self.old.nodes alone
            → AnswersSingle ⟦<Tap<D::Wire> as Link>⟧ ⟦<Arming<D::Store> as Log>⟧ self.new.home
            self.new.nodes (happens_alone alone (events.Packet id bytes.now)) result }
        ensures counted { IfErr result (IsCounted ⊥
            (seats_of ⟦<Tap<D::Wire> as Link>⟧ ⟦<Arming<D::Store> as Log>⟧ self.new.nodes.seats)) }
        ensures ids { ids_of self.new.nodes.seats ≡ ids_of self.old.nodes.seats }
    {
        let action = Action::Call(Call::Deliver(bytes.as_slice()));
        self.nodes.act(Telling::Bytes, id, &action)
    }

    /// Hands the link and the log of the node back to the desk. This takes no memory.
    pub fn finish(self, desk: &mut D)
        requires { AreOut (D.out desk.old) self.nodes.seats }
        ensures out { D.out desk.new ≡ [] }
        // Where the desk tells, it has the log of the node, and what it sent.
        ensures logs { (alone : Alone)
            → IsAlone ⟦<Tap<D::Wire> as Link>⟧ ⟦<Arming<D::Store> as Log>⟧ self.home self.nodes alone
            → IfSome (D.logs desk.old) (λ before. IsSomeAnd (D.logs desk.new) (IsLogAlone alone)) }
        ensures traffic { (alone : Alone)
            → IsAlone ⟦<Tap<D::Wire> as Link>⟧ ⟦<Arming<D::Store> as Log>⟧ self.home self.nodes alone
            → IfSome (D.traffic desk.old) (λ before. IsSomeAnd (D.traffic desk.new) (IsTrafficAlone alone)) }
        ensures faults { D.faults desk.new ≡ D.faults desk.old }
        ensures link_faults { RisesWith (link_faults_of (seats_of ⟦<Tap<D::Wire> as Link>⟧ ⟦<Arming<D::Store> as Log>⟧
            self.nodes.seats)) (D.link_faults desk.old) (D.link_faults desk.new) }
        ensures log_faults { RisesWith (log_faults_of (seats_of ⟦<Tap<D::Wire> as Link>⟧ ⟦<Arming<D::Store> as Log>⟧
            self.nodes.seats)) (D.log_faults desk.old) (D.log_faults desk.new) }
    {
        let Single { home: _, nodes } = self;
        let Nodes {
            alloc: _,
            seats,
            addresses: _,
            leader: _,
            traffic: _,
            pool: _,
            memo: _,
        } = nodes;
        hand_back(seats, desk);
    }
}
