//! What a member asks of another node, and what it answers to one that asks.

ghost use Rattle.std.specs.Prelude.{◌≡◌, ◌∷◌, [], IfOk, MatchOption, ⊤};
ghost use Rattle.std.specs.List.{list_all};
ghost use Rattle.cs_fields.specs.Fields.{IsLaterEpoch};
ghost use Rattle.cs_packet.specs.BodyField.{IsBody};
ghost use Rattle.cs_packet.specs.declared.packet.Body.TheVariants as bodies;
ghost use Rattle.cs_view.specs.Step.{is_known};
ghost use Rattle.cs_core.specs.Addresses.{address_of};
ghost use Rattle.cs_core.specs.Asking.{answer, ask_answer, ask_plan, asked_address, lacks_roll, late_snapshot};
ghost use Rattle.cs_core.specs.Asking.{least_wanted, need_answer, need_plan, snapshot_for, used_slice};
ghost use Rattle.cs_core.specs.Sound.{IsSound};

use crate::following::Following;
use crate::known::is_known;
use crate::plans::{only, sent};
use crate::{FollowNote, Plan};
use cs_base::{Addr, Epoch, Mode, NodeId, RegionId};
use cs_packet::{Body, Own, Sends};
use cs_view::View;
use std::alloc::AllocError;

/// One that asks: who it is, where its answer goes, and how much it wants to know.
#[derive(Clone, Copy)]
pub(crate) struct Asker {
    pub id: NodeId,
    pub addr: Addr,
    pub mode: Mode,
}

// Whether the node lacks a roll.
fn lacks_roll(mode: Mode, view: &View) -> bool
    ensures { result ≡ lacks_roll mode view.now }
{
    match mode {
        Mode::Partial => view.known().is_empty(),
        Mode::Full => !knows_each(view),
    }
}

// Whether the roll of each region is known.
fn knows_each(view: &View) -> bool
    ensures { result ≡ list_all (λ pair. is_known view.now.rolls pair.0) view.now.summaries }
{
    view.summaries().iter().all(|pair| is_known(view, pair.0))
}

/// The node asks for a snapshot of an epoch that is at least so late.
pub(crate) fn ask_of(own: &Own, least: u32) -> Body
    ensures value { result ≡ bodies.Ask own.now.addr own.now.mode least }
    ensures allowed { IsBody result }
{
    // The address tells its range where it is read.
    let _ip = own.addr.ip();
    Body::Ask {
        addr: own.addr,
        mode: own.mode,
        least,
    }
}

// The node asks for the slice of a region.
fn need_of(own: &Own, epoch: Epoch, region: RegionId) -> Body
    requires { IsLaterEpoch epoch }
    ensures value { result ≡ bodies.Need own.now.addr own.now.mode epoch region }
    ensures allowed { IsBody result }
{
    // The address and the region tell their ranges where they are read.
    let _ip = own.addr.ip();
    let _region = region.get();
    Body::Need {
        addr: own.addr,
        mode: own.mode,
        epoch,
        region,
    }
}

impl Following {
    /// The address of a node: of the leader as it was at the start, of any other as the view has it.
    pub fn address_of(&self, own: &Own, id: NodeId) -> Option<Addr>
        ensures { result ≡ address_of own.now self.now.view id }
    {
        if id == own.leader {
            return Some(own.leader_addr);
        }
        let (_, member) = self.view().place(id)?;
        Some(member.addr)
    }

    // The address of another node that the member may ask.
    fn asked_address(&self, own: &Own, to: NodeId) -> Option<Addr>
        ensures { result ≡ asked_address own.now self.now.view to }
    {
        if to == own.id {
            return None;
        }
        self.address_of(own, to)
    }

    /// The node asks another one for a snapshot.
    pub fn ask(&self, own: &Own, to: NodeId) -> Result<Plan, AllocError>
        ensures plan { IfOk result (λ plan. plan ≡ ask_plan own.now self.now to) }
        ensures sound { IfOk result IsSound }
    {
        let Some(addr) = self.asked_address(own, to) else {
            return Ok(only(self.alloc(), FollowNote::Unknown(to)));
        };
        let least = self.least_wanted(own);
        let sends = Sends::one(self.alloc(), own.id, to, addr, ask_of(own, least))?;
        Ok(sent(sends, FollowNote::Told { kept: None }))
    }

    // The least epoch of a snapshot that tells the node something new.
    fn least_wanted(&self, own: &Own) -> u32
        ensures { result ≡ least_wanted own.now self.now.view }
    {
        let have = self.view().epoch().get();
        if lacks_roll(own.mode, self.view()) {
            have
        } else {
            have + 1
        }
    }

    /// The node asks another one for the slice of a region of the next epoch.
    pub fn need(&self, own: &Own, to: NodeId, region: RegionId) -> Result<Plan, AllocError>
        ensures plan { IfOk result (λ plan. plan ≡ need_plan own.now self.now to region) }
        ensures sound { IfOk result IsSound }
    {
        let Some(addr) = self.asked_address(own, to) else {
            return Ok(only(self.alloc(), FollowNote::Unknown(to)));
        };
        let Some(epoch) = self.view().epoch().next() else {
            return Ok(only(self.alloc(), FollowNote::Spent));
        };
        let sends = Sends::one(self.alloc(), own.id, to, addr, need_of(own, epoch, region))?;
        Ok(sent(sends, FollowNote::Told { kept: None }))
    }

    /// What the member answers to one that asks for a snapshot of an epoch that is at least so late.
    pub fn answer_ask(&self, own: &Own, asker: &Asker, least: u32) -> Result<Plan, AllocError>
        ensures plan { IfOk result (λ plan. plan
            ≡ ask_answer own.now self.now asker.now.id asker.now.addr asker.now.mode least) }
        ensures sound { IfOk result IsSound }
    {
        let body = self.late_snapshot(asker, least)?;
        self.answer(own, asker, body)
    }

    /// What the member answers to one that lacks a slice.
    pub fn answer_need(
        &self,
        own: &Own,
        asker: &Asker,
        epoch: Epoch,
        region: RegionId,
    ) -> Result<Plan, AllocError>
        ensures plan { IfOk result (λ plan. plan
            ≡ need_answer own.now self.now asker.now.id asker.now.addr asker.now.mode epoch region) }
        ensures sound { IfOk result IsSound }
    {
        let body = match self.used_slice(epoch, region)? {
            Some(body) => Some(body),
            None => self.late_snapshot(asker, epoch.get())?,
        };
        self.answer(own, asker, body)
    }

    // The answer goes to the address in the request.
    fn answer(&self, own: &Own, asker: &Asker, body: Option<Body>) -> Result<Plan, AllocError>
        requires { MatchOption body ⊤ IsBody }
        ensures plan { IfOk result (λ plan. plan ≡ answer own.now asker.now.addr asker.now.id body) }
        ensures sound { IfOk result IsSound }
    {
        let Some(body) = body else {
            return Ok(only(self.alloc(), FollowNote::Silent));
        };
        let sends = Sends::one(self.alloc(), own.id, asker.id, asker.addr, body)?;
        Ok(sent(sends, FollowNote::Answered))
    }

    // A slice that the member used to come to this epoch.
    fn used_slice(&self, epoch: Epoch, region: RegionId) -> Result<Option<Body>, AllocError>
        ensures value { IfOk result (λ body. body ≡ used_slice self.now epoch region) }
        ensures allowed { IfOk result (λ body. MatchOption body ⊤ IsBody) }
    {
        if epoch != self.view().epoch() {
            return Ok(None);
        }
        match self.used().get(region.get()) {
            Some(slice) => Ok(Some(Body::Slice(slice.copy()?))),
            None => Ok(None),
        }
    }

    // A snapshot for one that asks for an epoch that is at least so late.
    fn late_snapshot(&self, asker: &Asker, least: u32) -> Result<Option<Body>, AllocError>
        ensures value { IfOk result (λ body. body
            ≡ late_snapshot self.now.view asker.now.id asker.now.mode least) }
        ensures allowed { IfOk result (λ body. MatchOption body ⊤ IsBody) }
    {
        if least > self.view().epoch().get() {
            return Ok(None);
        }
        match self.view().shown_to(asker.id, asker.mode)? {
            Some(picture) => Ok(Some(Body::Snap(picture))),
            None => Ok(None),
        }
    }
}
