//! What the leader answers to one that asks.

ghost use Rattle.std.specs.Prelude.{◌≡◌, IfOk, MatchOption, ⊤};
ghost use Rattle.cs_packet.specs.BodyField.{IsBody};
ghost use Rattle.cs_lead.specs.Answers.{answer, ask_answer, late_snapshot, need_answer, to_member, used_slice};
ghost use Rattle.cs_lead.specs.Sound.{IsSound};

use crate::plans::{only, sent};
use crate::{LeadNote, LeadPlan, Leader};
use cs_base::{Addr, Epoch, Mode, NodeId, RegionId};
use cs_packet::{Body, Sends};
use std::alloc::AllocError;

impl Leader {
    /// What the leader answers to one that asks for a snapshot of an epoch that is at least so late.
    pub(crate) fn answer_ask(
        &self,
        asker: NodeId,
        addr: Addr,
        mode: Mode,
        least: u32,
    ) -> Result<LeadPlan, AllocError>
        ensures plan { IfOk result (λ plan. plan ≡ ask_answer self.now asker addr mode least) }
        ensures sound { IfOk result IsSound }
    {
        let body = self.late_snapshot(asker, mode, least)?;
        self.answer_member(asker, addr, body)
    }

    /// What the leader answers to one that lacks a slice.
    pub(crate) fn answer_need(
        &self,
        asker: NodeId,
        addr: Addr,
        mode: Mode,
        epoch: Epoch,
        region: RegionId,
    ) -> Result<LeadPlan, AllocError>
        ensures plan { IfOk result (λ plan. plan ≡ need_answer self.now asker addr mode epoch region) }
        ensures sound { IfOk result IsSound }
    {
        let body = match self.used_slice(epoch, region)? {
            Some(body) => Some(body),
            None => self.late_snapshot(asker, mode, epoch.get())?,
        };
        self.answer_member(asker, addr, body)
    }

    // One that left is told so, and one that isn't a member is told nothing.
    fn answer_member(
        &self,
        asker: NodeId,
        addr: Addr,
        body: Option<Body>,
    ) -> Result<LeadPlan, AllocError>
        requires { MatchOption body ⊤ IsBody }
        ensures plan { IfOk result (λ plan. plan ≡ answer self.now addr asker (to_member self.now asker body)) }
        ensures sound { IfOk result IsSound }
    {
        if self.group().is_retired(asker) {
            let epoch = self.view().epoch();
            return self.answer(asker, addr, Some(Body::Bye { epoch }));
        }
        if self.group().region_of(asker).is_none() {
            return self.answer(asker, addr, None);
        }
        self.answer(asker, addr, body)
    }

    // The answer goes to the address in the request.
    fn answer(&self, asker: NodeId, addr: Addr, body: Option<Body>) -> Result<LeadPlan, AllocError>
        requires { MatchOption body ⊤ IsBody }
        ensures plan { IfOk result (λ plan. plan ≡ answer self.now addr asker body) }
        ensures sound { IfOk result IsSound }
    {
        let Some(body) = body else {
            return Ok(only(self.alloc(), LeadNote::Silent));
        };
        let sends = Sends::one(self.alloc(), self.me().id, asker, addr, body)?;
        Ok(sent(sends, LeadNote::Answered))
    }

    // A snapshot for one that asks for an epoch that is at least so late.
    fn late_snapshot(
        &self,
        asker: NodeId,
        mode: Mode,
        least: u32,
    ) -> Result<Option<Body>, AllocError>
        ensures value { IfOk result (λ body. body ≡ late_snapshot self.now asker mode least) }
        ensures allowed { IfOk result (λ body. MatchOption body ⊤ IsBody) }
    {
        if least > self.view().epoch().get() {
            return Ok(None);
        }
        match self.view().shown_to(asker, mode)? {
            Some(picture) => Ok(Some(Body::Snap(picture))),
            None => Ok(None),
        }
    }

    // A slice by which members come to the leader's epoch.
    fn used_slice(&self, epoch: Epoch, region: RegionId) -> Result<Option<Body>, AllocError>
        ensures value { IfOk result (λ body. body ≡ used_slice self.now epoch region) }
        ensures allowed { IfOk result (λ body. MatchOption body ⊤ IsBody) }
    {
        if epoch != self.view().epoch() {
            return Ok(None);
        }
        match self.slices().get(region.get()) {
            Some(slice) => Ok(Some(Body::Slice(slice.copy()?))),
            None => Ok(None),
        }
    }
}
