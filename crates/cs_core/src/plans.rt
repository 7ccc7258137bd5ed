//! Plans that several rules have in common.

ghost use Rattle.std.specs.Prelude.{◌≡◌, IfOk, IfErr, Ok, Result};
ghost use Rattle.cs_core.specs.Plans.{early, goes_on, only, or_unfit, sent, stale, unlisted};
ghost use Rattle.cs_core.specs.Refused.{HasReason, IsRefusalOf};
ghost use Rattle.cs_core.specs.Sound.{IsNote, IsSound};
ghost use Rattle.cs_core.specs.declared.plan.Plan.{Plan as APlan};
ghost use Rattle.cs_core.specs.declared.plan.Unfit.{Unfit as AReason};

use crate::following::Following;
use crate::refusal::Refusal;
use crate::{FollowNote, Follower, Outcome, Plan, Unfit};
use cs_base::{Epoch, RegionId};
use cs_packet::{Own, Sends};
use cs_view::ViewFault;
use std::alloc::{AllocError, Global};

/// Nothing is logged or sent, and the node stays as it is.
pub(crate) fn only(alloc: Global, note: FollowNote) -> Plan
    ensures value { result ≡ only note }
    ensures sound { IsNote note → IsSound result }
{
    sent(Sends::new(alloc), note)
}

/// Packets are sent, and the node stays as it is.
pub(crate) fn sent(sends: Sends, note: FollowNote) -> Plan
    ensures { result ≡ sent sends note }
{
    Plan {
        entry: None,
        sends,
        note,
        after: Outcome::Same,
    }
}

/// What came tells the node nothing new.
pub(crate) fn stale(member: &Following, given: Epoch) -> Plan
    ensures value { result ≡ stale member.now given }
    ensures sound { IsSound result }
{
    let have = member.view().epoch();
    only(member.alloc(), FollowNote::Stale { have, given })
}

/// What came is of an epoch that the node can't use yet.
pub(crate) fn early(member: &Following, given: Epoch) -> Plan
    ensures value { result ≡ early member.now given }
    ensures sound { IsSound result }
{
    let have = member.view().epoch();
    only(member.alloc(), FollowNote::Early { have, given })
}

/// A region that the view doesn't list.
pub(crate) fn unlisted(alloc: Global, region: RegionId) -> Plan
    ensures value { result ≡ unlisted region }
    ensures sound { IsSound result }
{
    let fault = ViewFault::Region(region.get());
    only(alloc, FollowNote::Unfit(Unfit::View(fault)))
}

/// The node goes on as a member.
pub(crate) fn goes_on(own: &Own, member: Following) -> Result<Outcome, AllocError>
    ensures { IfOk result (λ after. after ≡ goes_on own.now member) }
{
    Ok(Outcome::Next(Follower::member(own, member)?))
}

/// The plan, or the answer why something doesn't fit.
pub(crate) fn answered(alloc: Global, plan: Result<Plan, Refusal>) -> Result<Plan, AllocError>
    ensures value { (due : Result APlan AReason) → IfOk plan (λ p. due ≡ Ok p) → IfErr plan (IsRefusalOf due)
        → IfOk result (λ answer. answer ≡ or_unfit due) }
    ensures sound { (due : Result APlan AReason) → IfErr plan (IsRefusalOf due) → HasReason due → IfOk plan IsSound
        → IfOk result IsSound }
{
    match plan {
        Ok(plan) => Ok(plan),
        Err(Refusal::Unfit(reason)) => Ok(only(alloc, FollowNote::Unfit(reason))),
        Err(Refusal::Memory) => Err(AllocError),
    }
}
