//! Plans that several rules have in common.

ghost use Rattle.std.specs.Prelude.{◌≡◌};
ghost use Rattle.cs_lead.specs.Plans.{only, sent, untold};
ghost use Rattle.cs_lead.specs.Sound.{IsIdle, IsNote, IsSound};

use crate::{LeadNote, LeadOutcome, LeadPlan, Leader};
use cs_base::Epoch;
use cs_packet::Sends;
use std::alloc::Global;

/// Nothing is logged or sent, and the leader stays as it is.
pub(crate) fn only(alloc: Global, note: LeadNote) -> LeadPlan
    ensures value { result ≡ only note }
    ensures sound { IsNote note → IsSound result }
{
    sent(Sends::new(alloc), note)
}

/// Packets are sent, and the leader stays as it is.
pub(crate) fn sent(sends: Sends, note: LeadNote) -> LeadPlan
    ensures { result ≡ sent sends note }
{
    LeadPlan {
        entry: None,
        sends,
        note,
        after: LeadOutcome::Same,
    }
}

impl Leader {
    /// What tells members of an epoch tells the leader nothing.
    pub(crate) fn untold(&self, given: Epoch) -> LeadPlan
        ensures value { result ≡ untold self.now given }
        ensures sound { IsSound result }
    {
        let have = self.view().epoch();
        let note = if given <= have {
            LeadNote::Stale { have, given }
        } else {
            LeadNote::Early { have, given }
        };
        only(self.alloc(), note)
    }
}
