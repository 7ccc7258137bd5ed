//! Laws of the leader's decision.

ghost use Rattle.std.specs.Prelude.{◌≡◌, ◌≢◌, ℕ, None, Some};
ghost use Rattle.cs_packet.specs.declared.entry.Entry.{Entry};
ghost use Rattle.cs_lead.specs.Decision.{plan_of};
ghost use Rattle.cs_lead.specs.Kept.{IsLeading};
ghost use Rattle.cs_lead.specs.Laws.{as_logged, IsAsItWas, lasting, StartsAtMembers};
ghost use Rattle.cs_lead.specs.Leading.{Leading};
ghost use Rattle.cs_lead.specs.Resume.{resumed_by};
ghost use Rattle.cs_lead.specs.declared.plan.LeadCall.{LeadCall};
ghost use Rattle.cs_lead.specs.declared.plan.LeadOutcome.TheVariants as outcomes;

/// What is logged gives the leader again that the plan leads to, but for pending changes.
pub fn a_log_gives_the_leader_again()
    ensures { (leader : Leading) (call : LeadCall) (entry : Entry) → IsLeading leader
        → (plan_of leader call).entry ≡ Some entry
        → resumed_by leader entry ≡ as_logged (plan_of leader call).after }
{}

/// Where nothing is logged, a restart brings back the same leader as before. What is logged changes the leader.
pub fn what_is_not_logged_is_as_it_was()
    ensures unlogged { (leader : Leading) (call : LeadCall)
        → (plan_of leader call).entry ≡ None
        → IsAsItWas leader (plan_of leader call).after }
    ensures logged { (leader : Leading) (call : LeadCall) (entry : Entry)
        → (plan_of leader call).entry ≡ Some entry
        → (plan_of leader call).after ≢ outcomes.Same }
{}

/// Resuming reads of a leader only what a restart brings back.
pub fn all_that_resuming_reads_lasts()
    ensures { (leader : Leading) (entry : Entry) → resumed_by leader entry ≡ resumed_by (lasting leader) entry }
{}

/// The pieces of a close start at members of the group that it closes.
pub fn pieces_start_at_members()
    ensures { (leader : Leading) (region colour : ℕ) → IsLeading leader → StartsAtMembers leader region colour }
{}
