//! Laws of the decision.

ghost use Rattle.std.specs.Prelude.{◌≡◌, ◌≢◌, ◌⊎◌, ℕ, ◌+◌, List, None, Some, Ok};
ghost use Rattle.cs_item.specs.declared.slice.Slice.{Slice};
ghost use Rattle.cs_packet.specs.declared.entry.Entry.{Entry};
ghost use Rattle.cs_packet.specs.declared.own.Own.{Own};
ghost use Rattle.cs_view.specs.declared.next.Next.{Next};
ghost use Rattle.cs_core.specs.Decision.{plan_of};
ghost use Rattle.cs_core.specs.Laws.{as_logged, GoesOn, IsAsItWas, IsComplete, lasting_node};
ghost use Rattle.cs_core.specs.Node.{Following, Node};
ghost use Rattle.cs_core.specs.Resume.{resumed_by};
ghost use Rattle.cs_core.specs.Taking.{Gain, gain_plan};
ghost use Rattle.cs_core.specs.declared.plan.Call.{Call};
ghost use Rattle.cs_core.specs.declared.plan.Outcome.TheVariants as outcomes;
ghost use Rattle.cs_core.specs.declared.plan.Plan.{Plan};

/// What is logged gives the node again that the plan leads to, but for held pieces, pending changes and the past.
pub fn a_log_gives_the_node_again()
    ensures { (node : Node) (call : Call) (entry : Entry)
        → (plan_of node.own node.following call).entry ≡ Some entry
        → resumed_by node.own node.following entry ≡ as_logged (plan_of node.own node.following call).after }
{}

/// Where nothing is logged, a restart brings back the same node as before. What is logged changes the node.
pub fn what_is_not_logged_is_as_it_was()
    ensures unlogged { (node : Node) (call : Call)
        → (plan_of node.own node.following call).entry ≡ None
        → IsAsItWas node (plan_of node.own node.following call).after }
    ensures logged { (node : Node) (call : Call) (entry : Entry)
        → (plan_of node.own node.following call).entry ≡ Some entry
        → (plan_of node.own node.following call).after ≢ outcomes.Same }
{}

/// Resuming reads of a node only what a restart brings back.
pub fn all_that_resuming_reads_lasts()
    ensures { (node : Node) (entry : Entry)
        → resumed_by node.own node.following entry ≡ resumed_by node.own (lasting_node node).following entry }
{}

/// A member that gains what makes the slices that it needs whole, with one head, and steps its view by them without a
/// fault, goes on in this very call.
pub fn whole_slices_are_used()
    ensures { (own : Own) (m : Following) (gain : Gain) (w : Slice) (used : List Slice) (after : Next)
        → IsComplete own m gain w used after
        → (plan : Plan) × (gain_plan own m gain ≡ Ok plan) × GoesOn m.view.epoch plan.note }
{}
