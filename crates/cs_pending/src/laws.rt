//! What pending changes stay. A law is the contract of a function that does nothing: calling it gives the caller its
//! clauses.
ghost use Rattle.std.specs.Prelude.{ℕ, List, take, drop};
ghost use Rattle.std.specs.List.{AllByRecursion};
ghost use Rattle.cs_base.specs.Ranges.{IsChange};
ghost use Rattle.cs_base.specs.declared.change.Change.{Change};
ghost use Rattle.cs_pending.specs.Counting.{all_offered};
ghost use Rattle.cs_pending.specs.Pending.{after_offer, IsPending, offer_of};
ghost use Rattle.cs_pending.specs.Reportable.{CanBeReported};

/// Pending changes are few and about distinct members, whatever is offered to them and however many are taken out.
pub fn pending_changes_stay_few()
    ensures offered { (pending changes : List Change) → IsPending pending → IsPending (all_offered pending changes).0 }
    ensures front { (pending : List Change) (n : ℕ) → IsPending pending → IsPending (take n pending) }
    ensures rest { (pending : List Change) (n : ℕ) → IsPending pending → IsPending (drop n pending) }
{}

/// Where each pending and each offered change has values that are allowed, so has each pending change afterwards.
pub fn pending_changes_stay_allowed()
    ensures offered { (pending changes : List Change) → AllByRecursion IsChange pending →
        AllByRecursion IsChange changes → AllByRecursion IsChange (all_offered pending changes).0 }
    ensures front { (pending : List Change) (n : ℕ) → AllByRecursion IsChange pending →
        AllByRecursion IsChange (take n pending) }
    ensures rest { (pending : List Change) (n : ℕ) → AllByRecursion IsChange pending →
        AllByRecursion IsChange (drop n pending) }
{}

/// Where pending changes can be reported, they can be after offers of allowed changes, and so can those that are taken
/// out of them and those that stay behind.
pub fn pending_changes_stay_reportable()
    ensures offer { (pending : List Change) (change : Change) → CanBeReported pending → IsChange change →
        CanBeReported (after_offer (offer_of pending change) pending change) }
    ensures offered { (pending changes : List Change) → CanBeReported pending → AllByRecursion IsChange changes →
        CanBeReported (all_offered pending changes).0 }
    ensures front { (pending : List Change) (n : ℕ) → CanBeReported pending → CanBeReported (take n pending) }
    ensures rest { (pending : List Change) (n : ℕ) → CanBeReported pending → CanBeReported (drop n pending) }
{}
