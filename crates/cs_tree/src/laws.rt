//! What holds of the trees. A law is the contract of a function that does nothing: calling it gives the caller its
//! clauses.
ghost use Rattle.std.specs.Prelude.{◌≡◌, ℕ, ◌*◌, ◌<◌, ◌≤◌, List, [], ◌∷◌, length, map, slice_get, Some, IsSome};
ghost use Rattle.std.specs.List.{AllByRecursion};
ghost use Rattle.cs_base.specs.Limits.{colours, most_children, most_region_children};
ghost use Rattle.cs_base.specs.declared.member.Member.{Member};
ghost use Rattle.cs_roll.specs.Roll.{IsRoll, member_id};
ghost use Rattle.cs_roll.specs.Sight.{IsSight, Rolls, Summaries, at_region};
ghost use Rattle.cs_tree.specs.Colour.{trees_of};
ghost use Rattle.cs_tree.specs.Good.{AreGood, IsTreeOver};
ghost use Rattle.cs_tree.specs.Inter.{inter_tree, region_points};
ghost use Rattle.cs_tree.specs.Kept.{kept_local, kept_trees};
ghost use Rattle.cs_tree.specs.Local.{local_tree, local_trees};
ghost use Rattle.cs_tree.specs.Renewal.{steps_of_renewal};
ghost use Rattle.cs_tree.specs.Route.{route};
ghost use Rattle.cs_tree.specs.Seen.{IsSeen};
ghost use Rattle.cs_tree.specs.Start.{start};
ghost use Rattle.cs_tree.specs.Tree.{RootedTree};

/// The local trees of a roll are good: each leads from its root to every member, by one way alone and with few
/// children for each, and no member has children in two of them.
pub fn local_trees_are_good()
    ensures there { (roll : List Member) (colour : ℕ) → colour < trees_of (length roll) →
        IsSome (local_tree colour roll) }
    ensures tree { (roll : List Member) (colour : ℕ) (tree : RootedTree) → IsRoll roll →
        local_tree colour roll ≡ Some tree → IsTreeOver most_children (map member_id roll) tree }
    ensures all { (roll : List Member) → IsRoll roll → AreGood (map member_id roll) (local_trees roll) }
{}

/// The inter-region trees are good too: each leads from its root to every region, by one way alone and with at most
/// two children for each.
pub fn inter_trees_are_good()
    ensures there { (summaries : Summaries) (rolls : Rolls) (colour : ℕ) → IsSight summaries rolls →
        0 < length summaries → IsSome (inter_tree colour summaries) }
    ensures tree { (summaries : Summaries) (rolls : Rolls) (colour : ℕ) (tree : RootedTree) →
        IsSight summaries rolls → inter_tree colour summaries ≡ Some tree →
        IsTreeOver most_region_children (map (λ pair. pair.0) summaries) tree }
{}

/// Each node that a piece is passed on to, or starts at, is a member that is seen. So where the rolls and the globals
/// are those of a group, each is a member of the group.
pub fn targets_are_seen()
    ensures route_targets { (me : ℕ) (summaries : Summaries) (rolls : Rolls) (region colour : ℕ) →
        AllByRecursion (IsSeen summaries rolls) (route me summaries rolls region colour) }
    ensures start_targets { (me : ℕ) (summaries : Summaries) (rolls : Rolls) (region colour : ℕ) →
        AllByRecursion (IsSeen summaries rolls) (start me summaries rolls region colour) }
{}

/// The trees that are kept are those of what is seen: one of the regions for each colour, and for each colour one of
/// each known region.
pub fn kept_trees_are_the_trees()
    ensures between { (summaries : Summaries) (rolls : Rolls) (colour : ℕ) → IsSight summaries rolls →
        0 < length summaries → colour < colours →
        slice_get (kept_trees summaries rolls).between colour ≡ inter_tree colour summaries }
    ensures within { (summaries : Summaries) (rolls : Rolls) (region colour : ℕ) (roll : List Member) →
        at_region region rolls ≡ Some roll → colour < trees_of (length roll) →
        kept_local region colour (kept_trees summaries rolls) ≡ local_tree colour roll }
{}

/// A renewal to the same view takes no step. One to a view of one known region, whose representatives stand where they
/// stood, takes no more steps than the trees of the region have keys.
pub fn renewals_build_what_changed()
    ensures same { (summaries : Summaries) (rolls : Rolls) → IsSight summaries rolls →
        steps_of_renewal summaries rolls summaries rolls ≡ 0 }
    ensures region { (before now : Summaries) (known : Rolls) (region : ℕ) (roll : List Member) →
        ((colour : ℕ) → colour < colours → region_points colour before ≡ region_points colour now) →
        steps_of_renewal before known now ((region, roll) ∷ []) ≤ trees_of (length roll) * length roll }
{}
