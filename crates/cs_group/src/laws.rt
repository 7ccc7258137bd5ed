//! What holds of the groups that follow one another. A law is the contract of a function that does nothing: calling
//! it gives the caller its clauses.
ghost use Rattle.std.specs.Prelude.{◌≡◌, ℕ, ◌+◌, ◌<◌, ◌≤◌, List, [], ◌∷◌, ◌++◌, length, Some, None, IsSome, All};
ghost use Rattle.std.specs.List.{AllByRecursion};
ghost use Rattle.std.specs.Option.{option_map};
ghost use Rattle.cs_base.specs.Ranges.{IsChange, IsMember};
ghost use Rattle.cs_base.specs.declared.change.Change.{Change};
ghost use Rattle.cs_base.specs.declared.member.Member.{Member};
ghost use Rattle.cs_group.specs.Faults.{rows_fault};
ghost use Rattle.cs_group.specs.Group.{first_group, GroupState, IsGroup};
ghost use Rattle.cs_group.specs.History.{next_group, group_at};
ghost use Rattle.cs_group.specs.Judging.{all_accepted, verdicts_on, item_of};
ghost use Rattle.cs_group.specs.Led.{IsLedBy};
ghost use Rattle.cs_group.specs.Next.{next_turn, with_all_accepted};
ghost use Rattle.cs_group.specs.Rows.{members_in, regions};
ghost use Rattle.cs_group.specs.declared.next.Turn.{Turn};

/// The accepted changes alone are all accepted again, and lead to the same turn.
pub fn accepted_again()
    ensures accepted { (g : GroupState) (changes : List Change) →
        verdicts_on g (item_of g changes) ≡ all_accepted (item_of g changes) }
    ensures same { (g : GroupState) (changes : List Change) →
        next_turn g (item_of g changes) ≡ option_map with_all_accepted (next_turn g changes) }
{}

/// The group of an epoch stays the same as items are added, and the next item leads to the next group: that of a turn
/// to the group of the turn. Where there is a group there is one at each epoch before.
pub fn history_grows()
    ensures stays { (leader : Member) (items more : List (List Change)) (epoch : ℕ) → epoch ≤ length items →
        group_at leader (items ++ more) epoch ≡ group_at leader items epoch }
    ensures step { (leader : Member) (items : List (List Change)) (item : List Change) →
        group_at leader (items ++ item ∷ []) (length items + 1)
        ≡ next_group (group_at leader items (length items)) item }
    ensures turn { (leader : Member) (items : List (List Change)) (changes : List Change) (g : GroupState)
        (turn : Turn) → group_at leader items (length items) ≡ Some g → next_turn g changes ≡ Some turn →
        group_at leader (items ++ turn.item ∷ []) (length items + 1) ≡ Some turn.group }
    ensures before { (leader : Member) (items : List (List Change)) (epoch later : ℕ) → epoch ≤ later →
        IsSome (group_at leader items later) → IsSome (group_at leader items epoch) }
{}

/// What holds of every group holds at each epoch of items whose changes are allowed, and no region is without members.
pub fn history_is_bounded()
    ensures group { (leader : Member) (items : List (List Change)) (epoch : ℕ) (g : GroupState) →
        IsMember leader → AllByRecursion (AllByRecursion IsChange) items →
        group_at leader items epoch ≡ Some g → IsGroup g }
    ensures no_region_is_empty { (g : GroupState) →
        All (λ region. 0 < length (members_in region g.rows)) (regions g.rows) }
{}

/// Who leads a group stands in it as it is, from the first group on, and whoever left had an id.
pub fn leaders_stay()
    ensures first { (leader : Member) → IsLedBy leader (first_group leader) }
    ensures next { (leader : Member) (g : GroupState) (changes : List Change) (turn : Turn) →
        IsGroup g → IsLedBy leader g → AllByRecursion IsChange changes →
        next_turn g changes ≡ Some turn → IsLedBy leader turn.group }
{}

/// The rows of a group have no fault: `from_rows` refuses them only where memory is out.
pub fn groups_have_no_fault()
    ensures { (g : GroupState) → IsGroup g → rows_fault g ≡ None }
{}
