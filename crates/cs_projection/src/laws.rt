//! A law is the contract of a function that does nothing: calling it gives the caller its clauses.
ghost use Rattle.std.specs.Prelude.{◌≡◌, ℕ, ◌≤◌, true, List, length, Some, is_some, Ok};
ghost use Rattle.std.specs.List.{AllByRecursion, list_any};
ghost use Rattle.cs_base.specs.Ascending.{IsDistinctBy};
ghost use Rattle.cs_base.specs.Changes.{id_of};
ghost use Rattle.cs_base.specs.Limits.{last_number, most_changes, most_picture_bytes};
ghost use Rattle.cs_base.specs.declared.change.Change.{Change};
ghost use Rattle.cs_base.specs.declared.change.Mode.{Mode};
ghost use Rattle.cs_group.specs.Group.{GroupState, IsGroup, is_among};
ghost use Rattle.cs_group.specs.Next.{next_turn};
ghost use Rattle.cs_group.specs.Rows.{members_in, regions};
ghost use Rattle.cs_group.specs.declared.next.Turn.{Turn};
ghost use Rattle.cs_item.specs.declared.part.Part.{Part};
ghost use Rattle.cs_projection.specs.Law.{ArePartsFor, StepsTo, known_parts};
ghost use Rattle.cs_item.specs.PictureField.{IsPicture, picture_bytes};
ghost use Rattle.cs_roll.specs.Roll.{member_of};
ghost use Rattle.cs_slicer.specs.Projection.{image, known_by, projection};
ghost use Rattle.cs_slicer.specs.Turn.{IsTurnOf};
ghost use Rattle.cs_view.specs.Taking.{taken};

/// What a group's next turn makes of some changes is a turn of that group: its item alone leads to it.
pub fn next_is_a_turn()
    ensures { (before : GroupState) (changes : List Change) (turn : Turn) →
        IsDistinctBy id_of changes → length changes ≤ most_changes →
        next_turn before changes ≡ Some turn → IsTurnOf before turn }
{}

/// The projection of a group on any of its regions is a well-formed picture, and fits a datagram.
pub fn projection_is_a_picture()
    ensures well_formed { (g : GroupState) (epoch : ℕ) (known : List ℕ) → IsGroup g → epoch ≤ last_number →
        IsPicture (projection epoch known g) }
    ensures short { (g : GroupState) (epoch : ℕ) (known : List ℕ) → IsGroup g → epoch ≤ last_number →
        length (picture_bytes (projection epoch known g)) ≤ most_picture_bytes }
{}

/// The projection of a group on some of its regions steps to the projection of the next group on their image, by the
/// head of the turn and the parts of these regions, of which those of untouched ones may be left out. Parts of other
/// regions change nothing. Where the turn retired the node, the step says that it departed.
///
/// The parts of all known regions are enough. The image has regions of the next group alone, so the law holds of the
/// next turn again.
pub fn step_is_projected()
    ensures step { (before : GroupState) (turn : Turn) (epoch : ℕ) (known : List ℕ) (me : ℕ) (mode : Mode)
        (parts : List Part) → IsGroup before → IsGroup turn.group → IsTurnOf before turn →
        AllByRecursion (λ region. is_among (regions before.rows) region ≡ true) known →
        ArePartsFor before turn known parts → StepsTo before turn epoch known me mode parts }
    ensures enough { (before : GroupState) (turn : Turn) (known : List ℕ) →
        ArePartsFor before turn known (known_parts before turn known) }
    ensures again { (before : GroupState) (turn : Turn) (known : List ℕ) (me : ℕ) (mode : Mode) →
        AllByRecursion (λ region. is_among (regions turn.group.rows) region ≡ true)
        (image before turn known me mode) }
{}

/// A snapshot of a group is never unfit for a member of its regions: the member takes it, and knows those of the
/// regions that have it, or all of them as a Full node.
pub fn snapshots_are_taken()
    ensures { (g : GroupState) (epoch : ℕ) (known : List ℕ) (me : ℕ) (mode : Mode) → IsGroup g →
        AllByRecursion (λ region. is_among (regions g.rows) region ≡ true) known →
        list_any (λ region. is_some (member_of me (members_in region g.rows))) known ≡ true →
        taken me mode (projection epoch known g) ≡ Ok (projection epoch (known_by me mode g.rows known) g) }
{}
