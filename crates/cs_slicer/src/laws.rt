//! A law is the contract of a function that does nothing: calling it gives the caller its clause.
ghost use Rattle.cs_group.specs.Group.{GroupState};
ghost use Rattle.cs_group.specs.declared.next.Turn.{Turn};
ghost use Rattle.cs_slicer.specs.Joiners.{AreMembersOf, joiners};
ghost use Rattle.cs_slicer.specs.Turn.{IsTurnOf};

/// Whom the item of a turn lets in is a member of the group after the turn.
pub fn joiners_are_members()
    ensures { (before : GroupState) (turn : Turn) → IsTurnOf before turn →
        AreMembersOf turn.group (joiners turn.item) }
{}
