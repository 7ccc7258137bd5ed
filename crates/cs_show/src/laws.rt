//! What holds of every printed block. A law is the contract of a function that does nothing: calling it gives the
//! caller its clauses.
ghost use Rattle.std.specs.Prelude.{◌≡◌, ℕ, ◌≤◌, List, [], ◌∷◌, IsSome, Option, None};
ghost use Rattle.std.specs.List.{AllByRecursion};
ghost use Rattle.cs_base.specs.Limits.{last_number};
ghost use Rattle.cs_base.specs.Ranges.{IsRegion};
ghost use Rattle.cs_base.specs.declared.member.Member.{Member};
ghost use Rattle.cs_item.specs.declared.picture.Picture.{Picture};
ghost use Rattle.cs_roll.specs.Sight.{IsByRegion, IsSight, at_region};
ghost use Rattle.cs_show.specs.Agreement.{Agree, blocks_of, epoch_of};
ghost use Rattle.cs_show.specs.Block.{block_lines};
ghost use Rattle.cs_show.specs.PrintedTrees.{TreesAreGood};
ghost use Rattle.cs_show.specs.Text.{Line, all_but_last, text_of};

/// The lines of a view up to `end` are the one block that is found in their text. Whatever line stands before it, its
/// words say good local trees: of each region that has members in the block they lead from a root to every member, by
/// one way alone and with few children for each, and no member has children in two of them.
pub fn printed_trees_are_good()
    ensures found { (view : Picture) →
        blocks_of (text_of (block_lines view))
        ≡ record { call = None; lines = all_but_last (block_lines view) } ∷ [] }
    ensures good { (view : Picture) (call : Option Line) → IsSight view.summaries view.rolls →
        AllByRecursion (λ (pair : ℕ × List Member). IsRegion pair.0) view.rolls →
        TreesAreGood (record { call = call; lines = all_but_last (block_lines view) }) }
{}

/// The blocks of two views of one epoch agree where the views have one list of summaries, and one roll for each region
/// that both know. The epoch is read back from a block.
pub fn printed_blocks_agree()
    ensures agree { (a b : Picture) (before_a before_b : Option Line) → a.epoch ≡ b.epoch → a.summaries ≡ b.summaries →
        ((region : ℕ) → IsSome (at_region region a.rolls) → IsSome (at_region region b.rolls) →
        at_region region a.rolls ≡ at_region region b.rolls) →
        IsByRegion a.rolls → IsByRegion b.rolls →
        AllByRecursion (λ (pair : ℕ × List Member). IsRegion pair.0) a.rolls →
        AllByRecursion (λ (pair : ℕ × List Member). IsRegion pair.0) b.rolls →
        Agree (record { call = before_a; lines = all_but_last (block_lines a) })
        (record { call = before_b; lines = all_but_last (block_lines b) }) }
    ensures epoch { (view : Picture) (before : Option Line) → view.epoch ≤ last_number →
        epoch_of (record { call = before; lines = all_but_last (block_lines view) }) ≡ view.epoch }
{}
