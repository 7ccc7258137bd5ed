//! What taking keeps, over the definitions alone. A law is the contract of a function that does nothing: calling it
//! gives the caller its clauses.
ghost use Rattle.std.specs.Prelude.{◌≡◌, ◌≢◌, ◌+◌, ◌^◌, ◌<◌, ℕ, List, length, Some, Ok, IsOk};
ghost use Rattle.std.specs.List.{AllByRecursion};
ghost use Rattle.cs_base.specs.Limits.{colours};
ghost use Rattle.cs_hold.specs.Held.{Held, IsHold, of_region};
ghost use Rattle.cs_hold.specs.Kept.{AreBytes, ArePiecesOf, KeepsPieces, Takes, TakesSlice};
ghost use Rattle.cs_hold.specs.Pieces.{four_of};
ghost use Rattle.cs_hold.specs.Taking.{sliced, taken};
ghost use Rattle.cs_hold.specs.Whole.{whole_in};
ghost use Rattle.cs_piece.specs.Blocks.{block_len, piece_of};
ghost use Rattle.cs_piece.specs.Joining.{total_of};

/// A piece that is taken makes a hold again, and changes its region alone. Of bytes, all pieces keep their bytes.
pub fn pieces_are_taken()
    ensures takes { (region colour : ℕ) (bytes : List ℕ) (held next : List Held) → IsHold held → colour < colours →
        total_of bytes < 2 ^ 32 → taken region colour bytes held ≡ Ok next → Takes region colour bytes held next }
    ensures keeps { (region colour : ℕ) (bytes : List ℕ) (held next : List Held) → IsHold held → colour < colours →
        AreBytes bytes → AllByRecursion (λ piece. AreBytes piece.1) (of_region region held) →
        taken region colour bytes held ≡ Ok next → KeepsPieces region colour bytes held next }
{}

/// Where all pieces of a region are those of some bytes, one more of them is taken, and they are so again.
pub fn pieces_of_bytes_fit()
    ensures fits { (region colour : ℕ) (whole : List ℕ) (held : List Held) → IsHold held → colour < colours →
        length whole < 2 ^ 32 → ArePiecesOf whole (of_region region held) →
        IsOk (taken region colour (piece_of whole colour) held) }
    ensures again { (region colour : ℕ) (whole : List ℕ) (held next : List Held) → IsHold held → colour < colours →
        length whole < 2 ^ 32 → ArePiecesOf whole (of_region region held) →
        taken region colour (piece_of whole colour) held ≡ Ok next → ArePiecesOf whole (of_region region next) }
{}

/// A slice that is taken makes a hold again, and changes its region alone.
pub fn slices_are_taken()
    ensures { (region : ℕ) (bytes : List ℕ) (held : List Held) → IsHold held → length bytes < 2 ^ 32 →
        TakesSlice region bytes held (sliced region bytes held) }
{}

/// A piece of some bytes says how many they are, and is as long as they want. So is the fourth that is made.
pub fn pieces_say_their_total()
    ensures total { (bytes : List ℕ) (colour : ℕ) → length bytes < 2 ^ 32 →
        total_of (piece_of bytes colour) ≡ length bytes }
    ensures long { (bytes : List ℕ) (colour : ℕ) → colour < colours →
        length (piece_of bytes colour) ≡ 4 + block_len (length bytes) }
{}

/// The bytes of a region are those that its four pieces are of.
pub fn four_pieces_give_the_bytes()
    ensures { (region : ℕ) (bytes : List ℕ) (held : List Held) → length bytes < 2 ^ 32 →
        of_region region held ≡ four_of bytes → whole_in region held ≡ Some bytes }
{}
