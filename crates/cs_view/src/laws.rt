//! What holds of the views that are taken and stepped to. A law is the contract of a function that does nothing:
//! calling it gives the caller its clauses.
ghost use Rattle.std.specs.Prelude.{◌≡◌, ◌≢◌, ℕ, ◌+◌, List, length, Option, Some, Ok, Err};
ghost use Rattle.std.specs.List.{AllByRecursion};
ghost use Rattle.cs_base.specs.Limits.{most_members};
ghost use Rattle.cs_base.specs.Ranges.{IsFromTo, IsMember};
ghost use Rattle.cs_base.specs.declared.change.Mode.{Mode};
ghost use Rattle.cs_base.specs.declared.member.Member.{Member};
ghost use Rattle.cs_item.specs.PictureField.{IsPicture};
ghost use Rattle.cs_item.specs.SliceField.{IsHead, IsPart};
ghost use Rattle.cs_item.specs.declared.head.Head.{Head};
ghost use Rattle.cs_item.specs.declared.part.Part.{Part};
ghost use Rattle.cs_item.specs.declared.picture.Picture.{Picture};
ghost use Rattle.cs_view.specs.Causes.{IsStepFault};
ghost use Rattle.cs_view.specs.Faults.{step};
ghost use Rattle.cs_view.specs.Place.{place_in};
ghost use Rattle.cs_view.specs.Taking.{taken};
ghost use Rattle.cs_view.specs.View.{IsView, shown};
ghost use Rattle.cs_view.specs.declared.fault.ViewFault.{ViewFault};
ghost use Rattle.cs_view.specs.declared.fault.ViewFault.TheVariants as faults;
ghost use Rattle.cs_view.specs.declared.next.Next.{Next};
ghost use Rattle.cs_view.specs.declared.next.Next.TheVariants as next;

/// What a node takes from a picture is a view, which is well formed where the picture is.
pub fn taken_is_a_picture()
    ensures view { (me : ℕ) (mode : Mode) (p view : Picture) → taken me mode p ≡ Ok view → IsView view }
    ensures well_formed { (me : ℕ) (mode : Mode) (p view : Picture) → IsPicture p →
        taken me mode p ≡ Ok view → IsPicture view }
{}

/// What a node took it takes again unchanged.
pub fn taken_again()
    ensures { (me : ℕ) (mode : Mode) (p view : Picture) → taken me mode p ≡ Ok view →
        taken me mode view ≡ Ok view }
{}

/// What a member steps to is a view of the next epoch, which is well formed where the view, the head and the parts
/// are. The head of a step is that of the next epoch for one who departs too.
pub fn step_is_a_picture()
    ensures view { (me : ℕ) (mode : Mode) (view : Picture) (head : Head) (parts : List Part) (after : Picture) →
        step me mode view head parts ≡ Ok (next.Member after) → IsView after }
    ensures well_formed { (me : ℕ) (mode : Mode) (view : Picture) (head : Head) (parts : List Part)
        (after : Picture) → IsPicture view → IsHead head → AllByRecursion IsPart parts →
        step me mode view head parts ≡ Ok (next.Member after) → IsPicture after }
    ensures epoch { (me : ℕ) (mode : Mode) (view : Picture) (head : Head) (parts : List Part) (after : Picture) →
        step me mode view head parts ≡ Ok (next.Member after) → after.epoch ≡ view.epoch + 1 }
    ensures head { (me : ℕ) (mode : Mode) (view : Picture) (head : Head) (parts : List Part) (outcome : Next) →
        step me mode view head parts ≡ Ok outcome → head.epoch ≡ view.epoch + 1 }
{}

/// What is shown of a well-formed view is well formed.
pub fn shown_is_a_picture()
    ensures { (only : Option ℕ) (view : Picture) → IsPicture view → IsPicture (shown only view) }
{}

/// Each known roll of a view has members, and no more than a group has.
pub fn known_rolls_have_members()
    ensures { (view : Picture) → IsView view →
        AllByRecursion (λ pair. IsFromTo 1 most_members (length pair.1)) view.rolls }
{}

/// What stands in a place has the id, and is allowed where the view is well formed.
pub fn place_is_a_member()
    ensures id { (id : ℕ) (view : Picture) (place : ℕ × Member) →
        place_in id view ≡ Some place → place.1.id ≡ id }
    ensures allowed { (id : ℕ) (view : Picture) (place : ℕ × Member) → IsPicture view →
        place_in id view ≡ Some place → IsMember place.1 }
{}

/// Neither a picture nor a step has a fault of memory, and a step has no fault of an epoch or of a missing part
/// without cause.
pub fn faults_have_causes()
    ensures taken { (me : ℕ) (mode : Mode) (p : Picture) (fault : ViewFault) →
        taken me mode p ≡ Err fault → fault ≢ faults.Memory }
    ensures step { (me : ℕ) (mode : Mode) (view : Picture) (head : Head) (parts : List Part) (fault : ViewFault) →
        step me mode view head parts ≡ Err fault → IsStepFault view head parts fault }
{}
