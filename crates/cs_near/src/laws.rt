//! What holds of the distances to centroids. A law is the contract of a function that does nothing: calling it
//! gives the caller its clauses.
ghost use Rattle.std.specs.Prelude.{◌≡◌, ◌<◌, ◌⊎◌, List, length, All, Any};
ghost use Rattle.std.specs.Ordering.{ordering_reverse};
ghost use Rattle.cs_base.specs.Total.{Total, IsTotal};
ghost use Rattle.cs_near.specs.Distance.{distance_cmp, IsAtMostAsFar};

/// From one centroid, or from one point as the sum of one, being at most as far away is a total preorder.
pub fn distances_are_ordered()
    ensures reflexive { (from a : Total) → IsAtMostAsFar from a a }
    ensures reversed { (from a b : Total) → distance_cmp from b a ≡ ordering_reverse (distance_cmp from a b) }
    ensures total { (from a b : Total) → IsAtMostAsFar from a b ⊎ IsAtMostAsFar from b a }
    ensures transitive { (from a b c : Total) → IsTotal b
        → IsAtMostAsFar from a b → IsAtMostAsFar from b c → IsAtMostAsFar from a c }
{}

/// So of some centroids one is nearest: it is at most as far away as each.
pub fn one_is_nearest()
    ensures { (from : Total) (others : List Total) → 0 < length others → All IsTotal others
        → Any (λ a. All (IsAtMostAsFar from a) others) others }
{}
