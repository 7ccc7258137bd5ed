//! What is seen of a group, together with its trees.
ghost use Rattle.std.specs.Prelude.{◌≡◌, ◌<◌, length, IsSome, IfOk};
ghost use Rattle.cs_base.specs.Limits.{colours};
ghost use Rattle.cs_roll.specs.Sight.{at_region};
ghost use Rattle.cs_tree.specs.Kept.{kept_trees};
ghost use Rattle.cs_tree.specs.Route.{route};
ghost use Rattle.cs_tree.specs.Start.{start};

use crate::standing::Standings;
use crate::{Kept, Steps, Targets, start};
use cs_base::{NodeId, RegionId};
use cs_roll::Sight;
use std::alloc::{AllocError, Global};
use std::marker::{Brand, Model};
use std::sync::ledger::{Blank, Ledger};

/// What is seen of a group, with its trees kept beside it, and the nodes that represent its regions.
#[derive(Drop)]
pub struct WithTrees<V: Sight> {
    sight: V,
    kept: Kept,
    represented: Standings,
}

impl<V: Sight> Model for WithTrees<V> {
    ghost use Rattle.std.specs.Prelude.{◌≡◌};
    ghost use Rattle.cs_tree.specs.Kept.{kept_trees};
    ghost use Rattle.cs_tree.specs.Standing.{standings};

    ghost Value = { V };

    ghost view = { λ both. both.sight };

    ghost invariant = { λ both. (both.kept ≡ kept_trees (V.summaries both.sight) (V.rolls both.sight))
        × (both.represented ≡ standings (V.summaries both.sight)) };
}

// The trees of the next sight, with steps counted from none on.
fn renewed_from_none<V: Sight, L: Ledger>(
    kept: &Kept,
    old: &V,
    new: &V,
    blank: Blank,
) -> Result<Kept, AllocError>
    requires name { blank.name ≡ L.name }
    requires parts { blank.parts ≡ L.parts }
    requires some_part { 0 < blank.parts }
    requires kept { kept.now ≡ kept_trees (V.summaries old.now) (V.rolls old.now) }
    requires some { 0 < length (V.summaries new.now) }
    ensures { IfOk result (λ kept. kept ≡ kept_trees (V.summaries new.now) (V.rolls new.now)) }
{
    let mut steps = Steps::<L>::new(blank);
    let mut kept = kept.copy()?;
    kept.renew(old, new, &mut steps)?;
    Ok(kept)
}

impl<V: Sight + Drop> WithTrees<V> {
    /// The sight with all its trees, which are built.
    pub fn new(alloc: Global, sight: V) -> Result<Self, AllocError>
        requires { 0 < length (V.summaries sight) }
        ensures { IfOk result (λ both. both ≡ sight) }
    {
        let kept = Kept::new(alloc, &sight)?;
        let represented = Standings::new(alloc, &sight)?;
        Ok(WithTrees {
            sight,
            kept,
            represented,
        })
    }

    /// The sight that comes after this one, with its trees: those that changed are built, and the others shared.
    pub fn followed_by(&self, next: V) -> Result<Self, AllocError>
        requires { 0 < length (V.summaries next) }
        ensures { IfOk result (λ both. both ≡ next) }
    {
        let kept = renewed_from_none::<V, Brand>(&self.kept, &self.sight, &next, Blank::new(1))?;
        let represented = Standings::new(self.kept.allocator(), &next)?;
        Ok(WithTrees {
            sight: next,
            kept,
            represented,
        })
    }

    pub fn sight(&self) -> &V
        ensures { result.now ≡ self.now }
    {
        &self.sight
    }

    /// The trees, which are those of the sight.
    pub fn kept(&self) -> &Kept
        ensures { result.now ≡ kept_trees (V.summaries self.now) (V.rolls self.now) }
    {
        &self.kept
    }

    /// As `route`, along the kept trees.
    pub fn route(&self, me: NodeId, region: RegionId, colour: u8) -> Result<Targets, AllocError>
        requires colour { colour < colours }
        requires listed { IsSome (at_region region (V.summaries self.now)) }
        ensures { IfOk result (λ targets. targets
            ≡ route me (V.summaries self.now) (V.rolls self.now) region colour) }
    {
        self.kept
            .route_by(me, &self.sight, &self.represented, region, colour)
    }

    /// As `start`, along the kept trees.
    pub fn start(&self, me: NodeId, region: RegionId, colour: u8) -> Result<Targets, AllocError>
        requires colour { colour < colours }
        requires some { 0 < length (V.summaries self.now) }
        ensures { IfOk result (λ targets. targets
            ≡ start me (V.summaries self.now) (V.rolls self.now) region colour) }
    {
        // The count tells what holds of the sight.
        let _count = self.sight.count();
        let tree = self.kept.inter_tree(colour);
        start(self.kept.allocator(), me, &self.sight, tree, region, colour)
    }
}
