ghost use Rattle.std.specs.Prelude.{◌≡◌, ◌==◌, ◌≤◌, ⊤, length, Ok, IsSome, IfSome, IfOk, IfErr, MatchOption};
ghost use Rattle.std.specs.List.{AllByRecursion, find};
ghost use Rattle.std.specs.Option.{option_copied};
ghost use Rattle.cs_base.specs.Limits.{most_picture_bytes};
ghost use Rattle.cs_base.specs.Ranges.{IsMember, IsRegion};
ghost use Rattle.cs_item.specs.PictureField.{IsPicture, picture_bytes};
ghost use Rattle.cs_roll.specs.Roll.{IsRoll};
ghost use Rattle.cs_roll.specs.Sight.{IsByRegion, at_region};
ghost use Rattle.cs_view.specs.Faults.{step};
ghost use Rattle.cs_view.specs.Place.{place_in};
ghost use Rattle.cs_view.specs.Snapshot.{rolls_for, shown_to};
ghost use Rattle.cs_view.specs.Step.{next_summaries};
ghost use Rattle.cs_view.specs.Taking.{IsFaultOf, taken};
ghost use Rattle.cs_view.specs.View.{IsView, holder, shown};

use crate::faults::is_among;
use crate::place::{place_in_globals, place_in_rolls};
use crate::step::gather;
use crate::summaries::next_summaries;
use crate::taking::{check_picture, few_members, find_holder, kept_rolls, only_roll};
use crate::{Next, Parts, ViewFault};
use cs_base::{Epoch, Member, Mode, NodeId, RegionId};
use cs_item::{Head, Picture, Regions};
use cs_roll::{Roll, Sight, Summary};
use std::alloc::{AllocError, Global};
use std::marker::Model;

/// The picture that a node goes by: some regions, no more of them and no more members in its rolls together than a
/// group has, and each roll with members and of a listed region, whose summary is the listed one.
#[derive(Debug, Drop)]
pub struct View {
    alloc: Global,
    picture: Picture,
}

impl Model for View {
    ghost use Rattle.cs_item.specs.declared.picture.Picture.{Picture};
    ghost use Rattle.cs_view.specs.View.{IsView};

    ghost Value = { Picture };

    ghost view = { λ v. v.picture };

    ghost invariant = { λ v. IsView v.picture };
}

// The known roll of a region.
fn find_region(region: RegionId, rolls: &[(RegionId, Roll)]) -> Option<&(RegionId, Roll)>
    ensures { option_copied result ≡ find (λ pair. pair.0 == region) rolls.now }
{
    rolls.iter().find(|pair| pair.0 == region)
}

// The rolls of a snapshot: for mode Partial that of one region, for mode Full every known one.
fn rolls_for(mode: Mode, region: RegionId) -> Option<RegionId>
    ensures { result ≡ rolls_for mode region }
{
    match mode {
        Mode::Partial => Some(region),
        Mode::Full => None,
    }
}

impl View {
    /// The view that the node `me` takes from a picture: of a Partial node with the roll of the least region that has
    /// it, of a Full node with every roll.
    pub fn take(alloc: Global, me: NodeId, mode: Mode, picture: &Picture) -> Result<View, ViewFault>
        ensures ok { IfOk result (λ view. taken me mode picture.now ≡ Ok view) }
        ensures fault { IfErr result (IsFaultOf (taken me mode picture.now)) }
    {
        check_picture(me, picture)?;
        let picture = Picture {
            epoch: picture.epoch,
            summaries: picture.summaries.copy()?,
            rolls: kept_rolls(alloc, me, mode, &picture.rolls)?,
        };
        Ok(View { alloc, picture })
    }

    /// What the node `me` is after the step to the next epoch, by the head of that epoch and the parts of some of the
    /// regions that it touches.
    pub fn apply(
        &self,
        me: NodeId,
        mode: Mode,
        head: &Head,
        parts: &Parts,
    ) -> Result<Next, ViewFault>
        ensures ok { IfOk result (λ next. step me mode self.now head.now parts.now ≡ Ok next) }
        ensures fault { IfErr result (IsFaultOf (step me mode self.now head.now parts.now)) }
    {
        let summaries = next_summaries(self.alloc, &self.picture.summaries, head)?;
        self.apply_with(me, mode, head, parts, summaries)
    }

    /// The same step, for a caller that has the summaries of the next epoch, as `next_summaries` gives them.
    pub fn apply_with(
        &self,
        me: NodeId,
        mode: Mode,
        head: &Head,
        parts: &Parts,
        summaries: Regions,
    ) -> Result<Next, ViewFault>
        requires { summaries ≡ next_summaries self.now.summaries head.now }
        ensures ok { IfOk result (λ next. step me mode self.now head.now parts.now ≡ Ok next) }
        ensures fault { IfErr result (IsFaultOf (step me mode self.now head.now parts.now)) }
    {
        let next = gather(self.alloc, &self.picture, head, parts, summaries)?;
        if is_among(&head.left, me.get()) {
            return Ok(Next::Departed);
        }
        let picture = Picture {
            epoch: head.epoch,
            summaries: next.summaries,
            rolls: kept_rolls(self.alloc, me, mode, &next.rolls)?,
        };
        if !few_members(&picture.rolls) {
            return Err(ViewFault::Size);
        }
        Ok(Next::Member(View {
            alloc: self.alloc,
            picture,
        }))
    }

    pub fn epoch(&self) -> Epoch
        ensures { result ≡ self.now.epoch }
    {
        self.picture.epoch
    }

    /// The region and the member of an id: of the least region whose known roll has it, and otherwise the global of
    /// the least region that has it.
    pub fn place(&self, id: NodeId) -> Option<(RegionId, Member)>
        ensures value { result ≡ place_in id self.now }
        ensures id { IfSome result (λ place. place.1.id ≡ id) }
        ensures allowed { IfSome result (λ place. IsMember place.1) }
    {
        let rolls = self.picture.rolls.as_slice();
        let summaries = self.picture.summaries.as_slice();
        match place_in_rolls(id, rolls) {
            Some(place) => Some(place),
            None => place_in_globals(id, summaries),
        }
    }

    /// All summaries, with the roll of the one region `only`, or with every known roll.
    pub fn picture(&self, only: Option<RegionId>) -> Result<Picture, AllocError>
        requires { MatchOption only ⊤ (λ region. IsSome (at_region region self.now.rolls)) }
        ensures value { IfOk result (λ picture. picture ≡ shown only self.now) }
        ensures well_formed { IfOk result (λ picture. IsPicture self.now → IsPicture picture) }
        ensures short { IfOk result (λ p. IsPicture p → length (picture_bytes p) ≤ most_picture_bytes) }
    {
        match only {
            None => self.picture.copy(),
            Some(region) => Ok(Picture {
                epoch: self.picture.epoch,
                summaries: self.picture.summaries.copy()?,
                rolls: only_roll(self.alloc, find_region(region, self.known()))?,
            }),
        }
    }

    /// What the view shows to a node that asks for a snapshot: for mode Partial with the roll of the least known
    /// region that has it, for mode Full with every known roll. To one that no known roll has it shows nothing.
    pub fn shown_to(&self, id: NodeId, mode: Mode) -> Result<Option<Picture>, AllocError>
        ensures value { IfOk result (λ shown. shown ≡ shown_to id mode self.now) }
        ensures well_formed { IfOk result (λ shown. IsPicture self.now → IfSome shown IsPicture) }
    {
        let Some((region, _)) = self.holder(id) else {
            return Ok(None);
        };
        Ok(Some(self.picture(rolls_for(mode, *region))?))
    }

    /// The known rolls, ascending by region.
    pub fn known(&self) -> &[(RegionId, Roll)]
        ensures value { result.now ≡ self.now.rolls }
        ensures ascending { IsByRegion self.now.rolls }
        ensures allowed { AllByRecursion (λ pair. IsRegion pair.0 × IsRoll pair.1) self.now.rolls }
        ensures keeps { IsView self.now }
    {
        self.picture.rolls.as_slice()
    }

    /// The summary of each region, ascending by region.
    pub fn summaries(&self) -> &[(RegionId, Summary)]
        ensures { result.now ≡ self.now.summaries }
    {
        self.regions().as_slice()
    }

    /// The same, as a list that can be shared.
    pub fn regions(&self) -> &Regions
        ensures { result.now ≡ self.now.summaries }
    {
        &self.picture.summaries
    }

    /// The least known region whose roll has the id, with that roll.
    pub fn holder(&self, id: NodeId) -> Option<&(RegionId, Roll)>
        ensures { option_copied result ≡ holder id self.now.rolls }
    {
        find_holder(id, self.known())
    }

    /// The summary of a region, where it is listed.
    pub fn listed(&self, region: RegionId) -> Option<&Summary>
        ensures { option_copied result ≡ at_region region self.now.summaries }
    {
        self.picture.summaries.find(region)
    }

    pub fn copy(&self) -> Result<Self, AllocError>
        ensures { IfOk result (λ copy. copy ≡ self.now) }
    {
        Ok(View {
            alloc: self.alloc,
            picture: self.picture.copy()?,
        })
    }
}

impl Sight for View {
    ghost summaries = { λ v. v.summaries };

    ghost rolls = { λ v. v.rolls };

    fn count(&self) -> usize {
        // The contract of `known` says what every view keeps, and that of `count` follows from it.
        let _ascending = self.known();
        self.picture.summaries.as_slice().len()
    }

    fn region(&self, i: usize) -> RegionId {
        self.picture.summaries.as_slice()[i].0
    }

    fn summary(&self, i: usize) -> &Summary {
        &self.picture.summaries.as_slice()[i].1
    }

    fn roll(&self, r: RegionId) -> Option<&Roll> {
        self.picture.rolls.find(r)
    }
}
