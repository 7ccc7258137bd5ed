//! The trees of what is seen of a group, kept from one view to the next. What a step leaves as it is is shared with
//! the trees before.
ghost use Rattle.std.specs.Prelude.{◌≡◌, ◌+◌, ◌==◌, ◌<◌, ◌≤◌, length, map, Some, IsTrue, is_some, slice_get};
ghost use Rattle.std.specs.Prelude.{IfOk, IfSome, OnOk, OnErr};
ghost use Rattle.std.specs.Option.{option_copied};
ghost use Rattle.std.specs.List.{find, range_with_len, sum_by};
ghost use Rattle.cs_base.specs.Limits.{colours, most_summed};
ghost use Rattle.cs_tree.specs.Inter.{inter_tree, region_points};
ghost use Rattle.cs_tree.specs.Kept.{inter_trees, kept_local, kept_trees, known_trees};
ghost use Rattle.cs_tree.specs.Local.{local_trees};
ghost use Rattle.cs_tree.specs.Renewal.{are_same_points, steps_between, steps_of_renewal, steps_within, was_known};

use crate::inter_tree::region_point;
use crate::local_trees::LocalTrees;
use crate::routes::known_roll;
use crate::{Steps, Tree, inter};
use cs_base::RegionId;
use cs_roll::{Roll, Sight};
use std::alloc::{AllocError, Global};
use std::marker::{Brand, Model};
use std::rc::Rc;
use std::sync::ledger::{Blank, Ledger};

/// The inter-region tree of each colour, and the local trees of each known region, of what is seen of a group.
#[derive(Drop)]
pub struct Kept {
    alloc: Global,
    between: [Rc<Tree>; 4],
    within: Vec<LocalTrees>,
}

impl Model for Kept {
    ghost use Rattle.std.specs.Prelude.{map};
    ghost use Rattle.cs_tree.specs.Kept.{KeptTrees};

    ghost Value = { KeptTrees };

    ghost view = { λ kept. record {
      between = map (λ tree. tree.value) kept.between;
      within = kept.within.items;
    } };
}

/// Whether the regions and the points of their representatives are the same.
pub(crate) fn are_same_points<V: Sight>(old: &V, new: &V, colour: u8) -> bool
    requires { colour < colours }
    ensures same { IsTrue result →
        region_points colour (V.summaries old.now) ≡ region_points colour (V.summaries new.now) }
    ensures test { result ≡ are_same_points colour (V.summaries old.now) (V.summaries new.now) }
{
    let regions = old.count();
    if new.count() != regions {
        return false;
    }
    for i in 0..regions {
        let before = region_point(old, i, colour);
        let now = region_point(new, i, colour);
        if before != now {
            return false;
        }
    }
    true
}

// The same tree, shared.
fn shared_tree(tree: &Rc<Tree>) -> Result<Rc<Tree>, AllocError>
    ensures { IfOk result (λ copy. copy.value ≡ tree.now.value) }
{
    let copy = tree.clone()?;
    Ok(copy)
}

// The inter-region tree of a colour, to be shared.
fn new_between<V: Sight, L: Ledger>(
    alloc: Global,
    sight: &V,
    colour: u8,
    steps: &mut Steps<L>,
) -> Result<Rc<Tree>, AllocError>
    requires colour { colour < colours }
    requires some { 0 < length (V.summaries sight.now) }
    ensures value { IfOk result (λ tree. inter_tree colour (V.summaries sight.now) ≡ Some tree.value) }
    ensures most { steps.new ≤ steps.old + length (V.summaries sight.now) }
{
    let tree = inter(alloc, sight, colour, steps)?;
    let tree = Rc::new(alloc, tree)?;
    Ok(tree)
}

// The inter-region tree of a colour: the one before, where the same regions stand at the same points.
fn renewed_between<V: Sight, L: Ledger>(
    alloc: Global,
    tree: &Rc<Tree>,
    old: &V,
    new: &V,
    colour: u8,
    steps: &mut Steps<L>,
) -> Result<Rc<Tree>, AllocError>
    requires colour { colour < colours }
    requires some { 0 < length (V.summaries new.now) }
    requires before { inter_tree colour (V.summaries old.now) ≡ Some tree.now.value }
    ensures value { IfOk result (λ tree. inter_tree colour (V.summaries new.now) ≡ Some tree.value) }
    ensures most { steps.new ≤ steps.old + steps_between (V.summaries old.now) (V.summaries new.now) colour }
{
    if are_same_points(old, new, colour) {
        return shared_tree(tree);
    }
    new_between(alloc, new, colour, steps)
}

// The local trees of each known region.
fn all_within<V: Sight, L: Ledger>(
    alloc: Global,
    sight: &V,
    steps: &mut Steps<L>,
) -> Result<Vec<LocalTrees>, AllocError>
    ensures { IfOk result (λ within. within.items ≡ known_trees (V.rolls sight.now)) }
{
    let mut within = Vec::new(alloc);
    for i in 0..sight.count() {
        let region = sight.region(i);
        if let Some(roll) = known_roll(sight, region) {
            let trees = LocalTrees::new(alloc, region, roll, steps)?;
            within.push(trees)?;
        }
    }
    Ok(within)
}

// The same trees beside each region, shared.
fn shared(alloc: Global, within: &[LocalTrees]) -> Result<Vec<LocalTrees>, AllocError>
    ensures { IfOk result (λ copy. copy.items ≡ within.now) }
{
    let mut copy = Vec::with_capacity(alloc, within.len())?;
    for trees in within {
        copy.push(trees.share()?)?;
    }
    Ok(copy)
}

// The trees of what is seen, with steps counted from none on.
fn kept_from_none<V: Sight, L: Ledger>(
    alloc: Global,
    sight: &V,
    blank: Blank,
) -> Result<Kept, AllocError>
    requires name { blank.name ≡ L.name }
    requires parts { blank.parts ≡ L.parts }
    requires some_part { 0 < blank.parts }
    requires some { 0 < length (V.summaries sight.now) }
    ensures { IfOk result (λ kept. kept ≡ kept_trees (V.summaries sight.now) (V.rolls sight.now)) }
{
    let mut steps = Steps::<L>::new(blank);
    let zero = new_between(alloc, sight, 0, &mut steps)?;
    let one = new_between(alloc, sight, 1, &mut steps)?;
    let two = new_between(alloc, sight, 2, &mut steps)?;
    let three = new_between(alloc, sight, 3, &mut steps)?;
    let within = all_within(alloc, sight, &mut steps)?;
    Ok(Kept {
        alloc,
        between: [zero, one, two, three],
        within,
    })
}

impl Kept {
    /// The trees of what is seen.
    pub fn new<V: Sight>(alloc: Global, sight: &V) -> Result<Self, AllocError>
        requires { 0 < length (V.summaries sight.now) }
        ensures { IfOk result (λ kept. kept ≡ kept_trees (V.summaries sight.now) (V.rolls sight.now)) }
    {
        kept_from_none::<V, Brand>(alloc, sight, Blank::new(1))
    }

    /// Where the trees have their memory from.
    pub(crate) fn allocator(&self) -> Global {
        self.alloc
    }

    /// The inter-region tree of a colour.
    pub fn inter_tree(&self, colour: u8) -> &Tree
        requires { colour < colours }
        ensures { slice_get self.now.between colour ≡ Some result.now }
    {
        self.between[usize::from(colour)].as_ref()
    }

    // The local trees of a region, where it is known.
    fn known(&self, region: RegionId) -> Option<&LocalTrees>
        ensures { option_copied result ≡ find (λ known. known.0 == region) self.now.within }
    {
        self.within.iter().find(|known| known.region() == region)
    }

    /// The local tree of a region and a colour, where one is kept.
    pub fn local_tree(&self, region: RegionId, colour: u8) -> Option<&Tree>
        ensures { option_copied result ≡ kept_local region colour self.now }
    {
        self.known(region)?.tree(colour)
    }

    pub fn copy(&self) -> Result<Self, AllocError>
        ensures { IfOk result (λ copy. copy ≡ self.now) }
    {
        let [zero, one, two, three] = &self.between;
        let between = [zero.clone()?, one.clone()?, two.clone()?, three.clone()?];
        Ok(Kept {
            alloc: self.alloc,
            between,
            within: shared(self.alloc, &self.within)?,
        })
    }

    // The local trees of a region, where it is known and was known before with the same roll.
    fn unchanged<V: Sight>(&self, old: &V, region: RegionId, roll: &Roll) -> Option<&LocalTrees>
        requires { self.now.within ≡ known_trees (V.rolls old.now) }
        ensures value { IfSome result (λ trees. trees.now ≡ (region, local_trees roll.now)) }
        ensures some { is_some result ≡ was_known (V.rolls old.now) (region, roll.now) }
    {
        let before = old.roll(region)?;
        if !before.is_same(roll) {
            return None;
        }
        self.known(region)
    }

    // The local trees of a region that is known now.
    fn renewed_within<V: Sight, L: Ledger>(
        &self,
        old: &V,
        region: RegionId,
        roll: &Roll,
        steps: &mut Steps<L>,
    ) -> Result<LocalTrees, AllocError>
        requires kept { self.now.within ≡ known_trees (V.rolls old.now) }
        requires few { length roll.now ≤ most_summed }
        ensures value { IfOk result (λ trees. trees ≡ (region, local_trees roll.now)) }
        ensures most { steps.new ≤ steps.old + steps_within (V.rolls old.now) (region, roll.now) }
    {
        match self.unchanged(old, region, roll) {
            Some(trees) => trees.share(),
            None => LocalTrees::new(self.alloc, region, roll, steps),
        }
    }

    // The local trees of each region that is known now.
    fn renewed_all_within<V: Sight, L: Ledger>(
        &self,
        old: &V,
        new: &V,
        steps: &mut Steps<L>,
    ) -> Result<Vec<LocalTrees>, AllocError>
        requires { self.now.within ≡ known_trees (V.rolls old.now) }
        ensures value { IfOk result (λ within. within.items ≡ known_trees (V.rolls new.now)) }
        ensures most { steps.new ≤ steps.old + sum_by (steps_within (V.rolls old.now)) (V.rolls new.now) }
    {
        let mut within = Vec::new(self.alloc);
        for i in 0..new.count() {
            let region = new.region(i);
            if let Some(roll) = known_roll(new, region) {
                let trees = self.renewed_within(old, region, roll, steps)?;
                within.push(trees)?;
            }
        }
        Ok(within)
    }

    // The inter-region tree of each colour.
    fn renewed_all_between<V: Sight, L: Ledger>(
        &self,
        old: &V,
        new: &V,
        steps: &mut Steps<L>,
    ) -> Result<[Rc<Tree>; 4], AllocError>
        requires kept { self.now.between ≡ inter_trees (V.summaries old.now) }
        requires some { 0 < length (V.summaries new.now) }
        ensures value { IfOk result (λ between. map (λ tree. tree.value) between
            ≡ inter_trees (V.summaries new.now)) }
        ensures most { steps.new ≤ steps.old
            + sum_by (steps_between (V.summaries old.now) (V.summaries new.now)) (range_with_len 0 colours) }
    {
        let [zero, one, two, three] = &self.between;
        let zero = renewed_between(self.alloc, zero, old, new, 0, steps)?;
        let one = renewed_between(self.alloc, one, old, new, 1, steps)?;
        let two = renewed_between(self.alloc, two, old, new, 2, steps)?;
        let three = renewed_between(self.alloc, three, old, new, 3, steps)?;
        Ok([zero, one, two, three])
    }

    /// Makes these the trees of `new`, where they are those of `old`. What is as it was is kept and not built again.
    pub fn renew<V: Sight, L: Ledger>(
        &mut self,
        old: &V,
        new: &V,
        steps: &mut Steps<L>,
    ) -> Result<(), AllocError>
        requires kept { self.old ≡ kept_trees (V.summaries old.now) (V.rolls old.now) }
        requires some { 0 < length (V.summaries new.now) }
        ensures ok { OnOk result (self.new ≡ kept_trees (V.summaries new.now) (V.rolls new.now)) }
        ensures err { OnErr result (self.new ≡ self.old) }
        ensures most { steps.new ≤ steps.old
            + steps_of_renewal (V.summaries old.now) (V.rolls old.now) (V.summaries new.now) (V.rolls new.now) }
    {
        let between = self.renewed_all_between(old, new, steps)?;
        let within = self.renewed_all_within(old, new, steps)?;
        self.between = between;
        self.within = within;
        Ok(())
    }
}
