//! The local trees of a region, kept together.
ghost use Rattle.std.specs.Prelude.{◌≡◌, ◌+◌, ◌*◌, ◌≤◌, length, slice_get, IfOk};
ghost use Rattle.std.specs.Option.{option_copied};
ghost use Rattle.cs_base.specs.Limits.{most_summed};
ghost use Rattle.cs_tree.specs.Colour.{trees_of};
ghost use Rattle.cs_tree.specs.Local.{local_trees};

use crate::{Steps, Tree, local};
use cs_base::{COLOURS, RegionId};
use cs_roll::Roll;
use std::alloc::{AllocError, Global};
use std::marker::Model;
use std::rc::Rc;
use std::sync::ledger::Ledger;

/// A region with its local trees, by colour. Others may share the trees.
#[derive(Drop)]
pub(crate) struct LocalTrees {
    region: RegionId,
    trees: Rc<Vec<Tree>>,
}

impl Model for LocalTrees {
    ghost use Rattle.std.specs.Prelude.{ℕ, List};
    ghost use Rattle.cs_tree.specs.Tree.{RootedTree};

    ghost Value = { ℕ × List RootedTree };

    ghost view = { λ local. (local.region, local.trees.value.items) };
}

// The local trees of a roll, by colour. They take a step for each key of each.
fn trees_of<L: Ledger>(
    alloc: Global,
    roll: &Roll,
    steps: &mut Steps<L>,
) -> Result<Vec<Tree>, AllocError>
    requires { length roll.now ≤ most_summed }
    ensures value { IfOk result (λ trees. trees.items ≡ local_trees roll.now) }
    ensures most { steps.new ≤ steps.old + trees_of (length roll.now) * length roll.now }
{
    let mut trees = Vec::new(alloc);
    for colour in 0..roll.len().min(COLOURS) {
        let tree = local(alloc, roll, colour as u8, steps)?;
        trees.push(tree.unwrap())?;
    }
    Ok(trees)
}

impl LocalTrees {
    /// The local trees of a region with this roll.
    pub(crate) fn new<L: Ledger>(
        alloc: Global,
        region: RegionId,
        roll: &Roll,
        steps: &mut Steps<L>,
    ) -> Result<Self, AllocError>
        requires { length roll.now ≤ most_summed }
        ensures value { IfOk result (λ trees. trees ≡ (region, local_trees roll.now)) }
        ensures most { steps.new ≤ steps.old + trees_of (length roll.now) * length roll.now }
    {
        let trees = trees_of(alloc, roll, steps)?;
        let trees = Rc::new(alloc, trees)?;
        Ok(LocalTrees { region, trees })
    }

    pub(crate) fn region(&self) -> RegionId
        ensures { result ≡ self.now.0 }
    {
        self.region
    }

    /// The tree of a colour, where there is one.
    pub(crate) fn tree(&self, colour: u8) -> Option<&Tree>
        ensures { option_copied result ≡ slice_get self.now.1 colour }
    {
        self.trees.get(usize::from(colour))
    }

    /// The same trees, shared.
    pub(crate) fn share(&self) -> Result<Self, AllocError>
        ensures { IfOk result (λ trees. trees ≡ self.now) }
    {
        let trees = self.trees.clone()?;
        Ok(LocalTrees {
            region: self.region,
            trees,
        })
    }
}
