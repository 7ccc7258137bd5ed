ghost use Rattle.std.specs.Prelude.{◌≡◌, [], ◌∷◌, ◌++◌, length, IsTrue, ◌↔◌, IfOk, IfErr, OnOk, OnErr};
ghost use Rattle.std.specs.List.{AllByRecursion};
ghost use Rattle.cs_base.specs.Ascending.{IsAscendingBy, IsAt, IsGap, placed_by};
ghost use Rattle.cs_tree.specs.Route.{each_once, target_id, IsTarget};

use cs_base::{Addr, NodeId};
use std::alloc::{AllocError, Global};
use std::marker::Model;

/// Whom a piece is passed on to: nodes with their addresses, ascending by id.
#[derive(Debug, Drop)]
pub struct Targets {
    targets: Vec<(NodeId, Addr)>,
}

impl Model for Targets {
    ghost use Rattle.std.specs.Prelude.{List};
    ghost use Rattle.cs_base.specs.Ascending.{IsOrderedBy};
    ghost use Rattle.cs_tree.specs.Route.{Target, target_id, IsTarget};

    ghost Value = { List Target };

    ghost view = { λ list. list.targets.items };

    ghost invariant = { λ list. IsOrderedBy target_id IsTarget list.targets.items };
}

impl Targets {
    pub fn new(alloc: Global) -> Self
        ensures { result ≡ [] }
    {
        Targets {
            targets: Vec::new(alloc),
        }
    }

    pub fn len(&self) -> usize
        ensures { result ≡ length self.now }
    {
        self.targets.len()
    }

    pub fn is_empty(&self) -> bool
        ensures { IsTrue result ↔ (self.now ≡ []) }
    {
        self.targets.is_empty()
    }

    pub fn as_slice(&self) -> &[(NodeId, Addr)]
        ensures value { result.now ≡ self.now }
        ensures ascending { IsAscendingBy target_id self.now }
        ensures allowed { AllByRecursion IsTarget self.now }
    {
        &self.targets
    }

    pub fn push(&mut self, x: (NodeId, Addr)) -> Result<(), AllocError>
        requires { IsAscendingBy target_id (self.old ++ x ∷ []) }
        ensures ok { OnOk result (self.new ≡ self.old ++ x ∷ []) }
        ensures err { OnErr result (self.new ≡ self.old) }
    {
        let x = allowed(x);
        self.targets.push(x)?;
        Ok(())
    }

    pub fn copy(&self) -> Result<Self, AllocError>
        ensures { IfOk result (λ copy. copy ≡ self.now) }
    {
        let targets = Vec::from_slice(*self.targets.allocator(), &self.targets)?;
        Ok(Targets { targets })
    }

    // Where the target with this id is, or where it would go.
    fn search(&self, id: u32) -> Result<usize, usize>
        ensures ascending { IsAscendingBy target_id self.now }
        ensures found { IfOk result (IsAt target_id id self.now) }
        ensures absent { IfErr result (IsGap target_id id self.now) }
    {
        self.targets.binary_search_by_key(&id, |x| x.0.get())
    }

    /// Puts the target in its place, instead of one with its id.
    pub(crate) fn put(&mut self, x: (NodeId, Addr)) -> Result<(), AllocError>
        ensures { OnOk result (self.new ≡ placed_by target_id x self.old) }
    {
        let x = allowed(x);
        match self.search(x.0.get()) {
            Ok(place) => {
                self.targets[place] = x;
                Ok(())
            }
            Err(place) => {
                self.targets.insert(place, x)?;
                Ok(())
            }
        }
    }

    /// The targets that were offered, each id once: the first of those that it has stays.
    pub(crate) fn each_once(alloc: Global, offered: &[(NodeId, Addr)]) -> Result<Self, AllocError>
        ensures { IfOk result (λ targets. targets ≡ each_once offered.now) }
    {
        let mut targets = Targets::new(alloc);
        for x in offered.iter().rev() {
            targets.put(*x)?;
        }
        Ok(targets)
    }
}

// The same target, whose parts tell their ranges where they are read.
fn allowed(x: (NodeId, Addr)) -> (NodeId, Addr)
    ensures same { result ≡ x }
    ensures allowed { IsTarget result }
{
    let _id = x.0.get();
    let _ip = x.1.ip();
    x
}
