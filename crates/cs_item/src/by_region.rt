ghost use Rattle.std.specs.Prelude.{◌≡◌, [], ◌∷◌, ◌++◌, length, IsTrue, ◌↔◌, IfOk, OnOk, OnErr};
ghost use Rattle.std.specs.List.{AllByRecursion};
ghost use Rattle.std.specs.Option.{option_copied};
ghost use Rattle.cs_base.specs.Ranges.{IsRegion};
ghost use Rattle.cs_item.specs.ByRegion.{pairs_in};
ghost use Rattle.cs_roll.specs.Sight.{IsByRegion, at_region};

use crate::place::place_of;
use cs_base::RegionId;
use cs_roll::{Roll, Summary};
use std::alloc::{AllocError, Global};
use std::marker::Model;
use std::rc::Rc;

/// What can stand beside a region in such a list: the summary or the roll of its members.
pub trait Beside: Drop {
    /// What each such value meets.
    ghost IsAllowed: { Self → Type 0 };

    /// How many members the region has.
    fn size(&self) -> usize
        ensures { IsAllowed self.now };

    fn copied(&self) -> Result<Self, AllocError>
        ensures { IfOk result (λ copy. copy ≡ self.now) };
}

impl Beside for Summary {
    ghost use Rattle.cs_roll.specs.Summary.{IsSummary};

    ghost IsAllowed = { IsSummary };

    fn size(&self) -> usize {
        self.size as usize
    }

    fn copied(&self) -> Result<Self, AllocError> {
        self.copy()
    }
}

impl Beside for Roll {
    ghost use Rattle.cs_roll.specs.Roll.{IsRoll};

    ghost IsAllowed = { IsRoll };

    fn size(&self) -> usize {
        self.as_slice().len()
    }

    fn copied(&self) -> Result<Self, AllocError> {
        self.copy()
    }
}

// The pairs of a list: its own, or shared with others.
#[derive(Debug, Drop)]
enum Pairs<T: Beside> {
    Own(Vec<(RegionId, T)>),
    Shared(Rc<Vec<(RegionId, T)>>),
}

/// What stands beside some regions, ascending by region. A list that is shared gives copies without a copy of its
/// pairs.
#[derive(Debug, Drop)]
pub struct ByRegion<T: Beside> {
    pairs: Pairs<T>,
}

/// The summaries of regions.
pub type Regions = ByRegion<Summary>;

/// The rolls of regions.
pub type Rolls = ByRegion<Roll>;

impl<T: Beside> Model for ByRegion<T> {
    ghost use Rattle.std.specs.Prelude.{ℕ, List};
    ghost use Rattle.std.specs.List.{AllByRecursion};
    ghost use Rattle.cs_base.specs.Ranges.{IsRegion};
    ghost use Rattle.cs_item.specs.ByRegion.{pairs_in};
    ghost use Rattle.cs_roll.specs.Sight.{IsByRegion};

    ghost Value = { List (ℕ × T) };

    ghost view = { λ list. pairs_in list.pairs };

    ghost invariant = { λ list. IsByRegion (pairs_in list.pairs)
        × AllByRecursion (λ pair. IsRegion pair.0 × T.IsAllowed pair.1) (pairs_in list.pairs) };
}

// The same pairs again.
fn copy_of<T: Beside>(
    alloc: Global,
    pairs: &[(RegionId, T)],
) -> Result<Vec<(RegionId, T)>, AllocError>
    ensures { IfOk result (λ copy. copy.items ≡ pairs.now) }
{
    let mut copy = Vec::with_capacity(alloc, pairs.len())?;
    for (region, item) in pairs {
        copy.push((*region, item.copied()?))?;
    }
    Ok(copy)
}

impl<T: Beside> Pairs<T> {
    fn allocator(&self) -> Global {
        match self {
            Pairs::Own(pairs) => *pairs.allocator(),
            Pairs::Shared(pairs) => *pairs.allocator(),
        }
    }

    fn as_slice(&self) -> &[(RegionId, T)]
        ensures { result.now ≡ pairs_in self.now }
    {
        match self {
            Pairs::Own(pairs) => pairs.as_slice(),
            Pairs::Shared(pairs) => pairs.as_slice(),
        }
    }

    fn copy(&self) -> Result<Self, AllocError>
        ensures { IfOk result (λ copy. pairs_in copy ≡ pairs_in self.now) }
    {
        match self {
            Pairs::Own(pairs) => Ok(Pairs::Own(copy_of(self.allocator(), pairs)?)),
            Pairs::Shared(pairs) => Ok(Pairs::Shared(pairs.clone()?)),
        }
    }

    // The same pairs, shared from now on.
    fn shared(self) -> Result<Self, AllocError>
        ensures { IfOk result (λ shared. pairs_in shared ≡ pairs_in self) }
    {
        match self {
            Pairs::Own(pairs) => {
                let alloc = *pairs.allocator();
                Ok(Pairs::Shared(Rc::new(alloc, pairs)?))
            }
            shared => Ok(shared),
        }
    }

    // Puts a pair behind the others. Pairs that are shared are copied for it.
    fn push(&mut self, pair: (RegionId, T)) -> Result<(), AllocError>
        ensures ok { OnOk result (pairs_in self.new ≡ pairs_in self.old ++ pair ∷ []) }
        ensures err { OnErr result (pairs_in self.new ≡ pairs_in self.old) }
    {
        if let Pairs::Own(pairs) = self {
            pairs.push(pair)?;
            return Ok(());
        }
        let mut own = copy_of(self.allocator(), self.as_slice())?;
        own.push(pair)?;
        *self = Pairs::Own(own);
        Ok(())
    }
}

impl<T: Beside> ByRegion<T> {
    pub fn new(alloc: Global) -> Self
        ensures { result ≡ [] }
    {
        ByRegion {
            pairs: Pairs::Own(Vec::new(alloc)),
        }
    }

    pub fn len(&self) -> usize
        ensures { result ≡ length self.now }
    {
        self.pairs.as_slice().len()
    }

    pub fn is_empty(&self) -> bool
        ensures { IsTrue result ↔ (self.now ≡ []) }
    {
        self.pairs.as_slice().is_empty()
    }

    pub fn as_slice(&self) -> &[(RegionId, T)]
        ensures value { result.now ≡ self.now }
        ensures ascending { IsByRegion self.now }
        ensures allowed { AllByRecursion (λ pair. IsRegion pair.0 × T.IsAllowed pair.1) self.now }
    {
        self.pairs.as_slice()
    }

    /// Puts a pair behind the others. A list that shares its pairs with others copies them for it.
    pub fn push(&mut self, x: (RegionId, T)) -> Result<(), AllocError>
        requires { IsByRegion (self.old ++ x ∷ []) }
        ensures ok { OnOk result (self.new ≡ self.old ++ x ∷ []) }
        ensures err { OnErr result (self.new ≡ self.old) }
    {
        // The list keeps what these two tell of the pair.
        let _region = x.0.get();
        let _size = x.1.size();
        self.pairs.push(x)
    }

    /// The list of these pairs, none of which is copied.
    pub fn from_vec(pairs: Vec<(RegionId, T)>) -> Self
        requires { IsByRegion pairs.items }
        ensures { result ≡ pairs.items }
    {
        // The list keeps what these two tell of each pair.
        for pair in &pairs {
            let _region = pair.0.get();
            let _size = pair.1.size();
        }
        ByRegion {
            pairs: Pairs::Own(pairs),
        }
    }

    /// The same list, which shares its pairs with its copies from now on.
    pub fn shared(self) -> Result<Self, AllocError>
        ensures { IfOk result (λ list. list ≡ self) }
    {
        Ok(ByRegion {
            pairs: self.pairs.shared()?,
        })
    }

    /// What stands beside the region.
    pub fn find(&self, region: RegionId) -> Option<&T>
        ensures { option_copied result ≡ at_region region self.now }
    {
        let pairs = self.pairs.as_slice();
        match place_of(pairs, region) {
            Some(place) => Some(&pairs[place].1),
            None => None,
        }
    }

    pub fn copy(&self) -> Result<Self, AllocError>
        ensures { IfOk result (λ copy. copy ≡ self.now) }
    {
        Ok(ByRegion {
            pairs: self.pairs.copy()?,
        })
    }
}
