ghost use Rattle.std.specs.Prelude.{◌≡◌, [], ◌∷◌, ◌++◌, length, IsTrue, ◌↔◌, IfOk, OnOk, OnErr};
ghost use Rattle.std.specs.List.{AllByRecursion};
ghost use Rattle.cs_base.specs.Limits.{last_id};
ghost use Rattle.cs_group.specs.Rows.{IsRow};
ghost use Rattle.cs_group.specs.Rank.{rank_at};

use cs_base::{Keyed, LAST_ID, Member, NodeId, RegionId};
use cs_shared::Ranked;
use std::alloc::{AllocError, Global};
use std::marker::Model;

// How many ranks a region has: one for each number of 32 bits.
const RANKS_OF_REGION: u64 = 4_294_967_296;

// The lowest rank of a region.
pub(crate) fn first_rank(region: RegionId) -> u64
    ensures { result ≡ rank_at region 0 }
{
    u64::from(region.get()) * RANKS_OF_REGION
}

// The highest rank of a region.
pub(crate) fn last_rank(region: RegionId) -> u64
    ensures { result ≡ rank_at region last_id }
{
    first_rank(region) + u64::from(LAST_ID)
}

// The rank of a row of a region with this id.
pub(crate) fn rank_at(region: RegionId, id: NodeId) -> u64
    ensures { result ≡ rank_at region id }
{
    first_rank(region) + u64::from(id.get())
}

/// A member of a region, and the seq of its last move, which is 0 where it hasn't moved.
#[derive(Clone, Copy, Debug, PartialEq, Eq)]
pub struct Row {
    pub region: RegionId,
    pub member: Member,
    pub seq: u32,
}

/// Rows are ranked by region, and then by id.
impl Ranked for Row {
    ghost use Rattle.cs_group.specs.Rank.{rank_at};

    ghost rank_of = { λ r. rank_at r.region r.member.id };

    fn rank(&self) -> u64 {
        rank_at(self.region, self.member.id)
    }
}

/// A list of rows.
#[derive(Debug, Drop)]
pub struct RowList {
    items: Vec<Row>,
}

impl Model for RowList {
    ghost use Rattle.std.specs.Prelude.{List};
    ghost use Rattle.std.specs.List.{AllByRecursion};
    ghost use Rattle.cs_group.specs.Rows.{IsRow};
    ghost use Rattle.cs_group.specs.declared.row.Row.{Row};

    ghost Value = { List Row };

    ghost view = { λ rows. rows.items.items };

    ghost invariant = { λ rows. AllByRecursion IsRow rows.items.items };
}

impl RowList {
    pub fn new(alloc: Global) -> Self
        ensures { result ≡ [] }
    {
        RowList {
            items: Vec::new(alloc),
        }
    }

    // The list that has these rows.
    pub(crate) fn from_slice(alloc: Global, rows: &[Row]) -> Result<Self, AllocError>
        ensures value { IfOk result (λ list. list ≡ rows.now) }
        ensures allowed { OnOk result (AllByRecursion IsRow rows.now) }
    {
        let mut list = RowList::new(alloc);
        for row in rows {
            list.push(*row)?;
        }
        Ok(list)
    }

    pub fn len(&self) -> usize
        ensures { result ≡ length self.now }
    {
        self.items.len()
    }

    pub fn is_empty(&self) -> bool
        ensures { IsTrue result ↔ (self.now ≡ []) }
    {
        self.items.is_empty()
    }

    pub fn as_slice(&self) -> &[Row]
        ensures value { result.now ≡ self.now }
        ensures allowed { AllByRecursion IsRow self.now }
    {
        &self.items
    }

    pub fn push(&mut self, x: Row) -> Result<(), AllocError>
        ensures ok { OnOk result (self.new ≡ self.old ++ x ∷ []) }
        ensures err { OnErr result (self.new ≡ self.old) }
        ensures allowed { IsRow x }
    {
        // The list keeps that each row is allowed, which its region and its member's key tell.
        let _region = x.region.get();
        let _key = x.member.key();
        self.items.push(x)?;
        Ok(())
    }

    pub fn copy(&self) -> Result<Self, AllocError>
        ensures { IfOk result (λ copy. copy ≡ self.now) }
    {
        RowList::from_slice(*self.items.allocator(), &self.items)
    }
}
