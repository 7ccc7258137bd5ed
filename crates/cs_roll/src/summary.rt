ghost use Rattle.std.specs.Prelude.{◌≡◌, ◌<◌, ◌≤◌, length, IsTrue, ◌↔◌, IfOk};
ghost use Rattle.cs_base.specs.Axes.{from_row};
ghost use Rattle.cs_base.specs.Limits.{most_summed};
ghost use Rattle.cs_roll.specs.Same.{are_same_axes, is_same_summary};
ghost use Rattle.cs_roll.specs.Summary.{IsSummary, summary_of};

use crate::Roll;
use cs_base::{Axis, MOST_GLOBALS, Member, highest_on, lowest_on, total_on};
use std::alloc::AllocError;
use std::marker::Model;

/// What is known of a region whose roll isn't: its size, from 1 to 10,000, the sum and the bounds of its points
/// on each axis, in microseconds, and its first eight members by id.
#[derive(Debug, Drop)]
pub struct Summary {
    pub size: u32,
    pub sum: [i64; 3],
    pub low: [i32; 3],
    pub high: [i32; 3],
    pub globals: Roll,
}

impl Model for Summary {
    ghost use Rattle.cs_base.specs.Axes.{from_row};
    ghost use Rattle.cs_roll.specs.Summary.{RegionSummary, IsSummary};

    ghost Value = { RegionSummary };

    ghost view = { λ s. record {
      size = s.size;
      sum = from_row s.sum;
      low = from_row s.low;
      high = from_row s.high;
      globals = s.globals;
    } };

    ghost invariant = { λ s. IsSummary (record {
      size = s.size;
      sum = from_row s.sum;
      low = from_row s.low;
      high = from_row s.high;
      globals = s.globals;
    }) };
}

impl Roll {
    /// The summary of a roll of 1 to 10,000 members.
    pub fn summary(&self) -> Result<Summary, AllocError>
        requires some { 0 < length self.now }
        requires few { length self.now ≤ most_summed }
        ensures { IfOk result (λ s. s ≡ summary_of self.now) }
    {
        let members = self.as_slice();
        let globals = self.first(MOST_GLOBALS)?;
        Ok(Summary {
            size: members.len() as u32,
            sum: [
                total_on(members, Axis::X),
                total_on(members, Axis::Y),
                total_on(members, Axis::Z),
            ],
            low: [
                lowest_on(members, Axis::X),
                lowest_on(members, Axis::Y),
                lowest_on(members, Axis::Z),
            ],
            high: [
                highest_on(members, Axis::X),
                highest_on(members, Axis::Y),
                highest_on(members, Axis::Z),
            ],
            globals,
        })
    }
}

// Whether the sums are the same on each axis.
fn are_same_sums(a: &[i64; 3], b: &[i64; 3]) -> bool
    ensures { result ≡ are_same_axes (from_row a.now) (from_row b.now) }
{
    a == b
}

// Whether the bounds are the same on each axis.
fn are_same_bounds(a: &[i32; 3], b: &[i32; 3]) -> bool
    ensures { result ≡ are_same_axes (from_row a.now) (from_row b.now) }
{
    a == b
}

impl Summary {
    pub fn copy(&self) -> Result<Self, AllocError>
        ensures { IfOk result (λ copy. copy ≡ self.now) }
    {
        Ok(Summary {
            size: self.size,
            sum: self.sum,
            low: self.low,
            high: self.high,
            globals: self.globals.copy()?,
        })
    }

    /// Whether the two say the same.
    pub fn is_same(&self, other: &Summary) -> bool
        ensures same { IsTrue result ↔ (self.now ≡ other.now) }
        ensures test { result ≡ is_same_summary self.now other.now }
    {
        self.has_same_parts(other)
    }

    // Whether each part is the same.
    fn has_same_parts(&self, other: &Summary) -> bool
        ensures { result ≡ is_same_summary self.now other.now }
    {
        self.size == other.size
            && are_same_sums(&self.sum, &other.sum)
            && are_same_bounds(&self.low, &other.low)
            && are_same_bounds(&self.high, &other.high)
            && self.globals.is_same(&other.globals)
    }
}
