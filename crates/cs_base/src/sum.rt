ghost use Rattle.std.specs.Prelude.{◌≡◌, ◌*◌, ◌<◌, ◌≤◌, ◌↔◌, IsTrue, SomeIff};
ghost use Rattle.cs_base.specs.Axes.{from_row, in_a_row, IsNear};
ghost use Rattle.cs_base.specs.Limits.{farthest, most_summed};
ghost use Rattle.cs_base.specs.Total.{IsTotal};

use crate::{FARTHEST, MOST_SUMMED};
use std::marker::Model;

/// How many points there are, at least one and at most `MOST_SUMMED`, and their sum on each axis, in microseconds.
#[derive(Clone, Copy, Debug, PartialEq, Eq)]
pub struct Sum {
    count: u32,
    x: i64,
    y: i64,
    z: i64,
}

impl Model for Sum {
    ghost use Rattle.cs_base.specs.Total.{Total, IsTotal};

    ghost Value = { Total };

    ghost view = { λ s. record { count = s.count; sums = record { x = s.x; y = s.y; z = s.z } } };

    ghost invariant = { λ s. IsTotal (record { count = s.count; sums = record { x = s.x; y = s.y; z = s.z } }) };

    ghost inverse = { λ v. record { count = v.count; x = v.sums.x; y = v.sums.y; z = v.sums.z } };
}

// Whether so many points can have this sum on an axis.
fn is_sum_of(n: u32, sum: i64) -> bool
    ensures { IsTrue result ↔ IsNear (farthest * n) sum }
{
    sum.unsigned_abs() <= u64::from(FARTHEST.unsigned_abs()) * u64::from(n)
}

impl Sum {
    pub fn new(n: u32, s: [i64; 3]) -> Option<Self>
        ensures { SomeIff result (IsTotal (record { count = n; sums = from_row s }))
            (record { count = n; sums = from_row s }) }
    {
        let [x, y, z] = s;
        if n > 0 && n <= MOST_SUMMED && is_sum_of(n, x) && is_sum_of(n, y) && is_sum_of(n, z) {
            Some(Sum { count: n, x, y, z })
        } else {
            None
        }
    }

    pub fn count(self) -> u32
        ensures value { result ≡ self.count }
        ensures some { 0 < result }
        ensures few { result ≤ most_summed }
    {
        self.count
    }

    pub fn sums(self) -> [i64; 3]
        ensures value { result ≡ in_a_row self.sums }
        ensures total { IsTotal self }
    {
        [self.x, self.y, self.z]
    }
}
