ghost use Rattle.std.specs.Prelude.{◌≡◌, ℕ, suc, ◌+◌, ◌-◌, ◌<◌, ◌≤◌};
ghost use Rattle.cs_base.specs.Axes.{IsNear, IsPoint};
ghost use Rattle.cs_base.specs.Limits.{farthest};
ghost use Rattle.cs_drill.specs.Draws as drawn;
ghost use Rattle.cs_drill.specs.Draws.{draw, state_after};

use cs_base::{FARTHEST, NodeId, Point};

/// What a drill draws by: the linear congruential generator of 64 bits of Knuth's MMIX, of which a draw takes the
/// upper 31 bits.
#[derive(Drop)]
pub struct Draws {
    pub state: u64,
}

/// The point of these numbers, each of which can stand on an axis.
pub fn point_of(x: i32, y: i32, z: i32) -> Point
    requires near { IsPoint (record { x = x; y = y; z = z }) }
    ensures { result ≡ record { x = x; y = y; z = z } }
{
    Point::new(x, y, z).unwrap()
}

impl Draws {
    pub fn new(seed: u64) -> Self
        ensures { result.state ≡ state_after seed 0 }
    {
        Draws { state: seed }
    }

    /// The next draw, which is below the bound.
    pub fn below(&mut self, bound: u32) -> u32
        requires { 0 < bound }
        ensures value { (seed before : ℕ) → self.old.state ≡ state_after seed before → result ≡ draw seed before bound }
        ensures state { (seed before : ℕ) → self.old.state ≡ state_after seed before
            → self.new.state ≡ state_after seed (before + 1) }
        ensures below { result < bound }
    {
        self.state = self
            .state
            .wrapping_mul(6_364_136_223_846_793_005)
            .wrapping_add(1_442_695_040_888_963_407);
        ((self.state >> 33) % u64::from(bound)) as u32
    }

    fn coordinate(&mut self) -> i32
        ensures value { (seed before : ℕ) → self.old.state ≡ state_after seed before
            → result ≡ drawn.coordinate seed before }
        ensures near { IsNear farthest result }
        ensures state { (seed before : ℕ) → self.old.state ≡ state_after seed before
            → self.new.state ≡ state_after seed (before + 1) }
    {
        self.below(2 * FARTHEST as u32 + 1) as i32 - FARTHEST
    }

    /// A point, by three draws.
    pub fn point(&mut self) -> Point
        ensures value { (seed before : ℕ) → self.old.state ≡ state_after seed before
            → result ≡ drawn.point seed before }
        ensures state { (seed before : ℕ) → self.old.state ≡ state_after seed before
            → self.new.state ≡ state_after seed (before + 3) }
    {
        let x = self.coordinate();
        let y = self.coordinate();
        let z = self.coordinate();
        point_of(x, y, z)
    }

    /// The id of one of so many nodes, but not of the leader, by one draw.
    pub fn id(&mut self, nodes: u32) -> NodeId
        requires { 2 ≤ nodes }
        ensures value { (seed before : ℕ) → self.old.state ≡ state_after seed before
            → result ≡ drawn.id nodes seed before }
        ensures state { (seed before : ℕ) → self.old.state ≡ state_after seed before
            → self.new.state ≡ state_after seed (before + 1) }
    {
        NodeId::new(2 + self.below(nodes - 1)).unwrap()
    }
}
