ghost use Rattle.std.specs.Prelude.{◌≡◌, ◌↔◌, IsTrue, Some, SomeIff};
ghost use Rattle.cs_base.specs.Axes.{on_axis, IsNear, IsPoint, axes_text};
ghost use Rattle.cs_base.specs.Limits.{farthest};

use crate::FARTHEST;
use std::fmt;
use std::marker::Model;

/// An axis of network coordinates.
#[derive(Clone, Copy, Debug, PartialEq, Eq)]
pub enum Axis {
    X,
    Y,
    Z,
}

/// A point in network coordinates, in microseconds. Each axis is at most 1,000,000 away from 0.
#[derive(Clone, Copy, Debug, PartialEq, Eq)]
pub struct Point {
    x: i32,
    y: i32,
    z: i32,
}

impl Model for Point {
    ghost use Rattle.cs_base.specs.Axes.{Axes, IsPoint};

    ghost Value = { Axes };

    ghost view = { λ p. record { x = p.x; y = p.y; z = p.z } };

    ghost invariant = { λ p. IsPoint (record { x = p.x; y = p.y; z = p.z }) };

    ghost inverse = { λ v. record { x = v.x; y = v.y; z = v.z } };
}

// Whether the number can stand on an axis.
fn is_on_axis(n: i32) -> bool
    ensures { IsTrue result ↔ IsNear farthest n }
{
    n.unsigned_abs() <= FARTHEST.unsigned_abs()
}

impl Point {
    pub fn new(x: i32, y: i32, z: i32) -> Option<Self>
        ensures { SomeIff result (IsPoint (record { x = x; y = y; z = z })) (record { x = x; y = y; z = z }) }
    {
        if is_on_axis(x) && is_on_axis(y) && is_on_axis(z) {
            Some(Point { x, y, z })
        } else {
            None
        }
    }

    pub fn axis(self, a: Axis) -> i32
        ensures value { result ≡ on_axis a self }
        ensures near { IsNear farthest result }
        ensures allowed { IsPoint self }
    {
        match a {
            Axis::X => self.x,
            Axis::Y => self.y,
            Axis::Z => self.z,
        }
    }
}

impl fmt::Display for Point {
    ghost output = { λ p. Some (axes_text p) };

    fn fmt<W: fmt::Write>(&self, f: &mut fmt::Formatter<W>) -> fmt::Result {
        let x = self.axis(Axis::X);
        let y = self.axis(Axis::Y);
        let z = self.axis(Axis::Z);
        write!(f, "{x} {y} {z}")
    }
}
