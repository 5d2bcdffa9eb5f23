// A chain of points, from left to right, that grows and shrinks at its right end.
ghost use Rattle.std.specs.Prelude.{◌≡◌, ◌∷◌, [], List, ℕ, IfOk, reverse};
ghost use Rattle.triangulate.specs.Chains.{last_side, shortened};

use std::alloc::{AllocError, Global};
use std::marker::Model;

/// Contracts see the points, the last one first.
#[derive(Drop)]
pub struct Chain {
    points: Vec<u32>,
}

impl Model for Chain {
    ghost use Rattle.std.specs.Prelude.{List, ℕ, reverse};

    ghost Value = { List ℕ };

    ghost view = { λ a. reverse a.points.items };
}

impl Chain {
    /// A chain of no point.
    pub fn new(alloc: Global) -> Chain
        ensures { result ≡ [] }
    {
        Chain {
            points: Vec::new(alloc),
        }
    }

    /// Puts a point at the end.
    pub fn push(&mut self, point: u32) -> Result<(), AllocError>
        ensures { IfOk result (λ _. self.new ≡ point ∷ self.old) }
    {
        self.points.push(point)?;
        Ok(())
    }

    /// Takes the last point off.
    pub fn shorten(&mut self)
        ensures { self.new ≡ shortened self.old }
    {
        self.points.pop();
    }

    /// The last two points, in their order.
    pub fn last_side(&self) -> Option<(u32, u32)>
        ensures { result ≡ last_side self.now }
    {
        let count = self.points.len();
        if count < 2 {
            None
        } else {
            Some((self.points[count - 2], self.points[count - 1]))
        }
    }
}
