// Accepted point sets.
ghost use Rattle.std.specs.Prelude.{◌≡◌, ◌<◌, ◌^◌, ◌↔◌, length, vec_len, IfOk, IsOk};
ghost use Rattle.plane.specs.Geometry.{point};
ghost use Rattle.plane.specs.Accepted.{AreAccepted, IsFault, IsNear};

use crate::coordinates::{BadPoints, Point};
use crate::guides::{GUIDE_COUNT, guides_of};
use crate::making::first_fault;
use std::marker::Model;

/// An accepted point set: 3 to 5,000 points within the limit, no two equal, not all on one line. Contracts see the list
/// of points, by index.
#[derive(Drop)]
pub struct Points {
    list: Vec<Point>,
    guides: [u32; GUIDE_COUNT],
}

impl Model for Points {
    ghost use Rattle.std.specs.Prelude.{List};
    ghost use Rattle.plane.specs.declared.coordinates.Point.{Point};
    ghost use Rattle.plane.specs.Accepted.{AreAccepted};
    ghost use Rattle.plane.specs.Guides.{AreIndices};

    ghost Value = { List Point };

    ghost view = { λ a. a.list.items };

    ghost invariant = { λ a. AreAccepted a.list.items × AreIndices a.list.items a.guides };
}

impl Points {
    /// The points of a list, by their position, where the list is accepted; otherwise its first fault, in the order in
    /// which the faults stand in `BadPoints`. (This project's own limits.)
    pub fn make(list: Vec<Point>) -> Result<Points, BadPoints>
        requires { vec_len list < 2 ^ 32 }
        ensures list { IfOk result (λ points. points ≡ list.items) }
        ensures accepted { IsOk result ↔ AreAccepted list.items }
        ensures fault { (b : BadPoints) → (result ≡ Err b) ↔ IsFault list.items b }
    {
        match first_fault(list.as_slice()) {
            Some(fault) => Err(fault),
            None => {
                let guides = guides_of(list.as_slice());
                Ok(Points { list, guides })
            }
        }
    }

    /// How many points there are.
    pub fn len(&self) -> u32
        ensures count { result ≡ length self.now }
        ensures accepted { AreAccepted self.now }
    {
        self.list.len() as u32
    }

    /// The point with this index.
    pub fn at(&self, i: u32) -> Point
        requires { i < length self.now }
        ensures point { result ≡ point self.now i }
        ensures near { IsNear result }
    {
        self.list[i as usize]
    }

    // The index of a guide point.
    pub(crate) fn guide(&self, i: usize) -> u32
        requires { i < GUIDE_COUNT }
        ensures within { result < length self.now }
        ensures accepted { AreAccepted self.now }
    {
        self.guides[i]
    }
}
