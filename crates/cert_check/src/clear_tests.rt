// Which pairs are clear, for a caller who may ask for few pairs or for nearly all.
ghost use Rattle.std.specs.Prelude.{◌≡◌, ◌<◌, ◌↔◌, length, IsTrue, IfOk};
ghost use Rattle.plane.specs.Geometry.{IsClear};

use directions::ClearPairs;
use mcp_outside::NoMemory;
use plane::{Pair, Points};
use std::alloc::Global;
use std::marker::Model;
use std::snapshot::Snapshot;

// So many pairs are looked at one by one, each by a walk over the points. Then the set of all clear pairs is made.
const MOST_WALKS: u32 = 5_000;

/// Tests of pairs of one set of points, which contracts see.
#[derive(Drop)]
pub struct ClearTests {
    walks: u32,
    set: Option<ClearPairs>,
    points: Snapshot<Points>,
}

impl Model for ClearTests {
    ghost use Rattle.std.specs.Prelude.{◌≡◌, List, IfSome};
    ghost use Rattle.plane.specs.declared.coordinates.Point.{Point};

    ghost Value = { List Point };

    ghost view = { λ a. a.points.value };

    ghost invariant = { λ a. IfSome a.set (λ s. s ≡ a.points.value) };
}

impl ClearTests {
    /// Tests of pairs of these points.
    pub fn make(points: &Points) -> ClearTests
        ensures { result ≡ points.now }
    {
        ClearTests {
            walks: 0,
            set: None,
            points: Snapshot::of(points),
        }
    }

    /// Whether a pair is clear.
    pub fn has(&mut self, alloc: Global, points: &Points, e: Pair) -> Result<bool, NoMemory>
        requires points { points.now ≡ self.old }
        requires end { e.hi < length points.now }
        ensures clear { IfOk result (λ b. IsTrue b ↔ IsClear points.now e.lo e.hi) }
        ensures points { self.new ≡ self.old }
    {
        if let Some(set) = &self.set {
            return Ok(set.has(e));
        }
        if self.walks < MOST_WALKS {
            self.walks += 1;
            return Ok(points.is_clear(e));
        }
        let set = ClearPairs::make(alloc, points)?;
        let is_clear = set.has(e);
        self.set = Some(set);
        Ok(is_clear)
    }
}
