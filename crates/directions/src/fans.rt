// The points round a point in turning order.
ghost use Rattle.std.specs.Prelude.{◌≡◌, ◌<◌, length, IfOk, OnOk};
ghost use Rattle.directions.specs.Fans.{IsFan};

use crate::rounds::{Place, add_half, places_down, places_up};
use mcp_outside::NoMemory;
use plane::Points;
use std::alloc::Global;
use std::marker::Model;
use std::snapshot::Snapshot;

/// Room for the fans of one set of points, which contracts see.
#[derive(Drop)]
pub struct Fans {
    up: Vec<Place>,
    down: Vec<Place>,
    words: Vec<u64>,
    points: Snapshot<Points>,
}

impl Model for Fans {
    ghost use Rattle.std.specs.Prelude.{List};
    ghost use Rattle.plane.specs.declared.coordinates.Point.{Point};
    ghost use Rattle.directions.specs.Rounds.{ArePlaces};

    ghost Value = { List Point };

    ghost view = { λ a. a.points.value };

    ghost invariant = { λ a. ArePlaces a.points.value a.up.items × ArePlaces a.points.value a.down.items };
}

impl Fans {
    /// Room for these points.
    pub fn make(alloc: Global, points: &Points) -> Result<Fans, NoMemory>
        ensures { IfOk result (λ a. a ≡ points.now) }
    {
        let up = places_up(alloc, points)?;
        let down = places_down(alloc, points)?;
        Ok(Fans {
            up,
            down,
            words: Vec::new(alloc),
            points: Snapshot::of(points),
        })
    }

    /// Writes the fan of `p` into a list, whatever stood in it: the other points in counterclockwise order from the direction
    /// of the positive x axis, those of one direction by distance. Without memory the list may have a part of them.
    pub fn write(&mut self, points: &Points, p: u32, list: &mut Vec<u32>) -> Result<(), NoMemory>
        requires points { points.now ≡ self.old }
        requires p_in { p < length points.now }
        ensures fan { OnOk result (IsFan points.now p list.new.items) }
        ensures points { self.new ≡ self.old }
    {
        let _count = points.len();
        list.clear();
        add_half(points, p, self.up.as_slice(), true, &mut self.words, list)?;
        add_half(
            points,
            p,
            self.down.as_slice(),
            false,
            &mut self.words,
            list,
        )?;
        Ok(())
    }
}

/// The fan of `p`: the other points in counterclockwise order from the direction of the positive x axis, those of one
/// direction by distance. Who asks for many points keeps `Fans`. (Textbook.)
pub fn fan(alloc: Global, points: &Points, p: u32) -> Result<Vec<u32>, NoMemory>
    requires { p < length points.now }
    ensures { IfOk result (λ list. IsFan points.now p list.items) }
{
    let mut fans = Fans::make(alloc, points)?;
    let mut list = Vec::new(alloc);
    fans.write(points, p, &mut list)?;
    Ok(list)
}
