ghost use Rattle.std.specs.Prelude.{◌≡◌, ◌≢◌, ◌+◌, ◌<◌, ◌≤◌, ◌^◌, ℕ, [], length, IfOk, OnOk, OnErr, IsTrue, ◌↔◌};
ghost use Rattle.std.specs.Prelude.{insert, remove, slice_set, vec_len, vec_capacity, true, false};
ghost use Rattle.star.specs.Stars.{Seen, entry, around, IsStar, IsNeighbour, HasMark, StandsAt, IsPlace, IsNext};
ghost use Rattle.star.specs.Stars.{IsFirstKept, IsKeptNext, Marks, SamePlace, Gains, Loses, IsFree};
ghost use Rattle.star.specs.Gaps.{IsKept, MeetsAll, MeetsWithout, MissesSome, MissesWithout};
ghost use Rattle.star.specs.Links.{IsFirstKeptOrNone};

use crate::links::{
    Link, kept_after, link_at, link_in, name_at, opens, put_link, put_neighbour, unlink,
};
use crate::seek::{find, position, seat};
use mcp_outside::NoMemory;
use plane::Points;
use std::alloc::Global;
use std::marker::Model;
use std::snapshot::Snapshot;

/// The star of a centre: its neighbours counterclockwise from the direction of the positive x axis, each with a mark
/// whether it is kept. Contracts see the centre, the list of neighbours with their marks, the points for which they
/// are in order, and for how many more neighbours there is room.
///
/// Beside these it keeps for each kept neighbour whether its removal leaves a need of the centre unmet.
#[derive(Drop)]
pub struct Star {
    centre: u32,
    list: Vec<(u32, bool)>,
    links: Vec<Link>,
    misses: bool,
    spare: usize,
    points: Snapshot<Points>,
}

impl Model for Star {
    ghost use Rattle.std.specs.Prelude.{◌+◌, ◌≤◌, vec_len, vec_capacity};
    ghost use Rattle.star.specs.Stars.{Seen};
    ghost use Rattle.star.specs.Links.{HasRightLinks};

    ghost Value = { Seen };

    ghost view = { λ a. record { centre = a.centre; list = a.list.items; spare = a.spare; points = a.points.value } };

    ghost invariant = { λ a. record {
      right : HasRightLinks a.points.value a.centre a.list.items a.links.items a.misses;
      room : vec_len a.list + a.spare ≤ vec_capacity a.list;
      links_room : vec_len a.links + a.spare ≤ vec_capacity a.links;
    } };
}

impl Star {
    /// A star without neighbours, for these points.
    pub fn make(alloc: Global, points: &Points, centre: u32) -> Star
        requires { centre < length points.now }
        ensures centre { result.centre ≡ centre }
        ensures empty { result.list ≡ [] }
        ensures points { result.points ≡ points.now }
        ensures order { IsStar result }
    {
        let _count = points.len();
        Star {
            centre,
            list: Vec::new(alloc),
            links: Vec::new(alloc),
            misses: true,
            spare: 0,
            points: Snapshot::of(points),
        }
    }

    /// The centre.
    pub fn centre(&self) -> u32
        ensures centre { result ≡ self.now.centre }
        ensures order { IsStar self.now }
    {
        self.centre
    }

    /// How many neighbours there are.
    pub fn degree(&self) -> u32
        ensures degree { result ≡ length self.now.list }
        ensures order { IsStar self.now }
    {
        self.list.len() as u32
    }

    /// The neighbour at a position, and whether it is kept.
    pub fn at(&self, k: u32) -> (u32, bool)
        requires { k < length self.now.list }
        ensures entry { result ≡ entry self.now.list k }
        ensures order { IsStar self.now }
    {
        self.list[k as usize]
    }

    /// The position of `q`, or none where it isn't a neighbour.
    pub fn place(&self, points: &Points, q: u32) -> Option<u32>
        requires { points.now ≡ self.now.points }
        ensures { IsPlace self.now q result }
    {
        find(points, self.centre, &self.list, q)
    }

    /// The neighbour after `q`, the list being cyclic, or none where `q` isn't a neighbour.
    pub fn next(&self, points: &Points, q: u32) -> Option<u32>
        requires { points.now ≡ self.now.points }
        ensures { IsNext self.now q result }
    {
        let k = self.place(points, q)?;
        Some(self.after(k))
    }

    // The neighbour after that at k.
    fn after(&self, k: u32) -> u32
        requires { k < length self.now.list }
        ensures { result ≡ (entry self.now.list (around (length self.now.list) (k + 1))).0 }
    {
        let last = self.degree() - 1;
        if k < last {
            self.at(k + 1).0
        } else {
            self.at(0).0
        }
    }

    /// The first kept neighbour after `q` in cyclic order, `q` itself being the last candidate, or none where `q` isn't
    /// a neighbour or none is kept.
    pub fn kept_next(&self, points: &Points, q: u32) -> Option<u32>
        requires { points.now ≡ self.now.points }
        ensures { IsKeptNext self.now q result }
    {
        let k = self.place(points, q)?;
        if self.at(k).1 {
            Some(self.link_after(k))
        } else {
            self.kept_from(k)
        }
    }

    // The kept neighbour after the kept one at k.
    fn link_after(&self, k: u32) -> u32
        requires { IsKept self.now.list k }
        ensures { IsFirstKept self.now k result }
    {
        link_at(&self.links, k).after
    }

    // The first kept neighbour after that at k, which isn't kept.
    fn kept_from(&self, k: u32) -> Option<u32>
        requires place { k < length self.now.list }
        requires spare { (entry self.now.list k).1 ≡ false }
        ensures { IsFirstKeptOrNone self.now k result }
    {
        match kept_after(&self.list, k) {
            None => None,
            Some(j) => Some(name_at(&self.list, j)),
        }
    }

    /// Whether without the kept neighbour `q` some need of the centre isn't met by the kept ones.
    pub fn opens(&self, points: &Points, q: u32) -> bool
        requires points { points.now ≡ self.now.points }
        requires kept { HasMark self.now q true }
        ensures opens { IsTrue result ↔ MissesWithout self.now q }
        ensures met { result ≡ false → MeetsWithout self.now q }
    {
        let k = self.position(points, q);
        self.opens_at(k)
    }

    /// Whether without the kept neighbour at `k` some need of the centre isn't met by the kept ones. It looks at no
    /// point: the star keeps the answer.
    pub fn opens_at(&self, k: u32) -> bool
        requires { IsKept self.now.list k }
        ensures opens { IsTrue result ↔ MissesWithout self.now (entry self.now.list k).0 }
        ensures met { result ≡ false → MeetsWithout self.now (entry self.now.list k).0 }
    {
        opens(&self.links, self.misses, k)
    }

    /// Whether some need of the centre isn't met by the kept neighbours. It looks at no point: the star keeps the answer.
    pub fn misses_some(&self) -> bool
        ensures missed { IsTrue result ↔ MissesSome self.now.points self.now.centre self.now.list }
        ensures met { result ≡ false → MeetsAll self.now.points self.now.centre self.now.list }
    {
        self.misses
    }

    // The position of a neighbour.
    fn position(&self, points: &Points, q: u32) -> u32
        requires points { points.now ≡ self.now.points }
        requires there { IsNeighbour self.now q }
        ensures place { StandsAt self.now result q }
        ensures order { IsStar self.now }
    {
        position(points, self.centre, &self.list, q)
    }

    /// Takes the mark of the kept neighbour `q` away.
    pub fn drop_mark(&mut self, points: &Points, q: u32)
        requires points { points.now ≡ self.old.points }
        requires kept { HasMark self.old q true }
        ensures mark { Marks self.old self.new q false }
        ensures order { IsStar self.new }
    {
        let k = self.position(points, q);
        self.drop_at(points, k);
    }

    // Takes the mark of the kept neighbour at k away.
    fn drop_at(&mut self, points: &Points, k: u32)
        requires points { points.now ≡ self.old.points }
        requires kept { IsKept self.old.list k }
        ensures mark { self.new ≡ record self.old { list = slice_set self.old.list k ((entry self.old.list k).0, false) } }
        ensures order { IsStar self.new }
    {
        let name = name_at(&self.list, k);
        self.misses = unlink(
            points,
            self.centre,
            &self.list,
            &mut self.links,
            self.misses,
            k,
        );
        self.list[k as usize] = (name, false);
    }

    /// Marks the neighbour `q`, which isn't kept, as kept.
    pub fn keep_mark(&mut self, points: &Points, q: u32)
        requires points { points.now ≡ self.old.points }
        requires spare { HasMark self.old q false }
        ensures mark { Marks self.old self.new q true }
        ensures order { IsStar self.new }
    {
        let k = self.position(points, q);
        self.keep_at(points, k);
    }

    // Marks the neighbour at k, which isn't kept, as kept.
    fn keep_at(&mut self, points: &Points, k: u32)
        requires points { points.now ≡ self.old.points }
        requires place { k < length self.old.list }
        requires spare { (entry self.old.list k).1 ≡ false }
        ensures mark { self.new ≡ record self.old { list = slice_set self.old.list k ((entry self.old.list k).0, true) } }
        ensures order { IsStar self.new }
    {
        let name = name_at(&self.list, k);
        self.misses = link_in(
            points,
            self.centre,
            &self.list,
            &mut self.links,
            self.misses,
            k,
        );
        self.list[k as usize] = (name, true);
    }

    /// Makes room for `more` neighbours. Without memory all stays as it was.
    pub fn reserve(&mut self, more: u32) -> Result<(), NoMemory>
        ensures room { OnOk result (more ≤ self.new.spare) }
        ensures list { self.new.list ≡ self.old.list }
        ensures place { SamePlace self.old self.new }
        ensures refused { OnErr result (self.new ≡ self.old) }
        ensures order { IsStar self.new }
    {
        let more = more as usize;
        if self.spare < more {
            self.links.reserve(more)?;
            self.list.reserve(more)?;
            self.spare = more;
        }
        Ok(())
    }

    /// Puts `q` in as a neighbour that isn't kept, in turning order.
    pub fn insert(&mut self, points: &Points, q: u32)
        requires points { points.now ≡ self.old.points }
        requires within { q < length points.now }
        requires apart { q ≢ self.old.centre }
        requires room { 0 < self.old.spare }
        requires free { IsFree self.old q }
        ensures list { Gains self.old self.new q }
        ensures spare { self.new.spare + 1 ≡ self.old.spare }
        ensures place { SamePlace self.old self.new }
        ensures order { IsStar self.new }
    {
        let k = seat(points, self.centre, &self.list, q);
        put_neighbour(&mut self.list, k, q);
        put_link(&mut self.links, k);
        self.spare -= 1;
    }

    /// Takes the neighbour `q` out.
    pub fn remove(&mut self, points: &Points, q: u32)
        requires points { points.now ≡ self.old.points }
        requires there { IsNeighbour self.old q }
        ensures list { Loses self.old self.new q }
        ensures spare { self.new.spare ≡ self.old.spare + 1 }
        ensures place { SamePlace self.old self.new }
        ensures order { IsStar self.new }
    {
        let k = self.position(points, q);
        if self.at(k).1 {
            self.drop_at(points, k);
            self.remove_at(k);
        } else {
            self.remove_at(k);
        }
    }

    // Takes the neighbour at k, which isn't kept, out.
    fn remove_at(&mut self, k: u32)
        requires place { k < length self.old.list }
        requires spare { (entry self.old.list k).1 ≡ false }
        ensures list { self.new.list ≡ remove self.old.list k }
        ensures spare { self.new.spare ≡ self.old.spare + 1 }
        ensures place { SamePlace self.old self.new }
        ensures order { IsStar self.new }
    {
        let _gone = self.list.remove(k as usize);
        let _unlinked = self.links.remove(k as usize);
        self.spare += 1;
    }

    /// The same star again, without room for further neighbours.
    pub fn copy(&self, points: &Points) -> Result<Star, NoMemory>
        requires { points.now ≡ self.now.points }
        ensures list { IfOk result (λ s. s.list ≡ self.now.list) }
        ensures place { IfOk result (SamePlace self.now) }
        ensures order { IfOk result IsStar }
    {
        Ok(Star {
            centre: self.centre,
            list: self.list.clone()?,
            links: self.links.clone()?,
            misses: self.misses,
            spare: 0,
            points: Snapshot::of(points),
        })
    }
}
