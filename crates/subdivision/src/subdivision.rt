ghost use Rattle.std.specs.Prelude.{◌≡◌, ◌≢◌, ◌<◌, ℕ, List, length, IfOk};
ghost use Rattle.std.specs.Option.{option_copied};
ghost use Rattle.plane.specs.declared.segment.Pair.{Pair};
ghost use Rattle.partition_defs.specs.Triangulation.{IsTriangulation, AreDistinct};
ghost use Rattle.star.specs.Stars.{Seen, IsStar};
ghost use Rattle.star.specs.StarOf.{IsStarOf};
ghost use Rattle.partition_defs.specs.Sets.{AreSame};
ghost use Rattle.subdivision.specs.Layout.{Layout, star_or_none, star_at, AreOf, AreAgreed, IsSubdivision, IsApexOrNone};

use crate::joining::stars_of;
use crate::listing::listed;
use mcp_outside::NoMemory;
use plane::{Pair, Points};
use star::{Star, Stars};
use std::alloc::Global;
use std::marker::Model;
use std::snapshot::Snapshot;

/// A triangulation of a point set, some of whose segments are kept, held as the stars of all points. Contracts see the
/// points, the segments and the kept segments, both ascending, and the stars.
#[derive(Drop)]
pub struct Subdivision {
    stars: Vec<Star>,
    points: Snapshot<Points>,
}

impl Model for Subdivision {
    ghost use Rattle.subdivision.specs.Layout.{Layout, star_or_none, AreAgreed, all_of, kept_of};

    ghost Value = { Layout };

    ghost view = { λ a. record {
      points = a.points.value;
      all = all_of a.stars.items;
      kept = kept_of a.stars.items;
      stars = a.stars.items;
    } };

    ghost invariant = { λ a. AreAgreed a.points.value a.stars.items };
}

impl Subdivision {
    /// The subdivision with the segments of a triangulation, each of which stands once and is kept.
    pub fn from_pairs(
        alloc: Global,
        points: &Points,
        pairs: &[Pair],
    ) -> Result<Subdivision, NoMemory>
        requires distinct { AreDistinct pairs.now }
        requires triangulation { IsTriangulation points.now pairs.now }
        ensures points { IfOk result (λ s. s.points ≡ points.now) }
        ensures all { IfOk result (λ s. AreSame s.all pairs.now) }
        ensures kept { IfOk result (λ s. s.kept ≡ s.all) }
        ensures subdivision { IfOk result IsSubdivision }
    {
        let stars = stars_of(alloc, points, pairs)?;
        Ok(Subdivision {
            stars,
            points: Snapshot::of(points),
        })
    }

    /// The subdivision of stars that are, by vertex, those of one triangulation with kept segments.
    pub fn from_stars(points: &Points, stars: Vec<Star>) -> Subdivision
        requires { AreAgreed points.now stars.items }
        ensures points { result.points ≡ points.now }
        ensures stars { result.stars ≡ stars.items }
        ensures same { (T K : List Pair) → AreOf points.now T K stars.items → AreSame result.all T × AreSame result.kept K }
        ensures subdivision { IsSubdivision result }
    {
        Subdivision {
            stars,
            points: Snapshot::of(points),
        }
    }

    /// The stars, by vertex.
    pub fn into_stars(self) -> Vec<Star>
        ensures stars { result.items ≡ self.stars }
        ensures subdivision { IsSubdivision self }
    {
        self.stars
    }

    /// The apex of the segment from `p` to `q`: the third corner of the triangle on its left, or none where `p` and `q`
    /// aren't joined or no point is left of the line from `p` to `q`.
    pub fn apex(&self, points: &Points, p: u32, q: u32) -> Option<u32>
        requires points { points.now ≡ self.now.points }
        requires p_in { p < length points.now }
        requires q_in { q < length points.now }
        ensures { IsApexOrNone self.now.points self.now.all p q result }
    {
        match self.vertex_star(p).next(points, q) {
            None => None,
            Some(r) => {
                if points.is_left(p, q, r) {
                    Some(r)
                } else {
                    None
                }
            }
        }
    }

    /// The segments, ascending by their smaller and then their larger index.
    pub fn pairs(&self) -> Result<Vec<Pair>, NoMemory>
        ensures list { IfOk result (λ list. list.items ≡ self.now.all) }
        ensures subdivision { IsSubdivision self.now }
    {
        listed(*self.stars.allocator(), &self.stars, false)
    }

    /// The kept segments, ascending by their smaller and then their larger index.
    pub fn kept_pairs(&self) -> Result<Vec<Pair>, NoMemory>
        ensures list { IfOk result (λ list. list.items ≡ self.now.kept) }
        ensures subdivision { IsSubdivision self.now }
    {
        listed(*self.stars.allocator(), &self.stars, true)
    }

    // The star of a vertex.
    fn vertex_star(&self, v: u32) -> &Star
        requires { v < length self.now.points }
        ensures star { result.now ≡ star_at self.now.stars v }
        ensures of { IsStarOf self.now.points self.now.all self.now.kept v result.now }
        ensures subdivision { IsSubdivision self.now }
    {
        &self.stars[v as usize]
    }
}

impl Stars for Subdivision {
    ghost star_of = { λ s v. star_or_none s.stars v };

    /// The star of a vertex, or none where there is no point of that index.
    fn star(&self, v: u32) -> Option<&Star> {
        self.stars.get(v as usize)
    }
}
