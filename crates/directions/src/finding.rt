// The first two points that a point is strictly between. Only points whose lines have keys in one bucket are tried.
ghost use Rattle.std.specs.Prelude.{◌≡◌, ◌≢◌, ◌<◌, ◌≤◌, ℕ, length, set, slice_index, IfOk};
ghost use Rattle.plane.specs.First.{IsFirstPairOrNone};
ghost use Rattle.plane.specs.Geometry.{IsBetween};
ghost use Rattle.directions.specs.Opposites.{AreClear, AreFollowed, AreLinked, IsFirstOpposite};

use crate::line_key::line_key_of;
use mcp_outside::NoMemory;
use plane::Points;
use std::alloc::Global;
use std::marker::Model;
use std::snapshot::Snapshot;

// The buckets of a search fit a processor's nearest memory.
const BUCKETS: u32 = 16_384;

// Stands where there is no point.
const NOBODY: u16 = u16::MAX;

/// Room for finding who lies opposite to whom, for one set of points, which contracts see.
#[derive(Drop)]
pub struct Opposites {
    // the first point in each bucket, and after each point the next one in its bucket
    heads: Vec<u16>,
    next: Vec<u16>,
    points: Snapshot<Points>,
}

impl Model for Opposites {
    ghost use Rattle.std.specs.Prelude.{◌≡◌, List, length};
    ghost use Rattle.plane.specs.declared.coordinates.Point.{Point};

    ghost Value = { List Point };

    ghost view = { λ a. a.points.value };

    ghost invariant = { λ a. (length a.heads.items ≡ 16384) × (length a.next.items ≡ length a.points.value) };
}

// Empties all buckets.
fn clear_heads(heads: &mut [u16])
    ensures { AreClear heads.new (length heads.old) }
{
    for b in 0..heads.len() {
        heads[b] = NOBODY;
    }
}

// Puts q into its bucket, before the points that are there.
fn link(heads: &mut [u16], next: &mut [u16], q: u16, bucket: u32)
    requires q_in { q < length next.old }
    requires bucket_in { bucket < length heads.old }
    ensures heads { heads.new ≡ set heads.old bucket q }
    ensures next { next.new ≡ set next.old q (slice_index heads.old bucket) }
{
    next[usize::from(q)] = heads[bucket as usize];
    heads[bucket as usize] = q;
}

// Puts all points but p into the buckets of their keys.
fn link_all(points: &Points, p: u32, heads: &mut [u16], next: &mut [u16])
    requires p_in { p < length points.now }
    requires count { length next.old ≡ length points.now }
    requires clear { AreClear heads.old 16384 }
    ensures { AreLinked points.now p 0 heads.new next.new }
{
    let mut left = points.len();
    while left > 0 {
        left -= 1;
        if left != p {
            let bucket = line_key_of(points, p, left) % BUCKETS;
            link(heads, next, left as u16, bucket);
        }
    }
}

// The first point after q that lies opposite to it.
fn first_after(points: &Points, p: u32, next: &[u16], q: u32) -> Option<u32>
    requires p_in { p < length points.now }
    requires q_in { q < length points.now }
    requires next { AreFollowed points.now p 0 next.now }
    ensures { IsFirstOpposite points.now p q result }
{
    let count = points.len();
    if q == p {
        return None;
    }
    let mut r = u32::from(next[q as usize]);
    while r < count {
        if points.between(p, q, r) {
            return Some(r);
        }
        r = u32::from(next[r as usize]);
    }
    None
}

// The first two points that p is strictly between.
fn first_pair(points: &Points, p: u32, next: &[u16]) -> Option<(u32, u32)>
    requires p_in { p < length points.now }
    requires next { AreFollowed points.now p 0 next.now }
    ensures { IsFirstPairOrNone (λ i j. IsBetween points.now p i j) (length points.now) result }
{
    for q in 0..points.len() {
        if let Some(r) = first_after(points, p, next, q) {
            return Some((q, r));
        }
    }
    None
}

impl Opposites {
    /// Room for these points.
    pub fn make(alloc: Global, points: &Points) -> Result<Opposites, NoMemory>
        ensures { IfOk result (λ a. a ≡ points.now) }
    {
        let heads = vec![in alloc; NOBODY; BUCKETS as usize]?;
        let next = vec![in alloc; NOBODY; points.len() as usize]?;
        Ok(Opposites {
            heads,
            next,
            points: Snapshot::of(points),
        })
    }

    /// The first two points, by the lesser and then the greater index, that `p` is strictly between, or none.
    pub fn first(&mut self, points: &Points, p: u32) -> Result<Option<(u32, u32)>, NoMemory>
        requires points { points.now ≡ self.old }
        requires p_in { p < length points.now }
        ensures first { IfOk result (IsFirstPairOrNone (λ i j. IsBetween points.now p i j) (length points.now)) }
        ensures points { self.new ≡ self.old }
    {
        clear_heads(self.heads.as_mut_slice());
        link_all(
            points,
            p,
            self.heads.as_mut_slice(),
            self.next.as_mut_slice(),
        );
        Ok(first_pair(points, p, self.next.as_slice()))
    }
}

/// The first two points, by the lesser and then the greater index, that `p` is strictly between, or none. Who asks for
/// many points keeps `Opposites`.
pub fn opposite(alloc: Global, points: &Points, p: u32) -> Result<Option<(u32, u32)>, NoMemory>
    requires { p < length points.now }
    ensures { IfOk result (IsFirstPairOrNone (λ i j. IsBetween points.now p i j) (length points.now)) }
{
    let mut room = Opposites::make(alloc, points)?;
    room.first(points, p)
}
