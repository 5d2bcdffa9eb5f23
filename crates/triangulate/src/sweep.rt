// The sweep. It keeps the border of the points so far and joins each new point to all border points that it sees.
ghost use Rattle.std.specs.Prelude.{◌≡◌, ◌<◌, ℕ, List, length, IsTrue, ◌↔◌, pos, ◌<ℤ◌, MatchOption, IfOk, [], ◌∷◌, ◌+◌};
ghost use Rattle.std.specs.List.{All};
ghost use Rattle.plane.specs.Accepted.{AreAccepted};
ghost use Rattle.point_order.specs.Order.{IsSweepOrder};
ghost use Rattle.triangulate.specs.Start.{IsStart};
ghost use Rattle.triangulate.specs.Swept.{turn, Round, IsJoining, IsSettled, SeesLastSide};
ghost use Rattle.triangulate.specs.Swept.{IsSwept, IsSweptNext, IsSweptWhole};

use crate::chain::Chain;
use plane::{Pair, Points, Turn};
use point_order::in_order;
use std::alloc::{AllocError, Global};

/// A part of the border: the lower or the upper chain, from the first point of the sweep to the last.
#[derive(Clone, Copy)]
pub enum Part {
    Lower,
    Upper,
}

// Whether z lies beyond the side from a to b.
fn is_beyond(points: &Points, part: Part, a: u32, b: u32, z: u32) -> bool
    requires a_in { a < length points.now }
    requires b_in { b < length points.now }
    requires z_in { z < length points.now }
    ensures { IsTrue result ↔ turn part points.now a b z <ℤ pos 0 }
{
    match part {
        Part::Lower => points.orient(a, b, z) == Turn::Right,
        Part::Upper => points.orient(a, b, z) == Turn::Left,
    }
}

// The first point of the chain's last side, where z sees this side.
fn next_seen(points: &Points, part: Part, chain: &Chain, z: u32) -> Option<u32>
    requires chain_in { All (λ i. i < length points.now) chain.now }
    requires z_in { z < length points.now }
    ensures { MatchOption result (IsSettled (turn part points.now) chain.now z) (λ a. SeesLastSide (turn part points.now) chain.now z a) }
{
    let (a, b) = chain.last_side()?;
    if is_beyond(points, part, a, b, z) {
        Some(a)
    } else {
        None
    }
}

// Joins z to the points of one part of the border that it sees, other than the last one.
fn join_seen(
    points: &Points,
    part: Part,
    chain: &mut Chain,
    pairs: &mut Vec<Pair>,
    z: u32,
) -> Result<(), AllocError>
    requires joining { (g : Round) × IsJoining points.now part pairs.old.items chain.old z g }
    ensures joining { IfOk result (λ _. (g : Round) → IsJoining points.now part pairs.old.items chain.old z g
        → IsJoining points.now part pairs.new.items chain.new z g) }
    ensures settled { IfOk result (λ _. IsSettled (turn part points.now) chain.new z) }
{
    while let Some(a) = next_seen(points, part, chain, z) {
        chain.shorten();
        pairs.push(Pair::of(a, z))?;
    }
    Ok(())
}

/// The pairs so far, and the border of the points so far.
#[derive(Drop)]
pub struct Sweep {
    pairs: Vec<Pair>,
    lower: Chain,
    upper: Chain,
}

impl Sweep {
    // The sweep at its first point.
    fn begin(alloc: Global, first: u32) -> Result<Sweep, AllocError>
        ensures pairs { IfOk result (λ s. s.pairs.items ≡ []) }
        ensures lower { IfOk result (λ s. s.lower ≡ first ∷ []) }
        ensures upper { IfOk result (λ s. s.upper ≡ first ∷ []) }
    {
        let mut lower = Chain::new(alloc);
        let mut upper = Chain::new(alloc);
        lower.push(first)?;
        upper.push(first)?;
        Ok(Sweep {
            pairs: Vec::new(alloc),
            lower,
            upper,
        })
    }

    // Joins the next point, z, to all points of the border that it sees.
    fn add(&mut self, points: &Points, last: u32, z: u32) -> Result<(), AllocError>
        requires next { IsSweptNext points.now last z }
        requires swept { (k : ℕ) × IsSwept points.now self.old.pairs.items self.old.lower self.old.upper last k }
        ensures { IfOk result (λ _. (k : ℕ)
            → IsSwept points.now self.old.pairs.items self.old.lower self.old.upper last k
            → IsSwept points.now self.new.pairs.items self.new.lower self.new.upper z (k + 1)) }
    {
        self.pairs.push(Pair::of(last, z))?;
        join_seen(points, Part::Lower, &mut self.lower, &mut self.pairs, z)?;
        join_seen(points, Part::Upper, &mut self.upper, &mut self.pairs, z)?;
        self.lower.push(z)?;
        self.upper.push(z)?;
        Ok(())
    }
}

// The sweep through all points in their order.
fn sweep_through(alloc: Global, points: &Points, order: &[u32]) -> Result<Sweep, AllocError>
    requires accepted { AreAccepted points.now }
    requires order { IsSweepOrder points.now order.now }
    ensures { IfOk result (λ s. IsSweptWhole points.now s.pairs.items s.lower s.upper) }
{
    let mut sweep = Sweep::begin(alloc, order[0])?;
    for k in 1..order.len() {
        sweep.add(points, order[k - 1], order[k])?;
    }
    Ok(sweep)
}

/// The segments of the sweep triangulation, each once: the sweep meets the points by x and then by y, and joins each to
/// all points before it that it sees. With n points of which h segments are on the border, there are 3n - 3 - h.
/// (This project's own choice of a fixed start, after the textbook's sweep.)
pub fn sweep_pairs(alloc: Global, points: &Points) -> Result<Vec<Pair>, AllocError>
    ensures { IfOk result (λ v. IsStart points.now v.items) }
{
    let order = in_order(alloc, points)?;
    let sweep = sweep_through(alloc, points, &order)?;
    Ok(sweep.pairs)
}
