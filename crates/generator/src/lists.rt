// The point lists of each kind.
ghost use Rattle.std.specs.Prelude.{◌≡◌, ◌+◌, ◌*◌, ◌%◌, ◌<◌, ◌≤◌, [], ◌∷◌, ℕ, vec_len, IfOk};
ghost use Rattle.plane.specs.Geometry.{point};
ghost use Rattle.plane.specs.Accepted.{AreAccepted};
ghost use Rattle.generator.specs.Kinds.{scatter_point, grid_point, ring_point, wide_point, IsSide, place, width};

use plane::Point;
use rand_core::utils::NextWord;
use rand_pcg::Pcg32;
use std::alloc::{AllocError, Global};

fn at(x: u32, y: u32) -> Point
    ensures { result ≡ place x y }
{
    Point {
        x: i64::from(x),
        y: i64::from(y),
    }
}

const ACROSS: i64 = 1_099_511_627_776;

const UPWARD: i64 = 68_719_476_736;

/// Three corners, and then a point in each strip.
pub fn scatter(alloc: Global, n: u32, seed: u64) -> Result<Vec<Point>, AllocError>
    requires least { 3 ≤ n }
    requires most { n ≤ 5000 }
    ensures count { IfOk result (λ v. vec_len v ≡ n) }
    ensures each { IfOk result (λ v. (k : ℕ) → k < n → point v.items k ≡ scatter_point n seed k) }
    ensures accepted { IfOk result (λ v. AreAccepted v.items) }
{
    let mut list = corners(alloc, n)?;
    let mut words = Pcg32::new(seed, 1);
    for j in 0..n - 3 {
        let across = words.next_word();
        let upward = words.next_word();
        list.push(strip_point(n, j, across, upward))?;
    }
    Ok(list)
}

// The three corners of a scatter.
fn corners(alloc: Global, n: u32) -> Result<Vec<Point>, AllocError>
    requires { n ≤ 5000 }
    ensures count { IfOk result (λ v. vec_len v ≡ 3) }
    ensures corners { IfOk result (λ v. v.items ≡ place 0 0 ∷ place (width n) 0 ∷ place 0 (width n) ∷ []) }
{
    let mut list = Vec::with_capacity(alloc, n as usize)?;
    list.push(at(0, 0))?;
    list.push(at(1000 * n, 0))?;
    list.push(at(0, 1000 * n))?;
    Ok(list)
}

// The point in strip j, by its two words.
fn strip_point(n: u32, j: u32, across: u32, upward: u32) -> Point
    requires least { 3 ≤ n }
    requires most { n ≤ 5000 }
    requires strip { j < n }
    ensures { result ≡ place (1000 * (j + 1) + across % 1000) (1 + upward % width n) }
{
    at(1000 * (j + 1) + across % 1000, 1 + upward % (1000 * n))
}

/// Rows of points.
pub fn grid(alloc: Global, n: u32) -> Result<Vec<Point>, AllocError>
    requires least { 3 ≤ n }
    requires most { n ≤ 5000 }
    ensures count { IfOk result (λ v. vec_len v ≡ n) }
    ensures each { IfOk result (λ v. (m k : ℕ) → IsSide n m → k < n → point v.items k ≡ grid_point m k) }
    ensures accepted { IfOk result (λ v. AreAccepted v.items) }
{
    let side = side_of(n);
    let mut list = Vec::with_capacity(alloc, n as usize)?;
    for k in 0..n {
        list.push(at(10 * (k % side), 10 * (k / side)))?;
    }
    Ok(list)
}

// The least number whose square is at least n.
fn side_of(n: u32) -> u32
    requires least { 3 ≤ n }
    requires most { n ≤ 5000 }
    ensures side { IsSide n result }
    ensures some { 0 < result }
{
    for m in 1..71u32 {
        if m * m >= n {
            return m;
        }
    }
    71
}

/// Points on a parabola.
pub fn ring(alloc: Global, n: u32) -> Result<Vec<Point>, AllocError>
    requires least { 3 ≤ n }
    requires most { n ≤ 5000 }
    ensures count { IfOk result (λ v. vec_len v ≡ n) }
    ensures each { IfOk result (λ v. (k : ℕ) → k < n → point v.items k ≡ ring_point k) }
    ensures accepted { IfOk result (λ v. AreAccepted v.items) }
{
    let mut list = Vec::with_capacity(alloc, n as usize)?;
    for k in 0..n {
        list.push(at(k, square(k)))?;
    }
    Ok(list)
}

fn square(k: u32) -> u32
    requires { k < 5000 }
    ensures { result ≡ k * k }
{
    k * k
}

/// Points on a parabola, far apart.
pub fn wide(alloc: Global, n: u32) -> Result<Vec<Point>, AllocError>
    requires least { 3 ≤ n }
    requires most { n ≤ 5000 }
    ensures count { IfOk result (λ v. vec_len v ≡ n) }
    ensures each { IfOk result (λ v. (k : ℕ) → k < n → point v.items k ≡ wide_point k) }
    ensures accepted { IfOk result (λ v. AreAccepted v.items) }
{
    let mut list = Vec::with_capacity(alloc, n as usize)?;
    for k in 0..n {
        list.push(far_point(k))?;
    }
    Ok(list)
}

fn far_point(k: u32) -> Point
    requires { k < 5000 }
    ensures { result ≡ wide_point k }
{
    let k = i64::from(k);
    Point {
        x: ACROSS * k,
        y: UPWARD * (k * k),
    }
}
