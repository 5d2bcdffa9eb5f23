// The points in order by x, then by y.
ghost use Rattle.std.specs.Prelude.{◌≡◌, IfOk, length, vec_len, ℕ, ◌<◌, slice_index_or, map};
ghost use Rattle.plane.specs.declared.coordinates.Point.{Point};
ghost use Rattle.plane.specs.Geometry.{point};
ghost use Rattle.plane.specs.Accepted.{AreAccepted};
ghost use Rattle.point_order.specs.Order.{IsSweepOrder};
ghost use Rattle.point_order.specs.Placed.{ArePlaced};

use plane::{Point, Points};
use std::alloc::{AllocError, Global};

// Each point with its index.
fn with_indices(alloc: Global, points: &Points) -> Result<Vec<(Point, u32)>, AllocError>
    ensures accepted { AreAccepted points.now }
    ensures count { IfOk result (λ v. vec_len v ≡ length points.now) }
    ensures each { IfOk result (λ v. (k : ℕ) (d : Point × ℕ) → k < length points.now
        → slice_index_or v.items k d ≡ (point points.now k, k)) }
{
    let count = points.len();
    let mut placed = Vec::new(alloc);
    for i in 0..count {
        placed.push((points.at(i), i))?;
    }
    Ok(placed)
}

// Each point with its index, by x and then by y.
fn placed(alloc: Global, points: &Points) -> Result<Vec<(Point, u32)>, AllocError>
    ensures accepted { AreAccepted points.now }
    ensures placed { IfOk result (λ v. ArePlaced points.now v.items) }
{
    let mut placed = with_indices(alloc, points)?;
    placed.sort_unstable_by_key(|entry| entry.0);
    Ok(placed)
}

// The indices alone.
fn indices(alloc: Global, placed: &[(Point, u32)]) -> Result<Vec<u32>, AllocError>
    ensures { IfOk result (λ v. v.items ≡ map (λ e. e.1) placed.now) }
{
    placed.iter().map(|entry| entry.1).collect(alloc)
}

/// The indices of the points in the order in which the sweep meets them: by x, then by y.
pub fn in_order(alloc: Global, points: &Points) -> Result<Vec<u32>, AllocError>
    ensures accepted { AreAccepted points.now }
    ensures order { IfOk result (λ v. IsSweepOrder points.now v.items) }
{
    let placed = placed(alloc, points)?;
    indices(alloc, &placed)
}
