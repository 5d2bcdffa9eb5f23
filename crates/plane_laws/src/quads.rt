// Triangles, and quadrilaterals with an empty triangle on each side of a diagonal.
ghost use Rattle.std.specs.Prelude.{◌<◌, ◌⊎◌, length, pos, ◌<ℤ◌};
ghost use Rattle.plane.specs.Geometry.{orientation, AreCrossing, IsBetween, IsClear, IsInTriangle, IsEmptyTriangle};
ghost use Rattle.plane_laws.specs.Quads.{AreEnds, IsConvexQuad, CrossesSide};

use plane::Points;

/// A segment that enters a triangle over one side ends in it, crosses another side, or goes through the third corner.
/// (Textbook.)
pub fn leaves_triangle(points: &Points, p: u32, q: u32, r: u32, u: u32, v: u32)
    ensures { pos 0 <ℤ orientation points.now p q r → AreCrossing points.now p q u v → pos 0 <ℤ orientation points.now p q v
        → IsInTriangle points.now p q r v
        ⊎ (AreCrossing points.now q r u v ⊎ (AreCrossing points.now r p u v ⊎ IsBetween points.now r u v)) }
{}

/// The other diagonal of a strictly convex quadrilateral with two empty triangles is clear and crosses the first, and the
/// two triangles at it are empty. (Textbook.)
pub fn diagonals_of_four(points: &Points, a: u32, b: u32, c: u32, d: u32)
    ensures empty { IsConvexQuad points.now a b c d → IsEmptyTriangle points.now c d b × IsEmptyTriangle points.now d c a }
    ensures clear { IsConvexQuad points.now a b c d → IsClear points.now c d }
    ensures crosses { IsConvexQuad points.now a b c d → AreCrossing points.now c d a b }
{}

/// A segment that crosses the other diagonal is the first diagonal or crosses a side, where it doesn't go through the first
/// diagonal's ends. (Textbook.)
pub fn other_diagonal_of_four(points: &Points, a: u32, b: u32, c: u32, d: u32, u: u32, v: u32)
    requires u_in { u < length points.now }
    requires v_in { v < length points.now }
    ensures { IsConvexQuad points.now a b c d → ¬ IsBetween points.now a u v → ¬ IsBetween points.now b u v
        → AreCrossing points.now c d u v → AreEnds a b u v ⊎ CrossesSide points.now a b c d u v }
{}
