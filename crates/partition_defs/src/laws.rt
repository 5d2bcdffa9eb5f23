//! Laws of triangulations and of the flip. Each is a function that does nothing; its contract is the law.
ghost use Rattle.std.specs.Prelude.{◌≡◌, ◌⊎◌, List};
ghost use Rattle.plane.specs.Geometry.{IsBorderPair};
ghost use Rattle.plane.specs.declared.segment.Pair.{Pair as ThePair};
ghost use Rattle.partition_defs.specs.Partition.{IsConvexPartition};
ghost use Rattle.partition_defs.specs.Triangulation.{IsTriangulation, IsApex};
ghost use Rattle.partition_defs.specs.Flips.{IsFlippable, IsFlip, IsFlipped};

use plane::{Pair, Points};

/// All pairs of a triangulation together are a convex partition. (Textbook.)
pub fn triangulation_is_convex_partition(points: &Points)
    ensures { (T : List ThePair) → IsTriangulation points.now T → IsConvexPartition points.now T }
{
    let _count = points.len();
}

/// A directed pair of a triangulation has one apex at most. (Textbook.)
pub fn apex_is_one(points: &Points, list: &[Pair], p: u32, q: u32, r: u32, s: u32)
    requires { IsTriangulation points.now list.now }
    ensures { IsApex points.now list.now p q r → IsApex points.now list.now p q s → r ≡ s }
{}

/// The other diagonal of the strictly convex quadrilateral of two triangles is clear and crosses nothing but the first.
/// (Textbook.)
pub fn other_diagonal(points: &Points, list: &[Pair], a: u32, b: u32, c: u32, d: u32)
    requires { IsTriangulation points.now list.now }
    ensures { IsFlippable points.now list.now a b c d → IsFlip points.now list.now a b c d }
{}

/// A clear pair outside a triangulation that crosses one pair of it alone joins that pair's two apexes, and the
/// quadrilateral is strictly convex. (Textbook.)
pub fn flip_joins_apexes(points: &Points, list: &[Pair], a: u32, b: u32, c: u32, d: u32)
    requires { IsTriangulation points.now list.now }
    ensures apexes { IsFlip points.now list.now a b c d
        → IsFlippable points.now list.now a b c d ⊎ IsFlippable points.now list.now a b d c }
    ensures inside { IsFlip points.now list.now a b c d → ¬ IsBorderPair points.now a b }
{}

/// After a flip the pairs are a triangulation again. (Textbook.)
pub fn flip_keeps_triangulation(
    points: &Points,
    list: &[Pair],
    flipped: &[Pair],
    a: u32,
    b: u32,
    c: u32,
    d: u32,
)
    requires { IsTriangulation points.now list.now }
    ensures { IsFlip points.now list.now a b c d
        → IsFlipped list.now flipped.now a b c d
        → IsTriangulation points.now flipped.now }
{}
