// Which rows are right: what a row asks of its points is found out once for each point.
ghost use Rattle.std.specs.Prelude.{◌≡◌, ◌<◌, ◌↔◌, ◌≤◌, length, IsTrue, IfOk};
ghost use Rattle.std.specs.List.{All};
ghost use Rattle.plane.specs.First.{IsFirstPairOrNone};
ghost use Rattle.plane.specs.Geometry.{IsBetween};
ghost use Rattle.price_defs.specs.Limits.{IsIndexed};
ghost use Rattle.price_defs.specs.Rows.{IsAlone, IsRight};
ghost use Rattle.cert_check.specs.Shapes.{AreInnerMarks, AreAloneMarks, IsFirstBad};

use directions::Opposites;
use mcp_outside::NoMemory;
use plane::Points;
use price_defs::{MOST_ROWS, Row};
use std::alloc::Global;

// Whether each point is inner.
fn inner_marks(alloc: Global, points: &Points) -> Result<Vec<bool>, NoMemory>
    ensures { IfOk result (λ v. AreInnerMarks points.now v.items) }
{
    let mut marks = Vec::with_capacity(alloc, points.len() as usize)?;
    for p in 0..points.len() {
        marks.push(points.is_inner(p))?;
    }
    Ok(marks)
}

// Whether there are no two points that p is strictly between, where the first two are known.
fn has_none(points: &Points, p: u32, found: Option<(u32, u32)>) -> bool
    requires { IsFirstPairOrNone (λ i j. IsBetween points.now p i j) (length points.now) found }
    ensures { IsTrue result ↔ IsAlone points.now p }
{
    match found {
        Some(_) => false,
        None => true,
    }
}

// Whether a point is strictly between no two points, which is noted where it wasn't known.
fn is_noted_alone(
    points: &Points,
    opposites: &mut Opposites,
    alone: &mut Vec<Option<bool>>,
    p: u32,
) -> Result<bool, NoMemory>
    requires points { points.now ≡ opposites.old }
    requires p_in { p < length points.now }
    requires marks { AreAloneMarks points.now alone.old.items }
    ensures alone { IfOk result (λ b. IsTrue b ↔ IsAlone points.now p) }
    ensures marks { AreAloneMarks points.now alone.new.items }
    ensures points { opposites.new ≡ opposites.old }
{
    if let Some(known) = alone[p as usize] {
        return Ok(known);
    }
    let found = opposites.first(points, p)?;
    let is_alone = has_none(points, p, found);
    alone[p as usize] = Some(is_alone);
    Ok(is_alone)
}

// Whether a row is right.
fn is_right_row(
    points: &Points,
    inner: &[bool],
    opposites: &mut Opposites,
    alone: &mut Vec<Option<bool>>,
    row: Row,
) -> Result<bool, NoMemory>
    requires points { points.now ≡ opposites.old }
    requires indexed { IsIndexed points.now row }
    requires inner { AreInnerMarks points.now inner.now }
    requires alone { AreAloneMarks points.now alone.old.items }
    ensures right { IfOk result (λ b. IsTrue b ↔ IsRight points.now row) }
    ensures alone { AreAloneMarks points.now alone.new.items }
    ensures points { opposites.new ≡ opposites.old }
{
    match row {
        Row::Half { p, q, w: _ } => Ok(p != q && inner[p as usize]),
        Row::Three { p, w: _ } => {
            if inner[p as usize] {
                is_noted_alone(points, opposites, alone, p)
            } else {
                Ok(false)
            }
        }
        Row::Cross { e, f, w: _ } => Ok(points.cross(e, f)),
        Row::Cap { e, w: _ } => Ok(points.is_clear(e)),
    }
}

/// The least position of a row that isn't right, or none where all are.
pub fn first_bad(alloc: Global, points: &Points, rows: &[Row]) -> Result<Option<u32>, NoMemory>
    requires indexed { All (IsIndexed points.now) rows.now }
    requires few { length rows.now ≤ MOST_ROWS }
    ensures { IfOk result (IsFirstBad points.now rows.now) }
{
    let inner = inner_marks(alloc, points)?;
    let mut opposites = Opposites::make(alloc, points)?;
    let mut alone = vec![in alloc; None; points.len() as usize]?;
    for k in 0..rows.len() {
        let is_right = is_right_row(
            points,
            inner.as_slice(),
            &mut opposites,
            &mut alone,
            rows[k],
        )?;
        if !is_right {
            return Ok(Some(k as u32));
        }
    }
    Ok(None)
}
