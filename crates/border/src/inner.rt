// The inner points, found by the border.
ghost use Rattle.std.specs.Prelude.{◌≡◌, ◌<◌, ℕ, length, IfOk, IsTrue};
ghost use Rattle.border.specs.Chain.{ArePlaces};
ghost use Rattle.border.specs.Inner.{mark, AreInnerMarks};
ghost use Rattle.border.specs.Marks.{AreOthers};

use crate::cycle::border;
use mcp_outside::NoMemory;
use plane::Points;
use std::alloc::Global;

// Takes the marks of the numbers of a list away.
fn unmark(list: &[u32], marks: &mut Vec<bool>)
    requires all { (v : ℕ) → v < length marks.old.items → IsTrue (mark marks.old.items v) }
    requires places { ArePlaces (length marks.old.items) list.now }
    ensures others { AreOthers list.now (length list.now) marks.new.items }
    ensures count { length marks.new.items ≡ length marks.old.items }
{
    for v in list {
        marks[*v as usize] = false;
    }
}

/// For each point, by its index, whether it is in no border pair. (Textbook.)
pub fn inner_marks(alloc: Global, points: &Points) -> Result<Vec<bool>, NoMemory>
    ensures { IfOk result (λ marks. AreInnerMarks points.now marks.items) }
{
    let list = border(alloc, points)?;
    let mut marks = vec![in alloc; true; points.len() as usize]?;
    unmark(list.as_slice(), &mut marks);
    Ok(marks)
}
