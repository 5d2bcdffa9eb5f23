// Which vertices an edit touches.
ghost use Rattle.std.specs.Prelude.{◌≡◌};
ghost use Rattle.journal_defs.specs.Edits.{is_end as is_end_spec, touches};

use crate::edit::Edit;
use plane::Pair;

fn is_end(e: Pair, v: u32) -> bool
    ensures { result ≡ is_end_spec e v }
{
    e.lo() == v || e.hi() == v
}

/// Whether an edit touches a vertex: an end of one of its pairs.
pub fn is_touched(edit: &Edit, v: u32) -> bool
    ensures { result ≡ touches edit.now v }
{
    match edit {
        Edit::Drop(e) | Edit::Keep(e) => is_end(*e, v),
        Edit::Flip { from, to } => is_end(*from, v) || is_end(*to, v),
    }
}
