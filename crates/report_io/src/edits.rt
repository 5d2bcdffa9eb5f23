// Edits, which are arrays that begin with a tag.
ghost use Rattle.std.specs.Prelude.{◌≡◌, map, length, option_map};
ghost use Rattle.serde_json.specs.View.{view};
ghost use Rattle.text_defs.specs.Items.{pair};
ghost use Rattle.instance_io.specs.Refusal.{ends};
ghost use Rattle.report_io.specs.Reading.{edit_in, edit_of};
ghost use Rattle.report_io.specs.Report.{edit_item};

use instance_io::pair_of;
use journal_defs::Edit;
use json_text::{array_of, index, is_tag};
use plane::Pair;
use serde_json::Value;

/// The edit of points below `n` that a value is: `["d",i,j]` drops the pair, `["k",i,j]` keeps it, and `["f",i,j,k,l]`
/// flips i-j to k-l. A pair may be written either way round. (This project's own.)
pub fn edit_of(value: &Value, n: u32) -> Option<Edit>
    ensures { option_map edit_item result ≡ edit_of n (view value.now) }
{
    let items = array_of(value)?;
    if items.len() == 3 {
        mark_of(items, n)
    } else if items.len() == 5 {
        flip_of(items, n)
    } else {
        None
    }
}

// The pair of two different indices below n, or none.
pub(crate) fn pair_in(first: &Value, second: &Value, n: u32) -> Option<Pair>
    ensures { option_map ends result ≡ pair n (view first.now) (view second.now) }
{
    let i = index(first, n)?;
    let j = index(second, n)?;
    pair_of(i, j)
}

// The drop or the keep that three items are.
fn mark_of(items: &[Value], n: u32) -> Option<Edit>
    requires { length items.now ≡ 3 }
    ensures { option_map edit_item result ≡ edit_in n (map view items.now) }
{
    if is_tag(&items[0], "d") {
        let pair = pair_in(&items[1], &items[2], n)?;
        Some(Edit::Drop(pair))
    } else if is_tag(&items[0], "k") {
        let pair = pair_in(&items[1], &items[2], n)?;
        Some(Edit::Keep(pair))
    } else {
        None
    }
}

// The flip that five items are.
fn flip_of(items: &[Value], n: u32) -> Option<Edit>
    requires { length items.now ≡ 5 }
    ensures { option_map edit_item result ≡ edit_in n (map view items.now) }
{
    if is_tag(&items[0], "f") {
        let from = pair_in(&items[1], &items[2], n)?;
        let to = pair_in(&items[3], &items[4], n)?;
        Some(Edit::Flip { from, to })
    } else {
        None
    }
}
