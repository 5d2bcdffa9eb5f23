// The edits of a step.
ghost use Rattle.std.specs.Prelude.{◌≡◌, ◌+◌, ◌≤◌, ◌++◌, map, length, option_map};
ghost use Rattle.serde_json.specs.View.{view};
ghost use Rattle.text_defs.specs.Items.{all_of};
ghost use Rattle.report_io.specs.Reading.{edit_of, edits_of};
ghost use Rattle.report_io.specs.Report.{edit_item};

use arrayvec::ArrayVec;
use journal_defs::{Edit, EditList};
use json_text::array_of;
use report_io::edit_of;
use serde_json::Value;

const MOST_EDITS: usize = 8;

/// The 1 to 8 edits of points below `n` that a value is.
pub fn edits_of(value: &Value, n: u32) -> Option<EditList>
    ensures { option_map (map edit_item) result ≡ edits_of n (view value.now) }
{
    let items = array_of(value)?;
    if items.is_empty() {
        return None;
    }
    if items.len() > MOST_EDITS {
        return None;
    }
    let mut edits = ArrayVec::new();
    push_edits(&mut edits, items, n)?;
    Some(EditList::make(edits.as_slice()))
}

// Appends the edit of each item, or answers that one is no edit.
fn push_edits(edits: &mut ArrayVec<Edit, MOST_EDITS>, items: &[Value], n: u32) -> Option<()>
    requires room { length edits.old.items + length items.now ≤ 8 }
    ensures { option_map (λ _. map edit_item edits.new.items) result
        ≡ option_map (λ more. map edit_item edits.old.items ++ more) (all_of (edit_of n) (map view items.now)) }
{
    let Some((first, rest)) = items.split_first() else {
        return Some(());
    };
    let edit = edit_of(first, n)?;
    edits.push(edit);
    push_edits(edits, rest, n)
}
