// One commit of a journal.
ghost use Rattle.std.specs.Prelude.{◌≡◌, ◌≤◌, map, length, option_map};
ghost use Rattle.serde_json.specs.View.{view};
ghost use Rattle.report_io.specs.Reading.{commit_of, edits_of, edits_in};
ghost use Rattle.report_io.specs.Report.{commit_item, edit_item};

use crate::edits::edit_of;
use arrayvec::ArrayVec;
use journal_defs::{Commit, EditList};
use json_text::{array_of, number_within};
use serde_json::Value;

const MOST_EDITS: usize = 8;

const MOST_CALLERS: u64 = 16;

// The commit that an item is: its caller, its number and its edits.
pub(crate) fn commit_of(item: &Value, n: u32) -> Option<Commit>
    ensures { option_map commit_item result ≡ commit_of n (view item.now) }
{
    let items = array_of(item)?;
    if items.len() != 3 {
        return None;
    }
    let caller = number_within(&items[0], 0, MOST_CALLERS)?;
    let seq = number_within(&items[1], 1, u32::MAX as u64)?;
    let edits = edits_of(&items[2], n)?;
    Some(Commit {
        caller: caller as u32,
        seq: seq as u32,
        edits,
    })
}

// The 1 to 8 edits that a value is.
fn edits_of(value: &Value, n: u32) -> Option<EditList>
    ensures { option_map (map edit_item) result ≡ edits_of n (view value.now) }
{
    let items = array_of(value)?;
    if items.is_empty() {
        return None;
    }
    if items.len() > MOST_EDITS {
        return None;
    }
    edits_in(items, n)
}

// The edits of 1 to 8 items, or none where one is no edit.
fn edits_in(items: &[Value], n: u32) -> Option<EditList>
    requires some { 1 ≤ length items.now }
    requires few { length items.now ≤ 8 }
    ensures { option_map (map edit_item) result ≡ edits_in n (map view items.now) }
{
    let mut edits = ArrayVec::<_, MOST_EDITS>::new();
    for item in items {
        let Some(edit) = edit_of(item, n) else {
            return None;
        };
        edits.push(edit);
    }
    Some(EditList::make(edits.as_slice()))
}
