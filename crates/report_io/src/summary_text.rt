// The text of a summary.
ghost use Rattle.std.specs.Prelude.{◌≡◌, ◌++◌, ◌==◌, map, false, IfOk};
ghost use Rattle.serde_json.specs.Written.{compact_text};
ghost use Rattle.text_defs.specs.Texts.{index_data};
ghost use Rattle.report_io.specs.Answers.{list_text, later_text, cost_text, truth_text};
ghost use Rattle.report_io.specs.Texts.{summary_data};

use crate::summary::Summary;
use json_text::{push_comma, push_index, push_natural};
use mcp_outside::NoMemory;

// Appends a summary, with its cost in version 2.
pub(crate) fn push_summary(text: &mut Vec<u8>, summary: &Summary) -> Result<(), NoMemory>
    ensures { IfOk result (λ _. text.new.items ≡ text.old.items ++ compact_text (summary_data summary.now)) }
{
    text.extend_from_slice(b"{\"bound\":")?;
    push_natural(text, summary.bound)?;
    text.extend_from_slice(b",\"commits\":[")?;
    push_counts(text, summary.commits.as_slice())?;
    push_cost(text, summary)?;
    push_later(text, summary)?;
    Ok(())
}

// Appends the cost, where the version is 2.
fn push_cost(text: &mut Vec<u8>, summary: &Summary) -> Result<(), NoMemory>
    ensures { IfOk result (λ _. text.new.items ≡ text.old.items ++ cost_text (summary.now.version == 2) summary.now.cost) }
{
    if summary.version == 2 {
        text.extend_from_slice(b",\"cost\":")?;
        push_natural(text, summary.cost)?;
    }
    Ok(())
}

// Appends the fields from the edges on, and the brace behind them.
fn push_later(text: &mut Vec<u8>, summary: &Summary) -> Result<(), NoMemory>
    ensures { IfOk result (λ _. text.new.items ≡ text.old.items ++ later_text summary.now) }
{
    text.extend_from_slice(b",\"edges\":")?;
    push_index(text, summary.edges)?;
    text.extend_from_slice(b",\"gap\":")?;
    push_natural(text, summary.gap)?;
    text.extend_from_slice(b",\"optimal\":")?;
    text.extend_from_slice(truth(summary.optimal))?;
    text.extend_from_slice(b",\"version\":")?;
    push_index(text, summary.version)?;
    text.push(b'}')?;
    Ok(())
}

// A truth value in JSON.
fn truth(value: bool) -> &'static [u8]
    ensures { result.now ≡ truth_text value }
{
    if value { b"true" } else { b"false" }
}

// Appends the numbers and the bracket behind them.
fn push_counts(text: &mut Vec<u8>, counts: &[u32]) -> Result<(), NoMemory>
    ensures { IfOk result (λ _. text.new.items ≡ text.old.items ++ list_text (map index_data counts.now)) }
{
    for (place, count) in counts.iter().enumerate() {
        push_comma(text, place > 0)?;
        push_index(text, *count)?;
    }
    text.push(b']')?;
    Ok(())
}
