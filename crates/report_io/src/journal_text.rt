// The text of a journal.
ghost use Rattle.std.specs.Prelude.{◌≡◌, ◌++◌, map, IfOk};
ghost use Rattle.serde_json.specs.Written.{comma_if, compact_text};
ghost use Rattle.instance_io.specs.Refusal.{ends};
ghost use Rattle.report_io.specs.Answers.{list_text};
ghost use Rattle.report_io.specs.Parts.{flipped};
ghost use Rattle.report_io.specs.Report.{edit_item, commit_item, journal_parts};
ghost use Rattle.report_io.specs.Texts.{edit_data, commit_data, start_data, journal_data};

use crate::pieces::push_tagged;
use journal_defs::{Commit, Edit};
use json_text::{push_comma, push_index};
use mcp_outside::NoMemory;
use plane::Pair;

// Appends a journal with its start.
pub(crate) fn push_journal(
    text: &mut Vec<u8>,
    start: &[Pair],
    commits: &[Commit],
) -> Result<(), NoMemory>
    ensures { IfOk result (λ _. text.new.items
        ≡ text.old.items ++ compact_text (journal_data (journal_parts start.now commits.now))) }
{
    text.extend_from_slice(b"{\"commits\":[")?;
    push_commits(text, commits)?;
    text.extend_from_slice(b",\"start\":[")?;
    push_start(text, start)?;
    text.push(b'}')?;
    Ok(())
}

// Appends the commits and the bracket behind them.
fn push_commits(text: &mut Vec<u8>, commits: &[Commit]) -> Result<(), NoMemory>
    ensures { IfOk result (λ _. text.new.items ≡ text.old.items ++ list_text (map commit_data (map commit_item commits.now))) }
{
    for (place, commit) in commits.iter().enumerate() {
        push_commit(text, place > 0, commit)?;
    }
    text.push(b']')?;
    Ok(())
}

// Appends a commit, after a comma where it isn't the first.
fn push_commit(text: &mut Vec<u8>, later: bool, commit: &Commit) -> Result<(), NoMemory>
    ensures { IfOk result (λ _. text.new.items
        ≡ text.old.items ++ (comma_if later ++ compact_text (commit_data (commit_item commit.now)))) }
{
    push_comma(text, later)?;
    text.push(b'[')?;
    push_index(text, commit.caller)?;
    text.push(b',')?;
    push_index(text, commit.seq)?;
    text.extend_from_slice(b",[")?;
    push_edits(text, commit.edits.as_slice())?;
    text.push(b']')?;
    Ok(())
}

// Appends the edits and the bracket behind them.
fn push_edits(text: &mut Vec<u8>, edits: &[Edit]) -> Result<(), NoMemory>
    ensures { IfOk result (λ _. text.new.items ≡ text.old.items ++ list_text (map edit_data (map edit_item edits.now))) }
{
    for (place, edit) in edits.iter().enumerate() {
        push_edit(text, place > 0, *edit)?;
    }
    text.push(b']')?;
    Ok(())
}

// Appends an edit, after a comma where it isn't the first.
fn push_edit(text: &mut Vec<u8>, later: bool, edit: Edit) -> Result<(), NoMemory>
    ensures { IfOk result (λ _. text.new.items
        ≡ text.old.items ++ (comma_if later ++ compact_text (edit_data (edit_item edit)))) }
{
    push_comma(text, later)?;
    match edit {
        Edit::Drop(e) => {
            push_tagged(text, b"[\"d\"", &[u64::from(e.lo()), u64::from(e.hi())])?;
            Ok(())
        }
        Edit::Keep(e) => {
            push_tagged(text, b"[\"k\"", &[u64::from(e.lo()), u64::from(e.hi())])?;
            Ok(())
        }
        Edit::Flip { from, to } => {
            push_flip(text, from, to)?;
            Ok(())
        }
    }
}

fn push_flip(text: &mut Vec<u8>, from: Pair, to: Pair) -> Result<(), NoMemory>
    ensures { IfOk result (λ _. text.new.items
        ≡ text.old.items ++ compact_text (edit_data (flipped (ends from) (ends to)))) }
{
    let numbers = [
        u64::from(from.lo()),
        u64::from(from.hi()),
        u64::from(to.lo()),
        u64::from(to.hi()),
    ];
    push_tagged(text, b"[\"f\"", &numbers)?;
    Ok(())
}

// Appends the pairs of a start and the bracket behind them.
fn push_start(text: &mut Vec<u8>, start: &[Pair]) -> Result<(), NoMemory>
    ensures { IfOk result (λ _. text.new.items ≡ text.old.items ++ list_text (map start_data (map ends start.now))) }
{
    for (place, pair) in start.iter().enumerate() {
        push_pair(text, place > 0, *pair)?;
    }
    text.push(b']')?;
    Ok(())
}

// Appends a pair, after a comma where it isn't the first.
fn push_pair(text: &mut Vec<u8>, later: bool, pair: Pair) -> Result<(), NoMemory>
    ensures { IfOk result (λ _. text.new.items
        ≡ text.old.items ++ (comma_if later ++ compact_text (start_data (ends pair)))) }
{
    push_comma(text, later)?;
    text.push(b'[')?;
    push_index(text, pair.lo())?;
    text.push(b',')?;
    push_index(text, pair.hi())?;
    text.push(b']')?;
    Ok(())
}
