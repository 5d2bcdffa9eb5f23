// The text of a solution.
ghost use Rattle.std.specs.Prelude.{◌≡◌, ◌++◌, ◌<◌, nat_lt, map, IfOk};
ghost use Rattle.serde_json.specs.Written.{comma_if, compact_text};
ghost use Rattle.text_defs.specs.Texts.{solution_text, edge_data};
ghost use Rattle.instance_io.specs.Refusal.{ends};

use instance_io::Name;
use json_text::{push_comma, push_index, quoted};
use mcp_outside::NoMemory;
use plane::Pair;
use std::alloc::Global;

/// The text of a solution: one line without its end, with the pairs in the order of the list, the smaller index
/// first, and the name of the instance.
pub fn write_solution(alloc: Global, name: &Name, pairs: &[Pair]) -> Result<Vec<u8>, NoMemory>
    ensures { IfOk result (λ text. text.items ≡ solution_text name.now (map ends pairs.now)) }
{
    let name = quoted(alloc, name.as_str())?;
    let mut text = Vec::from_slice(alloc, b"{\"edges\":[")?;
    for (place, pair) in pairs.iter().enumerate() {
        push_edge(&mut text, place > 0, *pair)?;
    }
    text.extend_from_slice(b"],\"instance_name\":")?;
    text.extend_from_slice(&name)?;
    text.extend_from_slice(b",\"type\":\"Solution\"}")?;
    Ok(text)
}

// Appends a pair, after a comma where it isn't the first.
fn push_edge(text: &mut Vec<u8>, later: bool, pair: Pair) -> Result<(), NoMemory>
    ensures { IfOk result (λ _. text.new.items
        ≡ text.old.items ++ (comma_if later ++ compact_text (edge_data (ends pair)))) }
{
    push_comma(text, later)?;
    text.extend_from_slice(b"{\"i\":")?;
    push_index(text, pair.lo())?;
    text.extend_from_slice(b",\"j\":")?;
    push_index(text, pair.hi())?;
    text.push(b'}')?;
    Ok(())
}
