// The parts of a written text.
ghost use Rattle.std.specs.Prelude.{◌≡◌, ◌++◌, decimal, IfOk};
ghost use Rattle.serde_json.specs.Written.{comma_if, number_text};
ghost use Rattle.serde_json.specs.Find.{of_integer};
ghost use Rattle.json.specs.Print.{quoted};

use itoa::Buffer;
use mcp_outside::NoMemory;
use serde_json::Value;
use std::alloc::Global;

/// A text as a string of JSON.
pub fn quoted(alloc: Global, text: &str) -> Result<Vec<u8>, NoMemory>
    ensures { IfOk result (λ bytes. bytes.items ≡ quoted text.now) }
{
    Ok(Value::try_from_str(alloc, text)?.to_vec(alloc)?)
}

/// Appends a comma, where something stands before.
pub fn push_comma(text: &mut Vec<u8>, later: bool) -> Result<(), NoMemory>
    ensures { IfOk result (λ _. text.new.items ≡ text.old.items ++ comma_if later) }
{
    if later {
        text.push(b',')?;
    }
    Ok(())
}

/// Appends the digits of an index.
pub fn push_index(text: &mut Vec<u8>, i: u32) -> Result<(), NoMemory>
    ensures { IfOk result (λ _. text.new.items ≡ text.old.items ++ decimal i) }
{
    let mut buffer = Buffer::new();
    text.extend_from_slice(buffer.format(i).as_bytes())?;
    Ok(())
}

/// Appends the digits of a number.
pub fn push_natural(text: &mut Vec<u8>, number: u64) -> Result<(), NoMemory>
    ensures { IfOk result (λ _. text.new.items ≡ text.old.items ++ decimal number) }
{
    let mut buffer = Buffer::new();
    text.extend_from_slice(buffer.format(number).as_bytes())?;
    Ok(())
}

/// Appends a whole number in decimal.
pub fn push_whole(text: &mut Vec<u8>, number: i64) -> Result<(), NoMemory>
    ensures { IfOk result (λ _. text.new.items ≡ text.old.items ++ number_text (of_integer number)) }
{
    let mut buffer = Buffer::new();
    text.extend_from_slice(buffer.format(number).as_bytes())?;
    Ok(())
}
