// An array of a tag and numbers, in a written text.
ghost use Rattle.std.specs.Prelude.{◌≡◌, ◌++◌, IfOk};
ghost use Rattle.report_io.specs.Answers.{numbers_text};

use json_text::push_natural;
use mcp_outside::NoMemory;

// Appends the head of an array, which has a first item, and the numbers behind it.
pub(crate) fn push_tagged(text: &mut Vec<u8>, head: &[u8], numbers: &[u64]) -> Result<(), NoMemory>
    ensures { IfOk result (λ _. text.new.items ≡ text.old.items ++ (head.now ++ numbers_text numbers.now)) }
{
    text.extend_from_slice(head)?;
    for number in numbers {
        text.push(b',')?;
        push_natural(text, *number)?;
    }
    text.push(b']')?;
    Ok(())
}
