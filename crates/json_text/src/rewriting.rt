// The text with its numbers rewritten.
ghost use Rattle.std.specs.Prelude.{◌≡◌, ◌<◌, ◌≤◌, ◌++◌, length, drop, IfOk};
ghost use Rattle.text_defs.specs.Numbers.{rewritten};

use crate::numbers::plain_run;
use crate::strings::{is_number_byte, others_len, run_len, string_len};
use mcp_outside::NoMemory;
use std::alloc::Global;

/// The text with each number outside its strings rewritten to a whole number of 64 bits, or to `null`
/// where it has an exponent or a fraction that isn't zero (this project's own).
pub fn plain_numbers(alloc: Global, bytes: &[u8]) -> Result<Vec<u8>, NoMemory>
    ensures { IfOk result (λ plain. plain.items ≡ rewritten bytes.now) }
{
    let mut plain = Vec::with_capacity(alloc, bytes.len())?;
    let mut place = 0;
    while place < bytes.len() {
        place += push_piece(&bytes[place..], &mut plain)?;
    }
    Ok(plain)
}

// Appends what the first piece becomes, and says how long the piece is. Other bytes go together.
fn push_piece(rest: &[u8], plain: &mut Vec<u8>) -> Result<usize, NoMemory>
    requires { 0 < length rest.now }
    ensures more { IfOk result (λ n. 0 < n) }
    ensures bound { IfOk result (λ n. n ≤ length rest.now) }
    ensures piece { IfOk result (λ n. plain.new.items ++ rewritten (drop n rest.now)
        ≡ plain.old.items ++ rewritten rest.now) }
{
    let byte = rest[0];
    if byte == b'"' {
        let end = 1 + string_len(&rest[1..]);
        plain.extend_from_slice(&rest[..end])?;
        Ok(end)
    } else if is_number_byte(byte) {
        let end = run_len(rest);
        plain.extend_from_slice(plain_run(&rest[..end]))?;
        Ok(end)
    } else {
        let end = others_len(rest);
        plain.extend_from_slice(&rest[..end])?;
        Ok(end)
    }
}
