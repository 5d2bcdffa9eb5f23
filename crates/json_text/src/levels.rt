// The levels of a text, counted on its bytes.
ghost use Rattle.std.specs.Prelude.{◌≡◌, ◌+◌, ◌<◌, ◌^◌, false, length, nat_le, MatchOption};
ghost use Rattle.text_defs.specs.Levels.{levels};
ghost use Rattle.text_defs.specs.Reading.{most_levels};
ghost use Rattle.json_text.specs.Passes.{PassesPiece};

use crate::strings::{is_number_byte, run_len, string_len};

const MOST_LEVELS: usize = 64;

// Whether the text has at most 64 levels.
pub(crate) fn has_few_levels(bytes: &[u8]) -> bool
    ensures { result ≡ nat_le (levels bytes.now) most_levels }
{
    let mut room = MOST_LEVELS;
    let mut place = 0;
    while place < bytes.len() {
        let Some((taken, left)) = after_piece(&bytes[place..], room) else {
            return false;
        };
        place += taken;
        room = left;
    }
    true
}

// The length of the first piece, and how far the count may still rise after it. None where it rose too far.
fn after_piece(rest: &[u8], room: usize) -> Option<(usize, usize)>
    requires some { 0 < length rest.now }
    requires fits { room + 1 < 2 ^ 64 }
    ensures { MatchOption result (nat_le (levels rest.now) room ≡ false)
        (λ p. PassesPiece rest.now room p.0 p.1) }
{
    let byte = rest[0];
    if byte == b'"' {
        Some((1 + string_len(&rest[1..]), room))
    } else if is_number_byte(byte) {
        Some((run_len(rest), room))
    } else if byte == b'[' || byte == b'{' {
        if room == 0 { None } else { Some((1, room - 1)) }
    } else if byte == b']' || byte == b'}' {
        Some((1, room + 1))
    } else {
        Some((1, room))
    }
}
