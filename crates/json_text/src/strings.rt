// Where the pieces of a text end: strings, runs of number bytes, and other bytes.
ghost use Rattle.std.specs.Prelude.{◌≡◌, ◌<◌, ◌≤◌, length};
ghost use Rattle.std.specs.List.{prefix_len};
ghost use Rattle.text_defs.specs.Pieces.{is_number_byte, string_len};
ghost use Rattle.text_defs.specs.Pieces.{is_other};

pub(crate) fn is_number_byte(c: u8) -> bool
    ensures { result ≡ is_number_byte c }
{
    c.is_ascii_digit() || c == b'+' || c == b'-' || c == b'.' || c == b'e' || c == b'E'
}

fn is_other(c: u8) -> bool
    ensures { result ≡ is_other c }
{
    c != b'"' && !is_number_byte(c)
}

// How many bytes a string takes behind its first quotation mark.
pub(crate) fn string_len(text: &[u8]) -> usize
    ensures value { result ≡ string_len text.now }
    ensures bound { result ≤ length text.now }
{
    let mut end = 0;
    while end < text.len() {
        if text[end] == b'"' {
            return end + 1;
        }
        if text[end] == b'\\' && end + 1 < text.len() {
            end += 2;
        } else {
            end += 1;
        }
    }
    end
}

#[tactic(auto, using(std::proofs::lemmas::List::Sums::prefix_len_is))]
pub(crate) fn run_len(text: &[u8]) -> usize
    ensures value { result ≡ prefix_len is_number_byte text.now }
    ensures bound { result ≤ length text.now }
{
    for (end, byte) in text.iter().enumerate() {
        if !is_number_byte(*byte) {
            return end;
        }
    }
    text.len()
}

#[tactic(auto, using(std::proofs::lemmas::List::Sums::prefix_len_is))]
pub(crate) fn others_len(text: &[u8]) -> usize
    ensures value { result ≡ prefix_len is_other text.now }
    ensures bound { result ≤ length text.now }
{
    for (end, byte) in text.iter().enumerate() {
        if !is_other(*byte) {
            return end;
        }
    }
    text.len()
}
