// The numbers of a text before it is read as JSON.
ghost use Rattle.std.specs.Prelude.{◌≡◌, ◌≤◌, ◌+◌, ◌*◌, min, length, take, option_map};
ghost use Rattle.std.specs.List.{prefix_len, take_while, list_any};
ghost use Rattle.std.specs.Char.{is_ascii_digit};
ghost use Rattle.std.specs.Str.Parse.{digits_value};
ghost use Rattle.json.specs.Word.{head, after_minus, after_sign, after_digits, after_whole, after_fraction, after_exponent, after_number};
ghost use Rattle.text_defs.specs.Numbers.{is_number, is_exponent_mark, is_counting_digit, is_broken, after_whole_part};
ghost use Rattle.text_defs.specs.Numbers.{whole_text, replacement};

// One more than the greatest value that a sign can bring within 64 bits.
pub(crate) const CAP: u64 = 9_223_372_036_854_775_809;

#[tactic(auto, using(std::proofs::lemmas::List::Sums::prefix_len_is))]
pub(crate) fn digits_len(text: &[u8]) -> usize
    ensures value { result ≡ prefix_len is_ascii_digit text.now }
    ensures bound { result ≤ length text.now }
{
    for (end, byte) in text.iter().enumerate() {
        if !byte.is_ascii_digit() {
            return end;
        }
    }
    text.len()
}

fn first_byte(text: &[u8]) -> u8
    ensures { result ≡ head text.now }
{
    match text.first() {
        Some(byte) => *byte,
        None => b' ',
    }
}

pub(crate) fn after_minus(text: &[u8]) -> &[u8]
    ensures { result.now ≡ after_minus text.now }
{
    if first_byte(text) == b'-' {
        &text[1..]
    } else {
        text
    }
}

fn after_sign(text: &[u8]) -> &[u8]
    ensures { result.now ≡ after_sign text.now }
{
    let byte = first_byte(text);
    if byte == b'-' || byte == b'+' {
        &text[1..]
    } else {
        text
    }
}

fn after_digits(text: &[u8]) -> Option<&[u8]>
    ensures { option_map (λ rest. rest.now) result ≡ after_digits text.now }
{
    let end = digits_len(text);
    if end == 0 { None } else { Some(&text[end..]) }
}

fn after_whole(text: &[u8]) -> Option<&[u8]>
    ensures { option_map (λ rest. rest.now) result ≡ after_whole text.now }
{
    if first_byte(text) == b'0' {
        Some(&text[1..])
    } else {
        after_digits(text)
    }
}

fn after_fraction(text: &[u8]) -> Option<&[u8]>
    ensures { option_map (λ rest. rest.now) result ≡ after_fraction text.now }
{
    if first_byte(text) == b'.' {
        after_digits(&text[1..])
    } else {
        Some(text)
    }
}

fn after_exponent(text: &[u8]) -> Option<&[u8]>
    ensures { option_map (λ rest. rest.now) result ≡ after_exponent text.now }
{
    let byte = first_byte(text);
    if byte == b'e' || byte == b'E' {
        after_digits(after_sign(&text[1..]))
    } else {
        Some(text)
    }
}

#[tactic(auto, unfolding(json::specs::Word::after_number))]
fn after_number(text: &[u8]) -> Option<&[u8]>
    ensures { option_map (λ rest. rest.now) result ≡ after_number text.now }
{
    let fraction = after_whole(after_minus(text))?;
    let exponent = after_fraction(fraction)?;
    after_exponent(exponent)
}

fn is_number(text: &[u8]) -> bool
    ensures { result ≡ is_number text.now }
{
    match after_number(text) {
        Some(rest) => rest.is_empty(),
        None => false,
    }
}

fn is_exponent_mark(c: u8) -> bool
    ensures { result ≡ is_exponent_mark c }
{
    c == b'e' || c == b'E'
}

fn is_counting_digit(c: u8) -> bool
    ensures { result ≡ is_counting_digit c }
{
    c.is_ascii_digit() && c != b'0'
}

fn after_whole_part(number: &[u8]) -> &[u8]
    ensures { result.now ≡ after_whole_part number.now }
{
    let text = after_minus(number);
    &text[digits_len(text)..]
}

fn has_exponent(number: &[u8]) -> bool
    ensures { result ≡ list_any is_exponent_mark number.now }
{
    number.iter().any(|c| is_exponent_mark(*c))
}

fn has_counting_digit(tail: &[u8]) -> bool
    ensures { result ≡ list_any is_counting_digit tail.now }
{
    tail.iter().any(|c| is_counting_digit(*c))
}

fn is_broken(number: &[u8]) -> bool
    ensures { result ≡ is_broken number.now }
{
    has_exponent(number) || has_counting_digit(after_whole_part(number))
}

// The value of the digits in front, or `CAP` where it is greater.
pub(crate) fn capped_value(text: &[u8]) -> u64
    ensures { result ≡ min CAP (digits_value 10 (take_while is_ascii_digit text.now)) }
{
    let mut value = 0;
    for byte in text {
        if !byte.is_ascii_digit() {
            return value;
        }
        value = with_digit(value, *byte - b'0');
    }
    value
}

fn with_digit(value: u64, digit: u8) -> u64
    requires capped { value ≤ CAP }
    requires digit { digit ≤ 9 }
    ensures { result ≡ min CAP (value * 10 + digit) }
{
    if value > CAP / 10 {
        CAP
    } else {
        value * 10 + u64::from(digit)
    }
}

fn whole_text(number: &[u8]) -> &[u8]
    ensures { result.now ≡ whole_text number.now }
{
    let text = after_minus(number);
    let minus = text.len() < number.len();
    let value = capped_value(text);
    if value == 0 {
        b"0"
    } else if value < CAP - 1 || minus && value < CAP {
        &number[..number.len() - text.len() + digits_len(text)]
    } else if minus {
        b"-9223372036854775808"
    } else {
        b"9223372036854775807"
    }
}

// What the run becomes.
#[tactic(auto, unfolding(text_defs::specs::Numbers::replacement))]
pub(crate) fn plain_run(run: &[u8]) -> &[u8]
    ensures { result.now ≡ replacement run.now }
{
    if !is_number(run) {
        run
    } else if is_broken(run) {
        b"null"
    } else {
        whole_text(run)
    }
}
