// Numbers: decimal, or hexadecimal behind `0x`.
ghost use Rattle.std.specs.Prelude.{◌≡◌, ◌+◌, ◌*◌, ◌^◌, ◌<◌, ◌≤◌, ◌&&◌, IfSome, if◌then◌else◌, Some, None, nat_le};
ghost use Rattle.hexadecimal.specs.Digit.{value_of};
ghost use Rattle.script.specs.Numbers.{is_digit_to, number_in, number_to, value_in};
ghost use Rattle.script.specs.Parts.{long_read, short_read, value_read};

use crate::part::Part;
use crate::place::Place;
use crate::reason::Reason;

// What a digit stands for in a number to that base, if it is one.
fn digit(c: u8, base: u32) -> Option<u32>
    ensures { result ≡ (if is_digit_to base c then Some (value_of c) else None) }
{
    let value = match c {
        b'0'..=b'9' => c - b'0',
        b'A'..=b'F' => c - b'A' + 10,
        b'a'..=b'f' => c - b'a' + 10,
        _ => return None,
    };
    (u32::from(value) < base).then_some(u32::from(value))
}

// A number with one digit more, as long as it stays within `most`.
fn with_digit(n: u32, c: u8, base: u32, most: u32) -> Option<u32>
    ensures answer { result ≡ (if is_digit_to base c && nat_le (n * base + value_of c) most then Some (n * base + value_of c) else None) }
    ensures within { IfSome result (λ m. m ≤ most) }
{
    let more = n.checked_mul(base)?.checked_add(digit(c, base)?)?;
    (more <= most).then_some(more)
}

// The number that digits write, if there are any and it is at most `most`.
fn number_to(word: &[u8], base: u32, most: u32) -> Option<u32>
    requires { 0 < base }
    ensures answer { result ≡ number_to base most word.now }
    ensures within { IfSome result (λ m. m ≤ most) }
{
    if word.is_empty() {
        return None;
    }
    let mut n = 0;
    for c in word {
        n = with_digit(n, *c, base, most)?;
    }
    Some(n)
}

// The number that a word writes, if it is one and at most `most`.
#[tactic(auto, unfolding(crate::specs::Numbers::number_in))]
pub(crate) fn number(word: &[u8], most: u32) -> Option<u32>
    ensures answer { result ≡ number_in most word.now }
    ensures within { IfSome result (λ m. m ≤ most) }
{
    match word {
        [b'0', b'x', digits @ ..] => number_to(digits, 16, most),
        _ => number_to(word, 10, most),
    }
}

// A value, which may have a minus.
fn value(word: &[u8]) -> Option<i16>
    ensures { result ≡ value_in word.now }
{
    match word {
        [b'-', digits @ ..] => Some(-(number(digits, 32768)? as i32) as i16),
        _ => Some(number(word, 32767)? as i16),
    }
}

impl Part for u16 {
    ghost reads = { short_read };

    // A number that fits two bytes.
    fn read(text: &[u8], place: Place) -> Result<Self, Reason<'_>> {
        match number(text, 65535) {
            Some(n) => Ok(n as u16),
            None => Err(Reason::Number(text, place)),
        }
    }
}

impl Part for u32 {
    ghost reads = { long_read };

    fn read(text: &[u8], place: Place) -> Result<Self, Reason<'_>> {
        match number(text, u32::MAX) {
            Some(n) => Ok(n),
            None => Err(Reason::Number(text, place)),
        }
    }
}

impl Part for i16 {
    ghost reads = { value_read };

    fn read(text: &[u8], place: Place) -> Result<Self, Reason<'_>> {
        match value(text) {
            Some(n) => Ok(n),
            None => Err(Reason::Number(text, place)),
        }
    }
}
