// One hexadecimal digit, and the half byte that it stands for.
ghost use Rattle.std.specs.Prelude.{◌≡◌, ◌+◌, ◌*◌, ◌/◌, ◌%◌, ◌<◌};
ghost use Rattle.hexadecimal.specs.Digit.{value_of, digit_for};

// The digits that are written, in the order of what they stand for.
const CAPITALS: [u8; 16] = *b"0123456789ABCDEF";

// What a digit stands for, and 0 of any other byte. The library's `to_digit` would have to go by way of a
// `char`, an `Option` and a `u32`.
fn value(c: u8) -> u8
    ensures answer { result ≡ value_of c }
    ensures half { result < 16 }
{
    match c {
        b'0'..=b'9' => c - b'0',
        b'A'..=b'F' => c - b'A' + 10,
        b'a'..=b'f' => c - b'a' + 10,
        _ => 0,
    }
}

// The byte that two digits spell.
pub(crate) fn joined(high: u8, low: u8) -> u8
    ensures { result ≡ value_of high * 16 + value_of low }
{
    value(high) * 16 + value(low)
}

// The upper-case digit of half a byte.
fn capital(half: u8) -> u8
    requires { half < 16 }
    ensures { result ≡ digit_for half }
{
    CAPITALS[usize::from(half)]
}

// The two digits that spell a byte.
pub(crate) fn parted(byte: u8) -> (u8, u8)
    ensures high { result.0 ≡ digit_for (byte / 16) }
    ensures low { result.1 ≡ digit_for (byte % 16) }
{
    (capital(byte / 16), capital(byte % 16))
}
