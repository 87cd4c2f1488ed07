// Lines of digits: a line to the bytes that it spells, and bytes to the line that spells them.
ghost use Rattle.std.specs.Prelude.{◌≡◌, ◌*◌, ◌≤◌, ◌++◌, length, take, drop, IfOk, Some};
ghost use Rattle.hexadecimal.specs.Decoding.{Faithful, Spells, bytes_of, decode_leaves, decode_tells, digits_ahead};
ghost use Rattle.hexadecimal.specs.Encoding.{ReadsBack, digits_of, encode_leaves, encode_tells};

use crate::digit::{joined, parted};
use fault::{CallFault, Fault};
use std::{fmt, str};

// Two digits for each byte of the longest payload.
const LONGEST: usize = 2944;

// How many bytes are written as one text: a write costs a formatter far more than two digits do.
const CHUNK: usize = 32;

// How many digits the line begins with.
fn digits_ahead(line: &[u8]) -> usize
    ensures { result ≡ digits_ahead line.now }
{
    line.iter()
        .position(|c| !c.is_ascii_hexdigit())
        .unwrap_or(line.len())
}

// How many bytes the line spells, if it may be read into that room.
fn checked(line: &[u8], room: usize) -> Result<usize, Fault>
    ensures answer { result ≡ decode_tells line.now room }
    ensures halves { IfOk result (λ n. (length line.now ≡ 2 * n) × (n ≤ room)) }
{
    if line.len() > LONGEST {
        return Err(Fault::Call(CallFault::HexLine, LONGEST));
    }
    let good = digits_ahead(line);
    if good < line.len() {
        return Err(Fault::Call(CallFault::HexLine, good));
    }
    if line.len() % 2 != 0 {
        return Err(Fault::Call(CallFault::HexLine, line.len()));
    }
    let n = line.len() / 2;
    if room < n {
        return Err(Fault::Call(CallFault::ShortBuffer, 0));
    }
    Ok(n)
}

// Joins the line's digits two by two.
fn fill(line: &[u8], out: &mut [u8])
    requires { length line.now ≡ 2 * length out.old }
    ensures { out.new ≡ bytes_of line.now }
{
    let (pairs, _) = line.as_chunks::<2>();
    // by places, since no proof knows what is written through a `zip`
    for (i, byte) in out.iter_mut().enumerate() {
        let [high, low] = pairs[i];
        *byte = joined(high, low);
    }
}

/// Reads a line of digits of either case, two for each byte, into the front of the buffer, and tells how many
/// bytes it spells. What lies behind them stays.
///
/// Refused with 23 are a line of more than 2,944 digits (place 2,944), one with another byte than a digit (its
/// place), and one with an odd count of digits (the line's length); then with 20, at place 0, one with more bytes
/// than the buffer has room for. A refusal leaves the buffer as it was.
#[tactic(auto, using(crate::proofs::Spelling::decode_faithful))]
pub fn decode(line: &[u8], out: &mut [u8]) -> Result<usize, Fault>
    ensures answer { result ≡ decode_tells line.now (length out.old) }
    ensures buffer { out.new ≡ decode_leaves line.now out.old }
    ensures faithful { Faithful line.now out.old result out.new }
{
    let n = checked(line, out.len())?;
    fill(line, &mut out[..n]);
    Ok(n)
}

// Writes two digits for each byte.
fn spell(bytes: &[u8], out: &mut [u8])
    requires { 2 * length bytes.now ≤ length out.old }
    ensures buffer { out.new ≡ digits_of bytes.now ++ drop (2 * length bytes.now) out.old }
    ensures spelt { Spells (take (2 * length bytes.now) out.new) bytes.now }
    ensures back { ReadsBack (take (2 * length bytes.now) out.new) bytes.now }
{
    // by places, since no proof knows what is written through `chunks_exact_mut`
    for (i, byte) in bytes.iter().enumerate() {
        (out[2 * i], out[2 * i + 1]) = parted(*byte);
    }
}

/// Writes the bytes as upper-case digits, two for each, into the front of the buffer, and tells how many digits.
/// What lies behind them stays.
///
/// Refused with 20, at place 0, where the buffer has no room for them; it stays as it was then.
pub fn encode(bytes: &[u8], out: &mut [u8]) -> Result<usize, Fault>
    ensures answer { result ≡ encode_tells bytes.now (length out.old) }
    ensures buffer { out.new ≡ encode_leaves bytes.now out.old }
    ensures spelt { IfOk result (λ n. Spells (take n out.new) bytes.now) }
    ensures back { IfOk result (λ n. ReadsBack (take n out.new) bytes.now) }
{
    if out.len() / 2 < bytes.len() {
        return Err(Fault::Call(CallFault::ShortBuffer, 0));
    }
    spell(bytes, out);
    Ok(2 * bytes.len())
}

// The digits of the bytes, as a text at the front of the room.
fn text_in<'a>(bytes: &[u8], room: &'a mut [u8]) -> &'a str
    requires { 2 * length bytes.now ≤ length room.old }
    ensures { result.now ≡ digits_of bytes.now }
{
    spell(bytes, room);
    str::from_utf8(&room[..2 * bytes.len()]).unwrap()
}

/// Bytes that write themselves as upper-case digits, two for each.
#[derive(Clone, Copy, PartialEq, Eq, Debug)]
pub struct Digits<'a>(pub &'a [u8]);

impl fmt::Display for Digits<'_> {
    ghost output = { λ digits. Some (digits_of digits.0.now) };

    fn fmt<W: fmt::Write>(&self, f: &mut fmt::Formatter<W>) -> fmt::Result {
        let mut room = [0; 2 * CHUNK];
        for bytes in self.0.chunks(CHUNK) {
            f.write_str(text_in(bytes, &mut room))?;
        }
        Ok(())
    }
}
