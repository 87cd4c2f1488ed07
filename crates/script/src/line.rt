// What a line of a script says.
ghost use Rattle.std.specs.Prelude.{◌≡◌};
ghost use Rattle.std.specs.Option.{option_map};
ghost use Rattle.script.specs.Calls.{call_in};
ghost use Rattle.script.specs.Line.{called, line_in, says, wish_in};

use crate::call::{Call, parse};
use crate::part::SPACE;
use crate::reason::Reason;

/// What a line begins with that is passed over, whatever follows.
pub const COMMENT: u8 = b'#';

const CARRIAGE_RETURN: u8 = b'\r';

const WANTED: u8 = b'=';

/// What a line of a script says.
#[derive(PartialEq, Eq, Debug, Drop)]
pub enum Line<'a> {
    /// Nothing: it is empty, or begins with `#`.
    Passed,
    /// `= OUTCOME`: which outcome is wanted of the call before it.
    Wanted(&'a [u8]),
    /// A call.
    Call(Call<'a>),
    /// No call, and why.
    Unknown(Reason<'a>),
}

// What a line wants, if it says that it wants something.
fn wish(line: &[u8]) -> Option<&[u8]>
    ensures { option_map (λ x. x.now) result ≡ wish_in line.now }
{
    match line {
        [WANTED, SPACE, ..] => Some(&line[2..]),
        _ => None,
    }
}

// What a line says that wants nothing. A call of its own, so that a line that is passed over pays for no room of a call.
#[inline(never)]
fn called(line: &[u8]) -> Line<'_>
    ensures { says result ≡ called (call_in line.now) }
{
    match parse(line) {
        Ok(call) => Line::Call(call),
        Err(reason) => Line::Unknown(reason),
    }
}

/// Reads a line of a script, which comes without its line feed.
pub fn read(line: &[u8]) -> Line<'_>
    ensures { says result ≡ line_in line.now }
{
    match line {
        [] | [COMMENT, ..] => Line::Passed,
        [.., CARRIAGE_RETURN] => Line::Unknown(Reason::LineEnd),
        _ => match wish(line) {
            Some(outcome) => Line::Wanted(outcome),
            None => called(line),
        },
    }
}
