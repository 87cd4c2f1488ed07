// Why a line is no call.
ghost use Rattle.std.specs.Prelude.{Some};
ghost use Rattle.script.specs.Reasons.{why, why_text};

use crate::place::Place;
use crate::text::Text;
use crate::verb::Verb;
use std::fmt;

/// Why a line is no call. It is written as `unknown` lines have it.
#[derive(Clone, Copy, PartialEq, Eq, Debug)]
pub enum Reason<'a> {
    /// The line ends with a carriage return.
    LineEnd,
    /// No call has this name.
    Name(&'a [u8]),
    /// The call has a word too few or too many.
    Form(Verb),
    /// No store is opened by this name.
    Store(&'a [u8]),
    /// The word is no number, or none that fits its place.
    Number(&'a [u8], Place),
}

impl fmt::Display for Reason<'_> {
    ghost output = { λ reason. Some (why_text (why reason)) };

    fn fmt<W: fmt::Write>(&self, f: &mut fmt::Formatter<W>) -> fmt::Result {
        match *self {
            Reason::LineEnd => f.write_str("a line ends with LF alone"),
            Reason::Name(name) => {
                let name = Text(name);
                write!(f, "no call {name}")
            }
            Reason::Form(verb) => {
                let form = verb.form();
                write!(f, "write {form}")
            }
            Reason::Store(name) => {
                let name = Text(name);
                write!(f, "{name} is no store, table or image")
            }
            Reason::Number(word, place) => {
                let word = Text(word);
                write!(f, "{word} is no {place}")
            }
        }
    }
}
