// The words of a script, as they are told.
ghost use Rattle.std.specs.Prelude.{Some};
ghost use Rattle.script.specs.Texts.{shown, shown_byte};

use hexadecimal::Digits;
use std::fmt;

#[derive(Clone, Copy)]
struct Byte(u8);

impl fmt::Display for Byte {
    ghost output = { λ byte. Some (shown_byte byte.0) };

    fn fmt<W: fmt::Write>(&self, f: &mut fmt::Formatter<W>) -> fmt::Result {
        if matches!(self.0, b' '..=b'~') {
            let c = char::from(self.0);
            write!(f, "{c}")
        } else {
            let digits = Digits(&[self.0]);
            write!(f, "x{digits}")
        }
    }
}

/// A text of a script as it is told, whatever its bytes: a printable character of ASCII as it is, any other
/// byte as an x with two hexadecimal digits. That there is none is told as `nothing`.
#[derive(Clone, Copy, PartialEq, Eq, Debug)]
pub struct Text<'a>(pub &'a [u8]);

impl fmt::Display for Text<'_> {
    ghost output = { λ text. Some (shown text.0.now) };

    fn fmt<W: fmt::Write>(&self, f: &mut fmt::Formatter<W>) -> fmt::Result {
        if self.0.is_empty() {
            return f.write_str("nothing");
        }
        for &byte in self.0 {
            let byte = Byte(byte);
            write!(f, "{byte}")?;
        }
        Ok(())
    }
}
