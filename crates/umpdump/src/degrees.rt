// A temperature in degrees, from the tenths that a switch sends.
ghost use Rattle.std.specs.Prelude.{◌≡◌, ◌+◌, ◌*◌, ◌<◌, Some};
ghost use Rattle.umpdump.specs.Degrees.{degrees_of, degrees_text, is_below, signed};

use std::fmt;

/// A temperature: whether it is below zero, its whole degrees, and one digit after the point.
#[derive(Clone, Copy, PartialEq, Eq, Debug)]
pub struct Degrees {
    below: bool,
    whole: u16,
    tenth: u16,
}

impl Degrees {
    /// The temperature of so many tenths of a degree.
    pub fn of_tenths(tenths: i16) -> Degrees
        ensures answer { result ≡ degrees_of tenths }
        ensures value { tenths ≡ signed result.below (result.whole * 10 + result.tenth) }
        ensures sign { result.below ≡ is_below tenths }
        ensures digit { result.tenth < 10 }
    {
        let size = tenths.unsigned_abs();
        Degrees {
            below: tenths < 0,
            whole: size / 10,
            tenth: size % 10,
        }
    }
}

// The sign stands apart, since -0.2 has no whole degrees to bear it.
impl fmt::Display for Degrees {
    ghost output = { λ degrees. Some (degrees_text degrees) };

    fn fmt<W: fmt::Write>(&self, f: &mut fmt::Formatter<W>) -> fmt::Result {
        let sign = if self.below { "-" } else { "" };
        let Degrees { whole, tenth, .. } = *self;
        write!(f, "{sign}{whole}.{tenth}")
    }
}
