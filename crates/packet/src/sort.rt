// What a packet is to the controller: an event, or the answer to a packet of its own.
ghost use Rattle.std.specs.Prelude.{Some};
ghost use Rattle.packet.specs.Sorts.{sort_text};

use std::fmt;

/// What a packet is to the controller, by its package number: 0 makes it an event, any other is that of the packet that is answered.
#[derive(Clone, Copy, PartialEq, Eq, Debug)]
pub enum Sort {
    /// What a switch sends of its own accord.
    Event,
    /// The answer to the packet of this number.
    Answer(u16),
}

/// `event`, or `answer` and the number in decimal, with a space between.
impl fmt::Display for Sort {
    ghost output = { λ sort. Some (sort_text sort) };

    fn fmt<W: fmt::Write>(&self, f: &mut fmt::Formatter<W>) -> fmt::Result {
        match self {
            Sort::Event => write!(f, "event"),
            Sort::Answer(number) => write!(f, "answer {number}"),
        }
    }
}
