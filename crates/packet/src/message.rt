// One message: what it says, if its kind is known.
ghost use Rattle.std.specs.Prelude.{◌≡◌, ◌≤◌, false, length, OnOk, slice_index};
ghost use Rattle.packet.specs.Messages.{message_of, is_known};

use fault::Fault;
use kind::{Control, EditValue, Event, RealValue, State, Temperature};

/// A message of a known kind, in the kind's own terms.
#[derive(Clone, Copy, PartialEq, Eq, Debug)]
pub enum Record {
    /// What a switch reports of itself.
    State(u32),
    /// How a switch is told to behave.
    Control(u32),
    /// An actor's target.
    EditValue { actor: u16, target: i16 },
    /// An actor's actual value.
    RealValue { actor: u16, actual: i16 },
    /// A key that acts on an actor.
    Event { actor: u16, key: u8 },
    /// A reading in tenths of a degree, or none.
    Temperature(Option<i16>),
}

/// A message as it was read. One whose MessageID no kind has is passed over, and only that ID is told.
#[derive(Clone, Copy, PartialEq, Eq, Debug)]
pub enum Message {
    /// A message of a known kind.
    Known(Record),
    /// A message of no known kind, by its MessageID.
    Unknown(u8),
}

impl Message {
    /// Whether the message is of a known kind, and so counts as understood.
    pub fn is_known(self) -> bool
        ensures { result ≡ is_known self }
    {
        matches!(self, Message::Known(_))
    }

    /// Reads the message that begins `bytes`: the kind that it is of tells what it says. `bytes` is what is left of a payload, from `place` on, and each refusal
    /// is told at that place: 7 where no whole message begins there, 8 where a known kind has another length, 9 where it does not admit the actor.
    pub fn read(bytes: &[u8], place: usize) -> Result<Message, Fault>
        ensures answer { result ≡ message_of bytes.now place }
        ensures whole { OnOk result ((4 ≤ slice_index bytes.now 0) × (slice_index bytes.now 0 ≤ length bytes.now)) }
    {
        if let Some((_, flags)) = kind::read::<State>(bytes, place)? {
            return Ok(Message::Known(Record::State(flags)));
        }
        if let Some((_, word)) = kind::read::<Control>(bytes, place)? {
            return Ok(Message::Known(Record::Control(word)));
        }
        if let Some((actor, target)) = kind::read::<EditValue>(bytes, place)? {
            return Ok(Message::Known(Record::EditValue { actor, target }));
        }
        if let Some((actor, actual)) = kind::read::<RealValue>(bytes, place)? {
            return Ok(Message::Known(Record::RealValue { actor, actual }));
        }
        if let Some((actor, key)) = kind::read::<Event>(bytes, place)? {
            return Ok(Message::Known(Record::Event { actor, key }));
        }
        if let Some((_, reading)) = kind::read::<Temperature>(bytes, place)? {
            return Ok(Message::Known(Record::Temperature(reading)));
        }
        Ok(Message::Unknown(bytes[1]))
    }
}
