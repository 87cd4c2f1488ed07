// A cursor over the messages of a payload, which stays where it lies.
ghost use Rattle.std.specs.Prelude.{◌≡◌, ◌+◌, ◌<◌, ◌≤◌, true, not, [], length, drop, IfOk, Ok, OnOk, OnSome, nat_lt, slice_index};
ghost use Rattle.packet.specs.Reading.{messages_from};
ghost use Rattle.packet.specs.Messages.{message_of};
ghost use Rattle.packet.specs.Walking.{Walked, next_of, place_after, placed, advanced};

use crate::descriptor::DESCRIPTOR_LEN;
use crate::message::Message;
use fault::Fault;
use std::marker::Model;

/// A place in a payload: at the first byte of a message, or at the end.
#[derive(Clone, Debug, Drop)]
pub struct Cursor<'a> {
    payload: &'a [u8],
    place: usize,
}

impl<'a> Model for Cursor<'a> {
    ghost use Rattle.packet.specs.Walking.{Walk};

    ghost Value = { Walk };

    ghost view = { λ c. record { payload = c.payload.now; place = c.place } };
}

// The message at a place before the end.
fn message_at(payload: &[u8], place: usize) -> Result<Message, Fault>
    requires { place < length payload.now }
    ensures answer { result ≡ message_of (drop place payload.now) place }
    ensures whole { OnOk result ((4 ≤ slice_index payload.now place) × (place + slice_index payload.now place ≤ length payload.now)) }
    ensures walked { Walked payload.now place (advanced place (slice_index payload.now place) result) (placed place result) }
{
    Message::read(&payload[place..], place)
}

impl<'a> Cursor<'a> {
    /// A cursor at the first message of a payload, behind the descriptor.
    pub fn new(payload: &'a [u8]) -> Cursor<'a>
        ensures payload { result.payload ≡ payload.now }
        ensures place { result.place ≡ 16 }
    {
        Cursor {
            payload,
            place: DESCRIPTOR_LEN,
        }
    }

    /// The next message and its offset in the payload, or nothing at the end. A message that does not read is refused with 7, 8 or 9 at its first byte, as
    /// `Message::read` does, and the cursor stays before it: as an `Iterator` it would give that fault without end.
    #[tactic(auto, using(crate::proofs::Walks::none_from))]
    pub fn next(&mut self) -> Result<Option<(usize, Message)>, Fault>
        ensures answer { result ≡ next_of self.old.payload self.old.place }
        ensures payload { self.new.payload ≡ self.old.payload }
        ensures place { self.new.place ≡ place_after self.old.payload self.old.place }
        ensures moves { IfOk result (λ o. OnSome o ((self.old.place + 4 ≤ self.new.place) × (self.new.place ≤ length self.old.payload))) }
        ensures walked { Walked self.old.payload self.old.place self.new.place result }
    {
        let place = self.place;
        if place >= self.payload.len() {
            return Ok(None);
        }
        let message = message_at(self.payload, place)?;
        self.place = place + self.payload[place] as usize;
        Ok(Some((place, message)))
    }
}
