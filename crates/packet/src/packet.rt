// A whole payload, checked from its first byte to its last in one pass, where it lies.
ghost use Rattle.std.specs.Prelude.{◌≡◌, ◌+◌, ◌^◌, ◌<◌, ◌≤◌, length};
ghost use Rattle.packet.specs.Grammar.{Grammar};
ghost use Rattle.packet.specs.Messages.{messages_of};
ghost use Rattle.packet.specs.Reading.{count_of, counted_on, messages_from, packet_of, reading_of};

use crate::descriptor::{DESCRIPTOR_LEN, Descriptor};
use crate::message::Message;
use fault::Fault;

/// What is known of an accepted payload; a `Cursor` gives its messages.
#[derive(Clone, Copy, PartialEq, Eq, Debug)]
pub struct Packet {
    /// The words that it begins with.
    pub descriptor: Descriptor,
    /// How many of its messages are of a known kind.
    pub understood: usize,
}

// How many messages are understood, of `rest` and of the messages before it, if all of `rest` reads. `rest` is what is left of a payload, from `place` on:
// what follows its first message is handed on, from the next one's first byte. The calls go as deep as there are messages, 364 at most; the hub reads by a `Cursor`.
fn count_understood(rest: &[u8], place: usize, before: usize) -> Result<usize, Fault>
    requires place { place + length rest.now < 2 ^ 63 }
    requires before { before + length rest.now < 2 ^ 63 }
    ensures { result ≡ counted_on before (count_of (messages_of rest.now 0 place)) }
{
    let &[len, ..] = rest else {
        return Ok(before);
    };
    let message = Message::read(rest, place)?;
    let so_far = if message.is_known() {
        before + 1
    } else {
        before
    };
    count_understood(&rest[len as usize..], place + len as usize, so_far)
}

// How many messages behind the descriptor are understood, if all of them read.
fn count_behind(payload: &[u8]) -> Result<usize, Fault>
    requires least { 16 ≤ length payload.now }
    requires most { length payload.now ≤ 1472 }
    ensures { result ≡ count_of (messages_from payload.now 16) }
{
    count_understood(&payload[DESCRIPTOR_LEN..], DESCRIPTOR_LEN, 0)
}

impl Packet {
    /// Reads a whole payload: its descriptor first, with refusals 1 to 4, then each message, with refusals 7, 8 and 9 at the message's first byte.
    /// The first check that fails is told.
    #[tactic(auto, using(crate::proofs::Spelling::reading_is_grammar))]
    pub fn read(payload: &[u8]) -> Result<Packet, Fault>
        ensures answer { result ≡ packet_of (reading_of payload.now) }
        ensures grammar { Grammar payload.now }
    {
        let descriptor = Descriptor::read(payload)?;
        let understood = count_behind(payload)?;
        Ok(Packet {
            descriptor,
            understood,
        })
    }
}
