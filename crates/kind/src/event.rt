// A key pressed at a switch.
ghost use Rattle.std.specs.Prelude.{refl};
ghost use Rattle.kind.specs.Kinds.{event};
ghost use Rattle.kind.specs.Laws.{event_lawful};

use crate::message::Kind;

// A key of the panel has four bits; the byte after it is reserved.
const KEY_BITS: u8 = 0x0F;

/// A key that acts on an actor, as a number of four bits: 6 bytes, for an actor other than 0. The reserved byte is dropped in reading, and written as 0.
#[derive(Clone, Copy, PartialEq, Eq, Debug)]
pub struct Event;

impl Kind for Event {
    const ID: u8 = 0x51;

    ghost ID = { event.ident };

    const LEN: u8 = 6;

    ghost LEN = { event.size };

    type Record = u8;

    ghost layout = { event };

    ghost ident = { refl };

    ghost sized = { refl };

    ghost lawful = { event_lawful };

    fn admits(actor: u16) -> bool {
        actor != 0
    }

    fn decode(data: &[u8]) -> Option<u8> {
        let &[key, _] = data else {
            return None;
        };
        Some(key & KEY_BITS)
    }

    fn encode(record: u8) -> [u8; 4] {
        [record & KEY_BITS, 0, 0, 0]
    }
}
