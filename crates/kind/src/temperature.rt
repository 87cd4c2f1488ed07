// The room temperature that a switch measures.
ghost use Rattle.std.specs.Prelude.{refl};
ghost use Rattle.kind.specs.Kinds.{temperature};
ghost use Rattle.kind.specs.Laws.{temperature_lawful};

use crate::message::Kind;

// The one Valid byte under which a reading counts.
const VALID: u8 = 1;

/// A reading in tenths of a degree, absent where the Valid byte is not 1: 8 bytes, for the switch as a whole, so that its ActorID is 0.
/// An absent one is written as value 0 with Valid 0. The reserved byte is dropped in reading, and written as 0.
#[derive(Clone, Copy, PartialEq, Eq, Debug)]
pub struct Temperature;

impl Kind for Temperature {
    const ID: u8 = 0x71;

    ghost ID = { temperature.ident };

    const LEN: u8 = 8;

    ghost LEN = { temperature.size };

    type Record = Option<i16>;

    ghost layout = { temperature };

    ghost ident = { refl };

    ghost sized = { refl };

    ghost lawful = { temperature_lawful };

    fn admits(actor: u16) -> bool {
        actor == 0
    }

    fn decode(data: &[u8]) -> Option<Option<i16>> {
        let &[lo, hi, valid, _] = data else {
            return None;
        };
        Some((valid == VALID).then_some(i16::from_le_bytes([lo, hi])))
    }

    fn encode(record: Option<i16>) -> [u8; 4] {
        match record {
            None => [0, 0, 0, 0],
            Some(tenths) => {
                let [lo, hi] = tenths.to_le_bytes();
                [lo, hi, VALID, 0]
            }
        }
    }
}
