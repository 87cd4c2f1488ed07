// Two kinds of one signed word: an actor's target and its actual value.
ghost use Rattle.std.specs.Prelude.{refl};
ghost use Rattle.kind.specs.Kinds.{value};
ghost use Rattle.kind.specs.Laws.{value_lawful};

use crate::message::Kind;

const EDIT_VALUE_ID: u8 = 0x42;

const REAL_VALUE_ID: u8 = 0x43;

/// The kind with this MessageID whose data is one signed word of an actor: 6 bytes, for an actor other than 0.
#[derive(Clone, Copy, PartialEq, Eq, Debug)]
pub struct Value<const ID: u8>;

/// An actor's target.
pub type EditValue = Value<EDIT_VALUE_ID>;

/// An actor's actual value.
pub type RealValue = Value<REAL_VALUE_ID>;

impl<const ID: u8> Kind for Value<ID> {
    const ID: u8 = ID;

    ghost ID = { ID };

    const LEN: u8 = 6;

    ghost LEN = { 6 };

    type Record = i16;

    ghost layout = { value ID };

    ghost ident = { refl };

    ghost sized = { refl };

    ghost lawful = { value_lawful ID ID-fits.fits };

    fn admits(actor: u16) -> bool {
        actor != 0
    }

    fn decode(data: &[u8]) -> Option<i16> {
        let &[lo, hi] = data else {
            return None;
        };
        Some(i16::from_le_bytes([lo, hi]))
    }

    fn encode(record: i16) -> [u8; 4] {
        let [lo, hi] = record.to_le_bytes();
        [lo, hi, 0, 0]
    }
}
