// Two kinds of 32 bits under a mask: how a switch reports itself, and how it is told to behave.
ghost use Rattle.std.specs.Prelude.{◌≡◌, refl};
ghost use Rattle.kind.specs.Kinds.{asks_init, flags};
ghost use Rattle.kind.specs.Laws.{flags_lawful};

use crate::message::Kind;

const STATE_ID: u8 = 0x01;

const CONTROL_ID: u8 = 0x21;

// The bits that mean something; the others are dropped in both directions.
const STATE_BITS: u32 = 0x1F0F18FF;

/// The bits of a control word that mean something.
pub const CONTROL_BITS: u32 = 0x1F00FFBF;

// The bit of State by which a switch asks for everything.
const INIT_REQUEST: u32 = 1 << 6;

/// Whether a switch with these flags asks for everything.
pub fn asks_init(flags: u32) -> bool
    ensures { result ≡ asks_init flags }
{
    // by division, as the definition tests the bit
    flags / INIT_REQUEST % 2 == 1
}

/// The kind with this MessageID whose data is 32 bits, of which those of the mask mean something: 8 bytes, for the switch as a whole, so that its ActorID is 0.
/// The others are dropped in reading, and written as 0.
#[derive(Clone, Copy, PartialEq, Eq, Debug)]
pub struct Flags<const ID: u8, const MASK: u32>;

/// What a switch reports of itself.
pub type State = Flags<STATE_ID, STATE_BITS>;

/// How a switch is told to behave.
pub type Control = Flags<CONTROL_ID, CONTROL_BITS>;

impl<const ID: u8, const MASK: u32> Kind for Flags<ID, MASK> {
    const ID: u8 = ID;

    ghost ID = { ID };

    const LEN: u8 = 8;

    ghost LEN = { 8 };

    type Record = u32;

    ghost layout = { flags ID MASK };

    ghost ident = { refl };

    ghost sized = { refl };

    ghost lawful = { flags_lawful ID MASK ID-fits.fits MASK-fits.fits };

    fn admits(actor: u16) -> bool {
        actor == 0
    }

    fn decode(data: &[u8]) -> Option<u32> {
        let &[a, b, c, d] = data else {
            return None;
        };
        Some(u32::from_le_bytes([a, b, c, d]) & MASK)
    }

    fn encode(record: u32) -> [u8; 4] {
        (record & MASK).to_le_bytes()
    }
}
