// The six kinds of message, and one reader and one writer that serve them all.
#![tactic(auto)]

ghost use Rattle.kind.specs.Kinds.{control, edit_value, real_value, state};
ghost use Rattle.kind.specs.Layout.{Agrees};

mod event;
mod flags;
mod message;
mod temperature;
mod value;

pub use event::Event;
pub use flags::{CONTROL_BITS, Control, Flags, State, asks_init};
pub use message::{Kind, kinds_are_distinct, read, write};
pub use temperature::Temperature;
pub use value::{EditValue, RealValue, Value};

/// Nothing runs here: it states that each kind of flags or values is the one of its name.
pub fn flags_and_values_stand()
    ensures state { Agrees ⟦<State as Kind>⟧.layout state }
    ensures control { Agrees ⟦<Control as Kind>⟧.layout control }
    ensures edit_value { Agrees ⟦<EditValue as Kind>⟧.layout edit_value }
    ensures real_value { Agrees ⟦<RealValue as Kind>⟧.layout real_value }
{}
