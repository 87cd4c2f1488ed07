// Settings: an actual value, a target, a control word.
ghost use Rattle.std.specs.Prelude.{◌≡◌};
ghost use Rattle.model.specs.Models.{answer_of, hub_after};
ghost use Rattle.model.specs.Settings.{lawful_control, set_control, set_value};
ghost use Rattle.store.specs.declared.actor_store.Half.TheVariants.{Actual, Target};
ghost use Rattle.hub.specs.Memory.{hub_model};

use crate::hub::Hub;
use fault::{CallFault, Fault};
use kind::CONTROL_BITS;
use store::{ActorStore, Half};

// The bit that a control word must have.
const CONTROL_MUST: u32 = 1 << 8;

fn is_lawful_control(word: u32) -> bool
    ensures { result ≡ lawful_control word }
{
    // by division, as `lawful_control` tests the bit
    word & CONTROL_BITS == word && word / CONTROL_MUST % 2 == 1
}

impl<S: ActorStore> Hub<S> {
    // Puts a value, and makes its actor due at every switch that lists it.
    pub(crate) fn set_value(&mut self, actor: u16, half: Half, value: i16) -> Result<(), Fault>
        ensures answer { result ≡ answer_of (set_value (hub_model S.meaning self.old) actor half value) }
        ensures after { hub_model S.meaning self.new ≡ hub_after (hub_model S.meaning self.old) (set_value (hub_model S.meaning self.old) actor half value) }
    {
        self.store.put(actor, half, value)?;
        self.touch(actor);
        Ok(())
    }

    /// Sets the actual value of an actor, and makes the actor due at every switch that lists it.
    ///
    /// Refuses, at place 0 and with nothing changed, an actor that the store does not know with 11, and a forbidden value
    /// with 12.
    pub fn set_actual(&mut self, actor: u16, value: i16) -> Result<(), Fault>
        ensures answer { result ≡ answer_of (set_value (hub_model S.meaning self.old) actor Actual value) }
        ensures after { hub_model S.meaning self.new ≡ hub_after (hub_model S.meaning self.old) (set_value (hub_model S.meaning self.old) actor Actual value) }
    {
        self.set_value(actor, Half::Actual, value)
    }

    /// Sets the target of an actor, and makes the actor due at every switch that lists it.
    ///
    /// Refuses, at place 0 and with nothing changed, an actor that the store does not know with 11, and a forbidden value
    /// with 12.
    pub fn set_target(&mut self, actor: u16, value: i16) -> Result<(), Fault>
        ensures answer { result ≡ answer_of (set_value (hub_model S.meaning self.old) actor Target value) }
        ensures after { hub_model S.meaning self.new ≡ hub_after (hub_model S.meaning self.old) (set_value (hub_model S.meaning self.old) actor Target value) }
    {
        self.set_value(actor, Half::Target, value)
    }

    /// Sets the control word of a switch, which is due then.
    ///
    /// Refuses, at place 0 and with nothing changed, a switch that is not enrolled with 6, and with 13 a word with bit
    /// 8 clear or with a bit outside the mask 0x1F00FFBF.
    pub fn set_control(&mut self, id: u16, word: u32) -> Result<(), Fault>
        ensures answer { result ≡ answer_of (set_control (hub_model S.meaning self.old) id word) }
        ensures after { hub_model S.meaning self.new ≡ hub_after (hub_model S.meaning self.old) (set_control (hub_model S.meaning self.old) id word) }
    {
        self.enrolled(id)?;
        if !is_lawful_control(word) {
            return Err(Fault::Call(CallFault::ControlWord, 0));
        }
        self.change(id, |switch| switch.set_control(word));
        Ok(())
    }
}
