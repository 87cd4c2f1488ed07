// Questions: each tells something of one enrolled switch, and changes nothing.
ghost use Rattle.std.specs.Prelude.{◌≡◌};
ghost use Rattle.model.specs.Questions.{actor_mark, control_mark, flags_of, key_of, outstanding_at, reading_at};
ghost use Rattle.hub.specs.Memory.{hub_model};

use crate::hub::Hub;
use fault::{ActorFault, Fault};
use model::{KeyPress, Mark};
use store::ActorStore;

impl<S: ActorStore> Hub<S> {
    /// How a switch stands to an actor that it lists: settled, due or under way.
    ///
    /// Refuses, at place 0, a switch that is not enrolled with 6, and an actor that it does not list with 10.
    pub fn actor_mark(&self, id: u16, actor: u16) -> Result<Mark, Fault>
        ensures { result ≡ actor_mark (hub_model S.meaning self.now) id actor }
    {
        self.enrolled(id)?
            .mark_of(actor)
            .ok_or(Fault::Actor(ActorFault::NotListed, 0))
    }

    /// How a switch stands to its control word. Refuses with 6, at place 0, a switch that is not enrolled.
    pub fn control_mark(&self, id: u16) -> Result<Mark, Fault>
        ensures { result ≡ control_mark (hub_model S.meaning self.now) id }
    {
        Ok(self.enrolled(id)?.control_mark())
    }

    /// The flags that a switch last reported, 0 at first. Refuses with 6, at place 0, a switch that is not enrolled.
    pub fn flags(&self, id: u16) -> Result<u32, Fault>
        ensures { result ≡ flags_of (hub_model S.meaning self.now) id }
    {
        Ok(self.enrolled(id)?.report().flags)
    }

    /// The key last pressed at a switch, with its actor, if any. Refuses with 6, at place 0, a switch that is not enrolled.
    pub fn latest_key(&self, id: u16) -> Result<Option<KeyPress>, Fault>
        ensures { result ≡ key_of (hub_model S.meaning self.now) id }
    {
        Ok(self.enrolled(id)?.report().key)
    }

    /// The temperature that a switch last read, in tenths of a degree, if any. Refuses with 6, at place 0, a switch that is
    /// not enrolled.
    pub fn reading(&self, id: u16) -> Result<Option<i16>, Fault>
        ensures { result ≡ reading_at (hub_model S.meaning self.now) id }
    {
        Ok(self.enrolled(id)?.report().reading)
    }

    /// Whether an actor or the control word of a switch is outstanding: due, or under way. Refuses with 6, at place 0, a
    /// switch that is not enrolled.
    pub fn has_outstanding(&self, id: u16) -> Result<bool, Fault>
        ensures { result ≡ outstanding_at (hub_model S.meaning self.now) id }
    {
        Ok(self.enrolled(id)?.has_outstanding())
    }
}
