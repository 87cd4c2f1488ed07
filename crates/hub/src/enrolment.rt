// Enrolling a switch.
ghost use Rattle.std.specs.Prelude.{◌≡◌, ◌<◌, ◌≤◌, [], ◌∷◌, ◌++◌, length, is_some, OnOk, ◌==◌, nat_le};
ghost use Rattle.model.specs.Models.{answer_of, hub_after, switches_of, with_switches};
ghost use Rattle.model.specs.Opening.{enrol as enrol_step, enrol_fault, entry_fault, new_switch, unless};
ghost use Rattle.arrayvec.specs.ArrayVec.{array_vec_len};
ghost use Rattle.hub.specs.Memory.{hub_model};

use crate::hub::Hub;
use fault::{CallFault, Fault, StoreFault};
use store::ActorStore;
use switch::{MOST_ACTORS, Switch};

fn is_known<S: ActorStore>(store: &S, actor: u16) -> bool
    ensures { result ≡ is_some (S.meaning store.now actor) }
{
    store.read(actor).is_ok()
}

// A switch with this list, entry by entry: each stands there once, and is known to the store.
fn list_all<S: ActorStore>(store: &S, id: u16, actors: &[u16]) -> Result<Switch, Fault>
    requires few { length actors.now ≤ 64 }
    ensures { result ≡ unless (entry_fault (S.meaning store.now) [] 0 actors.now) (new_switch id actors.now) }
{
    let mut switch = Switch::new(id);
    // by index, since the refusal tells it
    for (i, &actor) in actors.iter().enumerate() {
        if !switch.list(actor) {
            return Err(Fault::Store(StoreFault::ListEntry, i));
        }
        if !is_known(store, actor) {
            return Err(Fault::Store(StoreFault::UnknownActor, i));
        }
    }
    Ok(switch)
}

impl<S: ActorStore> Hub<S> {
    // The switch that is to be enrolled, if it may be.
    fn begin_switch(&self, id: u16, actors: &[u16]) -> Result<Switch, Fault>
        ensures answer { result ≡ unless (enrol_fault (hub_model S.meaning self.now) id actors.now) (new_switch id actors.now) }
        ensures room { OnOk result (array_vec_len self.now.switches < 32) }
    {
        if id == 0 || self.find(id).is_some() {
            return Err(Fault::Call(CallFault::SwitchTaken, 0));
        }
        if self.switches.is_full() {
            return Err(Fault::Call(CallFault::HubFull, 0));
        }
        if actors.is_empty() || actors.len() > MOST_ACTORS {
            return Err(Fault::Store(StoreFault::ListLength, 0));
        }
        list_all(&self.store, id, actors)
    }

    /// Enrols a switch behind the others, with the actors that it lists, every item due.
    ///
    /// Refusals, in this order: 14 for SwitchID 0 or one that is enrolled, 15 where 32 switches are enrolled, 16 for a list
    /// that is empty or longer than 64; then entry by entry, at its index, 17 for 0 or a repeated actor, 11 for one that
    /// the store does not know. A refused call changes nothing.
    pub fn enrol(&mut self, id: u16, actors: &[u16]) -> Result<(), Fault>
        ensures answer { result ≡ answer_of (enrol_step (hub_model S.meaning self.old) id actors.now) }
        ensures after { hub_model S.meaning self.new ≡ hub_after (hub_model S.meaning self.old) (enrol_step (hub_model S.meaning self.old) id actors.now) }
    {
        let switch = self.begin_switch(id, actors)?;
        self.switches.push(switch);
        Ok(())
    }
}
