// A player: the hub that a script is played on, with the slip that the script keeps.
ghost use Rattle.std.specs.Prelude.{◌≡◌, true, None};
ghost use Rattle.std.specs.Option.{ForSome};
ghost use Rattle.hub.specs.Memory.{hub_model};
ghost use Rattle.hub.specs.Slips.{owed};

use crate::stranger::Stranger;
use hub::{Fate, Hub, Slip};
use store::ActorStore;

// It is not `Drop`, since a kept slip is not to be let go: `finish` ends it.
pub(crate) struct Player<S: ActorStore> {
    pub(crate) hub: Hub<S>,
    pub(crate) kept: Option<Slip>,
    pub(crate) stranger: Stranger,
    ghost owed: { ForSome kept (λ x. owed (hub_model S.meaning hub) x ≡ true) },
}

impl<S: ActorStore> Player<S> {
    // With no slip kept.
    pub(crate) fn new(hub: Hub<S>) -> Player<S>
        ensures hub { hub_model S.meaning result.hub ≡ hub_model S.meaning hub }
        ensures kept { result.kept ≡ None }
    {
        Player {
            hub,
            kept: None,
            stranger: Stranger::new(),
        }
    }
}

impl<S: ActorStore + Drop> Player<S> {
    // A slip that is still kept is handed in as withheld.
    pub(crate) fn finish(self) {
        let Player {
            mut hub,
            kept,
            stranger: _,
        } = self;
        if let Some(slip) = kept {
            hub.hand_in(slip, Fate::Withheld).unwrap();
        }
    }
}
