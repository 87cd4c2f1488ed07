// Any call of a script, made by a player.
ghost use Rattle.std.specs.Prelude.{◌≡◌, None};
ghost use Rattle.hub.specs.Memory.{hub_model};
ghost use Rattle.bench_hub.specs.Players.{player_scene};
ghost use Rattle.bench_hub.specs.Playing.{after, after_composed, after_handed, buffer_after, scene, told, told_composed, told_handed, told_stranger};
ghost use Rattle.hub.specs.Compositions.{composition};
ghost use Rattle.model.specs.Composing.{compose, composed_bytes};
ghost use Rattle.model.specs.Models.{hub_after};

use crate::applying::apply;
use crate::call::{Call, Fate};
use crate::outcome::{Outcome, Told, UNTOLD, low_word};
use crate::player::Player;
use crate::slips::{keep, place};
use hub::Composed;
use store::ActorStore;

impl<S: ActorStore> Player<S> {
    // Composes into a buffer, and does with the slip as its fate says.
    fn compose(&mut self, switch: u16, fate: Fate, buf: &mut [u8]) -> Outcome
        ensures told { result ≡ told_composed (composition switch (compose (hub_model S.meaning self.old.hub) switch buf.old)) }
        ensures after { player_scene S.meaning self.new ≡ after_composed fate (hub_after (hub_model S.meaning self.old.hub) (compose (hub_model S.meaning self.old.hub) switch buf.old)) self.old.kept (composition switch (compose (hub_model S.meaning self.old.hub) switch buf.old)) }
        ensures bytes { buf.new ≡ composed_bytes (hub_model S.meaning self.old.hub) switch buf.old }
    {
        match self.hub.compose(switch, buf) {
            Ok(
                Composed {
                    length,
                    actors,
                    slip,
                },
            ) => {
                let told = Told {
                    x: low_word(length),
                    y: low_word(actors),
                    z: slip.number(),
                };
                place(&mut self.hub, &mut self.kept, slip, fate);
                Outcome::Done(told)
            }
            Err(fault) => Outcome::Refused(fault),
        }
    }

    // Hands in the kept slip.
    fn hand_in(&mut self, fate: Fate) -> Outcome
        ensures told { result ≡ told_handed fate (hub_model S.meaning self.old.hub) self.old.kept }
        ensures after { player_scene S.meaning self.new ≡ scene (after_handed fate (hub_model S.meaning self.old.hub) self.old.kept) None }
    {
        let Some(slip) = self.kept.take() else {
            return Outcome::Idle;
        };
        self.hub.hand_in(slip, fate.handing()).unwrap();
        Outcome::Done(UNTOLD)
    }

    // Hands the kept slip to another hub, which hands it back.
    fn hand_to_stranger(&mut self, fate: Fate) -> Outcome
        ensures told { result ≡ told_stranger self.old.kept }
        ensures after { player_scene S.meaning self.new ≡ player_scene S.meaning self.old }
    {
        let Some(slip) = self.kept.take() else {
            return Outcome::Idle;
        };
        let (fault, slip) = self.stranger.refuse(slip, fate);
        keep(&mut self.kept, slip);
        Outcome::Refused(fault)
    }

    // Makes a call, with its data and its buffer.
    pub(crate) fn make(&mut self, call: Call, body: &[u8], buf: &mut [u8]) -> Outcome
        ensures told { result ≡ told (player_scene S.meaning self.old) call body.now buf.old }
        ensures after { player_scene S.meaning self.new ≡ after (player_scene S.meaning self.old) call body.now buf.old }
        ensures bytes { buf.new ≡ buffer_after (player_scene S.meaning self.old) call buf.old }
    {
        match call {
            Call::Plain(plain) => apply(&mut self.hub, plain, body),
            Call::Compose { switch, fate, .. } => self.compose(switch, fate, buf),
            Call::HandIn(fate) => self.hand_in(fate),
            Call::HandToStranger(fate) => self.hand_to_stranger(fate),
        }
    }
}
