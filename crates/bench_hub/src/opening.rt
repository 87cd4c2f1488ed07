// A whole play: a store is opened, a hub over it, and the script is played on that hub.
ghost use Rattle.std.specs.Prelude.{◌≡◌, ◌≤◌, length};
ghost use Rattle.packet.specs.Drafts.{over};
ghost use Rattle.store.specs.Meaning.{meant};
ghost use Rattle.hub.specs.Memory.{hub_model};
ghost use Rattle.bench_hub.specs.Outcomes.{outcome_bytes};
ghost use Rattle.bench_hub.specs.Scripts.{hub_over, play, site};

use crate::outcome::{OUTCOME_LEN, Outcome, UNTOLD};
use crate::player::Player;
use fault::Fault;
use hub::Hub;
use model::Site;
use store::ActorStore;

// The words of a play's hub.
fn site(version: u16) -> Site
    ensures { result ≡ site version }
{
    Site {
        version,
        project: 0x1234,
        firmware: 0x0007,
        design: 0x0005,
    }
}

// Opens a hub over a store, if there is one.
fn open<S: ActorStore + Drop>(store: Result<S, Fault>, version: u16) -> Result<Hub<S>, Fault>
    ensures { meant (hub_model S.meaning) result ≡ hub_over version (meant S.meaning store) }
{
    match Hub::open(store?, site(version)) {
        Ok(hub) => Ok(hub),
        // the store comes back with the fault, and is let go
        Err(back) => Err(back.0),
    }
}

// Writes the outcome of the opening, for which there is room.
fn write_opening(outcome: Outcome, out: &mut [u8])
    requires room { 10 ≤ length out.old }
    ensures { out.new ≡ over out.old 0 (outcome_bytes outcome) }
{
    out[..OUTCOME_LEN].copy_from_slice(&outcome.bytes());
}

// Plays a script so many times on a hub over the store, and tells how many bytes of `out` hold outcomes.
pub(crate) fn play<S: ActorStore + Drop>(
    store: Result<S, Fault>,
    version: u16,
    script: &[u8],
    times: u32,
    out: &mut [u8],
) -> usize
    ensures length { result ≡ (play version (meant S.meaning store) script.now times out.old).0 }
    ensures bytes { out.new ≡ (play version (meant S.meaning store) script.now times out.old).1 }
    ensures within { result ≤ length out.old }
{
    if out.len() < OUTCOME_LEN {
        return 0;
    }
    match open(store, version) {
        Ok(hub) => {
            write_opening(Outcome::Done(UNTOLD), out);
            let mut player = Player::new(hub);
            let end = player.play_times(script, times, out, OUTCOME_LEN);
            player.finish();
            end
        }
        Err(fault) => {
            write_opening(Outcome::Refused(fault), out);
            OUTCOME_LEN
        }
    }
}
