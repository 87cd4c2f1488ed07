// The slips that are out: kept until the script hands them in.
ghost use Rattle.std.specs.Prelude.{◌≡◌, ◌<◌, true, [], ◌∷◌, ◌++◌, length, IfSome, is_ok};
ghost use Rattle.hub.specs.Memory.{hub_model};
ghost use Rattle.stage.specs.Calls.{Keeps};
ghost use Rattle.stage.specs.Slips.{HoldsAll, place_for};

use hub::{Fate, Hub, Slip};
use std::alloc::AllocError;
use store::ActorStore;

// Where the slip for that packet stands, if it is at hand.
pub(crate) fn place(held: &[Slip], switch: u16, number: u16) -> Option<usize>
    ensures answer { result ≡ place_for switch number held.now }
    ensures within { IfSome result (λ i. i < length held.now) }
{
    held.iter()
        .position(|slip| slip.switch() == switch && slip.number() == number)
}

// Keeps a slip with the others. Where memory is short, its packet is withheld. By the two fields of a `Desk`,
// whose fact does not hold until the slip is kept.
pub(crate) fn keep<S: ActorStore>(
    hub: &mut Hub<S>,
    held: &mut Vec<Slip>,
    slip: Slip,
) -> Result<(), AllocError>
    requires one_more { HoldsAll (hub_model S.meaning hub.old) (held.old.items ++ slip ∷ []) }
    ensures holds { HoldsAll (hub_model S.meaning hub.new) held.new.items }
    ensures kept { Keeps (is_ok result) slip.switch slip.number (hub_model S.meaning hub.old) (hub_model S.meaning hub.new) }
{
    // a match, since the slip that comes back is handed in on the way
    match held.push(slip) {
        Ok(()) => Ok(()),
        Err(back) => {
            hub.hand_in(back.value, Fate::Withheld).unwrap();
            Err(AllocError)
        }
    }
}
