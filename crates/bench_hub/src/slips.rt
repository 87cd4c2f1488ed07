// Slips: handed in to the hub that has them open, or kept.
ghost use Rattle.std.specs.Prelude.{◌≡◌, true, None, Some, is_ok};
ghost use Rattle.hub.specs.Memory.{hub_model};
ghost use Rattle.bench_hub.specs.Playing.{handed_in, placed, scene};

use crate::call::Fate;
use hub::{Hub, Slip};
use std::mem;
use store::ActorStore;

// Keeps a slip where none is kept.
pub(crate) fn keep(kept: &mut Option<Slip>, slip: Slip)
    requires free { kept.old ≡ None }
    ensures { kept.new ≡ Some slip }
{
    match mem::replace(kept, Some(slip)) {
        None => {}
        Some(_other) => unreachable!(),
    }
}

// Does with a slip that was just composed as its fate says. By the two fields of a player, whose fact does not hold before.
pub(crate) fn place<S: ActorStore>(
    hub: &mut Hub<S>,
    kept: &mut Option<Slip>,
    slip: Slip,
    fate: Fate,
)
    requires owed { is_ok (handed_in fate (hub_model S.meaning hub.old) slip) ≡ true }
    ensures { scene (hub_model S.meaning hub.new) kept.new ≡ placed fate slip (hub_model S.meaning hub.old) kept.old }
{
    match fate {
        Fate::Kept if kept.is_none() => keep(kept, slip),
        _ => hub.hand_in(slip, fate.handing()).unwrap(),
    }
}
