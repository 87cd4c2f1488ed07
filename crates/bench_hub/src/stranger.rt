// Another hub, which has issued no slip: it has enrolled no switch.
ghost use Rattle.std.specs.Prelude.{◌≡◌, length, pos};
ghost use Rattle.fault.specs.declared.CallFault.TheVariants.{NoSlip};
ghost use Rattle.fault.specs.declared.Fault.TheVariants.{Call};
ghost use Rattle.model.specs.Models.{switches_of};
ghost use Rattle.store.specs.Tables.{actors_in};
ghost use Rattle.hub.specs.Memory.{hub_model};

use crate::call::Fate;
use fault::Fault;
use hub::{Hub, Slip};
use model::Site;
use store::Table;

const SITE: Site = Site {
    version: 0x0200,
    project: 0x1234,
    firmware: 0x0007,
    design: 0x0005,
};

#[derive(Drop)]
pub(crate) struct Stranger {
    hub: Hub<Table>,
    ghost empty: { length (switches_of (hub_model actors_in hub)) ≡ 0 },
}

impl Stranger {
    // Over a table of actor 1.
    pub(crate) fn new() -> Stranger {
        let table = Table::open(&[1]).unwrap();
        match Hub::open(table, SITE) {
            Ok(hub) => Stranger { hub },
            Err(_) => unreachable!(),
        }
    }

    // Hands it a slip, which it refuses and hands back.
    pub(crate) fn refuse(&mut self, slip: Slip, fate: Fate) -> (Fault, Slip)
        ensures { result ≡ (Call NoSlip 0, slip) }
    {
        match self.hub.hand_in(slip, fate.handing()) {
            Ok(()) => unreachable!(),
            Err(back) => back,
        }
    }
}
