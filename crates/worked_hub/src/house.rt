// A hub to try things on.
use crate::sent::send;
use fault::{Fault, FrameFault};
use hub::Hub;
use model::{Mark, Site};
use std::process::Abort;
use std::test::Fail;
use store::Table;

pub(crate) const SITE: Site = Site {
    version: 0x0201,
    project: 0x1234,
    firmware: 0,
    design: 5,
};

// What a call refuses that names a switch which is not enrolled.
pub(crate) const STRANGER: Fault = Fault::Frame(FrameFault::Switch, 0);

// A hub with no switch over actors 1 to 4.
fn empty() -> Result<Hub<Table>, Fault> {
    Hub::open(Table::open(&[1, 2, 3, 4])?, SITE).map_err(|(fault, _)| fault)
}

// Switch 7 lists actors 1 and 2, and switch 8 lists actors 2 and 3.
pub(crate) fn house() -> Result<Hub<Table>, Fault> {
    let mut hub = empty()?;
    hub.enrol(7, &[1, 2])?;
    hub.enrol(8, &[2, 3])?;
    Ok(hub)
}

// Sends a switch of the house all that it must be told since its enrolment, and takes its answer.
pub(crate) fn settle(rt: &impl Abort, hub: &mut Hub<Table>, id: u16) -> Result<(), Fail> {
    let mut packet = [0; 48];
    send(hub, id, &mut packet)?;
    hub.take(&packet)?;
    assert_eq!(rt; hub.has_outstanding(id), Ok(false));
    Ok(())
}

// The house with both of its switches settled.
pub(crate) fn settled_house(rt: &impl Abort) -> Result<Hub<Table>, Fail> {
    let mut hub = house()?;
    settle(rt, &mut hub, 7)?;
    settle(rt, &mut hub, 8)?;
    Ok(hub)
}

// How the items of a switch stand: two of its actors, and its control word.
pub(crate) fn marks(hub: &Hub<Table>, id: u16, actors: [u16; 2]) -> Result<[Mark; 3], Fault> {
    let [first, second] = actors;
    Ok([
        hub.actor_mark(id, first)?,
        hub.actor_mark(id, second)?,
        hub.control_mark(id)?,
    ])
}
