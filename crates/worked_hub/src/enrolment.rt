// Opening a hub, and enrolling switches.
use crate::house::{SITE, STRANGER, house};
use fault::{CallFault, Fault, FrameFault, StoreFault};
use hub::Hub;
use model::Site;
use std::process::Abort;
use std::test::Fail;
use store::{ActorStore, Half, Table};

#[test]
fn other_major_version(rt: HostRuntime) -> Result<(), Fail> {
    let mut table = Table::open(&[1])?;
    table.put(1, Half::Actual, 5)?;
    let site = Site {
        version: 0x0300,
        ..SITE
    };
    let Err((fault, table)) = Hub::open(table, site) else {
        return Err(Fail::new("a hub of another major version was opened"));
    };
    assert_eq!(rt; fault, Fault::Frame(FrameFault::MajorVersion, 0));
    assert_eq!(rt; table.read(1)?, (5, 0));
    Ok(())
}

// A switch with its list, and what its enrolment is refused with.
type Refused<'a> = (u16, &'a [u16], Fault);

fn all_refused(rt: &impl Abort, hub: &mut Hub<Table>, enrolments: &[Refused<'_>]) {
    for &(id, actors, refusal) in enrolments {
        assert_eq!(rt;
            hub.enrol(id, actors),
            Err(refusal),
            "switch {id}, list {actors:?}"
        );
    }
}

#[test]
fn enrolments(rt: HostRuntime) -> Result<(), Fail> {
    let mut hub = house()?;
    let taken = Fault::Call(CallFault::SwitchTaken, 0);
    let length = Fault::Store(StoreFault::ListLength, 0);
    all_refused(
        &rt,
        &mut hub,
        &[
            (0, &[1], taken),
            (7, &[], taken),
            (9, &[], length),
            (9, &[1; 65], length),
            (9, &[3, 1, 3], Fault::Store(StoreFault::ListEntry, 2)),
            (9, &[3, 0], Fault::Store(StoreFault::ListEntry, 1)),
            (9, &[3, 5, 3], Fault::Store(StoreFault::UnknownActor, 1)),
        ],
    );
    // none of them enrolled it
    assert_eq!(rt; hub.flags(9), Err(STRANGER));
    for id in 100..130u16 {
        hub.enrol(id, &[1])?;
    }
    // the room is looked at before the list, and the ID before the room
    let full = Fault::Call(CallFault::HubFull, 0);
    all_refused(&rt, &mut hub, &[(130, &[], full), (129, &[], taken)]);
    Ok(())
}
