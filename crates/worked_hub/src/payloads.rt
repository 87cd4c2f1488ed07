// Payloads of switches, and what the hub makes of them.
use crate::house::{house, marks, settled_house};
use crate::sent::{Sent, send};
use fault::{ActorFault, Fault, FrameFault, MessageFault};
use hub::Hub;
use model::{Arrival, KeyPress, Mark};
use std::process::Abort;
use std::test::Fail;
use store::Table;
use worked_payloads::{Payload, answer, event};

// EditValue, actor 2, target 215.
const EDIT: [u8; 6] = [0x06, 0x42, 2, 0, 0xD7, 0];

// What the hub tells of a payload: what it was and how many of its messages are understood, or its refusal.
type Told = Result<(Arrival, usize), Fault>;

// Each is told as it should be, one after another.
fn all_told(rt: &impl Abort, hub: &mut Hub<Table>, cases: &[(Payload, Told)]) {
    for (payload, told) in cases {
        assert_eq!(rt; hub.take(payload), *told, "{payload:?}");
    }
}

// A target that a switch turns is due at every switch that lists its actor, that switch with the others.
#[test]
fn edit_value(rt: HostRuntime) -> Result<(), Fail> {
    let mut hub = settled_house(&rt)?;
    assert_eq!(rt; hub.take(&event(&EDIT)?), Ok((Arrival::Event, 1)));
    assert_eq!(rt;
        marks(&hub, 7, [1, 2])?,
        [Mark::Settled, Mark::Due, Mark::Settled]
    );
    assert_eq!(rt;
        marks(&hub, 8, [2, 3])?,
        [Mark::Due, Mark::Settled, Mark::Settled]
    );
    let mut packet = [0; 28];
    assert_eq!(rt;
        send(&mut hub, 7, &mut packet)?,
        Sent {
            length: 28,
            actors: 1,
            number: 2
        }
    );
    assert_eq!(rt;
        &packet[16..28],
        [
            0x06_u8, 0x43, 0x02, 0x00, 0x00, 0x00, 0x06, 0x42, 0x02, 0x00, 0xD7, 0x00,
        ]
        .as_slice()
    );
    Ok(())
}

#[test]
fn reports(rt: HostRuntime) -> Result<(), Fail> {
    let mut hub = house()?;
    assert_eq!(rt; (hub.latest_key(8)?, hub.reading(8)?), (None, None));
    let payload = event(&[0x06, 0x51, 2, 0, 0x03, 0, 0x08, 0x71, 0, 0, 0xD7, 0, 1, 0])?;
    assert_eq!(rt; hub.take(&payload), Ok((Arrival::Event, 2)));
    let key = KeyPress { actor: 2, key: 3 };
    assert_eq!(rt;
        (hub.latest_key(8)?, hub.reading(8)?),
        (Some(key), Some(215))
    );
    // what switch 8 reports is not told of switch 7
    assert_eq!(rt; (hub.latest_key(7)?, hub.reading(7)?), (None, None));
    Ok(())
}

// A switch that has been told everything asks for it again.
#[test]
fn init_request(rt: HostRuntime) -> Result<(), Fail> {
    let mut hub = settled_house(&rt)?;
    let payload = event(&[0x08, 0x01, 0, 0, 0x40, 0, 0, 0])?;
    assert_eq!(rt; hub.take(&payload), Ok((Arrival::Event, 1)));
    assert_eq!(rt; (hub.flags(8)?, hub.flags(7)?), (0x40, 0));
    assert_eq!(rt; marks(&hub, 8, [2, 3])?, [Mark::Due; 3]);
    assert_eq!(rt; hub.has_outstanding(8), Ok(true));
    assert_eq!(rt; hub.has_outstanding(7), Ok(false));
    Ok(())
}

#[test]
fn counts(rt: HostRuntime) -> Result<(), Fail> {
    let mut hub = settled_house(&rt)?;
    all_told(
        &rt,
        &mut hub,
        &[
            (event(&[])?, Ok((Arrival::Event, 0))),
            // a message of no known kind does not count; a forbidden target does
            (
                event(&[0x04, 0xF0, 0, 0, 0x06, 0x42, 2, 0, 0xFF, 0x7F])?,
                Ok((Arrival::Event, 1)),
            ),
            // switch 8 has answered already, and owes no other answer
            (answer(1, &EDIT)?, Ok((Arrival::Stale, 1))),
            // an answer may repeat what is not listed
            (
                answer(1, &[0x06, 0x42, 1, 0, 0xD7, 0])?,
                Ok((Arrival::Stale, 1)),
            ),
        ],
    );
    // none of these does anything
    assert_eq!(rt; marks(&hub, 7, [1, 2])?, [Mark::Settled; 3]);
    assert_eq!(rt; marks(&hub, 8, [2, 3])?, [Mark::Settled; 3]);
    // nothing was ever sent to this switch 8, so it owes no answer
    let stale = (answer(1, &EDIT)?, Ok((Arrival::Stale, 1)));
    all_told(&rt, &mut house()?, &[stale]);
    Ok(())
}

#[test]
fn descriptors(rt: HostRuntime) -> Result<(), Fail> {
    let mut hub = house()?;
    let length = Err(Fault::Frame(FrameFault::Length, 0));
    assert_eq!(rt; hub.take(&[0x01; 15]), length);
    // the length is looked at before anything in the payload
    assert_eq!(rt; hub.take(&[0; 1473]), length);
    let cases: [(&[(usize, u8)], Told); 6] = [
        (&[(1, 0x75)], Err(Fault::Frame(FrameFault::FrameId, 0))),
        (&[(2, 21)], Err(Fault::Frame(FrameFault::FrameLength, 2))),
        (&[(5, 0x03)], Err(Fault::Frame(FrameFault::MajorVersion, 4))),
        // any minor version passes
        (&[(4, 0xFF)], Ok((Arrival::Event, 1))),
        // the project is looked at before the switch, and both before the messages
        (
            &[(9, 0x13), (12, 9)],
            Err(Fault::Frame(FrameFault::Project, 8)),
        ),
        (
            &[(12, 9), (16, 0x03)],
            Err(Fault::Frame(FrameFault::Switch, 12)),
        ),
    ];
    for (bytes, told) in cases {
        let mut payload = event(&EDIT)?;
        for &(place, byte) in bytes {
            *payload.get_mut(place).ok_or("a place in the event")? = byte;
        }
        assert_eq!(rt; hub.take(&payload), told, "{bytes:?}");
    }
    Ok(())
}

// Each time the first message would have acted: a State with flag 1.
#[test]
fn refused_messages(rt: HostRuntime) -> Result<(), Fail> {
    let mut hub = settled_house(&rt)?;
    all_told(
        &rt,
        &mut hub,
        &[
            (
                event(&[0x08, 0x01, 0, 0, 1, 0, 0, 0, 0x03, 0xF0, 0, 0])?,
                Err(Fault::Message(MessageFault::Broken, 24)),
            ),
            (
                event(&[0x08, 0x01, 0, 0, 1, 0, 0, 0, 0x04, 0x42, 2, 0])?,
                Err(Fault::Message(MessageFault::KindLength, 24)),
            ),
            (
                event(&[0x08, 0x01, 0, 0, 1, 0, 0, 0, 0x06, 0x42, 0, 0, 1, 0])?,
                Err(Fault::Message(MessageFault::ActorRule, 24)),
            ),
            // actor 2 is listed; actors 1 and 4 are not
            (
                event(&[
                    0x08, 0x01, 0, 0, 1, 0, 0, 0, 0x06, 0x42, 2, 0, 1, 0, 0x06, 0x51, 1, 0, 1, 0,
                    0x06, 0x42, 4, 0, 1, 0,
                ])?,
                Err(Fault::Actor(ActorFault::NotListed, 30)),
            ),
        ],
    );
    assert_eq!(rt; hub.flags(8)?, 0);
    assert_eq!(rt; marks(&hub, 8, [2, 3])?, [Mark::Settled; 3]);
    Ok(())
}
