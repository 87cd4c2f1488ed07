// Packets that cross on the cable, and package numbers that go round.
use crate::house::{STRANGER, house, marks};
use crate::sent::{Sent, send};
use fault::{CallFault, Fault};
use hub::Hub;
use model::{Arrival, Mark};
use std::test::Fail;
use store::Table;

// The plant raises a target while the switch's answer to the older one is on its way.
#[test]
fn crossing(rt: HostRuntime) -> Result<(), Fail> {
    let mut hub = house()?;
    let mut packet = [0; 48];
    hub.set_target(1, 220)?;
    assert_eq!(rt;
        send(&mut hub, 7, &mut packet)?,
        Sent {
            length: 48,
            actors: 2,
            number: 1
        }
    );
    assert_eq!(rt;
        &packet[22..28],
        [0x06_u8, 0x42, 0x01, 0x00, 0xDC, 0x00].as_slice()
    );
    assert_eq!(rt; marks(&hub, 7, [1, 2])?, [Mark::UnderWay; 3]);
    hub.set_target(1, 230)?;
    assert_eq!(rt;
        marks(&hub, 7, [1, 2])?,
        [Mark::Due, Mark::UnderWay, Mark::UnderWay]
    );
    assert_eq!(rt; hub.take(&packet), Ok((Arrival::Answer, 5)));
    assert_eq!(rt;
        marks(&hub, 7, [1, 2])?,
        [Mark::Due, Mark::Settled, Mark::Settled]
    );
    let mut next = [0xFF; 30];
    assert_eq!(rt;
        send(&mut hub, 7, &mut next)?,
        Sent {
            length: 28,
            actors: 1,
            number: 2
        }
    );
    assert_eq!(rt;
        &next[16..30],
        [
            0x06_u8, 0x43, 0x01, 0x00, 0x00, 0x00, 0x06, 0x42, 0x01, 0x00, 0xE6, 0x00, 0xFF, 0xFF,
        ]
        .as_slice()
    );
    assert_eq!(rt; hub.take(&next[0..28]), Ok((Arrival::Answer, 2)));
    assert_eq!(rt; hub.has_outstanding(7), Ok(false));
    assert_eq!(rt;
        send(&mut hub, 7, &mut next),
        Err(Fault::Call(CallFault::NothingOutstanding, 0))
    );
    Ok(())
}

// Sends as often as told, and tells the last number.
fn send_often(hub: &mut Hub<Table>, times: u16, packet: &mut [u8]) -> Result<u16, Fault> {
    let mut last = 0;
    // repeats a step that can fail; nothing is counted
    for _ in 0..times {
        last = send(hub, 8, packet)?.number;
    }
    Ok(last)
}

// What is under way goes out again each time; after number 65,535 comes 1.
#[test]
fn numbers_go_round(rt: HostRuntime) -> Result<(), Fail> {
    let mut hub = house()?;
    let mut packet = [0; 48];
    assert_eq!(rt; send_often(&mut hub, 65_534, &mut packet)?, 65_534);
    for number in [65_535, 1] {
        assert_eq!(rt;
            send(&mut hub, 8, &mut packet)?,
            Sent {
                length: 48,
                actors: 2,
                number
            }
        );
    }
    Ok(())
}

#[test]
fn short_buffer(rt: HostRuntime) -> Result<(), Fail> {
    let mut hub = house()?;
    let mut short = [0xFF; 47];
    assert_eq!(rt;
        send(&mut hub, 7, &mut short),
        Err(Fault::Call(CallFault::ShortBuffer, 0))
    );
    assert!(rt; short == [0xFF; 47]);
    assert_eq!(rt; send(&mut hub, 9, &mut short), Err(STRANGER));
    // neither took a number
    assert_eq!(rt;
        send(&mut hub, 7, &mut [0; 48])?,
        Sent {
            length: 48,
            actors: 2,
            number: 1
        }
    );
    Ok(())
}
