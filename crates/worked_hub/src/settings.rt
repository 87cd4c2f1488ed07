// Settings: control words and values.
use crate::house::{STRANGER, marks, settled_house};
use crate::sent::{Sent, send};
use fault::{CallFault, Fault, StoreFault};
use model::Mark;
use std::test::Fail;

#[test]
fn control_words(rt: HostRuntime) -> Result<(), Fail> {
    let mut hub = settled_house(&rt)?;
    let refused = Fault::Call(CallFault::ControlWord, 0);
    // bit 8 must be set, and bit 6 must not
    for (id, word, refusal) in [(7, 0x30, refused), (7, 0x170, refused), (9, 0x30, STRANGER)] {
        assert_eq!(rt; hub.set_control(id, word), Err(refusal), "word {word}");
    }
    assert_eq!(rt; marks(&hub, 7, [1, 2])?, [Mark::Settled; 3]);
    // the same word again is due all the same
    assert_eq!(rt; hub.set_control(7, 0x130), Ok(()));
    assert_eq!(rt;
        marks(&hub, 7, [1, 2])?,
        [Mark::Settled, Mark::Settled, Mark::Due]
    );
    assert_eq!(rt; marks(&hub, 8, [2, 3])?, [Mark::Settled; 3]);
    assert_eq!(rt; hub.set_control(7, 0x1F000130), Ok(()));
    let mut packet = [0; 24];
    assert_eq!(rt;
        send(&mut hub, 7, &mut packet)?,
        Sent {
            length: 24,
            actors: 0,
            number: 2
        }
    );
    assert_eq!(rt;
        &packet[16..24],
        [0x08_u8, 0x21, 0x00, 0x00, 0x30, 0x01, 0x00, 0x1F].as_slice()
    );
    Ok(())
}

#[test]
fn values(rt: HostRuntime) -> Result<(), Fail> {
    let mut hub = settled_house(&rt)?;
    let unknown = Fault::Store(StoreFault::UnknownActor, 0);
    let forbidden = Fault::Store(StoreFault::ForbiddenValue, 0);
    assert_eq!(rt; hub.set_actual(5, 32_767), Err(unknown));
    assert_eq!(rt; hub.set_actual(2, 32_767), Err(forbidden));
    assert_eq!(rt; hub.set_target(2, -32_768), Err(forbidden));
    // actor 4 is known, but no switch lists it
    assert_eq!(rt; hub.set_actual(4, -32_767), Ok(()));
    assert_eq!(rt; marks(&hub, 7, [1, 2])?, [Mark::Settled; 3]);
    assert_eq!(rt; marks(&hub, 8, [2, 3])?, [Mark::Settled; 3]);
    assert_eq!(rt; hub.set_actual(1, -32_767), Ok(()));
    assert_eq!(rt; hub.set_target(2, 32_766), Ok(()));
    assert_eq!(rt;
        marks(&hub, 7, [1, 2])?,
        [Mark::Due, Mark::Due, Mark::Settled]
    );
    assert_eq!(rt;
        marks(&hub, 8, [2, 3])?,
        [Mark::Due, Mark::Settled, Mark::Settled]
    );
    let mut packet = [0; 40];
    assert_eq!(rt;
        send(&mut hub, 7, &mut packet)?,
        Sent {
            length: 40,
            actors: 2,
            number: 2
        }
    );
    assert_eq!(rt;
        &packet[16..40],
        [
            0x06_u8, 0x43, 0x01, 0x00, 0x01, 0x80, 0x06, 0x42, 0x01, 0x00, 0x00, 0x00, 0x06, 0x43,
            0x02, 0x00, 0x00, 0x00, 0x06, 0x42, 0x02, 0x00, 0xFE, 0x7F,
        ]
        .as_slice()
    );
    Ok(())
}
