// Payloads, and what the reader makes of them.
use fault::{Fault, FrameFault, MessageFault};
use packet::{Cursor, Message, Packet, Record};
use std::process::Abort;
use std::test::Fail;
use worked_payloads::event;

// How many messages of a payload are understood, or its refusal.
fn understood(payload: &[u8]) -> Result<usize, Fault> {
    Ok(Packet::read(payload)?.understood)
}

// Checks which message a cursor gives next, and at which offset.
pub(crate) fn gives(
    rt: &impl Abort,
    cursor: &mut Cursor,
    place: usize,
    message: Message,
) -> Result<(), Fail> {
    assert_eq!(rt; cursor.next()?, Some((place, message)));
    Ok(())
}

#[test]
fn descriptor(rt: HostRuntime) -> Result<(), Fail> {
    let packet = Packet::read(&event(&[])?)?;
    assert_eq!(rt; packet.understood, 0);
    assert_eq!(rt; packet.descriptor.number, 0);
    assert_eq!(rt; packet.descriptor.project, 0x1234);
    assert_eq!(rt; packet.descriptor.switch, 8);
    for (place, byte, answer) in [
        (0, 0x02, Err(Fault::Frame(FrameFault::FrameId, 0))),
        (1, 0x75, Err(Fault::Frame(FrameFault::FrameId, 0))),
        (2, 0x11, Err(Fault::Frame(FrameFault::FrameLength, 2))),
        (4, 0xFF, Ok(0)),
        (5, 0x03, Err(Fault::Frame(FrameFault::MajorVersion, 4))),
    ] {
        let mut payload = event(&[])?;
        *payload.get_mut(place).ok_or("a place in the descriptor")? = byte;
        assert_eq!(rt; understood(&payload), answer, "{byte} at {place}");
    }
    Ok(())
}

// 1,472 bytes hold a descriptor and 364 messages of four bytes.
#[test]
fn lengths(rt: HostRuntime) -> Result<(), Fail> {
    let refused = Err(Fault::Frame(FrameFault::Length, 0));
    let mut messages = [0; 1460];
    messages.as_chunks_mut().0.fill([0x04, 0xF0, 0, 0]);
    assert_eq!(rt; understood(&event(&messages[0..1456])?), Ok(0));
    assert_eq!(rt; understood(&event(&messages)?), refused);
    assert_eq!(rt; understood(&event(&messages[0..1457])?), refused);
    let bare = event(&[])?;
    assert_eq!(rt; bare.len(), 16);
    assert_eq!(rt; understood(&bare[0..15]), refused);
    assert_eq!(rt; understood(&[]), refused);
    Ok(())
}

#[test]
fn messages(rt: HostRuntime) -> Result<(), Fail> {
    let cases: [(&[u8], Result<usize, Fault>); 11] = [
        (&[0x04, 0xF0, 0, 0], Ok(0)),
        (&[0x06, 0x42, 2, 0, 0xFB, 0xFF], Ok(1)),
        // a length below four, and one past the end
        (
            &[0x03, 0xF0, 0, 0],
            Err(Fault::Message(MessageFault::Broken, 16)),
        ),
        (
            &[0x05, 0xF0, 0, 0],
            Err(Fault::Message(MessageFault::Broken, 16)),
        ),
        (
            &[0x03, 0xF0, 0],
            Err(Fault::Message(MessageFault::Broken, 16)),
        ),
        (
            &[0x08, 0x42, 1, 0, 0, 0, 0, 0],
            Err(Fault::Message(MessageFault::KindLength, 16)),
        ),
        (
            &[0x06, 0x42, 0, 0, 0, 0],
            Err(Fault::Message(MessageFault::ActorRule, 16)),
        ),
        // trailing bytes, told at the first of them
        (
            &[0x04, 0xF0, 0, 0, 4],
            Err(Fault::Message(MessageFault::Broken, 20)),
        ),
        (
            &[0x04, 0xF0, 0, 0, 4, 0xF0],
            Err(Fault::Message(MessageFault::Broken, 20)),
        ),
        (
            &[0x04, 0xF0, 0, 0, 4, 0xF0, 0],
            Err(Fault::Message(MessageFault::Broken, 20)),
        ),
        // the actor rule of the first message fails before the second is looked at
        (
            &[0x06, 0x42, 0, 0, 0, 0, 0x03, 0xF0, 0],
            Err(Fault::Message(MessageFault::ActorRule, 16)),
        ),
    ];
    for (messages, answer) in cases {
        assert_eq!(rt; understood(&event(messages)?), answer, "{messages:?}");
    }
    Ok(())
}

// Messages of a known kind, and the record that each reads as.
#[test]
fn records(rt: HostRuntime) -> Result<(), Fail> {
    let cases: [(&[u8], Record); 8] = [
        (
            &[0x08, 0x71, 0, 0, 1, 1, 1, 0],
            Record::Temperature(Some(257)),
        ),
        (
            &[0x08, 0x71, 0, 0, 0xFE, 0xFF, 1, 0],
            Record::Temperature(Some(-2)),
        ),
        (&[0x08, 0x71, 0, 0, 1, 1, 0, 0], Record::Temperature(None)),
        (&[0x08, 0x71, 0, 0, 1, 1, 2, 0], Record::Temperature(None)),
        // every bit is set that a reader has to drop
        (
            &[0x08, 0x01, 0, 0, 255, 255, 255, 255],
            Record::State(0x1F0F18FF),
        ),
        (
            &[0x08, 0x21, 0, 0, 255, 255, 255, 255],
            Record::Control(0x1F00FFBF),
        ),
        (
            &[0x06, 0x51, 2, 1, 0xF3, 255],
            Record::Event { actor: 258, key: 3 },
        ),
        (
            &[0x08, 0x71, 0, 0, 1, 1, 1, 255],
            Record::Temperature(Some(257)),
        ),
    ];
    for (message, record) in cases {
        assert_eq!(rt; Message::read(message, 16), Ok(Message::Known(record)));
    }
    Ok(())
}

#[test]
fn offsets(rt: HostRuntime) -> Result<(), Fail> {
    let payload = event(&[
        0x04, 0xF0, 0, 0, 0x06, 0x42, 2, 0, 0xFB, 0xFF, 0x08, 0x01, 0, 0, 0x40, 0, 0, 0,
    ])?;
    assert_eq!(rt; understood(&payload), Ok(2));
    let edit = Record::EditValue {
        actor: 2,
        target: -5,
    };
    let mut cursor = Cursor::new(&payload);
    gives(&rt, &mut cursor, 16, Message::Unknown(0xF0))?;
    gives(&rt, &mut cursor, 20, Message::Known(edit))?;
    gives(&rt, &mut cursor, 26, Message::Known(Record::State(0x40)))?;
    assert_eq!(rt; cursor.next()?, None);
    Ok(())
}
