// Drafts, and how what they write reads back.
use crate::payloads::gives;
use fault::{CallFault, Fault, FrameFault, MessageFault};
use packet::{Cursor, Descriptor, Draft, Message, Packet, Record};
use std::test::Fail;

const WORDS: Descriptor = Descriptor {
    version: 0x0201,
    number: 1,
    project: 0x1234,
    firmware: 0,
    switch: 7,
    design: 5,
};

// Adds a record, or lets the draft go and tells the fault. A draft is a number alone, so its buffer goes with it at each call.
fn added(draft: Draft, buf: &mut [u8], record: Record) -> Result<Draft, Fault> {
    draft.add(buf, record).map_err(|(fault, _)| fault)
}

// Closes the draft, and tells the packet's length.
fn closed(draft: Draft, buf: &mut [u8]) -> Result<usize, Fault> {
    let packet = draft.close(buf).map_err(|(fault, _)| fault)?;
    Ok(packet.length())
}

// The actual value and the target that the refresh tells of an actor.
fn values_of(actor: u16) -> (i16, i16) {
    let actual = (actor % 100) as i16;
    (actual, actual - 50)
}

// All that a switch with actors 1 to 64 can be told: 64 × (6 + 6) bytes and 8 bytes behind the descriptor.
fn refresh(buf: &mut [u8]) -> Result<usize, Fault> {
    let mut draft = Draft::begin(buf, WORDS)?;
    for actor in 1..=64u16 {
        let (actual, target) = values_of(actor);
        draft = added(draft, buf, Record::RealValue { actor, actual })?;
        draft = added(draft, buf, Record::EditValue { actor, target })?;
    }
    draft = added(draft, buf, Record::Control(0x130))?;
    closed(draft, buf)
}

// A draft of 182 Control messages of 8 bytes.
fn packed(buf: &mut [u8]) -> Result<Draft, Fault> {
    let mut draft = Draft::begin(buf, WORDS)?;
    // repeats a step that can fail; nothing is counted
    for _ in 0..182 {
        draft = added(draft, buf, Record::Control(0x130))?;
    }
    Ok(draft)
}

#[test]
fn full_refresh(rt: HostRuntime) -> Result<(), Fail> {
    let mut buf = [0; 1472];
    assert_eq!(rt; refresh(&mut buf)?, 792);
    let packet = Packet::read(&buf[0..792])?;
    assert_eq!(rt; packet.descriptor, WORDS);
    assert_eq!(rt; packet.understood, 129);
    let mut cursor = Cursor::new(&buf[0..792]);
    for actor in 1..=64u16 {
        let (actual, target) = values_of(actor);
        let place = 4 + 12 * actor as usize;
        let first = Message::Known(Record::RealValue { actor, actual });
        let second = Message::Known(Record::EditValue { actor, target });
        gives(&rt, &mut cursor, place, first)?;
        gives(&rt, &mut cursor, place + 6, second)?;
    }
    gives(
        &rt,
        &mut cursor,
        784,
        Message::Known(Record::Control(0x130)),
    )?;
    assert_eq!(rt; cursor.next()?, None);
    Ok(())
}

// What is refused writes nothing.
#[test]
fn refusals(rt: HostRuntime) -> Result<(), Fail> {
    let mut buf = [7; 21];
    let major = Descriptor {
        version: 0x0300,
        ..WORDS
    };
    assert_eq!(rt;
        Draft::begin(&mut buf, major).err(),
        Some(Fault::Frame(FrameFault::MajorVersion, 4))
    );
    assert_eq!(rt;
        Draft::begin(&mut buf[0..15], WORDS).err(),
        Some(Fault::Call(CallFault::ShortBuffer, 0))
    );
    assert!(rt; buf == [7; 21]);
    for (actor, refusal) in [
        (0, Fault::Message(MessageFault::ActorRule, 0)),
        (1, Fault::Call(CallFault::ShortBuffer, 0)),
    ] {
        let draft = Draft::begin(&mut buf, WORDS)?;
        let begun = buf;
        let edit = Record::EditValue { actor, target: 1 };
        assert_eq!(rt; added(draft, &mut buf, edit).err(), Some(refusal));
        assert!(rt; buf == begun);
    }
    Ok(())
}

// The draft ends at 1,472 bytes, though the buffer has room for more. Once refused, it can still be closed.
#[test]
fn longest(rt: HostRuntime) -> Result<(), Fail> {
    let mut buf = [0; 1600];
    let full = packed(&mut buf)?;
    let Err((fault, full)) = full.add(&mut buf, Record::Event { actor: 1, key: 1 }) else {
        return Err(Fail::new("the draft has grown past a payload's most"));
    };
    assert_eq!(rt; fault, Fault::Call(CallFault::ShortBuffer, 0));
    assert_eq!(rt; closed(full, &mut buf)?, 1472);
    assert_eq!(rt; Packet::read(&buf[0..1472])?.understood, 182);
    Ok(())
}
