// Payloads of a switch, as the worked examples hand them to the reader and to the hub.
#![tactic(auto)]

ghost use Rattle.std.specs.Prelude.{◌≡◌, ◌+◌, ◌≤◌, ◌++◌, ◌↔◌, length, IfOk, IsOk};
ghost use Rattle.worked_payloads.specs.Payloads.{descriptor_of};

use arrayvec::{ArrayVec, CapacityError};

/// A payload, in room for a few bytes more than one may have.
pub type Payload = ArrayVec<u8, 1500>;

/// An event of switch 8 with these messages, at most 1,484 bytes of them.
pub fn event(messages: &[u8]) -> Result<Payload, CapacityError>
    ensures fits { IsOk result ↔ (length messages.now ≤ 1484) }
    ensures bytes { IfOk result (λ payload. payload.items ≡ descriptor_of (16 + length messages.now) 0 ++ messages.now) }
{
    answer(0, messages)
}

/// An answer of switch 8 to the packet of this number, with these messages, at most 1,484 bytes of them.
pub fn answer(number: u16, messages: &[u8]) -> Result<Payload, CapacityError>
    ensures fits { IsOk result ↔ (length messages.now ≤ 1484) }
    ensures bytes { IfOk result (λ payload. payload.items ≡ descriptor_of (16 + length messages.now) number ++ messages.now) }
{
    if messages.len() > 1484 {
        return Err(CapacityError::new(()));
    }
    let descriptor = descriptor(16 + messages.len() as u16, number);
    let mut payload = Payload::new();
    payload.try_extend_from_slice(&descriptor)?;
    payload.try_extend_from_slice(messages)?;
    Ok(payload)
}

// Version 2.01, project 0x1234, firmware 0x0203, switch 8 and design 5.
fn descriptor(length: u16, number: u16) -> [u8; 16]
    ensures { result ≡ descriptor_of length number }
{
    let [length_low, length_high] = length.to_le_bytes();
    let [number_low, number_high] = number.to_le_bytes();
    [
        0x01,
        0x86,
        length_low,
        length_high,
        0x01,
        0x02,
        number_low,
        number_high,
        0x34,
        0x12,
        0x03,
        0x02,
        0x08,
        0x00,
        0x05,
        0x00,
    ]
}
