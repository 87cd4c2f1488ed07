// Reading the calls of a script off its bytes.
ghost use Rattle.std.specs.Prelude.{◌≡◌, ◌<◌, length, Some, None, IfSome, MatchOption};
ghost use Rattle.bench_hub.specs.Calls.{call_of, fate_of, head_of, next_call, plain_of};

use crate::call::{Call, Fate, Plain};
use packet::PAYLOAD_MOST;

// The bytes of a head: operation and fate, and the words a, b, c and n.
const HEAD_LEN: usize = 10;

// The head of a call: what is called, and how many bytes of data stand behind it.
#[derive(Clone, Copy)]
pub(crate) struct Head {
    pub(crate) call: Call,
    pub(crate) size: u16,
}

fn fate_of(code: u8) -> Fate
    ensures { result ≡ fate_of code }
{
    match code {
        0 => Fate::Kept,
        1 => Fate::Sent,
        _ => Fate::Withheld,
    }
}

// The call of an operation that opens and closes no slip; one that nobody knows calls nothing.
fn plain_of(operation: u8, a: u16, b: u16, c: u16) -> Plain
    ensures { result ≡ plain_of operation a b c }
{
    match operation {
        1 => Plain::Enrol(a),
        2 => Plain::Actual {
            actor: a,
            value: b.cast_signed(),
        },
        3 => Plain::Target {
            actor: a,
            value: b.cast_signed(),
        },
        4 => Plain::Control {
            switch: a,
            word: u32::from(b) + u32::from(c) * 65536,
        },
        5 => Plain::Take,
        9 => Plain::ActorMark {
            switch: a,
            actor: b,
        },
        10 => Plain::ControlMark(a),
        11 => Plain::Flags(a),
        12 => Plain::LatestKey(a),
        13 => Plain::Reading(a),
        14 => Plain::Outstanding(a),
        _ => Plain::Nothing,
    }
}

fn call_of(operation: u8, fate: Fate, a: u16, b: u16, c: u16) -> Call
    ensures { result ≡ call_of operation fate a b c }
{
    match operation {
        6 => Call::Compose {
            switch: a,
            room: b.min(PAYLOAD_MOST as u16),
            fate,
        },
        7 => Call::HandIn(fate),
        8 => Call::HandToStranger(fate),
        _ => Call::Plain(plain_of(operation, a, b, c)),
    }
}

fn head_of(script: &[u8]) -> Option<Head>
    ensures { result ≡ head_of script.now }
{
    let &[
        operation,
        fate,
        a_lo,
        a_hi,
        b_lo,
        b_hi,
        c_lo,
        c_hi,
        n_lo,
        n_hi,
        ..
    ] = script
    else {
        return None;
    };
    let a = u16::from_le_bytes([a_lo, a_hi]);
    let b = u16::from_le_bytes([b_lo, b_hi]);
    let c = u16::from_le_bytes([c_lo, c_hi]);
    Some(Head {
        call: call_of(operation, fate_of(fate), a, b, c),
        size: u16::from_le_bytes([n_lo, n_hi]),
    })
}

// The call that a script begins with, its data, and the rest of the script; nothing where the script ends within it.
pub(crate) fn next_call(script: &[u8]) -> Option<(Call, &[u8], &[u8])>
    ensures answer { MatchOption result (next_call script.now ≡ None) (λ p. next_call script.now ≡ Some (p.0, p.1.now, p.2.now)) }
    ensures shorter { IfSome result (λ p. length p.2.now < length script.now) }
{
    let head = head_of(script)?;
    let end = HEAD_LEN + usize::from(head.size);
    if script.len() < end {
        return None;
    }
    Some((head.call, &script[HEAD_LEN..end], &script[end..]))
}
