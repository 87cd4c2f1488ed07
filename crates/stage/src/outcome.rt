// What a line of a script is told.
ghost use Rattle.std.specs.Prelude.{◌≡◌, Some};
ghost use Rattle.stage.specs.Outcomes.{answer_text, is_mistake, outcome_text, packet_text, told_text};

use fault::Fault;
use hexadecimal::Digits;
use model::{Arrival, KeyPress, Mark};
use script::Reason;
use std::fmt;
use std::marker::Model;

/// The bytes of a packet, in the buffer that it was composed into.
#[derive(Drop)]
pub(crate) struct Payload<'a> {
    bytes: &'a [u8],
}

impl<'a> Model for Payload<'a> {
    ghost use Rattle.std.specs.Prelude.{ℕ, List};

    ghost Value = { List ℕ };

    ghost view = { λ p. p.bytes.now };
}

impl<'a> Payload<'a> {
    pub(crate) fn new(bytes: &'a [u8]) -> Payload<'a>
        ensures { result ≡ bytes.now }
    {
        Payload { bytes }
    }

    fn bytes(&self) -> &[u8]
        ensures { result.now ≡ self.now }
    {
        self.bytes
    }
}

/// A packet that was composed, and how many actors it carries.
#[derive(Drop)]
pub(crate) struct Packet<'a> {
    pub(crate) switch: u16,
    pub(crate) actors: usize,
    pub(crate) number: u16,
    pub(crate) payload: Payload<'a>,
}

impl fmt::Display for Packet<'_> {
    ghost output = { λ packet. Some (packet_text packet) };

    fn fmt<W: fmt::Write>(&self, f: &mut fmt::Formatter<W>) -> fmt::Result {
        let bytes = self.payload.bytes();
        let switch = self.switch;
        let length = bytes.len();
        let actors = self.actors;
        let number = self.number;
        let digits = Digits(bytes);
        write!(f, "{switch} {length} {actors} {number} {digits}")
    }
}

/// What a call that was granted told.
#[derive(Drop)]
pub(crate) enum Told<'a> {
    Done,
    Taken(Arrival, usize),
    Composed(Packet<'a>),
    Mark(Mark),
    Flags(u32),
    Key(Option<KeyPress>),
    Reading(Option<i16>),
}

impl fmt::Display for Told<'_> {
    ghost output = { λ told. Some (told_text told) };

    fn fmt<W: fmt::Write>(&self, f: &mut fmt::Formatter<W>) -> fmt::Result {
        match self {
            Told::Done => write!(f, "ok"),
            Told::Taken(arrival, count) => write!(f, "ok {arrival} {count}"),
            Told::Composed(packet) => write!(f, "ok {packet}"),
            Told::Mark(mark) => write!(f, "ok {mark}"),
            Told::Flags(flags) => write!(f, "ok {flags}"),
            Told::Key(Some(KeyPress { actor, key })) => write!(f, "ok {actor} {key}"),
            Told::Reading(Some(tenths)) => write!(f, "ok {tenths}"),
            Told::Key(None) | Told::Reading(None) => write!(f, "ok none"),
        }
    }
}

/// What became of a call that was made on the hub.
#[derive(Drop)]
pub(crate) enum Answer<'a> {
    Granted(Told<'a>),
    Refused(Fault),
    NoSlip,
    OpenAlready,
}

impl fmt::Display for Answer<'_> {
    ghost output = { λ answer. Some (answer_text answer) };

    fn fmt<W: fmt::Write>(&self, f: &mut fmt::Formatter<W>) -> fmt::Result {
        match self {
            Answer::Granted(told) => write!(f, "{told}"),
            Answer::Refused(fault) => {
                let layer = fault.layer();
                write!(f, "refused {layer} {fault}")
            }
            Answer::NoSlip => write!(f, "no slip"),
            Answer::OpenAlready => write!(f, "unknown: a hub is open already"),
        }
    }
}

/// What a line of a script is told.
#[derive(Drop)]
pub(crate) enum Outcome<'a> {
    Made(Answer<'a>),
    /// A call before a hub was opened.
    Unready,
    /// What is wanted, with no call before it.
    Unasked,
    Unknown(Reason<'a>),
}

impl Outcome<'_> {
    // Whether the line was no call.
    pub(crate) fn is_mistake(&self) -> bool
        ensures { result ≡ is_mistake self.now }
    {
        matches!(
            self,
            Outcome::Made(Answer::OpenAlready) | Outcome::Unasked | Outcome::Unknown(_)
        )
    }
}

impl fmt::Display for Outcome<'_> {
    ghost output = { λ outcome. Some (outcome_text outcome) };

    fn fmt<W: fmt::Write>(&self, f: &mut fmt::Formatter<W>) -> fmt::Result {
        match self {
            Outcome::Made(answer) => write!(f, "{answer}"),
            Outcome::Unready => write!(f, "unready"),
            Outcome::Unasked => write!(f, "unknown: no call before it"),
            Outcome::Unknown(reason) => write!(f, "unknown: {reason}"),
        }
    }
}
