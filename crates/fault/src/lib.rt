// Every refusal: the layer that refused, why, and at which place.
#![tactic(auto)]

ghost use Rattle.std.specs.Prelude.{◌≡◌, Some};
ghost use Rattle.fault.specs.Table.{Telling, layer_of, number_of, place_of};
ghost use Rattle.fault.specs.Written.{fault_text, layer_name};

use std::error::Error;
use std::fmt;

/// What is wrong with a packet's descriptor. Each refusal's number is that of its case, here and below.
#[derive(Clone, Copy, PartialEq, Eq, Debug)]
pub enum FrameFault {
    /// The payload has fewer than 16 bytes, or more than 1,472.
    Length = 1,
    /// The FrameID is another.
    FrameId = 2,
    /// The FrameLength is not the payload's length.
    FrameLength = 3,
    /// The major version is not 2.
    MajorVersion = 4,
    /// The ProjectID is not the hub's.
    Project = 5,
    /// The SwitchID is not enrolled.
    Switch = 6,
}

/// What is wrong with one message of a packet.
#[derive(Clone, Copy, PartialEq, Eq, Debug)]
pub enum MessageFault {
    /// Fewer than 4 bytes are left, or the MessageLength is below 4 or past the end.
    Broken = 7,
    /// A message of a known kind has another length.
    KindLength = 8,
    /// A message of a known kind names an actor that the kind does not admit.
    ActorRule = 9,
}

/// What is wrong with the actor that a message or a question names.
#[derive(Clone, Copy, PartialEq, Eq, Debug)]
pub enum ActorFault {
    /// The switch does not list the actor.
    NotListed = 10,
}

/// What an actor store, or the opening of one, refuses.
#[derive(Clone, Copy, PartialEq, Eq, Debug)]
pub enum StoreFault {
    /// The store does not know the actor.
    UnknownActor = 11,
    /// The value is one that a switch ignores.
    ForbiddenValue = 12,
    /// A list of actors is empty or too long.
    ListLength = 16,
    /// An entry of the list is 0, or repeats an earlier one.
    ListEntry = 17,
    /// The image is not lawful.
    Image = 21,
}

/// What a call refuses for reasons of its own.
#[derive(Clone, Copy, PartialEq, Eq, Debug)]
pub enum CallFault {
    /// The control word has a bit outside the mask, or bit 8 clear.
    ControlWord = 13,
    /// The SwitchID is 0, or enrolled already.
    SwitchTaken = 14,
    /// 32 switches are enrolled already.
    HubFull = 15,
    /// A slip of the switch is open.
    SlipOpen = 18,
    /// Nothing is outstanding at the switch.
    NothingOutstanding = 19,
    /// The buffer is too short, or the packet would pass 1,472 bytes.
    ShortBuffer = 20,
    /// The hub has no such open slip.
    NoSlip = 22,
    /// The line is no line of hexadecimal.
    HexLine = 23,
}

/// A refusal: what was refused, by its layer, and the place. The place is a byte offset or a list index, and 0 where neither applies.
#[derive(Clone, Copy, PartialEq, Eq, Debug)]
pub enum Fault {
    /// Refusals 1 to 6.
    Frame(FrameFault, usize),
    /// Refusals 7 to 9.
    Message(MessageFault, usize),
    /// Refusal 10.
    Actor(ActorFault, usize),
    /// Refusals 11, 12, 16, 17 and 21.
    Store(StoreFault, usize),
    /// Refusals 13 to 15, 18 to 20, 22 and 23.
    Call(CallFault, usize),
}

/// The part of the hub that refused.
#[derive(Clone, Copy, PartialEq, Eq, Debug)]
pub enum Layer {
    /// The check of a packet's descriptor.
    Frame,
    /// The check of its messages.
    Message,
    /// The check of the actors that are named.
    Actor,
    /// The actor store.
    Store,
    /// The call itself.
    Call,
}

impl Fault {
    /// The number by which documents and logs know the refusal.
    pub fn number(self) -> u8
        ensures answer { result ≡ number_of self }
        ensures telling { Telling }
    {
        match self {
            Fault::Frame(fault, _) => fault as u8,
            Fault::Message(fault, _) => fault as u8,
            Fault::Actor(fault, _) => fault as u8,
            Fault::Store(fault, _) => fault as u8,
            Fault::Call(fault, _) => fault as u8,
        }
    }

    /// The layer whose check failed.
    pub fn layer(self) -> Layer
        ensures { result ≡ layer_of self }
    {
        match self {
            Fault::Frame(_, _) => Layer::Frame,
            Fault::Message(_, _) => Layer::Message,
            Fault::Actor(_, _) => Layer::Actor,
            Fault::Store(_, _) => Layer::Store,
            Fault::Call(_, _) => Layer::Call,
        }
    }

    /// The byte offset or list index at which the check failed, and 0 where there is none. Number and place together tell the whole refusal.
    pub fn place(self) -> usize
        ensures { result ≡ place_of self }
    {
        match self {
            Fault::Frame(_, place)
            | Fault::Message(_, place)
            | Fault::Actor(_, place)
            | Fault::Store(_, place)
            | Fault::Call(_, place) => place,
        }
    }
}

/// The layer's name, in lower case.
impl fmt::Display for Layer {
    ghost output = { λ layer. Some (layer_name layer) };

    fn fmt<W: fmt::Write>(&self, f: &mut fmt::Formatter<W>) -> fmt::Result {
        f.write_str(match self {
            Layer::Frame => "frame",
            Layer::Message => "message",
            Layer::Actor => "actor",
            Layer::Store => "store",
            Layer::Call => "call",
        })
    }
}

/// The number and the place, in decimal, with a space between: together they tell the whole refusal.
impl fmt::Display for Fault {
    ghost output = { λ fault. Some (fault_text fault) };

    fn fmt<W: fmt::Write>(&self, f: &mut fmt::Formatter<W>) -> fmt::Result {
        let number = self.number();
        let place = self.place();
        write!(f, "{number} {place}")
    }
}

impl Error for Fault {}
