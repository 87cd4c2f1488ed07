// What the hub keeps of a switch besides its items, and what it tells of a packet.
ghost use Rattle.std.specs.Prelude.{Some};
ghost use Rattle.model.specs.Taking.{arrival_name};

use std::fmt;

/// What an accepted payload was.
#[derive(Clone, Copy, PartialEq, Eq, Debug)]
pub enum Arrival {
    /// An event: PackageID 0.
    Event,
    /// The answer that was awaited.
    Answer,
    /// Any other answer. It changed nothing.
    Stale,
}

impl fmt::Display for Arrival {
    ghost output = { λ a. Some (arrival_name a) };

    fn fmt<W: fmt::Write>(&self, f: &mut fmt::Formatter<W>) -> fmt::Result {
        f.write_str(match self {
            Arrival::Event => "event",
            Arrival::Answer => "answer",
            Arrival::Stale => "stale",
        })
    }
}

/// A key pressed at a switch, and the actor that it is for.
#[derive(Clone, Copy, PartialEq, Eq, Debug)]
pub struct KeyPress {
    /// The ActorID.
    pub actor: u16,
    /// The key's number.
    pub key: u8,
}

/// What a switch last reported of itself.
#[derive(Clone, Copy, PartialEq, Eq, Debug)]
pub struct Report {
    /// The flags of its latest State, masked; 0 before the first.
    pub flags: u32,
    /// The key last pressed, if any was.
    pub key: Option<KeyPress>,
    /// The temperature in tenths of a degree, if its latest Temperature had one.
    pub reading: Option<i16>,
}

/// The numbers (PackageIDs, 1 to 65,535) of a switch's packets.
#[derive(Clone, Copy, PartialEq, Eq, Debug)]
pub struct Numbers {
    /// That of the next packet.
    pub next: u16,
    /// That of the answer which is awaited, if one is.
    pub awaited: Option<u16>,
    /// That of the packet whose slip is open, if one is.
    pub slip: Option<u16>,
}

/// The words that a hub is opened with: every packet that it writes has them in its descriptor.
#[derive(Clone, Copy, PartialEq, Eq, Debug)]
pub struct Site {
    /// FrameVersion: the major version in the high byte, which must be 2, and the minor one in the low byte.
    pub version: u16,
    /// ProjectID: a hub takes payloads of its own project only.
    pub project: u16,
    /// FirmwareVersion.
    pub firmware: u16,
    /// DesignID.
    pub design: u16,
}
