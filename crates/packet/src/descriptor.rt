// The descriptor that begins every payload, eight words in sixteen bytes: read, written, and told as a sort.
ghost use Rattle.std.specs.Prelude.{◌≡◌, ◌≤◌, length, OnOk};
ghost use Rattle.packet.specs.Drafts.{open_bytes};
ghost use Rattle.packet.specs.Sorts.{sort_of};
ghost use Rattle.packet.specs.Words.{descriptor_of};

use crate::sort::Sort;
use fault::{Fault, FrameFault};

/// The FrameID of every packet of this protocol.
pub const FRAME_ID: u16 = 0x8601;

/// The major version that this hub speaks: the high byte of FrameVersion.
pub const MAJOR_VERSION: u8 = 2;

/// The bytes of a descriptor, which are also the least of a payload.
pub const DESCRIPTOR_LEN: usize = 16;

/// The most bytes of a payload.
pub const PAYLOAD_MOST: usize = 1472;

/// The last six words of a descriptor. The first two are not kept: the FrameID is the same in every packet, the FrameLength is the payload's.
#[derive(Clone, Copy, PartialEq, Eq, Debug)]
pub struct Descriptor {
    /// FrameVersion: the major version in its high byte, the minor one in its low byte.
    pub version: u16,
    /// PackageID: 0 in an event, else the number of the packet, or of the packet that is answered.
    pub number: u16,
    /// ProjectID: the installation.
    pub project: u16,
    /// FirmwareVersion, which no check looks at.
    pub firmware: u16,
    /// SwitchID: the switch that the packet is from, or for.
    pub switch: u16,
    /// DesignID, which no check looks at.
    pub design: u16,
}

impl Descriptor {
    /// Reads the descriptor of a payload, and checks what it says of the payload itself. Refused, in this order, with 1 at 0 for a payload of fewer than 16 or
    /// more than 1,472 bytes, 2 at 0 for another FrameID, 3 at 2 for a FrameLength that is not the payload's, 4 at 4 for a major version other than 2.
    pub fn read(payload: &[u8]) -> Result<Descriptor, Fault>
        ensures answer { result ≡ descriptor_of payload.now }
        ensures sized { OnOk result ((16 ≤ length payload.now) × (length payload.now ≤ 1472)) }
    {
        let &[
            id_lo,
            id_hi,
            len_lo,
            len_hi,
            minor,
            major,
            number_lo,
            number_hi,
            project_lo,
            project_hi,
            firmware_lo,
            firmware_hi,
            switch_lo,
            switch_hi,
            design_lo,
            design_hi,
            ..
        ] = payload
        else {
            return Err(Fault::Frame(FrameFault::Length, 0));
        };
        if payload.len() > PAYLOAD_MOST {
            return Err(Fault::Frame(FrameFault::Length, 0));
        }
        if u16::from_le_bytes([id_lo, id_hi]) != FRAME_ID {
            return Err(Fault::Frame(FrameFault::FrameId, 0));
        }
        if u16::from_le_bytes([len_lo, len_hi]) as usize != payload.len() {
            return Err(Fault::Frame(FrameFault::FrameLength, 2));
        }
        if major != MAJOR_VERSION {
            return Err(Fault::Frame(FrameFault::MajorVersion, 4));
        }
        Ok(Descriptor {
            version: u16::from_le_bytes([minor, major]),
            number: u16::from_le_bytes([number_lo, number_hi]),
            project: u16::from_le_bytes([project_lo, project_hi]),
            firmware: u16::from_le_bytes([firmware_lo, firmware_hi]),
            switch: u16::from_le_bytes([switch_lo, switch_hi]),
            design: u16::from_le_bytes([design_lo, design_hi]),
        })
    }

    /// The descriptor's sixteen bytes, with FrameLength 0.
    pub(crate) fn open_bytes(self) -> [u8; 16]
        ensures { result ≡ open_bytes self }
    {
        let [id_lo, id_hi] = FRAME_ID.to_le_bytes();
        let [minor, major] = self.version.to_le_bytes();
        let [number_lo, number_hi] = self.number.to_le_bytes();
        let [project_lo, project_hi] = self.project.to_le_bytes();
        let [firmware_lo, firmware_hi] = self.firmware.to_le_bytes();
        let [switch_lo, switch_hi] = self.switch.to_le_bytes();
        let [design_lo, design_hi] = self.design.to_le_bytes();
        [
            id_lo,
            id_hi,
            0,
            0,
            minor,
            major,
            number_lo,
            number_hi,
            project_lo,
            project_hi,
            firmware_lo,
            firmware_hi,
            switch_lo,
            switch_hi,
            design_lo,
            design_hi,
        ]
    }

    /// Whether the packet is an event or an answer, and to which packet.
    pub fn sort(self) -> Sort
        ensures { result ≡ sort_of self.number }
    {
        match self.number {
            0 => Sort::Event,
            number => Sort::Answer(number),
        }
    }
}
