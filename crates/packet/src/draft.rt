// A packet to be sent, written into the caller's buffer: begun, given records, closed.
ghost use Rattle.std.specs.Prelude.{◌≡◌, ◌+◌, ◌≤◌, true, List, length, take, IfOk, Ok, OnOk};
ghost use Rattle.kind.specs.Layout.{message_of, word_bytes};
ghost use Rattle.packet.specs.Drafts.{ReadsBack, StandsAt, added, added_bytes, appended, appended_bytes, begun, begun_bytes, closed, closed_bytes, full, over, size_of};

use crate::descriptor::{DESCRIPTOR_LEN, Descriptor, MAJOR_VERSION, PAYLOAD_MOST};
use crate::message::Record;
use fault::{CallFault, Fault, FrameFault, MessageFault};
use kind::{Control, EditValue, Event, Kind, RealValue, State, Temperature};
use std::marker::Model;

/// A packet that still takes records. It is a number alone, moved from step to step, and the caller passes the same buffer at each:
/// a draft that held the buffer would borrow it until it is closed.
#[derive(PartialEq, Eq, Debug, Drop)]
pub struct Draft {
    behind: usize,
}

/// A packet whose FrameLength is filled in. It takes no record: begin another draft.
#[derive(Debug, Drop)]
pub struct Closed {
    len: usize,
}

impl Model for Closed {
    ghost use Rattle.std.specs.Prelude.{ℕ};

    ghost Value = { ℕ };

    ghost view = { λ c. c.len };
}

// Writes a message of kind K at a place where it has room.
fn write_at<K: Kind>(buf: &mut [u8], at: usize, actor: u16, record: K::Record)
    requires room { at + K.layout.size ≤ length buf.old }
    requires admitted { K.layout.admits actor ≡ true }
    ensures bytes { buf.new ≡ over buf.old at (message_of K.layout actor «record») }
    ensures back { StandsAt K.layout actor «record» at buf.new }
{
    let _ = kind::write::<K>(&mut buf[at..], actor, record).unwrap();
}

impl Draft {
    // Whether the packet or the buffer has no room for so many bytes more.
    fn is_full(&self, more: u8, buf: &[u8]) -> bool
        ensures { result ≡ full self.now more buf.now }
    {
        let room = buf.len().min(PAYLOAD_MOST);
        let needed = DESCRIPTOR_LEN + more as usize;
        room < needed || self.behind > room - needed
    }

    /// Begins a packet with these words, and writes its descriptor, with FrameLength 0, over the first sixteen bytes of the buffer.
    /// Refused with 4 at 4 for a major version other than 2, then with 20 at 0 where the buffer is shorter; then the buffer stays as it was.
    pub fn begin(buf: &mut [u8], words: Descriptor) -> Result<Draft, Fault>
        ensures answer { result ≡ begun words buf.old }
        ensures bytes { buf.new ≡ begun_bytes words buf.old }
    {
        let [_, major] = words.version.to_le_bytes();
        if major != MAJOR_VERSION {
            return Err(Fault::Frame(FrameFault::MajorVersion, 4));
        }
        if buf.len() < DESCRIPTOR_LEN {
            return Err(Fault::Call(CallFault::ShortBuffer, 0));
        }
        buf[0..DESCRIPTOR_LEN].copy_from_slice(&words.open_bytes());
        Ok(Draft { behind: 0 })
    }

    /// Adds a message of kind K, which reads back, masked, where it stands. Refused with 9 where the kind does not admit the actor, then with 20 past the buffer
    /// or past 1,472 bytes, both at 0: that gives the draft back, and the buffer stays as it was.
    pub fn append<K: Kind>(
        self,
        buf: &mut [u8],
        actor: u16,
        record: K::Record,
    ) -> Result<Draft, (Fault, Draft)>
        ensures answer { result ≡ appended K.layout self actor buf.old }
        ensures bytes { buf.new ≡ appended_bytes K.layout self actor «record» buf.old }
        ensures back { OnOk result (StandsAt K.layout actor «record» (size_of self) buf.new) }
    {
        if !K::admits(actor) {
            return Err((Fault::Message(MessageFault::ActorRule, 0), self));
        }
        if self.is_full(K::LEN, buf) {
            return Err((Fault::Call(CallFault::ShortBuffer, 0), self));
        }
        write_at::<K>(buf, DESCRIPTOR_LEN + self.behind, actor, record);
        Ok(Draft {
            behind: self.behind + K::LEN as usize,
        })
    }

    /// Adds a record, whatever its kind, as `append` does.
    // Inlined: where the kind is known, nothing is left of the others.
    #[inline(always)]
    pub fn add(self, buf: &mut [u8], record: Record) -> Result<Draft, (Fault, Draft)>
        ensures answer { result ≡ added «record» self buf.old }
        ensures bytes { buf.new ≡ added_bytes «record» self buf.old }
    {
        match record {
            Record::State(flags) => self.append::<State>(buf, 0, flags),
            Record::Control(word) => self.append::<Control>(buf, 0, word),
            Record::EditValue { actor, target } => self.append::<EditValue>(buf, actor, target),
            Record::RealValue { actor, actual } => self.append::<RealValue>(buf, actor, actual),
            Record::Event { actor, key } => self.append::<Event>(buf, actor, key),
            Record::Temperature(reading) => self.append::<Temperature>(buf, 0, reading),
        }
    }

    // Fills in the FrameLength.
    fn fill_length(&self, buf: &mut [u8])
        requires room { 16 + self.now.behind ≤ length buf.old }
        requires most { 16 + self.now.behind ≤ 1472 }
        ensures bytes { buf.new ≡ over buf.old 2 (word_bytes (16 + self.now.behind)) }
        ensures back { ReadsBack self.now buf.old (take (16 + self.now.behind) buf.new) }
    {
        let length = (DESCRIPTOR_LEN + self.behind) as u16;
        buf[2..4].copy_from_slice(&length.to_le_bytes());
    }

    /// Closes the packet, which fills in its FrameLength. Refused with 20 at 0 past the buffer or past 1,472 bytes: that gives the draft back, and the buffer
    /// stays as it was.
    pub fn close(self, buf: &mut [u8]) -> Result<Closed, (Fault, Draft)>
        ensures answer { result ≡ closed self buf.old }
        ensures bytes { buf.new ≡ closed_bytes self buf.old }
        ensures back { IfOk result (λ length. ReadsBack self buf.old (take length buf.new)) }
    {
        if self.is_full(0, buf) {
            return Err((Fault::Call(CallFault::ShortBuffer, 0), self));
        }
        self.fill_length(buf);
        Ok(Closed {
            len: DESCRIPTOR_LEN + self.behind,
        })
    }
}

impl Closed {
    /// How many bytes of the buffer are the packet.
    pub fn length(&self) -> usize
        ensures { result ≡ self.now }
    {
        self.len
    }
}
