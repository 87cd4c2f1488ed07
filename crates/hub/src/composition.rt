// Composing a packet for a switch.
ghost use Rattle.std.specs.Prelude.{◌≡◌, Some, IfOk};
ghost use Rattle.packet.specs.Words.{major};
ghost use Rattle.model.specs.Composing.{compose as compose_step, compose_for, composed_bytes, packet_over, words_for};
ghost use Rattle.model.specs.Models.{hub_after};
ghost use Rattle.hub.specs.Compositions.{composition, packet_length};
ghost use Rattle.hub.specs.Memory.{hub_model};
ghost use Rattle.hub.specs.Slips.{Unspent};

use crate::hub::Hub;
use crate::refresh::write_packet;
use crate::slip::Slip;
use fault::{CallFault, Fault};
use packet::{DESCRIPTOR_LEN, Descriptor};
use store::ActorStore;
use switch::Switch;

// The bytes of both values of an actor, and of a control word, with their heads.
const ACTOR_BYTES: usize = 12;

const CONTROL_BYTES: usize = 8;

/// A packet that lies in the caller's buffer: its length in bytes, how many actors it carries, and the slip that it is owed.
pub struct Composed {
    pub length: usize,
    pub actors: usize,
    pub slip: Slip,
}

// How long the packet for a switch is.
fn packet_length(switch: &Switch) -> usize
    ensures { result ≡ packet_length switch.now }
{
    let control = if switch.control_mark().is_outstanding() {
        CONTROL_BYTES
    } else {
        0
    };
    DESCRIPTOR_LEN + ACTOR_BYTES * switch.outstanding_actors() + control
}

impl<S: ActorStore> Hub<S> {
    // The words at the head of a packet for a switch.
    fn words_for(&self, switch: &Switch) -> Descriptor
        ensures words { result ≡ words_for (hub_model S.meaning self.now) switch.now }
        ensures ours { major result.version ≡ 2 }
    {
        let site = self.site.words();
        Descriptor {
            version: site.version,
            number: switch.next_number(),
            project: site.project,
            firmware: site.firmware,
            switch: switch.id(),
            design: site.design,
        }
    }

    // Writes the packet for a switch, if its slip is in, something is outstanding and the buffer has room.
    fn write_for(&self, id: u16, switch: &Switch, buf: &mut [u8]) -> Result<Composed, Fault>
        ensures answer { result ≡ composition id (compose_for (hub_model S.meaning self.now) id buf.old switch.now) }
        ensures unspent { IfOk result (λ composed. Unspent composed.slip) }
        ensures bytes { buf.new ≡ packet_over (hub_model S.meaning self.now) (Some switch.now) buf.old (compose_for (hub_model S.meaning self.now) id buf.old switch.now) }
    {
        let number = switch.next_number();
        if switch.numbers().slip.is_some() {
            return Err(Fault::Call(CallFault::SlipOpen, 0));
        }
        if !switch.has_outstanding() {
            return Err(Fault::Call(CallFault::NothingOutstanding, 0));
        }
        let length = packet_length(switch);
        if buf.len() < length {
            return Err(Fault::Call(CallFault::ShortBuffer, 0));
        }
        write_packet(&self.store, switch, self.words_for(switch), buf);
        Ok(Composed {
            length,
            actors: switch.outstanding_actors(),
            slip: Slip::new(id, number),
        })
    }

    /// Composes the packet with all that is outstanding for a switch into a buffer, whose bytes beyond it stay. What it
    /// carries goes under way, its answer is awaited, and its slip is to be handed in.
    ///
    /// Refusals, at place 0 and with nothing changed, in this order: 6 for a switch that is not enrolled, 18 while its slip is
    /// open, 19 where nothing is outstanding, 20 for a buffer that is too short.
    pub fn compose(&mut self, id: u16, buf: &mut [u8]) -> Result<Composed, Fault>
        ensures answer { result ≡ composition id (compose_step (hub_model S.meaning self.old) id buf.old) }
        ensures after { hub_model S.meaning self.new ≡ hub_after (hub_model S.meaning self.old) (compose_step (hub_model S.meaning self.old) id buf.old) }
        ensures unspent { IfOk result (λ composed. Unspent composed.slip) }
        ensures bytes { buf.new ≡ composed_bytes (hub_model S.meaning self.old) id buf.old }
    {
        let composed = self.write_for(id, self.enrolled(id)?, buf)?;
        self.change(id, |switch| switch.compose());
        Ok(composed)
    }
}
