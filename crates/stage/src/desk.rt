// A hub with the slips that it has out, and the calls that are made on it.
ghost use Rattle.std.specs.Prelude.{◌≡◌, ◌+◌, ◌<◌, ◌≤◌, Some, [], length, vec_len, slice_index_or};
ghost use Rattle.std.specs.Result.{result_ok};
ghost use Rattle.model.specs.Models.{hub_after};
ghost use Rattle.hub.specs.Memory.{hub_model};
ghost use Rattle.hub.specs.Slips.{SlipModel, handed_in};
ghost use Rattle.script.specs.Calls.{said};
ghost use Rattle.stage.specs.Calls.{Composes, Leaves};
ghost use Rattle.stage.specs.Slips.{HoldsAll, handed_for, handed_told, place_for};

use crate::call::apply;
use crate::outcome::{Answer, Packet, Payload, Told};
use crate::slip::{keep, place};
use hub::{Composed, Fate, Hub, Slip};
use packet::PAYLOAD_MOST;
use script::Call;
use std::alloc::{AllocError, Global};
use std::io;
use store::ActorStore;

/// The slips lie in the order in which they were composed. It is not `Drop`, since slips are not to be let go:
/// `withhold_rest` ends it.
pub(crate) struct Desk<S: ActorStore> {
    pub(crate) hub: Hub<S>,
    pub(crate) held: Vec<Slip>,
    ghost holds: { HoldsAll (hub_model S.meaning hub) held.items },
}

impl<S: ActorStore> Desk<S> {
    /// Over a hub that has no slip out.
    pub(crate) fn new(hub: Hub<S>, heap: Global) -> Desk<S>
        requires none_out { HoldsAll (hub_model S.meaning hub) [] }
    {
        Desk {
            hub,
            held: Vec::new(heap),
        }
    }

    // Hands in the slip at a place.
    fn hand_in(&mut self, i: usize, fate: Fate)
        requires within { i < vec_len self.old.held }
        ensures after { (d : SlipModel) → hub_model S.meaning self.new.hub ≡ hub_after (hub_model S.meaning self.old.hub) (handed_in fate (hub_model S.meaning self.old.hub) (slice_index_or self.old.held.items i d)) }
        ensures fewer { vec_len self.new.held + 1 ≡ vec_len self.old.held }
    {
        let slip = self.held.remove(i);
        self.hub.hand_in(slip, fate).unwrap();
    }

    // Composes into a buffer, and keeps the slip.
    fn compose<'b>(&mut self, switch: u16, buf: &'b mut [u8]) -> Result<Answer<'b>, AllocError>
        ensures { Composes (result_ok result) switch buf.old (hub_model S.meaning self.old.hub) (hub_model S.meaning self.new.hub) }
    {
        match self.hub.compose(switch, buf) {
            Ok(composed) => {
                let Composed {
                    length,
                    actors,
                    slip,
                } = composed;
                let number = slip.number();
                keep(&mut self.hub, &mut self.held, slip)?;
                let payload = Payload::new(&buf[..length]);
                Ok(Answer::Granted(Told::Composed(Packet {
                    switch,
                    actors,
                    number,
                    payload,
                })))
            }
            Err(fault) => Ok(Answer::Refused(fault)),
        }
    }

    // Hands in the slip for a packet, if it is at hand.
    fn hand_in_for(&mut self, switch: u16, number: u16, fate: Fate) -> Answer<'static>
        ensures told { result ≡ handed_told (place_for switch number self.old.held.items) }
        ensures after { hub_model S.meaning self.new.hub ≡ handed_for fate (hub_model S.meaning self.old.hub) switch number (place_for switch number self.old.held.items) }
    {
        match place(self.held.as_slice(), switch, number) {
            Some(i) => {
                self.hand_in(i, fate);
                Answer::Granted(Told::Done)
            }
            None => Answer::NoSlip,
        }
    }

    /// Makes a call, and tells what became of it. Where the machine has no memory for one more slip,
    /// its packet is withheld, and nothing is told. A packet is composed into the buffer, whatever that held.
    pub(crate) fn make<'b>(
        &mut self,
        call: &Call<'_>,
        buf: &'b mut [u8; PAYLOAD_MOST],
    ) -> Result<Answer<'b>, AllocError>
        ensures { Leaves (said call.now) (result_ok result) self.old.held.items (hub_model S.meaning self.old.hub) (hub_model S.meaning self.new.hub) }
    {
        match *call {
            Call::Compose { switch, room } => {
                self.compose(switch, &mut buf[..room.min(PAYLOAD_MOST)])
            }
            Call::Sent { switch, number } => Ok(self.hand_in_for(switch, number, Fate::Sent)),
            Call::Withheld { switch, number } => {
                Ok(self.hand_in_for(switch, number, Fate::Withheld))
            }
            _ => Ok(apply(&mut self.hub, call)),
        }
    }
}

impl<S: ActorStore + Drop> Desk<S> {
    /// Hands in the slips that are still out, oldest first: their packets were never sent.
    pub(crate) fn withhold_rest(mut self, rt: &impl Print) -> io::Result<()> {
        let mut told = Ok(());
        while let Some(slip) = self.held.first() {
            let switch = slip.switch();
            let number = slip.number();
            self.hand_in(0, Fate::Withheld);
            if told.is_ok() {
                told = println!(rt; "withheld {switch} {number}");
            }
        }
        let Desk { hub: _, held } = self;
        held.destroy_empty();
        told
    }
}
