// The calls that open and close no slip, made on the hub.
ghost use Rattle.std.specs.Prelude.{◌≡◌, List, Some};
ghost use Rattle.hub.specs.Memory.{hub_model};
ghost use Rattle.script.specs.Calls.{said};
ghost use Rattle.hub.specs.Slips.{SlipModel};
ghost use Rattle.stage.specs.Calls.{Leaves, Plain, Takes};
ghost use Rattle.stage.specs.Outcomes.{answered, asked, asks};
ghost use Rattle.stage.specs.Slips.{SameOut};

use crate::outcome::{Answer, Told};
use fault::Fault;
use hub::Hub;
use packet::PAYLOAD_MOST;
use script::Call;
use store::ActorStore;

// What is told of a call that brings nothing more.
fn done(answer: Result<(), Fault>) -> Answer<'static>
    ensures { result ≡ answered (λ u. Told.Done) answer }
{
    match answer {
        Ok(()) => Answer::Granted(Told::Done),
        Err(fault) => Answer::Refused(fault),
    }
}

// Reads the payload that a text spells, and gives it to the hub.
fn take<S: ActorStore>(hub: &mut Hub<S>, text: &[u8]) -> Answer<'static>
    ensures out { SameOut (hub_model S.meaning hub.old) (hub_model S.meaning hub.new) }
    ensures takes { Takes text.now (Some result) (hub_model S.meaning hub.old) (hub_model S.meaning hub.new) }
{
    let mut payload = [0; PAYLOAD_MOST];
    match hexadecimal::decode(text, &mut payload) {
        Ok(length) => match hub.take(&payload[..length]) {
            Ok((arrival, count)) => Answer::Granted(Told::Taken(arrival, count)),
            Err(fault) => Answer::Refused(fault),
        },
        Err(fault) => Answer::Refused(fault),
    }
}

// What the hub tells of a question of a script, if the call is one.
fn ask<S: ActorStore>(hub: &Hub<S>, call: &Call<'_>) -> Result<Option<Told<'static>>, Fault>
    ensures { asked result ≡ asks (said call.now) (hub_model S.meaning hub.now) }
{
    let told = match *call {
        Call::Marks { switch, actor } => Told::Mark(hub.actor_mark(switch, actor)?),
        Call::Word(switch) => Told::Mark(hub.control_mark(switch)?),
        Call::Flags(switch) => Told::Flags(hub.flags(switch)?),
        Call::Key(switch) => Told::Key(hub.latest_key(switch)?),
        Call::Reading(switch) => Told::Reading(hub.reading(switch)?),
        _ => return Ok(None),
    };
    Ok(Some(told))
}

// Makes a setting, takes what a switch sent, or asks a question. A hub is opened once.
pub(crate) fn apply<S: ActorStore>(hub: &mut Hub<S>, call: &Call<'_>) -> Answer<'static>
    ensures out { SameOut (hub_model S.meaning hub.old) (hub_model S.meaning hub.new) }
    ensures leaves { Plain (said call.now) → (slips : List SlipModel) → Leaves (said call.now) (Some result) slips (hub_model S.meaning hub.old) (hub_model S.meaning hub.new) }
{
    match *call {
        Call::Enrol { switch, ref actors } => done(hub.enrol(switch, actors.entries())),
        Call::Actual { actor, value } => done(hub.set_actual(actor, value)),
        Call::Target { actor, value } => done(hub.set_target(actor, value)),
        Call::Control { switch, word } => done(hub.set_control(switch, word)),
        Call::Take(text) => take(hub, text),
        _ => match ask(hub, call) {
            Ok(Some(told)) => Answer::Granted(told),
            Ok(None) => Answer::OpenAlready,
            Err(fault) => Answer::Refused(fault),
        },
    }
}
