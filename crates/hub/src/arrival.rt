// Taking a payload: one pass that checks all of it, then one that applies it, where it lies.
ghost use Rattle.std.specs.Prelude.{◌≡◌, ◌^◌, ◌<◌, ◌≤◌, true, length, is_ok, OnSome};
ghost use Rattle.packet.specs.Reading.{count_of, messages_from};
ghost use Rattle.model.specs.Models.{answer_of, hub_after};
ghost use Rattle.model.specs.Taking.{event_unless, heard_message, message_listed, take_payload};
ghost use Rattle.hub.specs.Memory.{hub_model};
ghost use Rattle.hub.specs.Surveys.{Heard, heard_all, noted, survey_of};

use crate::hub::Hub;
use fault::{ActorFault, Fault, FrameFault};
use model::Arrival;
use packet::{Cursor, Descriptor, Message, Record, Sort};
use store::{ActorStore, Half};
use switch::Switch;

// What the checking pass found: how many messages are understood, and where the first stands that is for an actor not listed.
#[derive(Clone, Copy, PartialEq, Eq, Debug, Default)]
pub(crate) struct Survey {
    pub(crate) understood: usize,
    pub(crate) unlisted: Option<usize>,
}

// Whether the switch may send this message.
fn is_listed(switch: &Switch, message: Message) -> bool
    ensures { result ≡ message_listed switch.now.items message }
{
    match message {
        Message::Known(Record::EditValue { actor, .. } | Record::Event { actor, .. }) => {
            switch.lists(actor)
        }
        _ => true,
    }
}

impl Survey {
    // One message more.
    fn note(&mut self, switch: &Switch, place: usize, message: Message)
        requires { self.old.understood < 2 ^ 63 }
        ensures { self.new ≡ noted switch.now.items place message self.old }
    {
        if self.unlisted.is_none() && !is_listed(switch, message) {
            self.unlisted = Some(place);
        }
        if message.is_known() {
            self.understood += 1;
        }
    }
}

// The checking pass: every message must read.
fn check_messages(switch: &Switch, payload: &[u8]) -> Result<Survey, Fault>
    requires { length payload.now ≤ 1472 }
    ensures { result ≡ survey_of switch.now.items (messages_from payload.now 16) }
{
    let mut cursor = Cursor::new(payload);
    let mut survey = Survey::default();
    while let Some((place, message)) = cursor.next()? {
        survey.note(switch, place, message);
    }
    Ok(survey)
}

// How many messages of an answer are understood: every one must read, and which actors they name is not looked at.
// By a cursor, since calls of `Packet::read` go as deep as there are messages.
fn count_messages(payload: &[u8]) -> Result<usize, Fault>
    requires { length payload.now ≤ 1472 }
    ensures { result ≡ count_of (messages_from payload.now 16) }
{
    let mut cursor = Cursor::new(payload);
    // counts messages, and no index
    let mut understood = 0;
    while let Some((_, message)) = cursor.next()? {
        if message.is_known() {
            understood += 1;
        }
    }
    Ok(understood)
}

// The next message of a payload whose messages all read.
fn next_message(cursor: &mut Cursor<'_>) -> Option<Message>
    requires { is_ok (messages_from cursor.old.payload cursor.old.place) ≡ true }
    ensures payload { cursor.new.payload ≡ cursor.old.payload }
    ensures moves { OnSome result (cursor.old.place < cursor.new.place) }
    ensures within { OnSome result (cursor.new.place ≤ length cursor.old.payload) }
    ensures walked { Heard cursor.old.payload cursor.old.place cursor.new.place result }
{
    let (_, message) = cursor.next().unwrap()?;
    Some(message)
}

impl<S: ActorStore> Hub<S> {
    // What one message of an event does.
    fn hear(&mut self, id: u16, message: Message)
        ensures { hub_model S.meaning self.new ≡ heard_message id message (hub_model S.meaning self.old) }
    {
        let Message::Known(record) = message else {
            return;
        };
        match record {
            Record::State(flags) => self.change(id, |switch| switch.tell_state(flags)),
            Record::EditValue { actor, target } => {
                let _ = self.set_value(actor, Half::Target, target);
            }
            Record::Event { actor, key } => {
                self.change(id, |switch| switch.press_key(actor, key))
            }
            Record::Temperature(reading) => {
                self.change(id, |switch| switch.tell_reading(reading))
            }
            Record::Control(_) | Record::RealValue { .. } => {}
        }
    }

    // The applying pass, over a payload whose messages all read.
    fn hear_all(&mut self, id: u16, payload: &[u8])
        requires { is_ok (messages_from payload.now 16) ≡ true }
        ensures { hub_model S.meaning self.new ≡ heard_all id (messages_from payload.now 16) (hub_model S.meaning self.old) }
    {
        let mut cursor = Cursor::new(payload);
        while let Some(message) = next_message(&mut cursor) {
            self.hear(id, message);
        }
    }

    // An event, every message of which was checked: nothing of it is applied if one is for an actor not listed.
    fn take_event(
        &mut self,
        id: u16,
        payload: &[u8],
        survey: Survey,
    ) -> Result<(Arrival, usize), Fault>
        requires { is_ok (messages_from payload.now 16) ≡ true }
        ensures answer { result ≡ answer_of (event_unless survey.unlisted survey.understood (heard_all id (messages_from payload.now 16) (hub_model S.meaning self.old))) }
        ensures after { hub_model S.meaning self.new ≡ hub_after (hub_model S.meaning self.old) (event_unless survey.unlisted survey.understood (heard_all id (messages_from payload.now 16) (hub_model S.meaning self.old))) }
    {
        if let Some(place) = survey.unlisted {
            return Err(Fault::Actor(ActorFault::NotListed, place));
        }
        self.hear_all(id, payload);
        Ok((Arrival::Event, survey.understood))
    }

    /// Takes a payload from a switch, and tells what it was and how many of its messages are understood. An event is applied
    /// whole, in message order. Of answers only the awaited one settles what is under way, and no value that one repeats is
    /// stored.
    ///
    /// Refusals, in this order: 1 to 4 for the descriptor, 5, at place 8, for another project, 6, at place 12, for a switch
    /// that is not enrolled, 7 to 9 for the first message that does not read, and for an event 10 at the first message for an
    /// actor that the switch does not list. A refused payload changes nothing.
    pub fn take(&mut self, payload: &[u8]) -> Result<(Arrival, usize), Fault>
        ensures answer { result ≡ answer_of (take_payload (hub_model S.meaning self.old) payload.now) }
        ensures after { hub_model S.meaning self.new ≡ hub_after (hub_model S.meaning self.old) (take_payload (hub_model S.meaning self.old) payload.now) }
    {
        let words = Descriptor::read(payload)?;
        if words.project != self.site.words().project {
            return Err(Fault::Frame(FrameFault::Project, 8));
        }
        let switch = self
            .find(words.switch)
            .ok_or(Fault::Frame(FrameFault::Switch, 12))?;
        match words.sort() {
            Sort::Event => {
                let survey = check_messages(switch, payload)?;
                self.take_event(words.switch, payload, survey)
            }
            Sort::Answer(number) => {
                let understood = count_messages(payload)?;
                if switch.numbers().awaited != Some(number) {
                    return Ok((Arrival::Stale, understood));
                }
                self.change(words.switch, |switch| switch.answer());
                Ok((Arrival::Answer, understood))
            }
        }
    }
}
