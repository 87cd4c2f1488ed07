// One message on one row: its offset, its kind, its actor and what it says, in columns.
ghost use Rattle.std.specs.Prelude.{◌≡◌, Some};
ghost use Rattle.umpdump.specs.Shown.{actor_of, actor_text, message_text, name_of, row_text, value_text};

use crate::degrees::Degrees;
use hexadecimal::Digits;
use packet::{Message, Record};
use std::fmt;

fn kind_name(record: Record) -> &'static str
    ensures { result.now ≡ name_of «record» }
{
    match record {
        Record::State(_) => "State",
        Record::Control(_) => "Control",
        Record::EditValue { .. } => "EditValue",
        Record::RealValue { .. } => "RealValue",
        Record::Event { .. } => "Event",
        Record::Temperature(_) => "Temperature",
    }
}

// The actor that a message names, where it does not concern the switch as a whole.
fn actor_of(record: Record) -> Option<u16>
    ensures { result ≡ actor_of «record» }
{
    match record {
        Record::EditValue { actor, .. }
        | Record::RealValue { actor, .. }
        | Record::Event { actor, .. } => Some(actor),
        Record::State(_) | Record::Control(_) | Record::Temperature(_) => None,
    }
}

// What a record says, in its kind's own terms.
#[derive(Clone, Copy, PartialEq, Eq, Debug)]
struct Value(Record);

impl fmt::Display for Value {
    ghost output = { λ value. Some (value_text value.0) };

    fn fmt<W: fmt::Write>(&self, f: &mut fmt::Formatter<W>) -> fmt::Result {
        match self.0 {
            Record::State(flags) => {
                let bytes = flags.to_be_bytes();
                let asks = if kind::asks_init(flags) {
                    "  InitRequest"
                } else {
                    ""
                };
                write!(f, "flags {}{asks}", Digits(&bytes))
            }
            Record::Control(flags) => {
                let bytes = flags.to_be_bytes();
                write!(f, "flags {}", Digits(&bytes))
            }
            Record::EditValue { target, .. } => write!(f, "target {target}"),
            Record::RealValue { actual, .. } => write!(f, "actual {actual}"),
            Record::Event { key, .. } => write!(f, "key {key}"),
            Record::Temperature(Some(tenths)) => {
                let degrees = Degrees::of_tenths(tenths);
                write!(f, "{degrees} degrees")
            }
            Record::Temperature(None) => write!(f, "no reading"),
        }
    }
}

// The actor that a message concerns, in a column.
#[derive(Clone, Copy, PartialEq, Eq, Debug)]
struct Actor(Option<u16>);

impl fmt::Display for Actor {
    ghost output = { λ actor. Some (actor_text actor.0) };

    #[tactic(auto, using(crate::proofs::Columns::number_left))]
    fn fmt<W: fmt::Write>(&self, f: &mut fmt::Formatter<W>) -> fmt::Result {
        match self.0 {
            Some(actor) => write!(f, "actor {actor:<5}"),
            None => write!(f, "no actor   "),
        }
    }
}

// What follows the offset of a message.
#[derive(Clone, Copy, PartialEq, Eq, Debug)]
struct Columns(Message);

impl fmt::Display for Columns {
    ghost output = { λ columns. Some (message_text columns.0) };

    #[tactic(auto, using(crate::proofs::Columns::name_left))]
    fn fmt<W: fmt::Write>(&self, f: &mut fmt::Formatter<W>) -> fmt::Result {
        match self.0 {
            Message::Unknown(id) => write!(f, "passed over (ID 0x{})", Digits(&[id])),
            Message::Known(record) => {
                let kind = kind_name(record);
                let actor = Actor(actor_of(record));
                let value = Value(record);
                write!(f, "{kind:<11}  {actor}  {value}")
            }
        }
    }
}

/// A message and the offset of its first byte in the payload. It writes itself as one row, with no line feed behind it.
#[derive(Clone, Copy, PartialEq, Eq, Debug)]
pub struct Row {
    pub offset: usize,
    pub message: Message,
}

impl fmt::Display for Row {
    ghost output = { λ row. Some (row_text row) };

    #[tactic(auto, using(crate::proofs::Columns::number_right))]
    fn fmt<W: fmt::Write>(&self, f: &mut fmt::Formatter<W>) -> fmt::Result {
        let offset = self.offset;
        let columns = Columns(self.message);
        write!(f, "  {offset:>4}  {columns}")
    }
}
