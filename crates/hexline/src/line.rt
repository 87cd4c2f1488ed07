// A line of text, heard by the hub as the payload that it spells.
ghost use Rattle.std.specs.Prelude.{◌≡◌, OnOk, Some};
ghost use Rattle.std.specs.Io.KnownBytes.{Appends};
ghost use Rattle.hexadecimal.specs.Lines.{lines_of};
ghost use Rattle.hub.specs.Memory.{hub_model};
ghost use Rattle.model.specs.Models.{answer_of, hub_after};
ghost use Rattle.hexline.specs.Lines.{after_lines, hear as hear_step, heard_lines, heard_text};

use fault::Fault;
use hexadecimal::Lines;
use hub::Hub;
use model::Arrival;
use packet::PAYLOAD_MOST;
use std::io::Write;
use std::{fmt, io};
use store::ActorStore;

/// What a line is answered with: what its payload was and how many of its messages were understood, or why it was
/// refused.
#[derive(Drop)]
pub struct Heard(pub Result<(Arrival, usize), Fault>);

impl fmt::Display for Heard {
    ghost output = { λ heard. Some (heard_text heard.0) };

    fn fmt<W: fmt::Write>(&self, f: &mut fmt::Formatter<W>) -> fmt::Result {
        match self.0 {
            Ok((arrival, count)) => write!(f, "{arrival} {count}"),
            Err(fault) => write!(f, "refused {fault}"),
        }
    }
}

/// Reads the payload that a line spells, and gives it to the hub. A line that spells none is refused as
/// `hexadecimal::decode` refuses it, and a payload as `Hub::take` does; a refusal leaves the hub as it was.
pub fn hear<S: ActorStore>(hub: &mut Hub<S>, line: &[u8]) -> Result<(Arrival, usize), Fault>
    ensures answer { result ≡ answer_of (hear_step (hub_model S.meaning hub.old) line.now) }
    ensures after { hub_model S.meaning hub.new ≡ hub_after (hub_model S.meaning hub.old) (hear_step (hub_model S.meaning hub.old) line.now) }
{
    let mut payload = [0; PAYLOAD_MOST];
    let length = hexadecimal::decode(line, &mut payload)?;
    hub.take(&payload[..length])
}

/// Gives every line of a text to the hub, in order, and writes what each is answered with, on a line of its own, before
/// the next is heard.
pub fn hear_all<S: ActorStore, W: Write>(
    hub: &mut Hub<S>,
    text: &[u8],
    out: &mut W,
) -> io::Result<()>
    ensures told { OnOk result (Appends (W.contents out.old) (W.contents out.new) (heard_lines (hub_model S.meaning hub.old) (lines_of text.now))) }
    ensures after { OnOk result (hub_model S.meaning hub.new ≡ after_lines (hub_model S.meaning hub.old) (lines_of text.now)) }
{
    for line in Lines::new(text) {
        let heard = Heard(hear(hub, line));
        writeln!(out, "{heard}")?;
    }
    Ok(())
}
