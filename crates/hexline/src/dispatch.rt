// What a switch is told: the packet that is composed for it, and handed in as sent.
ghost use Rattle.std.specs.Prelude.{◌≡◌, OnOk};
ghost use Rattle.std.specs.Io.KnownBytes.{Appends};
ghost use Rattle.hub.specs.Memory.{hub_model};
ghost use Rattle.hexline.specs.Dispatch.{told, told_text};

use hexadecimal::Digits;
use hub::{Composed, Hub};
use packet::PAYLOAD_MOST;
use std::io;
use std::io::Write;
use store::ActorStore;

/// Composes for a switch, and writes the packet in upper-case digits on a line of its own, or why there is none. The
/// packet's slip is handed in as sent, whether or not it could be written.
pub fn tell<S: ActorStore, W: Write>(hub: &mut Hub<S>, switch: u16, out: &mut W) -> io::Result<()>
    ensures text { OnOk result (Appends (W.contents out.old) (W.contents out.new) (told_text (hub_model S.meaning hub.old) switch)) }
    ensures after { hub_model S.meaning hub.new ≡ told (hub_model S.meaning hub.old) switch }
{
    let mut buf = [0; PAYLOAD_MOST];
    match hub.compose(switch, &mut buf) {
        Ok(
            Composed {
                length,
                actors: _,
                slip,
            },
        ) => {
            let written = writeln!(out, "{}", Digits(&buf[..length]));
            hub.sent(slip).unwrap();
            written
        }
        Err(fault) => writeln!(out, "refused {fault}"),
    }
}
