// Sending, as a program does it: a packet is composed, and its slip is handed in.
use fault::Fault;
use hub::{Composed, Hub};
use store::ActorStore;

// A packet that was sent: its length in bytes, how many actors it carries, and its number.
#[derive(Clone, Copy, PartialEq, Eq, Debug)]
pub(crate) struct Sent {
    pub(crate) length: usize,
    pub(crate) actors: usize,
    pub(crate) number: u16,
}

pub(crate) fn send<S: ActorStore>(
    hub: &mut Hub<S>,
    id: u16,
    buf: &mut [u8],
) -> Result<Sent, Fault> {
    let Composed {
        length,
        actors,
        slip,
    } = hub.compose(id, buf)?;
    let number = slip.number();
    hub.sent(slip).unwrap();
    Ok(Sent {
        length,
        actors,
        number,
    })
}
