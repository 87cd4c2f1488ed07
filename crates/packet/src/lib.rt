// Payloads: the descriptor, the messages behind it, and drafts of packets to be sent.
#![tactic(auto)]

mod cursor;
mod descriptor;
mod draft;
mod message;
mod packet;
mod sort;

pub use cursor::Cursor;
pub use descriptor::{DESCRIPTOR_LEN, Descriptor, FRAME_ID, MAJOR_VERSION, PAYLOAD_MOST};
pub use draft::{Closed, Draft};
pub use message::{Message, Record};
pub use packet::Packet;
pub use sort::Sort;
