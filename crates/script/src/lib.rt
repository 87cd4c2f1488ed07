// Scripts for a hub: one call a line.
#![tactic(auto)]

mod actors;
mod call;
mod line;
mod number;
mod part;
mod place;
mod reason;
mod text;
mod verb;
mod word;

pub use actors::Actors;
pub use call::{Call, Store};
pub use line::{COMMENT, Line, read};
pub use place::Place;
pub use reason::Reason;
pub use text::Text;
pub use verb::Verb;
