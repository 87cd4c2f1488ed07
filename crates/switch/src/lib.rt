// One enrolled switch in memory, and switches in a row.
#![tactic(auto)]

mod items;
mod questions;
mod row;
mod switch;

pub use row::{find, touch_all};
pub use switch::{MOST_ACTORS, Switch};
