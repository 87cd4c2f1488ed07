// What the hub keeps of a switch, and how an item's mark moves; the definitions of all the hub's steps stand in specs/.
#![tactic(auto)]

mod item;
mod mark;
mod told;

pub use item::Item;
pub use mark::{Change, Mark};
pub use told::{Arrival, KeyPress, Numbers, Report, Site};
