// Actor stores: what every store means, and the table, the store in memory.
#![tactic(auto)]

mod actor_store;
mod table;
mod value;

pub use actor_store::{ActorStore, Half};
pub use table::Table;
pub use value::{check_value, is_forbidden};
