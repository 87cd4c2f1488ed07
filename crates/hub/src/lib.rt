// The hub: the controller's end of the line, over any actor store.
#![tactic(auto)]

mod arrival;
mod composition;
mod enrolment;
mod hub;
mod questions;
mod refresh;
mod settings;
mod slip;

pub use composition::Composed;
pub use hub::Hub;
pub use slip::{Fate, Slip};
