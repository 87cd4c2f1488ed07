// The ControlBlock image: an actor store that keeps its values where the block has them.
#![tactic(auto)]

mod image;
mod layout;

pub use image::Image;
