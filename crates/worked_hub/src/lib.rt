// Worked examples of the hub: every expected value follows from the protocol by hand.
#![tactic(auto)]

#[cfg(test)]
mod crossing;
#[cfg(test)]
mod enrolment;
#[cfg(test)]
mod house;
#[cfg(test)]
mod payloads;
#[cfg(test)]
mod questions;
mod sent;
#[cfg(test)]
mod settings;
