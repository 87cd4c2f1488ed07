// Worked examples of the actor stores: every expected value follows from the protocol by hand.
#![tactic(auto)]

#[cfg(test)]
mod images;
mod read_back;
#[cfg(test)]
mod refusals;
#[cfg(test)]
mod stores;
#[cfg(test)]
mod tables;
