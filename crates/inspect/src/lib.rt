// Reading a card by its settled bytes alone, the log chosen as recover does: the sum of its data bytes, and whether two are alike.
#![tactic(auto)]

pub mod alike;
mod reading;
pub mod tally;
