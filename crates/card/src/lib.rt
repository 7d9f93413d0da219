// A block device with a write queue: settled bytes and waiting writes in two lent buffers, counts by value.
#![tactic(auto)]

pub mod marks;
pub mod queue;
pub mod settled;
