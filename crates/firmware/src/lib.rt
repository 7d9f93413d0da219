// The store for C: the record as 44 lent bytes, a number for each call. `firmware_c` exports these functions, and include/trapcard.h
// declares them.
#![tactic(auto)]

pub mod calls;
pub mod costs;
pub mod orders;
pub mod reads;
mod record;
mod told;
