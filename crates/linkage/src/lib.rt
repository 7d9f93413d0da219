// Every call made through the functions of `firmware` alone, which `firmware_c` exports to C, and held to the definitions that the theorems of
// history speak of.
#![tactic(auto)]

pub mod apart;
pub mod ask;
pub mod step;
