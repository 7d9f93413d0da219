// Flat bytes seen as cells of one size, little-endian numbers, entries, and the copier.
#![tactic(auto)]

pub mod bytes;
pub mod entry;
pub mod number;

// The bytes of a block, of an address, and of an entry, which is an address and a block.
pub const BLOCK: usize = 512;

pub const ADDRESS: usize = 4;

pub const ENTRY: usize = ADDRESS + BLOCK;
