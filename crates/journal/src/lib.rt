// The checksummed write-ahead log on the card.
#![tactic(auto)]

pub mod append;
pub mod checkpoint;
pub mod choice;
pub mod fallback;
pub mod header;
pub mod log;
pub mod lookup;
pub mod size;
pub mod wanted;

// The geometry of the trap, as `trap` of specs/Geometry.antt has it: slots, descriptor blocks, direct writes that may wait in an open record,
// places of the queue.
pub const SLOTS: u32 = 32;

pub const DESCRIPTORS: u32 = 1;

pub const DIRECT: u32 = 32;

pub const PLACES: usize = 66;

// Block 0 is the header, block 1 the descriptor, then block by block the slots.
pub const HEADER_AT: u32 = 0;

pub const DESCRIPTOR_AT: u32 = 1;

pub const FIRST_SLOT: u32 = DESCRIPTOR_AT + DESCRIPTORS;

// Data blocks start behind the slots.
pub const FIRST_DATA: u32 = FIRST_SLOT + SLOTS;

// The bounds of N: at least one data block.
pub const LEAST: usize = FIRST_DATA as usize + 1;

pub const MOST: usize = 65536;
