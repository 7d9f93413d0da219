// The buffers of the program: a card of its blocks, the waiting writes and work memory.
use cells::BLOCK;
use script::BLOCKS;

pub(crate) const SETTLED: usize = BLOCK * BLOCKS as usize;

pub(crate) const WAITING: usize = store::WAITING;

pub(crate) const WORK: usize = store::WORK;
