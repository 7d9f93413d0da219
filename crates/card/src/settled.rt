// The settled bytes: how many blocks they hold; a block read where it lies, or no bytes of them; and, without orders, a block settled, or
// its kept bytes, and all bytes wiped.
ghost use Rattle.std.specs.Prelude.{◌≡◌, ◌*◌, ◌<◌, length, replicate};
ghost use Rattle.cells.specs.Cell.{set_cell};
ghost use Rattle.cells.specs.Entry.{block_bytes};
ghost use Rattle.cells.specs.Part.{view_of, part_of};
ghost use Rattle.card.specs.Card.{blocks_in, block_at, torn};

use crate::marks::copy_kept;
use cells::BLOCK;
use cells::bytes::{copy, zero};

// The block at an address, where it lies.
pub fn read<'a>(settled: &'a [u8], address: u32) -> &'a [u8]
    requires { address < blocks_in settled.now }
    ensures { view_of result ≡ part_of settled.entry (block_bytes * address) block_bytes }
{
    let at = BLOCK * (address as usize);
    &settled[at..at + BLOCK]
}

// N: how many blocks the settled bytes hold.
pub fn blocks_in(settled: &[u8]) -> usize
    ensures { result ≡ blocks_in settled.now }
{
    settled.len() / BLOCK
}

// The part of no bytes at the front.
pub fn nothing<'a>(settled: &'a [u8]) -> &'a [u8]
    ensures { view_of result ≡ part_of settled.entry 0 0 }
{
    &settled[0..0]
}

// Settles one block, at no order: a part from the middle of the settled bytes is lent on to the copier.
pub fn settle(settled: &mut [u8], address: u32, block: &[u8])
    requires address_bound { address < blocks_in settled.old }
    requires block_len { length block.now ≡ block_bytes }
    ensures { settled.new ≡ set_cell block_bytes settled.old address block.now }
{
    let at = BLOCK * (address as usize);
    copy(&mut settled[at..at + BLOCK], block);
}

// Settles the bytes of a block whose mark is 1, at no order: the same part is lent on to the copier that takes marks.
// Stays beside `settle`: with the copier as a closure the contract would be longer than both bodies.
pub fn settle_kept(settled: &mut [u8], address: u32, block: &[u8], marks: &[u8])
    requires address_bound { address < blocks_in settled.old }
    requires block_len { (length block.now ≡ block_bytes) × (length marks.now ≡ block_bytes) }
    ensures { settled.new ≡ set_cell block_bytes settled.old address (torn marks.now block.now (block_at settled.old address)) }
{
    let at = BLOCK * (address as usize);
    copy_kept(&mut settled[at..at + BLOCK], block, marks);
}

// Makes all settled and all waiting bytes zero, at no order.
pub fn wipe(settled: &mut [u8], waiting: &mut [u8])
    ensures settled_after { settled.new ≡ replicate (length settled.old) 0 }
    ensures waiting_after { waiting.new ≡ replicate (length waiting.old) 0 }
{
    zero(settled);
    zero(waiting);
}
