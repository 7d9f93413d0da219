// Transactions with group commit over the journal.
#![tactic(auto)]

pub mod abandon;
pub mod apply;
mod check;
pub mod commit;
pub mod cost;
pub mod cut;
pub mod direct;
pub mod format;
pub mod get;
pub mod get_list;
mod lists;
mod own_rows;
pub mod place;
pub mod power;
pub mod put;
pub mod record;
pub mod recover;
pub mod saved;
pub mod sync;

use cells::ENTRY;
use journal::{PLACES, SLOTS};

// Stays three arguments, settled, waiting, work: each call lends them as it needs, to be read or to be written, and so says by their types what it leaves alone.

// The lengths of the waiting bytes and of work memory: 32 open entries, then 32 group entries.
pub const WAITING: usize = ENTRY * PLACES;

pub const WORK: usize = ENTRY * (SLOTS + SLOTS) as usize;
