// The log's last slot with an address.
ghost use Rattle.std.specs.Prelude.{◌≡◌, ◌≤◌, ◌<◌};
ghost use Rattle.card.specs.Card.{blocks_in};
ghost use Rattle.journal.specs.Geometry.{trap};
ghost use Rattle.journal.specs.Layout.{first_data};
ghost use Rattle.journal.specs.Lookup.{last_slot};

use crate::log::slot_address;

// Stays a `for`: `rev().find(..)` was tried, and the check found no proof of it here.
// The last of the first n slots whose address is a.
pub fn last_slot(settled: &[u8], a: u32, n: u32) -> Option<u32>
    requires trap_bound { first_data trap < blocks_in settled.now }
    requires n_le_slots { n ≤ trap.slots }
    ensures { result ≡ last_slot settled.now a n }
{
    for i in (0..n).rev() {
        if slot_address(settled, i) == a {
            return Some(i);
        }
    }
    None
}
