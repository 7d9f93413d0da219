// The size of a card.
ghost use Rattle.std.specs.Prelude.{◌≡◌};
ghost use Rattle.journal.specs.Geometry.{trap};
ghost use Rattle.journal.specs.Layout.{wrong_size};

use crate::{LEAST, MOST};
use card::settled::blocks_in;
use cells::BLOCK;

// Whether the settled bytes are no whole blocks, too few or too many.
pub fn wrong_size(settled: &[u8]) -> bool
    ensures { result ≡ wrong_size trap settled.now }
{
    let blocks = blocks_in(settled);
    settled.len() % BLOCK != 0 || blocks < LEAST || MOST < blocks
}
