// The choice of recovery, and of whoever reads a card as recover does.
ghost use Rattle.std.specs.Prelude.{◌≡◌, ◌<◌};
ghost use Rattle.card.specs.Card.{blocks_in};
ghost use Rattle.journal.specs.Geometry.{trap};
ghost use Rattle.journal.specs.Layout.{header_at, first_data};
ghost use Rattle.journal.specs.Log.{header_of};
ghost use Rattle.journal.specs.Choice as Spec;

use crate::header::{FORMAT, Header};
use crate::log::good;
use crate::{HEADER_AT, SLOTS};
use card::settled::read;

// The list that a recovery takes: its count, its sum and its save number.
// Stays an enum of four: `choose` and `choice_number`, and the statement that a fallback's header has a number, speak of these cases.
#[derive(Clone, Copy, PartialEq, Eq, Debug)]
pub enum Choice {
    Whole(u32, u64, u64),
    Fallback(u32, u64, u64),
    Foreign,
    Neither,
}

// Whether a header is of another format or another card, its counts are out of bounds, or it lacks the save number of a save.
pub fn is_foreign(h: Header, blocks: u32) -> bool
    ensures { result ≡ Spec.foreign trap blocks h }
{
    h.format != FORMAT
        || h.blocks != blocks
        || SLOTS < h.count
        || h.count < h.previous
        || unnumbered(h)
}

// Whether a header has save number 0 and unlike counts or sums.
fn unnumbered(h: Header) -> bool
    ensures { result ≡ Spec.unnumbered h }
{
    h.save == 0 && (h.previous != h.count || h.presum != h.sum)
}

// The header of a card.
fn header_of(settled: &[u8]) -> Header
    requires { header_at < blocks_in settled.now }
    ensures { result ≡ header_of settled.now }
{
    Header::read(read(settled, HEADER_AT))
}

// The first n entries if they are good, else the first p if they are, one save before. Each list is checked whole before it is taken.
pub fn choose(settled: &[u8], blocks: u32) -> Choice
    requires { first_data trap < blocks_in settled.now }
    ensures { result ≡ Spec.choose trap blocks settled.now }
{
    let h = header_of(settled);
    if is_foreign(h, blocks) {
        return Choice::Foreign;
    }
    if good(settled, blocks, h.count, h.sum) {
        return Choice::Whole(h.count, h.sum, h.save);
    }
    if good(settled, blocks, h.previous, h.presum) {
        let save = h.save - 1;
        return Choice::Fallback(h.previous, h.presum, save);
    }
    Choice::Neither
}

// Whether a card is in use: its header is not foreign and has a count above 0, be a list good or not.
pub fn in_use(settled: &[u8], blocks: u32) -> bool
    requires { header_at < blocks_in settled.now }
    ensures { result ≡ Spec.in_use trap blocks settled.now }
{
    let head = header_of(settled);
    !is_foreign(head, blocks) && 0 < head.count
}
