// format: an empty store on a card of any content, but for one that is in use.
ghost use Rattle.std.specs.Prelude.{◌≡◌, ◌<◌};
ghost use Rattle.cells.specs.Cell.{set_cell};
ghost use Rattle.cells.specs.Entry.{block_bytes};
ghost use Rattle.card.specs.Card.{blocks_in};
ghost use Rattle.journal.specs.Geometry.{trap};
ghost use Rattle.journal.specs.Layout.{header_at};
ghost use Rattle.journal.specs.Header.{encode, empty_header};
ghost use Rattle.store.specs.CodeState.{state_of, answered};
ghost use Rattle.store.specs.Format.{format_call};

use crate::own_rows::check_format;
use crate::record::Record;
use card::settled::{blocks_in, settle, wipe};
use cells::BLOCK;
use cells::bytes::zero;
use journal::HEADER_AT;
use journal::header::Header;
use refusals::Refusal;

impl Record {
    // format: zeros everywhere, an empty log's header, and a fresh record; refused for a card in use. What the old record holds plays no part.
    pub fn format(
        self,
        settled: &mut [u8],
        waiting: &mut [u8],
        work: &mut [u8],
    ) -> Result<Record, Refusal>
        ensures { answered result self settled.new waiting.new work.new ≡ format_call trap (state_of self settled.old waiting.old work.old) }
    {
        check_format(settled, waiting, work)?;
        let blocks = blocks_in(settled) as u32;
        wipe(settled, waiting);
        settle_header(settled, blocks);
        zero(work);
        Ok(Record::fresh(blocks))
    }
}

// Settles the header of an empty log before any save.
fn settle_header(settled: &mut [u8], blocks: u32)
    requires { header_at < blocks_in settled.old }
    ensures { settled.new ≡ set_cell block_bytes settled.old header_at (encode (empty_header blocks 0)) }
{
    let mut block = [0u8; BLOCK];
    Header::empty(blocks, 0).fill(&mut block);
    settle(settled, HEADER_AT, &block);
}
