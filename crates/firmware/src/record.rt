// The record as lent bytes.
ghost use Rattle.std.specs.Prelude.{◌≡◌, ◌≢◌, MatchResult, length};
ghost use Rattle.refusals.specs.declared.Refusal.TheVariants.{Size};
ghost use Rattle.firmware.specs.Face.{record_bytes, decode_record, encode_record};

use cells::number::{read_u32, read_u64, write_u32, write_u64};
use refusals::Refusal;
use store::record::Record;

// Its length.
const RECORD: usize = 44;

// Stays by hand, as `encode` does: the record's form as bytes is C's.
// The record that the bytes stand for. Another length is refused.
pub(crate) fn decode(bytes: &[u8]) -> Result<Record, Refusal>
    ensures { MatchResult result (λ r. (length bytes.now ≡ record_bytes) × (r ≡ decode_record bytes.now)) (λ e. (length bytes.now ≢ record_bytes) × (e ≡ Size)) }
{
    if bytes.len() != RECORD {
        return Err(Refusal::Size);
    }
    Ok(Record {
        mode: read_u32(bytes, 0),
        blocks: read_u32(bytes, 4),
        opened: read_u32(bytes, 8),
        grouped: read_u32(bytes, 12),
        logged: read_u32(bytes, 16),
        waiting: read_u32(bytes, 20),
        power: read_u32(bytes, 24),
        sum: read_u64(bytes, 28),
        save: read_u64(bytes, 36),
    })
}

// Stores the record.
pub(crate) fn encode(bytes: &mut [u8], r: Record)
    requires { length bytes.old ≡ record_bytes }
    ensures { bytes.new ≡ encode_record r }
{
    write_u32(bytes, 0, r.mode);
    write_u32(bytes, 4, r.blocks);
    write_u32(bytes, 8, r.opened);
    write_u32(bytes, 12, r.grouped);
    write_u32(bytes, 16, r.logged);
    write_u32(bytes, 20, r.waiting);
    write_u32(bytes, 24, r.power);
    write_u64(bytes, 28, r.sum);
    write_u64(bytes, 36, r.save);
}
