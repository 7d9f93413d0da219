// The calls that no list holds: format, tally, alike.
ghost use Rattle.std.specs.Prelude.{◌≡◌};
ghost use Rattle.store.specs.Format.{format_call};
ghost use Rattle.inspect.specs.Tally.{tally_of};
ghost use Rattle.firmware.specs.Face.{face_of, faced, tallied, compared_of, compared};
ghost use Rattle.journal.specs.Geometry.{trap};

use firmware::calls::trapcard_format;
use firmware::reads::{trapcard_alike, trapcard_tally};

pub fn format(rec: &mut [u8], settled: &mut [u8], waiting: &mut [u8], work: &mut [u8]) -> u32
    ensures { face_of result 0 rec.new settled.new waiting.new work.new ≡ faced (format_call trap) rec.old settled.old waiting.old work.old }
{
    trapcard_format(rec, settled, waiting, work)
}

pub fn tally(settled: &[u8], sum: &mut u64) -> u32
    ensures { tallied result sum.new ≡ tally_of trap settled.now }
{
    trapcard_tally(settled, sum)
}

pub fn alike(a: &[u8], b: &[u8], yes: &mut u32) -> u32
    ensures { compared_of result yes.new ≡ compared trap a.now b.now }
{
    trapcard_alike(a, b, yes)
}
