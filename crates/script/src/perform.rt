// What a command does to the store.
ghost use Rattle.std.specs.Prelude.{◌≡◌, ◌≤◌, List, ℕ, length, take, get_or, replicate};
ghost use Rattle.cells.specs.Entry.{block_bytes};
ghost use Rattle.store.specs.CodeState.{state_of, answered, ended_as};
ghost use Rattle.store.specs.Put.{put_call};
ghost use Rattle.store.specs.Cut.{cut_call};
ghost use Rattle.journal.specs.Geometry.{trap};
ghost use Rattle.script.specs.Commands.{kept_bytes};
ghost use Rattle.script.specs.Replies as Replies;
ghost use Rattle.script.specs.Replies.{most_marks, got};
ghost use Rattle.script.specs.CodeSession.{reply_of};

use crate::KEPT;
use crate::command::Command;
use crate::number::value_of;
use cells::BLOCK;
use refusals::{Refusal, number};
use store::record::Record;
use store::saved::{Saved, Stopped};

// The answer to a line that is not understood.
// Stays a number, here and in `Done`: it is what the line prints.
const NOT_UNDERSTOOD: u32 = 11;

// Where the digits start in the line of a cut, and the most marks that they give.
const DIGITS_AT: usize = 4;

const MARKS: usize = BLOCK * (KEPT - DIGITS_AT);

// The answer, the third number and the record.
#[derive(Clone, Copy)]
pub(crate) struct Done {
    pub number: u32,
    pub third: u32,
    pub rec: Record,
}

impl Done {
    // A call that gives no orders. A refusal leaves the record.
    fn called(before: Record, said: Result<Record, Refusal>) -> Done
        ensures { (s w k : List ℕ) → reply_of result.number result.third result.rec s w k ≡ Replies.called (answered said before s w k) }
    {
        match said {
            Ok(rec) => Done {
                number: 0,
                third: 0,
                rec,
            },
            Err(refusal) => Done {
                number: refusal.into(),
                third: 0,
                rec: before,
            },
        }
    }

    // A call that hands back its orders.
    fn saved(before: Record, said: Result<Saved, Stopped>) -> Done
        ensures { (s w k : List ℕ) → reply_of result.number result.third result.rec s w k ≡ Replies.saved (ended_as said before s w k) }
    {
        match said {
            Ok(saved) => Done {
                number: 0,
                third: saved.orders,
                rec: saved.rec,
            },
            Err(Stopped::PowerLost(saved)) => Done {
                number: Refusal::Down.into(),
                third: saved.orders,
                rec: saved.rec,
            },
            Err(Stopped::Refused(refusal)) => Done {
                number: refusal.into(),
                third: 0,
                rec: before,
            },
        }
    }
}

// A line that is understood, or answered by 11.
pub(crate) fn perform(
    command: Command,
    line: &[u8],
    rec: Record,
    settled: &mut [u8],
    waiting: &mut [u8],
    work: &mut [u8],
) -> Done
    requires { length line.now ≤ kept_bytes }
    ensures { reply_of result.number result.third result.rec settled.new waiting.new work.new ≡ Replies.perform command line.now (state_of rec settled.old waiting.old work.old) }
{
    match command {
        Command::Format => Done::called(rec, rec.format(settled, waiting, work)),
        Command::Power(count) => Done::called(rec, rec.power(settled, waiting, work, count)),
        Command::Put(address, byte) => put(rec, settled, waiting, work, address, byte),
        Command::Get(address) => get(rec, settled, waiting, work, address),
        Command::Commit => Done::called(rec, rec.commit(settled, waiting, work)),
        Command::Abandon => Done::called(rec, rec.abandon(settled, waiting, work)),
        Command::Sync => Done::saved(rec, rec.sync(settled, waiting, work)),
        Command::Apply => Done::saved(rec, rec.apply(settled, waiting, work)),
        Command::Recover => Done::saved(rec, rec.recover(settled, waiting, work)),
        Command::Cut => cut(line, rec, settled, waiting, work),
        Command::Bad => Done {
            number: NOT_UNDERSTOOD,
            third: 0,
            rec,
        },
    }
}

// A put of a block filled with a byte.
fn put(rec: Record, settled: &[u8], waiting: &[u8], work: &mut [u8], address: u32, byte: u8) -> Done
    ensures { reply_of result.number result.third result.rec settled.now waiting.now work.new ≡ Replies.called (put_call trap address (replicate block_bytes byte) (state_of rec settled.now waiting.now work.old)) }
{
    let block = [byte; BLOCK];
    Done::called(rec, rec.put(settled, waiting, work, address, &block))
}

// A get, and the first byte that it hands out.
fn get<'a>(rec: Record, settled: &'a [u8], waiting: &'a [u8], work: &'a [u8], address: u32) -> Done
    ensures { reply_of result.number result.third result.rec settled.now waiting.now work.now ≡ got address (state_of rec settled.now waiting.now work.now) }
{
    let number = number(rec.check_get(settled, waiting, work, address));
    let third = first(rec.get(settled, waiting, work, address));
    Done { number, third, rec }
}

// The first byte, 0 where there is none.
fn first(s: &[u8]) -> u32
    ensures { result ≡ get_or s.now 0 0 }
{
    s.first().map_or(0, |&b| u32::from(b))
}

// A cut with the marks of its line.
fn cut(line: &[u8], rec: Record, settled: &mut [u8], waiting: &[u8], work: &[u8]) -> Done
    requires { length line.now ≤ kept_bytes }
    ensures { reply_of result.number result.third result.rec settled.new waiting.now work.now ≡ Replies.called (cut_call trap (Replies.marks line.now) (state_of rec settled.old waiting.now work.now)) }
{
    let mut marks = [0u8; MARKS];
    let count = read_marks(line, &mut marks);
    Done::called(rec, rec.cut(settled, waiting, work, &marks[..count]))
}

// For each digit behind the line's fourth byte 512 marks, its value each; how many marks there are.
fn read_marks(line: &[u8], marks: &mut [u8]) -> usize
    requires line_len_bound { length line.now ≤ kept_bytes }
    requires marks_len { length marks.old ≡ most_marks }
    ensures { (result ≤ most_marks) × (take result marks.new ≡ Replies.marks line.now) }
{
    let count = line.len().saturating_sub(DIGITS_AT);
    for i in 0..count {
        let at = BLOCK * i;
        marks[at..at + BLOCK].fill(value_of(line[i + DIGITS_AT]));
    }
    BLOCK * count
}
