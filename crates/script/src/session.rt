// The script byte by byte. What is kept of a line lies in a lent buffer, and its count goes by value: so the line is lent on as
// a part of that buffer, and no step copies it.
ghost use Rattle.std.specs.Prelude.{◌≡◌, ◌*◌, ◌≤◌, min, length, take};
ghost use Rattle.script.specs.Commands.{kept_bytes};
ghost use Rattle.script.specs.Answers.{answer_bytes};
ghost use Rattle.script.specs.Transcript.{beginning};
ghost use Rattle.script.specs.Steps as Steps;
ghost use Rattle.script.specs.Steps.{printed_bytes};
ghost use Rattle.script.specs.CodeSession.{session_of, step_of};

use crate::command::parse;
use crate::perform::{Done, perform};
use crate::text::{append, write_line};
use crate::{ANSWER, BLOCKS, FED, KEPT, PRINTED};
use card::queue::Queue;
use store::record::{CLOSED, Record};

// Stays counts beside lent buffers: there is no heap, and a buffer of its own would be copied at each step. The fields are public, so what they may hold is asked of each step.
// The record, how many bytes of a line are kept, and how many of the output's buffer are to be printed.
#[derive(Clone, Copy)]
pub struct Session {
    pub rec: Record,
    pub len: usize,
    pub print: usize,
}

impl Session {
    // Closed, all counts 0, the empty list's sum.
    pub fn new() -> Session
        ensures { (result.rec ≡ beginning.rec) × (result.len ≡ 0) × (result.print ≡ 0) }
    {
        let none = Queue {
            waiting: 0,
            power: 0,
        };
        let rec = Record::fresh(BLOCKS).with_mode(CLOSED).with_queue(none);
        Session {
            rec,
            len: 0,
            print: 0,
        }
    }

    // The first count bytes of input, in turn.
    pub fn feed(
        self,
        bytes: &[u8; FED],
        count: usize,
        line: &mut [u8; KEPT],
        settled: &mut [u8],
        waiting: &mut [u8],
        work: &mut [u8],
        printed: &mut [u8; PRINTED],
    ) -> Session
        ensures { (result.print ≤ printed_bytes) × (step_of result.print printed.new (session_of result.len line.new result.rec settled.new waiting.new work.new) ≡ Steps.fed (take count bytes.now) (session_of self.len line.old self.rec settled.old waiting.old work.old)) }
    {
        let end = count.min(FED);
        self.within()
            .run(bytes, end, line, settled, waiting, work, printed)
    }

    // The end of the input.
    pub fn finish(
        self,
        line: &[u8; KEPT],
        settled: &mut [u8],
        waiting: &mut [u8],
        work: &mut [u8],
        printed: &mut [u8; PRINTED],
    ) -> Session
        ensures { (result.print ≤ printed_bytes) × (step_of result.print printed.new (session_of result.len line.now result.rec settled.new waiting.new work.new) ≡ Steps.finish (session_of self.len line.now self.rec settled.old waiting.old work.old)) }
    {
        if self.len == 0 {
            return Session { print: 0, ..self };
        }
        self.within().answer(line, settled, waiting, work, printed)
    }

    // The count of the bytes kept is at most theirs.
    fn within(self) -> Session
        ensures { result ≡ record { rec = self.rec; len = min self.len kept_bytes; print = 0 } }
    {
        Session {
            len: self.len.min(KEPT),
            print: 0,
            ..self
        }
    }

    // The first count bytes, in turn, and what they print.
    fn run(
        self,
        bytes: &[u8],
        count: usize,
        line: &mut [u8],
        settled: &mut [u8],
        waiting: &mut [u8],
        work: &mut [u8],
        printed: &mut [u8],
    ) -> Session
        requires len_le_kept_bytes { (self.len ≤ kept_bytes) × (kept_bytes ≤ length line.old) }
        requires count_in_bounds { (count ≤ length bytes.now) × (answer_bytes * count ≤ length printed.old) }
        ensures { (result.print ≤ answer_bytes * count) × (step_of result.print printed.new (session_of result.len line.new result.rec settled.new waiting.new work.new) ≡ Steps.fed (take count bytes.now) (session_of self.len line.old self.rec settled.old waiting.old work.old)) }
    {
        let mut out = [0u8; ANSWER];
        let mut next = self;
        let mut at = 0;
        for &byte in &bytes[..count] {
            next = next.step(byte, line, settled, waiting, work, &mut out);
            at = append(printed, at, &out[..next.print]);
        }
        next.print = at;
        next
    }

    // One byte of input.
    fn step(
        self,
        byte: u8,
        line: &mut [u8],
        settled: &mut [u8],
        waiting: &mut [u8],
        work: &mut [u8],
        out: &mut [u8],
    ) -> Session
        requires len_le_kept_bytes { (self.len ≤ kept_bytes) × (kept_bytes ≤ length line.old) }
        requires answer_bytes_in_bounds { answer_bytes ≤ length out.old }
        ensures { (result.len ≤ kept_bytes) × (result.print ≤ answer_bytes) × (step_of result.print out.new (session_of result.len line.new result.rec settled.new waiting.new work.new) ≡ Steps.feed byte (session_of self.len line.old self.rec settled.old waiting.old work.old)) }
    {
        if byte == b'\n' {
            return self.answer(line, settled, waiting, work, out);
        }
        let len = keep(line, self.len, byte);
        Session {
            len,
            print: 0,
            ..self
        }
    }

    // Carries out the line that is kept, and keeps nothing.
    fn answer(
        self,
        line: &[u8],
        settled: &mut [u8],
        waiting: &mut [u8],
        work: &mut [u8],
        out: &mut [u8],
    ) -> Session
        requires len_le_kept_bytes { (self.len ≤ kept_bytes) × (kept_bytes ≤ length line.now) }
        requires answer_bytes_in_bounds { answer_bytes ≤ length out.old }
        ensures { (result.len ≡ 0) × (result.print ≤ answer_bytes) × (step_of result.print out.new (session_of result.len line.now result.rec settled.new waiting.new work.new) ≡ Steps.answer (session_of self.len line.now self.rec settled.old waiting.old work.old)) }
    {
        let len = self.len;
        let whole = &line[..len];
        let command = parse(whole);
        let Done { number, third, rec } = perform(command, whole, self.rec, settled, waiting, work);
        let print = write_line(out, command, number, third);
        Session { rec, len: 0, print }
    }
}

// One byte more of a line of which len are kept; how many are kept then.
fn keep(line: &mut [u8], len: usize, byte: u8) -> usize
    requires { (len ≤ kept_bytes) × (kept_bytes ≤ length line.old) }
    ensures { (result ≤ kept_bytes) × (take result line.new ≡ Steps.keep (take len line.old) byte) }
{
    if len == KEPT {
        return len;
    }
    line[len] = byte;
    len + 1
}
