// A turn: one read, the bytes fed, and one write of what they print.
ghost use Rattle.std.specs.Prelude.{◌≡◌, ◌+◌, ◌<◌, take, is_ok, OnOk};
ghost use Rattle.std.specs.Io.{ReadsAtMost};
ghost use Rattle.std.specs.Result.{result_unwrap_or};
ghost use Rattle.io.specs.Counts.{clamp_len};
ghost use Rattle.script.specs.Steps.{fed_bytes, fed};
ghost use Rattle.script.specs.CodeSession.{session_of, step_of};
ghost use Rattle.trapcard.specs.Turns.{input, output, got, interrupted, goes_on, most_reads};

use crate::output::{STDOUT_FILENO, Sent, send};
use crate::sizes::{SETTLED, WAITING, WORK};
use script::session::Session;
use script::{FED, KEPT, PRINTED};
use std::io;
use std::io::{ErrorKind, Read};

// The descriptor of standard input.
const STDIN_FILENO: i32 = 0;

// The reads of a run, at the most: a run has to end, and nothing says that its input does.
pub(crate) const MOST_READS: u64 = u64::MAX;

// What a read from a descriptor answered: how many bytes it put in front of the buffer, or the error.
#[derive(Clone, Copy)]
pub(crate) struct Received {
    pub from: i32,
    pub said: io::Result<usize>,
}

// The session then, the read, the write, whether there is to be another turn, and the reads so far.
#[derive(Clone, Copy)]
pub(crate) struct Turn {
    pub session: Session,
    pub received: Received,
    pub sent: Sent,
    pub more: bool,
    pub reads: u64,
}

// The one read of the program.
fn receive(rt: &impl Input, from: i32, bytes: &mut [u8; FED]) -> Received
    ensures received { (result.from ≡ from) × (result_unwrap_or result.said 0 ≡ clamp_len (got result.said) fed_bytes) }
{
    Received {
        from,
        said: read(rt, from, bytes),
    }
}

// The runtime reads standard input alone: from another descriptor nothing is read, and that is an error.
fn read(rt: &impl Input, from: i32, bytes: &mut [u8]) -> io::Result<usize>
    ensures bound { ReadsAtMost result bytes.new }
    ensures place { OnOk result (from ≡ input) }
{
    if from != STDIN_FILENO {
        return Err(io::Error::from(ErrorKind::Unsupported));
    }
    let mut reader = rt.reader();
    reader.read(bytes)
}

// Whether there is to be another turn.
fn goes_on(sent: Sent, received: Received) -> bool
    ensures { result ≡ goes_on (is_ok sent.said) (got received.said) (interrupted received.said) }
{
    sent.said.is_ok()
        && match received.said {
            Ok(n) => 0 < n,
            Err(e) => matches!(e.kind(), ErrorKind::Interrupted),
        }
}

pub(crate) fn take_turn(
    rt: &(impl Input + Print),
    session: Session,
    reads: u64,
    bytes: &mut [u8; FED],
    line: &mut [u8; KEPT],
    settled: &mut [u8; SETTLED],
    waiting: &mut [u8; WAITING],
    work: &mut [u8; WORK],
    printed: &mut [u8; PRINTED],
) -> Turn
    requires { reads < most_reads }
    ensures turn { (result.reads ≡ reads + 1) × (result.more ≡ goes_on (is_ok result.sent.said) (got result.received.said) (interrupted result.received.said)) × (result.received.from ≡ input) × (result.sent.to ≡ output) × (step_of result.sent.count printed.new (session_of result.session.len line.new result.session.rec settled.new waiting.new work.new) ≡ fed (take (clamp_len (got result.received.said) fed_bytes) bytes.new) (session_of session.len line.old session.rec settled.old waiting.old work.old)) }
{
    let received = receive(rt, STDIN_FILENO, bytes);
    let count = received.said.unwrap_or(0);
    let next = session.feed(bytes, count, line, settled, waiting, work, printed);
    let sent = send(rt, STDOUT_FILENO, printed, next.print);
    let more = goes_on(sent, received);
    Turn {
        session: next,
        received,
        sent,
        more,
        reads: reads + 1,
    }
}
