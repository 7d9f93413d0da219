// Reads a script from standard input and prints its transcript.
#![tactic(auto)]

mod output;
mod sizes;
mod turn;

ghost use Rattle.std.specs.Prelude.{◌≡◌, true, List, ℕ, take, is_ok, IsOk, IsErrOf, IfErr, OnOk};
ghost use Rattle.script.specs.Steps.{fresh, fed, finish};
ghost use Rattle.script.specs.CodeSession.{session_of};
ghost use Rattle.trapcard.specs.Turns.{output, got, interrupted, goes_on, at_end, Stops};

use crate::output::{STDOUT_FILENO, Sent, send};
use crate::sizes::{SETTLED, WAITING, WORK};
use crate::turn::{MOST_READS, Received, Turn, take_turn};
use script::session::Session;
use script::{FED, KEPT, PRINTED};
use std::io;

// Reads until the input ends or something fails. What has been fed is some input, from the first byte on.
fn read_all(
    rt: &(impl Input + Print),
    session: Session,
    bytes: &mut [u8; FED],
    line: &mut [u8; KEPT],
    settled: &mut [u8; SETTLED],
    waiting: &mut [u8; WAITING],
    work: &mut [u8; WORK],
    printed: &mut [u8; PRINTED],
) -> Turn
    ensures stops { Stops result.more result.reads × (result.more ≡ goes_on (is_ok result.sent.said) (got result.received.said) (interrupted result.received.said)) × ((all : List ℕ) × (session_of result.session.len line.new result.session.rec settled.new waiting.new work.new ≡ (fed all (session_of session.len line.old session.rec settled.old waiting.old work.old)).next)) }
{
    let mut last = take_turn(rt, session, 0, bytes, line, settled, waiting, work, printed);
    for reads in 1..MOST_READS {
        if !last.more {
            return last;
        }
        last = take_turn(
            rt,
            last.session,
            reads,
            bytes,
            line,
            settled,
            waiting,
            work,
            printed,
        );
    }
    last
}

// The end of the input: what a last line prints that lacks its LF.
fn close(
    rt: &impl Print,
    session: Session,
    line: &[u8; KEPT],
    settled: &mut [u8; SETTLED],
    waiting: &mut [u8; WAITING],
    work: &mut [u8; WORK],
    printed: &mut [u8; PRINTED],
) -> Sent
    ensures sent { (result.to ≡ output) × (take result.count printed.new ≡ (finish (session_of session.len line.now session.rec settled.old waiting.old work.old)).print) }
{
    let last = session.finish(line, settled, waiting, work, printed);
    send(rt, STDOUT_FILENO, printed, last.print)
}

// The last turn, and the write of what a last line printed, or of the last turn where the input did not end.
#[derive(Clone, Copy)]
struct Ending {
    last: Turn,
    sent: Sent,
}

// Whether the input ended, with all written.
fn at_end(sent: Sent, received: Received) -> bool
    ensures { result ≡ at_end (is_ok sent.said) (got received.said) }
{
    sent.said.is_ok() && matches!(received.said, Ok(0))
}

// The whole input, from the card as it is at the beginning.
fn run(
    rt: &(impl Input + Print),
    session: Session,
    bytes: &mut [u8; FED],
    line: &mut [u8; KEPT],
    settled: &mut [u8; SETTLED],
    waiting: &mut [u8; WAITING],
    work: &mut [u8; WORK],
    printed: &mut [u8; PRINTED],
) -> Ending
    requires { session_of session.len line.old session.rec settled.old waiting.old work.old ≡ fresh }
    ensures stops { Stops result.last.more result.last.reads × (result.last.more ≡ goes_on (is_ok result.last.sent.said) (got result.last.received.said) (interrupted result.last.received.said)) × ((all : List ℕ) × (at_end (is_ok result.last.sent.said) (got result.last.received.said) ≡ true → (result.sent.to ≡ output) × (take result.sent.count printed.new ≡ (finish (fed all fresh).next).print))) }
{
    let last = read_all(rt, session, bytes, line, settled, waiting, work, printed);
    let sent = last.sent;
    let received = last.received;
    if !at_end(sent, received) {
        return Ending { last, sent };
    }
    let sent = close(rt, last.session, line, settled, waiting, work, printed);
    Ending { last, sent }
}

// What ended the run before the end of its input: a write or a read that failed.
#[derive(Debug, Drop)]
enum Failure {
    StandardOutput(io::Error),
    StandardInput(io::Error),
}

fn report(ending: Ending) -> Result<(), Failure>
    ensures written { IfErr ending.sent.said (λ e. IsErrOf result (Failure.StandardOutput e)) }
    ensures read { OnOk ending.sent.said (IfErr ending.last.received.said (λ e. IsErrOf result (Failure.StandardInput e))) }
    ensures none { OnOk ending.sent.said (OnOk ending.last.received.said (IsOk result)) }
{
    ending.sent.said.map_err(Failure::StandardOutput)?;
    ending.last.received.said.map_err(Failure::StandardInput)?;
    Ok(())
}

fn main(rt: HostRuntime) -> Result<(), Failure> {
    let mut bytes = [0u8; FED];
    let mut line = [0u8; KEPT];
    let mut settled = [0u8; SETTLED];
    let mut waiting = [0u8; WAITING];
    let mut work = [0u8; WORK];
    let mut printed = [0u8; PRINTED];
    report(run(
        &rt,
        Session::new(),
        &mut bytes,
        &mut line,
        &mut settled,
        &mut waiting,
        &mut work,
        &mut printed,
    ))
}
