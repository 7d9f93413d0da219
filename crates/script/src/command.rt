// What a line says: a word and its fields.
ghost use Rattle.std.specs.Prelude.{◌≡◌, ◌∷◌, unwrap_or};
ghost use Rattle.script.specs.Fields.{fields};
ghost use Rattle.script.specs.Numbers.{most4_bytes, most1_byte, number_of};
ghost use Rattle.script.specs.Commands as Commands;

use crate::field::split_once;
use crate::number::{is_marks, to_number};
use crate::{LINE, words};

// The most that a byte holds.
const MOST_BYTE: u32 = u8::MAX as u32;

// A cut's digits stay in the line, behind its word and a tab. The type is public for proofs above: no public function has it.
#[derive(Clone, Copy)]
pub enum Command {
    Format,
    Power(u32),
    Put(u32, u8),
    Get(u32),
    Commit,
    Abandon,
    Sync,
    Apply,
    Recover,
    Cut,
    Bad,
}

pub(crate) fn parse(line: &[u8]) -> Command
    ensures { result ≡ Commands.parse line.now }
{
    if LINE < line.len() {
        return Command::Bad;
    }
    match split_once(line) {
        (word, None) => alone(word),
        (word, Some(rest)) => with_fields(word, rest),
    }
}

// A word and at least one field.
fn with_fields(word: &[u8], rest: &[u8]) -> Command
    ensures { result ≡ Commands.understood (word.now ∷ fields rest.now) }
{
    match split_once(rest) {
        (x, None) => with_one(word, x),
        (x, Some(more)) => match split_once(more) {
            (y, None) => with_two(word, x, y),
            (_, Some(_)) => Command::Bad,
        },
    }
}

// A word alone.
// Stays a row of tests: words are compared with the fixed byte strings that are written back (`words`), and a match is no shorter.
fn alone(word: &[u8]) -> Command
    ensures { result ≡ Commands.alone word.now }
{
    if word == words::FORMAT {
        return Command::Format;
    }
    if word == words::COMMIT {
        return Command::Commit;
    }
    if word == words::ABANDON {
        return Command::Abandon;
    }
    if word == words::SYNC {
        return Command::Sync;
    }
    if word == words::APPLY {
        return Command::Apply;
    }
    if word == words::RECOVER {
        return Command::Recover;
    }
    if word == words::CUT {
        return Command::Cut;
    }
    Command::Bad
}

// A word and one field.
fn with_one(word: &[u8], x: &[u8]) -> Command
    ensures { result ≡ Commands.with_one word.now x.now }
{
    if word == words::POWER {
        return to_number(x, u32::MAX).map_or(Command::Bad, Command::Power);
    }
    if word == words::GET {
        return to_number(x, u32::MAX).map_or(Command::Bad, Command::Get);
    }
    if word == words::CUT && is_marks(x) {
        return Command::Cut;
    }
    Command::Bad
}

// A word and two fields.
fn with_two(word: &[u8], x: &[u8], y: &[u8]) -> Command
    ensures { result ≡ Commands.with_two word.now x.now y.now }
{
    if word != words::PUT {
        return Command::Bad;
    }
    put(x, y).unwrap_or(Command::Bad)
}

// A put's fields.
fn put(x: &[u8], y: &[u8]) -> Option<Command>
    ensures { unwrap_or result Command.Bad ≡ Commands.with_number (number_of most4_bytes x.now) (λ a. Commands.with_number (number_of most1_byte y.now) (λ b. Command.Put a b)) }
{
    let address = to_number(x, u32::MAX)?;
    let byte = to_number(y, MOST_BYTE)?;
    Some(Command::Put(address, byte as u8))
}
