// The line that answers a command.
ghost use Rattle.std.specs.Prelude.{◌≡◌, ◌∷◌, ◌+◌, ◌≤◌, length};
ghost use Rattle.std.proofs.lemmas.List.Edits.{sets};
ghost use Rattle.script.specs.Fields.{tab};
ghost use Rattle.script.specs.Answers.{field_bytes, longest_word, answer_bytes, decimal, word_of, answer_line};

use crate::command::Command;
use crate::words;
use itoa::Buffer;

// Stays a place in a lent buffer: there is no heap.
// Bytes behind the first at of out; where they end.
pub(crate) fn append(out: &mut [u8], at: usize, bytes: &[u8]) -> usize
    requires { at + length bytes.now ≤ length out.old }
    ensures { (result ≡ at + length bytes.now) × (out.new ≡ sets out.old at bytes.now) }
{
    let end = at + bytes.len();
    out[at..end].copy_from_slice(bytes);
    end
}

// A tab and a number.
fn append_number(out: &mut [u8], at: usize, n: u32) -> usize
    requires { at + field_bytes ≤ length out.old }
    ensures { (result ≤ at + field_bytes) × (result ≡ at + length (tab ∷ decimal n)) × (out.new ≡ sets out.old at (tab ∷ decimal n)) }
{
    let mut buffer = Buffer::new();
    let digits = buffer.format(n);
    let next = append(out, at, b"\t");
    append(out, next, digits.as_bytes())
}

// The word of a command.
fn word(command: Command) -> &'static [u8]
    ensures { (length result.now ≤ longest_word) × (result.now ≡ word_of command) }
{
    match command {
        Command::Format => words::FORMAT,
        Command::Power(_) => words::POWER,
        Command::Put(_, _) => words::PUT,
        Command::Get(_) => words::GET,
        Command::Commit => words::COMMIT,
        Command::Abandon => words::ABANDON,
        Command::Sync => words::SYNC,
        Command::Apply => words::APPLY,
        Command::Recover => words::RECOVER,
        Command::Cut => words::CUT,
        Command::Bad => words::BAD,
    }
}

// The whole line; how long it is.
pub(crate) fn write_line(out: &mut [u8], command: Command, answer: u32, third: u32) -> usize
    requires { answer_bytes ≤ length out.old }
    ensures { (result ≤ answer_bytes) × (result ≡ length (answer_line command answer third)) × (out.new ≡ sets out.old 0 (answer_line command answer third)) }
{
    let first = append(out, 0, word(command));
    let second = append_number(out, first, answer);
    let last = append_number(out, second, third);
    append(out, last, b"\n")
}
