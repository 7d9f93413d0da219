// Output. The contracts of std's calls say nothing of the descriptor or of the bytes: `send` is the one place where they are
// handed over, and says by its result which.
ghost use Rattle.std.specs.Prelude.{◌≡◌, ◌≤◌, OnOk};
ghost use Rattle.script.specs.Steps.{printed_bytes};
ghost use Rattle.trapcard.specs.Turns.{output};

use script::PRINTED;
use std::io;

// The descriptor of standard output.
pub(crate) const STDOUT_FILENO: i32 = 1;

// What was handed over: to which descriptor, how many bytes of the output's buffer, and whether all were written, or the error.
#[derive(Clone, Copy)]
pub(crate) struct Sent {
    pub to: i32,
    pub count: usize,
    pub said: io::Result<()>,
}

pub(crate) fn send(rt: &impl Print, to: i32, printed: &[u8; PRINTED], count: usize) -> Sent
    requires { count ≤ printed_bytes }
    ensures handed { (result.to ≡ to) × (result.count ≡ count) }
{
    Sent {
        to,
        count,
        said: write_all(rt, to, &printed[..count]),
    }
}

// The runtime writes to standard output alone: at another descriptor nothing is written, and that is an error.
fn write_all(rt: &impl Print, to: i32, bytes: &[u8]) -> io::Result<()>
    ensures { OnOk result (to ≡ output) }
{
    if to != STDOUT_FILENO {
        return Err(io::Error::from(io::ErrorKind::Unsupported));
    }
    rt.write_all(bytes)
}
