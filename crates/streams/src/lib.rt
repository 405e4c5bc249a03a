// Standard input and other inputs for the programs.
#![tactic(auto)]

ghost use Rattle.std.specs.Prelude.{◌≢◌, ◌≤◌, ◌<◌, ℕ, length, take, IfOk, IfErr, OnErr};
ghost use Rattle.std.specs.Io.KnownBytes.{Consumes, IsAtEnd};
ghost use Rattle.std.specs.IoError.{error_kind};

use std::io;
use std::io::{ErrorKind, Read};

// Fills the buffer, or as much of it as there is up to the end of the input, and gives how many bytes that is. Where a read
// fails, what was read before stands in the first places. The places behind are free for a reader to use, and nothing is said
// of them. What an input has is known of one that says so, as a slice does, and not of standard input.
pub fn read_full<R: Read>(from: &mut R, buffer: &mut [u8]) -> io::Result<usize>
    ensures count { IfOk result (λ n. n ≤ length buffer.old) }
    ensures filled { IfOk result (λ n. Consumes (R.remaining from.old) (R.remaining from.new) (take n buffer.new)) }
    ensures to_the_end { IfOk result (λ n. n < length buffer.old → IsAtEnd (R.remaining from.new)) }
    ensures failed { OnErr result ((n : ℕ) × (n ≤ length buffer.old) × Consumes (R.remaining from.old) (R.remaining from.new) (take n buffer.new)) }
    ensures retried { IfErr result (λ e. error_kind e ≢ ErrorKind.Interrupted) }
{
    let mut filled: usize = 0;
    // Each function has to end, and no reader says that it does: so the reads are counted.
    for _ in 0..u64::MAX {
        if buffer.len() <= filled {
            return Ok(filled);
        }
        match from.read(&mut buffer[filled..]) {
            Ok(0) => return Ok(filled),
            Ok(n) => filled += n,
            Err(e) => {
                if e.kind() != ErrorKind::Interrupted {
                    return Err(e);
                }
            }
        }
    }
    Err(io::Error::from(ErrorKind::TimedOut))
}
