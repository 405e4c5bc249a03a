// The 3964R frame that is sent for a block of data.
#![tactic(auto)]

pub mod control;

ghost use Rattle.std.specs.Prelude.{◌≡◌, ◌+◌, ◌≤◌, length, replicate, fold, Ok};
ghost use Rattle.std.specs.Int.Bits.{bit_xor};
ghost use Rattle.std.specs.List.{count_by};
ghost use Rattle.base.specs.Filling.{written};
ghost use Rattle.base.specs.Private.Writing.{writing, writing_of};
ghost use Rattle.refusal.specs.Writing.{filling_of};
ghost use Rattle.link_frame.specs.Frame.{check_byte, doubled, frame_of, framing};
ghost use Rattle.link_frame.specs.Private.Tests.{is_dle};

use control::{DLE, ETX};
use refusal::Refusal;

// The most bytes of data in one block.
pub const MAX_DATA: usize = 1024;

// How many bytes the data takes with each DLE doubled.
fn doubled_length(src: &[u8]) -> usize
    ensures { result ≡ length (doubled src.now) }
{
    // Counted by a loop: of `filter` and `count` the compiler makes no wide steps.
    let mut n = src.len();
    for &b in src {
        if b == DLE {
            n += 1;
        }
    }
    n
}

// The length of a part of the data, as which the data is written.
const PART: usize = 16;

// The length of a part of nothing but DLE, doubled.
const RUN: usize = 32;

// How many bytes of a part are DLE. Counted in a byte, and by a loop that goes to its end: so the compiler makes one wide compare
// and one count of bits of it, which it does not of `filter` and `count`, and not of `all`.
fn count_dles(part: &[u8; PART]) -> u8
    ensures { result ≡ count_by is_dle part.now }
{
    let mut n = 0;
    for &b in part {
        if b == DLE {
            n += 1;
        }
    }
    n
}

// Each function below that writes a part gives the place behind it. The output and the place stay two parameters: a struct that
// holds them needs clauses in each function that it keeps its output and the output's length.

// Writes data with each DLE doubled, its first byte at place from, and gives the place behind it, which goes on by one or by two.
fn write_doubling(part: &[u8], out: &mut [u8], from: usize) -> usize
    requires { from + length (doubled part.now) ≤ length out.old }
    ensures { writing_of result out.new ≡ writing from (doubled part.now) out.old }
{
    let mut at = from;
    for &b in part {
        if b == DLE {
            out[at] = b;
            out[at + 1] = b;
            at += 2;
        } else {
            out[at] = b;
            at += 1;
        }
    }
    at
}

// Writes a part of nothing but DLE, doubled, its first byte at place from, and gives the place behind it.
fn write_run(out: &mut [u8], from: usize) -> usize
    requires { from + 32 ≤ length out.old }
    ensures { writing_of result out.new ≡ writing from (replicate 32 16) out.old }
{
    let end = from + RUN;
    out[from..end].fill(DLE);
    end
}

// Writes a part as it is, by way of a copy. For all that the compiler knows, part and out overlap, and from one to the
// other it would move a byte at a time; by way of the copy it moves the part as a whole.
fn write_whole(part: &[u8; PART], out: &mut [u8], from: usize) -> usize
    requires { from + 16 ≤ length out.old }
    ensures { writing_of result out.new ≡ writing from part.now out.old }
{
    let end = from + PART;
    let copy = *part;
    // By `put`: `copy_from_slice` looks first whether the two overlap, which was measured to be slower.
    places::put(&copy, &mut out[from..end], 0);
    end
}

// Writes a part with each DLE doubled. One that has none, and one of nothing else, are written as a whole.
fn write_part(part: &[u8; PART], out: &mut [u8], from: usize) -> usize
    requires { from + length (doubled part.now) ≤ length out.old }
    ensures { writing_of result out.new ≡ writing from (doubled part.now) out.old }
{
    match count_dles(part) as usize {
        0 => write_whole(part, out, from),
        PART => write_run(out, from),
        _ => write_doubling(part, out, from),
    }
}

// Writes the data, each DLE doubled, to the first places of out, part by part, and gives the place behind it.
fn write_doubled(src: &[u8], out: &mut [u8]) -> usize
    requires { length (doubled src.now) ≤ length out.old }
    ensures { writing_of result out.new ≡ writing 0 (doubled src.now) out.old }
{
    let (parts, rest) = src.as_chunks::<PART>();
    let mut at = 0;
    for part in parts {
        at = write_part(part, out, at);
    }
    write_doubling(rest, out, at)
}

// The exclusive or of the data.
fn xor_all(src: &[u8]) -> u8
    ensures { result ≡ fold bit_xor 0 src.now }
{
    src.iter().fold(0, |sum, b| sum ^ *b)
}

// The check byte of data that is sent as n bytes. A DLE is sent twice and cancels itself out, so the exclusive or of the
// data has a DLE too many where their number, by which n is above the length of the data, is odd.
fn check_byte(src: &[u8], n: usize) -> u8
    requires { n ≡ length (doubled src.now) }
    ensures { result ≡ check_byte src.now }
{
    let sum = xor_all(src);
    if (n - src.len()) % 2 == 1 {
        // This DLE and the closing one cancel each other out.
        sum ^ ETX
    } else {
        sum ^ DLE ^ ETX
    }
}

// Writes the frame of the data, for which the output has room, and gives its length.
fn write_frame(src: &[u8], out: &mut [u8]) -> usize
    requires { length (doubled src.now) + 3 ≤ length out.old }
    ensures { filling_of (Ok result) out.new ≡ written (frame_of src.now) out.old }
{
    let at = write_doubled(src, out);
    out[at] = DLE;
    out[at + 1] = ETX;
    out[at + 2] = check_byte(src, at);
    at + 3
}

// The frame of the data in the first places of out, and its length; the other places keep their values.
// Refused, and out as it was: 12 for more than MAX_DATA bytes of data, then 11 for an output that is too short.
pub fn frame(src: &[u8], out: &mut [u8]) -> Result<usize, Refusal>
    ensures { filling_of result out.new ≡ framing src.now out.old }
{
    let n = src.len();
    if MAX_DATA < n {
        return Err(Refusal::TooLong);
    }
    // Where the longest frame fits there is no need to count first.
    if out.len() < 2 * n + 3 && out.len() < doubled_length(src) + 3 {
        return Err(Refusal::OutputShort);
    }
    Ok(write_frame(src, out))
}
