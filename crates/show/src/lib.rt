// What the programs that run calls at their limits print of them. Only `first`, `last` and `first_other` promise anything: the
// texts are compared with the files `stdout` of the programs.
#![tactic(auto)]

ghost use Rattle.std.specs.Prelude.{◌≡◌, ◌≢◌, ℕ, ◌-◌, ◌≤◌, ◌<◌, length, take, drop, slice_index};

use link_receive::{Dle, LinkState, Phase};
use refusal::Numbered;
use std::fmt;

// What buffers hold before a call.
pub const BEFORE: u8 = 0xEE;

// The first n places of a slice, or all where there are fewer.
pub fn first<T>(s: &[T], n: usize) -> &[T]
    ensures { result.now ≡ take n s.now }
{
    &s[..n.min(s.len())]
}

// The last n places of a slice, or all where there are fewer.
pub fn last<T>(s: &[T], n: usize) -> &[T]
    ensures { result.now ≡ drop (length s.now - n) s.now }
{
    &s[s.len().saturating_sub(n)..]
}

// The first place, from n on, that does not hold b; the length where there is none. By index: with `position` two of the promises
// stayed open.
pub fn first_other(s: &[u8], n: usize, b: u8) -> usize
    ensures bound { result ≤ length s.now }
    ensures before { (k : ℕ) → n ≤ k → k < result → slice_index s.now k ≡ b }
    ensures there { result < length s.now → (n ≤ result) × (slice_index s.now result ≢ b) }
{
    for i in n..s.len() {
        if s[i] != b {
            return i;
        }
    }
    s.len()
}

// Bytes in hex. If there are any, a colon stands before them.
#[derive(Clone, Copy)]
pub struct Bytes<'a>(pub &'a [u8]);

impl fmt::Display for Bytes<'_> {
    fn fmt<W: fmt::Write>(&self, f: &mut fmt::Formatter<W>) -> fmt::Result {
        if !self.0.is_empty() {
            write!(f, ":")?;
        }
        for b in self.0 {
            write!(f, " {b:02X}")?;
        }
        Ok(())
    }
}

// How many bytes there are, and the first of them, no more than so many.
#[derive(Clone, Copy)]
pub struct Start<'a>(pub &'a [u8], pub usize);

impl fmt::Display for Start<'_> {
    fn fmt<W: fmt::Write>(&self, f: &mut fmt::Formatter<W>) -> fmt::Result {
        let Start(bytes, most) = *self;
        write!(f, " {}{}", bytes.len(), Bytes(first(bytes, most)))
    }
}

// The number of a refusal.
#[derive(Clone, Copy)]
pub struct Refused<E>(pub E);

impl<E: Numbered> fmt::Display for Refused<E> {
    fn fmt<W: fmt::Write>(&self, f: &mut fmt::Formatter<W>) -> fmt::Result {
        write!(f, ": refused {}", self.0.number())
    }
}

// The answer of a call that writes, over its output: a refusal, or the length of what is written, and its end, no more than so
// many bytes.
#[derive(Clone, Copy)]
pub struct Written<'a, E> {
    pub answer: Result<usize, E>,
    pub out: &'a [u8],
    pub most: usize,
}

impl<E: Numbered> fmt::Display for Written<'_, E> {
    fn fmt<W: fmt::Write>(&self, f: &mut fmt::Formatter<W>) -> fmt::Result {
        match self.answer {
            Ok(n) => write!(
                f,
                ": written {n}{}",
                Bytes(last(first(self.out, n), self.most))
            ),
            Err(r) => write!(f, "{}", Refused(r)),
        }
    }
}

// How far a buffer is as before, from a place on. If that is not to the end: the byte there, and how far those behind it are as
// before.
#[derive(Clone, Copy)]
pub struct Kept<'a> {
    pub buffer: &'a [u8],
    pub from: usize,
}

impl fmt::Display for Kept<'_> {
    fn fmt<W: fmt::Write>(&self, f: &mut fmt::Formatter<W>) -> fmt::Result {
        let at = first_other(self.buffer, self.from, BEFORE);
        write!(f, "; kept to {at}")?;
        if at < self.buffer.len() {
            write!(
                f,
                " {:02X} {}",
                self.buffer[at],
                first_other(self.buffer, at + 1, BEFORE)
            )?;
        }
        Ok(())
    }
}

// Phase, check and count of a receiving half. The phase is R at rest, I inside, D inside after DLE, or W waiting.
#[derive(Clone, Copy)]
pub struct Half(pub LinkState);

impl fmt::Display for Half {
    fn fmt<W: fmt::Write>(&self, f: &mut fmt::Formatter<W>) -> fmt::Result {
        let letter = match self.0.phase {
            Phase::Rest => 'R',
            Phase::Inside(Dle::NotSeen) => 'I',
            Phase::Inside(Dle::Seen) => 'D',
            Phase::Waiting => 'W',
        };
        write!(f, " {letter} {:02X} {}", self.0.check, self.0.count)
    }
}
