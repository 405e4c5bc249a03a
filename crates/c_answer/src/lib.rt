// The answer of every call for C, as one number: a value in its low half and a kind above it, which is 0 for done, 255 for "not
// mine", else the number of the refusal; and the events of a receiver as numbers. include/hanraquin.h says it for the programmer.
#![tactic(auto)]

ghost use Rattle.std.specs.Prelude.{◌≡◌};
ghost use Rattle.base.specs.Filling.{given_by};
ghost use Rattle.c_answer.specs.Answer.{refused, of_writing};
ghost use Rattle.c_answer.specs.Event.{event_at};

use events::Event;
use refusal::Numbered;

// What one step of the kind counts in an answer.
pub const KINDS: u64 = 4294967296;

// The answer "not mine".
pub const NOT_MINE: u64 = 255 * KINDS;

// The answer of a call that is refused with a number.
pub fn refused_with(number: u8) -> u64
    ensures { result ≡ refused number }
{
    number as u64 * KINDS
}

// The answer of a refused call.
pub fn refused<R: Numbered>(refusal: R) -> u64
    ensures { result ≡ refused (R.numeral refusal) }
{
    refused_with(refusal.number())
}

// The answer of a call that writes.
pub fn of_writing<R: Numbered>(answer: Result<usize, R>) -> u64
    ensures { result ≡ of_writing (given_by R.numeral answer) }
{
    match answer {
        Ok(n) => n as u64,
        Err(r) => refused(r),
    }
}

// The event that is the timer.
pub const TIMER: u32 = 256;

// The event with a number, up to that of the timer: a byte, or the timer.
#[tactic(auto, unfolding(crate::specs::Event::event_at))]
pub fn event_at(n: u32) -> Event
    ensures { result ≡ event_at n }
{
    if n < TIMER {
        Event::Byte(n as u8)
    } else {
        Event::Timer
    }
}
