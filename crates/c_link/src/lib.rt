// The calls of the link as functions for C: link_frame::frame and link_receive::receive. include/hanraquin.h says it for the
// programmer.
#![tactic(auto)]

ghost use Rattle.std.specs.Prelude.{◌≡◌, not, ◌&&◌, Some, None, get_or};
ghost use Rattle.base.specs.Choice.{pick};
ghost use Rattle.link_receive.specs.Receive.{response_of, against};
ghost use Rattle.c_answer.specs.Answer.{written};
ghost use Rattle.c_answer.specs.Event.{event_at};
ghost use Rattle.c_link.specs.Link.{frame_call, dle_at, phase_number, phase_at, state_words, state_at, is_state, of_response, received, received_by, receive_call};
ghost use Rattle.c_link.specs.Private.Small.{SmallResponse};

use c_answer::TIMER;
use link_receive::{Dle, LinkAnswer, LinkState, Phase};
use refusal::Refusal;

// The frame of the data in the first places of out: link_frame::frame. The value is the frame's length.
pub fn hanraquin_frame(src: &[u8], out: &mut [u8]) -> u64
    ensures { written result out.new ≡ frame_call src.now out.old }
{
    c_answer::of_writing(link_frame::frame(src, out))
}

// Whether a DLE was seen, in a phase inside a block. Functions, and no `From`, here and below: neither type is of this crate.
#[tactic(auto, unfolding(crate::specs::Link::dle_at))]
fn dle_at(n: u64) -> Dle
    ensures { result ≡ dle_at n }
{
    if n == 2 { Dle::Seen } else { Dle::NotSeen }
}

// The phase with a number.
#[tactic(auto, unfolding(crate::specs::Link::phase_at))]
pub fn phase_at(n: u64) -> Phase
    ensures { result ≡ phase_at n }
{
    match n {
        0 => Phase::Rest,
        3 => Phase::Waiting,
        _ => Phase::Inside(dle_at(n)),
    }
}

// The number of a phase.
pub fn phase_number(phase: Phase) -> u64
    ensures { result ≡ phase_number phase }
{
    match phase {
        Phase::Rest => 0,
        Phase::Inside(Dle::NotSeen) => 1,
        Phase::Inside(Dle::Seen) => 2,
        Phase::Waiting => 3,
    }
}

// The answer to an event.
fn of_response(answer: Result<LinkAnswer, Refusal>) -> u64
    requires { SmallResponse (response_of answer) }
    ensures { result ≡ of_response (response_of answer) }
{
    match answer {
        Ok(LinkAnswer::Nothing) => 0,
        Ok(LinkAnswer::Send(b)) => 256 + b as u64,
        Ok(LinkAnswer::Message(n)) => 65536 + n as u64,
        Err(r) => c_answer::refused(r),
    }
}

// The largest number of a phase.
const LAST_PHASE: u64 = 3;

// How many numbers a state has.
const STATE: usize = 3;

// The state that numbers stand for, if they are those of a state, and it is not against its buffer.
fn state_from(words: &[u64; STATE], buffer: &[u8]) -> Option<LinkState>
    ensures { result ≡ pick (is_state words.now && not (against (get_or words.now 1 0) buffer.now)) (Some (state_at words.now)) None }
{
    let [phase, count, check] = *words;
    // The half would refuse a state against its buffer too. Refused here, it is out of the way of every byte that is received.
    if phase <= LAST_PHASE && check <= 255 && !link_receive::is_against(count as usize, buffer) {
        Some(LinkState {
            count: count as usize,
            check: check as u8,
            phase: phase_at(phase),
        })
    } else {
        None
    }
}

// The three numbers of a state.
fn words_of(state: LinkState) -> [u64; STATE]
    ensures { result ≡ state_words state }
{
    [
        phase_number(state.phase),
        state.count as u64,
        state.check as u64,
    ]
}

// One event at the receiving half whose state is three numbers, phase, count and check: link_receive::receive. The value is 0
// for nothing to do, 256 and a byte to send, or 65536 and the length of a message, for which a DLE is to be sent.
// Refused with 1, and all as it was: an event that is neither a byte nor the timer, numbers that are no state, and a state
// against its buffer.
pub fn hanraquin_receive(state: &mut [u64], event: u32, buffer: &mut [u8]) -> u64
    ensures { received result state.new buffer.new ≡ receive_call state.old event buffer.old }
{
    if TIMER < event {
        return c_answer::refused(Refusal::Setup);
    }
    let Some(words) = state.as_mut_array() else {
        return c_answer::refused(Refusal::Setup);
    };
    let Some(before) = state_from(words, buffer) else {
        return c_answer::refused(Refusal::Setup);
    };
    let step = link_receive::receive(before, c_answer::event_at(event), buffer);
    *words = words_of(step.state);
    of_response(step.answer)
}
