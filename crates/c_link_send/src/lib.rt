// The call of the sender as a function for C: link_send::send. include/hanraquin.h says it for the programmer.
#![tactic(auto)]

ghost use Rattle.std.specs.Prelude.{◌≡◌, [], ◌∷◌, Some, None};
ghost use Rattle.base.specs.Choice.{pick};
ghost use Rattle.link_send.specs.Send.{response_of};
ghost use Rattle.c_link_send.specs.Send.{priority_number, priority_at, send_phase_number, send_phase_at, half_in, sender_words, sender_at, is_half, is_sender, event_at, of_response, at_sender, send_call};
ghost use Rattle.c_link_send.specs.Private.Small.{SmallResponse};

use c_answer::TIMER;
use link_receive::LinkState;
use link_send::{Attempts, Priority, SendAnswer, SendEvent, SendPhase, Sender};
use refusal::Refusal;

// The priority with a number. A function, and no `From`, here and below: neither type is of this crate.
#[tactic(auto, unfolding(crate::specs::Send::priority_at))]
fn priority_at(n: u64) -> Priority
    ensures { result ≡ priority_at n }
{
    if n == 0 {
        Priority::Low
    } else {
        Priority::High
    }
}

// The number of a priority.
fn priority_number(priority: Priority) -> u64
    ensures { result ≡ priority_number priority }
{
    match priority {
        Priority::Low => 0,
        Priority::High => 1,
    }
}

// The number of the phase in which the sender receives.
const RECEIVING: u64 = 3;

// The phase with a number, and with this half while it receives.
#[tactic(auto, unfolding(crate::specs::Send::send_phase_at))]
fn send_phase_at(n: u64, half: LinkState) -> SendPhase
    ensures { result ≡ send_phase_at n half }
{
    match n {
        0 => SendPhase::Fresh,
        1 => SendPhase::Opening,
        2 => SendPhase::Awaiting,
        RECEIVING => SendPhase::Receiving(half),
        4 => SendPhase::Sent,
        _ => SendPhase::GaveUp,
    }
}

// The number of a phase.
fn send_phase_number(phase: SendPhase) -> u64
    ensures { result ≡ send_phase_number phase }
{
    match phase {
        SendPhase::Fresh => 0,
        SendPhase::Opening => 1,
        SendPhase::Awaiting => 2,
        SendPhase::Receiving(_) => RECEIVING,
        SendPhase::Sent => 4,
        SendPhase::GaveUp => 5,
    }
}

// The half of a phase; one at rest, whose numbers are 0, where the phase has none.
fn half_in(phase: SendPhase) -> LinkState
    ensures { result ≡ half_in phase }
{
    match phase {
        SendPhase::Receiving(half) => half,
        SendPhase::Fresh
        | SendPhase::Opening
        | SendPhase::Awaiting
        | SendPhase::Sent
        | SendPhase::GaveUp => LinkState::at_rest(),
    }
}

// Whether three numbers may be the half's phase, count and check beside the number of the sender's phase.
#[tactic(auto, unfolding(crate::specs::Send::is_half, c_link::specs::Link::is_state))]
fn is_half(sending: u64, phase: u64, count: u64, check: u64) -> bool
    ensures { result ≡ is_half sending (phase ∷ count ∷ check ∷ []) }
{
    if sending == RECEIVING {
        phase <= 3 && check <= 255
    } else {
        phase == 0 && count == 0 && check == 0
    }
}

// How many numbers a sender has.
const SENDER: usize = 9;

// The sender that numbers stand for, if they are those of a sender.
fn sender_from(words: &[u64; SENDER]) -> Option<Sender>
    ensures { result ≡ pick (is_sender words.now) (Some (sender_at words.now)) None }
{
    let [
        sending,
        most_connections,
        most_blocks,
        priority,
        connections,
        blocks,
        phase,
        count,
        check,
    ] = *words;
    if sending <= 5 && priority <= 1 && is_half(sending, phase, count, check) {
        let half = LinkState {
            count: count as usize,
            check: check as u8,
            phase: c_link::phase_at(phase),
        };
        Some(Sender {
            limits: Attempts {
                connections: most_connections as usize,
                blocks: most_blocks as usize,
            },
            failed: Attempts {
                connections: connections as usize,
                blocks: blocks as usize,
            },
            priority: priority_at(priority),
            phase: send_phase_at(sending, half),
        })
    } else {
        None
    }
}

// The nine numbers of a sender.
fn words_of(state: Sender) -> [u64; SENDER]
    ensures { result ≡ sender_words state }
{
    let half = half_in(state.phase);
    [
        send_phase_number(state.phase),
        state.limits.connections as u64,
        state.limits.blocks as u64,
        priority_number(state.priority),
        state.failed.connections as u64,
        state.failed.blocks as u64,
        c_link::phase_number(half.phase),
        half.count as u64,
        half.check as u64,
    ]
}

// The event that is the start. The one below it is the timer.
const START: u32 = 257;

// The event with a number: a byte, the timer, or the start.
#[tactic(auto, unfolding(crate::specs::Send::event_at))]
fn event_at(n: u32) -> SendEvent
    ensures { result ≡ event_at n }
{
    if n < TIMER {
        SendEvent::Byte(n as u8)
    } else if n == TIMER {
        SendEvent::Timer
    } else {
        SendEvent::Start
    }
}

// The answer to an event.
fn of_answer(answer: Result<SendAnswer, Refusal>) -> u64
    requires { SmallResponse (response_of answer) }
    ensures { result ≡ of_response (response_of answer) }
{
    match answer {
        Ok(told) => match told.message {
            None => told.sent as u64,
            Some(count) => told.sent as u64 + 65536 * (count as u64 + 1),
        },
        Err(r) => c_answer::refused(r),
    }
}

// One event at the sender whose state is nine numbers, phase, two limits, priority, two counts of failed attempts and the
// half's three: link_send::send. The value is how many bytes are to be sent, the first ones of out; with a message, 65536 times
// one more than its length is added.
// Refused, and all as it was: 1 for an event that is neither a byte nor the timer nor the start, numbers that are no sender, and
// what the sender refuses so; then what else it refuses, 12 and 11.
pub fn hanraquin_send(
    state: &mut [u64],
    event: u32,
    src: &[u8],
    buffer: &mut [u8],
    out: &mut [u8],
) -> u64
    ensures { at_sender result state.new buffer.new out.new ≡ send_call state.old event src.now buffer.old out.old }
{
    if START < event {
        return c_answer::refused(Refusal::Setup);
    }
    let Some(words) = state.as_mut_array() else {
        return c_answer::refused(Refusal::Setup);
    };
    let Some(before) = sender_from(words) else {
        return c_answer::refused(Refusal::Setup);
    };
    let step = link_send::send(before, event_at(event), src, buffer, out);
    *words = words_of(step.state);
    of_answer(step.answer)
}
