// The receiving half of 3964R, fed one event at a time.
#![tactic(auto)]

ghost use Rattle.std.specs.Prelude.{◌≡◌};
ghost use Rattle.link_receive.specs.Receive.{told_by, reaction_of, outcome_of, at, against, resting, rest_of, storing, store_of, data_of, inside_of, waiting_of, event_of, receive_of};
ghost use Rattle.link_receive.specs.declared.Phase.TheVariants.{Rest};

use events::Event;
use link_frame::MAX_DATA;
use link_frame::control::{DLE, ETX, NAK, STX};
use refusal::Refusal;

// Whether the byte before was a DLE that the next byte decides on.
#[derive(Clone, Copy, Debug, PartialEq, Eq)]
pub enum Dle {
    Seen,
    NotSeen,
}

// At rest, inside a block, or waiting for the check byte.
#[derive(Clone, Copy, Debug, PartialEq, Eq)]
pub enum Phase {
    Rest,
    Inside(Dle),
    Waiting,
}

// The number of data bytes stored and the running check, beside the phase.
#[derive(Clone, Copy, Debug, PartialEq, Eq)]
pub struct LinkState {
    pub count: usize,
    pub check: u8,
    pub phase: Phase,
}

impl LinkState {
    // A half at rest, as it begins and as it is after each block.
    pub fn at_rest() -> Self
        ensures { result ≡ at Rest 0 0 }
    {
        Self {
            count: 0,
            check: 0,
            phase: Phase::Rest,
        }
    }
}

// Nothing to send; a byte to send; a DLE to send and a message of so many bytes.
#[derive(Clone, Copy, Debug, PartialEq, Eq)]
pub enum LinkAnswer {
    Nothing,
    Send(u8),
    Message(usize),
}

// The answer to an event, and the state after it.
#[derive(Clone, Copy, Debug, PartialEq, Eq)]
pub struct LinkStep {
    pub answer: Result<LinkAnswer, Refusal>,
    pub state: LinkState,
}

// An answer that leaves the half at rest.
fn rest(answer: LinkAnswer) -> LinkStep
    ensures { reaction_of result ≡ resting (told_by answer) }
{
    LinkStep {
        answer: Ok(answer),
        state: LinkState::at_rest(),
    }
}

// A byte at rest.
#[tactic(auto, unfolding(crate::specs::Receive::rest_of))]
fn rest_byte(b: u8) -> LinkStep
    ensures { reaction_of result ≡ rest_of b }
{
    match b {
        STX => LinkStep {
            answer: Ok(LinkAnswer::Send(DLE)),
            state: LinkState {
                phase: Phase::Inside(Dle::NotSeen),
                ..LinkState::at_rest()
            },
        },
        NAK => rest(LinkAnswer::Nothing),
        _ => rest(LinkAnswer::Send(NAK)),
    }
}

// Stores b at the count, where there is room, and gives the state after it.
#[tactic(auto, unfolding(crate::specs::Receive::store_of, crate::specs::Receive::no_room))]
fn store(state: LinkState, b: u8, buffer: &mut [u8]) -> Option<LinkState>
    ensures { storing result buffer.new ≡ store_of state.count state.check b buffer.old }
{
    if buffer.len() <= state.count || MAX_DATA <= state.count {
        return None;
    }
    buffer[state.count] = b;
    Some(LinkState {
        count: state.count + 1,
        phase: Phase::Inside(Dle::NotSeen),
        ..state
    })
}

// A data byte inside a block: stored, or NAK where there is no room.
#[tactic(auto, unfolding(crate::specs::Receive::data_of, crate::specs::Receive::after_store))]
fn data_byte(state: LinkState, b: u8, buffer: &mut [u8]) -> LinkStep
    ensures { outcome_of result buffer.new ≡ data_of state.count state.check b buffer.old }
{
    match store(state, b, buffer) {
        Some(state) => LinkStep {
            answer: Ok(LinkAnswer::Nothing),
            state,
        },
        None => rest(LinkAnswer::Send(NAK)),
    }
}

// A byte inside a block, already in the check.
#[tactic(auto, unfolding(crate::specs::Receive::inside_of))]
fn inside_byte(dle: Dle, state: LinkState, b: u8, buffer: &mut [u8]) -> LinkStep
    ensures { outcome_of result buffer.new ≡ inside_of dle state.count state.check b buffer.old }
{
    match (dle, b) {
        (Dle::NotSeen, DLE) => LinkStep {
            answer: Ok(LinkAnswer::Nothing),
            state: LinkState {
                phase: Phase::Inside(Dle::Seen),
                ..state
            },
        },
        (Dle::NotSeen, _) | (Dle::Seen, DLE) => data_byte(state, b, buffer),
        (Dle::Seen, ETX) => LinkStep {
            answer: Ok(LinkAnswer::Nothing),
            state: LinkState {
                phase: Phase::Waiting,
                ..state
            },
        },
        (Dle::Seen, _) => rest(LinkAnswer::Send(NAK)),
    }
}

// The byte after DLE ETX.
#[tactic(auto, unfolding(crate::specs::Receive::waiting_of))]
fn waiting_byte(state: LinkState, b: u8) -> LinkStep
    ensures { reaction_of result ≡ waiting_of state.count state.check b }
{
    if b == state.check {
        rest(LinkAnswer::Message(state.count))
    } else {
        rest(LinkAnswer::Send(NAK))
    }
}

// One event, whatever the count. Every byte inside a block goes into the check.
#[tactic(auto, unfolding(crate::specs::Receive::event_of, crate::specs::Receive::byte_of, crate::specs::Receive::timer_of))]
fn take_event(state: LinkState, event: Event, buffer: &mut [u8]) -> LinkStep
    ensures { outcome_of result buffer.new ≡ event_of event state buffer.old }
{
    match (state.phase, event) {
        (Phase::Rest, Event::Byte(b)) => rest_byte(b),
        (Phase::Rest, Event::Timer) => rest(LinkAnswer::Nothing),
        (Phase::Inside(dle), Event::Byte(b)) => {
            let checked = LinkState {
                check: state.check ^ b,
                ..state
            };
            inside_byte(dle, checked, b, buffer)
        }
        (Phase::Waiting, Event::Byte(b)) => waiting_byte(state, b),
        (Phase::Inside(_) | Phase::Waiting, Event::Timer) => rest(LinkAnswer::Send(NAK)),
    }
}

// Whether a count is against a buffer: beyond its length, or beyond MAX_DATA.
#[tactic(auto, unfolding(crate::specs::Receive::against))]
pub fn is_against(count: usize, buffer: &[u8]) -> bool
    ensures { result ≡ against count buffer.now }
{
    buffer.len() < count || MAX_DATA < count
}

// One event: its answer and the state after it. It writes at most the place of the buffer at the count.
// Refused with 1, and all as it was: a count against the buffer.
#[tactic(auto, unfolding(crate::specs::Receive::receive_of))]
pub fn receive(state: LinkState, event: Event, buffer: &mut [u8]) -> LinkStep
    ensures { outcome_of result buffer.new ≡ receive_of state event buffer.old }
{
    if is_against(state.count, buffer) {
        return LinkStep {
            answer: Err(Refusal::Setup),
            state,
        };
    }
    take_event(state, event, buffer)
}
