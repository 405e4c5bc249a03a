// The receiver of the gate bus, fed one event at a time.
#![tactic(auto)]

ghost use Rattle.std.specs.Prelude.{◌≡◌, false, ◌≤◌, length};
ghost use Rattle.gate_receive.specs.Receive.{reaction_of, response_of, overcounts, starting_again, outcome_of, to, nothing, refuses, rest_of, destination_of, length_of, data_of, dropping_of, accepted_of, judged_of, byte_of, receive_of};
ghost use Rattle.gate_receive.specs.Private.Steps.{storing_of, judging_of};
ghost use Rattle.gate_receive.specs.declared.GateState.TheVariants.{Rest};

use crc16::ccitt;
use events::Event;
use gate_refusal::GateRefusal;
use gate_telegram::{MAX_DATA, RESERVED, START_BYTE};

// Where a telegram stands: what is awaited next, and what is known so far. The check is the running one.
#[derive(Clone, Copy)]
pub enum GateState {
    // No telegram has begun.
    Rest,
    // The start byte came; the destination is awaited.
    AtDestination,
    // For us: the source is awaited.
    AtSource {
        destination: u8,
        check: u16,
    },
    // For us: the number of data bytes is awaited.
    AtLength {
        destination: u8,
        source: u8,
        check: u16,
    },
    // For us: so many data bytes are stored, and the next is awaited; or, if all are, the high byte of the check.
    AtData {
        destination: u8,
        source: u8,
        size: u8,
        stored: usize,
        check: u16,
    },
    // For us: the high byte of the check came, and the low one is awaited.
    AtLowCheck {
        destination: u8,
        source: u8,
        size: u8,
        check: u16,
        high: u8,
    },
    // For another: the source is awaited.
    OthersSource,
    // For another: the number of data bytes is awaited.
    OthersLength,
    // For another: so many bytes are left to drop.
    Dropping {
        left: usize,
    },
}

impl GateState {
    // The fresh state, in which every telegram begins.
    pub fn fresh() -> Self
        ensures { result ≡ Rest }
    {
        Self::Rest
    }
}

// Nothing; a telegram with its source and the number of its data bytes; a token with its source.
#[derive(Clone, Copy, Debug, PartialEq, Eq)]
pub enum GateAnswer {
    Nothing,
    Telegram { source: u8, size: u8 },
    Token { source: u8 },
}

// The answer to an event, and the state after it.
#[derive(Clone, Copy)]
pub struct GateStep {
    pub answer: Result<GateAnswer, GateRefusal>,
    pub state: GateState,
}

// Nothing is answered, and the telegram goes on.
fn go_on(state: GateState) -> GateStep
    ensures { reaction_of result ≡ to nothing state }
{
    GateStep {
        answer: Ok(GateAnswer::Nothing),
        state,
    }
}

// An answer with which the receiver starts again.
fn start_again(answer: Result<GateAnswer, GateRefusal>) -> GateStep
    ensures { reaction_of result ≡ starting_again (response_of answer) }
{
    GateStep {
        answer,
        state: GateState::fresh(),
    }
}

// A byte at rest.
#[tactic(auto, unfolding(crate::specs::Receive::rest_of))]
fn rest_byte(b: u8) -> GateStep
    ensures { reaction_of result ≡ rest_of b }
{
    if b == START_BYTE {
        go_on(GateState::AtDestination)
    } else {
        go_on(GateState::Rest)
    }
}

// The byte after the start byte.
#[tactic(auto, unfolding(crate::specs::Receive::destination_of))]
fn destination_byte(own: u8, b: u8) -> GateStep
    ensures { reaction_of result ≡ destination_of own b }
{
    if b == own {
        go_on(GateState::AtSource {
            destination: b,
            check: ccitt::over(ccitt::START, &[START_BYTE, b]),
        })
    } else {
        go_on(GateState::OthersSource)
    }
}

// The length byte of a telegram for us.
#[tactic(auto, unfolding(crate::specs::Receive::length_of))]
fn length_byte(destination: u8, source: u8, check: u16, b: u8) -> GateStep
    ensures { reaction_of result ≡ length_of destination source check b }
{
    if MAX_DATA < b as usize {
        return start_again(Err(GateRefusal::Length));
    }
    go_on(GateState::AtData {
        destination,
        source,
        size: b,
        stored: 0,
        check: ccitt::byte(check, b),
    })
}

// A data byte, or the high byte of the check behind the last one. Here and below the fields of a state come one by one, and
// the bound of its size is asked for, since theorems and the calls for C name GateState and its fields.
#[tactic(auto, unfolding(crate::specs::Receive::data_of))]
fn data_byte(
    destination: u8,
    source: u8,
    size: u8,
    stored: usize,
    check: u16,
    b: u8,
    store: &mut [u8; MAX_DATA],
) -> GateStep
    requires { size ≤ 253 }
    ensures { storing_of result store.new ≡ data_of destination source size stored check b store.old }
{
    if stored < size as usize {
        store[stored] = b;
        go_on(GateState::AtData {
            destination,
            source,
            size,
            stored: stored + 1,
            check: ccitt::byte(check, b),
        })
    } else {
        go_on(GateState::AtLowCheck {
            destination,
            source,
            size,
            check,
            high: b,
        })
    }
}

// An accepted telegram: a token, or its data into the output.
#[tactic(auto, unfolding(crate::specs::Receive::accepted_of))]
fn accept(source: u8, size: u8, store: &[u8; MAX_DATA], out: &mut [u8]) -> GateStep
    requires { size ≤ 253 }
    ensures { judging_of result out.new ≡ accepted_of source size store.now out.old }
{
    let n = size as usize;
    if n == 0 {
        return start_again(Ok(GateAnswer::Token { source }));
    }
    if out.len() < n {
        return start_again(Err(GateRefusal::OutputShort));
    }
    places::put(&store[..n], out, 0);
    start_again(Ok(GateAnswer::Telegram { source, size }))
}

// The low byte of the check, at which the telegram is judged.
#[tactic(auto, unfolding(crate::specs::Receive::judged_of))]
fn low_check_byte(
    destination: u8,
    source: u8,
    size: u8,
    check: u16,
    high: u8,
    b: u8,
    store: &[u8; MAX_DATA],
    out: &mut [u8],
) -> GateStep
    requires { size ≤ 253 }
    ensures { judging_of result out.new ≡ judged_of destination source size check high b store.now out.old }
{
    if words::word_of(high, b) != check {
        return start_again(Err(GateRefusal::Check));
    }
    if source == RESERVED || gate_telegram::is_slave_token(destination, source, size as usize) {
        return start_again(Err(GateRefusal::Address));
    }
    accept(source, size, store, out)
}

// One byte less to drop.
#[tactic(auto, unfolding(crate::specs::Receive::dropping_of))]
fn dropped_byte(left: usize) -> GateStep
    ensures { reaction_of result ≡ dropping_of left }
{
    if left <= 1 {
        go_on(GateState::Rest)
    } else {
        go_on(GateState::Dropping { left: left - 1 })
    }
}

// A byte, in a state that does not overcount.
#[tactic(auto, unfolding(crate::specs::Receive::byte_of, crate::specs::Receive::source_of, crate::specs::Receive::others_length_of))]
fn take_byte(
    own: u8,
    state: GateState,
    b: u8,
    store: &mut [u8; MAX_DATA],
    out: &mut [u8],
) -> GateStep
    requires { overcounts state ≡ false }
    ensures { outcome_of result store.new out.new ≡ byte_of own state b store.old out.old }
{
    match state {
        GateState::Rest => rest_byte(b),
        GateState::AtDestination => destination_byte(own, b),
        GateState::AtSource { destination, check } => go_on(GateState::AtLength {
            destination,
            source: b,
            check: ccitt::byte(check, b),
        }),
        GateState::AtLength {
            destination,
            source,
            check,
        } => length_byte(destination, source, check, b),
        GateState::AtData {
            destination,
            source,
            size,
            stored,
            check,
        } => data_byte(destination, source, size, stored, check, b, store),
        GateState::AtLowCheck {
            destination,
            source,
            size,
            check,
            high,
        } => low_check_byte(destination, source, size, check, high, b, store, out),
        GateState::OthersSource => go_on(GateState::OthersLength),
        GateState::OthersLength => go_on(GateState::Dropping {
            left: b as usize + 2,
        }),
        GateState::Dropping { left } => dropped_byte(left),
    }
}

// The most bytes left to drop: those behind the length byte of the longest telegram of another.
const MOST_LEFT: usize = 257;

// Whether a state counts more than its telegram can have.
#[tactic(auto, unfolding(crate::specs::Receive::overcounts))]
fn is_overcounting(state: GateState) -> bool
    ensures { result ≡ overcounts state }
{
    match state {
        GateState::AtData { size, stored, .. } => {
            MAX_DATA < size as usize || (size as usize) < stored
        }
        GateState::AtLowCheck { size, .. } => MAX_DATA < size as usize,
        GateState::Dropping { left } => MOST_LEFT < left,
        _ => false,
    }
}

// A state that overcounts, or one with a store of the wrong length, is refused and kept.
fn refuse(state: GateState) -> GateStep
    ensures { reaction_of result ≡ to (refuses 1) state }
{
    GateStep {
        answer: Err(GateRefusal::Setup),
        state,
    }
}

// One event: its answer and the state after it. It writes at most the place of the store at the count; the output has the
// data of an accepted telegram in its first places, and is else as it was.
// Refused with 1, and all as it was: a store that does not have MAX_DATA places, or a state that counts more than its
// telegram can have. Every other refusal starts again: 16 at every event where own is FF; in a telegram for us 7 for a length
// byte over MAX_DATA, and at its last byte 15 for its check, then 16 for the source FF or a token to or from a slave, then 11
// for an output that is too short.
#[tactic(auto, unfolding(crate::specs::Receive::receive_of, crate::specs::Receive::event_of))]
pub fn receive(
    own: u8,
    state: GateState,
    store: &mut [u8],
    event: Event,
    out: &mut [u8],
) -> GateStep
    ensures { outcome_of result store.new out.new ≡ receive_of own state store.old event out.old }
{
    let Some(store) = store.as_mut_array() else {
        return refuse(state);
    };
    if is_overcounting(state) {
        return refuse(state);
    }
    if own == RESERVED {
        return start_again(Err(GateRefusal::Address));
    }
    match event {
        Event::Byte(b) => take_byte(own, state, b, store, out),
        Event::Timer => start_again(Ok(GateAnswer::Nothing)),
    }
}
