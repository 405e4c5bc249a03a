// The sending half of 3964R, fed one event at a time.
#![tactic(auto)]

ghost use Rattle.std.specs.Prelude.{◌≡◌, [], ◌∷◌, ◌≤◌, length};
ghost use Rattle.base.specs.Filling.{fitted};
ghost use Rattle.refusal.specs.Numbers.{number_of};
ghost use Rattle.refusal.specs.Writing.{given_of, filling_of};
ghost use Rattle.link_frame.specs.ControlBytes.{STX, ETX, DLE, NAK};
ghost use Rattle.link_frame.specs.Frame.{max_data};
ghost use Rattle.link_receive.specs.Receive as half;
ghost use Rattle.link_receive.specs.Receive.{response_of};
ghost use Rattle.link_send.specs.Send.{answer_byte, bytes_of, sending, into, begun, fresh, connection_fails, block_fails, collision, opening_byte, awaiting_byte, relaying, after_half, receiving_of, turn_of, bad_limit, half_against, misset, refusing, reaction_of, outcome_of, send_of};
ghost use Rattle.link_send.specs.Private.Plans.{parts_of, behind, turn_by, taken_by, finished};

use events::Event;
use link_frame::{MAX_DATA, control};
use link_receive::{Dle, LinkAnswer, LinkState, LinkStep, Phase};
use refusal::Refusal;

// Numbers of attempts: to connect in one attempt to send the block, and to send the block.
#[derive(Clone, Copy, Debug, PartialEq, Eq)]
pub struct Attempts {
    pub connections: usize,
    pub blocks: usize,
}

impl Attempts {
    const NONE: Self = Self {
        connections: 0,
        blocks: 0,
    };
}

// Which end of a cable yields where both have opened: the low one.
#[derive(Clone, Copy, Debug, PartialEq, Eq)]
pub enum Priority {
    Low,
    High,
}

// Not started; waiting for the answer to an opening; waiting for the answer to the block; receiving, after a yield; the block
// was sent and answered; no attempts were left.
#[derive(Clone, Copy, Debug, PartialEq, Eq)]
pub enum SendPhase {
    Fresh,
    Opening,
    Awaiting,
    Receiving(LinkState),
    Sent,
    GaveUp,
}

// A sender: how many attempts it may make, how many have failed, its priority, and its phase.
#[derive(Clone, Copy, Debug, PartialEq, Eq)]
pub struct Sender {
    pub limits: Attempts,
    pub failed: Attempts,
    pub priority: Priority,
    pub phase: SendPhase,
}

impl Sender {
    pub const STX: u8 = control::STX;

    pub const ETX: u8 = control::ETX;

    pub const DLE: u8 = control::DLE;

    pub const NAK: u8 = control::NAK;

    // The least that a limit may be.
    pub const LEAST: usize = 1;

    // The most that a limit may be.
    pub const MOST: usize = 255;

    // The control bytes in a row: STX, ETX, DLE, NAK.
    pub fn control_bytes() -> [u8; 4]
        ensures { result ≡ STX ∷ ETX ∷ DLE ∷ NAK ∷ [] }
    {
        [Self::STX, Self::ETX, Self::DLE, Self::NAK]
    }

    // A sender that has not been started. A limit that is not LEAST to MOST is refused at each event.
    pub fn fresh(connections: usize, blocks: usize, priority: Priority) -> Self
        ensures { result ≡ fresh connections blocks priority }
    {
        Self {
            limits: Attempts {
                connections,
                blocks,
            },
            failed: Attempts::NONE,
            priority,
            phase: SendPhase::Fresh,
        }
    }

    // The sender in another phase, with other attempts failed.
    fn into(self, failed: Attempts, phase: SendPhase) -> Self
        ensures { result ≡ into self failed phase }
    {
        Self {
            failed,
            phase,
            ..self
        }
    }

    // The sender with an opening that waits for its answer, and no attempt failed.
    fn begun(self) -> Self
        ensures { result ≡ begun self }
    {
        self.into(Attempts::NONE, SendPhase::Opening)
    }
}

// The caller has data to send; a byte came; the timer ran out.
#[derive(Clone, Copy, Debug, PartialEq, Eq)]
pub enum SendEvent {
    Start,
    Byte(u8),
    Timer,
}

// So many bytes to send, which may be none, and the length of a message, if one was received.
#[derive(Clone, Copy, Debug, PartialEq, Eq)]
pub struct SendAnswer {
    pub sent: usize,
    pub message: Option<usize>,
}

// The answer to an event, and the state after it.
#[derive(Clone, Copy, Debug, PartialEq, Eq)]
pub struct SendStep {
    pub answer: Result<SendAnswer, Refusal>,
    pub state: Sender,
}

// What goes out.
#[derive(Clone, Copy)]
enum Going {
    Nothing,
    Opening,
    Answer(u8),
    AnswerThenOpening(u8),
    Block,
}

// What an event brings, before anything is written: what goes out, the length of a message, and the next state.
#[derive(Clone, Copy)]
struct Plan {
    going: Going,
    message: Option<usize>,
    next: Sender,
}

// Something goes out, without a message.
fn without_message(going: Going, next: Sender) -> Plan
    ensures { turn_by result ≡ sending (parts_of going) next }
{
    Plan {
        going,
        message: None,
        next,
    }
}

// An attempt to connect has failed.
#[tactic(auto, unfolding(crate::specs::Send::connection_fails))]
fn connection_fails(state: Sender) -> Plan
    ensures { turn_by result ≡ connection_fails state }
{
    let most = state.limits.connections;
    // How many attempts were left, the one that has failed among them.
    if 1 < most.saturating_sub(state.failed.connections) {
        let failed = Attempts {
            connections: state.failed.connections + 1,
            ..state.failed
        };
        without_message(Going::Opening, state.into(failed, SendPhase::Opening))
    } else {
        let failed = Attempts {
            connections: most,
            ..state.failed
        };
        without_message(Going::Nothing, state.into(failed, SendPhase::GaveUp))
    }
}

// An attempt to send the block has failed. It is no twin of the other: either count becomes something else here than there.
#[tactic(auto, unfolding(crate::specs::Send::block_fails))]
fn block_fails(state: Sender) -> Plan
    ensures { turn_by result ≡ block_fails state }
{
    let most = state.limits.blocks;
    // How many attempts were left, the one that has failed among them.
    if 1 < most.saturating_sub(state.failed.blocks) {
        let failed = Attempts {
            connections: 0,
            blocks: state.failed.blocks + 1,
        };
        without_message(Going::Opening, state.into(failed, SendPhase::Opening))
    } else {
        let failed = Attempts {
            blocks: most,
            ..state.failed
        };
        without_message(Going::Nothing, state.into(failed, SendPhase::GaveUp))
    }
}

// Both ends have opened.
fn collide(state: Sender) -> Plan
    ensures { turn_by result ≡ collision state.priority state }
{
    match state.priority {
        Priority::Low => {
            let half = LinkState {
                phase: Phase::Inside(Dle::NotSeen),
                ..LinkState::at_rest()
            };
            without_message(
                Going::Answer(Sender::DLE),
                state.into(Attempts::NONE, SendPhase::Receiving(half)),
            )
        }
        Priority::High => without_message(Going::Nothing, state),
    }
}

// A byte while the answer to an opening is waited for.
#[tactic(auto, unfolding(crate::specs::Send::opening_byte))]
fn opening_byte(state: Sender, b: u8) -> Plan
    ensures { turn_by result ≡ opening_byte state b }
{
    match b {
        Sender::DLE => without_message(Going::Block, state.into(state.failed, SendPhase::Awaiting)),
        Sender::STX => collide(state),
        _ => connection_fails(state),
    }
}

// A byte while the answer to the block is waited for.
#[tactic(auto, unfolding(crate::specs::Send::awaiting_byte))]
fn awaiting_byte(state: Sender, b: u8) -> Plan
    ensures { turn_by result ≡ awaiting_byte state b }
{
    match b {
        Sender::DLE => without_message(Going::Nothing, state.into(state.failed, SendPhase::Sent)),
        _ => block_fails(state),
    }
}

// Nothing goes out, or an opening.
fn silent(opens: bool) -> Going
    ensures { parts_of result ≡ behind opens }
{
    if opens {
        Going::Opening
    } else {
        Going::Nothing
    }
}

// An answer byte goes out, and maybe an opening behind it.
fn answering(b: u8, opens: bool) -> Going
    ensures { parts_of result ≡ answer_byte b ∷ behind opens }
{
    if opens {
        Going::AnswerThenOpening(b)
    } else {
        Going::Answer(b)
    }
}

// The half's answer goes out, and maybe an opening behind it.
fn relay(answer: Result<LinkAnswer, Refusal>, opens: bool, next: Sender) -> Plan
    ensures { turn_by result ≡ relaying (response_of answer) (behind opens) next }
{
    match answer {
        Ok(LinkAnswer::Nothing) | Err(_) => without_message(silent(opens), next),
        Ok(LinkAnswer::Send(b)) => without_message(answering(b, opens), next),
        Ok(LinkAnswer::Message(n)) => Plan {
            going: answering(Sender::DLE, opens),
            message: Some(n),
            next,
        },
    }
}

// What follows the half's step, in a yield.
#[tactic(auto, unfolding(crate::specs::Send::after_half))]
fn after_half(state: Sender, step: LinkStep) -> Plan
    ensures { turn_by result ≡ after_half state (half.reaction_of step) }
{
    let half = step.state;
    match half.phase {
        Phase::Rest => relay(step.answer, true, state.begun()),
        Phase::Inside(_) | Phase::Waiting => {
            let receiving = state.into(state.failed, SendPhase::Receiving(half));
            relay(step.answer, false, receiving)
        }
    }
}

// One event in a yield: the half's step, and what follows it. One call for byte and timer: the compiler inlines it, and the plan
// stays in registers. With a call for each it went through memory, and a byte was measured to take twice as long.
#[tactic(auto, unfolding(crate::specs::Send::receiving_of))]
fn step_half(state: Sender, half: LinkState, event: SendEvent, buffer: &mut [u8]) -> Plan
    ensures { taken_by result buffer.new ≡ receiving_of event half state buffer.old }
{
    let heard = match event {
        SendEvent::Start => return without_message(Going::Nothing, state),
        SendEvent::Byte(b) => Event::Byte(b),
        SendEvent::Timer => Event::Timer,
    };
    after_half(state, link_receive::receive(half, heard, buffer))
}

// One event in each phase, before anything is written. What is not named sends nothing, and the state is the same.
#[tactic(auto, unfolding(crate::specs::Send::turn_of, crate::specs::Send::fresh_of, crate::specs::Send::opening_of, crate::specs::Send::awaiting_of))]
fn take_event(state: Sender, event: SendEvent, buffer: &mut [u8]) -> Plan
    ensures { taken_by result buffer.new ≡ turn_of state event buffer.old }
{
    match (state.phase, event) {
        (SendPhase::Fresh, SendEvent::Start) => without_message(Going::Opening, state.begun()),
        (SendPhase::Opening, SendEvent::Byte(b)) => opening_byte(state, b),
        (SendPhase::Opening, SendEvent::Timer) => connection_fails(state),
        (SendPhase::Awaiting, SendEvent::Byte(b)) => awaiting_byte(state, b),
        (SendPhase::Awaiting, SendEvent::Timer) => block_fails(state),
        (SendPhase::Receiving(half), _) => step_half(state, half, event, buffer),
        _ => without_message(Going::Nothing, state),
    }
}

// Whether a limit is not LEAST to MOST.
#[tactic(auto, unfolding(crate::specs::Send::bad_limit))]
fn is_bad_limit(n: usize) -> bool
    ensures { result ≡ bad_limit n }
{
    n < Sender::LEAST || Sender::MOST < n
}

// Whether the half, while there is one, is against its buffer. The half would refuse that too, but its 1 comes before the 12
// for the data, and so before the half is called.
fn is_half_against(phase: SendPhase, buffer: &[u8]) -> bool
    ensures { result ≡ half_against phase buffer.now }
{
    match phase {
        SendPhase::Receiving(half) => link_receive::is_against(half.count, buffer),
        SendPhase::Fresh
        | SendPhase::Opening
        | SendPhase::Awaiting
        | SendPhase::Sent
        | SendPhase::GaveUp => false,
    }
}

// Whether the sender is refused with 1.
#[tactic(auto, unfolding(crate::specs::Send::misset))]
fn is_misset(state: Sender, buffer: &[u8]) -> bool
    ensures { result ≡ misset state buffer.now }
{
    is_bad_limit(state.limits.connections)
        || is_bad_limit(state.limits.blocks)
        || state.limits.connections < state.failed.connections
        || state.limits.blocks < state.failed.blocks
        || is_half_against(state.phase, buffer)
}

// Writes bytes to the first places of out, where they have room.
fn write_bytes(bytes: &[u8], out: &mut [u8]) -> Result<usize, Refusal>
    ensures { filling_of result out.new ≡ fitted bytes.now out.old }
{
    places::fit(bytes, out).ok_or(Refusal::OutputShort)
}

// Writes what goes out.
#[tactic(auto, unfolding(crate::specs::Send::bytes_of, crate::specs::Send::part_bytes))]
fn write(going: Going, src: &[u8], out: &mut [u8]) -> Result<usize, Refusal>
    requires { length src.now ≤ max_data }
    ensures { filling_of result out.new ≡ fitted (bytes_of src.now (parts_of going)) out.old }
{
    match going {
        Going::Nothing => write_bytes(&[], out),
        Going::Opening => write_bytes(&[Sender::STX], out),
        Going::Answer(b) => write_bytes(&[b], out),
        Going::AnswerThenOpening(b) => write_bytes(&[b, Sender::STX], out),
        Going::Block => link_frame::frame(src, out),
    }
}

// A refusal, with the sender as it was.
fn refuse(refusal: Refusal, state: Sender) -> SendStep
    ensures { reaction_of result ≡ refusing (number_of refusal) state }
{
    SendStep {
        answer: Err(refusal),
        state,
    }
}

// What is answered when the bytes have been written, or have no room.
fn finish(written: Result<usize, Refusal>, planned: Plan, state: Sender) -> SendStep
    ensures { reaction_of result ≡ finished (given_of written) (turn_by planned) state }
{
    match written {
        Ok(sent) => SendStep {
            answer: Ok(SendAnswer {
                sent,
                message: planned.message,
            }),
            state: planned.next,
        },
        Err(refusal) => refuse(refusal, state),
    }
}

// One event: the answer and the state after it, and what is to be sent in the first places of out. The data is that of the
// block; in a yield a message is received into the buffer.
// Refused, and all as it was: 1 for a limit that is not LEAST to MOST, more attempts failed than a limit allows, or a half
// against its buffer; then 12 for more than MAX_DATA bytes of data; then 11 for an output that is too short for what this
// event sends.
pub fn send(
    state: Sender,
    event: SendEvent,
    src: &[u8],
    buffer: &mut [u8],
    out: &mut [u8],
) -> SendStep
    ensures { outcome_of result buffer.new out.new ≡ (send_of state event src.now buffer.old out.old).outcome }
{
    if is_misset(state, buffer) {
        return refuse(Refusal::Setup, state);
    }
    if MAX_DATA < src.len() {
        return refuse(Refusal::TooLong, state);
    }
    let planned = take_event(state, event, buffer);
    let written = write(planned.going, src, out);
    finish(written, planned, state)
}
