// The calls of the gate bus as functions for C: gate_telegram::write, gate_receive::receive, gate_commands::operate and
// write_command, gate_answers::write_answer and read_answer. include/hanraquin.h says it for the programmer.
#![tactic(auto)]

ghost use Rattle.std.specs.Prelude.{◌≡◌, true, length, Some, None};
ghost use Rattle.base.specs.Choice.{pick};
ghost use Rattle.gate_receive.specs.Receive.{response_of};
ghost use Rattle.gate_commands.specs.Commands.{verdict_of};
ghost use Rattle.gate_answers.specs.Answers.{reading_of, position_at};
ghost use Rattle.c_answer.specs.Answer.{done, written};
ghost use Rattle.c_gate.specs.Bus.{write_call, state_words, state_at, fits, is_state, of_response, received, receive_call};
ghost use Rattle.c_gate.specs.Commands.{is_bits, bits_at, bit_numbers, of_verdict, operated, operate_call, write_command_call};
ghost use Rattle.c_gate.specs.Answers.{answer_at, write_answer_call, kind_of, number_in, answer_told, read_answer_call};

use c_answer::TIMER;
use gate_answers::{ACK, BUSY, BarrierAnswer, COUNT, NAK, POSITION, SYN};
use gate_commands::{COMMANDS, GateRegisters, OperateAnswer};
use gate_receive::{GateAnswer, GateState};
use gate_refusal::GateRefusal;

// The telegram from source to destination with the data: gate_telegram::write. The value is its length.
pub fn hanraquin_gate_write(destination: u8, source: u8, src: &[u8], out: &mut [u8]) -> u64
    ensures { written result out.new ≡ write_call destination source src.now out.old }
{
    c_answer::of_writing(gate_telegram::write(destination, source, src, out))
}

// How many numbers a state has.
const STATE: usize = 7;

// Whether seven numbers are small enough for what they stand for.
#[tactic(auto, unfolding(crate::specs::Bus::fits))]
fn is_fitting(words: &[u64; STATE]) -> bool
    ensures { result ≡ fits words.now }
{
    let [_, destination, source, size, _, check, high] = *words;
    destination <= 255 && source <= 255 && size <= 255 && check <= 65535 && high <= 255
}

// The state that fitting numbers stand for.
#[tactic(auto, unfolding(crate::specs::Bus::state_at, crate::specs::Bus::state_of))]
fn state_at(words: &[u64; STATE]) -> GateState
    requires { fits words.now ≡ true }
    ensures { result ≡ state_at words.now }
{
    let destination = words[1] as u8;
    let source = words[2] as u8;
    let size = words[3] as u8;
    let count = words[4] as usize;
    let check = words[5] as u16;
    let high = words[6] as u8;
    match words[0] {
        0 => GateState::Rest,
        1 => GateState::AtDestination,
        2 => GateState::AtSource { destination, check },
        3 => GateState::AtLength {
            destination,
            source,
            check,
        },
        4 => GateState::AtData {
            destination,
            source,
            size,
            stored: count,
            check,
        },
        5 => GateState::AtLowCheck {
            destination,
            source,
            size,
            check,
            high,
        },
        6 => GateState::OthersSource,
        7 => GateState::OthersLength,
        _ => GateState::Dropping { left: count },
    }
}

// The seven numbers of a state.
fn words_of(state: GateState) -> [u64; STATE]
    ensures { result ≡ state_words state }
{
    match state {
        GateState::Rest => [0, 0, 0, 0, 0, 0, 0],
        GateState::AtDestination => [1, 0, 0, 0, 0, 0, 0],
        GateState::AtSource { destination, check } => [
            2,
            destination as u64,
            0,
            0,
            0,
            check as u64,
            0,
        ],
        GateState::AtLength {
            destination,
            source,
            check,
        } => [3, destination as u64, source as u64, 0, 0, check as u64, 0],
        GateState::AtData {
            destination,
            source,
            size,
            stored,
            check,
        } => [
            4,
            destination as u64,
            source as u64,
            size as u64,
            stored as u64,
            check as u64,
            0,
        ],
        GateState::AtLowCheck {
            destination,
            source,
            size,
            check,
            high,
        } => [
            5,
            destination as u64,
            source as u64,
            size as u64,
            0,
            check as u64,
            high as u64,
        ],
        GateState::OthersSource => [6, 0, 0, 0, 0, 0, 0],
        GateState::OthersLength => [7, 0, 0, 0, 0, 0, 0],
        GateState::Dropping { left } => [8, 0, 0, 0, left as u64, 0, 0],
    }
}

// The state that numbers stand for, if they are those of a state: they fit, and are the numbers of that state.
fn state_from(words: &[u64]) -> Option<GateState>
    ensures { result ≡ pick (is_state words.now) (Some (state_at words.now)) None }
{
    let words = words.as_array()?;
    if !is_fitting(words) {
        return None;
    }
    let state = state_at(words);
    if *words == words_of(state) {
        Some(state)
    } else {
        None
    }
}

// Writes a state as seven numbers.
fn put_state(state: GateState, words: &mut [u64])
    requires { length words.old ≡ 7 }
    ensures { words.new ≡ state_words state }
{
    let numbers = words_of(state);
    // By `copy_from_slice` the call from C asked whether the two overlap.
    for (place, number) in numbers.iter().enumerate() {
        words[place] = *number;
    }
}

// The answer to an event.
fn of_answer(answer: Result<GateAnswer, GateRefusal>) -> u64
    ensures { result ≡ of_response (response_of answer) }
{
    match answer {
        Ok(GateAnswer::Nothing) => 0,
        Ok(GateAnswer::Telegram { source, size }) => 65536 + 256 * source as u64 + size as u64,
        Ok(GateAnswer::Token { source }) => 131072 + source as u64,
        Err(r) => c_answer::refused(r),
    }
}

// One event at the receiver whose state is seven numbers: gate_receive::receive. The value is 0 for nothing; 65536, 256 times
// the source and the number of data bytes for a telegram; 131072 and the source for a token.
// Refused with 1, and all as it was: an event that is neither a byte nor the timer, numbers that are no state, and what the
// receiver refuses so. Every other refusal leaves seven zeros.
pub fn hanraquin_gate_receive(
    own: u8,
    state: &mut [u64],
    store: &mut [u8],
    event: u32,
    out: &mut [u8],
) -> u64
    ensures { received result state.new store.new out.new ≡ receive_call own state.old store.old event out.old }
{
    if TIMER < event {
        return c_answer::refused(GateRefusal::Setup);
    }
    let Some(before) = state_from(state) else {
        return c_answer::refused(GateRefusal::Setup);
    };
    let step = gate_receive::receive(own, before, store, c_answer::event_at(event), out);
    put_state(step.state, state);
    of_answer(step.answer)
}

// The levels or edges that numbers stand for, if there are ten, each 0 or 1.
fn bits_from(words: &[u8]) -> Option<[bool; COMMANDS]>
    ensures { result ≡ pick (is_bits words.now) (Some (bits_at words.now)) None }
{
    let words = words.as_array()?;
    if words.iter().all(|word| *word <= 1) {
        Some(words.map(|word| word == 1))
    } else {
        None
    }
}

// Writes levels or edges as ten numbers.
fn put_bits(bits: [bool; COMMANDS], words: &mut [u8])
    requires { length words.old ≡ 10 }
    ensures { words.new ≡ bit_numbers bits }
{
    // By `map` into an array and `copy_from_slice` the call from C took twice the time.
    for (place, bit) in bits.iter().enumerate() {
        words[place] = *bit as u8;
    }
}

// The answer of an operating command: 1 for ack, 2 for nak.
fn of_verdict(answer: Result<OperateAnswer, GateRefusal>) -> u64
    ensures { result ≡ of_verdict (verdict_of answer) }
{
    match answer {
        Ok(OperateAnswer::Ack) => 1,
        Ok(OperateAnswer::Nak) => 2,
        Err(r) => c_answer::refused(r),
    }
}

// An operating command carried out on ten levels and ten edges: gate_commands::operate. The value is 1 for ack and 2 for nak.
// Refused, and all as it was: 1 for levels or edges that are not ten, or one above 1; then what operate refuses, 7 and 3.
pub fn hanraquin_gate_operate(src: &[u8], levels: &mut [u8], edges: &mut [u8]) -> u64
    ensures { operated result levels.new edges.new ≡ operate_call src.now levels.old edges.old }
{
    let Some(levels_before) = bits_from(levels) else {
        return c_answer::refused(GateRefusal::Setup);
    };
    let Some(edges_before) = bits_from(edges) else {
        return c_answer::refused(GateRefusal::Setup);
    };
    let before = GateRegisters {
        levels: levels_before,
        edges: edges_before,
    };
    let done = gate_commands::operate(before, src);
    put_bits(done.registers.levels, levels);
    put_bits(done.registers.edges, edges);
    of_verdict(done.answer)
}

// The operating command with these two bytes: gate_commands::write_command. The value is its length.
pub fn hanraquin_gate_write_command(command: u8, function: u8, out: &mut [u8]) -> u64
    ensures { written result out.new ≡ write_command_call command function out.old }
{
    c_answer::of_writing(gate_commands::write_command(command, function, out))
}

// The position with a number, which is judged before it is narrowed.
fn position_at(number: i32) -> Result<BarrierAnswer, GateRefusal>
    ensures { reading_of result ≡ position_at number }
{
    if gate_answers::is_position(number) {
        Ok(BarrierAnswer::Position(number as i8))
    } else {
        Err(GateRefusal::Position)
    }
}

// The answer with a kind and a number. Functions, and no `From`, here and below: neither type is of this crate.
#[tactic(auto, unfolding(crate::specs::Answers::answer_at))]
fn answer_at(kind: u8, number: i32) -> Result<BarrierAnswer, GateRefusal>
    ensures { reading_of result ≡ answer_at kind number }
{
    match kind {
        ACK => Ok(BarrierAnswer::Ack),
        NAK => Ok(BarrierAnswer::Nak),
        BUSY => Ok(BarrierAnswer::Busy),
        SYN => Ok(BarrierAnswer::Syn),
        COUNT => Ok(BarrierAnswer::Count(number)),
        POSITION => position_at(number),
        _ => Err(GateRefusal::Kind),
    }
}

// The answer with this kind, its first byte, and this number: gate_answers::write_answer. The value is its length.
// Refused, and out as it was: 3 for an unknown kind; then what the writer refuses, 10 and 11. The number is judged as it is.
pub fn hanraquin_gate_write_answer(kind: u8, number: i32, out: &mut [u8]) -> u64
    ensures { written result out.new ≡ write_answer_call kind number out.old }
{
    match answer_at(kind, number) {
        Ok(answer) => c_answer::of_writing(gate_answers::write_answer(answer, out)),
        Err(r) => c_answer::refused(r),
    }
}

// The kind of an answer, its first byte.
fn kind_of(answer: BarrierAnswer) -> u64
    ensures { result ≡ done (kind_of answer) }
{
    match answer {
        BarrierAnswer::Ack => ACK as u64,
        BarrierAnswer::Nak => NAK as u64,
        BarrierAnswer::Busy => BUSY as u64,
        BarrierAnswer::Syn => SYN as u64,
        BarrierAnswer::Count(_) => COUNT as u64,
        BarrierAnswer::Position(_) => POSITION as u64,
    }
}

// The number of an answer, 0 where it has none.
fn number_of(answer: BarrierAnswer) -> i32
    ensures { result ≡ number_in answer }
{
    match answer {
        BarrierAnswer::Count(z) => z,
        BarrierAnswer::Position(z) => z as i32,
        _ => 0,
    }
}

// The answer that bytes are: gate_answers::read_answer. The value is its kind; its number, or 0 where it has none, is put
// into number. Refused, and the number as it was: 1 for a number that does not have one place; then what the reader refuses,
// 7, 3 and 10.
pub fn hanraquin_gate_read_answer(src: &[u8], number: &mut [i32]) -> u64
    ensures { answer_told result number.new ≡ read_answer_call src.now number.old }
{
    // A test and an index: of a slice pattern with the one place the proof did not close.
    if number.len() != 1 {
        return c_answer::refused(GateRefusal::Setup);
    }
    match gate_answers::read_answer(src) {
        Ok(answer) => {
            number[0] = number_of(answer);
            kind_of(answer)
        }
        Err(r) => c_answer::refused(r),
    }
}
