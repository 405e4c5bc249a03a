// The answers of a barrier, written and read.
#![tactic(auto)]

ghost use Rattle.std.specs.Prelude.{◌≡◌};
ghost use Rattle.base.specs.Filling.{fitted};
ghost use Rattle.signed.specs.Signed.{top8, signed_of};
ghost use Rattle.gate_refusal.specs.Writing.{filling_of};
ghost use Rattle.gate_answers.specs.Answers.{is_position, answer_writing, reading_of, position_at, answer_reading};

use gate_refusal::GateRefusal;
use signed::TwosComplement;

// The first bytes of the answers.
pub const ACK: u8 = 0x01;

pub const NAK: u8 = 0x02;

pub const BUSY: u8 = 0x03;

pub const SYN: u8 = 0x04;

pub const COUNT: u8 = 0x1C;

pub const POSITION: u8 = 0x1D;

// Yes; no; not at present; it takes time, and another answer follows; the vehicle count; the position of the beam in percent, or
// -1 where it is unknown.
#[derive(Clone, Copy, Debug, PartialEq, Eq)]
pub enum BarrierAnswer {
    Ack,
    Nak,
    Busy,
    Syn,
    Count(i32),
    Position(i8),
}

// Whether a number is a position.
pub fn is_position(z: i32) -> bool
    ensures { result ≡ is_position z }
{
    -1 <= z && z <= 100
}

// Writes the bytes of an answer.
fn write_bytes(bytes: &[u8], out: &mut [u8]) -> Result<usize, GateRefusal>
    ensures { filling_of result out.new ≡ fitted bytes.now out.old }
{
    // By `ok_or` the call from C tested again whether there was room.
    match places::fit(bytes, out) {
        Some(size) => Ok(size),
        None => Err(GateRefusal::OutputShort),
    }
}

// The bytes of an answer in the first places of out, and their number; the other places keep their values.
// Refused, and out as it was: 10 for a position that is not -1 to 100, then 11 for an output that is too short.
#[tactic(auto, unfolding(crate::specs::Answers::answer_writing, crate::specs::Answers::is_answer, crate::specs::Answers::answer_bytes))]
pub fn write_answer(answer: BarrierAnswer, out: &mut [u8]) -> Result<usize, GateRefusal>
    ensures { filling_of result out.new ≡ answer_writing answer out.old }
{
    match answer {
        BarrierAnswer::Ack => write_bytes(&[ACK], out),
        BarrierAnswer::Nak => write_bytes(&[NAK], out),
        BarrierAnswer::Busy => write_bytes(&[BUSY], out),
        BarrierAnswer::Syn => write_bytes(&[SYN], out),
        BarrierAnswer::Count(z) => {
            let [first, second, third, fourth] = signed::four_bytes(z.to_bits());
            write_bytes(&[COUNT, first, second, third, fourth], out)
        }
        BarrierAnswer::Position(z) if !is_position(z as i32) => Err(GateRefusal::Position),
        BarrierAnswer::Position(z) => write_bytes(&[POSITION, z.to_bits()], out),
    }
}

// The position that a byte stands for.
fn read_position(bits: u8) -> Result<BarrierAnswer, GateRefusal>
    ensures { reading_of result ≡ position_at (signed_of top8 bits) }
{
    let z = i8::from_bits(bits);
    if is_position(z as i32) {
        Ok(BarrierAnswer::Position(z))
    } else {
        Err(GateRefusal::Position)
    }
}

// The answer that bytes are. Refused: 7 for no byte at all; then 3 for an unknown kind; then 7 for a known kind of another
// length; then 10 for a position that is not -1 to 100.
#[tactic(auto, unfolding(crate::specs::Answers::answer_reading, crate::specs::Answers::kind_reading))]
pub fn read_answer(src: &[u8]) -> Result<BarrierAnswer, GateRefusal>
    ensures { reading_of result ≡ answer_reading src.now }
{
    match *src {
        [ACK] => Ok(BarrierAnswer::Ack),
        [NAK] => Ok(BarrierAnswer::Nak),
        [BUSY] => Ok(BarrierAnswer::Busy),
        [SYN] => Ok(BarrierAnswer::Syn),
        [COUNT, first, second, third, fourth] => {
            let bits = signed::of_four([first, second, third, fourth]);
            Ok(BarrierAnswer::Count(i32::from_bits(bits)))
        }
        [POSITION, bits] => read_position(bits),
        [] | [ACK | NAK | BUSY | SYN | COUNT | POSITION, ..] => Err(GateRefusal::Length),
        _ => Err(GateRefusal::Kind),
    }
}
