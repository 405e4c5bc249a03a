// What a station does with a telegram: its header is read, the step made, and what is to be sent written.
#![tactic(auto)]

ghost use Rattle.std.specs.Prelude.{◌≡◌, List, ℕ, ◌≤◌, length, drop};
ghost use Rattle.mop_header.specs.Header.{head_of, header_length, telegram_of, block_start};
ghost use Rattle.mop_reader.specs.Reading.{sound};
ghost use Rattle.mop_step.specs.Step.{stepping};
ghost use Rattle.mop_station.specs.Station.{handling_of, sending, taking, hearing, handling};

use mop_header::Header;
use mop_reader::Reader;
use mop_step::{REPLY_BODY, StationStep};
use refusal::Refusal;

// Sends a telegram for which there is room. Header, block and body are handed on one by one here, as the public calls below and
// above take them.
fn send(header: Header, block: &[u8], body: &[u8], out: &mut [u8]) -> Result<Option<usize>, Refusal>
    requires { length (telegram_of (head_of header block.now) body.now) ≤ length out.old }
    ensures { (t : List ℕ) → handling_of result t out.new ≡ sending (telegram_of (head_of header block.now) body.now) t out.old }
{
    let n = mop_header::write(header, block, body, out)?;
    Ok(Some(n))
}

// The step, and what is to be sent in the output.
fn take_telegram(
    own: u8,
    header: Header,
    block: &[u8],
    body: &[u8],
    registers: &mut [u16],
    out: &mut [u8],
) -> Result<Option<usize>, Refusal>
    ensures { handling_of result registers.new out.new ≡ taking (stepping own (head_of header block.now) body.now registers.old (length out.old)) body.now out.old }
{
    // A fixed room, and a length from the step: no heap.
    let mut reply = [0u8; REPLY_BODY];
    let room = out.len();
    match mop_step::step(own, header, block, body, registers, room, &mut reply)? {
        StationStep::Relayed(h) => send(h, block, body, out),
        StationStep::Answered(h, n) => send(h, block, &reply[..n], out),
        StationStep::NotMine => Ok(None),
    }
}

// A telegram with a header in order: its block, and the body behind it.
fn hear(
    own: u8,
    header: Header,
    telegram: &[u8],
    registers: &mut [u16],
    out: &mut [u8],
) -> Result<Option<usize>, Refusal>
    requires { header_length (head_of header (drop (block_start header.form) telegram.now)) ≤ length telegram.now }
    ensures { handling_of result registers.new out.new ≡ hearing (sound (head_of header (drop (block_start header.form) telegram.now))) own telegram.now registers.old out.old }
{
    let block = &telegram[header.block_start()..];
    let body = &telegram[header.length()..];
    take_telegram(own, header, block, body, registers, out)
}

// One telegram at a station: its header is read, the step made, and what is to be sent written. What is sent fills the first
// places of out, and its length is given back; the other places keep their values.
// None, not mine: the first entry is another's, or 00; registers and out are as they were.
// Refused, and registers and out as they were: 1 for the own address or the table's length; 12, 2, 3, 4, 5, 6 for the
// header; at the destination 7, 8, 9, 10 for the body; 11 for an output that is too short for what is to be sent.
pub fn handle(
    own: u8,
    registers: &mut [u16],
    telegram: &[u8],
    out: &mut [u8],
) -> Result<Option<usize>, Refusal>
    ensures { handling_of result registers.new out.new ≡ handling own registers.old telegram.now out.old }
{
    if !mop_step::is_station(own, registers) {
        return Err(Refusal::Setup);
    }
    let header = mop_reader::read(Reader::Station, telegram)?;
    hear(own, header, telegram, registers, out)
}
