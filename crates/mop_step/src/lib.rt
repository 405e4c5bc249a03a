// The step of a station on a telegram whose header is in order: it relays the telegram, or carries it out and answers.
#![tactic(auto)]

ghost use Rattle.std.specs.Prelude.{◌≡◌, List, ℕ, ◌+◌, ◌*◌, ◌≤◌, leb, length, take, drop};
ghost use Rattle.std.proofs.lemmas.List.Edits.{sets};
ghost use Rattle.base.specs.Words.{words_of};
ghost use Rattle.base.specs.Places.{placed};
ghost use Rattle.mop_registers.specs.Rows.{place_of, table_length};
ghost use Rattle.mop_block.specs.Block.{next};
ghost use Rattle.mop_header.specs.Header.{head_of, header_length, sent_back};
ghost use Rattle.mop_body.specs.Body.{read_start, read_count, write_start, values_of, reply_with};
ghost use Rattle.mop_step.specs.Body.{accepts, judged_runs, judged_body};
ghost use Rattle.mop_step.specs.Private.Verdicts.{acceptance_of};
ghost use Rattle.mop_step.specs.Step.{is_station, relayed, relaying, answering, acting, stepping, lending, step_call_of};

use mop_header::{Function, Header};
use mop_registers::TABLE_LENGTH;
use refusal::Refusal;

// Places for the longest body of a reply: three bytes, and the values of the longest run.
pub const REPLY_BODY: usize = 19;

// What a step gives: the header of the telegram that is relayed, with its own body; the header of the reply, and how many bytes
// its body has; or "not mine".
#[derive(Clone, Copy)]
pub enum StationStep {
    Relayed(Header),
    Answered(Header, usize),
    NotMine,
}

// A telegram whose header is in order, in its parts. The public step takes them apart, as its callers hold them. The table's
// length stays a clause beside it: an array of that length would be tested for again behind is_station. Registers, room and reply
// are handed on one by one: a struct of two mutable borrows and a number says no more, and each contract tells of both borrows,
// before and after.
#[derive(Clone, Copy)]
struct Telegram<'a> {
    header: Header,
    block: &'a [u8],
    body: &'a [u8],
}

// Whether an own address and a table are those of a station.
pub fn is_station(own: u8, registers: &[u16]) -> bool
    ensures { result ≡ is_station own registers.now }
{
    mop_block::is_address(own) && registers.len() == TABLE_LENGTH
}

// Whether a header and a body of so many bytes have room.
fn has_room(header: Header, body: usize, room: usize) -> bool
    ensures { (slice : List ℕ) → result ≡ leb (header_length (head_of header slice) + body) room }
{
    let n = header.length();
    n <= room && body <= room - n
}

// A reply as it is sent: rolled right, then marked.
fn sent_back(header: Header, block: &[u8]) -> Header
    ensures { head_of result block.now ≡ sent_back (head_of header block.now) }
{
    header.rolled_right().remarked(block)
}

// The header that a relay sends on.
fn relayed_header(header: Header, block: &[u8]) -> Header
    ensures { head_of result block.now ≡ relayed header.function (head_of header block.now) }
{
    match header.function {
        Function::Request => header.rolled_left(),
        Function::Reply => sent_back(header, block),
    }
}

// A relay: the header that it sends on, or 11. It is given no registers, and of the body it looks at the length.
fn relay(telegram: Telegram, room: usize) -> Result<StationStep, Refusal>
    ensures { (t reply : List ℕ) → step_call_of result telegram.entry.block.now t reply ≡ lending (relaying (head_of telegram.entry.header telegram.entry.block.now) telegram.entry.body.now t room) t reply }
{
    let sent = relayed_header(telegram.header, telegram.block);
    if !has_room(sent, telegram.body.len(), room) {
        return Err(Refusal::OutputShort);
    }
    Ok(StationStep::Relayed(sent))
}

// Whether a destination accepts the runs of a request, or why not.
fn judge_runs(
    rstart: u16,
    rcount: u8,
    wstart: u16,
    wcount: u8,
    values: &[u8],
) -> Result<(), Refusal>
    ensures { acceptance_of result ≡ judged_runs rstart rcount wstart wcount (words_of values.now) }
{
    if !mop_registers::run_exists(rstart, rcount) || !mop_registers::run_exists(wstart, wcount) {
        return Err(Refusal::NoRegister);
    }
    if !mop_registers::run_may_write(wstart, wcount) {
        return Err(Refusal::NoWrite);
    }
    if !mop_registers::run_takes(wstart, values) {
        return Err(Refusal::ValueRange);
    }
    Ok(())
}

// Whether a destination accepts a body, or why not.
fn judge_body(body: &[u8]) -> Result<(), Refusal>
    ensures { acceptance_of result ≡ judged_body body.now }
{
    let [r1, r0, rcount, w1, w0, wcount, ref values @ ..] = *body else {
        return Err(Refusal::BodyLength);
    };
    if values.len() != 2 * wcount as usize {
        return Err(Refusal::BodyLength);
    }
    let rstart = words::word_of(r1, r0);
    let wstart = words::word_of(w1, w0);
    judge_runs(rstart, rcount, wstart, wcount, values)
}

// All the writes of a body, from the place of its write start on. Here and in the two below the body is read by index, as it came: a
// struct of its parts would have to be told equal to it in each contract, since the definitions speak of the body.
fn write_registers(body: &[u8], registers: &mut [u16])
    requires { 6 ≤ length body.now }
    ensures { registers.new ≡ sets registers.old (place_of (write_start body.now)) (values_of body.now) }
{
    let start = words::word_of(body[3], body[4]);
    let at = mop_registers::place_of(start as usize);
    words::store_words(&body[6..], registers, at);
}

// Puts the body of the reply into the first places: its values are those of the table from the place of the read start on.
fn put_reply(body: &[u8], registers: &[u16], reply: &mut [u8])
    requires in_bounds { 6 ≤ length body.now }
    requires body_in_bounds { place_of (read_start body.now) + read_count body.now ≤ length registers.now }
    requires body_in_bounds_2 { 3 + 2 * read_count body.now ≤ length reply.old }
    ensures { reply.new ≡ placed (reply_with body.now (take (read_count body.now) (drop (place_of (read_start body.now)) registers.now))) reply.old }
{
    let start = words::word_of(body[0], body[1]);
    let at = mop_registers::place_of(start as usize);
    let end = at + body[2] as usize;
    places::put(&body[..3], reply, 0);
    words::put_words(&registers[at..end], reply, 3);
}

// Carries out a body that is accepted: 11, or all the writes, then the reads.
fn carry_out(
    telegram: Telegram,
    registers: &mut [u16],
    room: usize,
    reply: &mut [u8],
) -> Result<StationStep, Refusal>
    requires body_value { judged_body telegram.body.now ≡ accepts }
    requires registers_len { length registers.old ≡ table_length }
    ensures { step_call_of result telegram.entry.block.now registers.new reply.new ≡ lending (answering accepts (head_of telegram.entry.header telegram.entry.block.now) telegram.entry.body.now registers.old room) registers.old reply.old }
{
    let body = telegram.body;
    let sent = sent_back(telegram.header.as_reply(), telegram.block);
    let n = 3 + 2 * body[2] as usize;
    if !has_room(sent, n, room) || reply.len() < n {
        return Err(Refusal::OutputShort);
    }
    write_registers(body, registers);
    put_reply(body, registers, reply);
    Ok(StationStep::Answered(sent, n))
}

// A destination: its refusals, or what it carries out.
fn answer(
    telegram: Telegram,
    registers: &mut [u16],
    room: usize,
    reply: &mut [u8],
) -> Result<StationStep, Refusal>
    requires { length registers.old ≡ table_length }
    ensures { step_call_of result telegram.entry.block.now registers.new reply.new ≡ lending (answering (judged_body telegram.entry.body.now) (head_of telegram.entry.header telegram.entry.block.now) telegram.entry.body.now registers.old room) registers.old reply.old }
{
    judge_body(telegram.body)?;
    carry_out(telegram, registers, room, reply)
}

// A telegram for this station: it is the destination of a request if the next entry is 00, and else a relay.
fn act(
    telegram: Telegram,
    registers: &mut [u16],
    room: usize,
    reply: &mut [u8],
) -> Result<StationStep, Refusal>
    requires { length registers.old ≡ table_length }
    ensures { step_call_of result telegram.entry.block.now registers.new reply.new ≡ lending (acting telegram.entry.header.function (next (head_of telegram.entry.header telegram.entry.block.now).block) (head_of telegram.entry.header telegram.entry.block.now) telegram.entry.body.now registers.old room) registers.old reply.old }
{
    match telegram.header.function {
        Function::Request => {
            if telegram.header.next(telegram.block) == 0 {
                answer(telegram, registers, room, reply)
            } else {
                relay(telegram, room)
            }
        }
        Function::Reply => relay(telegram, room),
    }
}

// The step of a station on a telegram whose header is in order; so many bytes can be sent. Relayed: the header that is sent on.
// Answered: the header of the reply, and how many places of the lent buffer its body fills; the others keep their values.
// Not mine: the first entry is another's, or 00. Refused: 1 for the own address or the table's length; at the destination 7, 8,
// 9, 10 for the body; 11 where there is no room for what is to be sent, or for the body of a reply in the lent buffer, which has
// room for every one if it has REPLY_BODY places. Unless it answers, registers and buffer are as they were.
pub fn step(
    own: u8,
    header: Header,
    block: &[u8],
    body: &[u8],
    registers: &mut [u16],
    room: usize,
    reply: &mut [u8],
) -> Result<StationStep, Refusal>
    ensures { step_call_of result block.now registers.new reply.new ≡ lending (stepping own (head_of header block.now) body.now registers.old room) registers.old reply.old }
{
    if !is_station(own, registers) {
        return Err(Refusal::Setup);
    }
    if header.first(block) != own {
        return Ok(StationStep::NotMine);
    }
    let telegram = Telegram {
        header,
        block,
        body,
    };
    act(telegram, registers, room, reply)
}
