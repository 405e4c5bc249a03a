// The text that tells the journey of a telegram, as the program prints it.
#![tactic(auto)]

ghost use Rattle.std.specs.Prelude.{◌≡◌, ◌+◌, ◌*◌, ◌≤◌, ◌<◌, true, [], ◌∷◌, length, drop};
ghost use Rattle.base.specs.Filling.{filled};
ghost use Rattle.base.specs.Private.Writing.{writing, writing_of};
ghost use Rattle.refusal.specs.Numbers.{number_of};
ghost use Rattle.mop_header.specs.Header.{head_of, block_start};
ghost use Rattle.mop_reader.specs.Reading.{sound, max_entries, reading};
ghost use Rattle.mop_reader.specs.declared.Reader.TheVariants.{Station};
ghost use Rattle.net_journey.specs.Bounded.{playing, most_transmissions};
ghost use Rattle.net_hop.specs.Tables.{net_of, set_up};
ghost use Rattle.net_hop.specs.Hop.{places_of, ending_of};
ghost use Rattle.net_hop.specs.Private.Ways.{OnItsWay};
ghost use Rattle.net_report.specs.Text.{hex_digit, hex_bytes, decimal, head_line, refused_text, ending_text, closing, outright_text};
ghost use Rattle.net_report.specs.Report.{leaves, report_of, report_output, tells_course, reporting};
ghost use Rattle.net_report.specs.Private.Legs.{most_characters, telling_from, LegBy};

use mop_header::Header;
use mop_reader::Reader;
use mop_step::REPLY_BODY;
use net_hop::{HopAnswer, JourneyEnd, MOST_TRANSMISSIONS};
use refusal::{Numbered, Refusal};
use std::ops::ControlFlow;

// The places of the output that a report asks for: more than the longest text has characters.
const REPORT_OUTPUT: usize = 6500;

// A capital hex digit. Digits are made by hand: each character is promised at its place in the output, which no formatter does.
fn hex_digit(n: u8) -> u8
    requires { n < 16 }
    ensures { result ≡ hex_digit n }
{
    if n < 10 { b'0' + n } else { b'A' + (n - 10) }
}

// Each function below that writes gives back the place behind what it wrote, and has a bound for it. The output and the place
// stay two parameters: a struct that holds them needs clauses in each function that it keeps its output and the output's length.

// A byte in two hex digits, behind a space.
fn write_byte(b: u8, out: &mut [u8], at: usize) -> usize
    requires { at + 3 ≤ length out.old }
    ensures out_after { writing_of result out.new ≡ writing at (hex_bytes (b ∷ [])) out.old }
    ensures upper_bound { result ≤ at + 3 }
{
    // By index: by `put` each entry that is told cost a call of memcpy, and a report took twice the time.
    let high = hex_digit(b / 16);
    let low = hex_digit(b % 16);
    out[at] = b' ';
    out[at + 1] = high;
    out[at + 2] = low;
    at + 3
}

// The entries of a header's block in hex.
fn write_entries(header: Header, block: &[u8], out: &mut [u8], at: usize) -> usize
    requires { at + 3 * length (head_of header block.now).block ≤ length out.old }
    ensures out_after { writing_of result out.new ≡ writing at (hex_bytes (head_of header block.now).block) out.old }
    ensures upper_bound { result ≤ at + 3 * length (head_of header block.now).block }
{
    let mut place = at;
    for i in 0..header.entry_count() {
        place = write_byte(header.entry(block, i), out, place);
    }
    place
}

// A number in decimal; each that is told is under 100.
fn write_decimal(n: u8, out: &mut [u8], at: usize) -> usize
    requires { at + 2 ≤ length out.old }
    ensures out_after { writing_of result out.new ≡ writing at (decimal n) out.old }
    ensures upper_bound { result ≤ at + 2 }
{
    if n < 10 {
        out[at] = b'0' + n;
        return at + 1;
    }
    out[at] = b'0' + n / 10;
    out[at + 1] = b'0' + n % 10;
    at + 2
}

// The line of a transmission with this header.
fn write_line(number: u8, header: Header, block: &[u8], out: &mut [u8], at: usize) -> usize
    requires block_len_bound { length (head_of header block.now).block ≤ max_entries }
    requires most_characters_in_bounds { at + most_characters ≤ length out.old }
    ensures out_after { writing_of result out.new ≡ writing at (head_line number (head_of header block.now)) out.old }
    ensures upper_bound { result ≤ at + most_characters }
{
    let mut place = write_decimal(number, out, at);
    place = write_byte(mop_header::function_byte(header.function), out, place);
    place = write_entries(header, block, out, place);
    out[place] = b'\n';
    place + 1
}

// "refused " and the refusal's number.
fn write_refused(refusal: Refusal, out: &mut [u8], at: usize) -> usize
    requires { at + 10 ≤ length out.old }
    ensures out_after { writing_of result out.new ≡ writing at (refused_text (number_of refusal)) out.old }
    ensures upper_bound { result ≤ at + 10 }
{
    places::put(b"refused ", out, at);
    write_decimal(refusal.number(), out, at + 8)
}

// What follows the count.
fn write_ending(end: JourneyEnd, out: &mut [u8], at: usize) -> usize
    requires { at + 11 ≤ length out.old }
    ensures out_after { writing_of result out.new ≡ writing at (ending_text (ending_of end)) out.old }
    ensures upper_bound { result ≤ at + 11 }
{
    match end {
        JourneyEnd::AtZero | JourneyEnd::AtNobody => at,
        JourneyEnd::Refused(refusal) => {
            out[at] = b' ';
            write_refused(refusal, out, at + 1)
        }
    }
}

// The last line of a journey.
fn write_closing(count: u8, end: JourneyEnd, out: &mut [u8], at: usize) -> usize
    requires { at + 19 ≤ length out.old }
    ensures out_after { writing_of result out.new ≡ writing at (closing count (ending_of end)) out.old }
    ensures upper_bound { result ≤ at + 19 }
{
    places::put(b"sent ", out, at);
    let mut place = write_decimal(count, out, at + 5);
    place = write_ending(end, out, place);
    out[place] = b'\n';
    place + 1
}

// The whole text of a call that is refused outright.
fn write_outright(refusal: Refusal, out: &mut [u8]) -> usize
    requires { 11 ≤ length out.old }
    ensures out_after { writing_of result out.new ≡ writing 0 (outright_text (number_of refusal)) out.old }
    ensures upper_bound { result ≤ 11 }
{
    let place = write_refused(refusal, out, 0);
    out[place] = b'\n';
    place + 1
}

// Where a destination answered: the header of the reply, how many bytes its body has, how many transmissions are told, and the
// place behind their lines.
#[derive(Clone, Copy)]
struct Turn {
    header: Header,
    length: usize,
    told: u8,
    place: usize,
}

// A leg of a journey, told from a place on: a line for each transmission. Where the journey ends the last line follows, and the
// text ends before the place given back; where a destination answers the leg stops. What is behind the loop is never told, since
// no journey has more transmissions. `walk` of net_dry_run is a loop of its own: shared, it would need a closure with a contract
// for the line of each transmission. Nine parameters: no other function takes them, and a struct of them would be made and taken
// apart for this one alone.
fn write_leg(
    first: Header,
    block: &[u8],
    body: &[u8],
    before: u8,
    addresses: &[u8],
    tables: &mut [u16],
    reply: &mut [u8; REPLY_BODY],
    out: &mut [u8],
    at: usize,
) -> ControlFlow<usize, Turn>
    requires on_its_way { OnItsWay addresses.now (places_of addresses.now) tables.old before (head_of first block.now) body.now }
    requires at_bound { at ≤ most_characters * before }
    requires report_output_in_bounds { report_output ≤ length out.old }
    ensures { LegBy (telling_from before at out.old (net_of addresses.now tables.old) (head_of first block.now) body.now) addresses.now first.function block.now tables.new reply.new out.new result }
{
    let places = net_hop::places_of(addresses);
    let mut header = first;
    let mut place = at;
    for gone in before..MOST_TRANSMISSIONS as u8 {
        let told = gone + 1;
        place = write_line(told, header, block, out, place);
        match net_hop::hop(header, block, body, &places, tables, reply) {
            HopAnswer::Relayed(h) => header = h,
            HopAnswer::Answered(header, length) => {
                return ControlFlow::Continue(Turn {
                    header,
                    length,
                    told,
                    place,
                });
            }
            HopAnswer::Ended(e) => {
                return ControlFlow::Break(write_closing(told, e, out, place));
            }
        }
    }
    let told = MOST_TRANSMISSIONS as u8 + 1;
    place = write_line(told, header, block, out, place);
    ControlFlow::Break(write_closing(told, JourneyEnd::AtZero, out, place))
}

// The text of the journey of a telegram that was read: to its end, or to its destination and then home. The reply is only
// relayed, so that nobody answers it.
fn write_journey(
    header: Header,
    telegram: &[u8],
    addresses: &[u8],
    tables: &mut [u16],
    out: &mut [u8],
) -> usize
    requires telegram_value { reading Station telegram.now ≡ sound (head_of header (drop (block_start header.form) telegram.now)) }
    requires tables_value { set_up addresses.now tables.old ≡ true }
    requires report_output_in_bounds { report_output ≤ length out.old }
    ensures { leaves (filled result) tables.new out.new ≡ tells_course (playing most_transmissions (net_of addresses.now tables.old) telegram.now) out.old }
{
    let block = &telegram[header.block_start()..];
    let body = &telegram[header.length()..];
    // A fixed room, and a length from the answer: no heap.
    let mut reply = [0u8; REPLY_BODY];
    match write_leg(
        header, block, body, 0, addresses, tables, &mut reply, out, 0,
    ) {
        ControlFlow::Break(end) => end,
        ControlFlow::Continue(turn) => {
            let back = &reply[..turn.length];
            let mut unused = [0u8; REPLY_BODY];
            match write_leg(
                turn.header,
                block,
                back,
                turn.told,
                addresses,
                tables,
                &mut unused,
                out,
                turn.place,
            ) {
                ControlFlow::Break(end) => end,
                ControlFlow::Continue(_) => unreachable!(),
            }
        }
    }
}

// The journey of a telegram over the stations with these addresses, whose tables stand end to end, told as text in the first
// places of out: it is the one journey of that net (`tells_the_journey`, specs/Report.antt). A net that is set up wrongly and
// a fault of the header are told as text too; the tables are then as they were.
// Refused with 11, and all as it was: an output of fewer than 6,500 places.
pub fn report(
    telegram: &[u8],
    addresses: &[u8],
    tables: &mut [u16],
    out: &mut [u8],
) -> Result<usize, Refusal>
    ensures { report_of result tables.new out.new ≡ reporting telegram.now addresses.now tables.old out.old }
{
    if out.len() < REPORT_OUTPUT {
        return Err(Refusal::OutputShort);
    }
    if !net_hop::is_set_up(addresses, tables) {
        return Ok(write_outright(Refusal::Setup, out));
    }
    match mop_reader::read(Reader::Station, telegram) {
        Err(refusal) => Ok(write_outright(refusal, out)),
        Ok(header) => Ok(write_journey(header, telegram, addresses, tables, out)),
    }
}
