// The centre of a net: it writes requests, and reads the replies to them.
#![tactic(auto)]

ghost use Rattle.std.specs.Prelude.{◌≡◌, ◌+◌, ◌*◌, ◌≤◌, Some, Ok, eqb, length, take, drop};
ghost use Rattle.refusal.specs.Writing.{filling_of};
ghost use Rattle.mop_block.specs.Block.{stations};
ghost use Rattle.mop_block.specs.Zipper.{zeros};
ghost use Rattle.mop_header.specs.Header.{head_of, block_start};
ghost use Rattle.mop_reader.specs.Reading.{sound, max_entries, reading};
ghost use Rattle.mop_reader.specs.declared.Reader.TheVariants.{Centre};
ghost use Rattle.mop_body.specs.Body.{read_count, request_body};
ghost use Rattle.mop_centre.specs.Request.{max_route, max_run, good_route, request_head, requesting};
ghost use Rattle.mop_centre.specs.Reply.{answer_of, route_places, read_out, reply_reading, Begins};

use mop_header::{Form, Function, Header, MARK, NEW_CONTROL};
use mop_reader::Reader;
use refusal::Refusal;

// The most stations of a route.
pub const MAX_ROUTE: usize = 31;

// The most registers of a run.
const MAX_RUN: usize = 255;

// What is read in a reply.
#[derive(Clone, Copy)]
pub struct Reply {
    // The stations in order, the destination last; 0 in the places that are left. No length beside: no heap, and the definition
    // fills the route up with 0.
    pub route: [u8; MAX_ROUTE],
    // The number of the first register that was read, and how many were.
    pub start: u16,
    pub count: u8,
    // The place in the telegram where the bytes of the values begin.
    pub values_at: usize,
}

// Whether bytes are a route.
fn is_route(route: &[u8]) -> bool
    ensures { result ≡ good_route route.now }
{
    match route.len() {
        1..=MAX_ROUTE => mop_block::distinct_addresses(route),
        _ => false,
    }
}

// Room for the entries of the longest block of a request: a route, and a 00.
const REQUEST_BLOCK: usize = MAX_ROUTE + 1;

// The header of a request, and its block: the route, and 00s behind it. A standard one for up to three stations, else an extended
// one.
fn request_header(route: &[u8]) -> (Header, [u8; REQUEST_BLOCK])
    requires { length route.now ≤ max_route }
    ensures { head_of result.0 result.1 ≡ request_head route.now }
{
    let n = route.len();
    let mut block = [0u8; REQUEST_BLOCK];
    places::put(route, &mut block, 0);
    if n <= 3 {
        (
            Header::new(Function::Request, NEW_CONTROL, Form::Standard, 4),
            block,
        )
    } else {
        let count = (n + 1) as u8;
        (
            Header::new(Function::Request, NEW_CONTROL, Form::Extended(MARK), count),
            block,
        )
    }
}

// Room for the longest body of a request: six bytes, and the values of the longest run.
const REQUEST_BODY: usize = 6 + 2 * MAX_RUN;

// The body of a request in the first places: a fixed room and a length, since there is no heap.
fn request_body(rstart: u16, rcount: u8, wstart: u16, values: &[u16]) -> [u8; REQUEST_BODY]
    requires { length values.now ≤ max_run }
    ensures { take (6 + 2 * length values.now) result ≡ request_body rstart rcount wstart values.now }
{
    let [rhigh, rlow] = rstart.to_be_bytes();
    let [whigh, wlow] = wstart.to_be_bytes();
    let mut body = [0u8; REQUEST_BODY];
    places::put(
        &[rhigh, rlow, rcount, whigh, wlow, values.len() as u8],
        &mut body,
        0,
    );
    words::put_words(values, &mut body, 6);
    body
}

// A request to read rcount registers from number rstart on, and to write the values from number wstart on, at the last station
// of the route. It fills the first places of out; the other places keep their values. Refused, and out as it was: 5 for the
// route, 12 for more than 255 registers to read or values to write, 11 for an output that is too short.
pub fn write_request(
    route: &[u8],
    rstart: u16,
    rcount: usize,
    wstart: u16,
    values: &[u16],
    out: &mut [u8],
) -> Result<usize, Refusal>
    ensures { filling_of result out.new ≡ requesting route.now rstart rcount wstart values.now out.old }
{
    if !is_route(route) {
        return Err(Refusal::Block);
    }
    if MAX_RUN < rcount || MAX_RUN < values.len() {
        return Err(Refusal::TooLong);
    }
    let (header, block) = request_header(route);
    let body = request_body(rstart, rcount as u8, wstart, values);
    let n = 6 + 2 * values.len();
    mop_header::write(header, &block, &body[..n], out)
}

// The stations of a header's block, in order. The place counts these alone, and not the 00s.
fn route_of(header: Header, block: &[u8]) -> [u8; MAX_ROUTE]
    requires { length (stations (head_of header block.now).block) ≤ max_route }
    ensures { result ≡ route_places (stations (head_of header block.now).block) }
{
    let mut route = [0u8; MAX_ROUTE];
    let mut place: usize = 0;
    for i in 0..header.entry_count() {
        let a = header.entry(block, i);
        if a != 0 {
            route[place] = a;
            place += 1;
        }
    }
    route
}

// Whether a body is as long as its count says.
fn is_counted(body: &[u8]) -> bool
    ensures { result ≡ eqb (length body.now) (3 + 2 * read_count body.now) }
{
    3 <= body.len() && body.len() == 3 + 2 * body[2] as usize
}

// What an accepted reply says.
fn read_out(header: Header, block: &[u8], body: &[u8]) -> Reply
    requires in_bounds { 3 ≤ length body.now }
    requires block_len_bound { length (stations (head_of header block.now).block) ≤ max_route }
    ensures { answer_of (Ok (Some result)) ≡ (read_out (head_of header block.now) body.now).answer }
{
    Reply {
        route: route_of(header, block),
        start: words::word_of(body[0], body[1]),
        count: body[2],
        values_at: header.length() + 3,
    }
}

// A telegram whose header was read: the first entry says whether it is for the centre, then the length of its body is tested.
fn receive(header: Header, telegram: &[u8]) -> Result<Option<Reply>, Refusal>
    requires { reading Centre telegram.now ≡ sound (head_of header (drop (block_start header.form) telegram.now)) }
    ensures { answer_of result ≡ (reply_reading telegram.now).answer }
{
    let block = &telegram[header.block_start()..];
    let body = &telegram[header.length()..];
    if header.first(block) != 0 {
        return Ok(None);
    }
    if !is_counted(body) {
        return Err(Refusal::BodyLength);
    }
    Ok(Some(read_out(header, block, body)))
}

// What a reply to the centre says: its route, the run that was read, and where its values begin. The values are given by
// read_reply_values.
// None, not mine: the first entry of the block is a station's. Refused: 12, 2, 3, 4, 5, 6 for the header, where 3 is given for
// every function byte but that of a reply, and 5 also for a block that names nobody; 7 for a body that is not as long as its
// count says.
pub fn read_reply(telegram: &[u8]) -> Result<Option<Reply>, Refusal>
    ensures { answer_of result ≡ (reply_reading telegram.now).answer }
{
    let header = mop_reader::read(Reader::Centre, telegram)?;
    receive(header, telegram)
}

// The values of a reply, two bytes for each register that was read, the high one first. They are a part of the telegram itself,
// and an empty one unless read_reply accepts the telegram.
pub fn read_reply_values(telegram: &[u8]) -> &[u8]
    ensures result_value { result.now ≡ (reply_reading telegram.now).values }
    ensures begins { Begins telegram.entry result (reply_reading telegram.now).begins }
{
    match read_reply(telegram) {
        Ok(Some(reply)) => &telegram[reply.values_at..],
        Ok(None) => &telegram[..0],
        Err(_) => &telegram[..0],
    }
}
