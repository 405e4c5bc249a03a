// The calls of a station and of the centre as functions for C: mop_station::handle, mop_centre::write_request and
// mop_centre::read_reply. include/hanraquin.h says it for the programmer.
#![tactic(auto)]

ghost use Rattle.std.specs.Prelude.{◌≡◌, true};
ghost use Rattle.mop_station.specs.Station.{handled_of};
ghost use Rattle.mop_centre.specs.Reply.{reply_reading};
ghost use Rattle.c_answer.specs.Answer.{written};
ghost use Rattle.c_mop.specs.Station.{of_handled, at_station, station_call};
ghost use Rattle.c_mop.specs.Centre.{write_request_call, has_reply_places, reply_told, reply_told_by, read_reply_call};

use c_answer::NOT_MINE;
use mop_centre::MAX_ROUTE;
use refusal::Refusal;

// The places of a run: start, count, and the place of its values.
const RUN_PLACES: usize = 3;

// The answer of a call that handles a telegram.
fn of_handled(answer: Result<Option<usize>, Refusal>) -> u64
    ensures { result ≡ of_handled (handled_of answer) }
{
    match answer {
        Ok(Some(n)) => n as u64,
        Ok(None) => NOT_MINE,
        Err(r) => c_answer::refused(r),
    }
}

// One telegram at a station: mop_station::handle. The value is the length of what is sent.
pub fn hanraquin_station(own: u8, registers: &mut [u16], telegram: &[u8], out: &mut [u8]) -> u64
    ensures { at_station result registers.new out.new ≡ station_call own registers.old telegram.now out.old }
{
    of_handled(mop_station::handle(own, registers, telegram, out))
}

// A request to the last station of the route: mop_centre::write_request. The value is the telegram's length.
pub fn hanraquin_write_request(
    route: &[u8],
    rstart: u16,
    rcount: usize,
    wstart: u16,
    values: &[u16],
    out: &mut [u8],
) -> u64
    ensures { written result out.new ≡ write_request_call route.now rstart rcount wstart values.now out.old }
{
    c_answer::of_writing(mop_centre::write_request(route, rstart, rcount, wstart, values, out))
}

// What a telegram says, to places that there are, and how many bytes its values have.
fn tell_reply(telegram: &[u8], route: &mut [u8], run: &mut [u16]) -> Result<Option<usize>, Refusal>
    requires { has_reply_places route.old run.old ≡ true }
    ensures { reply_told (of_handled (handled_of result)) route.new run.new ≡ reply_told_by (reply_reading telegram.now) }
{
    route.fill(0);
    run.copy_from_slice(&[0, 0, 0]);
    let Some(reply) = mop_centre::read_reply(telegram)? else {
        return Ok(None);
    };
    route.copy_from_slice(&reply.route);
    run.copy_from_slice(&[reply.start, reply.count as u16, reply.values_at as u16]);
    Ok(Some(telegram.len() - reply.values_at))
}

// What a reply to the centre says: mop_centre::read_reply. The stations of the route fill the 31 places of route, 0 behind them;
// run is the start, the count, and the place of the first byte of the values in the telegram. The value is the number of these
// bytes.
// Not mine, or refused: 0 in all these places. Refused with 1, and all as it was: a route or a run of another length.
pub fn hanraquin_read_reply(telegram: &[u8], route: &mut [u8], run: &mut [u16]) -> u64
    ensures { reply_told result route.new run.new ≡ read_reply_call telegram.now route.old run.old }
{
    if route.len() != MAX_ROUTE || run.len() != RUN_PLACES {
        return c_answer::refused(Refusal::Setup);
    }
    of_handled(tell_reply(telegram, route, run))
}
