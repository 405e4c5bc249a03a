// The calls of a station and of the centre as exports for C: the functions of c_mop. include/hanraquin.h says it for the programmer.
#![tactic(auto)]

ghost use Rattle.std.specs.Prelude.{◌≡◌};
ghost use Rattle.c_answer.specs.Answer.{written};
ghost use Rattle.c_mop.specs.Station.{at_station, station_call};
ghost use Rattle.c_mop.specs.Centre.{write_request_call, reply_told, read_reply_call};

// c_mop::hanraquin_station.
#[unsafe(no_mangle)]
pub extern "C" fn hanraquin_station(
    own: u8,
    registers: &mut [u16],
    telegram: &[u8],
    out: &mut [u8],
) -> u64
    ensures { at_station result registers.new out.new ≡ station_call own registers.old telegram.now out.old }
{
    c_mop::hanraquin_station(own, registers, telegram, out)
}

// c_mop::hanraquin_write_request.
#[unsafe(no_mangle)]
pub extern "C" fn hanraquin_write_request(
    route: &[u8],
    rstart: u16,
    rcount: usize,
    wstart: u16,
    values: &[u16],
    out: &mut [u8],
) -> u64
    ensures { written result out.new ≡ write_request_call route.now rstart rcount wstart values.now out.old }
{
    c_mop::hanraquin_write_request(route, rstart, rcount, wstart, values, out)
}

// c_mop::hanraquin_read_reply.
#[unsafe(no_mangle)]
pub extern "C" fn hanraquin_read_reply(telegram: &[u8], route: &mut [u8], run: &mut [u16]) -> u64
    ensures { reply_told result route.new run.new ≡ read_reply_call telegram.now route.old run.old }
{
    c_mop::hanraquin_read_reply(telegram, route, run)
}
