// The centre's calls at their limits.
use crate::limits::Output;
use crate::net_limits::names;
use crate::station_limits;
use mop_centre::{MAX_ROUTE, Reply};
use refusal::Refusal;
use show::{BEFORE, Bytes, Refused, Start, first};
use std::{fmt, io};

// A request over a route to read so many registers from 955 on and to write so many values from 300 on, into an output of so
// many places; and all that it gives.
fn write(
    rt: &impl Print,
    route: &[u8],
    reads: usize,
    writes: usize,
    places: usize,
) -> io::Result<()> {
    let words = [0xC3D4u16; 256];
    let mut room = [BEFORE; 1025];
    let out = &mut room[..places.min(1025)];
    let answer = mop_centre::write_request(route, 955, reads, 300, first(&words, writes), out);
    let stations = Start(route, 16);
    let output = Output {
        answer,
        out: &room,
        most: 48,
    };
    println!(rt; " {reads} {writes} {places}{stations}{output}")
}

// So many stations. The first 65 are different; behind them is station 1.
fn route_case(rt: &impl Print, n: usize, writes: usize, places: usize) -> io::Result<()> {
    let mut route = [1u8; 255];
    places::put(&names(), &mut route, 0);
    write(rt, first(&route, n), 1, writes, places)
}

// A route of nobody, of one station, or of that station twice.
fn count_case(
    rt: &impl Print,
    station: u8,
    n: usize,
    reads: usize,
    writes: usize,
    places: usize,
) -> io::Result<()> {
    write(rt, first(&[station; 2], n), reads, writes, places)
}

// Whether a reply is accepted.
#[derive(Clone, Copy)]
struct Verdict(Result<Option<Reply>, Refusal>);

impl fmt::Display for Verdict {
    fn fmt<W: fmt::Write>(&self, f: &mut fmt::Formatter<W>) -> fmt::Result {
        match self.0 {
            Ok(Some(_)) => write!(f, ": accepted"),
            Ok(None) => write!(f, ": not mine"),
            Err(r) => write!(f, "{}", Refused(r)),
        }
    }
}

// Reads a telegram as a reply, and shows what it says, or zeros where it is not accepted, with the start of its values.
fn read(rt: &impl Print, telegram: &[u8]) -> io::Result<()> {
    let answer = mop_centre::read_reply(telegram);
    let zeros = [0u8; MAX_ROUTE];
    let nothing = Reply {
        route: zeros,
        start: 0,
        count: 0,
        values_at: 0,
    };
    let reply = match answer {
        Ok(Some(reply)) => reply,
        _ => nothing,
    };
    let values = mop_centre::read_reply_values(telegram);
    print!(rt; "{}{}", Start(telegram, 16), Verdict(answer))?;
    print!(rt;
        "; route{}; run {} {}",
        Bytes(&reply.route),
        reply.start,
        reply.count
    )?;
    println!(rt; "; values{}", Bytes(first(values, 16)))
}

// So many bytes of a telegram with two entries, two 00s and a body: registers from 955 on, so many, and the first value.
fn standard_case(
    rt: &impl Print,
    function: u8,
    station: u8,
    second: u8,
    count: u8,
    n: usize,
) -> io::Result<()> {
    let mut t = station_limits::standard(function, station, second);
    places::put(&[0x03, 0xBB, count, 0xC3, 0xD4], &mut t, 6);
    read(rt, first(&t, n))
}

// So many bytes of an extended reply with this mark, its first two entries, and 00s.
fn mark_case(
    rt: &impl Print,
    mark: u8,
    count: u8,
    station: u8,
    second: u8,
    n: usize,
) -> io::Result<()> {
    let t = station_limits::extended(0xE0, mark, count, station, second);
    read(rt, first(&t, n))
}

// A whole extended reply with so many entries, a 00 and different stations, and a body.
fn full_case(rt: &impl Print, entries: u8, count: u8) -> io::Result<()> {
    let mut t = station_limits::extended(0xE0, 0, entries, 0, 0);
    let n = usize::from(entries);
    places::put(first(&names(), n), &mut t, 8);
    places::put(&[0x03, 0xBB, count, 0xC3, 0xD4], &mut t, 7 + n);
    read(rt, first(&t, 10 + n + 2 * usize::from(count)))
}

// Lengths of the route; then its stations.
pub(crate) fn routes(rt: &impl Print) -> io::Result<()> {
    println!(rt; "write_request: reads, writes, places, route")?;
    for (n, writes) in [
        (0, 1),
        (1, 1),
        (2, 1),
        (3, 1),
        (4, 1),
        (30, 0),
        (31, 0),
        (32, 0),
        (65, 0),
        (255, 0),
    ] {
        route_case(rt, n, writes, 1024)?;
    }
    for station in [0, 1, 0xEF, 240, 241, 255] {
        count_case(rt, station, 1, 1, 1, 1024)?;
    }
    for route in [
        [0x12, 0x13, 0xF0, 0x55],
        [0x12, 0x13, 0x55, 0xF1],
        [0xF1, 0x12, 0x13, 0x55],
        [0x12, 0x13, 0x55, 0x00],
        [0x00, 0x12, 0x13, 0x55],
        [0x12, 0x12, 0x13, 0x55],
        [0x12, 0x13, 0x55, 0x55],
        [0x55, 0x12, 0x13, 0x55],
        [0xEF, 0xEF, 0xEF, 0xEF],
    ] {
        write(rt, &route, 1, 1, 1024)?;
    }
    Ok(())
}

// Lengths of the runs; places of the output; then the refusals in their order: 5, 12, 11.
pub(crate) fn requests(rt: &impl Print) -> io::Result<()> {
    for (reads, writes) in [
        (0, 0),
        (255, 0),
        (256, 0),
        (65536, 0),
        (usize::MAX, 0),
        (0, 255),
        (0, 256),
        (255, 255),
        (256, 256),
    ] {
        count_case(rt, 0x55, 1, reads, writes, 1024)?;
    }
    for (n, writes, places) in [
        (1, 0, 0),
        (1, 0, 11),
        (1, 0, 12),
        (1, 0, 13),
        (3, 1, 13),
        (3, 1, 14),
        (4, 0, 17),
        (4, 0, 18),
        (31, 255, 554),
        (31, 255, 555),
    ] {
        route_case(rt, n, writes, places)?;
    }
    for (n, reads, writes, places) in [
        (2, 256, 256, 0),
        (2, 256, 0, 1024),
        (2, 0, 256, 1024),
        (2, 0, 0, 0),
        (0, 256, 0, 0),
        (1, 256, 0, 0),
        (1, 0, 256, 0),
        (1, 0, 0, 0),
    ] {
        count_case(rt, 0x55, n, reads, writes, places)?;
    }
    Ok(())
}

// Counts of entries; then blocks and marks.
pub(crate) fn blocks(rt: &impl Print) -> io::Result<()> {
    println!(rt; "read_reply: telegram")?;
    standard_case(rt, 0xE0, 0x00, 0x55, 1, 11)?;
    for (entries, count) in [
        (1, 1),
        (2, 1),
        (3, 1),
        (4, 1),
        (5, 1),
        (32, 1),
        (32, 255),
        (33, 1),
    ] {
        full_case(rt, entries, count)?;
    }
    mark_case(rt, 0x00, 255, 0x00, 0x55, 265)?;
    for second in [0xF0, 0xF1, 0x00] {
        standard_case(rt, 0xE0, 0x00, second, 1, 11)?;
    }
    for (mark, count, station, second, n) in [
        (0x00, 2, 0x00, 0x00, 12),
        (0xEF, 2, 0x00, 0x00, 12),
        (0x00, 32, 0x00, 0x00, 42),
        (0xEF, 32, 0x00, 0x00, 42),
        (0xEF, 2, 0x00, 0x55, 12),
        (0x00, 2, 0x55, 0x00, 12),
        (0xEF, 2, 0x00, 0x55, 9),
    ] {
        mark_case(rt, mark, count, station, second, n)?;
    }
    for n in [11, 10, 6] {
        standard_case(rt, 0xE0, 0x55, 0x00, 1, n)?;
    }
    mark_case(rt, 0xEF, 2, 0x55, 0x00, 12)?;
    mark_case(rt, 0xEF, 2, 0x55, 0x00, 9)
}

// Bodies of replies; then headers and lengths.
pub(crate) fn replies(rt: &impl Print) -> io::Result<()> {
    for (count, n) in [
        (0, 6),
        (0, 8),
        (0, 9),
        (0, 10),
        (1, 9),
        (1, 10),
        (1, 12),
        (255, 518),
        (255, 519),
        (255, 520),
    ] {
        standard_case(rt, 0xE0, 0x00, 0x55, count, n)?;
    }
    for n in [9, 11, 12, 13] {
        mark_case(rt, 0x00, 2, 0x00, 0x55, n)?;
    }
    standard_case(rt, 0xE0, 0x00, 0x55, 0, 0)?;
    standard_case(rt, 0xE0, 0x00, 0x55, 0, 5)?;
    mark_case(rt, 0x00, 2, 0x00, 0x55, 6)?;
    mark_case(rt, 0x00, 2, 0x00, 0x55, 8)?;
    for (function, station, second, n) in [
        (0x60, 0x55, 0x00, 5),
        (0x60, 0x55, 0x00, 11),
        (0x60, 0x00, 0x55, 11),
        (0xE1, 0x00, 0x55, 11),
        (0xE0, 0x00, 0x55, 1024),
        (0xE0, 0x00, 0x55, 1025),
        (0x60, 0x55, 0x00, 1025),
    ] {
        standard_case(rt, function, station, second, 1, n)?;
    }
    Ok(())
}
