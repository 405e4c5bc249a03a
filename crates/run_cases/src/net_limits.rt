// The dry run at its limits.
use crate::station_limits;
use crate::station_limits::{KeptRegisters, PLACES};
use mop_registers::TABLE_LENGTH;
use net_dry_run::Played;
use net_hop::JourneyEnd;
use refusal::Refusal;
use show::{BEFORE, Kept, Refused, Start, first, first_other, last};
use std::{fmt, io};

// Sixty-five addresses in no order, no two equal; the 64th is 55.
pub(crate) fn names() -> [u8; 65] {
    *b"zyxwvutsrqponmlkjihgfedcbaABCDEFGHIJKLMNOPQRSTVWXYZ0123456789+-U*"
}

// How a journey ended.
#[derive(Clone, Copy)]
struct Ending(JourneyEnd);

impl fmt::Display for Ending {
    fn fmt<W: fmt::Write>(&self, f: &mut fmt::Formatter<W>) -> fmt::Result {
        match self.0 {
            JourneyEnd::AtZero => write!(f, " at 00"),
            JourneyEnd::AtNobody => write!(f, " at nobody"),
            JourneyEnd::Refused(r) => write!(f, "{}", Refused(r)),
        }
    }
}

// The answer of a dry run: the transmissions of the journey, how it ended, the last telegram, and how far the output is 00
// behind it.
#[derive(Clone, Copy)]
struct ShownAnswer<'a> {
    answer: Result<Played, Refusal>,
    out: &'a [u8],
}

impl fmt::Display for ShownAnswer<'_> {
    fn fmt<W: fmt::Write>(&self, f: &mut fmt::Formatter<W>) -> fmt::Result {
        match self.answer {
            Ok(
                Played {
                    count,
                    ending,
                    length,
                },
            ) => {
                let start = Start(first(self.out, length), 64);
                let zeros = first_other(self.out, length, 0);
                write!(
                    f,
                    ": played {count}{}; last{start}; 00 to {zeros}",
                    Ending(ending)
                )
            }
            Err(r) => write!(f, "{}", Refused(r)),
        }
    }
}

// A dry run with so many places of the tables and of an output; and all that it gives. Where it is played it answers 1,024 places.
fn run(
    rt: &impl Print,
    addresses: &[u8],
    lent: usize,
    telegram: &[u8],
    places: usize,
) -> io::Result<()> {
    let mut values = station_limits::tables_before();
    let mut room = [BEFORE; 1025];
    let tables = &mut values[..lent.min(PLACES)];
    let out = &mut room[..places.min(1025)];
    let answer = net_dry_run::dry_run(telegram, addresses, tables, out);
    let net = Start(addresses, 16);
    let start = Start(telegram, 16);
    print!(rt; "{net}; {lent} {places}{start}")?;
    let shown = ShownAnswer { answer, out: &room };
    let kept = Kept {
        buffer: &room,
        from: if answer.is_ok() { 1024 } else { 0 },
    };
    println!(rt; "{shown}{}{kept}", KeptRegisters(&values))
}

// The places of the tables of two stations, one less, and one more.
const PAIR: usize = 2 * TABLE_LENGTH;

const LESS: usize = PAIR - 1;

const MORE: usize = PAIR + 1;

// The places of the tables of the most stations.
const MOST: usize = 64 * TABLE_LENGTH;

// So many bytes of a request to the second of two stations.
fn pair_case(rt: &impl Print, second: u8, lent: usize, n: usize, places: usize) -> io::Result<()> {
    let t = station_limits::standard(0x60, second, 0);
    run(rt, &[0x12, second], lent, first(&t, n), places)
}

// A request to station 55 that writes a register and reads it, in a net of so many stations.
fn count_case(rt: &impl Print, n: usize, lent: usize) -> io::Result<()> {
    let t = station_limits::runs(300, 1, 300, 1);
    run(rt, first(&names(), n), lent, first(&t, 14), 1024)
}

// A request over the first 31 stations to the last of them, that writes a register and reads it.
fn route_request() -> [u8; 1025] {
    let mut t = station_limits::extended(0x60, 0xEF, 32, 0, 0);
    places::put(&names(), &mut t, 7);
    t[38] = 0;
    places::put(&[0x01, 0x2C, 1, 0x01, 0x2C, 1, 0, 1], &mut t, 39);
    t
}

// That request in a net of the first n of the last names, of which there are so many.
fn route_case(rt: &impl Print, names_left: usize, n: usize, lent: usize) -> io::Result<()> {
    let names = names();
    let stations = first(last(&names, names_left), n);
    run(rt, stations, lent, first(&route_request(), 47), 1024)
}

// So many bytes of an extended telegram, most with one or several faults of the header.
fn fault_case(
    rt: &impl Print,
    lent: usize,
    function: u8,
    count: u8,
    station: u8,
    second: u8,
    n: usize,
    places: usize,
) -> io::Result<()> {
    let t = station_limits::extended(function, 0xEF, count, station, second);
    run(rt, &[0x12, 0x55], lent, first(&t, n), places)
}

// The same, and then with each fault that is looked for before.
fn order_case(
    rt: &impl Print,
    function: u8,
    count: u8,
    station: u8,
    second: u8,
    n: usize,
) -> io::Result<()> {
    for (lent, n, places) in [
        (PAIR, n, 1024),
        (PAIR, 1025, 1024),
        (PAIR, n, 1023),
        (LESS, n, 1024),
    ] {
        fault_case(rt, lent, function, count, station, second, n, places)?;
    }
    Ok(())
}

// Addresses, and the lengths of the tables, of the output and of the telegram.
pub(crate) fn setups(rt: &impl Print) -> io::Result<()> {
    println!(rt; "dry_run: addresses; tables, places, telegram")?;
    for (second, lent, n, places) in [
        (0, PAIR, 12, 1024),
        (1, PAIR, 12, 1024),
        (240, PAIR, 12, 1024),
        (241, PAIR, 12, 1024),
        (255, PAIR, 12, 1024),
        (0x12, PAIR, 12, 1024),
        (0x55, 0, 12, 1024),
        (0x55, LESS, 12, 1024),
        (0x55, PAIR, 12, 1024),
        (0x55, MORE, 12, 1024),
        (0x55, PAIR, 12, 0),
        (0x55, PAIR, 12, 1023),
        (0x55, PAIR, 12, 1025),
        (0x55, PAIR, 1024, 1024),
        (0x55, PAIR, 1025, 1024),
        (0x55, PAIR, 1025, 1023),
        (0x55, LESS, 1025, 1024),
        (0x55, LESS, 12, 1023),
        (0x55, LESS, 1025, 1023),
    ] {
        pair_case(rt, second, lent, n, places)?;
    }
    Ok(())
}

pub(crate) fn counts(rt: &impl Print) -> io::Result<()> {
    for (n, lent) in [
        (0, 0),
        (0, 1),
        (63, 63 * TABLE_LENGTH),
        (64, MOST - 1),
        (64, MOST),
        (64, MOST + 1),
        (65, MOST),
        (65, MOST + TABLE_LENGTH),
    ] {
        count_case(rt, n, lent)?;
    }
    for (names_left, n, lent) in [
        (65, 31, 31 * TABLE_LENGTH),
        (65, 64, MOST),
        (65, 30, 30 * TABLE_LENGTH),
        (64, 31, 31 * TABLE_LENGTH),
    ] {
        route_case(rt, names_left, n, lent)?;
    }
    Ok(())
}

pub(crate) fn orders(rt: &impl Print) -> io::Result<()> {
    for (function, count, station, second, n) in [
        (0x60, 2, 0x12, 0, 8),
        (0x61, 2, 0x12, 0, 15),
        (0x60, 33, 0x12, 0, 46),
        (0x60, 3, 0x12, 0x12, 16),
        (0xE0, 3, 0, 0x12, 16),
    ] {
        order_case(rt, function, count, station, second, n)?;
    }
    for (function, count, station, second, n) in [
        (0x61, 2, 0x12, 0, 5),
        (0x61, 2, 0x12, 0, 6),
        (0x60, 33, 0x12, 0, 6),
        (0x60, 33, 0x12, 0, 7),
        (0x60, 4, 0x12, 0x12, 10),
        (0xE0, 4, 0, 0x12, 10),
        (0x61, 33, 0x12, 0, 46),
        (0x61, 3, 0x12, 0x12, 16),
        (0x60, 33, 0x12, 0x12, 46),
        (0xE0, 33, 0, 0x12, 46),
        (0xE0, 3, 0, 0xF1, 16),
        (0xE0, 3, 0x12, 0, 16),
    ] {
        fault_case(rt, PAIR, function, count, station, second, n, 1024)?;
    }
    Ok(())
}
