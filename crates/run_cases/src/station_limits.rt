// The station's call at its limits.
use mop_registers::TABLE_LENGTH;
use refusal::Refusal;
use show::{BEFORE, Kept, Refused, Start, first};
use std::{array, fmt, io};

// The places of all tables: those of 65 stations, and one more.
pub(crate) const PLACES: usize = 65 * TABLE_LENGTH + 1;

// What a table's value is before a call: A000 and its place.
fn value_before(place: usize) -> u16 {
    0xA000 + (place % 4096) as u16
}

// The tables before a call.
pub(crate) fn tables_before() -> [u16; PLACES] {
    array::from_fn(value_before)
}

// The first place, from n on, whose value changed. It is no `first_other`, since what a register was depends on its place.
fn first_changed(s: &[u16], n: usize) -> Option<usize> {
    (n..s.len()).find(|&i| s[i] != value_before(i))
}

// How far the registers are as before. If that is not to the end: the value there, and how far those behind it are as
// before.
#[derive(Clone, Copy)]
pub(crate) struct KeptRegisters<'a>(pub(crate) &'a [u16]);

impl fmt::Display for KeptRegisters<'_> {
    fn fmt<W: fmt::Write>(&self, f: &mut fmt::Formatter<W>) -> fmt::Result {
        let end = self.0.len();
        let at = first_changed(self.0, 0).unwrap_or(end);
        write!(f, "; registers kept to {at}")?;
        if let Some(value) = self.0.get(at) {
            let next = first_changed(self.0, at + 1).unwrap_or(end);
            write!(f, " {value} {next}")?;
        }
        Ok(())
    }
}

// The answer of a station, with the start of what it sends.
#[derive(Clone, Copy)]
struct Sent<'a> {
    answer: Result<Option<usize>, Refusal>,
    out: &'a [u8],
}

impl fmt::Display for Sent<'_> {
    fn fmt<W: fmt::Write>(&self, f: &mut fmt::Formatter<W>) -> fmt::Result {
        match self.answer {
            Ok(Some(n)) => write!(f, ": sent{}", Start(first(self.out, n), 32)),
            Ok(None) => write!(f, ": not mine"),
            Err(r) => write!(f, "{}", Refused(r)),
        }
    }
}

// A call with so many places of a table and of an output; and all that it gives.
fn call(rt: &impl Print, own: u8, lent: usize, telegram: &[u8], places: usize) -> io::Result<()> {
    let mut values = tables_before();
    let mut room = [BEFORE; 1025];
    let table = &mut values[..lent.min(PLACES)];
    let out = &mut room[..places.min(1025)];
    let answer = mop_station::handle(own, table, telegram, out);
    let start = Start(telegram, 16);
    let sent = Sent { answer, out: &room };
    let kept = Kept {
        buffer: &room,
        from: match answer {
            Ok(Some(n)) => n,
            _ => 0,
        },
    };
    println!(rt;
        " {own} {lent} {places}{start}{sent}{}{kept}",
        KeptRegisters(&values)
    )
}

// A telegram with two entries, and 00s behind them: the first 12 bytes of a request ask for nothing.
pub(crate) fn standard(function: u8, first: u8, second: u8) -> [u8; 1025] {
    let mut t = [0u8; 1025];
    places::put(&[function, 0xFF, first, second], &mut t, 0);
    t
}

// The call of a station with so many places of its table, and so many bytes of a request: it is a relay for the second
// station, or the destination if that is 0.
fn request_case(
    rt: &impl Print,
    own: u8,
    lent: usize,
    second: u8,
    n: usize,
    places: usize,
) -> io::Result<()> {
    call(
        rt,
        own,
        lent,
        first(&standard(0x60, own, second), n),
        places,
    )
}

// The start of an extended telegram: the first entry of its mark, its count, its first two entries, and 00s.
pub(crate) fn extended(function: u8, mark: u8, count: u8, first: u8, second: u8) -> [u8; 1025] {
    let mut t = [0u8; 1025];
    places::put(
        &[function, 0xFF, mark, 0xEF, 0xEF, 0xEF, count, first, second],
        &mut t,
        0,
    );
    t
}

// So many bytes of an extended request with this count, for station 55.
fn extended_case(rt: &impl Print, count: u8, n: usize) -> io::Result<()> {
    call(
        rt,
        0x55,
        TABLE_LENGTH,
        first(&extended(0x60, 0xEF, count, 0x55, 0), n),
        1024,
    )
}

// A request to station 55 with two runs. The first value to write is 1, and the others are 0.
pub(crate) fn runs(rstart: u16, reads: u8, wstart: u16, writes: u8) -> [u8; 1025] {
    let mut t = standard(0x60, 0x55, 0);
    places::put(&rstart.to_be_bytes(), &mut t, 6);
    t[8] = reads;
    places::put(&wstart.to_be_bytes(), &mut t, 9);
    t[11] = writes;
    t[13] = 1;
    t
}

// Two runs at the destination, in a telegram of so many bytes.
fn body_case(
    rt: &impl Print,
    rstart: u16,
    reads: u8,
    wstart: u16,
    writes: u8,
    n: usize,
    places: usize,
) -> io::Result<()> {
    call(
        rt,
        0x55,
        TABLE_LENGTH,
        first(&runs(rstart, reads, wstart, writes), n),
        places,
    )
}

// A value of two bytes, written to a register, with an output of so many places.
fn value_case(rt: &impl Print, number: u16, high: u8, low: u8, places: usize) -> io::Result<()> {
    let mut t = runs(0, 0, number, 1);
    places::put(&[high, low], &mut t, 12);
    call(rt, 0x55, TABLE_LENGTH, first(&t, 14), places)
}

// The times of day about their limits, written to a register: minutes 59 and 60 of each hour before 23, and all minutes to
// 60 of hours 23 and 24.
fn time_cases(rt: &impl Print, number: u16) -> io::Result<()> {
    for hour in 0..23 {
        value_case(rt, number, hour, 59, 1024)?;
        value_case(rt, number, hour, 60, 1024)?;
    }
    for minute in 0..=60 {
        value_case(rt, number, 23, minute, 1024)?;
        value_case(rt, number, 24, minute, 1024)?;
    }
    Ok(())
}

// Own addresses, and lengths of the table; then counts of extended requests, whose bodies ask for nothing.
pub(crate) fn setups(rt: &impl Print) -> io::Result<()> {
    println!(rt; "handle: own, table, places, telegram")?;
    for (own, lent) in [
        (0, TABLE_LENGTH),
        (1, TABLE_LENGTH),
        (240, TABLE_LENGTH),
        (241, TABLE_LENGTH),
        (255, TABLE_LENGTH),
        (0x55, 0),
        (0x55, TABLE_LENGTH - 1),
        (0x55, TABLE_LENGTH),
        (0x55, TABLE_LENGTH + 1),
    ] {
        request_case(rt, own, lent, 0, 12, 1024)?;
    }
    for (count, n) in [(0, 13), (1, 14), (2, 15), (32, 45), (33, 46), (255, 268)] {
        extended_case(rt, count, n)?;
    }
    Ok(())
}

pub(crate) fn lengths(rt: &impl Print) -> io::Result<()> {
    for (second, n) in [
        (0, 0),
        (0, 1),
        (0, 2),
        (0, 3),
        (0, 4),
        (0, 5),
        (0, 6),
        (0, 7),
        (0x56, 5),
        (0x56, 6),
        (0x56, 7),
    ] {
        request_case(rt, 0x55, TABLE_LENGTH, second, n, 1024)?;
    }
    for (count, n) in [
        (32, 5),
        (32, 6),
        (32, 7),
        (33, 6),
        (33, 7),
        (32, 38),
        (32, 39),
    ] {
        extended_case(rt, count, n)?;
    }
    for (second, n, places) in [
        (0, 1024, 1024),
        (0, 1025, 1024),
        (0x56, 1024, 1024),
        (0x56, 1025, 1025),
        (0x56, 1025, 0),
    ] {
        request_case(rt, 0x55, TABLE_LENGTH, second, n, places)?;
    }
    Ok(())
}

pub(crate) fn outputs(rt: &impl Print) -> io::Result<()> {
    for (second, n, places) in [
        (0x56, 12, 11),
        (0x56, 12, 12),
        (0x56, 12, 13),
        (0x56, 12, 0),
        (0x56, 1024, 1023),
        (0, 12, 8),
        (0, 12, 9),
        (0, 12, 10),
        (0, 12, 0),
    ] {
        request_case(rt, 0x55, TABLE_LENGTH, second, n, places)?;
    }
    for places in [24, 25, 26] {
        body_case(rt, 955, 8, 300, 1, 14, places)?;
    }
    Ok(())
}

// Bodies of requests; then the values of replies.
pub(crate) fn bodies(rt: &impl Print) -> io::Result<()> {
    for (rstart, reads, wstart, writes, n) in [
        (65535, 0, 65535, 0, 12),
        (65535, 1, 65535, 0, 12),
        (65535, 2, 65535, 0, 12),
        (65535, 0, 65535, 1, 14),
        (65535, 0, 65535, 2, 16),
        (955, 255, 300, 0, 12),
        (65535, 255, 300, 0, 12),
        (955, 0, 955, 255, 522),
        (955, 0, 65535, 255, 522),
        (955, 255, 955, 255, 522),
        (955, 0, 955, 255, 521),
        (955, 0, 955, 255, 523),
        (955, 0, 955, 255, 12),
        (955, 1, 300, 0, 11),
        (955, 1, 300, 0, 12),
        (955, 1, 300, 0, 13),
        (955, 1, 300, 1, 13),
        (955, 1, 300, 1, 14),
        (955, 1, 300, 1, 15),
        (2, 1, 0, 0, 12),
        (300, 1, 0, 0, 12),
        (931, 6, 0, 0, 12),
        (952, 2, 0, 0, 12),
        (955, 8, 0, 0, 12),
    ] {
        body_case(rt, rstart, reads, wstart, writes, n, 1024)?;
    }
    Ok(())
}

// Times of day: about their limits; 65535; and 08:75 with an output that is too short.
pub(crate) fn times(rt: &impl Print) -> io::Result<()> {
    time_cases(rt, 955)?;
    time_cases(rt, 957)?;
    for (number, high, low, places) in [
        (955, 255, 255, 1024),
        (957, 255, 255, 1024),
        (955, 8, 75, 8),
        (957, 8, 75, 8),
    ] {
        value_case(rt, number, high, low, places)?;
    }
    Ok(())
}
