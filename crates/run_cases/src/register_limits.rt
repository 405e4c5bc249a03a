// The place of a register, number by number.
use mop_registers::TABLE_LENGTH;
use std::io;

// Of the numbers from the first to the last those that have a register, and their places.
fn place_cases(rt: &impl Print, first: usize, last: usize) -> io::Result<()> {
    print!(rt; " {first} {last}: places")?;
    for number in first..=last {
        let place = mop_registers::place_of(number);
        if place != TABLE_LENGTH {
            print!(rt; "; {number} at {place}")?;
        }
    }
    println!(rt; "; no other")
}

// The numbers of 16 bits; those next to them and those from 2^32 on, which are the same in their lowest 16 bits; and the
// largest.
pub(crate) fn places(rt: &impl Print) -> io::Result<()> {
    println!(rt; "place_of: first, last")?;
    place_cases(rt, 0, 65535)?;
    place_cases(rt, 65536, 131071)?;
    place_cases(rt, 4294967296, 4295032831)?;
    place_cases(rt, usize::MAX - 65535, usize::MAX)
}
