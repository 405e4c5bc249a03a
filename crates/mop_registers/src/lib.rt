// The registers of a station: where each has its value, what may be written to it, and runs of them.
#![tactic(auto)]

ghost use Rattle.std.specs.Prelude.{◌≡◌};
ghost use Rattle.base.specs.Words.{words_of};
ghost use Rattle.mop_registers.specs.Rows.{from_to, time_of_day, place_of, may_write, takes, factory};
ghost use Rattle.mop_registers.specs.Runs.{run_exists, run_may_write, run_takes};
ghost use Rattle.mop_registers.specs.Private.Columns.{values_in, range_at};

// The length of a station's table of values.
pub const TABLE_LENGTH: usize = 18;

// The values that a register takes: any; from the least to the largest; these, or 65535; the times of day; these, or 65535.
#[derive(Clone, Copy)]
enum Range {
    Any,
    FromTo(u16, u16),
    FromToOr65535(u16, u16),
    TimeOfDay,
    TimeOfDayOr65535,
}

// The place of a register's value in a table; TABLE_LENGTH for a number that no register has. In a run of numbers a place is
// as far from the run's first place as its number is from the run's first number.
// By comparison and subtraction alone, with no list and no match of the numbers, which is a rule for the station's memory.
// No Option: a run of no registers may start at any number, and its values are then the empty end of the table.
pub fn place_of(number: usize) -> usize
    ensures { result ≡ place_of number }
{
    if number == 2 {
        0
    } else if number == 300 {
        1
    } else if (931 <= number) & (number <= 936) {
        2 + (number - 931)
    } else if (952 <= number) & (number <= 953) {
        8 + (number - 952)
    } else if (955 <= number) & (number <= 962) {
        10 + (number - 955)
    } else {
        TABLE_LENGTH
    }
}

// The range of the register at a place; None behind the last one. Range, write and factory value stand in three functions, by
// the place alone: a table of rows would take flash, of which a station has little.
fn range_at(place: usize) -> Option<Range>
    ensures { values_in result ≡ range_at place }
{
    match place {
        0 => Some(Range::Any), // 2
        1 => Some(Range::FromTo(0, 3)), // 300
        2 => Some(Range::Any), // 931
        3 => Some(Range::Any), // 932
        4 => Some(Range::Any), // 933
        5 => Some(Range::Any), // 934
        6 => Some(Range::Any), // 935
        7 => Some(Range::Any), // 936
        8 => Some(Range::FromTo(1, 1440)), // 952
        9 => Some(Range::FromTo(2, 25)), // 953
        10 => Some(Range::TimeOfDay), // 955
        11 => Some(Range::FromTo(0, 59)), // 956
        12 => Some(Range::TimeOfDayOr65535), // 957
        13 => Some(Range::FromTo(1, 1440)), // 958
        14 => Some(Range::FromToOr65535(1, 3600)), // 959
        15 => Some(Range::FromTo(1, 1440)), // 960
        16 => Some(Range::FromTo(1, 1440)), // 961
        17 => Some(Range::FromTo(0, 1)), // 962
        _ => None,
    }
}

// Whether a register takes writes.
fn may_write(number: usize) -> bool
    ensures { result ≡ may_write number }
{
    match place_of(number) {
        1 => true, // 300
        8..=17 => true, // 952 to 962
        _ => false, // 2, 931 to 936, and where no register is
    }
}

// Whether a value is a time of day: the hour in its high byte, and the minute in its low one.
fn is_time_of_day(value: u16) -> bool
    ensures { result ≡ time_of_day value }
{
    let [hour, minute] = value.to_be_bytes();
    hour <= 23 && minute <= 59
}

// Whether a value is from a least to a largest.
fn is_within(from: u16, to: u16, value: u16) -> bool
    ensures { result ≡ from_to from to value }
{
    from <= value && value <= to
}

// Whether a value is in a register's range.
fn takes(number: usize, value: u16) -> bool
    ensures { result ≡ takes number value }
{
    match range_at(place_of(number)) {
        Some(Range::Any) => true,
        Some(Range::FromTo(from, to)) => is_within(from, to, value),
        Some(Range::FromToOr65535(from, to)) => is_within(from, to, value) || value == 65535,
        Some(Range::TimeOfDay) => is_time_of_day(value),
        Some(Range::TimeOfDayOr65535) => is_time_of_day(value) || value == 65535,
        None => false,
    }
}

// Whether every register of a run exists. Here and below by a loop that ends at the first that does not: by `all` each place was
// reckoned in full before it was tested, which took a station that reads eight registers a tenth more steps.
pub fn run_exists(start: u16, count: u8) -> bool
    ensures { result ≡ run_exists start count }
{
    let first = start as usize;
    for number in first..first + count as usize {
        if TABLE_LENGTH <= place_of(number) {
            return false;
        }
    }
    true
}

// Whether every register of a run takes writes. It differs from run_exists in the test alone; both are public, and a shared one
// with a closure would be no shorter.
pub fn run_may_write(start: u16, count: u8) -> bool
    ensures { result ≡ run_may_write start count }
{
    let first = start as usize;
    for number in first..first + count as usize {
        if !may_write(number) {
            return false;
        }
    }
    true
}

// Whether every value of a run is in the range of its register. A value is two bytes, the high one first; an odd last
// byte makes none. By index: over `chunks_exact` the proof of the loop did not close.
pub fn run_takes(start: u16, values: &[u8]) -> bool
    ensures { result ≡ run_takes start (words_of values.now) }
{
    let first = start as usize;
    for i in 0..values.len() / 2 {
        if !takes(first + i, words::word_of(values[2 * i], values[2 * i + 1])) {
            return false;
        }
    }
    true
}

// A table of values as it leaves the factory.
pub fn factory() -> [u16; TABLE_LENGTH]
    ensures { result ≡ factory }
{
    [
        0, // 2
        0, // 300
        0, // 931
        0, // 932
        0, // 933
        0, // 934
        0, // 935
        0, // 936
        15, // 952
        2, // 953
        0, // 955
        0, // 956
        65535, // 957
        30, // 958
        60, // 959
        15, // 960
        30, // 961
        0, // 962
    ]
}
