// The block of a telegram: entries in a ring, 00s and the addresses of stations, and the rule for them.
#![tactic(auto)]

ghost use Rattle.std.specs.Prelude.{◌≡◌, [], ◌∷◌, true, false, not, ◌&&◌, ltb, length, get_or, set};
ghost use Rattle.mop_block.specs.Block.{is_address, distinct_addresses, stations, zero_ends, good_block};
ghost use Rattle.mop_block.specs.Zipper.{one};

// Whether a number is an address: 01 to F0.
pub fn is_address(a: u8) -> bool
    ensures { result ≡ is_address a }
{
    1 <= a && a <= 0xF0
}

// Whether 00s end between two neighbours.
fn zero_end(x: u8, y: u8) -> bool
    ensures { one result ≡ zero_ends (x ∷ y ∷ []) }
{
    x == 0 && y != 0
}

// Notes a number as seen; gives whether it is an address, and was not seen before. The flags stand for a set: no heap.
fn note_address(seen: &mut [bool; 256], a: u8) -> bool
    ensures value { result ≡ is_address a && not (get_or seen.old a false) }
    ensures seen_after { seen.new ≡ set seen.old a true }
{
    let place = a as usize;
    let before = seen[place];
    seen[place] = true;
    if before {
        return false;
    }
    is_address(a)
}

// Whether every number is an address, and no two are equal. By a loop: of a closure that changes what it captures, as one for `all`
// would change the flags, the library says nothing.
pub fn distinct_addresses(list: &[u8]) -> bool
    ensures { result ≡ distinct_addresses list.now }
{
    let mut seen = [false; 256];
    for &a in list {
        if !note_address(&mut seen, a) {
            return false;
        }
    }
    true
}

// Whether a block names a station at all.
pub fn names_somebody(b: &[u8]) -> bool
    ensures { result ≡ ltb 0 (length (stations b.now)) }
{
    b.iter().any(|&a| a != 0)
}

// The block rule: a 00 in it, the 00s one run in the ring, and the stations different addresses. In the ring the last entry
// stands before the first. One pass: the 00s, where they end, and the addresses are looked at together. A 00 goes on to the next
// entry by itself, so that the compiler can make a loop of the stations alone, where no 00s end. By index: a `for` over the entries
// takes up to twice the time (docs/DESIGN-PASS.md).
pub fn good_block(b: &[u8]) -> bool
    ensures { result ≡ good_block b.now }
{
    let n = b.len();
    if n == 0 {
        return false;
    }
    let mut seen = [false; 256];
    let mut zero = false;
    let mut ends: usize = 0;
    let mut last = b[n - 1];
    let mut i: usize = 0;
    while i < n {
        let x = b[i];
        i += 1;
        if zero_end(last, x) {
            ends += 1;
        }
        last = x;
        if x == 0 {
            zero = true;
            continue;
        }
        if !note_address(&mut seen, x) {
            return false;
        }
    }
    if !zero {
        return false;
    }
    ends <= 1
}
