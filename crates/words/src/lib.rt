// Two-byte numbers, high byte first: made of bytes and stored, and written as bytes into a buffer.
#![tactic(auto)]

ghost use Rattle.std.specs.Prelude.{◌≡◌};
ghost use Rattle.std.proofs.lemmas.List.Edits.{sets};
ghost use Rattle.base.specs.Words.{word, words_of, bytes_of};

// The number of two bytes.
pub fn word_of(high: u8, low: u8) -> u16
    ensures { result ≡ word high low }
{
    u16::from_be_bytes([high, low])
}

// Writes the bytes of numbers to the places of out from `at` on. Bytes for which there is no place are left out.
pub fn put_words(numbers: &[u16], out: &mut [u8], at: usize)
    ensures { out.new ≡ sets out.old at (bytes_of numbers.now) }
{
    if out.len() < at {
        return;
    }
    for (i, n) in numbers.iter().enumerate() {
        let place = at + 2 * i;
        let pair = n.to_be_bytes();
        // At most one byte more has a place, and no number behind it. The others are stored by index: by `put` a read of eight
        // registers was measured to take half as long again at a station.
        if out.len() < place + 2 {
            places::put(&pair, out, place);
            return;
        }
        out[place] = pair[0];
        out[place + 1] = pair[1];
    }
}

// Stores the numbers that the bytes hold, two bytes for each, to the places of table from `at` on; an odd last byte makes none.
// Numbers for which there is no place are left out.
pub fn store_words(bytes: &[u8], table: &mut [u16], at: usize)
    ensures { table.new ≡ sets table.old at (words_of bytes.now) }
{
    for (place, pair) in (at..table.len()).zip(bytes.chunks_exact(2)) {
        table[place] = word_of(pair[0], pair[1]);
    }
}
