// Copying bytes into a buffer.
#![tactic(auto)]

ghost use Rattle.std.specs.Prelude.{◌≡◌};
ghost use Rattle.std.proofs.lemmas.List.Edits.{sets};
ghost use Rattle.base.specs.Filling.{fitted, fitting_of};

// Copies the bytes to the places of out from `at` on. Bytes for which there is no place are left out.
pub fn put(bytes: &[u8], out: &mut [u8], at: usize)
    ensures { out.new ≡ sets out.old at bytes.now }
{
    // By `copy_from_slice`, of which the length is not known here, the archive for C would need memmove too; and of places lent by
    // `iter_mut` a proof knows only their number.
    for (place, &b) in (at..out.len()).zip(bytes) {
        out[place] = b;
    }
}

// Copies the bytes to the first places of out, and gives their number. None, and out as it was, where it has too few places.
pub fn fit(bytes: &[u8], out: &mut [u8]) -> Option<usize>
    ensures { fitting_of result out.new ≡ fitted bytes.now out.old }
{
    if out.len() < bytes.len() {
        return None;
    }
    put(bytes, out, 0);
    Some(bytes.len())
}
