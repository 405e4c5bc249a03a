// The header of a MoP telegram by value: rolled, marked and written. The entries of its block stay where they are, in a slice
// of the caller's that is lent beside it; a header is one only together with that slice.
#![tactic(auto)]

ghost use Rattle.std.specs.Prelude.{◌≡◌, ℕ, ◌+◌, ◌-◌, ◌≤◌, List, length, get_or, drop};
ghost use Rattle.std.proofs.lemmas.List.Edits.{sets};
ghost use Rattle.base.specs.Filling.{fitted};
ghost use Rattle.refusal.specs.Writing.{filling_of};
ghost use Rattle.mop_block.specs.Block.{rolled, first, next};
ghost use Rattle.mop_header.specs.Header.{head, entries, head_of, beside, block_start, function_byte, header_bytes, header_length, telegram_of, mark_byte, mark_is, with_mark, mark_agrees, remarked, rolled_left, rolled_right, as_reply};
ghost use Rattle.mop_header.specs.Private.Places.{first_place};

use refusal::Refusal;

// The mark's bytes, but for the first one that may be 00.
pub const MARK: u8 = 0xEF;

// The control byte of a new telegram.
pub const NEW_CONTROL: u8 = 0xFF;

// A request or a reply, by the function byte.
#[derive(Clone, Copy)]
pub enum Function {
    Request = 0x60,
    Reply = 0xE0,
}

// Four entries, or the mark, a count and so many entries. The extended form carries its first mark byte.
#[derive(Clone, Copy)]
pub enum Form {
    Standard,
    Extended(u8),
}

// The header of a telegram. Its block is the first count entries of the slice lent beside it, from the one at place turn on
// and around; an entry that the slice lacks is 00. Other crates see the function, and all else by the methods.
#[derive(Clone, Copy)]
pub struct Header {
    pub function: Function,
    control: u8,
    form: Form,
    count: u8,
    turn: u8,
}

// The first mark byte of an extended header, by the block's first entry.
fn mark_of(function: Function, first: u8) -> u8
    ensures { result ≡ mark_byte function first }
{
    match function {
        Function::Request => MARK,
        Function::Reply => { if first == 0 { 0 } else { MARK } }
    }
}

// Whether a form has a given first mark byte.
fn has_mark(form: Form, mark: u8) -> bool
    ensures { result ≡ mark_is form mark }
{
    match form {
        Form::Standard => true,
        Form::Extended(m) => m == mark,
    }
}

// The form with another first mark byte.
fn with_mark(form: Form, mark: u8) -> Form
    ensures { result ≡ with_mark form mark }
{
    match form {
        Form::Standard => Form::Standard,
        Form::Extended(_) => Form::Extended(mark),
    }
}

// The entry of a slice at a place; 00 where there is none.
fn entry_at(slice: &[u8], place: usize) -> u8
    ensures { result ≡ get_or slice.now place 0 }
{
    slice.get(place).copied().unwrap_or(0)
}

impl Header {
    // A header of these parts, with so many entries.
    pub fn new(function: Function, control: u8, form: Form, count: u8) -> Self
        ensures { (slice : List ℕ) → head_of result slice ≡ head function control form (entries count slice) }
    {
        Header {
            function,
            control,
            form,
            count,
            turn: 0,
        }
    }

    // The place of the first entry: turn, or 0 where that is past the block.
    fn place(self) -> u8
        ensures value { result ≡ first_place self.count self.turn }
        ensures upper_bound { result ≤ self.count }
    {
        if self.turn < self.count { self.turn } else { 0 }
    }

    // The header with another entry first.
    fn turned(self, turn: u8) -> Self
        ensures { (slice : List ℕ) → head_of result slice ≡ head self.function self.control self.form (rolled turn (entries self.count slice)) }
    {
        Header { turn, ..self }
    }

    // The block rolled one place to the left.
    pub fn rolled_left(self) -> Self
        ensures { head_of result ≡ beside rolled_left (head_of self) }
    {
        let at = self.place();
        if self.count - at > 1 {
            self.turned(at + 1)
        } else {
            self.turned(0)
        }
    }

    // The block rolled one place to the right.
    pub fn rolled_right(self) -> Self
        ensures { head_of result ≡ beside rolled_right (head_of self) }
    {
        let at = self.place();
        if 0 < at {
            self.turned(at - 1)
        } else if self.count == 0 {
            self
        } else {
            self.turned(self.count - 1)
        }
    }

    // How many entries the block has.
    pub fn entry_count(self) -> usize
        ensures { (slice : List ℕ) → result ≡ length (head_of self slice).block }
    {
        self.count as usize
    }

    // How many bytes stand before the block, in the telegram that the header was read in.
    pub fn block_start(self) -> usize
        ensures { result ≡ block_start self.form }
    {
        match self.form {
            Form::Standard => 2,
            Form::Extended(_) => 7,
        }
    }

    // How many bytes the header has.
    pub fn length(self) -> usize
        ensures { (slice : List ℕ) → result ≡ header_length (head_of self slice) }
    {
        self.block_start() + self.count as usize
    }

    // The entry of the block at a place; 00 where there is none. An iterator over the ring would be a type of its own, with more to
    // prove than the loops that ask for one place after the other.
    pub fn entry(self, block: &[u8], place: usize) -> u8
        ensures { result ≡ get_or (head_of self block.now).block place 0 }
    {
        let count = self.count as usize;
        let at = self.place() as usize;
        let left = count - at;
        if count <= place {
            0
        } else if place < left {
            entry_at(block, at + place)
        } else {
            entry_at(block, place - left)
        }
    }

    // The first entry of the block; 00 where there is none.
    pub fn first(self, block: &[u8]) -> u8
        ensures { result ≡ first (head_of self block.now).block }
    {
        self.entry(block, 0)
    }

    // The entry behind the first; 00 where there is none.
    pub fn next(self, block: &[u8]) -> u8
        ensures { result ≡ next (head_of self block.now).block }
    {
        self.entry(block, 1)
    }

    // The mark set by the block's first entry.
    pub fn remarked(self, block: &[u8]) -> Self
        ensures { head_of result block.now ≡ remarked (head_of self block.now) }
    {
        let mark = mark_of(self.function, self.first(block));
        Header {
            form: with_mark(self.form, mark),
            ..self
        }
    }

    // Whether the mark agrees with the block.
    pub fn is_marked(self, block: &[u8]) -> bool
        ensures { result ≡ mark_agrees (head_of self block.now) }
    {
        has_mark(self.form, mark_of(self.function, self.first(block)))
    }

    // A new reply, in the form and with the block of the request.
    pub fn as_reply(self) -> Self
        ensures { head_of result ≡ beside as_reply (head_of self) }
    {
        Header {
            function: Function::Reply,
            control: NEW_CONTROL,
            ..self
        }
    }
}

// The function byte.
pub fn function_byte(function: Function) -> u8
    ensures { result ≡ function_byte function }
{
    function as u8
}

// Puts the entries of a slice from one place to another. By place, since an entry that the slice lacks is put as 00.
fn put_entries(block: &[u8], from: usize, end: usize, out: &mut [u8], at: usize)
    requires from_le_end { from ≤ end }
    requires from_in_bounds { at + (end - from) ≤ length out.old }
    ensures { out.new ≡ sets out.old at (drop from (entries end block.now)) }
{
    for i in from..end {
        out[at + (i - from)] = entry_at(block, i);
    }
}

// Puts the block of a header: the entries from the first one on, then those before it.
fn put_block(header: Header, block: &[u8], out: &mut [u8], at: usize)
    requires { at + header.count ≤ length out.old }
    ensures { out.new ≡ sets out.old at (head_of header block.now).block }
{
    let n = header.count as usize;
    let first = header.place() as usize;
    put_entries(block, first, n, out, at);
    put_entries(block, 0, first, out, at + (n - first));
}

// Writes the bytes of a header.
fn write_header(header: Header, block: &[u8], out: &mut [u8])
    requires { header_length (head_of header block.now) ≤ length out.old }
    ensures { out.new ≡ sets out.old 0 (header_bytes (head_of header block.now)) }
{
    let byte = function_byte(header.function);
    match header.form {
        Form::Standard => {
            out[..2].copy_from_slice(&[byte, header.control]);
            put_block(header, block, out, 2)
        }
        Form::Extended(mark) => {
            out[..7].copy_from_slice(&[byte, header.control, mark, MARK, MARK, MARK, header.count]);
            put_block(header, block, out, 7)
        }
    }
}

// The telegram of a header, beside its entries, and a body in the first places of out; the other places keep their values.
// Refused with 11, and out as it was: an output that is too short.
pub fn write(header: Header, block: &[u8], body: &[u8], out: &mut [u8]) -> Result<usize, Refusal>
    ensures { filling_of result out.new ≡ fitted (telegram_of (head_of header block.now) body.now) out.old }
{
    let n = header.length();
    if out.len() < n || out.len() - n < body.len() {
        return Err(Refusal::OutputShort);
    }
    write_header(header, block, out);
    places::put(body, out, n);
    Ok(n + body.len())
}
