// Reading the header of a MoP telegram, for a station or for the centre.
#![tactic(auto)]

ghost use Rattle.std.specs.Prelude.{◌≡◌, ℕ, ◌≤◌, List, ◌++◌, Some, None, length, drop, eqb};
ghost use Rattle.base.specs.Choice.{pick};
ghost use Rattle.mop_header.specs.declared.Function.TheVariants.{Request, Reply};
ghost use Rattle.mop_header.specs.Header.{head, block_start, may_begin, is_mark};
ghost use Rattle.mop_reader.specs.Reading.{reading_of, allowed, good_for, judged, reading};

use mop_header::{Form, Function, Header, MARK};
use refusal::Refusal;

// The most bytes of a telegram.
pub const MAX_TELEGRAM: usize = 1024;

// The most entries of a block.
const MAX_ENTRIES: usize = 32;

// Who reads a telegram.
#[derive(Clone, Copy)]
pub enum Reader {
    Station,
    Centre,
}

// The bytes of the functions.
const REQUEST: u8 = Function::Request as u8;

const REPLY: u8 = Function::Reply as u8;

// The function of a byte, if a reader takes it.
fn function_for(reader: Reader, byte: u8) -> Option<Function>
    ensures { result ≡ pick (allowed reader byte) (Some (pick (eqb byte 0xE0) Reply Request)) None }
{
    match (reader, byte) {
        (_, REPLY) => Some(Function::Reply),
        (Reader::Station, REQUEST) => Some(Function::Request),
        _ => None,
    }
}

// Whether a mark may begin with an entry.
fn may_begin(function: Function, a: u8) -> bool
    ensures { result ≡ may_begin function a }
{
    match function {
        Function::Request => a == MARK,
        Function::Reply => a == MARK || a == 0,
    }
}

// Whether four entries are the mark.
fn is_mark(function: Function, a: u8, b: u8, c: u8, d: u8) -> bool
    ensures { result ≡ is_mark function a b c d }
{
    match (b, c, d) {
        (MARK, MARK, MARK) => may_begin(function, a),
        _ => false,
    }
}

// Whether a reader takes a block. The block rule is asked for in one place, so that its loop stands there once.
fn good_for(reader: Reader, block: &[u8]) -> bool
    ensures { result ≡ good_for reader block.now }
{
    if !mop_block::good_block(block) {
        return false;
    }
    match reader {
        Reader::Station => true,
        Reader::Centre => mop_block::names_somebody(block),
    }
}

// A header of these parts, beside its block: 5 for the block, then 6 for the mark.
fn judge(
    reader: Reader,
    function: Function,
    control: u8,
    form: Form,
    block: &[u8],
) -> Result<Header, Refusal>
    requires { length block.now ≤ 32 }
    ensures { (tg rest : List ℕ) → drop (block_start form) tg ≡ block.now ++ rest → reading_of result tg ≡ judged reader (head function control form block.now) }
{
    if !good_for(reader, block) {
        return Err(Refusal::Block);
    }
    let header = Header::new(function, control, form, block.len() as u8);
    if !header.is_marked(block) {
        return Err(Refusal::Mark);
    }
    Ok(header)
}

// The header of a telegram, to stand beside the telegram from its block on; or why it is refused: 12, 2, 3, if extended 2, 4, 2,
// then 5, 6.
pub fn read(reader: Reader, telegram: &[u8]) -> Result<Header, Refusal>
    ensures { reading_of result telegram.now ≡ reading reader telegram.now }
{
    if MAX_TELEGRAM < telegram.len() {
        return Err(Refusal::TooLong);
    }
    let [byte, control, a, b, c, d, ..] = *telegram else {
        return Err(Refusal::HeaderCut);
    };
    let Some(function) = function_for(reader, byte) else {
        return Err(Refusal::Function);
    };
    let mut form = Form::Standard;
    let mut start = 2;
    let mut end = 6;
    if is_mark(function, a, b, c, d) {
        if telegram.len() < 7 {
            return Err(Refusal::HeaderCut);
        }
        let count = telegram[6] as usize;
        if count < 2 || MAX_ENTRIES < count {
            return Err(Refusal::ExtendedCount);
        }
        form = Form::Extended(a);
        start = 7;
        end = 7 + count;
        if telegram.len() < end {
            return Err(Refusal::HeaderCut);
        }
    }
    judge(reader, function, control, form, &telegram[start..end])
}
