// The telegram of the gate bus, and the call that writes it.
#![tactic(auto)]

ghost use Rattle.std.specs.Prelude.{◌≡◌, ◌+◌, ◌≤◌, length, Ok};
ghost use Rattle.base.specs.Filling.{written};
ghost use Rattle.gate_refusal.specs.Writing.{filling_of};
ghost use Rattle.gate_telegram.specs.Telegram.{slave_token, bad_addresses, telegram_of, telegram_writing};

use crc16::ccitt;
use gate_refusal::GateRefusal;

// The first byte of every telegram.
pub const START_BYTE: u8 = 0x55;

// The address that nobody has.
pub const RESERVED: u8 = 0xFF;

// The last address of a master; those above it are slaves.
const LAST_MASTER: u8 = 0x0F;

// The most bytes of data in one telegram.
pub const MAX_DATA: usize = 253;

// Whether a telegram with these addresses and so many bytes of data is a token to or from a slave.
#[tactic(auto, unfolding(crate::specs::Telegram::slave_token))]
pub fn is_slave_token(destination: u8, source: u8, n: usize) -> bool
    ensures { result ≡ slave_token destination source n }
{
    n == 0 && (LAST_MASTER < destination || LAST_MASTER < source)
}

// Whether a telegram with so many bytes of data cannot be written for these addresses.
#[tactic(auto, unfolding(crate::specs::Telegram::bad_addresses))]
fn are_bad(destination: u8, source: u8, n: usize) -> bool
    ensures { result ≡ bad_addresses destination source n }
{
    destination == RESERVED || source == RESERVED || is_slave_token(destination, source, n)
}

// Writes the telegram, for which the output has room, and gives its length.
fn write_telegram(destination: u8, source: u8, src: &[u8], out: &mut [u8]) -> usize
    requires { (length src.now ≤ 253) × (length src.now + 6 ≤ length out.old) }
    ensures { filling_of (Ok result) out.new ≡ written (telegram_of destination source src.now) out.old }
{
    let n = src.len();
    let head = [START_BYTE, destination, source, n as u8];
    let check = ccitt::over(ccitt::over(ccitt::START, &head), src);
    places::put(&head, out, 0);
    places::put(src, out, 4);
    words::put_words(&[check], out, n + 4);
    n + 6
}

// The telegram from source to destination with the data, in the first places of out, and its length; the other places keep
// their values. With no data it is a token. Refused, and out as it was: 16 for the address FF, or a token to or from a slave;
// then 7 for more than MAX_DATA bytes of data; then 11 for an output that is too short.
pub fn write(destination: u8, source: u8, src: &[u8], out: &mut [u8]) -> Result<usize, GateRefusal>
    ensures { filling_of result out.new ≡ telegram_writing destination source src.now out.old }
{
    let n = src.len();
    if are_bad(destination, source, n) {
        return Err(GateRefusal::Address);
    }
    if MAX_DATA < n {
        return Err(GateRefusal::Length);
    }
    if out.len() < n + 6 {
        return Err(GateRefusal::OutputShort);
    }
    Ok(write_telegram(destination, source, src, out))
}
