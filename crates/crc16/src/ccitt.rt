// The check with the polynomial 1021 that takes each byte from its top bit on.
ghost use Rattle.std.specs.Prelude.{◌≡◌};
ghost use Rattle.crc16.specs.Ccitt.{ccitt_bit, ccitt_byte, ccitt_over};

// The running value of a check over nothing.
pub const START: u16 = 0xFFFF;

const POLYNOMIAL: u16 = 0x1021;

// One bit: the value moves up, and the polynomial goes into it where a bit falls off the top.
fn bit(check: u16) -> u16
    ensures { result ≡ ccitt_bit check }
{
    if 0x8000 <= check {
        (check << 1) ^ POLYNOMIAL
    } else {
        check << 1
    }
}

// The running value after one more byte.
pub fn byte(check: u16, b: u8) -> u16
    ensures { result ≡ ccitt_byte check b }
{
    let mut r = check ^ (u16::from(b) << 8);
    for _ in 0..u8::BITS {
        r = bit(r);
    }
    r
}

// The running value after all the bytes in turn, from any running value on.
pub fn over(check: u16, bytes: &[u8]) -> u16
    ensures { result ≡ ccitt_over check bytes.now }
{
    bytes.iter().fold(check, |r, &b| byte(r, b))
}
