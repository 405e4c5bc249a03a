// Signed numbers in two's complement, and numbers of 32 bits as four bytes, lowest first.
#![tactic(auto)]

ghost use Rattle.std.specs.Prelude.{◌≡◌, ◌≤◌, ℕ, ℤ};
ghost use Rattle.signed.specs.Signed.{top8, top32, bits_of, signed_of, four_bytes, of_four};
ghost use Rattle.signed.specs.Inverse.{FitsTop};
ghost use Rattle.signed.specs.Private.Laws.{signed_bits, bits_signed};

// A width's numbers with a sign, and those without one that stand for them in two's complement.
pub trait TwosComplement {
    type Bits;

    // The largest number without a sign.
    ghost top: { ℕ };

    // What values of the two types are.
    ghost signed: { Self → ℤ };

    ghost unsigned: { Self.Bits → ℕ };

    // The number without a sign that stands for this one.
    fn to_bits(self) -> Self::Bits
        ensures { unsigned result ≡ bits_of top (signed self) };

    // The number that one without a sign stands for.
    fn from_bits(bits: Self::Bits) -> Self
        ensures { signed result ≡ signed_of top (unsigned bits) };

    // There and back: a number of the width, and one without a sign.
    ghost signed_back: { (z : Self) → FitsTop top (signed z) → signed_of top (bits_of top (signed z)) ≡ signed z };

    ghost bits_back: { (n : Self.Bits) → unsigned n ≤ top → bits_of top (signed_of top (unsigned n)) ≡ unsigned n };
}

impl TwosComplement for i8 {
    type Bits = u8;

    ghost top = { top8 };

    ghost signed = { λ z. z };

    ghost unsigned = { λ n. n };

    fn to_bits(self) -> u8 {
        i8::cast_unsigned(self)
    }

    fn from_bits(bits: u8) -> i8 {
        bits.cast_signed()
    }

    ghost signed_back = { signed_bits top8 };

    ghost bits_back = { bits_signed top8 };
}

impl TwosComplement for i32 {
    type Bits = u32;

    ghost top = { top32 };

    ghost signed = { λ z. z };

    ghost unsigned = { λ n. n };

    fn to_bits(self) -> u32 {
        i32::cast_unsigned(self)
    }

    fn from_bits(bits: u32) -> i32 {
        bits.cast_signed()
    }

    ghost signed_back = { signed_bits top32 };

    ghost bits_back = { bits_signed top32 };
}

// The four bytes of a number, lowest first.
pub fn four_bytes(n: u32) -> [u8; 4]
    ensures { result ≡ four_bytes n }
{
    n.to_le_bytes()
}

// The number of four bytes, lowest first.
pub fn of_four(bytes: [u8; 4]) -> u32
    ensures { result ≡ of_four bytes }
{
    u32::from_le_bytes(bytes)
}
