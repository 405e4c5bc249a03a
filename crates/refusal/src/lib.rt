// What every kind of refusals has: numbers that are given back; and the refusals of link, mop and net.
#![tactic(auto)]

ghost use Rattle.std.specs.Prelude.{◌≡◌, ℕ, refl};
ghost use Rattle.refusal.specs.Numbers.{number_of};
ghost use Rattle.refusal.specs.Private.Numbers.{told_apart};
ghost use Rattle.refusal.specs.declared.Refusal.TheVariants.{Setup, HeaderCut, Function, ExtendedCount, Block, Mark, BodyLength, NoRegister, NoWrite, ValueRange, OutputShort, TooLong};

// A kind of refusals, each of which has a number of its own.
pub trait Numbered: Copy {
    ghost numeral: { Self → ℕ };

    // The number that is given back.
    fn number(self) -> u8
        ensures { result ≡ numeral self };

    // No two refusals have the same number.
    ghost differ: { (a b : Self) → numeral a ≡ numeral b → a ≡ b };
}

#[derive(Clone, Copy, Debug, PartialEq, Eq)]
pub enum Refusal {
    // The own address is not 1 to 240, the register table has the wrong length, the link state is against its buffer, a
    // sender's limits or failed attempts are wrong, or the dry run is set up wrongly.
    Setup = 1,
    // The header is cut short.
    HeaderCut = 2,
    // The function byte is not allowed at this place.
    Function = 3,
    // The extended count is not 2 to 32.
    ExtendedCount = 4,
    // The block or the route breaks its rule.
    Block = 5,
    // The mark disagrees with the block.
    Mark = 6,
    // The body has the wrong length.
    BodyLength = 7,
    // There is no such register.
    NoRegister = 8,
    // The register takes no write.
    NoWrite = 9,
    // The written value is out of the register's range.
    ValueRange = 10,
    // The output is too short.
    OutputShort = 11,
    // The data or the telegram is longer than 1,024 bytes, or a run longer than 255 registers.
    TooLong = 12,
}

impl Numbered for Refusal {
    ghost numeral = { number_of };

    fn number(self) -> u8 {
        self as u8
    }

    ghost differ = { told_apart (elim [ Setup ↦ refl | HeaderCut ↦ refl | Function ↦ refl | ExtendedCount ↦ refl | Block ↦ refl | Mark ↦ refl | BodyLength ↦ refl | NoRegister ↦ refl | NoWrite ↦ refl | ValueRange ↦ refl | OutputShort ↦ refl | TooLong ↦ refl ]) };
}
