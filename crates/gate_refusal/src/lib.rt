// The refusals of the gate bus, each with the number that is given back.
#![tactic(auto)]

ghost use Rattle.gate_refusal.specs.Numbers.{number_of};
ghost use Rattle.gate_refusal.specs.Private.Numbers.{told_apart};
ghost use Rattle.gate_refusal.specs.declared.GateRefusal.TheVariants.{Setup, Kind, Length, Position, OutputShort, Check, Address};
ghost use Rattle.std.specs.Prelude.{refl};

use refusal::Numbered;

#[derive(Clone, Copy, Debug, PartialEq, Eq)]
pub enum GateRefusal {
    // The state counts more than its telegram can have, or the store has the wrong length.
    Setup = 1,
    // Another kind of data.
    Kind = 3,
    // The telegram or its data has the wrong length.
    Length = 7,
    // The position is not -1 to 100.
    Position = 10,
    // The output is too short.
    OutputShort = 11,
    // The check of the telegram is wrong.
    Check = 15,
    // The address FF, or a token that is not between masters.
    Address = 16,
}

impl Numbered for GateRefusal {
    ghost numeral = { number_of };

    fn number(self) -> u8 {
        self as u8
    }

    ghost differ = { told_apart (elim [ Setup ↦ refl | Kind ↦ refl | Length ↦ refl | Position ↦ refl | OutputShort ↦ refl | Check ↦ refl | Address ↦ refl ]) };
}
