// A program: the telegram on standard input is played over three stations, which have factory values and, in hex, the addresses
// 12, 13 and 55; its journey is told on standard output.
#![tactic(auto)]

ghost use Rattle.std.specs.Prelude.{◌≡◌, [], ◌∷◌};
ghost use Rattle.mop_registers.specs.Rows.{factory};

use mop_registers::TABLE_LENGTH;
use std::io;

// The tables of three stations as they leave the factory.
fn factory_tables() -> [[u16; TABLE_LENGTH]; 3]
    ensures { result ≡ factory ∷ factory ∷ factory ∷ [] }
{
    [mop_registers::factory(); 3]
}

fn main(rt: HostRuntime) -> io::Result<()> {
    // One byte more than a telegram may have shows that it is too long.
    let mut input = [0u8; 1025];
    let n = streams::read_full(&mut rt.stdin(), &mut input)?;
    let addresses = [0x12u8, 0x13, 0x55];
    let mut tables = factory_tables();
    let mut text = [0u8; 6500];
    let answer = net_report::report(
        &input[..n],
        &addresses,
        tables.as_flattened_mut(),
        &mut text,
    );
    if let Ok(length) = answer
        && let Some(told) = text.get(..length)
    {
        rt.write_all(told)?;
    }
    Ok(())
}
