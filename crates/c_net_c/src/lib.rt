// The call of a dry run as an export for C: the function of c_net. include/hanraquin.h says it for the programmer.
#![tactic(auto)]

ghost use Rattle.std.specs.Prelude.{◌≡◌};
ghost use Rattle.c_net.specs.Net.{ran, dry_run_call};

// c_net::hanraquin_dry_run.
#[unsafe(no_mangle)]
pub extern "C" fn hanraquin_dry_run(
    telegram: &[u8],
    addresses: &[u8],
    tables: &mut [u16],
    out: &mut [u8],
    res: &mut [u32],
) -> u64
    ensures { ran result tables.new out.new res.new ≡ dry_run_call telegram.now addresses.now tables.old out.old res.old }
{
    c_net::hanraquin_dry_run(telegram, addresses, tables, out, res)
}
