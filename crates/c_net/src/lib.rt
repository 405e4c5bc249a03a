// The call of a dry run as a function for C: net_dry_run::dry_run. include/hanraquin.h says it for the programmer.
#![tactic(auto)]

ghost use Rattle.std.specs.Prelude.{◌≡◌};
ghost use Rattle.net_hop.specs.Hop.{ending_of};
ghost use Rattle.c_net.specs.Net.{ending_number, ran, dry_run_call};

use net_hop::JourneyEnd;
use refusal::{Numbered, Refusal};

// The number of an ending, as C has it.
fn ending_number(end: JourneyEnd) -> u32
    ensures { result ≡ ending_number (ending_of end) }
{
    match end {
        JourneyEnd::AtZero => 0,
        JourneyEnd::AtNobody => 1,
        JourneyEnd::Refused(r) => r.number() as u32,
    }
}

// The dry run of a telegram: net_dry_run::dry_run. The value is the count of transmissions; res is the count, the ending (0 at an
// entry 00, 1 at an address that nobody has, else the number of the station's refusal), and the length of the last telegram.
// Refused with 1, and all as it was: a res of another length than 3. Every refusal leaves res as it was.
pub fn hanraquin_dry_run(
    telegram: &[u8],
    addresses: &[u8],
    tables: &mut [u16],
    out: &mut [u8],
    res: &mut [u32],
) -> u64
    ensures { ran result tables.new out.new res.new ≡ dry_run_call telegram.now addresses.now tables.old out.old res.old }
{
    if res.len() != 3 {
        return c_answer::refused(Refusal::Setup);
    }
    match net_dry_run::dry_run(telegram, addresses, tables, out) {
        Ok(played) => {
            let ending = ending_number(played.ending);
            res.copy_from_slice(&[played.count as u32, ending, played.length as u32]);
            played.count as u64
        }
        Err(r) => c_answer::refused(r),
    }
}
