// One hop of a journey over a net of stations whose tables stand end to end: the called station makes its step on the header.
#![tactic(auto)]

ghost use Rattle.std.specs.Prelude.{◌≡◌, suc, ◌*◌, ◌≤◌, length, get_or, MatchOption};
ghost use Rattle.mop_registers.specs.Rows.{table_length};
ghost use Rattle.mop_header.specs.Header.{head_of};
ghost use Rattle.net_hop.specs.Tables.{set_up};
ghost use Rattle.net_hop.specs.Hop.{places_of, hop_of, step_at, hopping};

use mop_header::Header;
use mop_reader::MAX_TELEGRAM;
use mop_registers::TABLE_LENGTH;
use mop_step::StationStep;
use refusal::Refusal;

// The most stations of a dry run.
const MAX_STATIONS: usize = 64;

// How many bytes there are.
pub const BYTES: usize = 256;

// The most transmissions of a journey: 31 stations, out and back.
pub const MOST_TRANSMISSIONS: usize = 62;

// How a journey ends: with a 00 first, with an address first that nobody has, or refused by a station.
#[derive(Clone, Copy)]
pub enum JourneyEnd {
    AtZero,
    AtNobody,
    Refused(Refusal),
}

// What a hop gives: the header with which the telegram goes on, with its own body; the header of the reply, and how many bytes
// its body has; or how the journey ended.
#[derive(Clone, Copy)]
pub enum HopAnswer {
    Relayed(Header),
    Answered(Header, usize),
    Ended(JourneyEnd),
}

// Whether a net is set up rightly: at most 64 different addresses, each 1 to 240, and a table for each.
pub fn is_set_up(addresses: &[u8], tables: &[u16]) -> bool
    ensures { result ≡ set_up addresses.now tables.now }
{
    addresses.len() <= MAX_STATIONS
        && tables.len() == TABLE_LENGTH * addresses.len()
        && mop_block::distinct_addresses(addresses)
}

// A table of places: at each address one more than the place of its station in the list, and 0 at all other bytes. Of more than
// 64 addresses it has the first 64.
pub fn places_of(addresses: &[u8]) -> [u8; BYTES]
    ensures { result ≡ places_of addresses.now }
{
    let mut places = [0u8; BYTES];
    let listed = &addresses[..MAX_STATIONS.min(addresses.len())];
    for (place, &address) in listed.iter().enumerate() {
        places[address as usize] = place as u8 + 1;
    }
    places
}

// The place of the station with an address, by a table of places. The table itself keeps 0 for none, as its public contract says.
fn place_at(places: &[u8; BYTES], address: u8) -> Option<usize>
    ensures { MatchOption result (get_or places.now address 0 ≡ 0) (λ place. get_or places.now address 0 ≡ suc place) }
{
    (places[address as usize] as usize).checked_sub(1)
}

// The step of the station at a place. "Not mine" is never given, since its own entry is the first. The table is cut by its bounds:
// of chunks that are lent for writing the library does not say what they leave.
#[tactic(auto, unfolding(mop_registers::specs::Rows::table_length))]
fn step_at(
    own: u8,
    place: usize,
    header: Header,
    block: &[u8],
    body: &[u8],
    tables: &mut [u16],
    reply: &mut [u8],
) -> HopAnswer
    requires { table_length * suc place ≤ length tables.old }
    ensures { hop_of result block.now tables.new reply.new ≡ step_at own place (head_of header block.now) body.now tables.old reply.old }
{
    let start = TABLE_LENGTH * place;
    let end = start + TABLE_LENGTH;
    let table = &mut tables[start..end];
    match mop_step::step(own, header, block, body, table, MAX_TELEGRAM, reply) {
        Ok(StationStep::Relayed(h)) => HopAnswer::Relayed(h),
        Ok(StationStep::Answered(h, n)) => HopAnswer::Answered(h, n),
        Ok(StationStep::NotMine) => HopAnswer::Ended(JourneyEnd::AtNobody),
        Err(r) => HopAnswer::Ended(JourneyEnd::Refused(r)),
    }
}

// One hop of a journey: the station that the header's first entry names makes its step, with the table at its place and room for
// the longest telegram. Relayed: the header with which the telegram goes on. Answered: the header of the reply, and how many
// places of the lent buffer its body fills. Ended, and tables and buffer as they were: at an entry 00; at an address without a place, or
// with one that the tables do not reach; refused by that station. Header, block and body are as a step takes them.
pub fn hop(
    header: Header,
    block: &[u8],
    body: &[u8],
    places: &[u8; BYTES],
    tables: &mut [u16],
    reply: &mut [u8],
) -> HopAnswer
    ensures { hop_of result block.now tables.new reply.new ≡ hopping places.now (head_of header block.now) body.now tables.old reply.old }
{
    let entry = header.first(block);
    if entry == 0 {
        return HopAnswer::Ended(JourneyEnd::AtZero);
    }
    match place_at(places, entry) {
        Some(place) if TABLE_LENGTH * (place + 1) <= tables.len() => {
            step_at(entry, place, header, block, body, tables, reply)
        }
        _ => HopAnswer::Ended(JourneyEnd::AtNobody),
    }
}
