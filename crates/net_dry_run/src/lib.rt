// The dry run of a net: the journey of a telegram over tables end to end, hop after hop. In each hop the called station makes its
// step on the header; the entries of the block stay where the telegram has them, and the last telegram is written at the end.
#![tactic(auto)]

ghost use Rattle.std.specs.Prelude.{◌≡◌, true, ◌≤◌, length, drop, Ok};
ghost use Rattle.mop_header.specs.Header.{head_of, telegram_of, block_start};
ghost use Rattle.mop_reader.specs.Reading.{sound, reading};
ghost use Rattle.mop_reader.specs.declared.Reader.TheVariants.{Station};
ghost use Rattle.mop_header.specs.declared.Function.TheVariants.{Reply};
ghost use Rattle.net_journey.specs.Bounded.{playing, most_transmissions};
ghost use Rattle.net_hop.specs.Tables.{net_of, set_up};
ghost use Rattle.net_hop.specs.Hop.{ending_of};
ghost use Rattle.net_dry_run.specs.DryRun.{played, outcome_of, dry_run_of, run_output, padded, dry_run};
ghost use Rattle.net_dry_run.specs.Private.Legs.{Begins, Leads, summary_of, summary_of_leg, of_summary};

use mop_header::Header;
use mop_reader::{MAX_TELEGRAM, Reader};
use mop_step::REPLY_BODY;
use net_hop::{BYTES, HopAnswer, JourneyEnd, MOST_TRANSMISSIONS};
use refusal::Refusal;
use std::ops::ControlFlow;

// The places of the output that a dry run fills, and asks for.
const RUN_OUTPUT: usize = 1024;

// What a dry run gives: the count of transmissions, how the journey ended and the length of the last telegram.
#[derive(Clone, Copy)]
pub struct Played {
    pub count: usize,
    pub ending: JourneyEnd,
    pub length: usize,
}

// What stays the same on a leg of a journey: the addresses of the stations, which are for the contracts, the table of their
// places, the slice that has the block of the telegram, and its body.
#[derive(Clone, Copy)]
struct Leg<'a> {
    addresses: &'a [u8],
    places: &'a [u8; BYTES],
    block: &'a [u8],
    body: &'a [u8],
}

// Where a leg came to: the header then, how many transmissions were made before it, and whether the journey ended there, or a
// destination answered with a body of so many bytes.
#[derive(Clone, Copy)]
struct Stop {
    header: Header,
    gone: usize,
    next: ControlFlow<JourneyEnd, usize>,
}

impl Leg<'_> {
    // Hop after hop, until the journey ends or a destination answers. The loop never uses up its turns, since no journey has more
    // transmissions; so the answer behind it is never given.
    fn walk(
        &self,
        first: Header,
        before: usize,
        tables: &mut [u16],
        reply: &mut [u8; REPLY_BODY],
    ) -> Stop
        requires { Begins self.now tables.old before first }
        ensures { Leads self.now tables.old before first tables.new reply.new result }
    {
        let mut header = first;
        for gone in before..MOST_TRANSMISSIONS {
            match net_hop::hop(header, self.block, self.body, self.places, tables, reply) {
                HopAnswer::Relayed(h) => header = h,
                HopAnswer::Answered(h, n) => {
                    return Stop {
                        header: h,
                        gone: gone + 1,
                        next: ControlFlow::Continue(n),
                    };
                }
                HopAnswer::Ended(e) => {
                    return Stop {
                        header,
                        gone,
                        next: ControlFlow::Break(e),
                    };
                }
            }
        }
        Stop {
            header,
            gone: MOST_TRANSMISSIONS,
            next: ControlFlow::Break(JourneyEnd::AtZero),
        }
    }

    // Ends a run: the last telegram in the first places of out, and 0 behind it.
    fn end(
        &self,
        header: Header,
        count: usize,
        ending: JourneyEnd,
        out: &mut [u8; RUN_OUTPUT],
    ) -> Played
        requires { length (telegram_of (head_of header self.now.block.now) self.now.body.now) ≤ run_output }
        ensures result_value { outcome_of (Ok result) ≡ played count (ending_of ending) (length (telegram_of (head_of header self.now.block.now) self.now.body.now)) }
        ensures out_after { out.new ≡ padded (telegram_of (head_of header self.now.block.now) self.now.body.now) }
    {
        let length = mop_header::write(header, self.block, self.body, out).unwrap();
        out[length..].fill(0);
        Played {
            count,
            ending,
            length,
        }
    }

    // The way home of a reply. It is only relayed, so that nobody answers it.
    fn go_home(
        &self,
        first: Header,
        before: usize,
        tables: &mut [u16],
        out: &mut [u8; RUN_OUTPUT],
    ) -> Played
        requires begins { Begins self.now tables.old before first }
        requires is_reply { first.function ≡ Reply }
        ensures { dry_run_of (Ok result) tables.new out.new ≡ of_summary (summary_of_leg self.now tables.old before first) }
    {
        let mut unused = [0u8; REPLY_BODY];
        let stop = self.walk(first, before, tables, &mut unused);
        match stop.next {
            ControlFlow::Break(e) => self.end(stop.header, stop.gone + 1, e, out),
            ControlFlow::Continue(_) => unreachable!(),
        }
    }
}

// The journey of a telegram that was read: to its end, or to its destination and then home.
fn play(
    header: Header,
    telegram: &[u8],
    addresses: &[u8],
    tables: &mut [u16],
    out: &mut [u8; RUN_OUTPUT],
) -> Played
    requires telegram_value { reading Station telegram.now ≡ sound (head_of header (drop (block_start header.form) telegram.now)) }
    requires tables_value { set_up addresses.now tables.old ≡ true }
    ensures played { dry_run_of (Ok result) tables.new out.new ≡ of_summary (summary_of 0 (playing most_transmissions (net_of addresses.now tables.old) telegram.now)) }
    ensures out_len { length out.new ≡ run_output }
{
    let places = net_hop::places_of(addresses);
    let leg = Leg {
        addresses,
        places: &places,
        block: &telegram[header.block_start()..],
        body: &telegram[header.length()..],
    };
    // A fixed room, and a length from the answer: no heap.
    let mut reply = [0u8; REPLY_BODY];
    let stop = leg.walk(header, 0, tables, &mut reply);
    match stop.next {
        ControlFlow::Break(e) => leg.end(stop.header, stop.gone + 1, e, out),
        ControlFlow::Continue(n) => {
            let home = Leg {
                body: &reply[..n],
                ..leg
            };
            home.go_home(stop.header, stop.gone, tables, out)
        }
    }
}

// The dry run of a telegram over a net: the one journey of that net (`runs_the_journey`, specs/DryRun.antt), played on the
// tables given. Played: the count of transmissions, how the journey ended, and the length of the last telegram, which fills
// the first places of out; 0 fills those behind it up to the 1,024th, and the others keep their values.
// Refused, and tables and out as they were: 1 for a net that is not set up rightly, 12 for a telegram of more than 1,024
// bytes, 11 for an output of fewer than 1,024 places, 2 to 6 for the header.
pub fn dry_run(
    telegram: &[u8],
    addresses: &[u8],
    tables: &mut [u16],
    out: &mut [u8],
) -> Result<Played, Refusal>
    ensures { dry_run_of result tables.new out.new ≡ dry_run telegram.now addresses.now tables.old out.old }
{
    if !net_hop::is_set_up(addresses, tables) {
        return Err(Refusal::Setup);
    }
    if MAX_TELEGRAM < telegram.len() {
        return Err(Refusal::TooLong);
    }
    let Some(out) = out.first_chunk_mut::<RUN_OUTPUT>() else {
        return Err(Refusal::OutputShort);
    };
    let header = mop_reader::read(Reader::Station, telegram)?;
    Ok(play(header, telegram, addresses, tables, out))
}
