// What is only run. Without an argument: the calls at their limits, and the receiving half's table row by row.
// `frame` frames standard input and feeds the frame back; `listen` feeds standard input to a receiving half.
#![tactic(auto)]

mod centre_limits;
mod gate_limits;
mod limits;
mod link;
mod net_limits;
mod register_limits;
mod station_limits;

use std::env::FillError;
use std::io;
use std::rt::Env;

// All calls at their limits.
fn show_limits(rt: &impl Print) -> io::Result<()> {
    limits::rows(rt)?;
    station_limits::setups(rt)?;
    station_limits::lengths(rt)?;
    station_limits::outputs(rt)?;
    station_limits::bodies(rt)?;
    station_limits::times(rt)?;
    register_limits::places(rt)?;
    net_limits::setups(rt)?;
    net_limits::counts(rt)?;
    net_limits::orders(rt)?;
    centre_limits::routes(rt)?;
    centre_limits::requests(rt)?;
    centre_limits::blocks(rt)?;
    centre_limits::replies(rt)?;
    gate_limits::telegrams(rt)?;
    gate_limits::bytes(rt)?;
    gate_limits::ends(rt)?;
    gate_limits::barrier(rt)?;
    gate_limits::answers(rt)
}

// What is written about an argument that names no mode.
fn show_usage(rt: &impl Eprint) -> io::Result<()> {
    eprintln!(rt; "usage: run_cases [frame | listen]")
}

// What the first argument asks for: no argument, or an empty one, the limits. One of more than 8 bytes names no mode.
fn main(rt: HostRuntime) -> io::Result<()> {
    let mut word = [0u8; 8];
    match rt.arg(1, &mut word) {
        Err(FillError::NotPresent) => show_limits(&rt),
        Err(FillError::TooLong) => show_usage(&rt),
        Ok(n) => match &word[..n] {
            b"" => show_limits(&rt),
            b"listen" => link::listen(&rt),
            b"frame" => link::frame(&rt),
            _ => show_usage(&rt),
        },
    }
}
