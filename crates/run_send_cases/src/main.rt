// What is only run: the sending half at its limits.
#![tactic(auto)]

mod send_limits;

use std::io;

fn main(rt: HostRuntime) -> io::Result<()> {
    send_limits::rows(&rt)
}
