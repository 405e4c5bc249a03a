// The call of the sender as an export for C: the function of c_link_send. include/hanraquin.h says it for the programmer.
#![tactic(auto)]

ghost use Rattle.std.specs.Prelude.{◌≡◌};
ghost use Rattle.c_link_send.specs.Send.{at_sender, send_call};

// c_link_send::hanraquin_send.
#[unsafe(no_mangle)]
pub extern "C" fn hanraquin_send(
    state: &mut [u64],
    event: u32,
    src: &[u8],
    buffer: &mut [u8],
    out: &mut [u8],
) -> u64
    ensures { at_sender result state.new buffer.new out.new ≡ send_call state.old event src.now buffer.old out.old }
{
    c_link_send::hanraquin_send(state, event, src, buffer, out)
}
