// The calls of the link as exports for C: the functions of c_link. include/hanraquin.h says it for the programmer.
#![tactic(auto)]

ghost use Rattle.std.specs.Prelude.{◌≡◌};
ghost use Rattle.c_answer.specs.Answer.{written};
ghost use Rattle.c_link.specs.Link.{frame_call, received, receive_call};

// c_link::hanraquin_frame.
#[unsafe(no_mangle)]
pub extern "C" fn hanraquin_frame(src: &[u8], out: &mut [u8]) -> u64
    ensures { written result out.new ≡ frame_call src.now out.old }
{
    c_link::hanraquin_frame(src, out)
}

// c_link::hanraquin_receive.
#[unsafe(no_mangle)]
pub extern "C" fn hanraquin_receive(state: &mut [u64], event: u32, buffer: &mut [u8]) -> u64
    ensures { received result state.new buffer.new ≡ receive_call state.old event buffer.old }
{
    c_link::hanraquin_receive(state, event, buffer)
}
