// The calls of the gate bus as exports for C: the functions of c_gate. include/hanraquin.h says it for the programmer.
#![tactic(auto)]

ghost use Rattle.std.specs.Prelude.{◌≡◌};
ghost use Rattle.c_answer.specs.Answer.{written};
ghost use Rattle.c_gate.specs.Bus.{write_call, received, receive_call};
ghost use Rattle.c_gate.specs.Commands.{operated, operate_call, write_command_call};
ghost use Rattle.c_gate.specs.Answers.{write_answer_call, answer_told, read_answer_call};

// c_gate::hanraquin_gate_write.
#[unsafe(no_mangle)]
pub extern "C" fn hanraquin_gate_write(
    destination: u8,
    source: u8,
    src: &[u8],
    out: &mut [u8],
) -> u64
    ensures { written result out.new ≡ write_call destination source src.now out.old }
{
    c_gate::hanraquin_gate_write(destination, source, src, out)
}

// c_gate::hanraquin_gate_receive.
#[unsafe(no_mangle)]
pub extern "C" fn hanraquin_gate_receive(
    own: u8,
    state: &mut [u64],
    store: &mut [u8],
    event: u32,
    out: &mut [u8],
) -> u64
    ensures { received result state.new store.new out.new ≡ receive_call own state.old store.old event out.old }
{
    c_gate::hanraquin_gate_receive(own, state, store, event, out)
}

// c_gate::hanraquin_gate_operate.
#[unsafe(no_mangle)]
pub extern "C" fn hanraquin_gate_operate(src: &[u8], levels: &mut [u8], edges: &mut [u8]) -> u64
    ensures { operated result levels.new edges.new ≡ operate_call src.now levels.old edges.old }
{
    c_gate::hanraquin_gate_operate(src, levels, edges)
}

// c_gate::hanraquin_gate_write_command.
#[unsafe(no_mangle)]
pub extern "C" fn hanraquin_gate_write_command(command: u8, function: u8, out: &mut [u8]) -> u64
    ensures { written result out.new ≡ write_command_call command function out.old }
{
    c_gate::hanraquin_gate_write_command(command, function, out)
}

// c_gate::hanraquin_gate_write_answer.
#[unsafe(no_mangle)]
pub extern "C" fn hanraquin_gate_write_answer(kind: u8, number: i32, out: &mut [u8]) -> u64
    ensures { written result out.new ≡ write_answer_call kind number out.old }
{
    c_gate::hanraquin_gate_write_answer(kind, number, out)
}

// c_gate::hanraquin_gate_read_answer.
#[unsafe(no_mangle)]
pub extern "C" fn hanraquin_gate_read_answer(src: &[u8], number: &mut [i32]) -> u64
    ensures { answer_told result number.new ≡ read_answer_call src.now number.old }
{
    c_gate::hanraquin_gate_read_answer(src, number)
}
