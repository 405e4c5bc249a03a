// The operating commands of a barrier, with their level and edge registers.
#![tactic(auto)]

ghost use Rattle.std.specs.Prelude.{◌≡◌, false, replicate, ◌<◌};
ghost use Rattle.gate_refusal.specs.Writing.{filling_of};
ghost use Rattle.gate_commands.specs.Commands.{after, function_of, carried_out, operation_of, commanding, operating, command_writing};

use gate_refusal::GateRefusal;

// How many commands there are: 00 BT, 01 BA, 02 BZ, 03 BS, 04 to 09 the relays 1 to 6.
pub const COMMANDS: usize = 10;

// The first byte of an operating command.
const OPERATE: u8 = 0x01;

// A level and an edge register for each command: two arrays, as the theorems and the calls for C have them.
#[derive(Clone, Copy)]
pub struct GateRegisters {
    pub levels: [bool; 10],
    pub edges: [bool; 10],
}

impl GateRegisters {
    // All levels and edges 0.
    pub fn clear() -> Self
        ensures { result ≡ record { levels = replicate 10 false; edges = replicate 10 false } }
    {
        Self {
            levels: [false; 10],
            edges: [false; 10],
        }
    }
}

// The functions of a command: 00, 01 and 02.
#[derive(Clone, Copy)]
enum GateFunction {
    Pulse,
    Activate,
    Deactivate,
}

// The level and the edge register of one command.
#[derive(Clone, Copy)]
struct GatePair {
    level: bool,
    edge: bool,
}

// What an operating command is answered by.
#[derive(Clone, Copy, Debug, PartialEq, Eq)]
pub enum OperateAnswer {
    Ack,
    Nak,
}

// The answer to an operating command, or why its data is refused; and the registers after it.
#[derive(Clone, Copy)]
pub struct Operated {
    pub answer: Result<OperateAnswer, GateRefusal>,
    pub registers: GateRegisters,
}

// What a function does to the registers of its command.
fn pair_after(level: bool, function: GateFunction, edge: bool) -> GatePair
    ensures { result ≡ after level function edge }
{
    match (level, function) {
        (_, GateFunction::Deactivate) => GatePair { level: false, edge },
        (true, _) => GatePair { level: true, edge },
        (false, GateFunction::Pulse) => GatePair {
            level: false,
            edge: true,
        },
        (false, GateFunction::Activate) => GatePair {
            level: true,
            edge: true,
        },
    }
}

// The function of a byte, if it has one. `TryFrom` would be this match, and a type for its error.
#[tactic(auto, unfolding(crate::specs::Commands::function_of))]
fn function_of(b: u8) -> Option<GateFunction>
    ensures { result ≡ function_of b }
{
    match b {
        0 => Some(GateFunction::Pulse),
        1 => Some(GateFunction::Activate),
        2 => Some(GateFunction::Deactivate),
        _ => None,
    }
}

// Carries out a function on the registers of a command, which there is.
#[tactic(auto, unfolding(crate::specs::Commands::carried_out))]
fn carry_out(mut registers: GateRegisters, command: u8, function: GateFunction) -> GateRegisters
    requires { command < 10 }
    ensures { result ≡ carried_out registers command function }
{
    let at = command as usize;
    let pair = pair_after(registers.levels[at], function, registers.edges[at]);
    registers.levels[at] = pair.level;
    registers.edges[at] = pair.edge;
    registers
}

// An operating command, by its two bytes.
#[tactic(auto, unfolding(crate::specs::Commands::commanding, crate::specs::Commands::functioning))]
fn command_answer(registers: GateRegisters, command: u8, function: u8) -> Operated
    ensures { operation_of result ≡ commanding registers command function }
{
    match function_of(function) {
        Some(known) if (command as usize) < COMMANDS => Operated {
            answer: Ok(OperateAnswer::Ack),
            registers: carry_out(registers, command, known),
        },
        _ => Operated {
            answer: Ok(OperateAnswer::Nak),
            registers,
        },
    }
}

// An operating command carried out on the registers: ack and the registers after it; or nak, and the registers as they were,
// for a command or a function that there is not. Refused, and the registers as they were: 7 for data that is not three bytes
// long, then 3 for another first byte.
#[tactic(auto, unfolding(crate::specs::Commands::operating))]
pub fn operate(registers: GateRegisters, src: &[u8]) -> Operated
    ensures { operation_of result ≡ operating registers src.now }
{
    match *src {
        [OPERATE, command, function] => command_answer(registers, command, function),
        [_, _, _] => Operated {
            answer: Err(GateRefusal::Kind),
            registers,
        },
        _ => Operated {
            answer: Err(GateRefusal::Length),
            registers,
        },
    }
}

// The operating command with these two bytes, whatever they are, in the first places of out, and its length; the other
// places keep their values. Refused, and out as it was: 11 for an output that is too short.
#[tactic(auto, unfolding(crate::specs::Commands::command_writing))]
pub fn write_command(command: u8, function: u8, out: &mut [u8]) -> Result<usize, GateRefusal>
    ensures { filling_of result out.new ≡ command_writing command function out.old }
{
    places::fit(&[OPERATE, command, function], out).ok_or(GateRefusal::OutputShort)
}
