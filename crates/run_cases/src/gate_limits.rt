// The calls of the gate bus at their limits.
use crate::limits::Output;
use events::Event;
use gate_answers::BarrierAnswer;
use gate_commands::{GateRegisters, OperateAnswer};
use gate_receive::{GateAnswer, GateState};
use gate_refusal::GateRefusal;
use show::{BEFORE, Kept, Refused, Start, first, first_other};
use std::{fmt, io};

// Writes a telegram with n bytes of data into an output of so many places, and shows all that it gives.
fn write_case(
    rt: &impl Print,
    destination: u8,
    source: u8,
    n: usize,
    places: usize,
) -> io::Result<()> {
    let src = [0xA5u8; 256];
    let mut room = [BEFORE; 260];
    let out = &mut room[..places.min(260)];
    let answer = gate_telegram::write(destination, source, first(&src, n), out);
    let output = Output {
        answer,
        out: &room,
        most: 7,
    };
    println!(rt; " {destination:02X} {source:02X} {n} {places}{output}")
}

// The phase, and what it has of destination, source, length and count; 0 for what it does not have. The phase is R at rest; or it
// is named for what is awaited: T the destination, F the source, L the length, D data or the high byte of the check, C the low
// one; of another's telegram S the source, N the length, X what is left.
#[derive(Clone, Copy)]
struct ShownState(GateState);

impl fmt::Display for ShownState {
    fn fmt<W: fmt::Write>(&self, f: &mut fmt::Formatter<W>) -> fmt::Result {
        let (phase, destination, source, size, count) = match self.0 {
            GateState::Rest => ('R', 0, 0, 0, 0),
            GateState::AtDestination => ('T', 0, 0, 0, 0),
            GateState::AtSource { destination, .. } => ('F', destination, 0, 0, 0),
            GateState::AtLength {
                destination,
                source,
                ..
            } => ('L', destination, source, 0, 0),
            GateState::AtData {
                destination,
                source,
                size,
                stored,
                ..
            } => ('D', destination, source, size, stored),
            GateState::AtLowCheck {
                destination,
                source,
                size,
                ..
            } => ('C', destination, source, size, 0),
            GateState::OthersSource => ('S', 0, 0, 0, 0),
            GateState::OthersLength => ('N', 0, 0, 0, 0),
            GateState::Dropping { left } => ('X', 0, 0, 0, left),
        };
        write!(f, "; {phase} {destination:02X} {source:02X} {size} {count}")
    }
}

#[derive(Clone, Copy)]
struct ShownAnswer(Result<GateAnswer, GateRefusal>);

impl fmt::Display for ShownAnswer {
    fn fmt<W: fmt::Write>(&self, f: &mut fmt::Formatter<W>) -> fmt::Result {
        match self.0 {
            Ok(GateAnswer::Nothing) => write!(f, ": nothing"),
            Ok(GateAnswer::Telegram { source, size }) => write!(
                f,
                ": telegram {source:02X} {size}"
            ),
            Ok(GateAnswer::Token { source }) => write!(f, ": token {source:02X}"),
            Err(r) => write!(f, "{}", Refused(r)),
        }
    }
}

// A byte at a state, with a store and an output of so many places, and what it gives: the answer; the state, and how many
// places of the output are out of the store; and how far the store is as before.
fn byte_case(
    rt: &impl Print,
    own: u8,
    state: GateState,
    lent: usize,
    b: u8,
    places: usize,
) -> io::Result<()> {
    let mut all = [BEFORE; 254];
    let mut room = [0u8; 254];
    let store = &mut all[..lent.min(254)];
    let out = &mut room[..places.min(254)];
    let step = gate_receive::receive(own, state, store, Event::Byte(b), out);
    let kept = Kept {
        buffer: &all,
        from: 0,
    };
    print!(rt; " {own:02X}{} {lent} {places} {b:02X}", ShownState(state))?;
    print!(rt; "{}{}", ShownAnswer(step.answer), ShownState(step.state))?;
    println!(rt; " {}{kept}", first_other(&room, 0, BEFORE))
}

// The byte 55 where so many of so many data bytes are stored.
fn data_case(rt: &impl Print, stored: usize, size: u8) -> io::Result<()> {
    let state = GateState::AtData {
        destination: 0x10,
        source: 0x00,
        size,
        stored,
        check: 0x1234,
    };
    byte_case(rt, 0x10, state, 253, 0x55, 253)
}

// The last byte of a telegram with so many data bytes; 34 is right. The output has so many places.
fn last_case(
    rt: &impl Print,
    destination: u8,
    source: u8,
    size: u8,
    low: u8,
    places: usize,
) -> io::Result<()> {
    let state = GateState::AtLowCheck {
        destination,
        source,
        size,
        check: 0x1234,
        high: 0x12,
    };
    byte_case(rt, 0x10, state, 253, low, places)
}

// A command and a function where all levels and edges are 0, and whether the answer is ack.
fn command_case(rt: &impl Print, command: u8, function: u8) -> io::Result<()> {
    let operated = gate_commands::operate(GateRegisters::clear(), &[0x01, command, function]);
    let shown = match operated.answer {
        Ok(OperateAnswer::Ack) => "ack",
        _ => "no ack",
    };
    println!(rt; " {command:02X} {function:02X}: {shown}")
}

// Writes an answer into an output of so many places, and shows all that it gives.
fn answer_case(rt: &impl Print, answer: BarrierAnswer, places: usize) -> io::Result<()> {
    let mut room = [BEFORE; 6];
    let answer = gate_answers::write_answer(answer, &mut room[..places.min(6)]);
    let output = Output {
        answer,
        out: &room,
        most: 7,
    };
    println!(rt; "{output}")
}

// Writes the answer with a position, whose byte is b.
fn position_case(rt: &impl Print, b: u8, z: i8, places: usize) -> io::Result<()> {
    print!(rt; " {b:02X} {places}")?;
    answer_case(rt, BarrierAnswer::Position(z), places)
}

// Reads n bytes, all but the first the same, as an answer, and writes that.
fn read_case(rt: &impl Print, kind: u8, other: u8, n: usize) -> io::Result<()> {
    let src = [kind, other, other, other, other, other];
    let bytes = first(&src, n);
    print!(rt; "{}", Start(bytes, 6))?;
    match gate_answers::read_answer(bytes) {
        Ok(answer) => answer_case(rt, answer, 5),
        Err(r) => println!(rt; "{}", Refused(r)),
    }
}

// Lengths of the data and of the output; then addresses; then tokens.
pub(crate) fn telegrams(rt: &impl Print) -> io::Result<()> {
    println!(rt; "gate write: destination, source, how many bytes A5, places")?;
    for (destination, source, n, places) in [
        (0x10, 0x00, 253, 259),
        (0x10, 0x00, 253, 258),
        (0x10, 0x00, 254, 260),
        (0x00, 0x01, 256, 260),
        (0xFE, 0x0F, 1, 7),
        (0x0F, 0xFE, 1, 7),
        (0xFF, 0x00, 1, 7),
        (0x00, 0xFF, 254, 0),
        (0x00, 0x01, 0, 6),
        (0x0F, 0x0F, 0, 6),
        (0x10, 0x00, 0, 6),
        (0x00, 0x10, 0, 5),
    ] {
        write_case(rt, destination, source, n, places)?;
    }
    Ok(())
}

// Length bytes, for us and for another; own addresses; lengths of the store; and what is left to drop.
pub(crate) fn bytes(rt: &impl Print) -> io::Result<()> {
    println!(rt;
        "gate receive: own, phase, destination, source, length, count, store, places, byte"
    )?;
    let awaited = GateState::AtLength {
        destination: 0x10,
        source: 0x00,
        check: 0x1234,
    };
    for (own, state, lent, b) in [
        (0x10, awaited, 253, 253),
        (0x10, awaited, 253, 254),
        (0x10, awaited, 253, 255),
        (0x10, GateState::OthersLength, 253, 255),
        (0xFE, GateState::AtDestination, 253, 0xFE),
        (0xFE, GateState::AtDestination, 253, 0xFF),
        (0xFF, GateState::AtDestination, 253, 0xFF),
        (0xFF, GateState::AtDestination, 252, 0xFF),
        (0x10, GateState::Rest, 254, 0x55),
        (0x10, GateState::Dropping { left: 0 }, 253, 0x55),
        (0x10, GateState::Dropping { left: 1 }, 253, 0x55),
        (0x10, GateState::Dropping { left: 2 }, 253, 0x55),
        (0x10, GateState::Dropping { left: 257 }, 253, 0x55),
        (0x10, GateState::Dropping { left: 258 }, 253, 0x55),
    ] {
        byte_case(rt, own, state, lent, b, 253)?;
    }
    Ok(())
}

// Data bytes, and last bytes.
pub(crate) fn ends(rt: &impl Print) -> io::Result<()> {
    for (stored, size) in [(252, 253), (253, 253), (254, 253), (0, 254)] {
        data_case(rt, stored, size)?;
    }
    for (destination, source, size, low, places) in [
        (0x10, 0x00, 253, 0x34, 253),
        (0x10, 0x00, 253, 0x34, 252),
        (0x10, 0x00, 253, 0x33, 252),
        (0x10, 0x00, 254, 0x34, 254),
        (0x10, 0xFE, 1, 0x34, 1),
        (0x10, 0xFF, 1, 0x34, 0),
        (0x10, 0xFF, 1, 0x35, 0),
        (0x0F, 0x0F, 0, 0x34, 0),
        (0x0F, 0x10, 0, 0x34, 0),
        (0x10, 0x0F, 0, 0x34, 0),
    ] {
        last_case(rt, destination, source, size, low, places)?;
    }
    Ok(())
}

// Commands and functions; then positions.
pub(crate) fn barrier(rt: &impl Print) -> io::Result<()> {
    println!(rt; "gate operate: command, function")?;
    for (command, function) in [(0x09, 0x02), (0x09, 0x03), (0x0A, 0x02), (0x0A, 0x03)] {
        command_case(rt, command, function)?;
    }
    println!(rt; "gate write_answer: position, places")?;
    for (b, z, places) in [
        (0x80, -128, 2),
        (0xFE, -2, 2),
        (0xFF, -1, 2),
        (0x00, 0, 2),
        (0x64, 100, 2),
        (0x65, 101, 1),
        (0x7F, 127, 2),
    ] {
        position_case(rt, b, z, places)?;
    }
    Ok(())
}

// Kinds of answers, each with lengths about the right one; then positions.
pub(crate) fn answers(rt: &impl Print) -> io::Result<()> {
    println!(rt; "gate read_answer and write_answer: bytes")?;
    for (kind, other, n) in [
        (0x00, 0x00, 1),
        (0x01, 0x00, 1),
        (0x01, 0x00, 2),
        (0x04, 0x00, 1),
        (0x05, 0x00, 1),
        (0x1B, 0x80, 5),
        (0x1C, 0x80, 4),
        (0x1C, 0x80, 5),
        (0x1C, 0x80, 6),
        (0x1E, 0x00, 2),
        (0x1D, 0x65, 1),
        (0x1D, 0x65, 3),
        (0x1D, 0x65, 2),
        (0x1D, 0x64, 2),
        (0x1D, 0xFE, 2),
        (0x1D, 0xFF, 2),
    ] {
        read_case(rt, kind, other, n)?;
    }
    Ok(())
}
