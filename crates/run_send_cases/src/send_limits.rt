// The sending half at its limits.
use link_receive::{LinkState, Phase};
use link_send::{Attempts, Priority, SendAnswer, SendEvent, SendPhase, Sender};
use show::{BEFORE, Half, Kept, Written, first};
use std::{fmt, io};

// The phase, by its letter: F fresh, O opening, A awaiting, S sent, G gave up; and R receiving, with the half.
#[derive(Clone, Copy)]
struct ShownPhase(SendPhase);

impl fmt::Display for ShownPhase {
    fn fmt<W: fmt::Write>(&self, f: &mut fmt::Formatter<W>) -> fmt::Result {
        match self.0 {
            SendPhase::Fresh => write!(f, " F"),
            SendPhase::Opening => write!(f, " O"),
            SendPhase::Awaiting => write!(f, " A"),
            SendPhase::Receiving(half) => write!(f, " R{}", Half(half)),
            SendPhase::Sent => write!(f, " S"),
            SendPhase::GaveUp => write!(f, " G"),
        }
    }
}

// Failed connections and failed blocks, and the phase.
#[derive(Clone, Copy)]
struct ShownSender(Sender);

impl fmt::Display for ShownSender {
    fn fmt<W: fmt::Write>(&self, f: &mut fmt::Formatter<W>) -> fmt::Result {
        let Attempts {
            connections,
            blocks,
        } = self.0.failed;
        write!(f, " {connections} {blocks}{}", ShownPhase(self.0.phase))
    }
}

#[derive(Clone, Copy)]
struct ShownEvent(SendEvent);

impl fmt::Display for ShownEvent {
    fn fmt<W: fmt::Write>(&self, f: &mut fmt::Formatter<W>) -> fmt::Result {
        match self.0 {
            SendEvent::Start => write!(f, " start"),
            SendEvent::Byte(b) => write!(f, " {b:02X}"),
            SendEvent::Timer => write!(f, " timer"),
        }
    }
}

// One event at a sender of low priority, with n bytes 10 as data, a buffer and an output of so many places, and all that it gives.
fn event_case(
    rt: &impl Print,
    limits: Attempts,
    failed: Attempts,
    phase: SendPhase,
    event: SendEvent,
    n: usize,
    places: usize,
) -> io::Result<()> {
    let before = Sender {
        limits,
        failed,
        priority: Priority::Low,
        phase,
    };
    let src = [0x10; 1025];
    let mut room = [BEFORE; 1025];
    let mut out = [BEFORE; 2052];
    let step = link_send::send(
        before,
        event,
        first(&src, n),
        &mut room,
        &mut out[..places.min(2052)],
    );
    let sent = step.answer.map(|answer| answer.sent);
    let written = Written {
        answer: sent,
        out: &out,
        most: 3,
    };
    let kept = Kept {
        buffer: &out,
        from: sent.unwrap_or(0),
    };
    print!(rt; " {} {}", limits.connections, limits.blocks)?;
    print!(rt;
        "{}{} {n} {places}{written}",
        ShownSender(before),
        ShownEvent(event)
    )?;
    if let Ok(
        SendAnswer {
            message: Some(count),
            ..
        },
    ) = step.answer
    {
        print!(rt; "; message of {count}")?;
    }
    println!(rt; ";{}{kept}", ShownSender(step.state))
}

// The limits of 255 attempts.
const FULL: Attempts = Attempts {
    connections: 255,
    blocks: 255,
};

// An event with the limits of 255, and no data.
fn full_case(
    rt: &impl Print,
    connections: usize,
    blocks: usize,
    phase: SendPhase,
    event: SendEvent,
) -> io::Result<()> {
    let failed = Attempts {
        connections,
        blocks,
    };
    event_case(rt, FULL, failed, phase, event, 0, 2)
}

// The start, with such limits, so many bytes of data, and so many places.
fn start_case(
    rt: &impl Print,
    connections: usize,
    blocks: usize,
    n: usize,
    places: usize,
) -> io::Result<()> {
    let before = Sender::fresh(connections, blocks, Priority::Low);
    event_case(
        rt,
        before.limits,
        before.failed,
        before.phase,
        SendEvent::Start,
        n,
        places,
    )
}

// The answer to an opening, with so many bytes of data, and so many places.
fn block_case(rt: &impl Print, n: usize, places: usize) -> io::Result<()> {
    let failed = Attempts {
        connections: 254,
        blocks: 254,
    };
    event_case(
        rt,
        FULL,
        failed,
        SendPhase::Opening,
        SendEvent::Byte(0x10),
        n,
        places,
    )
}

// The check byte, or the timer, in a yield with so many bytes received, and so many places.
fn yield_case(rt: &impl Print, count: usize, event: SendEvent, places: usize) -> io::Result<()> {
    let half = LinkState {
        count,
        check: 0x44,
        phase: Phase::Waiting,
    };
    event_case(rt, FULL, FULL, SendPhase::Receiving(half), event, 0, places)
}

// Limits of 0 to 256; the last attempts; the longest block; and yields with the longest message.
pub(crate) fn rows(rt: &impl Print) -> io::Result<()> {
    println!(rt;
        "send: limits, failed, phase (F, O, A, R and the half, S, G), event, data 10, places"
    )?;
    for (connections, blocks, n, places) in [
        (0, 1, 0, 2),
        (1, 0, 0, 2),
        (1, 1, 1024, 1),
        (1, 1, 1024, 0),
        (255, 255, 1025, 0),
        (256, 255, 1025, 2),
        (255, 256, 0, 2),
    ] {
        start_case(rt, connections, blocks, n, places)?;
    }
    for (connections, blocks, phase, event) in [
        (253, 7, SendPhase::Opening, SendEvent::Timer),
        (254, 7, SendPhase::Opening, SendEvent::Timer),
        (255, 7, SendPhase::Opening, SendEvent::Byte(0x15)),
        (256, 7, SendPhase::Opening, SendEvent::Timer),
        (7, 253, SendPhase::Awaiting, SendEvent::Byte(0x02)),
        (7, 254, SendPhase::Awaiting, SendEvent::Timer),
        (7, 255, SendPhase::Awaiting, SendEvent::Timer),
        (7, 256, SendPhase::Awaiting, SendEvent::Byte(0x10)),
        (255, 255, SendPhase::GaveUp, SendEvent::Start),
    ] {
        full_case(rt, connections, blocks, phase, event)?;
    }
    for (n, places) in [
        (1024, 2052),
        (1024, 2051),
        (1024, 2050),
        (1025, 2052),
        (0, 3),
    ] {
        block_case(rt, n, places)?;
    }
    for (count, event, places) in [
        (1024, SendEvent::Byte(0x44), 2),
        (1024, SendEvent::Byte(0x44), 1),
        (1025, SendEvent::Start, 2),
        (0, SendEvent::Timer, 2),
    ] {
        yield_case(rt, count, event, places)?;
    }
    Ok(())
}
