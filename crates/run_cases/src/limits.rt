// The link's calls at their limits.
use events::Event;
use link_receive::{Dle, LinkAnswer, LinkState, Phase};
use refusal::{Numbered, Refusal};
use show::{BEFORE, Bytes, Half, Kept, Refused, Written, first};
use std::{fmt, io};

#[derive(Clone, Copy)]
struct ShownEvent(Event);

impl fmt::Display for ShownEvent {
    fn fmt<W: fmt::Write>(&self, f: &mut fmt::Formatter<W>) -> fmt::Result {
        match self.0 {
            Event::Byte(b) => write!(f, " {b:02X}"),
            Event::Timer => write!(f, " timer"),
        }
    }
}

// The answer of a receiving half, with the message.
#[derive(Clone, Copy)]
pub(crate) struct ShownAnswer<'a> {
    pub(crate) answer: Result<LinkAnswer, Refusal>,
    pub(crate) buffer: &'a [u8],
}

impl fmt::Display for ShownAnswer<'_> {
    fn fmt<W: fmt::Write>(&self, f: &mut fmt::Formatter<W>) -> fmt::Result {
        match self.answer {
            Ok(LinkAnswer::Nothing) => write!(f, ": nothing"),
            Ok(LinkAnswer::Send(b)) => write!(f, ": sends {b:02X}"),
            Ok(LinkAnswer::Message(n)) => write!(
                f,
                ": sends 10, message of {n}{}",
                Bytes(first(self.buffer, n))
            ),
            Err(r) => write!(f, "{}", Refused(r)),
        }
    }
}

// The answer of a call that writes, and how far its output is as before behind what is written.
#[derive(Clone, Copy)]
pub(crate) struct Output<'a, E> {
    pub(crate) answer: Result<usize, E>,
    pub(crate) out: &'a [u8],
    pub(crate) most: usize,
}

impl<E: Numbered> fmt::Display for Output<'_, E> {
    fn fmt<W: fmt::Write>(&self, f: &mut fmt::Formatter<W>) -> fmt::Result {
        let Output { answer, out, most } = *self;
        let kept = Kept {
            buffer: out,
            from: answer.unwrap_or(0),
        };
        write!(f, "{}{kept}", Written { answer, out, most })
    }
}

// Frames n bytes of one value into an output of so many places, and shows all that it gives: of the frame its length and
// its last three bytes.
fn frame_case(rt: &impl Print, value: u8, n: usize, places: usize) -> io::Result<()> {
    let src = [value; 1025];
    let mut room = [BEFORE; 2052];
    let answer = link_frame::frame(first(&src, n), &mut room[..places.min(2052)]);
    let output = Output {
        answer,
        out: &room,
        most: 3,
    };
    println!(rt; " {value:02X} {n} {places}{output}")
}

// One event at a phase with a count and check 44, with a buffer of so many places, and all that it gives.
fn event_case(
    rt: &impl Print,
    phase: Phase,
    count: usize,
    event: Event,
    places: usize,
) -> io::Result<()> {
    let state = LinkState {
        count,
        check: 0x44,
        phase,
    };
    let mut room = [BEFORE; 1025];
    let step = link_receive::receive(state, event, &mut room[..places.min(1025)]);
    let answer = ShownAnswer {
        answer: step.answer,
        buffer: &room,
    };
    let kept = Kept {
        buffer: &room,
        from: 0,
    };
    println!(rt;
        "{} {places}{}{answer};{}{kept}",
        Half(state),
        ShownEvent(event),
        Half(step.state)
    )
}

// A byte of each kind, and the timer, where there is room; then the same phase at the limits of its buffer.
fn phase_cases(rt: &impl Print, phase: Phase) -> io::Result<()> {
    for b in [0x02, 0x03, 0x10, 0x15, 0x44] {
        event_case(rt, phase, 2, Event::Byte(b), 3)?;
    }
    for (count, event, places) in [
        (2, Event::Timer, 3),
        (3, Event::Byte(0x10), 3),
        (3, Event::Byte(0x60), 3),
        (4, Event::Byte(0x10), 3),
        (4, Event::Timer, 3),
        (1023, Event::Byte(0x10), 1025),
        (1024, Event::Byte(0x10), 1025),
        (1024, Event::Byte(0x60), 1025),
        (1025, Event::Byte(0x10), 1025),
    ] {
        event_case(rt, phase, count, event, places)?;
    }
    Ok(())
}

// Frames of the most bytes, of one more and of none; then events at each phase.
pub(crate) fn rows(rt: &impl Print) -> io::Result<()> {
    println!(rt; "frame: byte, how often, places")?;
    for (value, n, places) in [
        (0x00, 1024, 2051),
        (0x00, 1024, 1027),
        (0x00, 1024, 1026),
        (0x10, 1024, 2052),
        (0x10, 1024, 2051),
        (0x10, 1024, 2050),
        (0x00, 1025, 2051),
        (0x00, 1025, 0),
        (0x00, 0, 3),
        (0x00, 0, 2),
    ] {
        frame_case(rt, value, n, places)?;
    }
    println!(rt; "receive: phase (R, I, D, W), check, count, places, event")?;
    for phase in [
        Phase::Rest,
        Phase::Inside(Dle::NotSeen),
        Phase::Inside(Dle::Seen),
        Phase::Waiting,
    ] {
        phase_cases(rt, phase)?;
    }
    Ok(())
}
