// The link on the screen: each byte that is fed to a receiving half, and its answer.
use crate::limits::ShownAnswer;
use events::Event;
use link_frame::control::STX;
use link_receive::LinkState;
use show::{Written, first};
use std::io;

// Feeds one byte to the half, and shows byte and answer on a line.
fn feed_byte(rt: &impl Print, state: LinkState, b: u8, buffer: &mut [u8]) -> io::Result<LinkState> {
    let step = link_receive::receive(state, Event::Byte(b), buffer);
    println!(rt;
        "fed {b:02X}{}",
        ShownAnswer {
            answer: step.answer,
            buffer
        }
    )?;
    Ok(step.state)
}

// Feeds the bytes one after the other.
fn feed_bytes(
    rt: &impl Print,
    start: LinkState,
    bytes: &[u8],
    buffer: &mut [u8],
) -> io::Result<LinkState> {
    let mut state = start;
    for b in bytes {
        state = feed_byte(rt, state, *b, buffer)?;
    }
    Ok(state)
}

// Feeds standard input to a half at rest, a part of it at a time: a part that cannot be read to its end is not fed. A line that
// cannot be written is the last one, and its error is given at the end of the input.
pub(crate) fn listen(rt: &HostRuntime) -> io::Result<()> {
    let mut input = [0u8; 4096];
    let mut buffer = [0u8; 1024];
    let mut fed = Ok(LinkState::at_rest());
    for _ in 0..u64::MAX {
        let n = streams::read_full(&mut rt.stdin(), &mut input)?;
        if n == 0 {
            break;
        }
        fed = match fed {
            Ok(state) => feed_bytes(rt, state, &input[..n], &mut buffer),
            Err(e) => Err(e),
        };
    }
    fed?;
    Ok(())
}

// Feeds STX and a frame to a half at rest.
fn feed_frame(rt: &impl Print, frame: &[u8]) -> io::Result<()> {
    let mut buffer = [0u8; 1024];
    let opened = feed_byte(rt, LinkState::at_rest(), STX, &mut buffer)?;
    feed_bytes(rt, opened, frame, &mut buffer)?;
    Ok(())
}

// Frames standard input, and feeds the frame back. One byte more than a block holds shows that the data is too long.
pub(crate) fn frame(rt: &HostRuntime) -> io::Result<()> {
    let mut input = [0u8; 1025];
    let n = streams::read_full(&mut rt.stdin(), &mut input)?;
    let mut out = [0u8; 2051];
    let answer = link_frame::frame(&input[..n], &mut out);
    println!(rt;
        "frame{}",
        Written {
            answer,
            out: &out,
            most: 2051
        }
    )?;
    match answer {
        Ok(end) => feed_frame(rt, first(&out, end)),
        Err(_) => Ok(()),
    }
}
