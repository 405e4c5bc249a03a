// What a receiver is told, on the link and on the gate bus.
#![tactic(auto)]

// A byte came, or the timer ran out.
#[derive(Clone, Copy, Debug, PartialEq, Eq)]
pub enum Event {
    Byte(u8),
    Timer,
}
