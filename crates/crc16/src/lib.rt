// Checks of 16 bits over bytes, by a polynomial: a running value that each byte goes into, bit by bit.
#![tactic(auto)]

pub mod ccitt;
