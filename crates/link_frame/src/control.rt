// The control bytes of 3964R.

pub const STX: u8 = 0x02;

pub const ETX: u8 = 0x03;

pub const DLE: u8 = 0x10;

pub const NAK: u8 = 0x15;
