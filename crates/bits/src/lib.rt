// Bits and bytes: what the line's writer, its reader and NRZI share: the check word, the flag's byte, and number 2 of a stated bit count.
#![tactic(auto)]

pub mod check;
pub mod count;

// A flag as a byte whose bits go out lowest first.
pub const FLAG: u8 = 0x7e;
