// The paper's numbers by name: what a refused call gives back, each under document 01's condition for it.
ghost use Rattle.std.specs.Prelude.{◌≡◌, Some};
ghost use Rattle.frame.specs.Answer.{number_of, words_of};

use std::error::Error;
use std::fmt;

#[derive(Clone, Copy, Debug, PartialEq, Eq)]
pub enum Refusal {
    // No non-empty content stands between two flags (content with seven ones in a row never counts).
    NoContent = 1,
    // The stated bit count exceeds 8,192 or 8 times the buffer's length.
    BitCount = 2,
    // Content has five ones at its very end and no inserted zero after them.
    FiveOnesAtEnd = 3,
    // After removing inserted zeros, not whole bytes.
    NotWholeBytes = 4,
    // Fewer than 4 bytes.
    TooFewBytes = 5,
    // More than 257 bytes.
    TooManyBytes = 6,
    // Check word wrong.
    CheckWord = 7,
    // Address outside 1 to 250.
    Address = 8,
    // Control byte not in the table, or a count above 7.
    Control = 9,
    // An I frame or message whose information isn't 5 to 253 bytes, or another frame with information.
    Information = 10,
    // Lent output too small.
    Output = 11,
    // First information byte is not the information's size plus 2.
    LengthByte = 12,
    // Put: a message is still held.
    StillHeld = 13,
    // Take: incoming slot empty.
    SlotEmpty = 14,
    // Answer limit outside 1 to 65,535 ticks.
    Limit = 15,
    // Response or silence reported while no order waits.
    NoOrderWaits = 16,
    // Order asked for while one waits.
    OrderWaits = 17,
    // Capture record: length under 4 or past the end, another kind, a body of the wrong size.
    Record = 18,
    // Slave end: frame for another address.
    OtherAddress = 19,
    // The end handed in has a count above 7, a message size neither 0 nor 5 to 253, a message against 12, an address or limit against 8 or 15, or a sent mark without a message.
    End = 30,
}

impl Refusal {
    // The number that the call gives back.
    pub fn number(self) -> u8
        ensures { result ≡ number_of self }
    {
        self as u8
    }
}

// In the words of a listing.
impl fmt::Display for Refusal {
    ghost output = { λ r. Some (words_of r) };

    fn fmt<W: fmt::Write>(&self, f: &mut fmt::Formatter<W>) -> fmt::Result {
        write!(f, "refused {}", self.number())
    }
}

impl Error for Refusal {}
