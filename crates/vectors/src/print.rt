// What is printed: words, bytes in hex, and the meanings of frames, piece by piece.
use frame::{Meaning, Refusal};
use std::io::Stdout;

// Prints pieces, each by a format of its own: one that cannot be printed is left out, and the next is tried all the same.
macro_rules! say {
    ($to:expr; $($words:literal $(, $value:expr)*);+) => {
        $(let _ = print!($to; $words $(, $value)*);)+
    };
}

pub(crate) use say;

// Bytes, two hex digits each.
pub fn hex(to: Stdout, bytes: &[u8]) {
    for byte in bytes {
        say!(to; "{:02x}", *byte);
    }
}

// A kind with Ns and Nr, `-` where it carries none.
pub fn kind(to: Stdout, meaning: Meaning) {
    match meaning {
        Meaning::I(ns, nr) => {
            say!(to; "I "; "{}", ns.0; " "; "{}", nr.0);
        }
        Meaning::Rr(nr) => {
            say!(to; "RR - "; "{}", nr.0);
        }
        Meaning::Rnr(nr) => {
            say!(to; "RNR - "; "{}", nr.0);
        }
        Meaning::Snrm => {
            say!(to; "SNRM - -");
        }
        Meaning::Disc => {
            say!(to; "DISC - -");
        }
        Meaning::Ua => {
            say!(to; "UA - -");
        }
        Meaning::Frmr => {
            say!(to; "FRMR - -");
        }
    }
}

// A refusal in the words of a listing.
pub fn refused(to: Stdout, refusal: Refusal) {
    say!(to; "refused "; "{}", refusal.number());
}
