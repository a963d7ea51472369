// The removal of inserted zeros: the kept bits of a content, packed into bytes.
ghost use Rattle.std.specs.Prelude.{◌≡◌, ◌*◌, ◌+◌, ◌<◌, ◌≤◌, length};
ghost use Rattle.bits.specs.Bits.{bits_of};
ghost use Rattle.reader.specs.Extract.{Removed, run_after};
ghost use Rattle.reader.specs.Flags.{part};

use crate::bit;
use std::ops::Range;

// How many bits were kept, and the run of ones at the end.
#[derive(Clone, Copy)]
pub(crate) struct Kept {
    pub bits: usize,
    pub run: u8,
}

// Keeps the bits of a content, but for each zero that follows five ones.
pub(crate) fn extract(buffer: &[u8], content: Range<usize>, bytes: &mut [u8]) -> Kept
    requires { (content.start ≤ content.end) × (content.end ≤ 8 * length buffer.now) × (content.end ≤ 8 * length bytes.old) }
    ensures { Removed (part content.start content.end (bits_of buffer.now)) bytes.new result.bits result.run }
{
    let mut bits: usize = 0;
    let mut window: u8 = 0xFF;
    let mut run: u8 = 0;
    // Not `for place in content`: it was tried, and the place has no name in the invariant then.
    for place in content.start..content.end {
        let bit = bit::bit(buffer, place);
        if run == 5 {
            run = 0;
            continue;
        }
        window = bit::shift_in(window, bit);
        bytes[bits / 8] = window;
        bits += 1;
        run = lengthened(run, bit);
    }
    Kept { bits, run }
}

// The run of ones after a bit that is kept.
fn lengthened(run: u8, bit: u8) -> u8
    requires { run < 5 }
    ensures { result ≡ run_after run bit }
{
    if bit == 1 {
        return run + 1;
    }
    0
}
