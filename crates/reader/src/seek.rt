// The search for the content: the place of the first that counts between two neighbouring flags.
ghost use Rattle.std.specs.Prelude.{◌≡◌, ◌*◌, ◌≤◌, length, take, IfSome};
ghost use Rattle.bits.specs.Bits.{bits_of};
ghost use Rattle.reader.specs.Flags.{heard};
ghost use Rattle.reader.specs.Search.{LocatedWithin, closed_at, located_in, opened_at};

use crate::bit;
use bits::FLAG;
use std::ops::Range;

// The least window whose last seven bits are ones.
const SEVEN_ONES: u8 = 0xFE;

// The places of a content's first bit and of the bit after its last. Ones stand before the first bit, so that no flag is seen without its first zero.
pub(crate) fn find(buffer: &[u8], bits: usize) -> Option<Range<usize>>
    requires { bits ≤ 8 * length buffer.now }
    ensures content { located_in (take bits (bits_of buffer.now)) result ≡ heard (take bits (bits_of buffer.now)) }
    ensures within { LocatedWithin bits result }
{
    let mut window: u8 = 0xFF;
    let mut start: Option<usize> = None;
    for place in 0..bits {
        window = bit::shift_in(window, bit::bit(buffer, place));
        if let Some(content) = closed(window, start, place + 1) {
            return Some(content);
        }
        start = opened(window, start, place + 1);
    }
    None
}

// Where a content lies, if a flag ended just before the place and bits stand between the two flags. Inlined, as the next: a call for each bit would
// make reading a tenth slower.
#[inline(always)]
fn closed(window: u8, start: Option<usize>, place: usize) -> Option<Range<usize>>
    requires { IfSome start (λ s. s ≤ place) }
    ensures { result ≡ closed_at window start place }
{
    if window != FLAG {
        return None;
    }
    let start = start?;
    if place - start <= 8 {
        return None;
    }
    Some(start..place - 8)
}

// The place after the flag that is open: a flag opens, and seven ones drop what was gathered.
#[inline(always)]
fn opened(window: u8, start: Option<usize>, place: usize) -> Option<usize>
    ensures { result ≡ opened_at window start place }
{
    if window == FLAG {
        return Some(place);
    }
    if window < SEVEN_ONES {
        return start;
    }
    None
}
