// NRZI both ways, a byte at a time, from a given level and with the level at the end, so that a stream can be coded in pieces.
#![tactic(auto)]

ghost use Rattle.std.specs.Prelude.{◌≡◌, ◌+◌, ◌*◌, ◌/◌, ◌%◌, ◌^◌, ◌≤◌, ◌<◌, true, false, ◌++◌, length, take, drop};
ghost use Rattle.frame.specs.Answer.{answer, refusal_in};
ghost use Rattle.bits.specs.Bits.{bits_of, bytes_of, low, val};
ghost use Rattle.bits.specs.Packed.{bytes_for, over};
ghost use Rattle.nrzi.specs.Nrzi.{code_bytes, code_of, coding, nrzi_refusal, reached};

use crate::way::{ToBits, ToLevels, Way};
use bits::count;
use frame::Refusal;

mod way;

// From bits to levels; gives the level at the end.
pub fn encode(level: bool, input: &[u8], bits: usize, out: &mut [u8]) -> Result<bool, Refusal>
    ensures answer { answer result ≡ code_of false level input.now bits (length out.old) }
    ensures bytes { out.new ≡ code_bytes false level input.now bits out.old }
{
    code::<ToLevels>(level, input, bits, out)
}

// From levels to bits; gives the level at the end.
pub fn decode(level: bool, input: &[u8], bits: usize, out: &mut [u8]) -> Result<bool, Refusal>
    ensures answer { answer result ≡ code_of true level input.now bits (length out.old) }
    ensures bytes { out.new ≡ code_bytes true level input.now bits out.old }
{
    code::<ToBits>(level, input, bits, out)
}

#[tactic(auto, unfolding(crate::specs::Nrzi::code_of, crate::specs::Nrzi::code_bytes))]
fn code<W: Way>(level: bool, input: &[u8], bits: usize, out: &mut [u8]) -> Result<bool, Refusal>
    ensures answer { answer result ≡ code_of W.back level input.now bits (length out.old) }
    ensures bytes { out.new ≡ code_bytes W.back level input.now bits out.old }
{
    nrzi_refusal(bits, input, out)?;
    Ok(lay::<W>(level, input, bits, out))
}

#[tactic(auto, unfolding(crate::specs::Nrzi::nrzi_refusal))]
fn nrzi_refusal(bits: usize, input: &[u8], out: &[u8]) -> Result<(), Refusal>
    ensures { refusal_in result ≡ nrzi_refusal bits (length input.now) (length out.now) }
{
    count::bit_count_refusal(input, bits)?;
    if out.len() < bits.div_ceil(8) {
        return Err(Refusal::Output);
    }
    Ok(())
}

// The bits that are not refused; gives the level at the end.
fn lay<W: Way>(level: bool, input: &[u8], bits: usize, out: &mut [u8]) -> bool
    requires { (bits ≤ 8 * length input.now) × (bytes_for bits ≤ length out.old) }
    ensures answer { result ≡ reached W.back level (take bits (bits_of input.now)) }
    ensures bytes { out.new ≡ bytes_of (length out.old) (over (coding W.back level (take bits (bits_of input.now))) (bits_of out.old)) }
{
    let whole = bits / 8;
    let rest = bits % 8;
    let start = code_whole::<W>(level, input, whole, out);
    if rest == 0 {
        return start;
    }
    code_last::<W>(start, input[whole], rest, &mut out[whole])
}

// The first bytes, each whole; gives the level that is reached.
fn code_whole<W: Way>(level: bool, input: &[u8], whole: usize, out: &mut [u8]) -> bool
    requires { (whole ≤ length input.now) × (whole ≤ length out.old) }
    ensures answer { result ≡ reached W.back level (bits_of (take whole input.now)) }
    ensures bytes { out.new ≡ bytes_of whole (coding W.back level (bits_of (take whole input.now))) ++ drop whole out.old }
{
    let mut at = level;
    // By index: a loop over a zip with iter_mut was tried, and its proof did not close, since nothing is known of what it wrote.
    for i in 0..whole {
        let piece = W::code(at, input[i]);
        // The level before the store, so that many bytes are taken at once.
        at = piece.level_after(8);
        out[i] = piece.byte;
    }
    at
}

// The first bits of a last byte, whose other bits stay; gives the level at the end.
fn code_last<W: Way>(level: bool, x: u8, rest: usize, last: &mut u8) -> bool
    requires { (1 ≤ rest) × (rest < 8) }
    ensures answer { result ≡ reached W.back level (low rest x) }
    ensures bytes { last.new ≡ val (coding W.back level (low rest x) ++ drop rest (low 8 last.old)) }
{
    let piece = W::code(level, x);
    *last = blend(piece.byte, *last, rest);
    piece.level_after(rest)
}

// The n low bits of one byte and the others of another.
fn blend(fresh: u8, old: u8, n: usize) -> u8
    requires { n < 8 }
    ensures { result ≡ old / 2 ^ n * 2 ^ n + fresh % 2 ^ n }
{
    let high = old >> n << n;
    let low = fresh % (1 << n);
    high + low
}
