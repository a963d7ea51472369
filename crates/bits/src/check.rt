// The check word, a byte at a time.
ghost use Rattle.std.specs.Prelude.{◌≡◌, ◌++◌};
ghost use Rattle.bits.specs.Bits.{bits_of, low};
ghost use Rattle.bits.specs.Check.{check_word, register, after_zeros};

// "preset all ones"
const PRESET: u16 = 0xffff;

// The check word of bytes.
pub fn check_word(bytes: &[u8]) -> u16
    ensures { result ≡ check_word bytes.now }
{
    !over(PRESET, bytes)
}

// The check word of bytes that lie in two places.
pub fn check_word_of(first: &[u8], second: &[u8]) -> u16
    ensures { result ≡ check_word (first.now ++ second.now) }
{
    !over(over(PRESET, first), second)
}

// The register after bytes.
fn over(start: u16, bytes: &[u8]) -> u16
    ensures { result ≡ register start (bits_of bytes.now) }
{
    bytes.iter().fold(start, |c, byte| after_byte(c, *byte))
}

// The register after one byte: its upper half moves down, and where its lower half differs from the byte, eight zeros take the difference down.
fn after_byte(c: u16, byte: u8) -> u16
    ensures { result ≡ register c (low 8 byte) }
{
    let [low, high] = c.to_le_bytes();
    u16::from(high) ^ after_zeros(low ^ byte)
}

// A register of eight bits after eight zeros: what a table of 256 entries would hold at that byte, by shifts. A constant table would be copied to the
// stack by each call.
fn after_zeros(differs: u8) -> u16
    ensures { result ≡ after_zeros differs }
{
    let folded = u16::from(differs ^ differs << 4);
    folded << 8 ^ folded << 3 ^ folded >> 4
}
