// One bit of a packed buffer, and a byte that holds the last eight bits of a stream.
ghost use Rattle.std.specs.Prelude.{◌≡◌, ◌+◌, ◌*◌, ◌/◌, ◌<◌, get_or, length, true};
ghost use Rattle.bits.specs.Bits.{bits_of, num};

// The bit at a place of a packed buffer: a number and no bool, since it goes into the window as one.
pub(crate) fn bit(buffer: &[u8], place: usize) -> u8
    requires { place < 8 * length buffer.now }
    ensures { result ≡ num (get_or (bits_of buffer.now) place true) }
{
    (buffer[place / 8] >> (place % 8)) % 2
}

// A bit comes in at the top of the byte, and the oldest goes out.
pub(crate) fn shift_in(window: u8, bit: u8) -> u8
    requires { bit < 2 }
    ensures { result ≡ window / 2 + 128 * bit }
{
    window / 2 + 128 * bit
}
