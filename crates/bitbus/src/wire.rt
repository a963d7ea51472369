// The C surface's functions of the wire: check word, message check, writing, reading, NRZI both ways.
ghost use Rattle.std.specs.Prelude.{false, true, ◌≡◌, length};
ghost use Rattle.frame.specs.Message.{check_of};
ghost use Rattle.bits.specs.Check.{check_word};
ghost use Rattle.nrzi.specs.Nrzi.{code_bytes, code_of};
ghost use Rattle.reader.specs.Read.{out_after, read_of, told};
ghost use Rattle.writer.specs.Write.{write_bytes, write_of};
ghost use Rattle.bitbus.specs.Call.{after, number};
ghost use Rattle.layout.specs.Control.{meaning_of};
ghost use Rattle.bitbus.specs.Wire.{level_values, read_values, write_values};

use crate::call;
use bits::check;
use frame::message;
use layout::code;

// The check word over bytes.
pub fn bitbus_check_word(bytes: &[u8]) -> u16
    ensures { result ≡ check_word bytes.now }
{
    check::check_word(bytes)
}

// The message check: 10, 12.
pub fn bitbus_message_check(message: &[u8]) -> u32
    ensures { result ≡ number (check_of message.now) }
{
    call::number(message::check(message))
}

// Writes a frame as line bits: 8, 9, 10, 12, 11.
pub fn bitbus_write(
    address: u8,
    control: u8,
    information: &[u8],
    out: &mut [u8],
    values: &mut [usize; 2],
) -> u32
    ensures number { result ≡ number (write_of address (meaning_of control) information.now (length out.old)) }
    ensures out { out.new ≡ write_bytes address (meaning_of control) information.now out.old }
    ensures values { values.new ≡ after write_values (write_of address (meaning_of control) information.now (length out.old)) values.old }
{
    let meaning = code::meaning_of(control);
    call::finish(writer::write(address, meaning, information, out), values)
}

// Reads a frame out of line bits: 2, 1, 3, 4, 5, 6, 7, 8, 9, 10, 12, 11.
pub fn bitbus_read(buffer: &[u8], bits: usize, out: &mut [u8], values: &mut [usize; 3]) -> u32
    ensures number { result ≡ number (told (read_of buffer.now bits (length out.old))) }
    ensures out { out.new ≡ out_after (read_of buffer.now bits (length out.old)) out.old }
    ensures values { values.new ≡ after read_values (told (read_of buffer.now bits (length out.old))) values.old }
{
    call::finish(reader::read(buffer, bits, out), values)
}

// NRZI from bits to levels: 2, 11.
pub fn bitbus_nrzi_encode(
    level: bool,
    input: &[u8],
    bits: usize,
    out: &mut [u8],
    values: &mut [usize; 1],
) -> u32
    ensures number { result ≡ number (code_of false level input.now bits (length out.old)) }
    ensures out { out.new ≡ code_bytes false level input.now bits out.old }
    ensures values { values.new ≡ after level_values (code_of false level input.now bits (length out.old)) values.old }
{
    call::finish(nrzi::encode(level, input, bits, out), values)
}

// NRZI from levels to bits: 2, 11.
pub fn bitbus_nrzi_decode(
    level: bool,
    input: &[u8],
    bits: usize,
    out: &mut [u8],
    values: &mut [usize; 1],
) -> u32
    ensures number { result ≡ number (code_of true level input.now bits (length out.old)) }
    ensures out { out.new ≡ code_bytes true level input.now bits out.old }
    ensures values { values.new ≡ after level_values (code_of true level input.now bits (length out.old)) values.old }
{
    call::finish(nrzi::decode(level, input, bits, out), values)
}
