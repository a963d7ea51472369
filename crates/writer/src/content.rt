// A frame's content on the line: flag, content with its inserted zeros, flag.
ghost use Rattle.std.specs.Prelude.{◌≡◌, ◌++◌, ◌≤◌, length};

use crate::packed::Sink;
use crate::pieces::{Counted, Laid};
use crate::stuff::Run;
use bits::{FLAG, check};
use frame::Refusal;

// The most buffer bytes that a frame needs.
pub const MOST_BYTES: usize = 311;

// The content where it lies: address and control, the lent information, the check word.
#[derive(Clone, Copy)]
pub(crate) struct Content<'a> {
    head: [u8; 2],
    information: &'a [u8],
    check: [u8; 2],
    ghost few: { length (head ++ (information.now ++ check)) ≤ 257 },
}

impl<'a> Content<'a> {
    ghost use Rattle.bits.specs.Bits.{bits_of};
    ghost use Rattle.bits.specs.Packed.{bytes_for};
    ghost use Rattle.frame.specs.Answer.{refusal_in};
    ghost use Rattle.writer.specs.Content.{whole};
    ghost use Rattle.writer.specs.Stuff.{Laying, Ready};
    ghost use Rattle.writer.specs.Write.{content_bytes, laid, line, room_refusal};

    pub(crate) fn new(address: u8, control: u8, information: &'a [u8]) -> Content<'a>
        requires { length information.now ≤ 253 }
        ensures { whole result ≡ content_bytes address control information.now }
    {
        let head = [address, control];
        let check = check::check_word_of(&head, information).to_le_bytes();
        Content {
            head,
            information,
            check,
        }
    }

    // 11 of the lent buffer's size. The line bits are counted only where it could be too small for any content.
    pub(crate) fn room_refusal(&self, room: usize) -> Result<(), Refusal>
        ensures { refusal_in result ≡ room_refusal (whole self.now) room }
    {
        if room < MOST_BYTES && room < self.line_bits().div_ceil(8) {
            return Err(Refusal::Output);
        }
        Ok(())
    }

    // How many bits both flags and the content between them are.
    fn line_bits(&self) -> usize
        ensures { result ≡ length (line (whole self.now)) }
    {
        let mut counted = Counted {
            bits: 0,
            run: Run { ones: 0 },
        };
        counted.add(&self.head);
        counted.add(self.information);
        counted.add(&self.check);
        counted.bits + 16
    }

    // Flag, content, flag, and ones up to a whole byte; gives how many bits both flags and what they enclose are.
    pub(crate) fn lay(&self, out: &mut [u8]) -> usize
        requires { bytes_for (length (line (whole self.now))) ≤ length out.old }
        ensures bits { result ≡ length (line (whole self.now)) }
        ensures bytes { out.new ≡ laid (line (whole self.now)) out.old }
    {
        let mut sink = Sink {
            at: 0,
            acc: 0,
            waits: 0,
        };
        sink.append(out, u32::from(FLAG), 8);
        let mut laid = Laid {
            sink,
            run: Run { ones: 0 },
        };
        self.lay_inside(out, &mut laid);
        laid.sink.append(out, u32::from(FLAG), 8);
        let bits = laid.sink.placed();
        laid.sink.append(out, 0x7f, 7);
        bits
    }

    // The line bits of the content alone.
    fn lay_inside(&self, out: &mut [u8], laid: &mut Laid)
        requires { Ready out.old laid.old (bits_of (whole self.now)) }
        ensures { Laying out.old laid.old (bits_of (whole self.now)) out.new laid.new }
    {
        laid.add(out, &self.head);
        laid.add(out, self.information);
        laid.add(out, &self.check);
    }
}
