// A piece of the content on the line: its bits with their inserted zeros, counted or laid. Both, since a sink that counts would be a struct and a trait more
// for two loops of three lines.
ghost use Rattle.std.specs.Prelude.{◌+◌, ◌≤◌, length};
ghost use Rattle.bits.specs.Bits.{bits_of, low};
ghost use Rattle.bits.specs.Insert.{insert};
ghost use Rattle.writer.specs.Stuff.{Laying, Ready, Tallied};

use crate::packed::Sink;
use crate::stuff::{Run, Stuffed};

// Line bits counted so far, and the run of ones at their end.
#[derive(Clone, Copy)]
pub(crate) struct Counted {
    pub bits: usize,
    pub run: Run,
}

impl Counted {
    // The line bits of bytes, counted.
    #[inline(never)]
    pub(crate) fn add(&mut self, bytes: &[u8])
        requires { self.old.bits + length (insert self.old.run.ones (bits_of bytes.now)) ≤ 4096 }
        ensures { Tallied self.old (bits_of bytes.now) self.new }
    {
        for byte in bytes {
            let stuffed = Stuffed::new(self.run, *byte);
            self.bits += usize::from(stuffed.count);
            self.run = stuffed.run;
        }
    }
}

// Line bits laid so far, and the run of ones at their end.
#[derive(Clone, Copy)]
pub(crate) struct Laid {
    pub sink: Sink,
    pub run: Run,
}

impl Laid {
    // The line bits of bytes, laid.
    #[inline(never)]
    pub(crate) fn add(&mut self, out: &mut [u8], bytes: &[u8])
        requires { Ready out.old self.old (bits_of bytes.now) }
        ensures { Laying out.old self.old (bits_of bytes.now) out.new self.new }
    {
        for byte in bytes {
            self.add_byte(out, *byte);
        }
    }

    fn add_byte(&mut self, out: &mut [u8], byte: u8)
        requires { Ready out.old self.old (low 8 byte) }
        ensures { Laying out.old self.old (low 8 byte) out.new self.new }
    {
        let stuffed = Stuffed::new(self.run, byte);
        self.sink.append(out, stuffed.bits, stuffed.count);
        self.run = stuffed.run;
    }
}
