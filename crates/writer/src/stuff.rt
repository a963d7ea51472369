// Zero insertion for one byte: the run of ones before it goes in; its bits, their count and the run after it come out.
ghost use Rattle.std.specs.Prelude.{◌≤◌, ◌<◌, ◌^◌};

// How many ones in a row went out last: never five, since a zero follows the fifth.
#[derive(Clone, Copy)]
pub(crate) struct Run {
    pub ones: u8,
    ghost few: { ones < 5 },
}

// The bits that go out for a byte, the first lowest; how many they are, 8 to 10; the run of ones after them.
#[derive(Clone, Copy)]
pub(crate) struct Stuffed {
    pub bits: u32,
    pub count: u8,
    pub run: Run,
}

impl Stuffed {
    ghost use Rattle.bits.specs.Bits.{low};
    ghost use Rattle.writer.specs.Stuff.{Inserted, Stepped};

    // What goes out for a byte after a run of ones; part of the two loops that call it, for speed.
    #[inline(always)]
    pub(crate) fn new(run: Run, byte: u8) -> Stuffed
        ensures { Inserted run.ones (low 8 byte) result }
    {
        let mut stuffed = Stuffed {
            bits: 0,
            count: 0,
            run,
        };
        for place in 0..8u8 {
            stuffed.push((byte >> place) % 2 == 1);
        }
        stuffed
    }

    // One bit more: a one that is the fifth in a row is followed by a zero.
    fn push(&mut self, bit: bool)
        requires { (self.old.count ≤ 10) × (self.old.bits < 2 ^ self.old.count) }
        ensures { Stepped self.old bit self.new }
    {
        if !bit {
            self.count += 1;
            self.run.ones = 0;
            return;
        }
        self.bits += 1 << self.count;
        if self.run.ones == 4 {
            self.count += 2;
            self.run.ones = 0;
        } else {
            self.count += 1;
            self.run.ones += 1;
        }
    }
}
