// The packed sink: bits laid one after the other into a lent buffer, the first in bit 0 of byte 0.
ghost use Rattle.std.specs.Prelude.{◌≡◌, ◌^◌, ◌≤◌, ◌<◌};

// Where the next whole byte goes, and the bits that still wait for one, fewer than eight, the earliest lowest. The lent buffer is no field of it: each method
// would have to promise besides that the field still holds the same reference.
#[derive(Clone, Copy)]
pub(crate) struct Sink {
    pub at: usize,
    pub acc: u32,
    pub waits: u8,
    ghost few: { waits < 8 },
    ghost small: { acc < 2 ^ waits },
}

impl Sink {
    ghost use Rattle.bits.specs.Bits.{low};
    ghost use Rattle.writer.specs.Sink.{Added, Room, placed};

    // How many bits were laid.
    pub(crate) fn placed(&self) -> usize
        requires { placed self.now ≤ 4096 }
        ensures { result ≡ placed self.now }
    {
        8 * self.at + usize::from(self.waits)
    }

    // Appends the `count` lowest bits of `bits`, lowest first.
    pub(crate) fn append(&mut self, out: &mut [u8], bits: u32, count: u8)
        requires { (count ≤ 10) × (bits < 2 ^ count) × Room out.old self.old count }
        ensures { Added out.old self.old (low count bits) out.new self.new }
    {
        // On copies: more than seven bits wait here for a while, which no sink holds.
        let mut at = self.at;
        let mut acc = self.acc + (bits << self.waits);
        let mut waits = self.waits + count;
        // No index is counted: whole bytes go while there are any, and their place outlasts the call.
        while waits >= 8 {
            let [byte, ..] = acc.to_le_bytes();
            out[at] = byte;
            at += 1;
            acc >>= 8;
            waits -= 8;
        }
        self.at = at;
        self.acc = acc;
        self.waits = waits;
    }
}
