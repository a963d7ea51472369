// The two ways of NRZI, each a byte at a time.
ghost use Rattle.std.specs.Prelude.{◌≡◌, ◌-◌, ◌/◌, ◌^◌, ◌≤◌, ℕ, Bool, true, false};
ghost use Rattle.bits.specs.Bits.{low, odd, val};
ghost use Rattle.nrzi.specs.Nrzi.{coding, reached};

// A byte coded from a level, and the byte of what went in and what came out whose bits are levels.
#[derive(Clone, Copy)]
pub(crate) struct Piece {
    pub byte: u8,
    pub levels: u8,
}

impl Piece {
    // The level after the first n bits.
    pub(crate) fn level_after(&self, n: usize) -> bool
        requires { (1 ≤ n) × (n ≤ 8) }
        ensures { result ≡ odd (self.now.levels / 2 ^ (n - 1)) }
    {
        (self.levels >> (n - 1)) % 2 == 1
    }
}

pub(crate) trait Way {
    // From levels to bits, back.
    ghost back: { Bool };

    fn code(level: bool, x: u8) -> Piece
        ensures byte { result.byte ≡ val (coding back level (low 8 x)) }
        ensures levels { (n : ℕ) → 1 ≤ n → n ≤ 8 → odd (result.levels / 2 ^ (n - 1)) ≡ reached back level (low n x) };
}

pub(crate) struct ToLevels;

impl Way for ToLevels {
    ghost back = { false };

    // Each level is the parity of the zeros so far, found for eight bits at once.
    fn code(level: bool, x: u8) -> Piece {
        let zeros = !x;
        let two = zeros ^ zeros << 1;
        let four = two ^ two << 2;
        let eight = four ^ four << 4;
        let byte = if level { !eight } else { eight };
        Piece { byte, levels: byte }
    }
}

pub(crate) struct ToBits;

impl Way for ToBits {
    ghost back = { true };

    // Each bit is one where a level equals the one before it.
    fn code(level: bool, x: u8) -> Piece {
        let before = x << 1 | u8::from(level);
        Piece {
            byte: !(x ^ before),
            levels: x,
        }
    }
}
