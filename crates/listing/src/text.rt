// Text put into lent bytes. What lies past their end is dropped, so that an empty buffer serves to measure a text.
ghost use Rattle.std.specs.Prelude.{◌≡◌, ◌<◌, ◌+◌, ◌^◌, ◌∷◌, []};
ghost use Rattle.listing.specs.Decimal.{decimal};
ghost use Rattle.listing.specs.Put.{Puts};

// The lent bytes, and the place after the text so far. How far that may be stands at each method and not in the type, since each moves it on.
#[derive(Drop)]
pub(crate) struct Text<'a> {
    out: &'a mut [u8],
    at: usize,
}

impl<'a> Text<'a> {
    pub(crate) fn new(out: &'a mut [u8]) -> Text<'a>
        ensures same_bytes { result.out.ghost_name ≡ out.entry.ghost_name }
        ensures empty { (result.out.now ≡ out.old) × (result.at ≡ 0) }
    {
        Text { out, at: 0 }
    }

    pub(crate) fn size(&self) -> usize
        ensures { result ≡ self.now.at }
    {
        self.at
    }

    fn byte(&mut self, byte: u8)
        requires { self.old.at + 1 < 2 ^ 64 }
        ensures { Puts (byte ∷ []) self.old self.new }
    {
        // Not `get_mut`: it was tried, and after its loan the proof knows nothing of the other bytes.
        if self.at < self.out.len() {
            self.out[self.at] = byte;
        }
        self.at += 1;
    }

    pub(crate) fn word(&mut self, word: &[u8])
        requires { self.old.at < 2 ^ 62 }
        ensures { Puts word.now self.old self.new }
    {
        if self.at < self.out.len() {
            let room = word.len().min(self.out.len() - self.at);
            self.out[self.at..self.at + room].copy_from_slice(&word[..room]);
        }
        self.at += word.len();
    }

    // Digits by hand: `write!` promises nothing of the text where a writer fails, and a library of digits would be one more for these lines.
    #[tactic(auto, using(crate::proofs::Digits::decimal_few, crate::proofs::Putting::puts_digit, crate::proofs::Putting::puts_last))]
    pub(crate) fn number(&mut self, number: u32)
        requires { self.old.at < 2 ^ 62 }
        ensures { Puts (decimal number) self.old self.new }
    {
        if 10 <= number {
            self.number(number / 10);
        }
        self.byte(b'0' + (number % 10) as u8);
    }
}
