// What an end says that goes by the count rule: I, RNR or RR, with the counts as they stand.
ghost use Rattle.std.specs.Prelude.{◌≡◌};
ghost use Rattle.side.specs.Say.{informs, says, status};

use crate::Side;
use frame::Meaning;

// The meaning of the frame, the size of its information (0 but for I), and the side after it is given out: a value, like `Hearing`.
#[derive(Clone, Copy)]
pub struct Saying {
    pub meaning: Meaning,
    pub size: usize,
    pub side: Side,
}

impl Side {
    // I where the end may send it and a message is held; else RNR if the incoming slot is full; else RR.
    #[inline(always)]
    #[tactic(auto, unfolding(crate::specs::Say::says, crate::specs::Say::says_held))]
    pub fn say(self, may: bool) -> Saying
        ensures { result ≡ says may self }
    {
        if may && self.holds != 0 {
            return self.informs();
        }
        self.status()
    }

    // The held message is marked sent as it is given out, arrived or lost.
    #[inline(always)]
    fn informs(mut self) -> Saying
        ensures { result ≡ informs self }
    {
        self.sent = true;
        Saying {
            meaning: Meaning::I(self.ns, self.nr),
            size: self.holds,
            side: self,
        }
    }

    #[inline(always)]
    #[tactic(auto, unfolding(crate::specs::Say::status))]
    fn status(self) -> Saying
        ensures { result ≡ status self }
    {
        let meaning = if self.full() {
            Meaning::Rnr(self.nr)
        } else {
            Meaning::Rr(self.nr)
        };
        Saying {
            meaning,
            size: 0,
            side: self,
        }
    }
}
