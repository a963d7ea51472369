// The count rule: what an I, RR or RNR frame confirms and hands over.
ghost use Rattle.std.specs.Prelude.{◌≤◌, ◌≡◌, length};
ghost use Rattle.side.specs.Rule.{ack, advanced, count_rule, filled_with, hand_over, irrecoverable, is_rnr, next, not_taken, on_i, on_new, on_nr, seen};

use crate::Side;
use frame::{Meaning, ReceiveCount, SendCount};

// What the Nr of a frame says of the held message.
#[derive(Clone, Copy, Debug, PartialEq, Eq)]
pub enum Ack {
    ConfirmsNothing,
    Confirms,
    Astray,
}

// What the Ns of an I frame says of its message.
#[derive(Clone, Copy, Debug, PartialEq, Eq)]
pub enum Seen {
    New,
    Duplicate,
    Strange,
}

// The size of the message that a frame confirmed and of the message that it handed over (0: none, as in `News`).
#[derive(Clone, Copy, Debug, PartialEq, Eq)]
pub struct Accepted {
    pub confirmed: usize,
    pub handed: usize,
}

// What a frame brought, nothing where it is irrecoverable, and the side after it. The inner steps go from a value to a value, as the definitions do: an
// irrecoverable frame leaves the side as it was handed in, and nothing has to be put back. Each is part of its caller and changes the copy that it was
// given: as a call, or with `..self`, it would copy a side once more.
#[derive(Clone, Copy)]
pub struct Hearing {
    pub heard: Option<Accepted>,
    pub side: Side,
}

// A count goes round: 0 follows 7.
pub fn next(count: u8) -> u8
    ensures { result ≡ next count }
{
    (count % 8 + 1) % 8
}

#[tactic(auto, unfolding(crate::specs::Rule::is_rnr))]
pub fn is_rnr(meaning: Meaning) -> bool
    ensures { result ≡ is_rnr meaning }
{
    matches!(meaning, Meaning::Rnr(_))
}

impl Side {
    // The count rule. To the ends that go by it any other frame is as bad as an irrecoverable one.
    #[inline(always)]
    #[tactic(auto, unfolding(crate::specs::Rule::count_rule))]
    pub fn hear(self, meaning: Meaning, information: &[u8]) -> Hearing
        ensures { result ≡ count_rule self meaning information.now }
    {
        match meaning {
            Meaning::I(ns, nr) => self.hear_i(ns, nr, information),
            Meaning::Rr(nr) | Meaning::Rnr(nr) => self.hear_nr(nr),
            _ => self.irrecoverable(),
        }
    }

    // The judgement of Nr against own Ns: all that request 109 changes.
    #[tactic(auto, unfolding(crate::specs::Rule::ack))]
    fn acks(self, nr: ReceiveCount) -> Ack
        ensures { result ≡ ack self nr }
    {
        if nr.0 == self.ns.0 {
            return Ack::ConfirmsNothing;
        }
        if nr.0 == next(self.ns.0) {
            return Ack::Confirms;
        }
        Ack::Astray
    }

    #[inline(always)]
    fn hear_nr(self, nr: ReceiveCount) -> Hearing
        ensures { result ≡ on_nr self (ack self nr) }
    {
        match self.acks(nr) {
            Ack::ConfirmsNothing => self.not_taken(0),
            Ack::Confirms => self.confirmed(),
            Ack::Astray => self.irrecoverable(),
        }
    }

    // The judgement of Ns against own Nr.
    #[tactic(auto, unfolding(crate::specs::Rule::seen))]
    fn sees(self, ns: SendCount) -> Seen
        ensures { result ≡ seen self ns }
    {
        if ns.0 == self.nr.0 {
            return Seen::New;
        }
        if next(ns.0) == self.nr.0 {
            return Seen::Duplicate;
        }
        Seen::Strange
    }

    // Both counts are judged before anything is done: an irrecoverable frame confirms nothing.
    #[inline(always)]
    fn hear_i(self, ns: SendCount, nr: ReceiveCount, information: &[u8]) -> Hearing
        ensures { result ≡ on_i self (ack self nr) information.now (seen self ns) }
    {
        match self.sees(ns) {
            Seen::New => self.hear_new(nr, information),
            Seen::Duplicate => self.hear_nr(nr),
            Seen::Strange => self.irrecoverable(),
        }
    }

    #[inline(always)]
    fn hear_new(self, nr: ReceiveCount, information: &[u8]) -> Hearing
        ensures { result ≡ on_new information.now (on_nr self (ack self nr)) }
    {
        let hearing = self.hear_nr(nr);
        match hearing.heard {
            None => hearing,
            Some(accepted) => hearing.side.hand_over(accepted.confirmed, information),
        }
    }

    // A new message goes into the empty slot and Nr goes up; else it is not taken and Nr stays.
    #[inline(always)]
    #[tactic(auto, using(crate::proofs::Parts::room_small), unfolding(crate::specs::Rule::hand_over))]
    fn hand_over(self, confirmed: usize, message: &[u8]) -> Hearing
        ensures { result ≡ hand_over message.now confirmed self }
    {
        let size = message.len();
        if !self.room(size) {
            return self.not_taken(confirmed);
        }
        Hearing {
            heard: Some(Accepted {
                confirmed,
                handed: size,
            }),
            side: self.advanced().filled_with(message),
        }
    }

    #[inline(always)]
    fn not_taken(self, confirmed: usize) -> Hearing
        ensures { result ≡ not_taken confirmed self }
    {
        Hearing {
            heard: Some(Accepted {
                confirmed,
                handed: 0,
            }),
            side: self,
        }
    }

    #[inline(always)]
    fn advanced(mut self) -> Side
        ensures { result ≡ advanced self }
    {
        self.nr = ReceiveCount(next(self.nr.0));
        self
    }

    #[inline(always)]
    fn filled_with(mut self, message: &[u8]) -> Side
        requires { length message.now ≤ 253 }
        ensures { result ≡ filled_with message.now self }
    {
        let mut incoming = self.incoming;
        incoming[..message.len()].copy_from_slice(message);
        self.incoming = incoming;
        self.waits = message.len();
        self
    }

    // The held message, if any, is released and Ns goes up.
    #[inline(always)]
    fn confirmed(mut self) -> Hearing
        ensures { result ≡ on_nr self Ack.Confirms }
    {
        let confirmed = self.holds;
        self.ns = SendCount(next(self.ns.0));
        self.holds = 0;
        self.sent = false;
        Hearing {
            heard: Some(Accepted {
                confirmed,
                handed: 0,
            }),
            side: self,
        }
    }

    #[inline(always)]
    fn irrecoverable(self) -> Hearing
        ensures { result ≡ irrecoverable self }
    {
        Hearing {
            heard: None,
            side: self,
        }
    }
}
