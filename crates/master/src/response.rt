// The response to an order: what it brings in each mode, and when it counts as silence.
ghost use Rattle.std.specs.Prelude.{◌≡◌};
ghost use Rattle.frame.specs.Answer.{refusal_in};
ghost use Rattle.master.specs.Response.{accepts, age_of, counts_as_silence, goes, hear_connecting, hear_disconnecting, hear_linked, hears, links, response_given, response_of, response_refusal, turns};

use crate::{Master, Mode};
use frame::{Meaning, Refusal, refusal};
use side::answer::{Change, News};
use side::rule::Accepted;
use side::{Side, rule};

// What a response brings that is neither refused nor counted as silence: a value, like `side::rule::Hearing` and for
// its reason; the response and its inner steps are inlined for that reason too.
#[derive(Clone, Copy)]
pub struct Brought {
    pub news: News,
    pub master: Master,
}

impl Master {
    // Takes the response to the waiting order: 30, 16, 9, 10, 12. A late one, or one from another address, counts as silence and brings nothing.
    #[inline(always)]
    #[tactic(auto, unfolding(crate::specs::Response::response_of))]
    pub fn response(
        &mut self,
        address: u8,
        meaning: Meaning,
        information: &[u8],
        tick: u32,
    ) -> Result<Option<News>, Refusal>
        ensures { response_given result self.new ≡ response_of self.old address meaning information.now tick }
    {
        self.response_refusal(meaning, information)?;
        if self.counts_as_silence(address, tick) {
            self.waiting = false;
            return Ok(None);
        }
        let brought = self.hears(meaning, information);
        *self = brought.master;
        Ok(Some(brought.news))
    }

    #[tactic(auto, unfolding(crate::specs::Response::response_refusal))]
    fn response_refusal(&self, meaning: Meaning, information: &[u8]) -> Result<(), Refusal>
        ensures { refusal_in result ≡ response_refusal self.now meaning information.now }
    {
        self.silence_refusal()?;
        refusal::frame_refusal(meaning, information)
    }

    #[tactic(auto, unfolding(crate::specs::Response::counts_as_silence))]
    fn counts_as_silence(&self, address: u8, tick: u32) -> bool
        ensures { result ≡ counts_as_silence self.now address tick }
    {
        address != self.address || self.limit <= age(tick, self.tick)
    }

    #[inline(always)]
    #[tactic(auto, unfolding(crate::specs::Response::hears))]
    fn hears(self, meaning: Meaning, information: &[u8]) -> Brought
        ensures { result ≡ hears self meaning information.now }
    {
        match self.mode {
            Mode::Disconnecting => self.hear_disconnecting(meaning),
            Mode::Connecting => self.hear_connecting(meaning),
            Mode::Linked => self.hear_linked(meaning, information),
        }
    }

    #[inline(always)]
    #[tactic(auto, unfolding(crate::specs::Response::hear_disconnecting, crate::specs::Response::is_ua))]
    fn hear_disconnecting(self, meaning: Meaning) -> Brought
        ensures { result ≡ hear_disconnecting self meaning }
    {
        match meaning {
            Meaning::Ua => self.turns(Mode::Connecting, Change::Same),
            _ => self.turns(Mode::Disconnecting, Change::Same),
        }
    }

    #[inline(always)]
    #[tactic(auto, unfolding(crate::specs::Response::hear_connecting, crate::specs::Response::is_ua))]
    fn hear_connecting(self, meaning: Meaning) -> Brought
        ensures { result ≡ hear_connecting self meaning }
    {
        match meaning {
            Meaning::Ua => self.links(),
            _ => self.turns(Mode::Disconnecting, Change::Same),
        }
    }

    #[inline(always)]
    #[tactic(auto, unfolding(crate::specs::Response::hear_linked))]
    fn hear_linked(self, meaning: Meaning, information: &[u8]) -> Brought
        ensures { result ≡ hear_linked self meaning information.now }
    {
        let hearing = self.side.hear(meaning, information);
        match hearing.heard {
            None => self.turns(Mode::Disconnecting, Change::Lost),
            Some(accepted) => self.accepts(meaning, hearing.side, accepted),
        }
    }

    // RNR heard marks the peer busy; RR or I clears the mark.
    #[inline(always)]
    #[tactic(auto, unfolding(crate::specs::Response::accepts))]
    fn accepts(self, meaning: Meaning, side: Side, accepted: Accepted) -> Brought
        ensures { result ≡ accepts self meaning side accepted.confirmed accepted.handed }
    {
        Brought {
            news: News {
                confirmed: accepted.confirmed,
                handed: accepted.handed,
                link: Change::Same,
            },
            master: self.goes(Mode::Linked, rule::is_rnr(meaning), side),
        }
    }

    // UA to SNRM: both ends synchronise, and the peer is not busy.
    #[inline(always)]
    fn links(self) -> Brought
        ensures { result ≡ links self }
    {
        Brought {
            news: News {
                confirmed: 0,
                handed: 0,
                link: Change::Gained,
            },
            master: self.goes(Mode::Linked, false, self.side.synchronised()),
        }
    }

    // Another mode, and the wait ended; all else stays.
    #[inline(always)]
    fn turns(self, mode: Mode, link: Change) -> Brought
        ensures { result ≡ turns self mode link }
    {
        Brought {
            news: News {
                confirmed: 0,
                handed: 0,
                link,
            },
            master: self.goes(mode, self.busy, self.side),
        }
    }

    #[inline(always)]
    fn goes(mut self, mode: Mode, busy: bool, side: Side) -> Master
        ensures { result ≡ goes self mode busy side }
    {
        self.side = side;
        self.mode = mode;
        self.busy = busy;
        self.waiting = false;
        self
    }
}

// The age of a response in ticks, across the tick's wrap.
pub fn age(tick: u32, since: u32) -> u32
    ensures { result ≡ age_of tick since }
{
    tick.wrapping_sub(since)
}
