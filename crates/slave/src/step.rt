// The slave's step: an order comes in, and the response to it goes on the line.
ghost use Rattle.std.specs.Prelude.{◌≡◌, length};
ghost use Rattle.frame.specs.Answer.{refusal_in};
ghost use Rattle.side.specs.Given.{given};
ghost use Rattle.slave.specs.Step.{answers, in_ndm, in_nrm, moved, other_refusal, responds, step_bytes, step_of, step_refusal};

use crate::{Mode, Slave};
use frame::{Line, Meaning, Refusal, refusal};
use side::answer::{Change, News};
use side::rule::Accepted;
use side::{Side, rule, slot};

// What an order that is not refused does: a value, like `side::rule::Hearing` and for its reason; the step and its inner steps are inlined for
// that reason too.
#[derive(Clone, Copy)]
pub struct Moved {
    pub line: Line,
    pub news: News,
    pub slave: Slave,
}

impl Slave {
    // Answers an order, with the response's information in the lent buffer: 30, 11, 9, 10, 12, 19.
    #[inline(always)]
    #[tactic(auto, using(crate::proofs::Keeps::step_fits, side::proofs::Parts::laid_fits), unfolding(crate::specs::Step::step_of))]
    pub fn step(
        &mut self,
        address: u8,
        meaning: Meaning,
        information: &[u8],
        out: &mut [u8],
    ) -> Result<(Line, News), Refusal>
        ensures answer { given result self.new ≡ step_of self.old address meaning information.now (length out.old) }
        ensures bytes { out.new ≡ step_bytes self.old address meaning information.now out.old }
    {
        self.step_refusal(address, meaning, information, out.len())?;
        let moved = self.moved(meaning, information);
        slot::lay(&self.side.held, moved.line.size, out);
        *self = moved.slave;
        Ok((moved.line, moved.news))
    }

    #[tactic(auto, unfolding(crate::specs::Step::step_refusal))]
    fn step_refusal(
        &self,
        address: u8,
        meaning: Meaning,
        information: &[u8],
        room: usize,
    ) -> Result<(), Refusal>
        ensures { refusal_in result ≡ step_refusal self.now address meaning information.now room }
    {
        self.wrong()?;
        slot::room_refusal(room)?;
        refusal::frame_refusal(meaning, information)?;
        other_refusal(self.address, address)
    }

    #[inline(always)]
    #[tactic(auto, unfolding(crate::specs::Step::moved))]
    fn moved(self, meaning: Meaning, information: &[u8]) -> Moved
        ensures { result ≡ moved self meaning information.now }
    {
        match self.mode {
            Mode::Ndm => self.in_ndm(meaning),
            Mode::Nrm => self.in_nrm(meaning, information),
        }
    }

    // Table 3's row NDM: only DISC and SNRM are answered by UA.
    #[inline(always)]
    #[tactic(auto, unfolding(crate::specs::Step::in_ndm))]
    fn in_ndm(self, meaning: Meaning) -> Moved
        ensures { result ≡ in_ndm self meaning }
    {
        match meaning {
            Meaning::Snrm => self.answers(
                self.side.synchronised(),
                Mode::Nrm,
                Meaning::Ua,
                Change::Gained,
            ),
            Meaning::Disc => self.answers(self.side, Mode::Ndm, Meaning::Ua, Change::Same),
            _ => self.rejects(Change::Same),
        }
    }

    // Table 3's row NRM: the count rule, and FRMR for all that it does not take.
    #[inline(always)]
    #[tactic(auto, unfolding(crate::specs::Step::in_nrm))]
    fn in_nrm(self, meaning: Meaning, information: &[u8]) -> Moved
        ensures { result ≡ in_nrm self meaning information.now }
    {
        let hearing = self.side.hear(meaning, information);
        match hearing.heard {
            None => self.rejects(Change::Lost),
            Some(accepted) => self.responds(meaning, hearing.side, accepted),
        }
    }

    // I if a message is held and the order was not RNR, else RNR or RR: judged after the order.
    #[inline(always)]
    #[tactic(auto, unfolding(crate::specs::Step::responds))]
    fn responds(self, meaning: Meaning, side: Side, accepted: Accepted) -> Moved
        ensures { result ≡ responds self meaning side accepted.confirmed accepted.handed }
    {
        let saying = side.say(!rule::is_rnr(meaning));
        Moved {
            line: Line {
                address: self.address,
                meaning: saying.meaning,
                size: saying.size,
            },
            news: News {
                confirmed: accepted.confirmed,
                handed: accepted.handed,
                link: Change::Same,
            },
            slave: Slave {
                side: saying.side,
                mode: Mode::Nrm,
                address: self.address,
            },
        }
    }

    // FRMR and NDM; all that the end holds stays.
    #[inline(always)]
    fn rejects(self, link: Change) -> Moved
        ensures { result ≡ answers self self.side Mode.Ndm Meaning.Frmr link }
    {
        self.answers(self.side, Mode::Ndm, Meaning::Frmr, link)
    }

    #[inline(always)]
    fn answers(self, side: Side, mode: Mode, meaning: Meaning, link: Change) -> Moved
        ensures { result ≡ answers self side mode meaning link }
    {
        Moved {
            line: Line {
                address: self.address,
                meaning,
                size: 0,
            },
            news: News {
                confirmed: 0,
                handed: 0,
                link,
            },
            slave: Slave {
                side,
                mode,
                address: self.address,
            },
        }
    }
}

fn other_refusal(own: u8, address: u8) -> Result<(), Refusal>
    ensures { refusal_in result ≡ other_refusal own address }
{
    if address != own {
        return Err(Refusal::OtherAddress);
    }
    Ok(())
}
